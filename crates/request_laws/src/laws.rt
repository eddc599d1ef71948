//! Laws of requests, as contracts: X.711, section 7.

ghost use Rattle.request_laws.specs.ArgumentLaws.{CancelIsDenoted, NoCancelIsDenoted, NoRequestIsDenoted};
ghost use Rattle.request_laws.specs.ArgumentLaws.{RequestIsDenoted};
ghost use Rattle.request_laws.specs.ChangeDenoting.{ActionIsDenoted, SetIsDenoted};
ghost use Rattle.request_laws.specs.CreateDenoting.{CreateIsDenoted};
ghost use Rattle.request_laws.specs.ObjectDenoting.{ReportIsDenoted};
ghost use Rattle.request_laws.specs.OperationDenoting.{OperationIsDenoted};
ghost use Rattle.request_laws.specs.RequestDenoting.{DeleteIsDenoted, GetIsDenoted};

/// A tree gives no request exactly where it denotes no value of the PDU syntax of the operation's argument, and where
/// it gives one it denotes such a value. The invoke id to cancel that is read is the one that the tree denotes, and
/// none is read exactly where none is denoted. Does nothing.
pub fn reading_is_denoting()
    // the arguments of the operations
    ensures none { NoRequestIsDenoted }
    ensures denotes { RequestIsDenoted }

    // m-Cancel-Get
    ensures cancel { CancelIsDenoted }
    ensures no_cancel { NoCancelIsDenoted }
{}

/// The request that is read of the argument of an m-Get, m-Set, m-Action, m-Create, m-Delete or m-EventReport,
/// confirmed or not, is one that the tree denotes under the schema. The tags of the syntaxes of attributes, and of the
/// information of actions and notifications, are clear. Does nothing.
pub fn request_is_denoted()
    // any operation
    ensures operation { OperationIsDenoted }

    // each
    ensures get { GetIsDenoted }
    ensures set { SetIsDenoted }
    ensures action { ActionIsDenoted }
    ensures create { CreateIsDenoted }
    ensures delete { DeleteIsDenoted }
    ensures report { ReportIsDenoted }
{}
