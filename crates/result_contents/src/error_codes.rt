//! The numbers of the errors of CMIP: X.711, section 9. The last two stand in a setListError alone.

/// noSuchObjectClass.
pub const NO_SUCH_OBJECT_CLASS: i64 = 0;

/// noSuchObjectInstance.
pub const NO_SUCH_OBJECT_INSTANCE: i64 = 1;

/// accessDenied.
pub const ACCESS_DENIED: i64 = 2;

/// syncNotSupported.
pub const SYNC_NOT_SUPPORTED: i64 = 3;

/// invalidFilter.
pub const INVALID_FILTER: i64 = 4;

/// noSuchAttribute.
pub const NO_SUCH_ATTRIBUTE: i64 = 5;

/// invalidAttributeValue.
pub const INVALID_ATTRIBUTE_VALUE: i64 = 6;

/// getListError.
pub const GET_LIST_ERROR: i64 = 7;

/// setListError.
pub const SET_LIST_ERROR: i64 = 8;

/// noSuchAction.
pub const NO_SUCH_ACTION: i64 = 9;

/// processingFailure.
pub const PROCESSING_FAILURE: i64 = 10;

/// duplicateManagedObjectInstance.
pub const DUPLICATE_OBJECT_INSTANCE: i64 = 11;

/// noSuchReferenceObject.
pub const NO_SUCH_REFERENCE_OBJECT: i64 = 12;

/// noSuchEventType.
pub const NO_SUCH_EVENT_TYPE: i64 = 13;

/// noSuchArgument.
pub const NO_SUCH_ARGUMENT: i64 = 14;

/// invalidArgumentValue.
pub const INVALID_ARGUMENT_VALUE: i64 = 15;

/// invalidScope.
pub const INVALID_SCOPE: i64 = 16;

/// invalidObjectInstance.
pub const INVALID_OBJECT_INSTANCE: i64 = 17;

/// missingAttributeValue.
pub const MISSING_ATTRIBUTE_VALUE: i64 = 18;

/// classInstanceConflict.
pub const CLASS_INSTANCE_CONFLICT: i64 = 19;

/// complexityLimitation.
pub const COMPLEXITY_LIMITATION: i64 = 20;

/// mistypedOperation.
pub const MISTYPED_OPERATION: i64 = 21;

/// noSuchInvokeId.
pub const NO_SUCH_INVOKE_ID: i64 = 22;

/// operationCancelled.
pub const OPERATION_CANCELLED: i64 = 23;

/// invalidOperation.
pub const INVALID_OPERATION: i64 = 24;

/// invalidOperator.
pub const INVALID_OPERATOR: i64 = 25;
