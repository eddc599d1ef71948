//! Laws of results and errors, as contracts: X.711, section 7.5; X.690, section 10.

ghost use Rattle.result_contents.specs.ResultLaws.{AttributeIsWritten, AttributesAreWritten, GetIsWritten};
ghost use Rattle.result_contents.specs.ResultLaws.{InstanceIsWritten, LinkedIsWritten, KeptIsWritten};

/// The octets by which names, attributes and the results of a Get are said elsewhere are the one form of their
/// values. A linked reply under its tag is the one form of LinkedReply with its value. What stands as the request
/// brought it, and is the one form of an instance, stands there as the value of the instance would. Does nothing.
pub fn octets_are_values()
    ensures instance { InstanceIsWritten }
    ensures attribute { AttributeIsWritten }
    ensures attributes { AttributesAreWritten }
    ensures get { GetIsWritten }
    ensures linked { LinkedIsWritten }
    ensures kept { KeptIsWritten }
{}
