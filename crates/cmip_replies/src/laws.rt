//! Laws of what is sent, as contracts: X.229, section 9; X.711, section 7; X.690, section 10.

ghost use Rattle.cmip_replies.specs.ReplyLaws.{EmptyIsReadBack, ErrorIsReadBack, EventIsReadBack, LinkedIsReadBack};
ghost use Rattle.cmip_replies.specs.ReplyLaws.{LongErrorIsReadBack, RejectIsReadBack, SingleIsReadBack};

use rose_frames::laws as apdu_laws;
use typed_laws::laws as value_laws;

/// What is sent is read back: the frame has the APDU's one form, the APDU is read from its tree as what was sent, and
/// from what stands in it the value by its syntax. Does nothing.
pub fn sent_is_read_back()
    ensures single { SingleIsReadBack }
    ensures linked { LinkedIsReadBack }
    ensures empty { EmptyIsReadBack }
    ensures error { ErrorIsReadBack }
    ensures long_error { LongErrorIsReadBack }
    ensures event { EventIsReadBack }
    ensures reject { RejectIsReadBack }
{
    apdu_laws::written_is_read_back();
    value_laws::written_is_read_back();
}
