//! A granted request, carried out on the objects: X.711, section 7; docs/PROFILE.md, section 17.

ghost use Rattle.std.specs.Prelude.{◌≡◌, ℕ, IfOk, List, OnOk, is_some};
ghost use Rattle.std.specs.Option.{option_map, option_map_or};
ghost use Rattle.term_model.specs.declared.objects.NamedObject.{NamedObject};
ghost use Rattle.operation_model.specs.OperationConditions.{AreSmall, HasValidFilter};
ghost use Rattle.operation_model.specs.WholeOperation.{Outcome, outcome};

use crate::installing::install;
use mo_list::ListMib as Mib;
use op_engine::{Replies, plan_request};
use std::alloc::{AllocError, Global};
use term_model::{Request, Set, StepLedger, Steps};

/// Whether it is said what comes of such a request.
fn has_outcome(request: &Request) -> bool
    ensures { (schema : Set) (objects : List NamedObject) (moment : ℕ)
        → is_some (outcome schema objects request.now moment) ≡ result }
{
    match request {
        Request::Get { .. } => true,
        Request::Set { .. } => true,
        _ => false,
    }
}

/// Carries out a request, granted at a moment in seconds since 1970, on the objects as they are. So far that is an
/// m-Get or an m-Set: what [`plan_request`] plans is installed in the map, and its replies are handed out. Any other
/// request changes nothing and has no replies.
///
/// Each object must have at most 16,384 octets, as each then has afterwards, and the filter must be valid under the
/// schema, as those of an agent are. After want of memory, the one error, the map may have a part of the changes, and is
/// not to be used again.
pub fn perform_request<L: StepLedger>(
    alloc: Global,
    schema: &Set,
    mib: &mut Mib<L>,
    request: &Request,
    moment: u64,
    steps: &mut Steps<L>,
) -> Result<Option<Replies>, AllocError>
    requires small { AreSmall schema.now mib.old }
    requires valid { HasValidFilter schema.now request.now }

    // the replies of an m-Get or an m-Set; none of another request
    ensures replies { IfOk result (λ told. told
        ≡ option_map (λ (left : Outcome). left.replies) (outcome schema.now mib.old request.now moment)) }

    // the objects that it leaves, each at most as long as before; another request changes nothing
    ensures objects { OnOk result (mib.new
        ≡ option_map_or (λ (left : Outcome). left.objects) (outcome schema.now mib.old request.now moment) mib.old) }
    ensures small { OnOk result (AreSmall schema.now mib.new) }
{
    if !has_outcome(request) {
        return Ok(None);
    }
    let plan = plan_request(alloc, schema, mib, request, moment, steps)?;
    install(alloc, mib, plan.changes, steps)?;
    Ok(Some(plan.replies))
}
