//! What the agent asks of a request: X.711, section 7.

ghost use Rattle.std.specs.Prelude.{◌≡◌, if◌then◌else◌};
ghost use Rattle.std.specs.List.{list_any};
ghost use Rattle.term_model.specs.Operation.{operation_number};
ghost use Rattle.agent_model.specs.Performing.{is_confirmed};
ghost use Rattle.agent_steps.specs.Asking.{is_unbuilt, is_unbuilt_work};

use agent_model::{Operations, Work};
use term_model::Request;

/// m-EventReport and m-EventReport-Confirmed.
const M_EVENT_REPORT: i64 = 0;

const M_EVENT_REPORT_CONFIRMED: i64 = 1;

/// m-Get.
const M_GET: i64 = 3;

/// m-Set and m-Set-Confirmed.
const M_SET: i64 = 4;

const M_SET_CONFIRMED: i64 = 5;

/// m-Action and m-Action-Confirmed.
const M_ACTION: i64 = 6;

const M_ACTION_CONFIRMED: i64 = 7;

/// m-Create.
const M_CREATE: i64 = 8;

/// m-Delete.
const M_DELETE: i64 = 9;

/// Whether the request asks for replies.
pub fn is_confirmed(request: &Request) -> bool
    ensures { result ≡ is_confirmed request.now }
{
    match request {
        Request::Get { .. } | Request::Create { .. } | Request::Delete { .. } => true,
        Request::Set { confirmed, .. }
        | Request::Act { confirmed, .. }
        | Request::Report { confirmed, .. } => *confirmed,
    }
}

/// The one number or the other.
fn number_of(confirmed: bool, asking: i64, silent: i64) -> i64
    ensures { result ≡ (if confirmed then asking else silent) }
{
    if confirmed { asking } else { silent }
}

/// The number of the operation.
pub fn operation_number(request: &Request) -> i64
    ensures { result ≡ operation_number request.now }
{
    match request {
        Request::Get { .. } => M_GET,
        Request::Set { confirmed, .. } => number_of(*confirmed, M_SET_CONFIRMED, M_SET),
        Request::Act { confirmed, .. } => number_of(*confirmed, M_ACTION_CONFIRMED, M_ACTION),
        Request::Create { .. } => M_CREATE,
        Request::Delete { .. } => M_DELETE,
        Request::Report { confirmed, .. } => {
            number_of(*confirmed, M_EVENT_REPORT_CONFIRMED, M_EVENT_REPORT)
        }
    }
}

/// Whether an operation asks for anything but m-Get and m-Set.
fn is_unbuilt(work: &Work) -> bool
    ensures { result ≡ is_unbuilt_work work.now }
{
    match work {
        Work::Asked { request, .. } => match request {
            Request::Get { .. } | Request::Set { .. } => false,
            Request::Act { .. }
            | Request::Create { .. }
            | Request::Delete { .. }
            | Request::Report { .. } => true,
        },
        Work::Append { .. } => false,
    }
}

/// Whether one of these operations asks for anything but m-Get and m-Set.
pub fn has_unbuilt(operations: &Operations) -> bool
    ensures { result ≡ list_any is_unbuilt operations.now }
{
    for operation in &operations.items {
        if is_unbuilt(&operation.work) {
            return true;
        }
    }
    false
}
