//! What the APDUs of an association do: X.229, section 9; X.711, section 7.

ghost use Rattle.std.specs.Prelude.{◌≡◌, ◌<◌, ◌++◌, ◌∷◌, [], Some, IfOk, OnErr, OnOk};
ghost use Rattle.term_model.specs.RemoteOperation.{integer};
ghost use Rattle.term_model.specs.SentApdus.{sent_reject};
ghost use Rattle.agent_model.specs.Step.{no_such_invoke_id, queued};
ghost use Rattle.agent_model.specs.Stepping.{sent_error, taken_in};
ghost use Rattle.apdu_receiving.specs.Arrivals.{HasSmallClass, HasValidRequest, arriving_of};
ghost use Rattle.agent_steps.specs.States.{IsIdle, sent_to};

use crate::agent::Agent;
use agent_model::{Operation, OperationState, Operations, Work};
use apdu_receiving::Received;
use ber_tree::tree_writing::write_integer_contents;
use ber_tree::value_writing::write_value;
use cmip_replies::{write_reject, write_reply};
use std::alloc::{AllocError, Global};
use term_model::{CmisError, Invocation, Reply, StepLedger};
use term_values::{Bytes, Tag};

/// noSuchInvokeId: X.711, section 7.5.
const NO_SUCH_INVOKE_ID: i64 = 22;

/// m-Cancel-Get.
const M_CANCEL_GET: i64 = 10;

/// An own invoke id where none is written.
const ANY_OWN: i32 = 1;

/// A reject in its frame.
fn reject(alloc: Global, id: Option<i32>, class: u8, problem: i64) -> Result<Bytes, AllocError>
    requires { class < 4 }
    ensures { IfOk result (λ bytes. bytes ≡ sent_reject id class problem) }
{
    let mut items = Vec::new(alloc);
    write_reject(id, class, problem, &mut items)?;
    Ok(Bytes { items })
}

/// An INTEGER.
fn integer(alloc: Global, number: i64) -> Result<Bytes, AllocError>
    ensures { IfOk result (λ bytes. bytes ≡ integer number) }
{
    let mut contents = Vec::new(alloc);
    write_integer_contents(number, &mut contents)?;
    let mut items = Vec::new(alloc);
    write_value(false, Tag::INTEGER, contents.as_slice(), &mut items)?;
    Ok(Bytes { items })
}

/// The error of an m-Cancel-Get that names no invoke, in its frame: X.711, section 7.5.
fn no_such_invoke(alloc: Global, id: i32, cancelled: i64) -> Result<Bytes, AllocError>
    ensures { IfOk result (λ bytes. bytes ≡ sent_error id no_such_invoke_id (Some (integer cancelled))) }
{
    let error = Reply::Error(CmisError {
        code: NO_SUCH_INVOKE_ID,
        parameter: Some(integer(alloc, cancelled)?),
    });
    let mut items = Vec::new(alloc);
    write_reply(&error, M_CANCEL_GET, id, ANY_OWN, &mut items)?;
    Ok(Bytes { items })
}

/// Queues a request of the association under this number.
fn queue(operations: &mut Operations, number: u64, invocation: Invocation) -> Result<(), AllocError>
    ensures queued { OnOk result (operations.new ≡ operations.old ++ queued number invocation ∷ []) }
    ensures kept { OnErr result (operations.new ≡ operations.old) }
{
    operations.items.push(Operation {
        work: Work::Asked {
            association: number,
            invoke: invocation.id,
            request: invocation.request,
        },
        state: OperationState::Waiting,
    })?;
    Ok(())
}

impl<L: StepLedger> Agent<L> {
    /// Takes in what an APDU of the association under this number brings, where no operation is outstanding, and
    /// answers the bytes that are sent.
    pub(crate) fn take_in(
        &mut self,
        alloc: Global,
        number: u64,
        received: Received,
    ) -> Result<Option<(u64, Bytes)>, AllocError>
        requires idle { IsIdle self.old }
        requires class { HasSmallClass received }
        requires valid { HasValidRequest self.old.schema received }
        ensures taken_in { IfOk result (λ sending. record { agent = self.new; sent = sent_to sending }
            ≡ taken_in self.old number (arriving_of received)) }
        ensures entries { self.new.entries ≡ self.old.entries }
    {
        match received {
            Received::Rejected { id, class, problem } => {
                Ok(Some((number, reject(alloc, id, class, problem)?)))
            }
            Received::Cancels { id, cancelled } => {
                Ok(Some((number, no_such_invoke(alloc, id, cancelled)?)))
            }
            Received::NoEffect => Ok(None),
            Received::Queued(invocation) => {
                queue(&mut self.operations, number, invocation)?;
                Ok(None)
            }
        }
    }
}
