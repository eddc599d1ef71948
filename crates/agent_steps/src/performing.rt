//! Performs operations that are granted: X.711, section 7.

ghost use Rattle.std.specs.Prelude.{◌≡◌, ◌+◌, ◌^◌, ◌<◌, ◌≤◌, [], ◌∷◌, Some, length, IfOk, OnOk};
ghost use Rattle.agent_model.specs.declared.agent_state.Operation.{Operation};
ghost use Rattle.agent_model.specs.AgentState.{numbered, operation_of};
ghost use Rattle.term_model.specs.Operation.{replied};
ghost use Rattle.agent_model.specs.Step.{ended};
ghost use Rattle.operation_model.specs.OperationConditions.{AreSmall};
ghost use Rattle.agent_model.specs.Performing.{carried_out};
ghost use Rattle.agent_model.specs.Stepping.{step};
ghost use Rattle.agent_steps.specs.Answering.{answered};
ghost use Rattle.agent_steps.specs.States.{moment_of_grant, sent_to};

use crate::agent::Agent;
use crate::operation_changes::set_operation_state;
use crate::requests::{is_confirmed, operation_number};
use agent_model::{Entry, Operation, OperationState, Operations, Work};
use cmip_replies::{own_behind, write_reply};
use op_install::perform_request;
use std::alloc::{AllocError, Global};
use term_model::{Reply, StepLedger, Steps};
use term_values::Bytes;

/// The frames of replies in their order, and the next own invoke id behind them.
#[derive(Drop)]
struct Frames {
    octets: Vec<u8>,
    own: i32,
}

/// The frames of the replies to an invoke.
fn frames_of(
    alloc: Global,
    replies: &[Reply],
    invoke: i32,
    operation: i64,
    own: i32,
) -> Result<Frames, AllocError>
    ensures octets { IfOk result (λ frames. frames.octets.items ≡ (replied invoke operation own replies.now).octets) }
    ensures own { IfOk result (λ frames. frames.own ≡ (replied invoke operation own replies.now).own) }
{
    let mut octets = Vec::new(alloc);
    let mut next = own;
    for reply in replies {
        write_reply(reply, operation, invoke, next, &mut octets)?;
        next = own_behind(next, reply);
    }
    Ok(Frames { octets, own: next })
}

/// The operation under this number.
fn operation_at(operations: &Operations, number: u64) -> &Operation
    requires { (1 ≤ number) × (number ≤ length operations.now) }
    ensures { Some result.now ≡ numbered operations.now number }
{
    &operations.items[(number - 1) as usize]
}

impl<L: StepLedger> Agent<L> {
    /// The frames of replies to an invoke of the association under this number, where there is one, whose own invoke
    /// ids then go on behind them.
    fn answer(
        &mut self,
        alloc: Global,
        number: u64,
        invoke: i32,
        operation: i64,
        replies: &[Reply],
    ) -> Result<Option<(u64, Bytes)>, AllocError>
        ensures answered { IfOk result (λ bytes. record { agent = self.new; sent = sent_to bytes }
            ≡ answered self.old number invoke operation replies.now) }
        ensures kept { (self.new.operations ≡ self.old.operations) × (self.new.entries ≡ self.old.entries) }
        ensures objects { (self.new.schema ≡ self.old.schema) × (self.new.objects ≡ self.old.objects) }
    {
        let Some(association) = self.associations.at(number) else {
            return Ok(None);
        };
        let frames = frames_of(alloc, replies, invoke, operation, association.next_own)?;
        self.associations.set_own(number, frames.own);
        Ok(Some((
            number,
            Bytes {
                items: frames.octets,
            },
        )))
    }

    /// Carries out the operation under this number, granted at this moment, and answers the bytes that are sent.
    fn carry_out(
        &mut self,
        alloc: Global,
        number: u64,
        moment: u64,
        steps: &mut Steps<L>,
    ) -> Result<Option<(u64, Bytes)>, AllocError>
        requires within { (1 ≤ number) × (number ≤ length self.old.operations) }
        requires small { AreSmall self.old.schema self.old.objects }
        ensures carried_out { IfOk result (λ bytes. (o : Operation) → operation_of self.old number ≡ Some o
            → record { agent = self.new; sent = sent_to bytes } ≡ carried_out self.old o.work moment) }
        ensures small { OnOk result (AreSmall self.new.schema self.new.objects) }
        ensures kept { (self.new.operations ≡ self.old.operations) × (self.new.entries ≡ self.old.entries) }
    {
        let operation = operation_at(&self.operations, number);
        let Work::Asked {
            association,
            invoke,
            request,
        } = &operation.work
        else {
            return Ok(None);
        };
        let (association, invoke) = (*association, *invoke);
        let (operation, confirmed) = (operation_number(request), is_confirmed(request));
        let told = perform_request(alloc, &self.schema, &mut self.mib, request, moment, steps)?;
        let Some(replies) = told else {
            return Ok(None);
        };
        if !confirmed {
            return Ok(None);
        }
        let sending = self.answer(
            alloc,
            association,
            invoke,
            operation,
            replies.items.as_slice(),
        )?;
        Ok(sending)
    }

    /// The operation under this number, which was granted at this moment in seconds since 1970, is performed, and its
    /// replies are placed for the association that asked, where it asked for any. Each object must be at most 16,384
    /// octets long, as it is afterwards. After want of memory the agent is of no use.
    pub fn commit(
        &mut self,
        alloc: Global,
        number: u64,
        moment: u64,
        steps: &mut Steps<L>,
    ) -> Result<(), AllocError>
        requires granted { moment_of_grant self.old number ≡ Some moment }
        requires small { AreSmall self.old.schema self.old.objects }
        requires room { self.old.entries + 1 < 2 ^ 64 }
        ensures stepped { OnOk result (self.new ≡ step self.old (Entry.Committed number)) }
        ensures small { OnOk result (AreSmall self.new.schema self.new.objects) }
    {
        let sending = self.carry_out(alloc, number, moment, steps)?;
        self.end_operation(number);
        self.send(sending)?;
        self.count_entry();
        Ok(())
    }

    /// The operation under this number ends with the next entry.
    fn end_operation(&mut self, number: u64)
        requires { (1 ≤ number) × (number ≤ length self.old.operations) }
        ensures { self.new ≡ ended self.old number }
    {
        let state = OperationState::Ended(self.entries);
        set_operation_state(&mut self.operations, number, state);
    }
}
