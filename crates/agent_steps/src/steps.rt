//! The steps of the agent, one for each kind of entry: each does what the definition of a step says of a legal entry. A
//! commit, which performs an operation, stands in `performing`.

ghost use Rattle.std.specs.Prelude.{◌≡◌, ◌+◌, ◌^◌, ◌<◌, ◌==◌, length, IsTrue, OnOk};
ghost use Rattle.std.specs.Prelude.{if◌then◌else◌};
ghost use Rattle.std.specs.Option.{option_map_or};
ghost use Rattle.agent_model.specs.AgentState.{association_of, left_to_take};
ghost use Rattle.agent_model.specs.Step.{is_legal};
ghost use Rattle.agent_model.specs.Binding.{answer_to, associated};
ghost use Rattle.agent_model.specs.Stepping.{step};
ghost use Rattle.agent_steps.specs.States.{IsIdle};

use crate::agent::Agent;
use crate::association_table::{ACCEPTED, BAD_BIND, TITLE_IN_USE, TOO_MANY};
use crate::operation_changes::set_operation_state;
use agent_model::{Association, AssociationState, Entry, OperationState, Why};
use apdu_receiving::receive_apdu;
use bind_apdus::bind_reading::title_in;
use bind_apdus::bind_writing::bind_answer_frame;
use std::alloc::{AllocError, Global};
use term_model::StepLedger;
use term_values::{Bytes, Oid};

/// The first of the agent's own invoke ids.
const FIRST_OWN: i32 = 1;

/// The association of a manager with this title, which is answered so, before its answer is placed; one that is turned
/// away has no title, and is finished at once.
fn associated(alloc: Global, answer: u8, title: Option<Oid>) -> Association
    ensures { result ≡ associated answer title }
{
    let (title, state) = if answer == ACCEPTED {
        (title, AssociationState::Live)
    } else {
        (None, AssociationState::Finished)
    };
    Association {
        title,
        state,
        next_own: FIRST_OWN,
        placed: Bytes {
            items: Vec::new(alloc),
        },
        taken: 0,
    }
}

impl<L: StepLedger> Agent<L> {
    /// What a BIND is answered, by its title, where it is one.
    fn answer_to(&self, title: &Option<Oid>) -> u8
        ensures { result ≡ answer_to self.now title.now }
    {
        let Some(title) = title else {
            return BAD_BIND;
        };
        if self.associations.count_open() >= self.limits.associations {
            return TOO_MANY;
        }
        if self.associations.has_title(title) {
            return TITLE_IN_USE;
        }
        ACCEPTED
    }

    /// An association is asked for by a BIND; its number is the next one, and the answer to the BIND is placed for it.
    /// Looks at those alone of the other associations that were admitted and are not closed. After want of memory the
    /// agent is of no use.
    pub fn open(&mut self, alloc: Global, bind: &[u8]) -> Result<(), AllocError>
        requires small { length self.old.associations + 1 < 2 ^ 63 }
        requires room { self.old.entries + 1 < 2 ^ 64 }
        ensures stepped { OnOk result (self.new
            ≡ step self.old (Entry.Opened (length self.old.associations + 1) bind.now)) }
    {
        let title = title_in(alloc, bind)?;
        let answer = self.answer_to(&title);
        let number = self.count_associations() + 1;
        let items = bind_answer_frame(alloc, answer, number)?;
        let association = associated(alloc, answer, title);
        self.associations.push(association)?;
        self.send(Some((number, Bytes { items })))?;
        self.count_entry();
        Ok(())
    }

    /// An APDU of the association under this number arrives, while no operation is outstanding. Where it brings a
    /// request, an operation is queued under the next number. An m-Cancel-Get is answered by the error noSuchInvokeId;
    /// an invoke of no operation or with a mistyped argument, and octets that are no APDU, by a reject; a result, an
    /// error and a reject of the manager have no effect. After want of memory the agent is of no use.
    pub fn arrive(&mut self, alloc: Global, number: u64, apdu: &[u8]) -> Result<(), AllocError>
        requires legal { IsTrue (is_legal self.old (Entry.Arrived number apdu.now)) }
        requires idle { IsIdle self.old }
        requires room { self.old.entries + 1 < 2 ^ 64 }
        ensures stepped { OnOk result (self.new ≡ step self.old (Entry.Arrived number apdu.now)) }
    {
        let received = receive_apdu(alloc, &self.schema, &[], apdu)?;
        let sending = self.take_in(alloc, number, received)?;
        self.send(sending)?;
        self.count_entry();
        Ok(())
    }

    /// The operation under this number has all its locks, at this moment in seconds since 1970.
    pub fn grant(&mut self, number: u64, moment: u64)
        requires legal { IsTrue (is_legal self.old (Entry.Granted number moment)) }
        requires room { self.old.entries + 1 < 2 ^ 64 }
        ensures { self.new ≡ step self.old (Entry.Granted number moment) }
    {
        let state = OperationState::Granted(moment);
        set_operation_state(&mut self.operations, number, state);
        self.entries += 1;
    }

    /// Takes all that is left of an association, where there is one and something is left; the answer is how many bytes
    /// these are.
    pub fn take_all(&mut self, number: u64) -> u64
        requires room { self.old.entries + 1 < 2 ^ 64 }
        ensures count { result ≡ option_map_or left_to_take (association_of self.old number) 0 }
        ensures taken { self.new ≡ (if result == 0 then self.old else step self.old (Entry.Taken number result)) }
    {
        let count = self.count_left(number);
        if count > 0 {
            self.associations.take_all(number);
            self.entries += 1;
        }
        count
    }

    /// No more comes from an association.
    pub fn finish(&mut self, number: u64)
        requires legal { IsTrue (is_legal self.old (Entry.Finished number)) }
        requires room { self.old.entries + 1 < 2 ^ 64 }
        ensures { self.new ≡ step self.old (Entry.Finished number) }
    {
        self.associations.finish(number);
        self.entries += 1;
    }

    /// An association of which nothing is outstanding and nothing left to take is closed.
    pub fn close_at_end(&mut self, number: u64)
        requires legal { IsTrue (is_legal self.old (Entry.Closed number Why.End)) }
        requires room { self.old.entries + 1 < 2 ^ 64 }
        ensures { self.new ≡ step self.old (Entry.Closed number Why.End) }
    {
        self.associations
            .close(number, AssociationState::Closed(Why::End));
        self.entries += 1;
    }
}
