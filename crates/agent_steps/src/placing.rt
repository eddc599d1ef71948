//! The bytes that a step has for an association: docs/PROFILE.md, section 7.

ghost use Rattle.std.specs.Prelude.{◌≡◌, ◌≤◌, length, OnOk};
ghost use Rattle.agent_model.specs.Placing.{overrun, placed, placed_for};
ghost use Rattle.agent_steps.specs.States.{sent_to};

use crate::agent::Agent;
use crate::association_changes::count_left;
use crate::operation_changes::end_all_outstanding;
use agent_model::AssociationState;
use std::alloc::AllocError;
use term_model::StepLedger;
use term_values::Bytes;

impl<L: StepLedger> Agent<L> {
    /// Closes the association under this number, and ends its operations that have not ended.
    fn overrun(&mut self, number: u64)
        requires { (1 ≤ number) × (number ≤ length self.old.associations) }
        ensures { self.new ≡ overrun self.old number }
    {
        self.associations.close(number, AssociationState::Overrun);
        end_all_outstanding(&mut self.operations, number, self.entries);
    }

    /// Places all bytes of a step for the association under this number. Where these and those not taken are more than
    /// an association may have, none are placed, and it is closed.
    fn place(&mut self, number: u64, bytes: &[u8]) -> Result<(), AllocError>
        ensures placed { OnOk result (self.new ≡ placed_for self.old number bytes.now) }
        ensures entries { self.new.entries ≡ self.old.entries }
    {
        if bytes.is_empty() {
            return Ok(());
        }
        let Some(association) = self.associations.at(number) else {
            return Ok(());
        };
        let room = self.limits.untaken.saturating_sub(count_left(association));
        if bytes.len() as u64 > room {
            self.overrun(number);
            return Ok(());
        }
        self.associations.place(number, bytes)?;
        Ok(())
    }

    /// Places the bytes of a step, where it has any for an association.
    pub(crate) fn send(&mut self, sending: Option<(u64, Bytes)>) -> Result<(), AllocError>
        ensures placed { OnOk result (self.new ≡ placed self.old (sent_to sending)) }
        ensures entries { self.new.entries ≡ self.old.entries }
    {
        match sending {
            Some((number, bytes)) => self.place(number, bytes.as_slice()),
            None => Ok(()),
        }
    }
}
