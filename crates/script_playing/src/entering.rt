//! The entries of a script on its way, each written down when the agent has done what it says.

ghost use Rattle.std.specs.Prelude.{◌≡◌, ◌+◌, ◌^◌, ◌<◌, ◌++◌, [], ◌∷◌, length, vec_capacity, vec_len, IsTrue};
ghost use Rattle.std.specs.Prelude.{OnOk, Some};
ghost use Rattle.agent_model.specs.Playing.{answered, finished, taken_all, with_entry};
ghost use Rattle.agent_steps.specs.States.{IsIdle, moment_of_grant};
ghost use Rattle.agent_model.specs.Step.{is_legal};
ghost use Rattle.script_playing.specs.Ready.{HaveEnded, IsKept};
ghost use Rattle.script_playing.specs.Watching.{IsWatchedOn};

use crate::watching::{Places, Watch};
use agent_model::{Entry, Why};
use agent_steps::Agent;
use std::alloc::{AllocError, Global};
use std::marker::Model;
use term_model::{StepLedger, Steps};
use term_values::Bytes;

/// A script on its way: the agent, its journal, and the moment at which it grants operations, in seconds since 1970.
#[derive(Drop)]
pub struct Run<L: StepLedger> {
    pub agent: Agent<L>,
    pub journal: Vec<Entry>,
    pub moment: u64,
}

impl<L: StepLedger> Model for Run<L> {
    ghost use Rattle.std.specs.Coded.{codes};
    ghost use Rattle.term_values.specs.SyntaxCode.{syntax_code};
    ghost use Rattle.term_values.specs.Typed.{value_code};
    ghost use Rattle.term_model.specs.contracts.filter.Filter as filter;
    ghost use Rattle.agent_model.specs.Played.{Play};

    ghost Value = { Play };

    ghost coded = { Prim.hlevel (codes, value_code, syntax_code, filter.the_row.coded) };

    ghost view = { λ run. record { agent = run.agent; journal = run.journal.items; moment = run.moment } };
}

/// Makes room in a journal for one more entry.
fn make_room(journal: &mut Vec<Entry>) -> Result<(), AllocError>
    ensures kept { journal.new.items ≡ journal.old.items }
    ensures room { OnOk result (vec_len journal.new < vec_capacity journal.new) }
    ensures counts { OnOk result (length journal.new.items + 1 < 2 ^ 63) }
{
    journal.reserve(1)
}

/// Writes down an entry for which there is room.
fn write_down(journal: &mut Vec<Entry>, entry: Entry)
    requires { vec_len journal.old < vec_capacity journal.old }
    ensures { journal.new.items ≡ journal.old.items ++ entry ∷ [] }
{
    if let Err(_refused) = journal.push(entry) {}
}

impl<L: StepLedger> Run<L> {
    /// How many associations were opened.
    pub fn count_associations(&self) -> u64
        ensures { result ≡ length self.now.agent.associations }
    {
        self.agent.count_associations()
    }

    /// How many operations were queued.
    pub fn count_operations(&self) -> u64
        ensures { result ≡ length self.now.agent.operations }
    {
        self.agent.count_operations()
    }

    /// Opens the next association by a BIND.
    pub fn open(
        &mut self,
        alloc: Global,
        number: u64,
        bind: Bytes,
        watch: &mut Watch,
    ) -> Result<(), AllocError>
        requires kept { IsKept self.old.agent self.old.journal }
        requires next { number ≡ length self.old.agent.associations + 1 }
        requires ended { HaveEnded self.old.agent.operations }
        ensures entered { OnOk result (self.new ≡ with_entry self.old (Entry.Opened number bind)) }
        ensures kept { OnOk result (IsKept self.new.agent self.new.journal) }
        ensures watched { OnOk result (IsWatchedOn self.old watch.old self.new watch.new) }
    {
        make_room(&mut self.journal)?;
        let places = Places::before(&self.agent);
        let octets = bind.as_slice();
        self.agent.open(alloc, octets)?;
        let next = Entry::Opened(number, bind);
        watch.ask(alloc, &places, &next)?;
        write_down(&mut self.journal, next);
        Ok(())
    }

    /// Brings an APDU of an association, while no operation is outstanding.
    pub fn arrive(
        &mut self,
        alloc: Global,
        number: u64,
        apdu: Bytes,
        watch: &mut Watch,
    ) -> Result<(), AllocError>
        requires kept { IsKept self.old.agent self.old.journal }
        requires legal { IsTrue (is_legal self.old.agent (Entry.Arrived number apdu)) }
        requires idle { IsIdle self.old.agent }
        ensures entered { OnOk result (self.new ≡ with_entry self.old (Entry.Arrived number apdu)) }
        ensures kept { OnOk result (IsKept self.new.agent self.new.journal) }
        ensures watched { OnOk result (IsWatchedOn self.old watch.old self.new watch.new) }
    {
        make_room(&mut self.journal)?;
        let places = Places::before(&self.agent);
        let octets = apdu.as_slice();
        self.agent.arrive(alloc, number, octets)?;
        let next = Entry::Arrived(number, apdu);
        watch.ask(alloc, &places, &next)?;
        write_down(&mut self.journal, next);
        Ok(())
    }

    /// Grants the operation under this number.
    fn grant(&mut self, alloc: Global, number: u64, watch: &mut Watch) -> Result<(), AllocError>
        requires kept { IsKept self.old.agent self.old.journal }
        requires legal { IsTrue (is_legal self.old.agent (Entry.Granted number self.old.moment)) }
        ensures entered { OnOk result (self.new ≡ with_entry self.old (Entry.Granted number self.old.moment)) }
        ensures kept { OnOk result (IsKept self.new.agent self.new.journal) }
        ensures watched { OnOk result (IsWatchedOn self.old watch.old self.new watch.new) }
    {
        make_room(&mut self.journal)?;
        self.agent.grant(number, self.moment);
        let next = Entry::Granted(number, self.moment);
        watch.count(alloc, &next)?;
        write_down(&mut self.journal, next);
        Ok(())
    }

    /// Commits the operation under this number, which was granted at the moment of the script.
    fn commit(
        &mut self,
        alloc: Global,
        number: u64,
        steps: &mut Steps<L>,
        watch: &mut Watch,
    ) -> Result<(), AllocError>
        requires kept { IsKept self.old.agent self.old.journal }
        requires granted { moment_of_grant self.old.agent number ≡ Some self.old.moment }
        ensures entered { OnOk result (self.new ≡ with_entry self.old (Entry.Committed number)) }
        ensures kept { OnOk result (IsKept self.new.agent self.new.journal) }
        ensures watched { OnOk result (IsWatchedOn self.old watch.old self.new watch.new) }
    {
        make_room(&mut self.journal)?;
        self.agent.commit(alloc, number, self.moment, steps)?;
        let next = Entry::Committed(number);
        watch.count(alloc, &next)?;
        write_down(&mut self.journal, next);
        Ok(())
    }

    /// Grants and commits the last operation, where there are more than so many.
    pub fn answer(
        &mut self,
        alloc: Global,
        before: u64,
        steps: &mut Steps<L>,
        watch: &mut Watch,
    ) -> Result<(), AllocError>
        requires kept { IsKept self.old.agent self.old.journal }
        requires legal { before < length self.old.agent.operations
            → IsTrue (is_legal self.old.agent (Entry.Granted (length self.old.agent.operations) self.old.moment)) }
        ensures answered { OnOk result (self.new ≡ answered before self.old) }
        ensures kept { OnOk result (IsKept self.new.agent self.new.journal) }
        ensures watched { OnOk result (IsWatchedOn self.old watch.old self.new watch.new) }
    {
        let number = self.count_operations();
        if number <= before {
            return Ok(());
        }
        self.grant(alloc, number, watch)?;
        self.commit(alloc, number, steps, watch)
    }

    /// Takes all that is left of an association, where something is left.
    pub fn take(&mut self, alloc: Global, number: u64, watch: &mut Watch) -> Result<(), AllocError>
        requires kept { IsKept self.old.agent self.old.journal }
        requires ended { HaveEnded self.old.agent.operations }
        ensures taken { OnOk result (self.new ≡ taken_all number self.old) }
        ensures kept { OnOk result (IsKept self.new.agent self.new.journal) }
        ensures watched { OnOk result (IsWatchedOn self.old watch.old self.new watch.new) }
    {
        make_room(&mut self.journal)?;
        let places = Places::before(&self.agent);
        let count = self.agent.take_all(number);
        if count == 0 {
            return Ok(());
        }
        let next = Entry::Taken(number, count);
        watch.ask(alloc, &places, &next)?;
        write_down(&mut self.journal, next);
        Ok(())
    }

    /// Finishes an association, where it is live.
    pub fn finish(
        &mut self,
        alloc: Global,
        number: u64,
        watch: &mut Watch,
    ) -> Result<(), AllocError>
        requires kept { IsKept self.old.agent self.old.journal }
        ensures finished { OnOk result (self.new ≡ finished number self.old) }
        ensures kept { OnOk result (IsKept self.new.agent self.new.journal) }
        ensures watched { OnOk result (IsWatchedOn self.old watch.old self.new watch.new) }
    {
        if !self.agent.is_live(number) {
            return Ok(());
        }
        make_room(&mut self.journal)?;
        self.agent.finish(number);
        let next = Entry::Finished(number);
        watch.count(alloc, &next)?;
        write_down(&mut self.journal, next);
        Ok(())
    }

    /// Closes an association at its end.
    pub fn close_at_end(
        &mut self,
        alloc: Global,
        number: u64,
        watch: &mut Watch,
    ) -> Result<(), AllocError>
        requires kept { IsKept self.old.agent self.old.journal }
        requires legal { IsTrue (is_legal self.old.agent (Entry.Closed number Why.End)) }
        ensures entered { OnOk result (self.new ≡ with_entry self.old (Entry.Closed number Why.End)) }
        ensures kept { OnOk result (IsKept self.new.agent self.new.journal) }
        ensures watched { OnOk result (IsWatchedOn self.old watch.old self.new watch.new) }
    {
        make_room(&mut self.journal)?;
        self.agent.close_at_end(number);
        let next = Entry::Closed(number, Why::End);
        watch.count(alloc, &next)?;
        write_down(&mut self.journal, next);
        Ok(())
    }
}
