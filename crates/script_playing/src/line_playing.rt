//! The lines of a script: docs/PROFILE.md, section 5.

ghost use Rattle.std.specs.Prelude.{◌≡◌, ◌+◌, length, Err, IfOk, IsSome, IsTrue, MatchOption, Ok, OnOk};
ghost use Rattle.agent_model.specs.declared.script_line.ScriptLine.TheVariants as line;
ghost use Rattle.agent_model.specs.Playing.{closed, ended, line_played, lines_played, may_play};
ghost use Rattle.agent_model.specs.AgentState.{association_of};
ghost use Rattle.script_playing.specs.Ready.{IsKept, IsReady};
ghost use Rattle.script_playing.specs.Watching.{IsWatchedOn};

use crate::entering::Run;
use crate::watching::Watch;
use agent_model::ScriptLine;
use std::alloc::{AllocError, Global};
use term_model::{StepLedger, Steps};
use term_values::Bytes;

/// The greatest moment of a journal, the last second of the year 9998.
const LAST_MOMENT: u64 = 253_370_764_799;

impl<L: StepLedger> Run<L> {
    /// The number of the next association.
    fn next_number(&self) -> u64
        requires kept { IsKept self.now.agent self.now.journal }
        ensures { result ≡ length self.now.agent.associations + 1 }
    {
        self.agent.count_associations() + 1
    }

    /// Whether the condition of a line holds: an association that sends is opened and neither finished nor closed, one
    /// that ends is opened.
    pub fn may_play(&self, line: &ScriptLine) -> bool
        ensures { result ≡ may_play self.now.agent line.now }
    {
        match line {
            ScriptLine::At(_) | ScriptLine::Open(_) => true,
            ScriptLine::Send(number, _) => self.agent.is_live(*number),
            ScriptLine::End(number) => *number > 0 && *number <= self.count_associations(),
        }
    }

    /// What follows happens at this moment, or at the last one that a journal can tell.
    fn play_at(&mut self, moment: u64)
        ensures { self.new ≡ line_played self.old (line.At moment) }
    {
        self.moment = moment.min(LAST_MOMENT);
    }

    /// Plays a line that opens an association.
    fn play_open(&mut self, alloc: Global, bind: Bytes, watch: &mut Watch) -> Result<(), AllocError>
        requires kept { IsKept self.old.agent self.old.journal }
        requires ready { IsReady self.old }
        ensures played { OnOk result (self.new ≡ line_played self.old (line.Open bind)) }
        ensures kept { OnOk result (IsKept self.new.agent self.new.journal) }
        ensures watched { OnOk result (IsWatchedOn self.old watch.old self.new watch.new) }
    {
        let number = self.next_number();
        self.open(alloc, number, bind, watch)?;
        self.take(alloc, number, watch)
    }

    /// Plays a line that sends an APDU of an association.
    fn play_send(
        &mut self,
        alloc: Global,
        number: u64,
        apdu: Bytes,
        steps: &mut Steps<L>,
        watch: &mut Watch,
    ) -> Result<(), AllocError>
        requires kept { IsKept self.old.agent self.old.journal }
        requires ready { IsReady self.old }
        requires live { IsTrue (may_play self.old.agent (line.Send number apdu)) }
        ensures played { OnOk result (self.new ≡ line_played self.old (line.Send number apdu)) }
        ensures kept { OnOk result (IsKept self.new.agent self.new.journal) }
        ensures watched { OnOk result (IsWatchedOn self.old watch.old self.new watch.new) }
    {
        let before = self.count_operations();
        self.arrive(alloc, number, apdu, watch)?;
        self.answer(alloc, before, steps, watch)?;
        self.take(alloc, number, watch)
    }

    /// Finishes an association that was opened, takes what is left of it and closes it, where it isn't closed.
    fn close(&mut self, alloc: Global, number: u64, watch: &mut Watch) -> Result<(), AllocError>
        requires kept { IsKept self.old.agent self.old.journal }
        requires ready { IsReady self.old }
        requires opened { IsSome (association_of self.old.agent number) }
        ensures closed { OnOk result (self.new ≡ closed number self.old) }
        ensures kept { OnOk result (IsKept self.new.agent self.new.journal) }
        ensures watched { OnOk result (IsWatchedOn self.old watch.old self.new watch.new) }
    {
        if self.agent.is_closed(number) {
            return Ok(());
        }
        self.finish(alloc, number, watch)?;
        self.take(alloc, number, watch)?;
        self.close_at_end(alloc, number, watch)
    }

    /// Plays a line whose condition holds.
    pub fn play(
        &mut self,
        alloc: Global,
        line: ScriptLine,
        steps: &mut Steps<L>,
        watch: &mut Watch,
    ) -> Result<(), AllocError>
        requires kept { IsKept self.old.agent self.old.journal }
        requires ready { IsReady self.old }
        requires may { IsTrue (may_play self.old.agent line) }
        ensures played { OnOk result (self.new ≡ line_played self.old line) }
        ensures kept { OnOk result (IsKept self.new.agent self.new.journal) }
        ensures watched { OnOk result (IsWatchedOn self.old watch.old self.new watch.new) }
        ensures ready { OnOk result (IsReady self.new) }
    {
        match line {
            ScriptLine::At(moment) => {
                self.play_at(moment);
                Ok(())
            }
            ScriptLine::Open(bind) => self.play_open(alloc, bind, watch),
            ScriptLine::Send(number, apdu) => self.play_send(alloc, number, apdu, steps, watch),
            ScriptLine::End(number) => self.close(alloc, number, watch),
        }
    }

    /// Plays lines up to the first whose condition does not hold, the number of which is answered; lines count from 1.
    pub fn play_lines(
        &mut self,
        alloc: Global,
        lines: Vec<ScriptLine>,
        steps: &mut Steps<L>,
        watch: &mut Watch,
    ) -> Result<Option<u64>, AllocError>
        requires kept { IsKept self.old.agent self.old.journal }
        requires ready { IsReady self.old }
        ensures played { IfOk result (λ bad. MatchOption bad (lines_played 1 self.old lines.items ≡ Ok self.new)
            (λ number. lines_played 1 self.old lines.items ≡ Err number)) }
        ensures kept { OnOk result (IsKept self.new.agent self.new.journal) }
        ensures watched { OnOk result (IsWatchedOn self.old watch.old self.new watch.new) }
        ensures ready { OnOk result (IsReady self.new) }
    {
        let mut number = 0;
        for line in lines {
            number += 1;
            if !self.may_play(&line) {
                return Ok(Some(number));
            }
            self.play(alloc, line, steps, watch)?;
        }
        Ok(None)
    }

    /// Closes all associations that aren't closed, by rising number.
    pub fn end(&mut self, alloc: Global, watch: &mut Watch) -> Result<(), AllocError>
        requires kept { IsKept self.old.agent self.old.journal }
        requires ready { IsReady self.old }
        ensures ended { OnOk result (self.new ≡ ended self.old) }
        ensures kept { OnOk result (IsKept self.new.agent self.new.journal) }
        ensures watched { OnOk result (IsWatchedOn self.old watch.old self.new watch.new) }
    {
        let count = self.count_associations();
        for before in 0..count {
            self.close(alloc, before + 1, watch)?;
        }
        Ok(())
    }
}
