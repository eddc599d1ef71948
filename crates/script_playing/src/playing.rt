//! Scripts: docs/PROFILE.md, sections 5 and 7.

ghost use Rattle.std.specs.Prelude.{◌≡◌, ℕ, IfOk, IsTrue, MatchOption};
ghost use Rattle.std.specs.List.{All};
ghost use Rattle.agent_model.specs.declared.agent_state.AgentState.{AgentState};
ghost use Rattle.agent_model.specs.History.{came};
ghost use Rattle.agent_model.specs.Settled.{IsSettled};
ghost use Rattle.agent_model.specs.TextLaws.{IsEntry};
ghost use Rattle.operation_model.specs.OperationConditions.{AreSmall};
ghost use Rattle.agent_model.specs.JournalRoom.{HasRoom};
ghost use Rattle.agent_model.specs.Journals.{is_legal_journal, replayed};
ghost use Rattle.agent_model.specs.Playing.{frames_of};
ghost use Rattle.script_playing.specs.Ready.{IsFresh};
ghost use Rattle.script_playing.specs.Scripts.{HasRoomTold, IfEnded, IsTelling, IsTold};
ghost use Rattle.script_playing.specs.Watching.{IsFilledAt};

use crate::entering::Run;
use crate::watching::Watch;
use agent_model::{Entry, ScriptLines};
use agent_steps::Agent;
use std::alloc::{AllocError, Global};
use std::marker::Model;
use term_model::{StepLedger, Steps};

/// The moment at which a script begins, in seconds since 1970.
const SCRIPT_START: u64 = 0;

/// What a script came to: the agent and its journal, and the script's last time. The journal is legal from the agent
/// that it began with, comes to the agent, and holds numbers of 64 bits and octets of 8 alone.
#[derive(Drop)]
pub struct Play<L: StepLedger> {
    agent: Agent<L>,
    journal: Vec<Entry>,
    moment: u64,
}

impl<L: StepLedger> Model for Play<L> {
    ghost use Rattle.std.specs.Coded.{codes};
    ghost use Rattle.term_values.specs.SyntaxCode.{syntax_code};
    ghost use Rattle.term_values.specs.Typed.{value_code};
    ghost use Rattle.term_model.specs.contracts.filter.Filter as filter;
    ghost use Rattle.agent_model.specs.Played.{Play};
    ghost use Rattle.script_playing.specs.Ready.{IsJournaled};

    ghost Value = { Play };

    ghost coded = { Prim.hlevel (codes, value_code, syntax_code, filter.the_row.coded) };

    ghost view = { λ play. record { agent = play.agent; journal = play.journal.items; moment = play.moment } };

    ghost invariant = { λ play. IsJournaled play.agent play.journal.items };
}

/// What a script comes to.
#[derive(Drop)]
pub enum Ending<L: StepLedger> {
    /// All lines were played, each association is closed, and the journal has room for all of its entries.
    Ended(Play<L>),
    /// All lines were played and each association is closed, but the journal has no room for the entry behind so many
    /// of them, the first of which that is so.
    Full(Play<L>, u64),
    /// The condition of this line does not hold, the first of which that is so; lines count from 1.
    Bad(u64),
}

impl<L: StepLedger> Play<L> {
    /// The agent as it is.
    pub fn agent(&self) -> &Agent<L>
        ensures { result.now ≡ self.now.agent }
    {
        &self.agent
    }

    /// The journal. It is legal, comes to the agent, and holds numbers of 64 bits and octets of 8 alone.
    pub fn journal(&self) -> &[Entry]
        ensures journal { result.now ≡ self.now.journal }
        ensures legal { (first : AgentState) × IsFresh first × IsTrue (is_legal_journal first self.now.journal)
            × (replayed first self.now.journal ≡ self.now.agent) }
        ensures held { All IsEntry self.now.journal }
    {
        self.journal.as_slice()
    }
}

/// What is told of a play to the end of a script, of whose journal this is known.
fn told<L: StepLedger>(play: Play<L>, watch: &Watch) -> Ending<L>
    ensures play { IsTelling play result }
    ensures room { (agent : AgentState)
        → MatchOption watch.now.refused (HasRoom agent play.journal) (λ place. IsFilledAt agent play.journal place)
        → HasRoomTold agent result }
{
    match watch.refused {
        None => Ending::Ended(play),
        Some(place) => Ending::Full(play, place),
    }
}

/// Plays a script on an agent before any entry, whose objects are at most 16,384 octets long. The looks into the map of
/// objects are counted on `steps`.
///
/// Each line comes to entries of the journal, which are written down when the agent has done what they say. What was
/// placed for the association of a line is taken behind the line; of the others nothing is left. An operation that a
/// line brings is granted and committed at once. At the end each association that isn't closed is finished where it is
/// live, and closed, by rising number. Octets of the lines move into the journal.
///
/// `Full` has the play of all lines and how many entries of its journal stand in front of the first one that is refused
/// under the agent's limits; `Ended` has a play whose journal has room for all.
///
/// `Bad` has the number of the first line whose condition does not hold, from 1: an association that sends is opened
/// and neither finished nor closed, one that ends is opened. The one error is want of memory; nothing is left of the
/// agent then.
pub fn play_script<L: StepLedger + Drop>(
    alloc: Global,
    agent: Agent<L>,
    lines: ScriptLines,
    steps: &mut Steps<L>,
) -> Result<Ending<L>, AllocError>
    requires fresh { IsFresh agent }
    requires small { AreSmall agent.schema agent.objects }

    // The play is that of all lines and of the end; or the number is that of the first line whose condition does not
    // hold.
    ensures played { IfOk result (IsTold agent lines) }

    // The journal has room for all of its entries under the agent's limits; or so many of them stand in front of the
    // first one that is refused.
    ensures room { IfOk result (HasRoomTold agent) }

    // The journal is legal from the agent before, and comes to the agent after.
    ensures legal { IfOk result (IfEnded (λ play. IsTrue (is_legal_journal agent play.journal))) }
    ensures replayed { IfOk result (IfEnded (λ play. replayed agent play.journal ≡ play.agent)) }

    // Each number in it has 64 bits, and each octet 8.
    ensures held { IfOk result (IfEnded (λ play. All IsEntry play.journal)) }

    // The frames of each association are those of the script, in their order, and no others.
    ensures frames { IfOk result (IfEnded (λ play.
        (number : ℕ) → came number play.journal ≡ frames_of number 0 lines)) }

    // At the end each association is closed, all that was placed for it was taken, and none of its operations is
    // outstanding.
    ensures settled { IfOk result (IfEnded (λ play. IsSettled play.agent)) }

    // The agent has the records and the limits that it had.
    ensures schema { IfOk result (IfEnded (λ play. play.agent.schema ≡ agent.schema)) }
    ensures limits { IfOk result (IfEnded (λ play. play.agent.limits ≡ agent.limits)) }
{
    let mut run = Run {
        agent,
        journal: Vec::new(alloc),
        moment: SCRIPT_START,
    };
    let mut watch = Watch::new();
    if let Some(number) = run.play_lines(alloc, lines.items, steps, &mut watch)? {
        drop(run);
        return Ok(Ending::Bad(number));
    }
    run.end(alloc, &mut watch)?;
    let play = Play {
        agent: run.agent,
        journal: run.journal,
        moment: run.moment,
    };
    Ok(told(play, &watch))
}
