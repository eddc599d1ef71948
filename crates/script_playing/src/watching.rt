//! A watch on the room of a journal while it is written: docs/PROFILE.md, section 7.

ghost use Rattle.std.specs.Prelude.{◌≡◌, ◌+◌, ◌-◌, ◌*◌, ◌^◌, ◌<◌, ◌≤◌, ◌++◌, [], ◌∷◌, ℕ, List, OnOk, length, min, nat_lt};
ghost use Rattle.agent_model.specs.declared.agent_state.AgentState.{AgentState};
ghost use Rattle.agent_model.specs.Texts.{line};
ghost use Rattle.agent_model.specs.JournalRoom.{is_refused, places_asked};
ghost use Rattle.agent_model.specs.Stepping.{step};
ghost use Rattle.script_playing.specs.Ready.{HaveEnded};
ghost use Rattle.script_playing.specs.Watching.{AreOf, IsCounted, IsWatched, refused_then};

use agent_model::{Entry, Limits};
use agent_steps::Agent;
use journal_text::lengths::line_length;
use std::alloc::{AllocError, Global};
use term_model::StepLedger;

/// Octets of the text that are reserved for the line of a place without an entry.
const OCTETS_OF_PLACE: u128 = 64;

/// The places of a journal before an entry that asks for some.
#[derive(Clone, Copy)]
pub struct Places {
    /// How many entries came so far.
    pub entries: u64,
    /// How many places are reserved.
    pub reserved: u128,
    /// How much the agent holds at the most.
    pub limits: Limits,
}

/// What is known of a journal while it is written.
#[derive(Clone, Copy)]
pub struct Watch {
    /// How many octets its text has, or the greatest number of 128 bits.
    pub octets: u128,
    /// How many entries stand in front of the first one that is refused, where one is.
    pub refused: Option<u64>,
}

/// How many places an entry asks for.
fn places_asked(entry: &Entry) -> u128
    ensures asked { result ≡ places_asked entry.now }
    ensures few { result ≤ 3 }
{
    match entry {
        Entry::Opened(_, _) | Entry::Arrived(_, _) | Entry::Begun(_, _) => 3,
        Entry::Taken(_, _) => 1,
        Entry::Granted(_, _) | Entry::Committed(_) | Entry::Starved(_) => 0,
        Entry::Finished(_) | Entry::Closed(_, _) => 0,
    }
}

impl Places {
    /// The places as an agent has them each of whose operations has ended, so that associations alone reserve some.
    pub fn before<L: StepLedger>(agent: &Agent<L>) -> Places
        requires ended { HaveEnded agent.now.operations }
        ensures places { AreOf agent.now result }
        ensures few { result.reserved < 2 ^ 65 }
    {
        Places {
            entries: agent.count_entries(),
            reserved: agent.count_reserved(),
            limits: agent.limits(),
        }
    }

    /// Whether the entries so far, the reserved places and those that are asked for pass the limit.
    fn passes_entries(&self, asked: u128) -> bool
        requires few { self.now.reserved < 2 ^ 65 }
        requires asked { asked ≤ 3 }
        ensures { result ≡ nat_lt self.now.limits.entries (self.now.entries + self.now.reserved + asked) }
    {
        self.entries as u128 + self.reserved + asked > self.limits.entries as u128
    }

    /// Whether the octets so far, those of a line, and those of the reserved and of so many further places pass the
    /// limit.
    fn passes_text(&self, octets: u128, written: u128, further: u128) -> bool
        requires few { self.now.reserved < 2 ^ 65 }
        requires written { written < 2 ^ 66 }
        requires further { further ≤ 2 }
        ensures { (count : ℕ) → IsCounted count octets
            → result ≡ nat_lt self.now.limits.text (count + written + 64 * (self.now.reserved + further)) }
    {
        let whole = written + OCTETS_OF_PLACE * (self.reserved + further);
        octets.saturating_add(whole) > self.limits.text as u128
    }
}

impl Watch {
    /// Before any entry.
    pub fn new() -> Watch
        ensures { result ≡ record { octets = 0; refused = None } }
    {
        Watch {
            octets: 0,
            refused: None,
        }
    }

    /// Whether an entry, whose line has so many octets, is refused by an agent that has these places.
    fn is_refused(&self, places: &Places, next: &Entry, octets: u128) -> bool
        requires few { places.now.reserved < 2 ^ 65 }
        requires told { octets ≡ length (line next.now) }
        requires short { octets < 2 ^ 66 }
        ensures { (agent : AgentState) (count : ℕ) → AreOf agent places.now → IsCounted count self.now.octets
            → result ≡ is_refused agent count next.now }
    {
        let asked = places_asked(next);
        if asked == 0 {
            return false;
        }
        if places.passes_entries(asked) {
            return true;
        }
        places.passes_text(self.octets, octets, asked - 1)
    }

    /// How many entries stand in front of the first one that is refused, where this one is written down as well.
    fn refused_then(&self, places: &Places, next: &Entry, octets: u128) -> Option<u64>
        requires few { places.now.reserved < 2 ^ 65 }
        requires told { octets ≡ length (line next.now) }
        requires short { octets < 2 ^ 66 }
        ensures { (agent : AgentState) (count : ℕ) → AreOf agent places.now → IsCounted count self.now.octets
            → result ≡ refused_then agent count self.now.refused next.now }
    {
        if self.refused.is_some() {
            return self.refused;
        }
        if self.is_refused(places, next, octets) {
            return Some(places.entries);
        }
        None
    }

    /// An entry is written down whose line has so many octets.
    fn add(&mut self, next: &Entry, octets: u128)
        requires told { octets ≡ length (line next.now) }
        ensures octets { self.new.octets ≡ min (self.old.octets + length (line next.now)) (2 ^ 128 - 1) }
        ensures refused { self.new.refused ≡ self.old.refused }
        ensures watched { (first agent : AgentState) (journal : List Entry) → agent.entries ≡ length journal
            → places_asked next.now ≡ 0 → IsWatched first agent journal self.old
            → IsWatched first (step agent next.now) (journal ++ next.now ∷ []) self.new }
    {
        self.octets = self.octets.saturating_add(octets);
    }

    /// An entry that asks for no place is written down. Where there is no memory to tell its line, nothing changes.
    pub fn count(&mut self, alloc: Global, next: &Entry) -> Result<(), AllocError>
        ensures watched { OnOk result ((first agent : AgentState) (journal : List Entry) → agent.entries ≡ length journal
            → places_asked next.now ≡ 0 → IsWatched first agent journal self.old
            → IsWatched first (step agent next.now) (journal ++ next.now ∷ []) self.new) }
    {
        let octets = line_length(alloc, next)?;
        self.add(next, octets);
        Ok(())
    }

    /// An entry is written down that an agent takes which has these places before it. Where there is no memory to tell its
    /// line, nothing changes.
    pub fn ask(&mut self, alloc: Global, places: &Places, next: &Entry) -> Result<(), AllocError>
        requires few { places.now.reserved < 2 ^ 65 }
        ensures { OnOk result ((first agent : AgentState) (journal : List Entry) → agent.entries ≡ length journal
            → AreOf agent places.now → IsWatched first agent journal self.old
            → IsWatched first (step agent next.now) (journal ++ next.now ∷ []) self.new) }
    {
        let octets = line_length(alloc, next)?;
        self.refused = self.refused_then(places, next, octets);
        self.add(next, octets);
        Ok(())
    }
}
