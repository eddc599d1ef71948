//! Laws of journals and their texts, each as the contract of a function that does nothing; docs/PROFILE.md, sections 5
//! and 7.

ghost use Rattle.agent_model.specs.JournalLaws.{FilledOnce, LegalGoesOn, PlacedStays, ReplayGoesOn, ScriptFrames};
ghost use Rattle.agent_model.specs.JournalLaws.{ScriptReplays};
ghost use Rattle.agent_model.specs.TextLaws.{PrintTellsJournal, TextsDiffer};

/// A journal that follows another is replayed from the state that the other one came to.
pub fn replay_goes_on()
    ensures { ReplayGoesOn }
{}

/// Two journals in a row are legal where the first one is, and the second one from the state that the first one came
/// to.
pub fn legal_goes_on()
    ensures { LegalGoesOn }
{}

/// What was placed for an association after a journal begins what is placed for it after a longer one; an association
/// that overruns keeps what was placed for it.
pub fn placed_stays()
    ensures { PlacedStays }
{}

/// The journal of a script comes to the agent that the script came to.
pub fn script_replays()
    ensures { ScriptReplays }
{}

/// In the journal of a script each association's frames stand in their order, and no others, where the agent had opened
/// no association before.
pub fn script_frames()
    ensures { ScriptFrames }
{}

/// At most one part of a journal is the one up to the first entry for which there is no room, and there is none where
/// it has room for all.
pub fn filled_once()
    ensures { FilledOnce }
{}

/// Different journals have different texts.
pub fn texts_differ()
    ensures { TextsDiffer }
{}

/// What stands in front of the line of two dashes is the text of one journal alone, whatever stands behind it.
pub fn print_tells_journal()
    ensures { PrintTellsJournal }
{}
