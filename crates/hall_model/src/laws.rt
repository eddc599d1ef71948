//! Laws of the maps along a journal, and of the operations that are not ended, as contracts: docs/PROFILE.md,
//! sections 7 and 20.

ghost use Rattle.hall_model.specs.JournalMaps.{CommitDoes, OnlyCommitsChange, PastStays, PresentIsLast, SchemaStays};
ghost use Rattle.hall_model.specs.JournalSound.{CommittedEntryKeeps, CommittedRequestKeeps};
ghost use Rattle.hall_model.specs.JournalSound.{GrantedEntryKeeps, OtherEntryKeeps};

/// Only a commit changes the objects. Does nothing.
pub fn only_commits_change()
    ensures { OnlyCommitsChange }
{}

/// No entry changes the schema. Does nothing.
pub fn schemas_stay()
    ensures { SchemaStays }
{}

/// The commit of a request leaves the objects of its outcome on the objects as they are. Does nothing.
pub fn commits_do()
    ensures { CommitDoes }
{}

/// The map after an entry stays what it was when the journal goes on. Does nothing.
pub fn past_stays()
    ensures { PastStays }
{}

/// The map after the last entry is the map as it is. Does nothing.
pub fn present_is_last()
    ensures { PresentIsLast }
{}

/// An entry that is no commit keeps what holds of the operations that are not ended, whether some begin or end with it.
/// Does nothing.
pub fn other_entries_keep()
    ensures { OtherEntryKeeps }
{}

/// The entry of an operation that takes the last place of its path keeps it. Does nothing.
pub fn granted_entries_keep()
    ensures { GrantedEntryKeeps }
{}

/// The commit of an operation that keeps to its unit keeps it. Does nothing.
pub fn committed_entries_keep()
    ensures { CommittedEntryKeeps }
{}

/// The commit of a request keeps it, where what the request does keeps to its unit. Does nothing.
pub fn committed_requests_keep()
    ensures { CommittedRequestKeeps }
{}
