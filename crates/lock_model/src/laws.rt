//! Laws of locks on names, as contracts: docs/PROFILE.md, section 20.

ghost use Rattle.lock_model.specs.OperationLaws.{GetKeepsToUnit, SetKeepsToUnit, UnitsArePlain};
ghost use Rattle.lock_model.specs.OperationLaws.{GoodIsShort, PathStays, PlanStays};
ghost use Rattle.lock_model.specs.CreationLaws.{CreateKeepsToUnit};
ghost use Rattle.lock_model.specs.PathLaws.{DisjointUnits, ReadSetStays, WaitingStays};
ghost use Rattle.lock_model.specs.Holdings.{BarringIsDeeper, NoStandstill, PathsAreWays};
ghost use Rattle.lock_model.specs.PathEnds.{EndAtFirstLog, NoLogAbove, OneLook};
ghost use Rattle.lock_model.specs.Invariant.{CommitIsPlanned, CommitKeepsSound, GrantKeepsSound, OthersKeepSound};

/// An m-Get changes nothing, and its unit's read set tells its replies. Does nothing.
pub fn gets_keep_to_units()
    ensures { GetKeepsToUnit }
{}

/// An m-Set changes nothing outside its unit, and its unit's read set tells its changes and replies. Does nothing.
pub fn sets_keep_to_units()
    ensures { SetKeepsToUnit }
{}

/// The same of an m-Create that names the new object, want of room for it apart. Does nothing.
pub fn creates_keep_to_units()
    ensures { CreateKeepsToUnit }
{}

/// What writes below a control object takes all, whatever is asked. Does nothing.
pub fn units_are_plain()
    ensures { UnitsArePlain }
{}

/// On maps with the same read set an operation takes the same unit. Does nothing.
pub fn paths_stay()
    ensures { PathStays }
{}

/// A plan that was made on one map is the plan on another one with the same read set. Does nothing.
pub fn plans_stay()
    ensures { PlanStays }
{}

/// Names of well-formed maps have at most 32 parts. Does nothing.
pub fn good_is_short()
    ensures { GoodIsShort }
{}

/// Where the modes of two paths go together, what one writes has no object of the other's unit. Does nothing.
pub fn units_are_disjoint()
    ensures { DisjointUnits }
{}

/// The read set of an operation stays when another one changes what it holds. Does nothing.
pub fn read_sets_stay()
    ensures { ReadSetStays }
{}

/// What a waiting operation holds stays the beginning of its path when another one changes what it holds, and it still
/// waits. Does nothing.
pub fn waiting_stays()
    ensures { WaitingStays }
{}

/// Each place of a path stands at the depth of its lock name. Does nothing.
pub fn paths_are_ways()
    ensures { PathsAreWays }
{}

/// An operation that bars another one holds more places than that one. Does nothing.
pub fn barring_is_deeper()
    ensures { BarringIsDeeper }
{}

/// In any table that isn't empty some operation has its whole path, or can take the next place. Does nothing.
pub fn nothing_stands_still()
    ensures { NoStandstill }
{}

/// A path as entered, ended at its first log, is the path on the map. Does nothing.
pub fn ends_at_first_log()
    ensures { EndAtFirstLog }
{}

/// No log stands above the unit that is taken. Does nothing.
pub fn no_log_above()
    ensures { NoLogAbove }
{}

/// One look at the next name tells the next place of the path on the map, and whether it is the last. Does nothing.
pub fn one_look_tells()
    ensures { OneLook }
{}

/// The commit of a granted operation keeps what holds of the others. Does nothing.
pub fn commits_keep_sound()
    ensures { CommitKeepsSound }
{}

/// What was planned on the map at the grant is what the operation does at its commit. Does nothing.
pub fn commits_are_planned()
    ensures { CommitIsPlanned }
{}

/// The grant of a place keeps what holds of the operations that are not ended. Does nothing.
pub fn grants_keep_sound()
    ensures { GrantKeepsSound }
{}

/// Operations that begin or end keep it too. Does nothing.
pub fn others_keep_sound()
    ensures { OthersKeepSound }
{}
