//! The constants of this crate have the numbers of the definitions: X.711, section 7.5, types Scope and FilterItem, and
//! its errors; docs/PROFILE.md.

ghost use Rattle.std.specs.Prelude.{◌≡◌, pos};
ghost use Rattle.term_model.specs.Operation.{invalid_object, no_such_object};
ghost use Rattle.term_model.specs.Scope.{base_object, first_level_only, whole_subtree};
ghost use Rattle.term_model.specs.ObjectAttributes.{most_object};

use crate::filter_item::{ANY_PIECE, FINAL_PIECE, INITIAL_PIECE};
use crate::object::MOST_OBJECT;
use crate::reply::{INVALID_OBJECT_INSTANCE, NO_SUCH_OBJECT_INSTANCE};
use crate::request::{ADD_VALUES, ATOMIC, BEST_EFFORT, REMOVE_VALUES, REPLACE, SET_TO_DEFAULT};
use crate::scope::{BASE_OBJECT, FIRST_LEVEL_ONLY, WHOLE_SUBTREE};

/// The numbers of the scopes that are named. Does nothing.
pub fn scopes_are_numbered()
    ensures base { BASE_OBJECT ≡ base_object }
    ensures first_level { FIRST_LEVEL_ONLY ≡ first_level_only }
    ensures subtree { WHOLE_SUBTREE ≡ whole_subtree }
{}

/// The numbers of the kinds of pieces, as `MatchingPieces` of `term_values` places them. Does nothing.
pub fn pieces_are_numbered()
    ensures initial_piece { INITIAL_PIECE ≡ 0 }
    ensures any_piece { ANY_PIECE ≡ 1 }
    ensures final_piece { FINAL_PIECE ≡ 2 }
{}

/// The numbers of errors. Does nothing.
pub fn errors_are_numbered()
    ensures no_such_object { NO_SUCH_OBJECT_INSTANCE ≡ no_such_object }
    ensures invalid_object { INVALID_OBJECT_INSTANCE ≡ invalid_object }
{}

/// The numbers of synchronizations and of the operators of modifications: X.711, section 7.5, types CMISSync and
/// ModifyOperator. Does nothing.
pub fn requests_are_numbered()
    ensures best_effort { BEST_EFFORT ≡ pos 0 }
    ensures atomic { ATOMIC ≡ pos 1 }
    ensures replace { REPLACE ≡ pos 0 }
    ensures add_values { ADD_VALUES ≡ pos 1 }
    ensures remove_values { REMOVE_VALUES ≡ pos 2 }
    ensures set_to_default { SET_TO_DEFAULT ≡ pos 3 }
{}

/// The most octets of an object. Does nothing.
pub fn objects_are_bounded()
    ensures { MOST_OBJECT ≡ most_object }
{}
