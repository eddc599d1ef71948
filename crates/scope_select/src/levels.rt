//! Levels below a base object: X.711, section 7.5, type Scope.

ghost use Rattle.std.specs.Prelude.{◌≡◌, IsTrue};
ghost use Rattle.term_model.specs.Scope.{has_level, level_below};
ghost use Rattle.scope_select.specs.Ranges.{EndsAtBase, ends_at_base};

use term_model::scope::{BASE_OBJECT, FIRST_LEVEL_ONLY, WHOLE_SUBTREE};
use term_model::{Rdn, Scope};

/// How many levels the name is below the base, where it is the base or begins with it.
pub fn level_below(base: &[Rdn], name: &[Rdn]) -> Option<usize>
    ensures { result ≡ level_below base.now name.now }
{
    for (i, part) in base.iter().enumerate() {
        match name.get(i) {
            None => return None,
            Some(other) => {
                if *part != *other {
                    return None;
                }
            }
        }
    }
    Some(name.len() - base.len())
}

/// Whether the scope reaches objects so many levels below its base.
pub fn has_level(scope: &Scope, level: usize) -> bool
    ensures { result ≡ has_level scope.now level }
{
    match scope {
        Scope::Plain(number) => match *number {
            BASE_OBJECT => level == 0,
            FIRST_LEVEL_ONLY => level == 1,
            WHOLE_SUBTREE => true,
            _ => false,
        },
        Scope::Level(number) => *number >= 0 && *number as u64 == level as u64,
        Scope::Upto(number) => *number >= 0 && level as u64 <= *number as u64,
    }
}

/// Whether it is known that the scope reaches no level below its base.
pub fn ends_at_base(scope: &Scope) -> bool
    ensures told { result ≡ ends_at_base scope.now }
    ensures ends { IsTrue result → EndsAtBase scope.now }
{
    match scope {
        Scope::Plain(number) => *number == BASE_OBJECT,
        Scope::Level(number) => *number <= 0,
        Scope::Upto(number) => *number <= 0,
    }
}
