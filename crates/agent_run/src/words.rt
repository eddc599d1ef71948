//! The words of the system's command line.

ghost use Rattle.std.specs.Prelude.{◌≡◌, drop, IfOk};
ghost use Rattle.std.specs.Iterator.{IsFinite};
ghost use Rattle.std.specs.Iterator.Runs.{WholeRun};

use std::alloc::{AllocError, Global};
use std::env;
use std::env::Env;
use std::io::ErrorKind;

/// The words of a command line whose first word is the program's own name: all but that one, in their order.
pub fn words_behind_name<I: Iterator<Item = String> + Drop>(
    alloc: Global,
    line: I,
) -> Result<Vec<String>, AllocError>
    requires can { I.can_next line }
    requires finite { IsFinite (I.remaining line) }
    ensures { IfOk result (λ words. WholeRun I.next_gives line (λ p. words.items ≡ drop 1 p.items)) }
{
    line.skip(1).collect(alloc)
}

/// The words of the system's command line behind the program's own name. Where one of them is not UTF-8 there are none,
/// so that they are in no form. `Err`: there is no memory for them.
pub fn command_words<R: Env + AllocGlobal>(rt: &R) -> Result<Vec<String>, AllocError> {
    match env::args(rt) {
        Ok(line) => words_behind_name(rt.alloc(), line),
        Err(error) => match error.kind() {
            ErrorKind::InvalidData => Ok(Vec::new(rt.alloc())),
            _ => Err(AllocError),
        },
    }
}
