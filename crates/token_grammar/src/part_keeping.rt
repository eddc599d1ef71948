//! Keeps a part of a list that was read (X.722, section 8.2).

ghost use Rattle.token_grammar.specs.Turns.{KeepsPart};

use super::syntax_refusal::SyntaxRefusal;

/// Puts a part that was read behind those of a list, and answers the place behind the part in the tokens. A refusal is
/// handed on; `Memory` comes too where there is none for the list. Then the list is as it was.
pub fn keep_part<T: Drop>(
    list: &mut Vec<T>,
    read: Result<(T, usize), SyntaxRefusal>,
) -> Result<usize, SyntaxRefusal>
    ensures { KeepsPart read list.old.items list.new.items result }
{
    match read {
        Ok((part, next)) => match list.push(part) {
            Ok(()) => Ok(next),
            Err(_full) => Err(SyntaxRefusal::Memory),
        },
        Err(refusal) => Err(refusal),
    }
}
