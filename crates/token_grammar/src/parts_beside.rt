//! Two parts of a form that stand in a row (X.722, section 8.2).

ghost use Rattle.token_grammar.specs.Turns.{StandsBeside};

use super::syntax_refusal::SyntaxRefusal;

/// Puts a part that was read before beside the one that was read behind it. A refusal of the second one is handed on.
pub fn beside<T: Drop, U: Drop>(
    first: T,
    second: Result<(U, usize), SyntaxRefusal>,
) -> Result<((T, U), usize), SyntaxRefusal>
    ensures { StandsBeside first second result }
{
    match second {
        Ok((part, next)) => Ok(((first, part), next)),
        Err(refusal) => Err(refusal),
    }
}
