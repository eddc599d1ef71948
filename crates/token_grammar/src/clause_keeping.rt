//! Keeps a clause of a template that was read (X.722, section 8.2).

ghost use Rattle.token_grammar.specs.Turns.{KeepsClause};

use super::syntax_refusal::SyntaxRefusal;

/// Puts what was read of a clause into its place, and answers the place behind the clause in the tokens. A refusal
/// is handed on, and then nothing changes.
pub fn keep_clause<T: Drop>(
    place: &mut Option<T>,
    read: Result<(T, usize), SyntaxRefusal>,
) -> Result<Option<usize>, SyntaxRefusal>
    ensures { KeepsClause read place.old place.new result }
{
    match read {
        Ok((part, next)) => {
            *place = Some(part);
            Ok(Some(next))
        }
        Err(refusal) => Err(refusal),
    }
}
