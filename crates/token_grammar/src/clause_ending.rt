//! The semicolon behind a clause of a template (X.722, section 8.2).

ghost use Rattle.token_grammar.specs.Turns.{EndsClause};

use super::syntax_refusal::SyntaxRefusal;
use super::token::Token;
use super::token_reading::skip_sign;

/// Goes past the semicolon behind what was read of a clause, and answers that with the place behind the semicolon.
/// A refusal is handed on; `Syntax` has the place behind what was read where no semicolon stands there.
pub fn end_clause<T: Drop>(
    tokens: &[Token],
    read: Result<(T, usize), SyntaxRefusal>,
) -> Result<(T, usize), SyntaxRefusal>
    ensures { EndsClause tokens.now read result }
{
    match read {
        Ok((part, next)) => match skip_sign(tokens, next, ";") {
            Ok(behind) => Ok((part, behind)),
            Err(refusal) => Err(refusal),
        },
        Err(refusal) => Err(refusal),
    }
}
