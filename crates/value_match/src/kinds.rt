//! Which syntaxes are of a matching rule's kind: X.722, section 8.7.

ghost use Rattle.std.specs.Prelude.{◌≡◌};
ghost use Rattle.term_values.specs.MatchingKinds.{beneath_tags, has_order, has_pieces, is_set_of};

use term_values::{Syntax, SyntaxForm};

/// Whether values of the syntax have an order.
#[cycle(ordered)]
pub fn has_order(syntax: &Syntax) -> bool
    ensures { result ≡ has_order (beneath_tags syntax.now) }
{
    match &syntax.form {
        SyntaxForm::Tagged(_, _, of) => has_order(of),
        SyntaxForm::Int(_, _) => true,
        SyntaxForm::Enumerated(_) => true,
        SyntaxForm::Octets(_) => true,
        SyntaxForm::Oid => true,
        SyntaxForm::Text(_, _) => true,
        SyntaxForm::Time => true,
        _ => false,
    }
}

/// Whether values of the syntax have pieces.
#[cycle(spelled)]
pub fn has_pieces(syntax: &Syntax) -> bool
    ensures { result ≡ has_pieces (beneath_tags syntax.now) }
{
    match &syntax.form {
        SyntaxForm::Tagged(_, _, of) => has_pieces(of),
        SyntaxForm::Octets(_) => true,
        SyntaxForm::Text(_, _) => true,
        _ => false,
    }
}

/// Whether the syntax is SET OF.
#[cycle(sets)]
pub fn is_set_of(syntax: &Syntax) -> bool
    ensures { result ≡ is_set_of (beneath_tags syntax.now) }
{
    match &syntax.form {
        SyntaxForm::Tagged(_, _, of) => is_set_of(of),
        SyntaxForm::SetOf(_, _) => true,
        _ => false,
    }
}
