//! The text of an object identifier, `{ arc arc .. }` (X.680, section 32; X.722, section 8.2).

ghost use Rattle.std.specs.Prelude.{◌≡◌, ℕ, codes};
ghost use Rattle.token_grammar.specs.Form.{Form, Many, Empty};
ghost use Rattle.token_grammar.specs.Outcome.{Reads, closed};
ghost use Rattle.token_grammar.specs.Parts.{arc, arc_tree, first_arc, first_arc_tree, object_identifier};
ghost use Rattle.token_grammar.specs.Parts.{object_identifier_tree, vector_tree};
ghost use Rattle.token_grammar.specs.TokenTests.{is_sign_of, is_arc_start};

use super::syntax_refusal::SyntaxRefusal;
use super::token::Token;
use super::token_reading::{read_name, read_number, read_sign, skip_sign};
use super::token_tests::{is_arc_at, is_name_without, is_number_at};
use std::alloc::Global;

/// An arc that has its number.
#[derive(Drop)]
pub enum Arc {
    /// `number`
    Number(Token),
    /// `name(number)`
    Named {
        /// The name, which says nothing.
        name: Token,
        /// The number of the arc.
        number: Token,
    },
}

/// The first arc.
#[derive(Drop)]
pub enum FirstArc {
    /// An arc that has its number.
    OfArc(Arc),
    /// A name that has a value: `iso`, or one that a module defines.
    Name(Token),
}

/// The text of an object identifier.
#[derive(Drop)]
pub struct ObjectIdentifier {
    /// The brace with which it begins.
    pub brace: Token,
    /// The first arc.
    pub first: FirstArc,
    /// The arcs behind the first, in order.
    pub others: Vec<Arc>,
}

/// Reads an arc that has its number.
pub fn read_arc(alloc: Global, tokens: &[Token], at: usize) -> Result<(Arc, usize), SyntaxRefusal>
    ensures { (grammar : ℕ → Form) → Reads tokens.now grammar closed arc at arc_tree result }
{
    if is_number_at(tokens, at) {
        let (number, next) = read_number(alloc, tokens, at)?;
        return Ok((Arc::Number(number), next));
    }
    let (name, next) = read_name(alloc, tokens, at)?;
    let next = skip_sign(tokens, next, "(")?;
    let (number, next) = read_number(alloc, tokens, next)?;
    let next = skip_sign(tokens, next, ")")?;
    Ok((Arc::Named { name, number }, next))
}

/// Reads the first arc. A name with no parenthesis behind it stands for its value.
fn read_first_arc(
    alloc: Global,
    tokens: &[Token],
    at: usize,
) -> Result<(FirstArc, usize), SyntaxRefusal>
    ensures { (grammar : ℕ → Form)
        → Reads tokens.now grammar (is_sign_of (codes "(")) first_arc at first_arc_tree result }
{
    if is_name_without(tokens, at, "(") {
        let (name, next) = read_name(alloc, tokens, at)?;
        return Ok((FirstArc::Name(name), next));
    }
    let (arc, next) = read_arc(alloc, tokens, at)?;
    Ok((FirstArc::OfArc(arc), next))
}

/// Reads arcs that have their numbers, as many as there are.
pub fn read_arcs(
    alloc: Global,
    tokens: &[Token],
    at: usize,
) -> Result<(Vec<Arc>, usize), SyntaxRefusal>
    ensures { (grammar : ℕ → Form)
        → Reads tokens.now grammar is_arc_start (Many Empty arc) at (vector_tree arc_tree) result }
{
    let mut arcs = Vec::new(alloc);
    let mut next = at;
    'turns: while is_arc_at(tokens, next) {
        let (arc, behind) = read_arc(alloc, tokens, next)?;
        arcs.push(arc)?;
        next = behind;
    }
    Ok((arcs, next))
}

/// Reads the text of an object identifier.
pub fn read_object_identifier(
    alloc: Global,
    tokens: &[Token],
    at: usize,
) -> Result<(ObjectIdentifier, usize), SyntaxRefusal>
    ensures { (grammar : ℕ → Form)
        → Reads tokens.now grammar closed object_identifier at object_identifier_tree result }
{
    let (brace, next) = read_sign(alloc, tokens, at, "{")?;
    let (first, next) = read_first_arc(alloc, tokens, next)?;
    let (others, next) = read_arcs(alloc, tokens, next)?;
    let next = skip_sign(tokens, next, "}")?;
    Ok((
        ObjectIdentifier {
            brace,
            first,
            others,
        },
        next,
    ))
}
