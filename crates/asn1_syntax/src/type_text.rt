//! The text of a type. Types stand in types (X.680, section 17; X.208, sections 20 to 27).

ghost use Rattle.std.specs.Prelude.{◌≡◌, codes, false, slice_get, true};
ghost use Rattle.token_grammar.specs.Form.{Form, Empty, Listed, Maybe, Named, Or};
ghost use Rattle.token_grammar.specs.Outcome.{Reads, closed};
ghost use Rattle.token_grammar.specs.Parts.{optional_tree, vector_tree};
ghost use Rattle.token_grammar.specs.Spelling.{passes};
ghost use Rattle.token_grammar.specs.TokenTests.{is_sign_of, is_word_of};
ghost use Rattle.asn1_values_syntax.specs.Asn1.{asn1};
ghost use Rattle.asn1_values_syntax.specs.TypeEnds.{is_alternatives_end, is_component_end, is_component_list_end};
ghost use Rattle.asn1_values_syntax.specs.TypeEnds.{is_components_end, is_type_end};
ghost use Rattle.asn1_values_syntax.specs.TypeForms.{alternative, brace, component, components, is_structure, list_of};
ghost use Rattle.asn1_values_syntax.specs.ValueForms.{comma, types};
ghost use Rattle.asn1_syntax.specs.TypeTrees.{alternative_tree, component_tree, structure_tree, type_tree};

use super::plain_type::{PlainType, read_plain_type};
use super::presence::{Presence, read_presence};
use asn1_values_syntax::constraint::{Constraint, Range, read_constraints, read_list_size};
use asn1_values_syntax::tag::{Tag, read_boxed_tag, read_tag_mode};
use std::alloc::Global;
use token_grammar::token_reading::{place_behind, read_name, read_one_of, skip_sign, skip_word};
use token_grammar::token_tests::{is_name_at, is_one_of_at, is_sign_at, is_word_at};
use token_grammar::{SyntaxRefusal, Token};

/// The text of a type.
#[cycle(types)]
#[derive(Drop)]
pub enum TypeText {
    /// A type under a tag.
    Tagged {
        /// The tag.
        tag: Box<Tag>,
        /// IMPLICIT or EXPLICIT, where one of them stands.
        mode: Option<Token>,
        /// The type under it.
        of: Box<TypeText>,
    },
    /// SEQUENCE or SET, of components or of one type.
    Structured {
        /// The word.
        word: Token,
        /// What stands behind it.
        content: StructureText,
    },
    /// CHOICE.
    Choice {
        /// The word.
        word: Token,
        /// The alternatives, in order.
        alternatives: Vec<Alternative>,
        /// The constraints behind the brace.
        constraints: Vec<Constraint>,
    },
    /// A type that holds no other.
    Plain {
        /// The type.
        of: PlainType,
        /// The constraints behind it.
        constraints: Vec<Constraint>,
    },
}

/// What stands behind SEQUENCE or SET.
#[cycle(types)]
#[derive(Drop)]
pub enum StructureText {
    /// Components in braces.
    Components {
        /// The components, in order; none where nothing stands in the braces.
        components: Option<Vec<Component>>,
        /// The constraints behind the brace.
        constraints: Vec<Constraint>,
    },
    /// The type of the elements, behind OF.
    ListOf {
        /// The sizes, where `(SIZE(range | ..))` stands before OF.
        size: Option<Vec<Range>>,
        /// The type.
        of: Box<TypeText>,
    },
}

/// A component.
#[cycle(types)]
#[derive(Drop)]
pub struct Component {
    /// Its name.
    pub name: Token,
    /// Its type.
    pub of: TypeText,
    /// OPTIONAL or DEFAULT, where one of them stands.
    pub presence: Option<Box<Presence>>,
}

/// An alternative of a CHOICE.
#[cycle(types)]
#[derive(Drop)]
pub struct Alternative {
    /// Its name.
    pub name: Token,
    /// Its type.
    pub of: TypeText,
}

/// Reads the text of a type from the place `at` of the tokens on.
///
/// The answer is the text and the place behind it. `Syntax` has the place of the first token with which no
/// type goes on, or the number of tokens where they end too early; for a place past the end of the tokens it
/// is that place. `Memory` comes where there is no memory for the text (X.680, section 17.1).
#[cycle(types)]
pub fn read_type(
    alloc: Global,
    tokens: &[Token],
    at: usize,
) -> Result<(TypeText, usize), SyntaxRefusal>
    ensures { Reads tokens.now asn1 is_type_end (Named types) at type_tree result }
{
    if is_sign_at(tokens, at, "[") {
        return read_tagged_type(alloc, tokens, at);
    }
    if is_one_of_at(tokens, at, &["SEQUENCE", "SET"]) {
        return read_structured_type(alloc, tokens, at);
    }
    if is_word_at(tokens, at, "CHOICE") {
        return read_choice_type(alloc, tokens, at);
    }
    read_constrained_type(alloc, tokens, at)
}

/// Reads the text of a type into a box.
#[cycle(types)]
fn read_boxed_type(
    alloc: Global,
    tokens: &[Token],
    at: usize,
) -> Result<(Box<TypeText>, usize), SyntaxRefusal>
    ensures { Reads tokens.now asn1 is_type_end (Named types) at (λ of. type_tree of.value) result }
{
    let (of, next) = read_type(alloc, tokens, at)?;
    let boxed = Box::new(alloc, of)?;
    Ok((boxed, next))
}

/// Reads a type under a tag, where a bracket stands. This function and some of those below aren't inlined,
/// so that their locals take no room while types are read that stand in others.
#[inline(never)]
#[cycle(types)]
fn read_tagged_type(
    alloc: Global,
    tokens: &[Token],
    at: usize,
) -> Result<(TypeText, usize), SyntaxRefusal>
    ensures { passes (is_sign_of (codes "[")) (slice_get tokens.now at) ≡ true →
        Reads tokens.now asn1 is_type_end (Named types) at type_tree result }
{
    let (tag, next) = read_boxed_tag(alloc, tokens, at)?;
    let (mode, next) = read_tag_mode(alloc, tokens, next)?;
    let (of, next) = read_boxed_type(alloc, tokens, next)?;
    Ok((TypeText::Tagged { tag, mode, of }, next))
}

/// Reads SEQUENCE or SET and what stands behind it, where one of the words stands.
#[cycle(types)]
fn read_structured_type(
    alloc: Global,
    tokens: &[Token],
    at: usize,
) -> Result<(TypeText, usize), SyntaxRefusal>
    ensures { passes (is_structure) (slice_get tokens.now at) ≡ true →
        Reads tokens.now asn1 is_type_end (Named types) at type_tree result }
{
    let (word, next) = read_one_of(alloc, tokens, at, &["SEQUENCE", "SET"])?;
    let (content, next) = read_structure(alloc, tokens, next)?;
    Ok((TypeText::Structured { word, content }, next))
}

/// Reads a CHOICE, where the word stands.
#[inline(never)]
#[cycle(types)]
fn read_choice_type(
    alloc: Global,
    tokens: &[Token],
    at: usize,
) -> Result<(TypeText, usize), SyntaxRefusal>
    ensures { passes (is_word_of (codes "CHOICE")) (slice_get tokens.now at) ≡ true →
        Reads tokens.now asn1 is_type_end (Named types) at type_tree result }
{
    let (word, next) = read_one_of(alloc, tokens, at, &["CHOICE"])?;
    let next = skip_sign(tokens, next, "{")?;
    let (alternatives, next) = read_alternatives(alloc, tokens, next)?;
    let next = skip_sign(tokens, next, "}")?;
    let (constraints, next) = read_constraints(alloc, tokens, next)?;
    Ok((
        TypeText::Choice {
            word,
            alternatives,
            constraints,
        },
        next,
    ))
}

/// Reads a type that holds no other with its constraints, where none of the others stands.
#[inline(never)]
fn read_constrained_type(
    alloc: Global,
    tokens: &[Token],
    at: usize,
) -> Result<(TypeText, usize), SyntaxRefusal>
    ensures { passes (is_sign_of (codes "[")) (slice_get tokens.now at) ≡ false → passes (is_structure)
        (slice_get tokens.now at) ≡ false → passes (is_word_of (codes "CHOICE")) (slice_get tokens.now at) ≡ false →
        Reads tokens.now asn1 is_type_end (Named types) at type_tree result }
{
    let (of, next) = read_plain_type(alloc, tokens, at)?;
    let (constraints, next) = read_constraints(alloc, tokens, next)?;
    Ok((TypeText::Plain { of, constraints }, next))
}

/// Reads what stands behind SEQUENCE or SET: components where a brace comes, else the type of the elements.
#[cycle(types)]
fn read_structure(
    alloc: Global,
    tokens: &[Token],
    at: usize,
) -> Result<(StructureText, usize), SyntaxRefusal>
    ensures { Reads tokens.now asn1 is_type_end (Or components list_of) at structure_tree result }
{
    if is_sign_at(tokens, at, "{") {
        return read_components(alloc, tokens, at);
    }
    read_elements(alloc, tokens, at)
}

/// Reads components in braces, where a brace stands.
#[cycle(types)]
fn read_components(
    alloc: Global,
    tokens: &[Token],
    at: usize,
) -> Result<(StructureText, usize), SyntaxRefusal>
    ensures { passes (brace) (slice_get tokens.now at) ≡ true →
        Reads tokens.now asn1 is_type_end (Or components list_of) at structure_tree result }
{
    let next = skip_sign(tokens, at, "{")?;
    let (components, next) = read_optional_components(alloc, tokens, next)?;
    let next = skip_sign(tokens, next, "}")?;
    let (constraints, next) = read_constraints(alloc, tokens, next)?;
    Ok((
        StructureText::Components {
            components,
            constraints,
        },
        next,
    ))
}

/// Reads the type of the elements, with their size before it, where no brace stands.
#[inline(never)]
#[cycle(types)]
fn read_elements(
    alloc: Global,
    tokens: &[Token],
    at: usize,
) -> Result<(StructureText, usize), SyntaxRefusal>
    ensures { passes (brace) (slice_get tokens.now at) ≡ false →
        Reads tokens.now asn1 is_type_end (Or components list_of) at structure_tree result }
{
    let (size, next) = read_list_size(alloc, tokens, at)?;
    let next = skip_word(tokens, next, "OF")?;
    let (of, next) = read_boxed_type(alloc, tokens, next)?;
    Ok((StructureText::ListOf { size, of }, next))
}

/// Reads components with commas between them where a name comes.
#[cycle(types)]
fn read_optional_components(
    alloc: Global,
    tokens: &[Token],
    at: usize,
) -> Result<(Option<Vec<Component>>, usize), SyntaxRefusal>
    ensures { Reads tokens.now asn1 is_components_end (Maybe (Listed comma Empty component)) at
        (optional_tree (vector_tree component_tree)) result }
{
    if !is_name_at(tokens, at) {
        return Ok((None, at));
    }
    let (list, next) = read_component_list(alloc, tokens, at)?;
    Ok((Some(list), next))
}

/// Reads components with commas between them.
#[cycle(types)]
fn read_component_list(
    alloc: Global,
    tokens: &[Token],
    at: usize,
) -> Result<(Vec<Component>, usize), SyntaxRefusal>
    ensures { Reads tokens.now asn1 is_component_list_end (Listed comma Empty component) at
        (vector_tree component_tree)
        result }
{
    let mut list = Vec::new(alloc);
    let mut next = at;
    'turns: loop {
        let (component, behind) = read_component(alloc, tokens, next)?;
        list.push(component)?;
        let Some(place) = place_behind(tokens, behind, ",") else {
            return Ok((list, behind));
        };
        next = place;
    }
}

/// Reads a component.
#[cycle(types)]
fn read_component(
    alloc: Global,
    tokens: &[Token],
    at: usize,
) -> Result<(Component, usize), SyntaxRefusal>
    ensures { Reads tokens.now asn1 is_component_end component at component_tree result }
{
    let (name, next) = read_name(alloc, tokens, at)?;
    let (of, next) = read_type(alloc, tokens, next)?;
    let (presence, next) = read_presence(alloc, tokens, next)?;
    Ok((Component { name, of, presence }, next))
}

/// Reads alternatives with commas between them.
#[cycle(types)]
fn read_alternatives(
    alloc: Global,
    tokens: &[Token],
    at: usize,
) -> Result<(Vec<Alternative>, usize), SyntaxRefusal>
    ensures { Reads tokens.now asn1 is_alternatives_end (Listed comma Empty alternative) at
        (vector_tree alternative_tree) result }
{
    let mut list = Vec::new(alloc);
    let mut next = at;
    'turns: loop {
        let (alternative, behind) = read_alternative(alloc, tokens, next)?;
        list.push(alternative)?;
        let Some(place) = place_behind(tokens, behind, ",") else {
            return Ok((list, behind));
        };
        next = place;
    }
}

/// Reads an alternative.
#[cycle(types)]
fn read_alternative(
    alloc: Global,
    tokens: &[Token],
    at: usize,
) -> Result<(Alternative, usize), SyntaxRefusal>
    ensures { Reads tokens.now asn1 is_type_end alternative at alternative_tree result }
{
    let (name, next) = read_name(alloc, tokens, at)?;
    let (of, next) = read_type(alloc, tokens, next)?;
    Ok((Alternative { name, of }, next))
}
