//! How objects of a name binding are created and deleted (X.722, section 8.6).

ghost use Rattle.std.specs.Prelude.{◌≡◌, ℕ, slice_get, [], ◌∷◌};
ghost use Rattle.token_grammar.specs.Form.{Leaf, Maybe, Keep, Then};
ghost use Rattle.token_grammar.specs.Spelling.{passes};
ghost use Rattle.token_grammar.specs.Outcome.{Reads, closed};
ghost use Rattle.token_grammar.specs.Parts.{optional_tree};
ghost use Rattle.gdmo_members.specs.Clauses.{comma};
ghost use Rattle.gdmo_members.specs.Templates.{templates, modifier_before, create_modifiers, delete_modifier};
ghost use Rattle.gdmo_members.specs.Trees.{clause_tree};
ghost use Rattle.gdmo_classes.specs.ClassForms.{is_further, is_modifier_end, is_part_end, further_modifier, creation};
ghost use Rattle.gdmo_classes.specs.ClassForms.{deletion, create_clause, delete_clause};
ghost use Rattle.gdmo_classes.specs.BindingTrees.{further_tree, modifier_row_tree, modifiers_tree, creation_tree};
ghost use Rattle.gdmo_classes.specs.BindingTrees.{deletion_tree};

use super::rows::read_parameter_row;
use gdmo_members::parameter::ParameterReference;
use std::alloc::Global;
use token_grammar::clause_ending::end_clause;
use token_grammar::parts_beside::beside;
use token_grammar::token_reading::{read_one_of, read_sign, skip_words};
use token_grammar::token_tests::{is_one_of_at, is_sign_at, is_sign_of, is_word_at, is_word_of};
use token_grammar::{SyntaxRefusal, Token};

/// The second create modifier.
#[derive(Drop)]
pub struct FurtherModifier {
    /// The comma before it, where one stands.
    pub comma: Option<Token>,
    /// The word.
    pub word: Token,
}

/// One create modifier, and the other one where it is there.
#[derive(Drop)]
pub struct ModifierRow {
    /// The first word.
    pub first: Token,
    /// The second one.
    pub second: Option<FurtherModifier>,
}

/// The create modifiers, in either order.
#[derive(Drop)]
pub enum CreateModifiers {
    /// WITH-REFERENCE-OBJECT, and then WITH-AUTOMATIC-INSTANCE-NAMING where it comes.
    ReferenceFirst(ModifierRow),
    /// WITH-AUTOMATIC-INSTANCE-NAMING, and then WITH-REFERENCE-OBJECT where it comes.
    NamingFirst(ModifierRow),
}

/// How objects are created.
#[derive(Drop)]
pub struct Creation {
    /// The create modifiers; none where CREATE has none.
    pub modifiers: Option<CreateModifiers>,
    /// The parameters of a failure.
    pub parameters: Vec<ParameterReference>,
}

/// How objects are deleted.
#[derive(Drop)]
pub struct Deletion {
    /// The word ONLY-IF-NO-CONTAINED-OBJECTS or DELETES-CONTAINED-OBJECTS; none where DELETE stands without
    /// one, which means the first.
    pub modifier: Option<Token>,
    /// The parameters of a failure.
    pub parameters: Vec<ParameterReference>,
}

/// Whether a comma or the word stands at a place.
fn is_further_at(tokens: &[Token], at: usize, word: &str) -> bool
    ensures { result ≡ passes (is_further word.now) (slice_get tokens.now at) }
{
    match tokens.get(at) {
        Some(token) => is_sign_of(token, ",") || is_word_of(token, word),
        None => false,
    }
}

/// Reads a comma where one comes.
fn read_comma(
    alloc: Global,
    tokens: &[Token],
    at: usize,
) -> Result<(Option<Token>, usize), SyntaxRefusal>
    ensures { Reads tokens.now templates comma (Maybe (Keep comma)) at (optional_tree Leaf) result }
{
    if !is_sign_at(tokens, at, ",") {
        return Ok((None, at));
    }
    let (sign, next) = read_sign(alloc, tokens, at, ",")?;
    Ok((Some(sign), next))
}

/// Reads the second create modifier, with a comma before it or none.
fn read_further_modifier(
    alloc: Global,
    tokens: &[Token],
    at: usize,
    word: &str,
) -> Result<(FurtherModifier, usize), SyntaxRefusal>
    ensures { Reads tokens.now templates closed (further_modifier word.now) at further_tree result }
{
    let (comma, next) = read_comma(alloc, tokens, at)?;
    let (word, next) = read_one_of(alloc, tokens, next, &[word])?;
    Ok((FurtherModifier { comma, word }, next))
}

/// Reads the second create modifier where it or a comma comes.
fn read_second_modifier(
    alloc: Global,
    tokens: &[Token],
    at: usize,
    word: &str,
) -> Result<(Option<FurtherModifier>, usize), SyntaxRefusal>
    ensures { Reads tokens.now templates (is_further word.now) (Maybe (further_modifier word.now)) at
        (optional_tree further_tree) result }
{
    if !is_further_at(tokens, at, word) {
        return Ok((None, at));
    }
    let (modifier, next) = read_further_modifier(alloc, tokens, at, word)?;
    Ok((Some(modifier), next))
}

/// Reads the first of two create modifiers, and the second one where it comes.
fn read_modifier_row(
    alloc: Global,
    tokens: &[Token],
    at: usize,
    one: &str,
    other: &str,
) -> Result<(ModifierRow, usize), SyntaxRefusal>
    ensures { Reads tokens.now templates (is_further other.now) (modifier_before one.now other.now) at
        modifier_row_tree result }
{
    let (first, next) = read_one_of(alloc, tokens, at, &[one])?;
    let (second, next) = read_second_modifier(alloc, tokens, next, other)?;
    Ok((ModifierRow { first, second }, next))
}

/// Reads the create modifiers, in either order.
fn read_create_modifiers(
    alloc: Global,
    tokens: &[Token],
    at: usize,
) -> Result<(CreateModifiers, usize), SyntaxRefusal>
    ensures { Reads tokens.now templates is_modifier_end create_modifiers at modifiers_tree result }
{
    if is_word_at(tokens, at, "WITH-REFERENCE-OBJECT") {
        let (row, next) = read_modifier_row(
            alloc,
            tokens,
            at,
            "WITH-REFERENCE-OBJECT",
            "WITH-AUTOMATIC-INSTANCE-NAMING",
        )?;
        return Ok((CreateModifiers::ReferenceFirst(row), next));
    }
    let (row, next) = read_modifier_row(
        alloc,
        tokens,
        at,
        "WITH-AUTOMATIC-INSTANCE-NAMING",
        "WITH-REFERENCE-OBJECT",
    )?;
    Ok((CreateModifiers::NamingFirst(row), next))
}

/// Reads the create modifiers where one comes.
fn read_optional_create(
    alloc: Global,
    tokens: &[Token],
    at: usize,
) -> Result<(Option<CreateModifiers>, usize), SyntaxRefusal>
    ensures { Reads tokens.now templates is_modifier_end (Maybe create_modifiers) at
        (optional_tree modifiers_tree) result }
{
    if !is_one_of_at(
        tokens,
        at,
        &["WITH-REFERENCE-OBJECT", "WITH-AUTOMATIC-INSTANCE-NAMING"],
    ) {
        return Ok((None, at));
    }
    let (modifiers, next) = read_create_modifiers(alloc, tokens, at)?;
    Ok((Some(modifiers), next))
}

/// Reads a delete modifier where one comes.
fn read_optional_delete(
    alloc: Global,
    tokens: &[Token],
    at: usize,
) -> Result<(Option<Token>, usize), SyntaxRefusal>
    ensures { Reads tokens.now templates is_modifier_end (Maybe delete_modifier) at (optional_tree Leaf) result }
{
    if !is_one_of_at(
        tokens,
        at,
        &["ONLY-IF-NO-CONTAINED-OBJECTS", "DELETES-CONTAINED-OBJECTS"],
    ) {
        return Ok((None, at));
    }
    let (modifier, next) = read_one_of(
        alloc,
        tokens,
        at,
        &["ONLY-IF-NO-CONTAINED-OBJECTS", "DELETES-CONTAINED-OBJECTS"],
    )?;
    Ok((Some(modifier), next))
}

/// Reads how objects are created: the modifiers and the parameters.
fn read_creation(
    alloc: Global,
    tokens: &[Token],
    at: usize,
) -> Result<(Creation, usize), SyntaxRefusal>
    ensures { Reads tokens.now templates is_part_end creation at creation_tree result }
{
    let (modifiers, next) = read_optional_create(alloc, tokens, at)?;
    let (parts, next) = beside(modifiers, read_parameter_row(alloc, tokens, next))?;
    let (modifiers, parameters) = parts;
    Ok((
        Creation {
            modifiers,
            parameters,
        },
        next,
    ))
}

/// Reads how objects are deleted: the modifier and the parameters.
fn read_deletion(
    alloc: Global,
    tokens: &[Token],
    at: usize,
) -> Result<(Deletion, usize), SyntaxRefusal>
    ensures { Reads tokens.now templates is_part_end deletion at deletion_tree result }
{
    let (modifier, next) = read_optional_delete(alloc, tokens, at)?;
    let (parameters, next) = read_parameter_row(alloc, tokens, next)?;
    Ok((
        Deletion {
            modifier,
            parameters,
        },
        next,
    ))
}

/// Reads the clause `CREATE [modifier [,] ..] ref ..;`.
pub fn read_create_clause(
    alloc: Global,
    tokens: &[Token],
    at: usize,
) -> Result<(Creation, usize), SyntaxRefusal>
    ensures { Reads tokens.now templates closed create_clause at (clause_tree creation_tree) result }
{
    let next = skip_words(tokens, at, &["CREATE"])?;
    end_clause(tokens, read_creation(alloc, tokens, next))
}

/// Reads the clause `DELETE [modifier] ref ..;`.
pub fn read_delete_clause(
    alloc: Global,
    tokens: &[Token],
    at: usize,
) -> Result<(Deletion, usize), SyntaxRefusal>
    ensures { Reads tokens.now templates closed delete_clause at (clause_tree deletion_tree) result }
{
    let next = skip_words(tokens, at, &["DELETE"])?;
    end_clause(tokens, read_deletion(alloc, tokens, next))
}
