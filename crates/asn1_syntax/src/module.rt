//! Modules: the head, what they export and import, and their assignments (X.680, sections 13 to 16).

ghost use Rattle.std.specs.Prelude.{◌≡◌, [], ◌∷◌, codes, false, slice_get, true};
ghost use Rattle.token_grammar.specs.Form.{Form, Bare, Empty, Keep, Leaf, Listed, Many, Marks, Maybe, Named, Or, Pair};
ghost use Rattle.token_grammar.specs.Form.{Then};
ghost use Rattle.token_grammar.specs.Outcome.{Reads, Skips, closed};
ghost use Rattle.token_grammar.specs.Parts.{object_identifier, object_identifier_tree, optional_tree, sign};
ghost use Rattle.token_grammar.specs.Parts.{vector_tree, words};
ghost use Rattle.token_grammar.specs.Spelling.{passes};
ghost use Rattle.token_grammar.specs.TokenTests.{is_name, is_sign_of, is_word, is_word_of};
ghost use Rattle.asn1_values_syntax.specs.Asn1.{asn1, assignment, exports, imports, module_head, symbols, tag_default};
ghost use Rattle.asn1_values_syntax.specs.Asn1.{type_assignment, value_assignment};
ghost use Rattle.asn1_values_syntax.specs.TypeEnds.{is_assignment_end, is_assignments_end, is_exports_end};
ghost use Rattle.asn1_values_syntax.specs.TypeEnds.{is_imports_end};
ghost use Rattle.asn1_values_syntax.specs.TypeForms.{brace, is_tag_mode};
ghost use Rattle.asn1_values_syntax.specs.ValueForms.{colon, comma, modules, values};
ghost use Rattle.asn1_values_syntax.specs.ValueTrees.{value_tree};
ghost use Rattle.asn1_syntax.specs.ModuleTrees.{assigned_tree, assignment_tree, body_tree, definitions_tree};
ghost use Rattle.asn1_syntax.specs.ModuleTrees.{exports_tree, head_tree, imports_tree, module_tree, symbols_tree};
ghost use Rattle.asn1_syntax.specs.ModuleTrees.{tag_default_tree};

use super::type_text::{TypeText, read_type};
use asn1_values_syntax::value::{ValueText, read_value};
use std::alloc::Global;
use token_grammar::object_identifier::{ObjectIdentifier, read_object_identifier};
use token_grammar::token_reading::{
    place_behind, read_any_word, read_name, read_one_of, skip_sign, skip_word,
};
use token_grammar::token_tests::{
    is_any_word_at, is_name_at, is_one_of_at, is_sign_at, is_word_at,
};
use token_grammar::{SyntaxRefusal, Token};

/// A module.
#[derive(Drop)]
pub struct Module {
    /// The number of its document, which the reader leaves 0.
    pub document: u32,
    /// Its name.
    pub name: Token,
    /// Its identifier, where one stands behind the name.
    pub identifier: Option<ObjectIdentifier>,
    /// EXPLICIT or IMPLICIT, where one of them stands before TAGS.
    pub tag_default: Option<Token>,
    /// What it exports, `EXPORTS name, ..;`.
    pub exports: Option<Exports>,
    /// What it imports, `IMPORTS names FROM Module ..;`.
    pub imports: Option<Imports>,
    /// Its assignments, in order.
    pub assignments: Vec<Assignment>,
}

/// The head of a module.
#[derive(Drop)]
pub struct ModuleHead {
    /// The module's name.
    pub name: Token,
    /// Its identifier.
    pub identifier: Option<ObjectIdentifier>,
    /// EXPLICIT or IMPLICIT.
    pub tag_default: Option<Token>,
}

/// The body of a module.
#[derive(Drop)]
pub struct ModuleBody {
    /// What the module exports.
    pub exports: Option<Exports>,
    /// What it imports.
    pub imports: Option<Imports>,
    /// Its assignments.
    pub assignments: Vec<Assignment>,
}

/// What a module exports. It isn't looked up.
#[derive(Drop)]
pub struct Exports {
    /// The words, in order; none where the semicolon stands at once.
    pub symbols: Option<Vec<Token>>,
}

/// What a module imports from one module.
#[derive(Drop)]
pub struct ImportedSymbols {
    /// The names of types and values, in order.
    pub symbols: Vec<Token>,
    /// The module's name.
    pub module_name: Token,
    /// The module's identifier, where one stands behind the name. It isn't looked up.
    pub identifier: Option<ObjectIdentifier>,
}

/// What a module imports.
#[derive(Drop)]
pub struct Imports {
    /// From the first module.
    pub first: ImportedSymbols,
    /// From the modules behind it, in order.
    pub others: Vec<ImportedSymbols>,
}

/// What a name stands for.
#[derive(Drop)]
pub enum Assigned {
    /// A type.
    OfType(TypeText),
    /// A value of a type.
    OfValue {
        /// The type.
        of: TypeText,
        /// The value.
        value: ValueText,
    },
}

/// An assignment.
#[derive(Drop)]
pub struct Assignment {
    /// The name.
    pub name: Token,
    /// What it stands for.
    pub assigned: Assigned,
}

/// Reads an object identifier where a brace comes.
fn read_identifier(
    alloc: Global,
    tokens: &[Token],
    at: usize,
) -> Result<(Option<ObjectIdentifier>, usize), SyntaxRefusal>
    ensures { Reads tokens.now asn1 brace (Maybe object_identifier) at (optional_tree object_identifier_tree) result }
{
    if !is_sign_at(tokens, at, "{") {
        return Ok((None, at));
    }
    let (identifier, next) = read_object_identifier(alloc, tokens, at)?;
    Ok((Some(identifier), next))
}

/// Reads EXPLICIT TAGS or IMPLICIT TAGS where one of them comes.
fn read_tag_default(
    alloc: Global,
    tokens: &[Token],
    at: usize,
) -> Result<(Option<Token>, usize), SyntaxRefusal>
    ensures { Reads tokens.now asn1 is_tag_mode (Maybe tag_default) at (optional_tree tag_default_tree) result }
{
    if !is_one_of_at(tokens, at, &["IMPLICIT", "EXPLICIT"]) {
        return Ok((None, at));
    }
    let (mode, next) = read_one_of(alloc, tokens, at, &["IMPLICIT", "EXPLICIT"])?;
    let next = skip_word(tokens, next, "TAGS")?;
    Ok((Some(mode), next))
}

/// Goes past what stands before a module's body.
fn skip_begin(tokens: &[Token], at: usize) -> Result<usize, SyntaxRefusal>
    ensures { Skips tokens.now asn1 closed (Then (sign (codes "::=")) (Marks (words (codes "BEGIN" ∷ [])))) at
        (Pair Bare Bare) result }
{
    let next = skip_sign(tokens, at, "::=")?;
    let next = skip_word(tokens, next, "BEGIN")?;
    Ok(next)
}

/// Reads what stands in a module's head behind its identifier.
fn read_definitions(
    alloc: Global,
    tokens: &[Token],
    at: usize,
) -> Result<(Option<Token>, usize), SyntaxRefusal>
    ensures { Reads tokens.now asn1 closed (Then (Marks (words (codes "DEFINITIONS" ∷ [])))
        (Then (Maybe tag_default) (Then (sign (codes "::=")) (Marks (words (codes "BEGIN" ∷ []))))))
        at definitions_tree result }
{
    let next = skip_word(tokens, at, "DEFINITIONS")?;
    let (tag_default, next) = read_tag_default(alloc, tokens, next)?;
    let next = skip_begin(tokens, next)?;
    Ok((tag_default, next))
}

/// Reads the head of a module.
fn read_head(
    alloc: Global,
    tokens: &[Token],
    at: usize,
) -> Result<(ModuleHead, usize), SyntaxRefusal>
    ensures { Reads tokens.now asn1 closed module_head at head_tree result }
{
    let (name, next) = read_name(alloc, tokens, at)?;
    let (identifier, next) = read_identifier(alloc, tokens, next)?;
    let (tag_default, next) = read_definitions(alloc, tokens, next)?;
    Ok((
        ModuleHead {
            name,
            identifier,
            tag_default,
        },
        next,
    ))
}

/// Reads words with commas between them.
fn read_word_list(
    alloc: Global,
    tokens: &[Token],
    at: usize,
) -> Result<(Vec<Token>, usize), SyntaxRefusal>
    ensures { Reads tokens.now asn1 comma (Listed comma Empty (Keep is_word)) at (vector_tree Leaf) result }
{
    let mut list = Vec::new(alloc);
    let mut next = at;
    'turns: loop {
        let (word, behind) = read_any_word(alloc, tokens, next)?;
        list.push(word)?;
        let Some(place) = place_behind(tokens, behind, ",") else {
            return Ok((list, behind));
        };
        next = place;
    }
}

/// Reads words with commas between them where a word comes.
fn read_optional_words(
    alloc: Global,
    tokens: &[Token],
    at: usize,
) -> Result<(Option<Vec<Token>>, usize), SyntaxRefusal>
    ensures { Reads tokens.now asn1 is_exports_end (Maybe (Listed comma Empty (Keep is_word))) at
        (optional_tree (vector_tree Leaf)) result }
{
    if !is_any_word_at(tokens, at) {
        return Ok((None, at));
    }
    let (list, next) = read_word_list(alloc, tokens, at)?;
    Ok((Some(list), next))
}

/// Reads what a module exports where EXPORTS comes.
fn read_exports(
    alloc: Global,
    tokens: &[Token],
    at: usize,
) -> Result<(Option<Exports>, usize), SyntaxRefusal>
    ensures { Reads tokens.now asn1 (is_word_of (codes "EXPORTS")) (Maybe exports) at (optional_tree exports_tree)
        result }
{
    if !is_word_at(tokens, at, "EXPORTS") {
        return Ok((None, at));
    }
    let next = skip_word(tokens, at, "EXPORTS")?;
    let (symbols, next) = read_optional_words(alloc, tokens, next)?;
    let next = skip_sign(tokens, next, ";")?;
    Ok((Some(Exports { symbols }), next))
}

/// Reads names with commas between them.
fn read_name_list(
    alloc: Global,
    tokens: &[Token],
    at: usize,
) -> Result<(Vec<Token>, usize), SyntaxRefusal>
    ensures { Reads tokens.now asn1 comma (Listed comma Empty (Keep is_name)) at (vector_tree Leaf) result }
{
    let mut list = Vec::new(alloc);
    let mut next = at;
    'turns: loop {
        let (name, behind) = read_name(alloc, tokens, next)?;
        list.push(name)?;
        let Some(place) = place_behind(tokens, behind, ",") else {
            return Ok((list, behind));
        };
        next = place;
    }
}

/// Reads what a module imports from one module.
fn read_imported_symbols(
    alloc: Global,
    tokens: &[Token],
    at: usize,
) -> Result<(ImportedSymbols, usize), SyntaxRefusal>
    ensures { Reads tokens.now asn1 brace symbols at symbols_tree result }
{
    let (symbols, next) = read_name_list(alloc, tokens, at)?;
    let next = skip_word(tokens, next, "FROM")?;
    let (module_name, next) = read_name(alloc, tokens, next)?;
    let (identifier, next) = read_identifier(alloc, tokens, next)?;
    Ok((
        ImportedSymbols {
            symbols,
            module_name,
            identifier,
        },
        next,
    ))
}

/// Reads what a module imports from further modules, as many as come.
fn read_further_symbols(
    alloc: Global,
    tokens: &[Token],
    at: usize,
) -> Result<(Vec<ImportedSymbols>, usize), SyntaxRefusal>
    ensures { Reads tokens.now asn1 is_imports_end (Many Empty symbols) at (vector_tree symbols_tree) result }
{
    let mut list = Vec::new(alloc);
    let mut next = at;
    'turns: while is_name_at(tokens, next) {
        let (symbols, behind) = read_imported_symbols(alloc, tokens, next)?;
        list.push(symbols)?;
        next = behind;
    }
    Ok((list, next))
}

/// Reads what a module imports where IMPORTS comes.
fn read_imports(
    alloc: Global,
    tokens: &[Token],
    at: usize,
) -> Result<(Option<Imports>, usize), SyntaxRefusal>
    ensures { Reads tokens.now asn1 (is_word_of (codes "IMPORTS")) (Maybe imports) at (optional_tree imports_tree)
        result }
{
    if !is_word_at(tokens, at, "IMPORTS") {
        return Ok((None, at));
    }
    let next = skip_word(tokens, at, "IMPORTS")?;
    let (first, next) = read_imported_symbols(alloc, tokens, next)?;
    let (others, next) = read_further_symbols(alloc, tokens, next)?;
    let next = skip_sign(tokens, next, ";")?;
    Ok((Some(Imports { first, others }), next))
}

/// Reads `::=` and the type behind it, where `::=` stands.
fn read_assigned_type(
    alloc: Global,
    tokens: &[Token],
    at: usize,
) -> Result<(Assigned, usize), SyntaxRefusal>
    ensures { passes (is_sign_of (codes "::=")) (slice_get tokens.now at) ≡ true →
        Reads tokens.now asn1 is_assignment_end (Or type_assignment value_assignment) at assigned_tree result }
{
    let next = skip_sign(tokens, at, "::=")?;
    let (of, next) = read_type(alloc, tokens, next)?;
    Ok((Assigned::OfType(of), next))
}

/// Reads `::=` and the value behind it.
fn read_given_value(
    alloc: Global,
    tokens: &[Token],
    at: usize,
) -> Result<(ValueText, usize), SyntaxRefusal>
    ensures { Reads tokens.now asn1 colon (Then (sign (codes "::=")) (Named values)) at
        (λ value. Pair Bare (value_tree value)) result }
{
    let next = skip_sign(tokens, at, "::=")?;
    let (value, next) = read_value(alloc, tokens, next)?;
    Ok((value, next))
}

/// Reads a type and its value, where no `::=` stands.
fn read_assigned_value(
    alloc: Global,
    tokens: &[Token],
    at: usize,
) -> Result<(Assigned, usize), SyntaxRefusal>
    ensures { passes (is_sign_of (codes "::=")) (slice_get tokens.now at) ≡ false →
        Reads tokens.now asn1 is_assignment_end (Or type_assignment value_assignment) at assigned_tree result }
{
    let (of, next) = read_type(alloc, tokens, at)?;
    let (value, next) = read_given_value(alloc, tokens, next)?;
    Ok((Assigned::OfValue { of, value }, next))
}

/// Reads what a name stands for: a type behind `::=`, or a type and its value.
fn read_assigned(
    alloc: Global,
    tokens: &[Token],
    at: usize,
) -> Result<(Assigned, usize), SyntaxRefusal>
    ensures { Reads tokens.now asn1 is_assignment_end (Or type_assignment value_assignment) at assigned_tree result }
{
    if is_sign_at(tokens, at, "::=") {
        return read_assigned_type(alloc, tokens, at);
    }
    read_assigned_value(alloc, tokens, at)
}

/// Reads an assignment.
fn read_assignment(
    alloc: Global,
    tokens: &[Token],
    at: usize,
) -> Result<(Assignment, usize), SyntaxRefusal>
    ensures { Reads tokens.now asn1 is_assignment_end assignment at assignment_tree result }
{
    let (name, next) = read_name(alloc, tokens, at)?;
    let (assigned, next) = read_assigned(alloc, tokens, next)?;
    Ok((Assignment { name, assigned }, next))
}

/// Reads assignments, as many as come.
fn read_assignments(
    alloc: Global,
    tokens: &[Token],
    at: usize,
) -> Result<(Vec<Assignment>, usize), SyntaxRefusal>
    ensures { Reads tokens.now asn1 is_assignments_end (Many Empty assignment) at (vector_tree assignment_tree) result }
{
    let mut list = Vec::new(alloc);
    let mut next = at;
    'turns: while is_name_at(tokens, next) {
        let (assignment, behind) = read_assignment(alloc, tokens, next)?;
        list.push(assignment)?;
        next = behind;
    }
    Ok((list, next))
}

/// Reads assignments, as many as come, and END.
fn read_assignments_end(
    alloc: Global,
    tokens: &[Token],
    at: usize,
) -> Result<(Vec<Assignment>, usize), SyntaxRefusal>
    ensures { Reads tokens.now asn1 closed (Then (Many Empty assignment) (Marks (words (codes "END" ∷ [])))) at
        (λ list. Pair (vector_tree assignment_tree list) Bare) result }
{
    let (assignments, next) = read_assignments(alloc, tokens, at)?;
    let next = skip_word(tokens, next, "END")?;
    Ok((assignments, next))
}

/// Reads the body of a module and END.
fn read_body(
    alloc: Global,
    tokens: &[Token],
    at: usize,
) -> Result<(ModuleBody, usize), SyntaxRefusal>
    ensures { Reads tokens.now asn1 closed (Then (Maybe exports) (Then (Maybe imports)
        (Then (Many Empty assignment) (Marks (words (codes "END" ∷ [])))))) at body_tree result }
{
    let (exports, next) = read_exports(alloc, tokens, at)?;
    let (imports, next) = read_imports(alloc, tokens, next)?;
    let (assignments, next) = read_assignments_end(alloc, tokens, next)?;
    Ok((
        ModuleBody {
            exports,
            imports,
            assignments,
        },
        next,
    ))
}

/// Reads a module from the place `at` of the tokens on. It has the document number 0.
///
/// The answer is the module and the place behind its END. `Syntax` has the place of the first token with which
/// no module goes on, or the number of tokens where they end too early; for a place past the end of the tokens
/// it is that place. `Memory` comes where there is no memory for the module (X.680, section 13.1).
pub fn read_module(
    alloc: Global,
    tokens: &[Token],
    at: usize,
) -> Result<(Module, usize), SyntaxRefusal>
    ensures { Reads tokens.now asn1 closed (Named modules) at module_tree result }
{
    let (head, next) = read_head(alloc, tokens, at)?;
    let (body, next) = read_body(alloc, tokens, next)?;
    Ok((
        Module {
            document: 0,
            name: head.name,
            identifier: head.identifier,
            tag_default: head.tag_default,
            exports: body.exports,
            imports: body.imports,
            assignments: body.assignments,
        },
        next,
    ))
}
