//! The parameter template (X.722, section 8.5), references to it, and the clause that other templates
//! have for it.

ghost use Rattle.std.specs.Prelude.{◌≡◌, ℕ, [], ◌∷◌, codes, IfOk};
ghost use Rattle.token_grammar.specs.Form.{Form, AnyOrder, Named};
ghost use Rattle.token_grammar.specs.Outcome.{Reads, closed};
ghost use Rattle.token_grammar.specs.Parts.{either, vector_tree};
ghost use Rattle.token_grammar.specs.Turns.{TakesClause};
ghost use Rattle.token_grammar.specs.TokenTests.{is_word_of};
ghost use Rattle.gdmo_members.specs.Clauses.{ending, comma, parameters, reference, references, parameters_clause};
ghost use Rattle.gdmo_members.specs.Clauses.{context, clause};
ghost use Rattle.gdmo_members.specs.Templates.{templates, parameter_syntax, parameter_clauses};
ghost use Rattle.gdmo_members.specs.Trees.{clause_tree, context_tree, ending_tree};
ghost use Rattle.gdmo_members.specs.MemberTrees.{parameter_tree, template_tree, parameter_reference_tree};
ghost use Rattle.gdmo_members.specs.MemberTrees.{parameter_syntax_tree, parameter_slots, parameter_clauses_tree};
ghost use Rattle.gdmo_members.specs.MemberTrees.{is_parameter_clause};

use super::attribute::{AttributeReference, read_attribute_reference};
use super::behaviour::{BehaviourReference, read_behaviour_clause};
use super::context::{Context, read_context};
use super::registration::read_ending;
use super::type_clause::read_type_clause;
use std::alloc::Global;
use token_grammar::clause_ending::end_clause;
use token_grammar::clause_keeping::keep_clause;
use token_grammar::label_reference::{LabelReference, read_label_reference};
use token_grammar::object_identifier::ObjectIdentifier;
use token_grammar::qualified_name::QualifiedName;
use token_grammar::token_reading::{place_behind, read_label, skip_sign, skip_words};
use token_grammar::token_tests::{is_one_of_at, is_template_at, is_word_at};
use token_grammar::{SyntaxRefusal, Token};

/// A parameter template.
#[cycle(templates)]
#[derive(Drop)]
pub struct ParameterTemplate {
    /// The number of its document, which the reader leaves 0.
    pub document: u32,
    /// The parameter's label.
    pub label: Token,
    /// Where the parameter may stand, `CONTEXT context;`.
    pub context: Context,
    /// What says which values the parameter has.
    pub syntax: ParameterSyntax,
    /// Its behaviours, `BEHAVIOUR ref, ..;`.
    pub behaviour: Option<Vec<BehaviourReference>>,
    /// The identifier under which it is registered.
    pub registration: Option<ObjectIdentifier>,
}

/// What says which values a parameter has.
#[cycle(templates)]
#[derive(Drop)]
pub enum ParameterSyntax {
    /// `WITH SYNTAX Module.Type;`
    TypeReference(QualifiedName),
    /// `ATTRIBUTE ref;`
    Attribute(AttributeReference),
}

/// What names a parameter.
#[cycle(templates)]
#[derive(Drop)]
pub enum ParameterReference {
    /// Its label.
    Label(LabelReference),
    /// The template itself, in line.
    Template(Box<ParameterTemplate>),
}

/// The clauses of a parameter template that came so far.
#[derive(Drop)]
struct ParameterDraft {
    context: Option<Context>,
    syntax: Option<ParameterSyntax>,
    behaviour: Option<Vec<BehaviourReference>>,
}

/// The clauses of a parameter template.
#[derive(Drop)]
struct ParameterClauses {
    context: Context,
    syntax: ParameterSyntax,
    behaviour: Option<Vec<BehaviourReference>>,
}

/// Reads a parameter template from the place `at` on, and answers it with the place behind it. `Syntax` has
/// the first token with which the template doesn't go on, or the number of tokens where they end too early;
/// `Memory` comes where there is none for it (X.722, section 8.5).
pub fn read_parameter(
    alloc: Global,
    tokens: &[Token],
    at: usize,
) -> Result<(ParameterTemplate, usize), SyntaxRefusal>
    ensures { Reads tokens.now templates closed (Named parameters) at parameter_tree result }
{
    let (template, next) = read_parameter_in_line(alloc, tokens, at)?;
    Ok((Box::into_inner(template), next))
}

/// Reads a parameter template into a box, so that few octets of the stack are held for each template that it
/// stands in.
#[cycle(templates)]
fn read_parameter_in_line(
    alloc: Global,
    tokens: &[Token],
    at: usize,
) -> Result<(Box<ParameterTemplate>, usize), SyntaxRefusal>
    ensures { Reads tokens.now templates closed (Named parameters) at
        (λ template. parameter_tree template.value) result }
{
    let (label, next) = read_label(alloc, tokens, at)?;
    let next = skip_words(tokens, next, &["PARAMETER"])?;
    let (clauses, next) = read_parameter_clauses(alloc, tokens, next)?;
    let (template, next) = end_parameter(alloc, tokens, next, label, clauses)?;
    Ok((template, next))
}

/// Reads the end of a parameter template, and puts its parts together. It isn't inlined, so that its
/// locals take no room while a template in line is read.
#[inline(never)]
fn end_parameter(
    alloc: Global,
    tokens: &[Token],
    at: usize,
    label: Token,
    clauses: ParameterClauses,
) -> Result<(Box<ParameterTemplate>, usize), SyntaxRefusal>
    ensures reads { Reads tokens.now templates closed ending at
        (λ template. ending_tree template.value.registration) result }
    ensures made { IfOk result
        (λ answer. parameter_tree answer.0.value ≡ template_tree 0 label (parameter_clauses_tree clauses)
        (ending_tree answer.0.value.registration)) }
{
    let (registration, next) = read_ending(alloc, tokens, at)?;
    let template = Box::new(
        alloc,
        ParameterTemplate {
            document: 0,
            label,
            context: clauses.context,
            syntax: clauses.syntax,
            behaviour: clauses.behaviour,
            registration,
        },
    )?;
    Ok((template, next))
}

/// Reads what names a parameter: a label, or a template in line where the word PARAMETER is behind it.
#[cycle(templates)]
pub fn read_parameter_reference(
    alloc: Global,
    tokens: &[Token],
    at: usize,
) -> Result<(ParameterReference, usize), SyntaxRefusal>
    ensures { Reads tokens.now templates (is_word_of (codes "PARAMETER")) (reference parameters) at
        parameter_reference_tree result }
{
    if is_template_at(tokens, at, "PARAMETER") {
        let (template, next) = read_parameter_in_line(alloc, tokens, at)?;
        return Ok((ParameterReference::Template(template), next));
    }
    let (label, next) = read_label_reference(alloc, tokens, at)?;
    Ok((ParameterReference::Label(label), next))
}

/// Reads references to parameters with commas between them.
#[cycle(templates)]
fn read_parameter_list(
    alloc: Global,
    tokens: &[Token],
    at: usize,
) -> Result<(Vec<ParameterReference>, usize), SyntaxRefusal>
    ensures { Reads tokens.now templates (either comma (is_word_of (codes "PARAMETER"))) (references parameters) at
        (vector_tree parameter_reference_tree) result }
{
    let mut list = Vec::new(alloc);
    let mut next = at;
    'turns: loop {
        let (reference, behind) = read_parameter_reference(alloc, tokens, next)?;
        list.push(reference)?;
        let Some(place) = place_behind(tokens, behind, ",") else {
            return Ok((list, behind));
        };
        next = place;
    }
}

/// Reads the clause `PARAMETERS ref, ..;`.
#[cycle(templates)]
pub fn read_parameters_clause(
    alloc: Global,
    tokens: &[Token],
    at: usize,
) -> Result<(Vec<ParameterReference>, usize), SyntaxRefusal>
    ensures { Reads tokens.now templates closed parameters_clause at
        (clause_tree (vector_tree parameter_reference_tree)) result }
{
    let next = skip_words(tokens, at, &["PARAMETERS"])?;
    let (list, next) = read_parameter_list(alloc, tokens, next)?;
    let next = skip_sign(tokens, next, ";")?;
    Ok((list, next))
}

/// Reads the clauses of a parameter template, in any order.
#[cycle(templates)]
fn read_parameter_clauses(
    alloc: Global,
    tokens: &[Token],
    at: usize,
) -> Result<(ParameterClauses, usize), SyntaxRefusal>
    ensures { Reads tokens.now templates is_parameter_clause (AnyOrder parameter_clauses) at
        parameter_clauses_tree result }
{
    let mut draft = ParameterDraft {
        context: None,
        syntax: None,
        behaviour: None,
    };
    let mut next = at;
    'turns: while let Some(behind) = read_parameter_clause(alloc, tokens, next, &mut draft)? {
        next = behind;
    }
    let ParameterDraft {
        context,
        syntax,
        behaviour,
    } = draft;
    let Some(context) = context else {
        return Err(SyntaxRefusal::Syntax { token: next as u64 });
    };
    let Some(syntax) = syntax else {
        return Err(SyntaxRefusal::Syntax { token: next as u64 });
    };
    Ok((
        ParameterClauses {
            context,
            syntax,
            behaviour,
        },
        next,
    ))
}

/// Reads the next clause of a parameter template, where one comes that didn't come before.
#[cycle(templates)]
fn read_parameter_clause(
    alloc: Global,
    tokens: &[Token],
    at: usize,
    draft: &mut ParameterDraft,
) -> Result<Option<usize>, SyntaxRefusal>
    ensures { TakesClause tokens.now templates is_parameter_clause (parameter_slots draft.old)
        (parameter_slots draft.new) at result }
{
    let has_context = draft.context.is_none() & is_word_at(tokens, at, "CONTEXT");
    if has_context {
        return keep_clause(&mut draft.context, read_context_clause(alloc, tokens, at));
    }
    let has_syntax = draft.syntax.is_none() & is_one_of_at(tokens, at, &["WITH", "ATTRIBUTE"]);
    if has_syntax {
        return keep_clause(&mut draft.syntax, read_parameter_syntax(alloc, tokens, at));
    }
    let has_behaviour = draft.behaviour.is_none() & is_word_at(tokens, at, "BEHAVIOUR");
    if has_behaviour {
        return keep_clause(
            &mut draft.behaviour,
            read_behaviour_clause(alloc, tokens, at),
        );
    }
    Ok(None)
}

/// Reads the clause `CONTEXT context;`.
fn read_context_clause(
    alloc: Global,
    tokens: &[Token],
    at: usize,
) -> Result<(Context, usize), SyntaxRefusal>
    ensures { Reads tokens.now templates closed (clause (codes "CONTEXT" ∷ []) context) at
        (clause_tree context_tree) result }
{
    let next = skip_words(tokens, at, &["CONTEXT"])?;
    end_clause(tokens, read_context(alloc, tokens, next))
}

/// Reads `WITH SYNTAX Module.Type;` or `ATTRIBUTE ref;`.
#[cycle(templates)]
fn read_parameter_syntax(
    alloc: Global,
    tokens: &[Token],
    at: usize,
) -> Result<(ParameterSyntax, usize), SyntaxRefusal>
    ensures { Reads tokens.now templates closed parameter_syntax at parameter_syntax_tree result }
{
    if is_word_at(tokens, at, "WITH") {
        let (name, next) = read_type_clause(alloc, tokens, at, &["WITH", "SYNTAX"])?;
        return Ok((ParameterSyntax::TypeReference(name), next));
    }
    let next = skip_words(tokens, at, &["ATTRIBUTE"])?;
    let (reference, next) = read_attribute_reference(alloc, tokens, next)?;
    let next = skip_sign(tokens, next, ";")?;
    Ok((ParameterSyntax::Attribute(reference), next))
}
