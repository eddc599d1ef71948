//! The attribute template (X.722, section 8.7) and references to it. It may have parameter templates in
//! line, and they attribute templates.

ghost use Rattle.std.specs.Prelude.{◌≡◌, ℕ, codes, IfOk};
ghost use Rattle.gdmo_members.specs.declared.attribute.AttributeSyntax.TheVariants.{Derived};
ghost use Rattle.token_grammar.specs.Form.{Form, AnyOrder, Named, Bare};
ghost use Rattle.token_grammar.specs.Outcome.{Reads, closed};
ghost use Rattle.token_grammar.specs.Turns.{TakesClause};
ghost use Rattle.token_grammar.specs.TokenTests.{is_word_of};
ghost use Rattle.gdmo_members.specs.Clauses.{ending, semicolon, attributes, reference};
ghost use Rattle.gdmo_members.specs.Templates.{templates, attribute_syntax, attribute_clauses};
ghost use Rattle.gdmo_members.specs.Trees.{ending_tree};
ghost use Rattle.gdmo_members.specs.MemberTrees.{attribute_tree, template_tree, attribute_reference_tree};
ghost use Rattle.gdmo_members.specs.MemberTrees.{attribute_syntax_tree, attribute_slots, attribute_clauses_tree};
ghost use Rattle.gdmo_members.specs.MemberTrees.{is_attribute_clause};

use super::behaviour::{BehaviourReference, read_behaviour_clause};
use super::matching_rules::read_rules_clause;
use super::parameter::{ParameterReference, read_parameters_clause};
use super::registration::read_ending;
use super::type_clause::read_type_clause;
use std::alloc::Global;
use token_grammar::clause_keeping::keep_clause;
use token_grammar::label_reference::{LabelReference, read_label_reference};
use token_grammar::object_identifier::ObjectIdentifier;
use token_grammar::qualified_name::QualifiedName;
use token_grammar::token_reading::{read_label, skip_sign, skip_words};
use token_grammar::token_tests::{is_one_of_at, is_template_at, is_word_at};
use token_grammar::{SyntaxRefusal, Token};

/// An attribute template.
#[cycle(templates)]
#[derive(Drop)]
pub struct AttributeTemplate {
    /// The number of its document, which the reader leaves 0.
    pub document: u32,
    /// The attribute's label.
    pub label: Token,
    /// What says which values the attribute has.
    pub syntax: AttributeSyntax,
    /// The rules by which its values are matched, `MATCHES FOR rule, ..;`.
    pub rules: Option<Vec<Token>>,
    /// Its behaviours, `BEHAVIOUR ref, ..;`.
    pub behaviour: Option<Vec<BehaviourReference>>,
    /// Its parameters, `PARAMETERS ref, ..;`.
    pub parameters: Option<Vec<ParameterReference>>,
    /// The identifier under which it is registered.
    pub registration: Option<ObjectIdentifier>,
}

/// What says which values an attribute has.
#[cycle(templates)]
#[derive(Drop)]
pub enum AttributeSyntax {
    /// `WITH ATTRIBUTE SYNTAX Module.Type;`
    TypeReference(QualifiedName),
    /// `DERIVED FROM ref;`
    Derived(AttributeReference),
}

/// What names an attribute.
#[cycle(templates)]
#[derive(Drop)]
pub enum AttributeReference {
    /// Its label.
    Label(LabelReference),
    /// The template itself, in line.
    Template(Box<AttributeTemplate>),
}

/// The clauses of an attribute template that came so far.
#[derive(Drop)]
struct AttributeDraft {
    syntax: Option<AttributeSyntax>,
    rules: Option<Vec<Token>>,
    behaviour: Option<Vec<BehaviourReference>>,
    parameters: Option<Vec<ParameterReference>>,
}

/// The clauses of an attribute template.
#[derive(Drop)]
struct AttributeClauses {
    syntax: AttributeSyntax,
    rules: Option<Vec<Token>>,
    behaviour: Option<Vec<BehaviourReference>>,
    parameters: Option<Vec<ParameterReference>>,
}

/// Reads an attribute template from the place `at` on, and answers it with the place behind it. `Syntax`
/// has the first token with which the template doesn't go on, or the number of tokens where they end too
/// early; `Memory` comes where there is none for it (X.722, section 8.7).
pub fn read_attribute(
    alloc: Global,
    tokens: &[Token],
    at: usize,
) -> Result<(AttributeTemplate, usize), SyntaxRefusal>
    ensures { Reads tokens.now templates closed (Named attributes) at attribute_tree result }
{
    let (template, next) = read_attribute_in_line(alloc, tokens, at)?;
    Ok((Box::into_inner(template), next))
}

/// Reads an attribute template into a box, so that few octets of the stack are held for each template that it
/// stands in.
#[cycle(templates)]
fn read_attribute_in_line(
    alloc: Global,
    tokens: &[Token],
    at: usize,
) -> Result<(Box<AttributeTemplate>, usize), SyntaxRefusal>
    ensures { Reads tokens.now templates closed (Named attributes) at
        (λ template. attribute_tree template.value) result }
{
    let (label, next) = read_label(alloc, tokens, at)?;
    let next = skip_words(tokens, next, &["ATTRIBUTE"])?;
    let (clauses, next) = read_attribute_clauses(alloc, tokens, next)?;
    let (template, next) = end_attribute(alloc, tokens, next, label, clauses)?;
    Ok((template, next))
}

/// Reads the end of an attribute template, and puts its parts together. It isn't inlined, so that its
/// locals take no room while a template in line is read.
#[inline(never)]
fn end_attribute(
    alloc: Global,
    tokens: &[Token],
    at: usize,
    label: Token,
    clauses: AttributeClauses,
) -> Result<(Box<AttributeTemplate>, usize), SyntaxRefusal>
    ensures reads { Reads tokens.now templates closed ending at
        (λ template. ending_tree template.value.registration) result }
    ensures made { IfOk result
        (λ answer. attribute_tree answer.0.value ≡ template_tree 0 label (attribute_clauses_tree clauses)
        (ending_tree answer.0.value.registration)) }
{
    let (registration, next) = read_ending(alloc, tokens, at)?;
    let template = Box::new(
        alloc,
        AttributeTemplate {
            document: 0,
            label,
            syntax: clauses.syntax,
            rules: clauses.rules,
            behaviour: clauses.behaviour,
            parameters: clauses.parameters,
            registration,
        },
    )?;
    Ok((template, next))
}

/// Reads what names an attribute: a label, or a template in line where the word ATTRIBUTE is behind it.
#[cycle(templates)]
pub fn read_attribute_reference(
    alloc: Global,
    tokens: &[Token],
    at: usize,
) -> Result<(AttributeReference, usize), SyntaxRefusal>
    ensures { Reads tokens.now templates (is_word_of (codes "ATTRIBUTE")) (reference attributes) at
        attribute_reference_tree result }
{
    if is_template_at(tokens, at, "ATTRIBUTE") {
        let (template, next) = read_attribute_in_line(alloc, tokens, at)?;
        return Ok((AttributeReference::Template(template), next));
    }
    let (label, next) = read_label_reference(alloc, tokens, at)?;
    Ok((AttributeReference::Label(label), next))
}

/// Reads the clauses of an attribute template, in any order.
#[cycle(templates)]
fn read_attribute_clauses(
    alloc: Global,
    tokens: &[Token],
    at: usize,
) -> Result<(AttributeClauses, usize), SyntaxRefusal>
    ensures { Reads tokens.now templates is_attribute_clause (AnyOrder attribute_clauses) at
        attribute_clauses_tree result }
{
    let mut draft = AttributeDraft {
        syntax: None,
        rules: None,
        behaviour: None,
        parameters: None,
    };
    let mut next = at;
    'turns: while let Some(behind) = read_attribute_clause(alloc, tokens, next, &mut draft)? {
        next = behind;
    }
    let AttributeDraft {
        syntax,
        rules,
        behaviour,
        parameters,
    } = draft;
    match syntax {
        Some(syntax) => Ok((
            AttributeClauses {
                syntax,
                rules,
                behaviour,
                parameters,
            },
            next,
        )),
        None => Err(SyntaxRefusal::Syntax { token: next as u64 }),
    }
}

/// Reads the next clause of an attribute template, where one comes that didn't come before.
#[cycle(templates)]
fn read_attribute_clause(
    alloc: Global,
    tokens: &[Token],
    at: usize,
    draft: &mut AttributeDraft,
) -> Result<Option<usize>, SyntaxRefusal>
    ensures { TakesClause tokens.now templates is_attribute_clause (attribute_slots draft.old)
        (attribute_slots draft.new) at result }
{
    let has_syntax = draft.syntax.is_none() & is_one_of_at(tokens, at, &["WITH", "DERIVED"]);
    if has_syntax {
        return keep_clause(&mut draft.syntax, read_attribute_syntax(alloc, tokens, at));
    }
    let has_rules = draft.rules.is_none() & is_word_at(tokens, at, "MATCHES");
    if has_rules {
        return keep_clause(&mut draft.rules, read_rules_clause(alloc, tokens, at));
    }
    let has_behaviour = draft.behaviour.is_none() & is_word_at(tokens, at, "BEHAVIOUR");
    if has_behaviour {
        return keep_clause(
            &mut draft.behaviour,
            read_behaviour_clause(alloc, tokens, at),
        );
    }
    let has_parameters = draft.parameters.is_none() & is_word_at(tokens, at, "PARAMETERS");
    if has_parameters {
        return keep_clause(
            &mut draft.parameters,
            read_parameters_clause(alloc, tokens, at),
        );
    }
    Ok(None)
}

/// Reads `WITH ATTRIBUTE SYNTAX Module.Type;` or `DERIVED FROM ref;`.
#[cycle(templates)]
fn read_attribute_syntax(
    alloc: Global,
    tokens: &[Token],
    at: usize,
) -> Result<(AttributeSyntax, usize), SyntaxRefusal>
    ensures { Reads tokens.now templates closed attribute_syntax at attribute_syntax_tree result }
{
    if is_word_at(tokens, at, "WITH") {
        let (name, next) = read_type_clause(alloc, tokens, at, &["WITH", "ATTRIBUTE", "SYNTAX"])?;
        return Ok((AttributeSyntax::TypeReference(name), next));
    }
    let next = skip_words(tokens, at, &["DERIVED", "FROM"])?;
    let (base, next) = read_attribute_reference(alloc, tokens, next)?;
    let (syntax, next) = end_derived(tokens, next, base)?;
    Ok((syntax, next))
}

/// Reads the semicolon behind the attribute that another one is derived from. It isn't inlined, so that its locals
/// take no room while a template in line is read.
#[inline(never)]
fn end_derived(
    tokens: &[Token],
    at: usize,
    base: AttributeReference,
) -> Result<(AttributeSyntax, usize), SyntaxRefusal>
    ensures reads { Reads tokens.now templates closed semicolon at (λ syntax. Bare) result }
    ensures made { IfOk result (λ answer. answer.0 ≡ Derived base) }
{
    let next = skip_sign(tokens, at, ";")?;
    Ok((AttributeSyntax::Derived(base), next))
}
