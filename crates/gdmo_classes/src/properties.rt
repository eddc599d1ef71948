//! The properties of an attribute in a package, in any order and each at most once (X.722, section 8.4).

ghost use Rattle.std.specs.Prelude.{◌≡◌, ℕ, codes};
ghost use Rattle.token_grammar.specs.Form.{AnyOrder};
ghost use Rattle.token_grammar.specs.Outcome.{Reads, closed};
ghost use Rattle.token_grammar.specs.Turns.{TakesClause};
ghost use Rattle.token_grammar.specs.TokenTests.{is_word_of};
ghost use Rattle.gdmo_members.specs.Templates.{templates, property_value, property_slots};
ghost use Rattle.gdmo_classes.specs.ClassForms.{is_keyword, default_property, initial_property, permitted_property};
ghost use Rattle.gdmo_classes.specs.ClassForms.{required_property};
ghost use Rattle.gdmo_classes.specs.UseTrees.{property_value_tree, valued_tree, named_type_tree, properties_slots};
ghost use Rattle.gdmo_classes.specs.UseTrees.{properties_tree};

use gdmo_members::behaviour::{BehaviourReference, read_behaviour_reference};
use std::alloc::Global;
use token_grammar::clause_keeping::keep_clause;
use token_grammar::qualified_name::{QualifiedName, read_qualified_name};
use token_grammar::token_reading::{read_one_of, skip_words};
use token_grammar::token_tests::{is_one_of_at, is_pair_at, is_word_at};
use token_grammar::{SyntaxRefusal, Token};

/// A default or an initial value.
#[derive(Drop)]
pub enum PropertyValue {
    /// `Module.value`
    Value(QualifiedName),
    /// `DERIVATION RULE ref`
    Rule(BehaviourReference),
}

/// The properties of an attribute.
#[derive(Drop)]
pub struct Properties {
    /// The word REPLACE-WITH-DEFAULT.
    pub replace_with_default: Option<Token>,
    /// `DEFAULT VALUE value`
    pub default_value: Option<PropertyValue>,
    /// `INITIAL VALUE value`
    pub initial_value: Option<PropertyValue>,
    /// `PERMITTED VALUES Module.Type`
    pub permitted_values: Option<QualifiedName>,
    /// `REQUIRED VALUES Module.Type`
    pub required_values: Option<QualifiedName>,
    /// The word GET, REPLACE or GET-REPLACE.
    pub access: Option<Token>,
    /// The word ADD, REMOVE or ADD-REMOVE.
    pub members: Option<Token>,
}

/// Reads a value, or the rule that gives it, where the words DERIVATION RULE come.
fn read_property_value(
    alloc: Global,
    tokens: &[Token],
    at: usize,
) -> Result<(PropertyValue, usize), SyntaxRefusal>
    ensures { Reads tokens.now templates (is_word_of (codes "BEHAVIOUR")) property_value at property_value_tree result }
{
    if is_pair_at(tokens, at, "DERIVATION", "RULE") {
        let next = skip_words(tokens, at, &["DERIVATION", "RULE"])?;
        let (rule, next) = read_behaviour_reference(alloc, tokens, next)?;
        return Ok((PropertyValue::Rule(rule), next));
    }
    let (value, next) = read_qualified_name(alloc, tokens, at)?;
    Ok((PropertyValue::Value(value), next))
}

/// Reads `DEFAULT VALUE value`.
fn read_default_value(
    alloc: Global,
    tokens: &[Token],
    at: usize,
) -> Result<(PropertyValue, usize), SyntaxRefusal>
    ensures { Reads tokens.now templates (is_word_of (codes "BEHAVIOUR")) default_property at valued_tree result }
{
    let next = skip_words(tokens, at, &["DEFAULT", "VALUE"])?;
    let (value, next) = read_property_value(alloc, tokens, next)?;
    Ok((value, next))
}

/// Reads `INITIAL VALUE value`.
fn read_initial_value(
    alloc: Global,
    tokens: &[Token],
    at: usize,
) -> Result<(PropertyValue, usize), SyntaxRefusal>
    ensures { Reads tokens.now templates (is_word_of (codes "BEHAVIOUR")) initial_property at valued_tree result }
{
    let next = skip_words(tokens, at, &["INITIAL", "VALUE"])?;
    let (value, next) = read_property_value(alloc, tokens, next)?;
    Ok((value, next))
}

/// Reads `PERMITTED VALUES Module.Type`.
fn read_permitted_values(
    alloc: Global,
    tokens: &[Token],
    at: usize,
) -> Result<(QualifiedName, usize), SyntaxRefusal>
    ensures { Reads tokens.now templates closed permitted_property at named_type_tree result }
{
    let next = skip_words(tokens, at, &["PERMITTED", "VALUES"])?;
    let (name, next) = read_qualified_name(alloc, tokens, next)?;
    Ok((name, next))
}

/// Reads `REQUIRED VALUES Module.Type`.
fn read_required_values(
    alloc: Global,
    tokens: &[Token],
    at: usize,
) -> Result<(QualifiedName, usize), SyntaxRefusal>
    ensures { Reads tokens.now templates closed required_property at named_type_tree result }
{
    let next = skip_words(tokens, at, &["REQUIRED", "VALUES"])?;
    let (name, next) = read_qualified_name(alloc, tokens, next)?;
    Ok((name, next))
}

/// Reads the next property of an attribute, where one comes that didn't come before.
fn read_property(
    alloc: Global,
    tokens: &[Token],
    at: usize,
    properties: &mut Properties,
) -> Result<Option<usize>, SyntaxRefusal>
    ensures { TakesClause tokens.now templates is_keyword (properties_slots properties.old)
        (properties_slots properties.new) at result }
{
    let has_reset = properties.replace_with_default.is_none()
        & is_one_of_at(tokens, at, &["REPLACE-WITH-DEFAULT"]);
    if has_reset {
        return keep_clause(
            &mut properties.replace_with_default,
            read_one_of(alloc, tokens, at, &["REPLACE-WITH-DEFAULT"]),
        );
    }
    let has_default = properties.default_value.is_none() & is_word_at(tokens, at, "DEFAULT");
    if has_default {
        return keep_clause(
            &mut properties.default_value,
            read_default_value(alloc, tokens, at),
        );
    }
    let has_initial = properties.initial_value.is_none() & is_word_at(tokens, at, "INITIAL");
    if has_initial {
        return keep_clause(
            &mut properties.initial_value,
            read_initial_value(alloc, tokens, at),
        );
    }
    let has_permitted = properties.permitted_values.is_none() & is_word_at(tokens, at, "PERMITTED");
    if has_permitted {
        return keep_clause(
            &mut properties.permitted_values,
            read_permitted_values(alloc, tokens, at),
        );
    }
    let has_required = properties.required_values.is_none() & is_word_at(tokens, at, "REQUIRED");
    if has_required {
        return keep_clause(
            &mut properties.required_values,
            read_required_values(alloc, tokens, at),
        );
    }
    let has_access = properties.access.is_none()
        & is_one_of_at(tokens, at, &["GET", "REPLACE", "GET-REPLACE"]);
    if has_access {
        return keep_clause(
            &mut properties.access,
            read_one_of(alloc, tokens, at, &["GET", "REPLACE", "GET-REPLACE"]),
        );
    }
    let has_members = properties.members.is_none()
        & is_one_of_at(tokens, at, &["ADD", "REMOVE", "ADD-REMOVE"]);
    if has_members {
        return keep_clause(
            &mut properties.members,
            read_one_of(alloc, tokens, at, &["ADD", "REMOVE", "ADD-REMOVE"]),
        );
    }
    Ok(None)
}

/// Reads the properties of an attribute, in any order.
pub fn read_properties(
    alloc: Global,
    tokens: &[Token],
    at: usize,
) -> Result<(Properties, usize), SyntaxRefusal>
    ensures { Reads tokens.now templates is_keyword (AnyOrder property_slots) at properties_tree result }
{
    let mut properties = Properties {
        replace_with_default: None,
        default_value: None,
        initial_value: None,
        permitted_values: None,
        required_values: None,
        access: None,
        members: None,
    };
    let mut next = at;
    'turns: while let Some(behind) = read_property(alloc, tokens, next, &mut properties)? {
        next = behind;
    }
    Ok((properties, next))
}
