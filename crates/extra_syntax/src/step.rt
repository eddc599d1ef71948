//! What a rule does, step by step: SET, ADD, EMIT and REPLY (docs/PROFILE.md, section 9).

ghost use Rattle.std.specs.Prelude.{◌≡◌, slice_get};
ghost use Rattle.token_grammar.specs.Form.{Maybe, Named};
ghost use Rattle.token_grammar.specs.Outcome.{Reads, closed};
ghost use Rattle.token_grammar.specs.Parts.{optional_tree};
ghost use Rattle.token_grammar.specs.Spelling.{passes};
ghost use Rattle.asn1_values_syntax.specs.Asn1.{asn1};
ghost use Rattle.asn1_values_syntax.specs.ValueForms.{colon, values};
ghost use Rattle.asn1_values_syntax.specs.ValueTrees.{value_tree};
ghost use Rattle.extra_syntax.specs.SectionForms.{add_step, emit_step, is_reserved_label, reply, reply_step, set_step};
ghost use Rattle.extra_syntax.specs.SectionForms.{step};
ghost use Rattle.extra_syntax.specs.SectionEnds.{is_step_end};
ghost use Rattle.extra_syntax.specs.SectionTrees.{add_tree, emit_tree, reply_step_tree, reply_tree, set_tree};
ghost use Rattle.extra_syntax.specs.SectionTrees.{step_tree};

use asn1_values_syntax::value::{ValueText, read_value};
use std::alloc::Global;
use token_grammar::token_reading::{keep_token, read_label, read_number, skip_word};
use token_grammar::token_tests::{is_label, is_name, is_word_at};
use token_grammar::{SyntaxRefusal, Token};

/// A step of a rule.
#[derive(Drop)]
pub enum Step {
    /// `SET attribute TO value`
    Set(SetStep),
    /// `ADD number TO attribute`
    Add(AddStep),
    /// `EMIT notification [value]`
    Emit(EmitStep),
    /// `REPLY value`, or `REPLY attribute`.
    Reply(Reply),
}

/// An attribute is set.
#[derive(Drop)]
pub struct SetStep {
    /// The attribute's label.
    pub attribute: Token,
    /// Its new value. The one word ARGUMENT stands for the action's argument.
    pub value: ValueText,
}

/// A number is added to an attribute.
#[derive(Drop)]
pub struct AddStep {
    /// The number.
    pub number: Token,
    /// The attribute's label.
    pub attribute: Token,
}

/// A notification is sent.
#[derive(Drop)]
pub struct EmitStep {
    /// The notification's label.
    pub notification: Token,
    /// What it says, where that stands behind the label.
    pub value: Option<ValueText>,
}

/// What an action replies.
#[derive(Drop)]
pub enum Reply {
    /// A value. The one word ARGUMENT stands for the action's argument, and any other word alone may be the label of an
    /// attribute.
    Value(ValueText),
    /// The label of an attribute, which is a word that ASN.1 has for itself, and so no value.
    Label(Token),
}

/// Reads `SET attribute TO value`.
fn read_set_step(
    alloc: Global,
    tokens: &[Token],
    at: usize,
) -> Result<(SetStep, usize), SyntaxRefusal>
    ensures { Reads tokens.now asn1 colon set_step at set_tree result }
{
    let next = skip_word(tokens, at, "SET")?;
    let (attribute, next) = read_label(alloc, tokens, next)?;
    let next = skip_word(tokens, next, "TO")?;
    let (value, next) = read_value(alloc, tokens, next)?;
    Ok((SetStep { attribute, value }, next))
}

/// Reads `ADD number TO attribute`.
fn read_add_step(
    alloc: Global,
    tokens: &[Token],
    at: usize,
) -> Result<(AddStep, usize), SyntaxRefusal>
    ensures { Reads tokens.now asn1 closed add_step at add_tree result }
{
    let next = skip_word(tokens, at, "ADD")?;
    let (number, next) = read_number(alloc, tokens, next)?;
    let next = skip_word(tokens, next, "TO")?;
    let (attribute, next) = read_label(alloc, tokens, next)?;
    Ok((AddStep { number, attribute }, next))
}

/// Reads a value where one begins. None does where the fault lies at the place itself.
fn read_optional_value(
    alloc: Global,
    tokens: &[Token],
    at: usize,
) -> Result<(Option<ValueText>, usize), SyntaxRefusal>
    ensures { Reads tokens.now asn1 is_step_end (Maybe (Named values)) at (optional_tree value_tree) result }
{
    match read_value(alloc, tokens, at) {
        Ok((value, next)) => Ok((Some(value), next)),
        Err(SyntaxRefusal::Syntax { token }) => {
            if token == at as u64 {
                return Ok((None, at));
            }
            Err(SyntaxRefusal::Syntax { token })
        }
        Err(SyntaxRefusal::Memory) => Err(SyntaxRefusal::Memory),
    }
}

/// Reads `EMIT notification [value]`.
fn read_emit_step(
    alloc: Global,
    tokens: &[Token],
    at: usize,
) -> Result<(EmitStep, usize), SyntaxRefusal>
    ensures { Reads tokens.now asn1 is_step_end emit_step at emit_tree result }
{
    let next = skip_word(tokens, at, "EMIT")?;
    let (notification, next) = read_label(alloc, tokens, next)?;
    let (value, next) = read_optional_value(alloc, tokens, next)?;
    Ok((
        EmitStep {
            notification,
            value,
        },
        next,
    ))
}

/// Whether a label stands at a place that ASN.1 doesn't leave free.
fn is_reserved_label_at(tokens: &[Token], at: usize) -> bool
    ensures { result ≡ passes is_reserved_label (slice_get tokens.now at) }
{
    match tokens.get(at) {
        Some(token) => is_label(token) && !is_name(token),
        None => false,
    }
}

/// Reads what an action replies.
fn read_reply(alloc: Global, tokens: &[Token], at: usize) -> Result<(Reply, usize), SyntaxRefusal>
    ensures { Reads tokens.now asn1 colon reply at reply_tree result }
{
    let is_reserved = is_reserved_label_at(tokens, at);
    if is_reserved {
        let (label, next) = keep_token(alloc, tokens, at, is_reserved)?;
        return Ok((Reply::Label(label), next));
    }
    let (value, next) = read_value(alloc, tokens, at)?;
    Ok((Reply::Value(value), next))
}

/// Reads `REPLY value` or `REPLY attribute`.
fn read_reply_step(
    alloc: Global,
    tokens: &[Token],
    at: usize,
) -> Result<(Reply, usize), SyntaxRefusal>
    ensures { Reads tokens.now asn1 colon reply_step at reply_step_tree result }
{
    let next = skip_word(tokens, at, "REPLY")?;
    let (reply, next) = read_reply(alloc, tokens, next)?;
    Ok((reply, next))
}

/// Reads a step.
pub fn read_step(alloc: Global, tokens: &[Token], at: usize) -> Result<(Step, usize), SyntaxRefusal>
    ensures { Reads tokens.now asn1 is_step_end step at step_tree result }
{
    if is_word_at(tokens, at, "SET") {
        let (step, next) = read_set_step(alloc, tokens, at)?;
        return Ok((Step::Set(step), next));
    }
    if is_word_at(tokens, at, "ADD") {
        let (step, next) = read_add_step(alloc, tokens, at)?;
        return Ok((Step::Add(step), next));
    }
    if is_word_at(tokens, at, "EMIT") {
        let (step, next) = read_emit_step(alloc, tokens, at)?;
        return Ok((Step::Emit(step), next));
    }
    let (reply, next) = read_reply_step(alloc, tokens, at)?;
    Ok((Step::Reply(reply), next))
}
