//! The rules (docs/PROFILE.md, sections 9 and 18).

ghost use Rattle.std.specs.Prelude.{◌≡◌, ◌++◌, ℕ, List, Some, IfOk, OnOk, option_to_list};
ghost use Rattle.asn1_names.specs.ModuleTerms.{ModuleTerm};
ghost use Rattle.linked_parts.specs.declared.linked.LinkedRule.{LinkedRule as RuleTerm};
ghost use Rattle.linked_parts.specs.declared.linked.LinkedStep.TheVariants as linked_steps;
ghost use Rattle.filled_syntaxes.specs.NotedTexts.{NotesTexts};
ghost use Rattle.filled_syntaxes.specs.declared.bad_texts.TextPlace.{TextPlace};
ghost use Rattle.linked_types.specs.KnownParts.{AreClosingParts};
ghost use Rattle.linked_types.specs.PartIdentifiers.{AreEach, IsAttributeId, IsIdentified};
ghost use Rattle.section_values.specs.BadSections.{BadOfRule, BadOfRules, BadOfStep};
ghost use Rattle.section_values.specs.RegisteredSections.{AreRegisteredRules, HaveRuleSyntaxes};
ghost use Rattle.section_values.specs.SectionRecords.{IsRule, IsStep};
ghost use Rattle.section_values.specs.ToldSections.{HoldsOfEach, IsGoodStep, TellsRule, TellsStep};

use crate::texts::{attribute_value, information_value, reply_value};
use asn1_values_syntax::value::ValueText;
use filled_syntaxes::BadTexts;
use linked_parts::linked::{LinkedRule, LinkedStep};
use linked_types::ClosingParts;
use linked_types::closing_parts::copied;
use std::alloc::AllocError;
use term_model::{RuleRec, RuleRecs, RuleStep, RuleSteps};
use term_values::{Oid, Value};

fn set_argument(parts: &ClosingParts, attribute: usize) -> Result<Option<RuleStep>, AllocError>
    ensures { IfOk result (λ told. (id : List ℕ) → IsAttributeId parts.now.linked.now attribute id →
        told ≡ Some (RuleStep.SetArgument id)) }
{
    match parts.attribute_id(attribute) {
        Some(id) => Ok(Some(RuleStep::SetArgument(id.copy(parts.alloc)?))),
        None => Ok(None),
    }
}

/// SET with a value that is known.
fn set_to(
    parts: &ClosingParts,
    attribute: usize,
    value: Value,
) -> Result<Option<RuleStep>, AllocError>
    ensures { IfOk result (λ told. (id : List ℕ) → IsAttributeId parts.now.linked.now attribute id →
        told ≡ Some (RuleStep.SetValue id value)) }
{
    match parts.attribute_id(attribute) {
        Some(id) => Ok(Some(RuleStep::SetValue(id.copy(parts.alloc)?, value))),
        None => Ok(None),
    }
}

fn set_value(
    parts: &ClosingParts,
    document: u32,
    attribute: usize,
    text: &ValueText,
    bad: &mut BadTexts,
) -> Result<Option<RuleStep>, AllocError>
    ensures told { IfOk result (λ told. (ms : List ModuleTerm) (rule : RuleTerm) → AreClosingParts ms parts.now →
        TellsStep ms parts.now.linked.now rule (linked_steps.SetValue attribute text.now) told) }
    ensures noted { OnOk result ((ms : List ModuleTerm) (rule : RuleTerm) → AreClosingParts ms parts.now →
        rule.document ≡ document → NotesTexts (BadOfStep ms parts.now.linked.now rule
        (linked_steps.SetValue attribute text.now)) bad.old.first bad.new.first) }
{
    match attribute_value(parts, document, attribute, text, bad)? {
        Some(value) => {
            let step = set_to(parts, attribute, value)?;
            Ok(step)
        }
        None => Ok(None),
    }
}

fn add(parts: &ClosingParts, number: u64, attribute: usize) -> Result<Option<RuleStep>, AllocError>
    ensures { IfOk result (λ told. (id : List ℕ) → IsAttributeId parts.now.linked.now attribute id →
        told ≡ Some (RuleStep.Add number id)) }
{
    match parts.attribute_id(attribute) {
        Some(id) => Ok(Some(RuleStep::Add(number, id.copy(parts.alloc)?))),
        None => Ok(None),
    }
}

/// EMIT with a value that is known, or without.
fn emitted(
    parts: &ClosingParts,
    notification: usize,
    value: Option<Value>,
) -> Result<Option<RuleStep>, AllocError>
    ensures { IfOk result (λ told. (id : List ℕ) →
        IsIdentified (λ x. x.head) parts.now.linked.now.notifications.items notification id →
        told ≡ Some (RuleStep.Emit id value)) }
{
    match parts.notification_id(notification) {
        Some(id) => Ok(Some(RuleStep::Emit(id.copy(parts.alloc)?, value))),
        None => Ok(None),
    }
}

/// EMIT with a value.
fn emit_value(
    parts: &ClosingParts,
    document: u32,
    notification: usize,
    text: &ValueText,
    bad: &mut BadTexts,
) -> Result<Option<RuleStep>, AllocError>
    ensures told { IfOk result (λ told. (ms : List ModuleTerm) (rule : RuleTerm) → AreClosingParts ms parts.now →
        TellsStep ms parts.now.linked.now rule (linked_steps.Emit notification (Some text.now)) told) }
    ensures noted { OnOk result ((ms : List ModuleTerm) (rule : RuleTerm) → AreClosingParts ms parts.now →
        rule.document ≡ document → NotesTexts (BadOfStep ms parts.now.linked.now rule
        (linked_steps.Emit notification (Some text.now))) bad.old.first bad.new.first) }
{
    match information_value(parts, document, notification, text, bad)? {
        Some(value) => {
            let step = emitted(parts, notification, Some(value))?;
            Ok(step)
        }
        None => Ok(None),
    }
}

fn emit(
    parts: &ClosingParts,
    document: u32,
    notification: usize,
    text: &Option<ValueText>,
    bad: &mut BadTexts,
) -> Result<Option<RuleStep>, AllocError>
    ensures told { IfOk result (λ told. (ms : List ModuleTerm) (rule : RuleTerm) → AreClosingParts ms parts.now →
        TellsStep ms parts.now.linked.now rule (linked_steps.Emit notification text.now) told) }
    ensures noted { OnOk result ((ms : List ModuleTerm) (rule : RuleTerm) → AreClosingParts ms parts.now →
        rule.document ≡ document → NotesTexts (BadOfStep ms parts.now.linked.now rule
        (linked_steps.Emit notification text.now)) bad.old.first bad.new.first) }
{
    match text {
        Some(text) => {
            let step = emit_value(parts, document, notification, text, bad)?;
            Ok(step)
        }
        None => {
            let step = emitted(parts, notification, None)?;
            Ok(step)
        }
    }
}

fn reply_attribute(parts: &ClosingParts, attribute: usize) -> Result<Option<RuleStep>, AllocError>
    ensures { IfOk result (λ told. (id : List ℕ) → IsAttributeId parts.now.linked.now attribute id →
        told ≡ Some (RuleStep.ReplyAttribute id)) }
{
    match parts.attribute_id(attribute) {
        Some(id) => Ok(Some(RuleStep::ReplyAttribute(id.copy(parts.alloc)?))),
        None => Ok(None),
    }
}

fn reply_with(
    parts: &ClosingParts,
    rule: &LinkedRule,
    text: &ValueText,
    bad: &mut BadTexts,
) -> Result<Option<RuleStep>, AllocError>
    ensures told { IfOk result (λ told. (ms : List ModuleTerm) → AreClosingParts ms parts.now →
        TellsStep ms parts.now.linked.now rule.now (linked_steps.ReplyValue text.now) told) }
    ensures noted { OnOk result ((ms : List ModuleTerm) → AreClosingParts ms parts.now →
        NotesTexts (BadOfStep ms parts.now.linked.now rule.now (linked_steps.ReplyValue text.now))
        bad.old.first bad.new.first) }
{
    match reply_value(parts, rule.document, rule.action, text, bad)? {
        Some(value) => Ok(Some(RuleStep::ReplyValue(value))),
        None => Ok(None),
    }
}

/// A step of a rule; none where its value doesn't fit.
fn step_of(
    parts: &ClosingParts,
    rule: &LinkedRule,
    step: &LinkedStep,
    bad: &mut BadTexts,
) -> Result<Option<RuleStep>, AllocError>
    ensures told { IfOk result (λ told. (ms : List ModuleTerm) → AreClosingParts ms parts.now →
        TellsStep ms parts.now.linked.now rule.now step.now told) }
    ensures noted { OnOk result ((ms : List ModuleTerm) → AreClosingParts ms parts.now →
        NotesTexts (BadOfStep ms parts.now.linked.now rule.now step.now) bad.old.first bad.new.first) }
{
    match step {
        LinkedStep::SetArgument(attribute) => {
            let told = set_argument(parts, *attribute)?;
            Ok(told)
        }
        LinkedStep::SetValue(attribute, text) => {
            let told = set_value(parts, rule.document, *attribute, text, bad)?;
            Ok(told)
        }
        LinkedStep::Add(number, attribute) => {
            let told = add(parts, *number, *attribute)?;
            Ok(told)
        }
        LinkedStep::Emit(notification, text) => {
            let told = emit(parts, rule.document, *notification, text, bad)?;
            Ok(told)
        }
        LinkedStep::ReplyArgument => Ok(Some(RuleStep::ReplyArgument)),
        LinkedStep::ReplyAttribute(attribute) => {
            let told = reply_attribute(parts, *attribute)?;
            Ok(told)
        }
        LinkedStep::ReplyValue(text) => {
            let told = reply_with(parts, rule, text, bad)?;
            Ok(told)
        }
    }
}

/// Appends a step, where there is one.
fn push_step(items: &mut Vec<RuleStep>, step: Option<RuleStep>) -> Result<(), AllocError>
    ensures { OnOk result (items.new.items ≡ items.old.items ++ option_to_list step) }
{
    match step {
        Some(step) => {
            items.push(step)?;
            Ok(())
        }
        None => Ok(()),
    }
}

/// The steps of a rule.
fn steps_of(
    parts: &ClosingParts,
    rule: &LinkedRule,
    bad: &mut BadTexts,
) -> Result<RuleSteps, AllocError>
    ensures told { IfOk result (λ steps. (ms : List ModuleTerm) → AreClosingParts ms parts.now →
        HoldsOfEach (IsGoodStep ms parts.now.linked.now rule.now) rule.now.steps.items →
        AreEach (IsStep ms parts.now.linked.now rule.now) rule.now.steps.items steps) }
    ensures noted { OnOk result ((ms : List ModuleTerm) → AreClosingParts ms parts.now →
        NotesTexts (BadOfRule ms parts.now.linked.now rule.now) bad.old.first bad.new.first) }
{
    let mut items = Vec::new(parts.alloc);
    for step in rule.steps.iter() {
        let found = step_of(parts, rule, step, bad)?;
        push_step(&mut items, found)?;
    }
    Ok(RuleSteps { items })
}

/// The record of a rule, where its class and its action have identifiers.
fn rule_with(class: Option<Oid>, action: Option<Oid>, steps: RuleSteps) -> Option<RuleRec>
    ensures { (its_class its_action : List ℕ) → class ≡ Some its_class → action ≡ Some its_action →
        result ≡ Some (record { class = its_class; action = its_action; steps = steps }) }
{
    match class {
        Some(class) => match action {
            Some(action) => Some(RuleRec {
                class,
                action,
                steps,
            }),
            None => None,
        },
        None => None,
    }
}

/// A rule.
fn rule_of(
    parts: &ClosingParts,
    rule: &LinkedRule,
    bad: &mut BadTexts,
) -> Result<Option<RuleRec>, AllocError>
    ensures told { IfOk result (λ told. (ms : List ModuleTerm) → AreClosingParts ms parts.now →
        TellsRule ms parts.now.linked.now rule.now told) }
    ensures noted { OnOk result ((ms : List ModuleTerm) → AreClosingParts ms parts.now →
        NotesTexts (BadOfRule ms parts.now.linked.now rule.now) bad.old.first bad.new.first) }
{
    let class = copied(parts.alloc, parts.class_id(rule.class))?;
    let action = copied(parts.alloc, parts.action_id(rule.action))?;
    let steps = steps_of(parts, rule, bad)?;
    Ok(rule_with(class, action, steps))
}

/// Appends a rule, where there is one.
fn push_rule(items: &mut Vec<RuleRec>, rule: Option<RuleRec>) -> Result<(), AllocError>
    ensures { OnOk result (items.new.items ≡ items.old.items ++ option_to_list rule) }
{
    match rule {
        Some(rule) => {
            items.push(rule)?;
            Ok(())
        }
        None => Ok(()),
    }
}

/// The rules, each with its values. Notes each text that denotes no value.
pub fn rule_records(parts: &ClosingParts, bad: &mut BadTexts) -> Result<RuleRecs, AllocError>
    ensures told { IfOk result (λ rules. (ms : List ModuleTerm) → AreClosingParts ms parts.now →
        AreRegisteredRules parts.now.linked.now → HaveRuleSyntaxes ms parts.now.linked.now →
        ((place : TextPlace) → ¬ BadOfRules ms parts.now.linked.now place) →
        AreEach (IsRule ms parts.now.linked.now) parts.now.linked.now.rules.items rules) }
    ensures noted { OnOk result ((ms : List ModuleTerm) → AreClosingParts ms parts.now →
        NotesTexts (BadOfRules ms parts.now.linked.now) bad.old.first bad.new.first) }
{
    let mut items = Vec::new(parts.alloc);
    for rule in parts.linked.rules.iter() {
        let found = rule_of(parts, rule, bad)?;
        push_rule(&mut items, found)?;
    }
    Ok(RuleRecs { items })
}
