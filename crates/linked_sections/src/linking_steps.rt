//! Steps of rules with the targets of their references (docs/PROFILE.md, sections 9 and 12).

ghost use Rattle.std.specs.Prelude.{◌≡◌, ◌<◌, ◌^◌, IfOk, map};
ghost use Rattle.std.specs.Str.Parse.{IsNumeral, digits_value};
ghost use Rattle.asn1_values_syntax.specs.ValueTrees.{value_tree};
ghost use Rattle.gdmo_linking.specs.Linkers.{IsLinker};
ghost use Rattle.gdmo_names.specs.InStep.{AreAll, AreEach};
ghost use Rattle.gdmo_names.specs.PartTerms.{PartTerms, RuleTerm};
ghost use Rattle.gdmo_names.specs.PartTerms.StepTerm.{SetTo, EmitOf, ReplyWith};
ghost use Rattle.gdmo_names.specs.PartTerms.TakenTerm.{OneWord};
ghost use Rattle.gdmo_names.specs.PartViews.{optional_value, reply_term};
ghost use Rattle.gdmo_names.specs.PartViews.{step_term, taken_term};
ghost use Rattle.gdmo_targets.specs.SectionTables.{TellsStep};
ghost use Rattle.linked_sections.specs.KnownSections.{IsCompleteStep};
ghost use Rattle.linked_sections.specs.LinkedSections.{IsStep};
ghost use Rattle.linked_sections.specs.SectionTexts.{LinksStep};

use asn1_values_syntax::value::{NamedValue, ValueText};
use extra_syntax::step::{EmitStep, Reply, SetStep, Step};
use gdmo_linking::linking::{Linker, target_at};
use gdmo_rules::rule_faults::{Taken, labelled_attribute, taken_reply, taken_value};
use linked_parts::linked::LinkedStep;
use std::alloc::AllocError;
use text_lex::numerals::decimal;
use token_grammar::Token;
use value_copies::value_copies::copy_value;

/// The number that ADD adds; each number of a text is below 2^64.
fn added_number(number: &Token) -> u64
    ensures { IsNumeral 10 number.now.text → digits_value 10 number.now.text < 2 ^ 64 →
        result ≡ digits_value 10 number.now.text }
{
    match decimal(number.text.as_slice()) {
        Some(value) => value,
        None => 0,
    }
}

/// A copy of a value.
pub fn copied_value(linker: &Linker, value: &ValueText) -> Result<ValueText, AllocError>
    ensures tree { IfOk result (λ copy. value_tree copy ≡ value_tree value.now) }
    ensures taken { IfOk result (λ copy. taken_term copy ≡ taken_term value.now) }
{
    let copy = copy_value(linker.linkage.alloc, value)?;
    Ok(copy)
}

/// SET; `attribute` is the one that is set.
fn linked_set(linker: &Linker, step: &SetStep, attribute: usize) -> Result<LinkedStep, AllocError>
    ensures { IfOk result (λ x. (parts : PartTerms) (rule : RuleTerm) →
        LinksStep parts rule (SetTo step.now.attribute (taken_term step.now.value)) attribute →
        IsStep parts rule (SetTo step.now.attribute (taken_term step.now.value)) x) }
{
    match taken_value(&step.value) {
        Taken::Argument(_) => Ok(LinkedStep::SetArgument(attribute)),
        Taken::Word(_) => {
            let value = copied_value(linker, &step.value)?;
            Ok(LinkedStep::SetValue(attribute, value))
        }
        Taken::Value(_) => {
            let value = copied_value(linker, &step.value)?;
            Ok(LinkedStep::SetValue(attribute, value))
        }
    }
}

/// EMIT; `notification` is the one that is emitted.
fn linked_emit(
    linker: &Linker,
    step: &EmitStep,
    notification: usize,
) -> Result<LinkedStep, AllocError>
    ensures { IfOk result (λ x. (parts : PartTerms) (rule : RuleTerm) →
        LinksStep parts rule (EmitOf step.now.notification (optional_value step.now.value)) notification →
        IsStep parts rule (EmitOf step.now.notification (optional_value step.now.value)) x) }
{
    match &step.value {
        Some(value) => {
            let value = copied_value(linker, value)?;
            Ok(LinkedStep::Emit(notification, Some(value)))
        }
        None => Ok(LinkedStep::Emit(notification, None)),
    }
}

/// REPLY of a word alone: an attribute where its label is one's, else a value.
fn linked_word(linker: &Linker, word: &Token) -> Result<LinkedStep, AllocError>
    ensures { IfOk result (λ x. (parts : PartTerms) (rule : RuleTerm) → IsLinker parts linker.now →
        IsCompleteStep parts rule (ReplyWith (OneWord word.now)) →
        IsStep parts rule (ReplyWith (OneWord word.now)) x) }
{
    match labelled_attribute(linker.linkage.templates, linker.linkage.labels, word) {
        Some(number) => Ok(LinkedStep::ReplyAttribute(linker.place(Some(number)))),
        None => {
            let name = linker.token(word)?;
            Ok(LinkedStep::ReplyValue(ValueText::Named(NamedValue::Name(name))))
        }
    }
}

/// REPLY.
fn linked_reply(linker: &Linker, reply: &Reply) -> Result<LinkedStep, AllocError>
    ensures { IfOk result (λ x. (parts : PartTerms) (rule : RuleTerm) → IsLinker parts linker.now →
        IsCompleteStep parts rule (ReplyWith (reply_term reply.now)) →
        IsStep parts rule (ReplyWith (reply_term reply.now)) x) }
{
    match taken_reply(reply) {
        Taken::Argument(_) => Ok(LinkedStep::ReplyArgument),
        Taken::Word(word) => {
            let step = linked_word(linker, word)?;
            Ok(step)
        }
        Taken::Value(value) => {
            let value = copied_value(linker, value)?;
            Ok(LinkedStep::ReplyValue(value))
        }
    }
}

/// A step; `place` is that of the template that it names.
fn linked_step(linker: &Linker, step: &Step, place: usize) -> Result<LinkedStep, AllocError>
    ensures { IfOk result (λ x. (parts : PartTerms) (rule : RuleTerm) → IsLinker parts linker.now →
        IsCompleteStep parts rule (step_term step.now) → LinksStep parts rule (step_term step.now) place →
        IsStep parts rule (step_term step.now) x) }
{
    match step {
        Step::Set(set) => Ok(linked_set(linker, set, place)?),
        Step::Add(add) => Ok(LinkedStep::Add(added_number(&add.number), place)),
        Step::Emit(emit) => Ok(linked_emit(linker, emit, place)?),
        Step::Reply(reply) => Ok(linked_reply(linker, reply)?),
    }
}

/// The steps of a rule.
pub fn linked_steps(
    linker: &Linker,
    steps: &[Step],
    targets: &[Option<usize>],
) -> Result<Vec<LinkedStep>, AllocError>
    ensures { IfOk result (λ xs. (parts : PartTerms) (rule : RuleTerm) → IsLinker parts linker.now →
        AreAll (IsCompleteStep parts rule) (map step_term steps.now) →
        AreEach (TellsStep parts linker.now.linkage.templates.now rule.document) (map step_term steps.now) targets.now →
        AreEach (IsStep parts rule) (map step_term steps.now) xs.items) }
{
    let mut linked = Vec::new(linker.linkage.alloc);
    for (k, step) in steps.iter().enumerate() {
        linked.push(linked_step(linker, step, linker.place(target_at(targets, k)))?)?;
    }
    Ok(linked)
}
