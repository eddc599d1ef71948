//! What is wrong with the types of the steps of rules: ADD of what isn't INTEGER, ARGUMENT or REPLY of another type
//! than the target; and words alone behind REPLY that are labels and mean no attribute (docs/PROFILE.md, sections 9 and
//! 12).

ghost use Rattle.std.specs.Prelude.{◌≡◌, ℕ, IfOk, List, OnOk, Option, Some, map, slice_get};
ghost use Rattle.asn1_names.specs.ModuleTerms.{ModuleTerm};
ghost use Rattle.token_grammar.specs.declared.qualified_name.QualifiedName.{QualifiedName};
ghost use Rattle.key_numbers.specs.NumberedLists.{AreOnce, Row};
ghost use Rattle.gdmo_names.specs.FaultSets.{AnyOf, Notes, OneFault};
ghost use Rattle.gdmo_names.specs.FirstLabelFault.LabelFault.{KindWrong};
ghost use Rattle.gdmo_names.specs.FoundViews.{AreLabels, AreTemplates, found_views};
ghost use Rattle.gdmo_names.specs.InStep.{AreEach};
ghost use Rattle.gdmo_names.specs.Mentions.Role.{StepAttribute};
ghost use Rattle.gdmo_names.specs.PartTerms.StepTerm.{AddTo, SetTo};
ghost use Rattle.gdmo_names.specs.PartTerms.{Placed, PartTerms, RuleTerm, kind_of, module_terms_of};
ghost use Rattle.gdmo_names.specs.PartViews.{step_term, taken_term};
ghost use Rattle.gdmo_names.specs.RuleWords.{IsAttributeLabel, information_of, reply_of};
ghost use Rattle.gdmo_names.specs.SectionFaults.{LabelFaults};
ghost use Rattle.gdmo_names.specs.TemplateTerms.{BodyTerm};
ghost use Rattle.gdmo_names.specs.TemplateTerms.TemplateKind.{AttributeKind};
ghost use Rattle.gdmo_targets.specs.SectionTables.{IsRuleTargets, TellsStep};
ghost use Rattle.gdmo_targets.specs.StatedRules.{rule_terms, text_term};
ghost use Rattle.gdmo_types.specs.Linkages.{IsLinkage};
ghost use Rattle.gdmo_rules.specs.StepFaults.{AllTypeFaults, IsKnownRule, IsOfOther, RepliesOther, ReplyFaults};
ghost use Rattle.gdmo_rules.specs.StepFaults.{RuleTypeFaults, StepTypeFaults, TakenFaults, TellsRuleTypes};
ghost use Rattle.gdmo_rules.specs.StepFaults.{TellsStatedOf, TellsTarget, WordFaults};
ghost use Rattle.gdmo_rules.specs.TakenViews.{taken_view};
ghost use Rattle.type_numbers.specs.AskedTypes.{AreNumbers, StayNumbers};

use crate::rule_faults::{Taken, labelled_attribute, taken_reply, taken_value};
use crate::rule_texts::{known_number, step_target};
use crate::type_faults::{
    ActionTypes, Naming, action_types, is_label_of_nothing, note_added, note_other,
    note_other_reply,
};
use extra_syntax::step::{AddStep, SetStep, Step};
use gdmo_names::first_fault::Faults;
use gdmo_names::found::{Mention, Target};
use gdmo_names::roles::Role;
use gdmo_targets::labels::meant_template;
use gdmo_targets::section_references::RuleTargets;
use gdmo_targets::stated_rules::RuleText;
use gdmo_types::compared_types::ComparedType;
use gdmo_types::linkage::Linkage;
use std::alloc::AllocError;
use token_grammar::Token;
use type_numbers::numbered_types::TypeNumbers;

/// What is known of a rule.
#[derive(Clone, Copy)]
struct KnownRule {
    /// The number of its document.
    document: u32,
    /// The types of its action; none where the action is missing.
    types: Option<ActionTypes>,
}

/// The type of the action's information.
fn information_type(types: Option<ActionTypes>) -> Option<ComparedType>
    ensures { (parts : PartTerms) (row : Row) (rule : RuleTerm) → TellsRuleTypes parts row rule types →
        TellsStatedOf parts row rule information_of result }
{
    match types {
        Some(types) => Some(types.information),
        None => None,
    }
}

/// The type of its reply.
fn reply_type(types: Option<ActionTypes>) -> Option<ComparedType>
    ensures { (parts : PartTerms) (row : Row) (rule : RuleTerm) → TellsRuleTypes parts row rule types →
        TellsStatedOf parts row rule reply_of result }
{
    match types {
        Some(types) => Some(types.reply),
        None => None,
    }
}

/// Notes that an attribute is of another type than the one that the action states, where there is an action.
fn note_type(
    linkage: &Linkage,
    numbers: &mut TypeNumbers,
    naming: Naming,
    other: Option<ComparedType>,
    faults: &mut Faults,
) -> Result<(), AllocError>
    ensures noted { OnOk result ((parts : PartTerms) (rule : RuleTerm) (x : Placed)
        (stated_of : BodyTerm → Option QualifiedName) → IsLinkage parts linkage.now →
        AreNumbers (module_terms_of parts) numbers.old →
        slice_get (found_views linkage.now.templates.now) naming.entry.attribute ≡ Some x →
        kind_of x.template ≡ AttributeKind → TellsStatedOf parts numbers.old.lists rule stated_of other →
        Notes (OneFault (IsOfOther parts rule x stated_of) KindWrong naming.entry.document naming.entry.label.now.at)
        faults.old.first faults.new.first) }
    ensures stays { (ms : List ModuleTerm) → AreNumbers ms numbers.old → StayNumbers ms numbers.old numbers.new }
{
    let Some(other) = other else {
        return Ok(());
    };
    let document = naming.document;
    note_other(
        linkage,
        numbers,
        naming.attribute,
        other,
        document,
        naming.label,
        faults,
    )?;
    Ok(())
}

/// Notes what is wrong with what an attribute is set to.
fn note_taken(
    linkage: &Linkage,
    numbers: &mut TypeNumbers,
    known: KnownRule,
    attribute: usize,
    taken: Taken,
    faults: &mut Faults,
) -> Result<(), AllocError>
    ensures noted { OnOk result ((parts : PartTerms) (rule : RuleTerm) (x : Placed) → IsLinkage parts linkage.now →
        AreNumbers (module_terms_of parts) numbers.old → IsKnownRule parts numbers.old.lists rule known →
        slice_get (found_views linkage.now.templates.now) attribute ≡ Some x → kind_of x.template ≡ AttributeKind →
        Notes (TakenFaults parts rule x (taken_view taken.entry)) faults.old.first faults.new.first) }
    ensures stays { (ms : List ModuleTerm) → AreNumbers ms numbers.old → StayNumbers ms numbers.old numbers.new }
{
    match taken {
        Taken::Argument(word) => {
            let naming = Naming {
                document: known.document,
                label: word,
                attribute,
            };
            note_type(
                linkage,
                numbers,
                naming,
                information_type(known.types),
                faults,
            )
        }
        Taken::Word(_) => Ok(()),
        Taken::Value(_) => Ok(()),
    }
}

/// Judges SET; `target` is the attribute that it names.
fn judge_set(
    linkage: &Linkage,
    numbers: &mut TypeNumbers,
    known: KnownRule,
    step: &SetStep,
    target: Option<usize>,
    faults: &mut Faults,
) -> Result<(), AllocError>
    ensures noted { OnOk result ((parts : PartTerms) (rule : RuleTerm) → IsLinkage parts linkage.now →
        AreNumbers (module_terms_of parts) numbers.old → IsKnownRule parts numbers.old.lists rule known →
        TellsTarget parts linkage.now.templates.now rule.document (SetTo step.now.attribute (taken_term step.now.value))
        target → Notes (StepTypeFaults parts rule (SetTo step.now.attribute (taken_term step.now.value)))
        faults.old.first faults.new.first) }
    ensures stays { (ms : List ModuleTerm) → AreNumbers ms numbers.old → StayNumbers ms numbers.old numbers.new }
{
    let Some(attribute) = target else {
        return Ok(());
    };
    note_taken(
        linkage,
        numbers,
        known,
        attribute,
        taken_value(&step.value),
        faults,
    )?;
    Ok(())
}

/// Judges ADD.
fn judge_add(
    linkage: &Linkage,
    numbers: &mut TypeNumbers,
    known: KnownRule,
    step: &AddStep,
    target: Option<usize>,
    faults: &mut Faults,
) -> Result<(), AllocError>
    ensures noted { OnOk result ((parts : PartTerms) (rule : RuleTerm) → IsLinkage parts linkage.now →
        AreNumbers (module_terms_of parts) numbers.old → IsKnownRule parts numbers.old.lists rule known →
        TellsTarget parts linkage.now.templates.now rule.document (AddTo step.now.number step.now.attribute) target →
        Notes (StepTypeFaults parts rule (AddTo step.now.number step.now.attribute)) faults.old.first
        faults.new.first) }
    ensures stays { (ms : List ModuleTerm) → AreNumbers ms numbers.old → StayNumbers ms numbers.old numbers.new }
{
    let Some(attribute) = target else {
        return Ok(());
    };
    let naming = Naming {
        document: known.document,
        label: &step.attribute,
        attribute,
    };
    note_added(linkage, numbers, naming, faults)?;
    Ok(())
}

/// Notes what is wrong with a label that should be an attribute's.
fn note_label(linkage: &Linkage, document: u32, label: &Token, faults: &mut Faults)
    ensures { (parts : PartTerms) → AreTemplates parts linkage.now.templates.now →
        AreLabels parts linkage.now.templates.now linkage.now.labels.now →
        Notes (LabelFaults parts document StepAttribute label.now) faults.old.first faults.new.first }
{
    let mention = Mention {
        role: Role::StepAttribute,
        target: Target::Label(label),
    };
    let _target = meant_template(
        linkage.templates,
        linkage.labels,
        document,
        &mention,
        faults,
    );
}

/// Judges a word alone behind REPLY that is no attribute's label.
fn judge_other_word(
    linkage: &Linkage,
    numbers: &mut TypeNumbers,
    known: KnownRule,
    word: &Token,
    faults: &mut Faults,
) -> Result<(), AllocError>
    ensures noted { OnOk result ((parts : PartTerms) (rule : RuleTerm) → IsLinkage parts linkage.now →
        AreNumbers (module_terms_of parts) numbers.old → IsKnownRule parts numbers.old.lists rule known →
        ¬ IsAttributeLabel parts word.now →
        Notes (WordFaults parts rule word.now) faults.old.first faults.new.first) }
    ensures stays { (ms : List ModuleTerm) → AreNumbers ms numbers.old → StayNumbers ms numbers.old numbers.new }
{
    if is_label_of_nothing(numbers, known.types, word)? {
        note_label(linkage, known.document, word, faults);
    }
    Ok(())
}

/// Judges a word alone behind REPLY.
fn judge_word(
    linkage: &Linkage,
    numbers: &mut TypeNumbers,
    known: KnownRule,
    word: &Token,
    faults: &mut Faults,
) -> Result<(), AllocError>
    ensures noted { OnOk result ((parts : PartTerms) (rule : RuleTerm) → IsLinkage parts linkage.now →
        AreNumbers (module_terms_of parts) numbers.old → IsKnownRule parts numbers.old.lists rule known →
        Notes (WordFaults parts rule word.now) faults.old.first faults.new.first) }
    ensures stays { (ms : List ModuleTerm) → AreNumbers ms numbers.old → StayNumbers ms numbers.old numbers.new }
{
    match labelled_attribute(linkage.templates, linkage.labels, word) {
        Some(attribute) => {
            let naming = Naming {
                document: known.document,
                label: word,
                attribute,
            };
            note_type(linkage, numbers, naming, reply_type(known.types), faults)
        }
        None => judge_other_word(linkage, numbers, known, word, faults),
    }
}

/// Judges ARGUMENT behind REPLY.
fn judge_argument(known: KnownRule, word: &Token, faults: &mut Faults)
    ensures { (parts : PartTerms) (row : Row) (rule : RuleTerm) → AreOnce row → IsKnownRule parts row rule known →
        Notes (OneFault (RepliesOther parts rule) KindWrong rule.document word.now.at) faults.old.first
        faults.new.first }
{
    if let Some(types) = known.types {
        note_other_reply(types, known.document, word, faults);
    }
}

/// Judges REPLY.
fn judge_reply(
    linkage: &Linkage,
    numbers: &mut TypeNumbers,
    known: KnownRule,
    taken: Taken,
    faults: &mut Faults,
) -> Result<(), AllocError>
    ensures noted { OnOk result ((parts : PartTerms) (rule : RuleTerm) → IsLinkage parts linkage.now →
        AreNumbers (module_terms_of parts) numbers.old → IsKnownRule parts numbers.old.lists rule known →
        Notes (ReplyFaults parts rule (taken_view taken.entry)) faults.old.first faults.new.first) }
    ensures stays { (ms : List ModuleTerm) → AreNumbers ms numbers.old → StayNumbers ms numbers.old numbers.new }
{
    match taken {
        Taken::Argument(word) => {
            judge_argument(known, word, faults);
            Ok(())
        }
        Taken::Word(word) => judge_word(linkage, numbers, known, word, faults),
        Taken::Value(_) => Ok(()),
    }
}

/// Judges a step.
fn judge_step(
    linkage: &Linkage,
    numbers: &mut TypeNumbers,
    known: KnownRule,
    step: &Step,
    target: Option<usize>,
    faults: &mut Faults,
) -> Result<(), AllocError>
    ensures noted { OnOk result ((parts : PartTerms) (rule : RuleTerm) → IsLinkage parts linkage.now →
        AreNumbers (module_terms_of parts) numbers.old → IsKnownRule parts numbers.old.lists rule known →
        TellsTarget parts linkage.now.templates.now rule.document (step_term step.now) target →
        Notes (StepTypeFaults parts rule (step_term step.now)) faults.old.first faults.new.first) }
    ensures stays { (ms : List ModuleTerm) → AreNumbers ms numbers.old → StayNumbers ms numbers.old numbers.new }
{
    match step {
        Step::Set(step) => judge_set(linkage, numbers, known, step, target, faults),
        Step::Add(step) => judge_add(linkage, numbers, known, step, target, faults),
        Step::Emit(_) => Ok(()),
        Step::Reply(reply) => judge_reply(linkage, numbers, known, taken_reply(reply), faults),
    }
}

/// What is known of a rule, by what it names.
fn known_rule(
    linkage: &Linkage,
    numbers: &mut TypeNumbers,
    own: &RuleTargets,
) -> Result<KnownRule, AllocError>
    ensures told { IfOk result (λ known. (parts : PartTerms) (rule : RuleTerm) → IsLinkage parts linkage.now →
        AreNumbers (module_terms_of parts) numbers.old →
        IsRuleTargets parts linkage.now.templates.now rule own.now →
        IsKnownRule parts numbers.new.lists rule known) }
    ensures stays { (ms : List ModuleTerm) → AreNumbers ms numbers.old → StayNumbers ms numbers.old numbers.new }
{
    let action = known_number(linkage.templates, own.action);
    let types = action_types(linkage, numbers, action)?;
    Ok(KnownRule {
        document: own.document,
        types,
    })
}

/// Judges the steps of a rule.
fn judge_steps(
    linkage: &Linkage,
    numbers: &mut TypeNumbers,
    known: KnownRule,
    steps: &[Step],
    targets: &[Option<usize>],
    faults: &mut Faults,
) -> Result<(), AllocError>
    ensures noted { OnOk result ((parts : PartTerms) (rule : RuleTerm) → IsLinkage parts linkage.now →
        AreNumbers (module_terms_of parts) numbers.old → IsKnownRule parts numbers.old.lists rule known →
        AreEach (TellsStep parts linkage.now.templates.now rule.document) (map step_term steps.now) targets.now →
        Notes (AnyOf (StepTypeFaults parts rule) (map step_term steps.now)) faults.old.first faults.new.first) }
    ensures stays { (ms : List ModuleTerm) → AreNumbers ms numbers.old → StayNumbers ms numbers.old numbers.new }
{
    for (place, step) in steps.iter().enumerate() {
        let target = step_target(linkage.templates, targets, place);
        judge_step(linkage, numbers, known, step, target, faults)?;
    }
    Ok(())
}

/// Judges a rule; `own` tells what it names.
fn judge_rule(
    linkage: &Linkage,
    numbers: &mut TypeNumbers,
    rule: &RuleText,
    own: &RuleTargets,
    faults: &mut Faults,
) -> Result<(), AllocError>
    ensures noted { OnOk result ((parts : PartTerms) → IsLinkage parts linkage.now →
        AreNumbers (module_terms_of parts) numbers.old →
        IsRuleTargets parts linkage.now.templates.now (text_term rule.now) own.now →
        Notes (RuleTypeFaults parts (text_term rule.now)) faults.old.first faults.new.first) }
    ensures stays { (ms : List ModuleTerm) → AreNumbers ms numbers.old → StayNumbers ms numbers.old numbers.new }
{
    let known = known_rule(linkage, numbers, own)?;
    let steps = rule.rule.steps.as_slice();
    judge_steps(linkage, numbers, known, steps, own.steps.as_slice(), faults)?;
    Ok(())
}

/// Judges the rule that stands at a place.
fn judge_rule_at(
    linkage: &Linkage,
    numbers: &mut TypeNumbers,
    rule: &RuleText,
    targets: &[RuleTargets],
    place: usize,
    faults: &mut Faults,
) -> Result<(), AllocError>
    ensures noted { OnOk result ((parts : PartTerms) (own : RuleTargets) → IsLinkage parts linkage.now →
        AreNumbers (module_terms_of parts) numbers.old → slice_get targets.now place ≡ Some own →
        IsRuleTargets parts linkage.now.templates.now (text_term rule.now) own →
        Notes (RuleTypeFaults parts (text_term rule.now)) faults.old.first faults.new.first) }
    ensures stays { (ms : List ModuleTerm) → AreNumbers ms numbers.old → StayNumbers ms numbers.old numbers.new }
{
    let Some(own) = targets.get(place) else {
        return Ok(());
    };
    judge_rule(linkage, numbers, rule, own, faults)?;
    Ok(())
}

/// Notes what is wrong with the types of the steps of rules. `targets` tells what they name.
pub(crate) fn judge_types(
    linkage: &Linkage,
    numbers: &mut TypeNumbers,
    rules: &[RuleText],
    targets: &[RuleTargets],
    faults: &mut Faults,
) -> Result<(), AllocError>
    ensures noted { OnOk result ((parts : PartTerms) → IsLinkage parts linkage.now →
        AreNumbers (module_terms_of parts) numbers.old → rule_terms rules.now ≡ parts.rules →
        AreEach (IsRuleTargets parts linkage.now.templates.now) parts.rules targets.now →
        Notes (AllTypeFaults parts) faults.old.first faults.new.first) }
    ensures stays { (ms : List ModuleTerm) → AreNumbers ms numbers.old → StayNumbers ms numbers.old numbers.new }
{
    for (place, rule) in rules.iter().enumerate() {
        judge_rule_at(linkage, numbers, rule, targets, place, faults)?;
    }
    Ok(())
}
