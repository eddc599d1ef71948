//! What rules may not say of types: ADD of what isn't INTEGER, and ARGUMENT or REPLY of another type than the target
//! (docs/PROFILE.md, sections 9 and 12).

ghost use Rattle.std.specs.Prelude.{◌≡◌, ◌≢◌, ◌↔◌, ℕ, IfNone, IfOk, IfSome, List, None, OnOk, Option, Some};
ghost use Rattle.std.specs.Prelude.{slice_get, false, true};
ghost use Rattle.asn1_names.specs.ModuleTerms.{ModuleTerm};
ghost use Rattle.gdmo_members.specs.declared.action.ActionTemplate.{ActionTemplate as ActionText};
ghost use Rattle.gdmo_names.specs.FaultSets.{Notes, OneFault};
ghost use Rattle.gdmo_names.specs.FirstLabelFault.LabelFault.{KindWrong};
ghost use Rattle.gdmo_names.specs.FoundViews.{body_term, found_term, found_views};
ghost use Rattle.gdmo_names.specs.MemberViews.{action_term};
ghost use Rattle.gdmo_names.specs.PartTerms.{Placed, PartTerms, body_of, kind_of as kind_of_template, module_terms_of};
ghost use Rattle.gdmo_names.specs.TemplateTerms.TemplateKind.{ActionKind, AttributeKind};
ghost use Rattle.gdmo_names.specs.RuleWords.{reply_of};
ghost use Rattle.gdmo_rules.specs.TypeFaults.{IsNoInteger, IsOfOtherType, IsOtherReply, RepliesNoNumber};
ghost use Rattle.gdmo_rules.specs.TypeFaults.{TellsAction, TellsTypes};
ghost use Rattle.gdmo_types.specs.ComparedTypes.{TellsAttribute, TellsStatedType};
ghost use Rattle.gdmo_types.specs.Linkages.{IsLinkage};
ghost use Rattle.key_numbers.specs.NumberedLists.{AreOnce, Row};
ghost use Rattle.token_grammar.specs.TokenTests.{is_label};
ghost use Rattle.token_grammar.specs.declared.qualified_name.QualifiedName.{QualifiedName as NameTerm};
ghost use Rattle.type_numbers.specs.AskedTypes.{AreNumbers, StayNumbers};

use gdmo_members::ActionTemplate;
use gdmo_names::first_fault::{FaultKind, Faults};
use gdmo_names::found::{Body, Found};
use gdmo_types::compared_types::{ComparedType, are_other, attribute_type, stated_type};
use gdmo_types::linkage::Linkage;
use std::alloc::AllocError;
use token_grammar::Token;
use token_grammar::token_tests::is_label;
use type_numbers::numbered_types::TypeNumbers;

/// A step names an attribute.
#[derive(Clone, Copy)]
pub struct Naming<'a> {
    /// The number of the rule's document.
    pub document: u32,
    /// The attribute's label.
    pub label: &'a Token,
    /// The number of its template.
    pub attribute: usize,
}

/// The types of an action.
#[derive(Clone, Copy)]
pub struct ActionTypes {
    /// That of its information.
    pub information: ComparedType,
    /// That of its reply.
    pub reply: ComparedType,
}

/// The text of an action.
fn action_of<'a>(found: &Found<'a>) -> Option<&'a ActionTemplate>
    ensures some { IfSome result (λ text. body_term found.now.body ≡ body_of (action_term text.now)) }
    ensures none { IfNone result (kind_of_template (found_term found.now) ≢ ActionKind) }
{
    match found.body {
        Body::Class(_) => None,
        Body::Package(_) => None,
        Body::Parameter(_) => None,
        Body::Binding(_) => None,
        Body::Attribute(_) => None,
        Body::Group(_) => None,
        Body::Behaviour(_) => None,
        Body::Action(text) => Some(text),
        Body::Notification(_) => None,
    }
}

/// The types that the text of an action states.
fn types_of_text(
    linkage: &Linkage,
    numbers: &mut TypeNumbers,
    text: &ActionTemplate,
) -> Result<ActionTypes, AllocError>
    ensures told { IfOk result (λ types. (parts : PartTerms) (x : Placed) → IsLinkage parts linkage.now →
        AreNumbers (module_terms_of parts) numbers.old →
        body_of x.template ≡ body_of (action_term text.now) →
        TellsTypes parts numbers.new.lists x types) }
    ensures stays { (ms : List ModuleTerm) → AreNumbers ms numbers.old → StayNumbers ms numbers.old numbers.new }
{
    let information = stated_type(linkage, numbers, &text.information)?;
    let reply = stated_type(linkage, numbers, &text.reply)?;
    Ok(ActionTypes { information, reply })
}

/// Notes that something is wrong where it is.
pub(crate) fn note_where(is_wrong: bool, document: u32, word: &Token, faults: &mut Faults)
    ensures { Notes (OneFault (is_wrong ≡ true) KindWrong document word.now.at) faults.old.first faults.new.first }
{
    if is_wrong {
        faults.note(document, word, FaultKind::WrongKind);
    }
}

/// Whether the type of an attribute is known and isn't INTEGER, under any tags.
fn is_no_integer(numbers: &TypeNumbers, own: ComparedType) -> bool
    ensures { (parts : PartTerms) (x : Placed) → kind_of_template x.template ≡ AttributeKind →
        TellsAttribute parts numbers.now.lists x own → (result ≡ true) ↔ IsNoInteger parts x }
{
    match own {
        ComparedType::Missing => false,
        ComparedType::Nothing => true,
        ComparedType::Number(number) => !numbers.is_integer(number),
    }
}

/// Notes that ADD names an attribute that isn't INTEGER.
pub fn note_added(
    linkage: &Linkage,
    numbers: &mut TypeNumbers,
    naming: Naming,
    faults: &mut Faults,
) -> Result<(), AllocError>
    // exactly where its syntax is known and isn't INTEGER
    ensures noted { OnOk result ((parts : PartTerms) (x : Placed) → IsLinkage parts linkage.now →
        AreNumbers (module_terms_of parts) numbers.old →
        slice_get (found_views linkage.now.templates.now) naming.entry.attribute ≡ Some x →
        kind_of_template x.template ≡ AttributeKind →
        Notes (OneFault (IsNoInteger parts x) KindWrong naming.entry.document naming.entry.label.now.at)
        faults.old.first faults.new.first) }

    // what had a number keeps it
    ensures stays { (ms : List ModuleTerm) → AreNumbers ms numbers.old → StayNumbers ms numbers.old numbers.new }
{
    let own = attribute_type(linkage, numbers, naming.attribute)?;
    let is_wrong = is_no_integer(numbers, own);
    note_where(is_wrong, naming.document, naming.label, faults);
    Ok(())
}

/// Notes that an attribute is of another type than what it is set to, or than the reply that it is.
pub fn note_other(
    linkage: &Linkage,
    numbers: &mut TypeNumbers,
    attribute: usize,
    other: ComparedType,
    document: u32,
    word: &Token,
    faults: &mut Faults,
) -> Result<(), AllocError>
    // exactly where both types are known, and the attribute isn't of the one that is stated
    ensures noted { OnOk result ((parts : PartTerms) (x : Placed) (stated : Option NameTerm) →
        IsLinkage parts linkage.now → AreNumbers (module_terms_of parts) numbers.old →
        slice_get (found_views linkage.now.templates.now) attribute ≡ Some x →
        kind_of_template x.template ≡ AttributeKind → TellsStatedType parts numbers.old.lists stated other →
        Notes (OneFault (IsOfOtherType parts x stated) KindWrong document word.now.at) faults.old.first
        faults.new.first) }

    // what had a number keeps it
    ensures stays { (ms : List ModuleTerm) → AreNumbers ms numbers.old → StayNumbers ms numbers.old numbers.new }
{
    let own = attribute_type(linkage, numbers, attribute)?;
    note_where(are_other(own, other), document, word, faults);
    Ok(())
}

/// Notes that an argument that is replied is of another type than the reply.
pub fn note_other_reply(types: ActionTypes, document: u32, word: &Token, faults: &mut Faults)
    ensures { (parts : PartTerms) (row : Row) (action : Placed) → AreOnce row → TellsTypes parts row action types →
        Notes (OneFault (IsOtherReply parts action) KindWrong document word.now.at) faults.old.first
        faults.new.first }
{
    note_where(
        are_other(types.information, types.reply),
        document,
        word,
        faults,
    );
}

/// The types of an action; none where the action is missing.
pub fn action_types(
    linkage: &Linkage,
    numbers: &mut TypeNumbers,
    action: Option<usize>,
) -> Result<Option<ActionTypes>, AllocError>
    ensures told { IfOk result (λ types. (parts : PartTerms) (number : ℕ) (x : Placed) →
        IsLinkage parts linkage.now → AreNumbers (module_terms_of parts) numbers.old → action ≡ Some number →
        slice_get (found_views linkage.now.templates.now) number ≡ Some x →
        kind_of_template x.template ≡ ActionKind → TellsAction parts numbers.new.lists x types) }
    ensures missing { IfOk result (λ types. action ≡ None → types ≡ None) }

    // what had a number keeps it
    ensures stays { (ms : List ModuleTerm) → AreNumbers ms numbers.old → StayNumbers ms numbers.old numbers.new }
{
    let Some(number) = action else {
        return Ok(None);
    };
    let Some(found) = linkage.templates.get(number) else {
        return Ok(None);
    };
    let Some(text) = action_of(found) else {
        return Ok(None);
    };
    let types = types_of_text(linkage, numbers, text)?;
    Ok(Some(types))
}

/// Whether it is known that a reply has no number of this name.
fn replies_no_number(
    numbers: &mut TypeNumbers,
    reply: ComparedType,
    word: &Token,
) -> Result<bool, AllocError>
    ensures told { IfOk result (λ is. (parts : PartTerms) (action : Placed) →
        AreNumbers (module_terms_of parts) numbers.old →
        TellsStatedType parts numbers.old.lists (reply_of (body_of action.template)) reply →
        (is ≡ true) ↔ RepliesNoNumber parts action word.now) }
    ensures stays { (ms : List ModuleTerm) → AreNumbers ms numbers.old → StayNumbers ms numbers.old numbers.new }
{
    match reply {
        ComparedType::Missing => Ok(false),
        ComparedType::Nothing => Ok(true),
        ComparedType::Number(number) => {
            let names = numbers.names_number(number, word.text.as_slice())?;
            Ok(!names)
        }
    }
}

/// Whether a word alone behind REPLY that means no attribute is a label.
pub fn is_label_of_nothing(
    numbers: &mut TypeNumbers,
    types: Option<ActionTypes>,
    word: &Token,
) -> Result<bool, AllocError>
    // exactly where it has a label's form, and it is known that the reply has no number of its name
    ensures told { IfOk result (λ is. (parts : PartTerms) (action : Placed) →
        AreNumbers (module_terms_of parts) numbers.old →
        TellsAction parts numbers.old.lists action types →
        (is ≡ true) ↔ ((is_label word.now ≡ true) × RepliesNoNumber parts action word.now)) }

    // where the action is missing, it isn't judged
    ensures missing { IfOk result (λ is. types ≡ None → is ≡ false) }

    // what had a number keeps it
    ensures stays { (ms : List ModuleTerm) → AreNumbers ms numbers.old → StayNumbers ms numbers.old numbers.new }
{
    let Some(types) = types else {
        return Ok(false);
    };
    if !is_label(word) {
        return Ok(false);
    }
    replies_no_number(numbers, types.reply, word)
}
