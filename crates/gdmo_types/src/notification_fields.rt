//! AND ATTRIBUTE IDS: each field is a component of the notification's information whose type is the attribute's (X.722,
//! section 8.11; docs/PROFILE.md, section 12).

ghost use Rattle.std.specs.Prelude.{◌≡◌, IfOk, List, OnOk, Some, map, slice_get};
ghost use Rattle.asn1_names.specs.ModuleTerms.{ModuleTerm};
ghost use Rattle.gdmo_names.specs.FaultSets.{AnyOf, Notes, OneFault};
ghost use Rattle.gdmo_names.specs.FirstLabelFault.LabelFault.{KindWrong};
ghost use Rattle.gdmo_names.specs.FoundViews.{body_term, found_view};
ghost use Rattle.gdmo_names.specs.InStep.{AreEach};
ghost use Rattle.gdmo_names.specs.MemberViews.{notification_term};
ghost use Rattle.gdmo_names.specs.PartTerms.{PartTerms, body_of, module_terms_of};
ghost use Rattle.gdmo_names.specs.declared.found.Found.{Found as FoundTerm};
ghost use Rattle.gdmo_types.specs.ComparedTypes.{AreOther, NumbersName};
ghost use Rattle.gdmo_types.specs.FieldFaults.{AreFieldsOf, FieldFault, FieldFaults, TellsPart, TemplateFields};
ghost use Rattle.gdmo_types.specs.FieldFaults.{field_mention};
ghost use Rattle.gdmo_types.specs.Linkages.{IsLinkage};
ghost use Rattle.gdmo_types.specs.RoleTargets.{MeansNumber};
ghost use Rattle.key_numbers.specs.ComponentKeys.{component_key};
ghost use Rattle.key_numbers.specs.KeyNumbers.{IsKeyNumber};
ghost use Rattle.key_numbers.specs.TypeKeys.{TypeKey};
ghost use Rattle.token_grammar.specs.declared.qualified_name.QualifiedName.{QualifiedName as NameTerm};
ghost use Rattle.type_numbers.specs.AskedTypes.{AreNumbers, StayNumbers};

use crate::attribute_types::{targets_in_role, type_meaning};
use crate::compared_types::{ComparedType, are_other, attribute_type};
use crate::linkage::Linkage;
use crate::role_targets::number_at;
use gdmo_members::notification::{Field, NotificationTemplate};
use gdmo_names::first_fault::{FaultKind, Faults};
use gdmo_names::found::{Body, Found};
use gdmo_names::roles::Role;
use std::alloc::AllocError;
use token_grammar::Token;
use token_grammar::qualified_name::QualifiedName;
use type_numbers::numbered_types::TypeNumbers;

/// The type of the component of this name, of the type with a number.
fn component_type(
    numbers: &mut TypeNumbers,
    whole: usize,
    name: &[u8],
) -> Result<ComparedType, AllocError>
    ensures told { IfOk result (λ type. (key : TypeKey) → IsKeyNumber numbers.old.lists key whole →
        TellsPart numbers.new.lists (component_key name.now key) type) }
    ensures stays { (ms : List ModuleTerm) → AreNumbers ms numbers.old → StayNumbers ms numbers.old numbers.new }
{
    match numbers.component(whole, name)? {
        Some(number) => Ok(ComparedType::Number(number)),
        None => Ok(ComparedType::Nothing),
    }
}

/// Notes that two types are known to be other ones.
fn note_other(
    one: ComparedType,
    other: ComparedType,
    document: u32,
    name: &Token,
    faults: &mut Faults,
)
    ensures { Notes (OneFault (AreOther one other) KindWrong document name.now.at) faults.old.first
        faults.new.first }
{
    if are_other(one, other) {
        faults.note(document, name, FaultKind::WrongKind);
    }
}

/// Notes a field that is no component of the type of the attribute that has the number; where it names no attribute,
/// nothing.
fn note_field(
    linkage: &Linkage,
    numbers: &mut TypeNumbers,
    whole: usize,
    document: u32,
    field: &Field,
    attribute: Option<usize>,
    faults: &mut Faults,
) -> Result<(), AllocError>
    ensures noted { OnOk result ((parts : PartTerms) (information : NameTerm) → IsLinkage parts linkage.now →
        AreNumbers (module_terms_of parts) numbers.old → NumbersName parts numbers.old.lists information whole →
        MeansNumber parts linkage.now.templates.now document (field_mention field.now) attribute →
        Notes (FieldFault parts document information field.now) faults.old.first faults.new.first) }
    ensures stays { (ms : List ModuleTerm) → AreNumbers ms numbers.old → StayNumbers ms numbers.old numbers.new }
{
    let Some(attribute) = attribute else {
        return Ok(());
    };
    let own = attribute_type(linkage, numbers, attribute)?;
    let component = component_type(numbers, whole, field.name.text.as_slice())?;
    note_other(own, component, document, &field.name, faults);
    Ok(())
}

/// The same of some fields; the numbers are those of their attributes.
fn note_each(
    linkage: &Linkage,
    numbers: &mut TypeNumbers,
    whole: usize,
    document: u32,
    fields: &[Field],
    attributes: &[Option<usize>],
    faults: &mut Faults,
) -> Result<(), AllocError>
    ensures noted { OnOk result ((parts : PartTerms) (information : NameTerm) → IsLinkage parts linkage.now →
        AreNumbers (module_terms_of parts) numbers.old → NumbersName parts numbers.old.lists information whole →
        AreEach (MeansNumber parts linkage.now.templates.now document) (map field_mention fields.now)
        attributes.now → Notes (AnyOf (FieldFault parts document information) fields.now) faults.old.first
        faults.new.first) }
    ensures stays { (ms : List ModuleTerm) → AreNumbers ms numbers.old → StayNumbers ms numbers.old numbers.new }
{
    for (k, field) in fields.iter().enumerate() {
        let attribute = number_at(attributes, k);
        note_field(linkage, numbers, whole, document, field, attribute, faults)?;
    }
    Ok(())
}

/// The same of the fields of the notification that has the number, whose information is of this type.
fn note_of_type(
    linkage: &Linkage,
    numbers: &mut TypeNumbers,
    place: usize,
    document: u32,
    information: &QualifiedName,
    fields: &[Field],
    faults: &mut Faults,
) -> Result<(), AllocError>
    ensures noted { OnOk result ((parts : PartTerms) (x : FoundTerm) → IsLinkage parts linkage.now →
        AreNumbers (module_terms_of parts) numbers.old → slice_get linkage.now.templates.now place ≡ Some x →
        x.document ≡ document → AreFieldsOf (body_term x.body) information.now fields.now →
        Notes (AnyOf (FieldFault parts document information.now) fields.now) faults.old.first faults.new.first) }
    ensures stays { (ms : List ModuleTerm) → AreNumbers ms numbers.old → StayNumbers ms numbers.old numbers.new }
{
    let Some(meaning) = type_meaning(linkage.types, information) else {
        return Ok(());
    };
    let Some(whole) = numbers.type_number(meaning)? else {
        return Ok(());
    };
    let attributes = targets_in_role(
        linkage.alloc,
        linkage.templates,
        linkage.targets,
        place,
        Role::FieldAttribute,
    )?;
    note_each(
        linkage,
        numbers,
        whole,
        document,
        fields,
        attributes.as_slice(),
        faults,
    )
}

fn note_notification(
    linkage: &Linkage,
    numbers: &mut TypeNumbers,
    place: usize,
    document: u32,
    notification: &NotificationTemplate,
    faults: &mut Faults,
) -> Result<(), AllocError>
    ensures noted { OnOk result ((parts : PartTerms) (x : FoundTerm) → IsLinkage parts linkage.now →
        AreNumbers (module_terms_of parts) numbers.old → slice_get linkage.now.templates.now place ≡ Some x →
        x.document ≡ document → body_term x.body ≡ body_of (notification_term notification.now) →
        Notes (TemplateFields parts (found_view x)) faults.old.first faults.new.first) }
    ensures stays { (ms : List ModuleTerm) → AreNumbers ms numbers.old → StayNumbers ms numbers.old numbers.new }
{
    let Some(information) = &notification.information else {
        return Ok(());
    };
    let Some(fields) = &information.fields else {
        return Ok(());
    };
    let syntax = &information.syntax;
    note_of_type(
        linkage,
        numbers,
        place,
        document,
        syntax,
        fields.as_slice(),
        faults,
    )
}

/// Notes what is wrong with the fields of the template that has the number.
fn note_template(
    linkage: &Linkage,
    numbers: &mut TypeNumbers,
    place: usize,
    found: &Found,
    faults: &mut Faults,
) -> Result<(), AllocError>
    ensures noted { OnOk result ((parts : PartTerms) → IsLinkage parts linkage.now →
        AreNumbers (module_terms_of parts) numbers.old →
        slice_get linkage.now.templates.now place ≡ Some found.now →
        Notes (TemplateFields parts (found_view found.now)) faults.old.first faults.new.first) }
    ensures stays { (ms : List ModuleTerm) → AreNumbers ms numbers.old → StayNumbers ms numbers.old numbers.new }
{
    let document = found.document;
    match found.body {
        Body::Class(_) => Ok(()),
        Body::Package(_) => Ok(()),
        Body::Parameter(_) => Ok(()),
        Body::Binding(_) => Ok(()),
        Body::Attribute(_) => Ok(()),
        Body::Group(_) => Ok(()),
        Body::Behaviour(_) => Ok(()),
        Body::Action(_) => Ok(()),
        Body::Notification(notification) => {
            note_notification(linkage, numbers, place, document, notification, faults)
        }
    }
}

/// Notes the fields of notifications that are no components of the attributes' types. The types and texts of the
/// numbers are to be those of the documents.
pub fn note_fields(
    linkage: &Linkage,
    numbers: &mut TypeNumbers,
    faults: &mut Faults,
) -> Result<(), AllocError>
    // exactly these are noted
    ensures noted { OnOk result ((parts : PartTerms) → IsLinkage parts linkage.now →
        AreNumbers (module_terms_of parts) numbers.old → Notes (FieldFaults parts) faults.old.first
        faults.new.first) }

    // what had a number keeps it
    ensures stays { (ms : List ModuleTerm) → AreNumbers ms numbers.old → StayNumbers ms numbers.old numbers.new }
{
    for (place, found) in linkage.templates.iter().enumerate() {
        note_template(linkage, numbers, place, found, faults)?;
    }
    Ok(())
}
