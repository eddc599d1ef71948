//! What records say of attributes: their properties in a class, and which of them the agent itself writes. X.722,
//! sections 8.4 and 8.7; X.721, top; docs/PROFILE.md, section 15.

ghost use Rattle.std.specs.Prelude.{◌≡◌};
ghost use Rattle.std.specs.Option.{option_copied};
ghost use Rattle.term_values.specs.CmipTypes.{implicit, number, object_class, set_of};
ghost use Rattle.term_values.specs.PartsView.{parts_listed};
ghost use Rattle.creation_values.specs.ClassForms.{a_part, class_forms, local_form};
ghost use Rattle.term_values.specs.SameSyntax.{same_parts, same_syntax};
ghost use Rattle.term_values.specs.Syntaxes.TypeParts.{NoParts};
ghost use Rattle.term_values.specs.Syntaxes.TypeSyntax.{ObjectIdentifier};
ghost use Rattle.term_model.specs.AgentWritten.{is_agent_written, is_class_choice, is_class_identifier, is_counter};
ghost use Rattle.term_model.specs.AgentWritten.{is_log_status, is_name_binding, is_package_list, is_packages};
ghost use Rattle.term_model.specs.ClassAttributes.{property_among, property_of};

use attribute_rules::labels::{is_labelled, tells_of_records};
use term_model::{Properties, Property, Set};
use term_values::syntax::SyntaxForm;
use term_values::tag::CONTEXT;
use term_values::{Oid, Part, Syntax, Tag};

/// The label of objectClass.
const OBJECT_CLASS: &[u8] = b"objectClass";

/// The name of globalForm in ObjectClass.
const GLOBAL_NAME: &[u8] = b"globalForm";

/// The tag of globalForm.
const GLOBAL_FORM: Tag = Tag {
    class: CONTEXT,
    number: 0,
};

/// The name of localForm in ObjectClass.
const LOCAL_NAME: &[u8] = b"localForm";

/// The tag of localForm.
const LOCAL_FORM: Tag = Tag {
    class: CONTEXT,
    number: 1,
};

/// The label of nameBinding.
const NAME_BINDING: &[u8] = b"nameBinding";

/// The label of packages.
const PACKAGES: &[u8] = b"packages";

/// The label of availabilityStatus.
const AVAILABILITY_STATUS: &[u8] = b"availabilityStatus";

/// The label of currentLogSize.
const CURRENT_LOG_SIZE: &[u8] = b"currentLogSize";

/// The label of numberOfRecords.
const NUMBER_OF_RECORDS: &[u8] = b"numberOfRecords";

/// The properties of an attribute among these.
fn property_among<'a>(properties: &'a Properties, id: &Oid) -> Option<&'a Property>
    ensures { option_copied result ≡ property_among properties.now id.now }
{
    for property in &properties.items {
        if property.attribute == *id {
            return Some(property);
        }
    }
    None
}

/// The properties that an attribute has in a class.
pub fn property_of<'a>(schema: &'a Set, class: &Oid, id: &Oid) -> Option<&'a Property>
    ensures { option_copied result ≡ property_of schema.now class.now id.now }
{
    match schema.classes.find(class) {
        Some(of_class) => property_among(&of_class.properties, id),
        None => None,
    }
}

/// Whether this is OBJECT IDENTIFIER.
fn is_identifier(syntax: &Syntax) -> bool
    ensures { result ≡ same_syntax syntax.now ObjectIdentifier }
{
    match &syntax.form {
        SyntaxForm::Oid => true,
        _ => false,
    }
}

/// Whether this is OBJECT IDENTIFIER under the tag of globalForm.
fn is_global_form(syntax: &Syntax) -> bool
    ensures { result ≡ same_syntax syntax.now (implicit 0 ObjectIdentifier) }
{
    match &syntax.form {
        SyntaxForm::Tagged(tag, explicit, of) => {
            *tag == GLOBAL_FORM && !*explicit && is_identifier(of)
        }
        _ => false,
    }
}

/// Whether this is INTEGER, without names and bounds.
fn is_number(syntax: &Syntax) -> bool
    ensures { result ≡ same_syntax syntax.now number }
{
    match &syntax.form {
        SyntaxForm::Int(names, ranges) => names.items.is_empty() && ranges.items.is_empty(),
        _ => false,
    }
}

/// Whether this is INTEGER under the tag of localForm.
fn is_local_form(syntax: &Syntax) -> bool
    ensures { result ≡ same_syntax syntax.now (implicit 1 number) }
{
    match &syntax.form {
        SyntaxForm::Tagged(tag, explicit, of) => *tag == LOCAL_FORM && !*explicit && is_number(of),
        _ => false,
    }
}

/// Whether there are no alternatives.
fn are_none(parts: &[Part]) -> bool
    ensures { result ≡ same_parts (parts_listed parts.now) NoParts }
{
    match parts.split_first() {
        Some(_) => false,
        None => true,
    }
}

/// Whether an alternative, with none behind it, is localForm.
fn is_local_part(first: &Part, rest: &[Part]) -> bool
    ensures { result ≡ same_parts (a_part first.now.name first.now.syntax first.now.optional
        first.now.default (parts_listed rest.now)) local_form }
{
    if first.name.as_slice() != LOCAL_NAME {
        return false;
    }
    if !is_local_form(&first.syntax) {
        return false;
    }
    if first.optional {
        return false;
    }
    if first.default.is_some() {
        return false;
    }
    are_none(rest)
}

/// Whether these are the alternative localForm alone.
fn are_local_form(parts: &[Part]) -> bool
    ensures { result ≡ same_parts (parts_listed parts.now) local_form }
{
    match parts.split_first() {
        Some((first, rest)) => is_local_part(first, rest),
        None => false,
    }
}

/// Whether an alternative, with these behind it, is globalForm, and they are localForm.
fn is_global_part(first: &Part, rest: &[Part]) -> bool
    ensures { result ≡ same_parts (a_part first.now.name first.now.syntax first.now.optional
        first.now.default (parts_listed rest.now)) class_forms }
{
    if first.name.as_slice() != GLOBAL_NAME {
        return false;
    }
    if !is_global_form(&first.syntax) {
        return false;
    }
    if first.optional {
        return false;
    }
    if first.default.is_some() {
        return false;
    }
    are_local_form(rest)
}

/// Whether these are the alternatives of ObjectClass.
fn are_class_forms(parts: &[Part]) -> bool
    ensures { result ≡ same_parts (parts_listed parts.now) class_forms }
{
    match parts.split_first() {
        Some((first, rest)) => is_global_part(first, rest),
        None => false,
    }
}

/// Whether this is ObjectClass.
fn is_object_class(syntax: &Syntax) -> bool
    ensures { result ≡ same_syntax syntax.now object_class }
{
    match &syntax.form {
        SyntaxForm::Choice(parts) => are_class_forms(&parts.items),
        _ => false,
    }
}

/// Whether this is SET OF OBJECT IDENTIFIER.
fn is_identifier_set(syntax: &Syntax) -> bool
    ensures { result ≡ same_syntax syntax.now (set_of ObjectIdentifier) }
{
    match &syntax.form {
        SyntaxForm::SetOf(member, sizes) => is_identifier(member) && sizes.items.is_empty(),
        _ => false,
    }
}

/// Whether an attribute is objectClass, with the syntax OBJECT IDENTIFIER.
pub fn is_class_identifier(schema: &Set, id: &Oid) -> bool
    ensures { result ≡ is_class_identifier schema.now id.now }
{
    match schema.attributes.find(id) {
        Some(template) => {
            template.label.as_slice() == OBJECT_CLASS && is_identifier(&template.syntax)
        }
        None => false,
    }
}

/// Whether an attribute is objectClass, with the syntax ObjectClass.
pub fn is_class_choice(schema: &Set, id: &Oid) -> bool
    ensures { result ≡ is_class_choice schema.now id.now }
{
    match schema.attributes.find(id) {
        Some(template) => {
            template.label.as_slice() == OBJECT_CLASS && is_object_class(&template.syntax)
        }
        None => false,
    }
}

/// Whether an attribute is nameBinding, the name binding of an object.
pub fn is_name_binding(schema: &Set, id: &Oid) -> bool
    ensures { result ≡ is_name_binding schema.now id.now }
{
    match schema.attributes.find(id) {
        Some(template) => {
            template.label.as_slice() == NAME_BINDING && is_identifier(&template.syntax)
        }
        None => false,
    }
}

/// Whether an attribute is packages, the packages that the creation of an object named.
pub fn is_package_list(schema: &Set, id: &Oid) -> bool
    ensures { result ≡ is_package_list schema.now id.now }
{
    match schema.attributes.find(id) {
        Some(template) => {
            template.label.as_slice() == PACKAGES && is_identifier_set(&template.syntax)
        }
        None => false,
    }
}

/// Whether an attribute is packages, and a package of the class has it.
pub fn is_packages(schema: &Set, class: &Oid, id: &Oid) -> bool
    ensures { result ≡ is_packages schema.now class.now id.now }
{
    is_package_list(schema, id) && property_of(schema, class, id).is_some()
}

/// Whether an attribute counts the records of an object that is, or isn't, a bound log.
pub fn is_counter(schema: &Set, bound_log: bool, id: &Oid) -> bool
    ensures { result ≡ is_counter schema.now bound_log id.now }
{
    let records = &schema.attributes;
    bound_log
        && (is_labelled(records, CURRENT_LOG_SIZE, id)
            || is_labelled(records, NUMBER_OF_RECORDS, id))
}

/// Whether an attribute is the availabilityStatus of an object that is, or isn't, a bound log.
pub fn is_log_status(schema: &Set, bound_log: bool, id: &Oid) -> bool
    ensures { result ≡ is_log_status schema.now bound_log id.now }
{
    bound_log && is_labelled(&schema.attributes, AVAILABILITY_STATUS, id)
}

/// Whether the agent itself writes the attribute of an object that is, or isn't, a bound log.
pub fn is_agent_written(schema: &Set, bound_log: bool, id: &Oid) -> bool
    ensures { result ≡ is_agent_written schema.now bound_log id.now }
{
    is_class_identifier(schema, id)
        || is_class_choice(schema, id)
        || is_name_binding(schema, id)
        || is_package_list(schema, id)
        || bound_log && tells_of_records(&schema.attributes, id)
}
