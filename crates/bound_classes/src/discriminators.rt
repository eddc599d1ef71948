//! Which classes the agent acts on as discriminators: X.721, class eventForwardingDiscriminator; X.734;
//! docs/PROFILE.md, section 15.

ghost use Rattle.std.specs.Prelude.{◌≡◌, [], ◌∷◌, IfOk};
ghost use Rattle.std.specs.List.{list_any};
ghost use Rattle.term_values.specs.CmipTypes.{one};
ghost use Rattle.term_values.specs.PartsView.{parts_listed};
ghost use Rattle.term_values.specs.SyntaxView.{syntax_of};
ghost use Rattle.term_values.specs.Syntaxes.TypeParts.{NoParts};
ghost use Rattle.attribute_rules.specs.MandatoryAttributes.{classes_have};
ghost use Rattle.term_model.specs.BoundClasses.{have_attribute, is_bound_discriminator, is_class_labelled};
ghost use Rattle.term_model.specs.ControlSyntaxes.{destination};
ghost use Rattle.term_model.specs.PresentPackages.{packages_by};
ghost use Rattle.bound_classes.specs.DiscriminatorAttributes.{have_all_of_discriminator, have_of_top, have_sending};
ghost use Rattle.bound_classes.specs.DiscriminatorAttributes.{have_states};

use attribute_rules::bound_logs::have_attribute;
use attribute_rules::control_syntaxes::{
    administrative_state, identifiers, operational_state, simple_name,
};
use class_packages::classes_above;
use std::alloc::{AllocError, Global};
use term_model::{ClassRecs, Set};
use term_values::{Bytes, Oid, Part, Parts, Syntax, SyntaxForm};

/// A type of this form.
fn of_form(form: SyntaxForm) -> Syntax
    ensures { result ≡ syntax_of form }
{
    Syntax { form }
}

/// An alternative.
fn alternative(alloc: Global, name: &[u8], syntax: Syntax) -> Result<Part, AllocError>
    ensures { IfOk result (λ part. parts_listed (part ∷ []) ≡ one name.now syntax NoParts) }
{
    Ok(Part {
        name: Bytes::from_slice(alloc, name)?,
        syntax,
        optional: false,
        default: None,
    })
}

/// Two alternatives.
fn two_alternatives(alloc: Global, first: Part, second: Part) -> Result<Parts, AllocError>
    ensures { IfOk result (λ parts. parts ≡ parts_listed (first ∷ (second ∷ []))) }
{
    let items = vec![in alloc; first, second]?;
    Ok(Parts { items })
}

/// CHOICE { single OBJECT IDENTIFIER, multiple SET OF OBJECT IDENTIFIER }
fn destination(alloc: Global) -> Result<Syntax, AllocError>
    ensures { IfOk result (λ syntax. syntax ≡ destination) }
{
    let single = alternative(alloc, b"single", of_form(SyntaxForm::Oid))?;
    let multiple = alternative(alloc, b"multiple", identifiers(alloc)?)?;
    let parts = two_alternatives(alloc, single, multiple)?;
    Ok(of_form(SyntaxForm::Choice(parts)))
}

/// The mandatory packages of a class have such an attribute.
#[tactic(auto, using(attribute_rules::proofs::BoundLaws::mandatory_alone))]
fn class_has(schema: &Set, label: &[u8], syntax: &Syntax, class: &Oid) -> bool
    ensures { result
        ≡ have_attribute schema.now.attributes (packages_by schema.now.classes [] class.now) (label.now, syntax.now) }
{
    match schema.classes.find(class) {
        Some(found) => {
            let packages = found.mandatory.items.as_slice();
            have_attribute(&schema.attributes, label, syntax, packages)
        }
        None => false,
    }
}

/// The mandatory packages of these classes have such an attribute.
#[tactic(auto, unfolding(attribute_rules::specs::MandatoryAttributes::classes_have))]
fn classes_have(schema: &Set, label: &[u8], syntax: &Syntax, classes: &[Oid]) -> bool
    ensures { result ≡ classes_have schema.now classes.now label.now syntax.now }
{
    for class in classes {
        if class_has(schema, label, syntax, class) {
            return true;
        }
    }
    false
}

/// The same of a syntax that was made for this.
fn classes_have_one(schema: &Set, label: &[u8], syntax: Syntax, classes: &[Oid]) -> bool
    ensures { result ≡ classes_have schema.now classes.now label.now syntax }
{
    classes_have(schema, label, &syntax, classes)
}

/// The mandatory packages of these classes have the attributes of top.
fn have_of_top(alloc: Global, schema: &Set, classes: &[Oid]) -> Result<bool, AllocError>
    ensures { IfOk result (λ found. found ≡ have_of_top schema.now classes.now) }
{
    if !classes_have_one(schema, b"objectClass", of_form(SyntaxForm::Oid), classes) {
        return Ok(false);
    }
    if !classes_have_one(schema, b"nameBinding", of_form(SyntaxForm::Oid), classes) {
        return Ok(false);
    }
    if !classes_have_one(schema, b"packages", identifiers(alloc)?, classes) {
        return Ok(false);
    }
    Ok(true)
}

/// And the states of a discriminator.
#[tactic(auto, unfolding(crate::specs::DiscriminatorAttributes::have_states))]
fn have_states(alloc: Global, schema: &Set, classes: &[Oid]) -> Result<bool, AllocError>
    ensures { IfOk result (λ found. found ≡ have_states schema.now classes.now) }
{
    if !classes_have_one(
        schema,
        b"administrativeState",
        administrative_state(alloc)?,
        classes,
    ) {
        return Ok(false);
    }
    if !classes_have_one(
        schema,
        b"operationalState",
        operational_state(alloc)?,
        classes,
    ) {
        return Ok(false);
    }
    have_of_top(alloc, schema, classes)
}

/// And its filter and its destination.
#[tactic(auto, unfolding(crate::specs::DiscriminatorAttributes::have_sending))]
fn have_sending(alloc: Global, schema: &Set, classes: &[Oid]) -> Result<bool, AllocError>
    ensures { IfOk result (λ found. found ≡ have_sending schema.now classes.now) }
{
    if !classes_have_one(
        schema,
        b"discriminatorConstruct",
        of_form(SyntaxForm::Filter),
        classes,
    ) {
        return Ok(false);
    }
    if !classes_have_one(schema, b"destination", destination(alloc)?, classes) {
        return Ok(false);
    }
    have_states(alloc, schema, classes)
}

/// And its name: all attributes of a discriminator.
#[tactic(auto, unfolding(crate::specs::DiscriminatorAttributes::have_all_of_discriminator))]
fn have_all_of_discriminator(
    alloc: Global,
    schema: &Set,
    classes: &[Oid],
) -> Result<bool, AllocError>
    ensures { IfOk result (λ found. found ≡ have_all_of_discriminator schema.now classes.now) }
{
    if !classes_have_one(schema, b"discriminatorId", simple_name(alloc)?, classes) {
        return Ok(false);
    }
    have_sending(alloc, schema, classes)
}

/// The class has this label.
fn is_class_labelled(records: &ClassRecs, label: &[u8], class: &Oid) -> bool
    ensures { result ≡ is_class_labelled records.now label.now class.now }
{
    match records.find(class) {
        Some(found) => found.label.as_slice() == label,
        None => false,
    }
}

/// One of the classes has this label.
fn is_one_labelled(records: &ClassRecs, label: &[u8], classes: &[Oid]) -> bool
    ensures { result ≡ list_any (is_class_labelled records.now label.now) classes.now }
{
    for class in classes {
        if is_class_labelled(records, label, class) {
            return true;
        }
    }
    false
}

/// The objects of a class are discriminators: it is, or derives from, one with the label
/// `eventForwardingDiscriminator`, and has the attributes of a discriminator by label and syntax, in mandatory
/// packages.
#[tactic(auto, using(crate::proofs::BoundLaws::all_of_discriminator))]
pub fn is_bound_discriminator(alloc: Global, schema: &Set, class: &Oid) -> Result<bool, AllocError>
    ensures { IfOk result (λ bound. bound ≡ is_bound_discriminator schema.now class.now) }
{
    let classes = classes_above(alloc, &schema.classes, class)?;
    if !is_one_labelled(
        &schema.classes,
        b"eventForwardingDiscriminator",
        classes.items.as_slice(),
    ) {
        return Ok(false);
    }
    have_all_of_discriminator(alloc, schema, classes.items.as_slice())
}
