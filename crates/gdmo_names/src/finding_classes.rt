//! The templates of classes and name bindings, and those that stand in line in them (X.722, sections 8.3 and 8.6); and all
//! templates of a set of documents.

ghost use Rattle.std.specs.Prelude.{◌≡◌, [], ◌∷◌, IfOk, OnOk, flat_map, map};
ghost use Rattle.gdmo_names.specs.ClassViews.{binding_term, class_reference, class_term, conditional_reference};
ghost use Rattle.gdmo_names.specs.ClassViews.{creation_term, deletion_term, package_reference};
ghost use Rattle.gdmo_names.specs.DocumentTemplates.{in_life, in_reference, placed_templates};
ghost use Rattle.gdmo_names.specs.FindingSteps.{AddsPlaced, Finds, FindsRow, FindsTarget, FindsTemplate};
ghost use Rattle.gdmo_names.specs.MemberViews.{clause_terms, reference_terms};
ghost use Rattle.gdmo_names.specs.Mentions.{life_mentions, mention, wanted_kind};
ghost use Rattle.gdmo_names.specs.Mentions.Role.{ConditionalPackage as ConditionalRole, MandatoryPackage, Superclass};
ghost use Rattle.gdmo_names.specs.PartViews.{class_placed, member_placed, part_terms};
ghost use Rattle.gdmo_names.specs.Roles.{role_term};
ghost use Rattle.gdmo_names.specs.TargetTables.{AreFound};
ghost use Rattle.gdmo_names.specs.TemplateTerms.TemplateKind.{ClassKind};

use crate::finding_attributes::{find_attribute_role, find_behaviour_clause, find_parameters};
use crate::finding_members::{find_member, member_document};
use crate::finding_packages::{find_package, package_target};
use crate::found::{Body, Finding, Found, Mention, Target};
use crate::parsed::Parsed;
use crate::roles::Role;
use gdmo_classes::class::{ClassReference, ConditionalPackage, ObjectClassTemplate};
use gdmo_classes::creation::{Creation, Deletion};
use gdmo_classes::name_binding::NameBindingTemplate;
use gdmo_classes::package::PackageReference;
use gdmo_classes::template::ClassTemplate;
use gdmo_members::member::MemberTemplate;
use std::alloc::{AllocError, Global};

/// The packages of CHARACTERIZED BY.
fn find_mandatory<'a>(
    finding: &mut Finding<'a>,
    own: &mut Vec<Mention<'a>>,
    references: &'a [PackageReference],
) -> Result<(), AllocError>
    ensures { OnOk result (FindsRow finding.old finding.new own.old.items own.new.items MandatoryPackage
        (reference_terms package_reference references.now)) }
{
    for reference in references.iter() {
        let target = package_target(finding, reference)?;
        own.push(Mention {
            role: Role::MandatoryPackage,
            target,
        })?;
    }
    Ok(())
}

fn find_mandatory_clause<'a>(
    finding: &mut Finding<'a>,
    own: &mut Vec<Mention<'a>>,
    references: &'a Option<Vec<PackageReference>>,
) -> Result<(), AllocError>
    ensures { OnOk result (FindsRow finding.old finding.new own.old.items own.new.items MandatoryPackage
        (clause_terms package_reference references.now)) }
{
    match references {
        Some(references) => find_mandatory(finding, own, references.as_slice()),
        None => Ok(()),
    }
}

/// The packages of CONDITIONAL PACKAGES.
fn find_conditional<'a>(
    finding: &mut Finding<'a>,
    own: &mut Vec<Mention<'a>>,
    references: &'a [ConditionalPackage],
) -> Result<(), AllocError>
    ensures { OnOk result (FindsRow finding.old finding.new own.old.items own.new.items ConditionalRole
        (reference_terms conditional_reference references.now)) }
{
    for reference in references.iter() {
        let target = package_target(finding, &reference.package)?;
        own.push(Mention {
            role: Role::ConditionalPackage,
            target,
        })?;
    }
    Ok(())
}

fn find_conditional_clause<'a>(
    finding: &mut Finding<'a>,
    own: &mut Vec<Mention<'a>>,
    references: &'a Option<Vec<ConditionalPackage>>,
) -> Result<(), AllocError>
    ensures { OnOk result (FindsRow finding.old finding.new own.old.items own.new.items ConditionalRole
        (clause_terms conditional_reference references.now)) }
{
    match references {
        Some(references) => find_conditional(finding, own, references.as_slice()),
        None => Ok(()),
    }
}

/// Finds a class's template and those in line in it.
#[cycle(finding_classes)]
fn find_class<'a>(
    finding: &mut Finding<'a>,
    template: &'a ObjectClassTemplate,
) -> Result<usize, AllocError>
    ensures { IfOk result (λ number. FindsTemplate finding.old finding.new number (class_term template.now)) }
{
    let identifier = Some(&template.registration);
    let number = finding.begin(&template.label, identifier, Body::Class(template))?;
    let mut own = Vec::new(finding.alloc);
    find_superclasses(finding, &mut own, template)?;
    find_mandatory_clause(finding, &mut own, &template.packages)?;
    find_conditional_clause(finding, &mut own, &template.conditional)?;
    finding.end(number, own);
    Ok(number)
}

/// DERIVED FROM of a class.
#[cycle(finding_classes)]
fn find_superclasses<'a>(
    finding: &mut Finding<'a>,
    own: &mut Vec<Mention<'a>>,
    template: &'a ObjectClassTemplate,
) -> Result<(), AllocError>
    ensures { OnOk result (FindsRow finding.old finding.new own.old.items own.new.items Superclass
        (clause_terms class_reference template.now.superclasses)) }
{
    match &template.superclasses {
        None => Ok(()),
        Some(references) => {
            for reference in references.iter() {
                let target = class_target(finding, reference)?;
                own.push(Mention {
                    role: Role::Superclass,
                    target,
                })?;
            }
            Ok(())
        }
    }
}

/// What a reference to a class is.
#[cycle(finding_classes)]
fn class_target<'a>(
    finding: &mut Finding<'a>,
    reference: &'a ClassReference,
) -> Result<Target<'a>, AllocError>
    ensures { IfOk result (λ target. FindsTarget finding.old finding.new target (class_reference reference.now)) }
{
    match reference {
        ClassReference::Label(reference) => Ok(Target::Label(&reference.label)),
        ClassReference::Template(template) => Ok(Target::InLine(find_class(finding, template)?)),
    }
}

/// A class of a name binding.
fn find_bound<'a>(
    finding: &mut Finding<'a>,
    own: &mut Vec<Mention<'a>>,
    role: Role,
    reference: &'a ClassReference,
) -> Result<(), AllocError>
    ensures { wanted_kind (role_term role) ≡ ClassKind → OnOk result (Finds finding.old finding.new own.old.items
        own.new.items (in_reference (class_reference reference.now))
        (mention (role_term role) (class_reference reference.now) ∷ [])) }
{
    let target = class_target(finding, reference)?;
    own.push(Mention { role, target })?;
    Ok(())
}

/// CREATE.
fn find_creation<'a>(
    finding: &mut Finding<'a>,
    own: &mut Vec<Mention<'a>>,
    create: &'a Option<Creation>,
) -> Result<(), AllocError>
    ensures { OnOk result (Finds finding.old finding.new own.old.items own.new.items
        (in_life (creation_term create.now)) (life_mentions (creation_term create.now))) }
{
    match create {
        Some(create) => find_parameters(finding, own, create.parameters.as_slice()),
        None => Ok(()),
    }
}

/// DELETE.
fn find_deletion<'a>(
    finding: &mut Finding<'a>,
    own: &mut Vec<Mention<'a>>,
    delete: &'a Option<Deletion>,
) -> Result<(), AllocError>
    ensures { OnOk result (Finds finding.old finding.new own.old.items own.new.items
        (in_life (deletion_term delete.now)) (life_mentions (deletion_term delete.now))) }
{
    match delete {
        Some(delete) => find_parameters(finding, own, delete.parameters.as_slice()),
        None => Ok(()),
    }
}

fn find_binding<'a>(
    finding: &mut Finding<'a>,
    template: &'a NameBindingTemplate,
) -> Result<usize, AllocError>
    ensures { IfOk result (λ number. FindsTemplate finding.old finding.new number (binding_term template.now)) }
{
    let identifier = Some(&template.registration);
    let number = finding.begin(&template.label, identifier, Body::Binding(template))?;
    let mut own = Vec::new(finding.alloc);
    find_bound(
        finding,
        &mut own,
        Role::SubordinateClass,
        &template.subordinate.class,
    )?;
    find_bound(
        finding,
        &mut own,
        Role::SuperiorClass,
        &template.superior.class,
    )?;
    find_attribute_role(
        finding,
        &mut own,
        Role::NamingAttribute,
        &template.attribute,
    )?;
    find_behaviour_clause(finding, &mut own, &template.behaviour)?;
    find_creation(finding, &mut own, &template.create)?;
    find_deletion(finding, &mut own, &template.delete)?;
    finding.end(number, own);
    Ok(number)
}

/// Finds the template of a class, a package or a name binding that doesn't stand in line, and those in line in it.
fn find_outermost<'a>(
    finding: &mut Finding<'a>,
    template: &'a ClassTemplate,
) -> Result<(), AllocError>
    ensures { OnOk result (AddsPlaced finding.old.templates.items finding.new.templates.items
        (placed_templates (class_placed template.now))) }
{
    match template {
        ClassTemplate::Class(template) => {
            finding.document = template.document;
            find_class(finding, template)?;
            Ok(())
        }
        ClassTemplate::Package(template) => {
            finding.document = template.document;
            find_package(finding, template)?;
            Ok(())
        }
        ClassTemplate::NameBinding(template) => {
            finding.document = template.document;
            find_binding(finding, template)?;
            Ok(())
        }
    }
}

fn find_outermost_member<'a>(
    finding: &mut Finding<'a>,
    template: &'a MemberTemplate,
) -> Result<(), AllocError>
    ensures { OnOk result (AddsPlaced finding.old.templates.items finding.new.templates.items
        (placed_templates (member_placed template.now))) }
{
    finding.document = member_document(template);
    find_member(finding, template)?;
    Ok(())
}

fn find_classes<'a>(
    finding: &mut Finding<'a>,
    templates: &'a [ClassTemplate],
) -> Result<(), AllocError>
    ensures { OnOk result (AddsPlaced finding.old.templates.items finding.new.templates.items
        (flat_map placed_templates (map class_placed templates.now))) }
{
    for template in templates.iter() {
        find_outermost(finding, template)?;
    }
    Ok(())
}

fn find_members<'a>(
    finding: &mut Finding<'a>,
    templates: &'a [MemberTemplate],
) -> Result<(), AllocError>
    ensures { OnOk result (AddsPlaced finding.old.templates.items finding.new.templates.items
        (flat_map placed_templates (map member_placed templates.now))) }
{
    for template in templates.iter() {
        find_outermost_member(finding, template)?;
    }
    Ok(())
}

/// Finds the templates of a set of documents, those in line too: each before those in line in it.
pub fn find_templates(alloc: Global, parts: &Parsed) -> Result<Vec<Found>, AllocError>
    ensures { IfOk result (λ xs. AreFound (part_terms parts.now) xs.items) }
{
    let mut finding = Finding {
        alloc,
        document: 0,
        templates: Vec::new(alloc),
    };
    find_classes(&mut finding, parts.classes.as_slice())?;
    find_members(&mut finding, parts.members.as_slice())?;
    Ok(finding.templates)
}
