//! The templates of behaviours, attributes and parameters, and those that stand in line in them (X.722, sections 8.5, 8.7
//! and 8.9).

ghost use Rattle.std.specs.Prelude.{◌≡◌, [], ◌∷◌, IfOk, OnOk};
ghost use Rattle.gdmo_names.specs.DocumentTemplates.{in_reference, in_syntax};
ghost use Rattle.gdmo_names.specs.FindingSteps.{Finds, FindsRow, FindsTarget, FindsTemplate};
ghost use Rattle.gdmo_names.specs.MemberViews.{attribute_reference, attribute_syntax_term, attribute_term};
ghost use Rattle.gdmo_names.specs.MemberViews.{behaviour_reference, behaviour_term, clause_terms};
ghost use Rattle.gdmo_names.specs.MemberViews.{parameter_reference, parameter_syntax_term, parameter_term};
ghost use Rattle.gdmo_names.specs.MemberViews.{reference_terms};
ghost use Rattle.gdmo_names.specs.Mentions.{mention, syntax_mentions, wanted_kind};
ghost use Rattle.gdmo_names.specs.Mentions.Role.{BaseAttribute, OfBehaviour, OfParameter, ParameterAttribute};
ghost use Rattle.gdmo_names.specs.Roles.{role_term};
ghost use Rattle.gdmo_names.specs.TemplateTerms.TemplateKind.{AttributeKind};

use crate::found::{Body, Finding, Mention, Target};
use crate::roles::Role;
use gdmo_members::attribute::{AttributeReference, AttributeSyntax, AttributeTemplate};
use gdmo_members::behaviour::{BehaviourReference, BehaviourTemplate};
use gdmo_members::parameter::{ParameterReference, ParameterSyntax, ParameterTemplate};
use std::alloc::AllocError;

/// Finds a behaviour's template.
pub fn find_behaviour<'a>(
    finding: &mut Finding<'a>,
    template: &'a BehaviourTemplate,
) -> Result<usize, AllocError>
    ensures { IfOk result (λ number. FindsTemplate finding.old finding.new number (behaviour_term template.now)) }
{
    finding.begin(&template.label, None, Body::Behaviour(template))
}

/// What a reference to a behaviour is.
pub fn behaviour_target<'a>(
    finding: &mut Finding<'a>,
    reference: &'a BehaviourReference,
) -> Result<Target<'a>, AllocError>
    ensures { IfOk result (λ target. FindsTarget finding.old finding.new target (behaviour_reference reference.now)) }
{
    match reference {
        BehaviourReference::Label(reference) => Ok(Target::Label(&reference.label)),
        BehaviourReference::Template(template) => Ok(Target::InLine(find_behaviour(
            finding, template,
        )?)),
    }
}

/// The behaviours in a row.
pub fn find_behaviours<'a>(
    finding: &mut Finding<'a>,
    own: &mut Vec<Mention<'a>>,
    references: &'a [BehaviourReference],
) -> Result<(), AllocError>
    ensures { OnOk result (FindsRow finding.old finding.new own.old.items own.new.items OfBehaviour
        (reference_terms behaviour_reference references.now)) }
{
    for reference in references.iter() {
        let target = behaviour_target(finding, reference)?;
        own.push(Mention {
            role: Role::OfBehaviour,
            target,
        })?;
    }
    Ok(())
}

/// The behaviours of a clause.
pub fn find_behaviour_clause<'a>(
    finding: &mut Finding<'a>,
    own: &mut Vec<Mention<'a>>,
    references: &'a Option<Vec<BehaviourReference>>,
) -> Result<(), AllocError>
    ensures { OnOk result (FindsRow finding.old finding.new own.old.items own.new.items OfBehaviour
        (clause_terms behaviour_reference references.now)) }
{
    match references {
        Some(references) => find_behaviours(finding, own, references.as_slice()),
        None => Ok(()),
    }
}

/// Finds an attribute's template and those in line in it.
#[cycle(finding_attributes)]
pub fn find_attribute<'a>(
    finding: &mut Finding<'a>,
    template: &'a AttributeTemplate,
) -> Result<usize, AllocError>
    ensures { IfOk result (λ number. FindsTemplate finding.old finding.new number (attribute_term template.now)) }
{
    let identifier = template.registration.as_ref();
    let number = finding.begin(&template.label, identifier, Body::Attribute(template))?;
    let mut own = Vec::new(finding.alloc);
    find_base(finding, &mut own, &template.syntax)?;
    find_behaviour_clause(finding, &mut own, &template.behaviour)?;
    find_own_parameters(finding, &mut own, template)?;
    finding.end(number, own);
    Ok(number)
}

/// DERIVED FROM of an attribute.
#[cycle(finding_attributes)]
fn find_base<'a>(
    finding: &mut Finding<'a>,
    own: &mut Vec<Mention<'a>>,
    syntax: &'a AttributeSyntax,
) -> Result<(), AllocError>
    ensures { OnOk result (Finds finding.old finding.new own.old.items own.new.items
        (in_syntax (attribute_syntax_term syntax.now))
        (syntax_mentions BaseAttribute (attribute_syntax_term syntax.now))) }
{
    match syntax {
        AttributeSyntax::TypeReference(_) => Ok(()),
        AttributeSyntax::Derived(reference) => {
            let target = attribute_target(finding, reference)?;
            own.push(Mention {
                role: Role::BaseAttribute,
                target,
            })?;
            Ok(())
        }
    }
}

/// PARAMETERS of an attribute.
#[cycle(finding_attributes)]
fn find_own_parameters<'a>(
    finding: &mut Finding<'a>,
    own: &mut Vec<Mention<'a>>,
    template: &'a AttributeTemplate,
) -> Result<(), AllocError>
    ensures { OnOk result (FindsRow finding.old finding.new own.old.items own.new.items OfParameter
        (clause_terms parameter_reference template.now.parameters)) }
{
    match &template.parameters {
        None => Ok(()),
        Some(references) => {
            for reference in references.iter() {
                let target = parameter_target(finding, reference)?;
                own.push(Mention {
                    role: Role::OfParameter,
                    target,
                })?;
            }
            Ok(())
        }
    }
}

/// What a reference to an attribute is.
#[cycle(finding_attributes)]
pub fn attribute_target<'a>(
    finding: &mut Finding<'a>,
    reference: &'a AttributeReference,
) -> Result<Target<'a>, AllocError>
    ensures { IfOk result (λ target. FindsTarget finding.old finding.new target (attribute_reference reference.now)) }
{
    match reference {
        AttributeReference::Label(reference) => Ok(Target::Label(&reference.label)),
        AttributeReference::Template(template) => Ok(Target::InLine(find_attribute(
            finding, template,
        )?)),
    }
}

/// Finds a parameter's template and those in line in it.
#[cycle(finding_attributes)]
pub fn find_parameter<'a>(
    finding: &mut Finding<'a>,
    template: &'a ParameterTemplate,
) -> Result<usize, AllocError>
    ensures { IfOk result (λ number. FindsTemplate finding.old finding.new number (parameter_term template.now)) }
{
    let identifier = template.registration.as_ref();
    let number = finding.begin(&template.label, identifier, Body::Parameter(template))?;
    let mut own = Vec::new(finding.alloc);
    find_parameter_attribute(finding, &mut own, &template.syntax)?;
    find_behaviour_clause(finding, &mut own, &template.behaviour)?;
    finding.end(number, own);
    Ok(number)
}

/// ATTRIBUTE of a parameter.
#[cycle(finding_attributes)]
fn find_parameter_attribute<'a>(
    finding: &mut Finding<'a>,
    own: &mut Vec<Mention<'a>>,
    syntax: &'a ParameterSyntax,
) -> Result<(), AllocError>
    ensures { OnOk result (Finds finding.old finding.new own.old.items own.new.items
        (in_syntax (parameter_syntax_term syntax.now))
        (syntax_mentions ParameterAttribute (parameter_syntax_term syntax.now))) }
{
    match syntax {
        ParameterSyntax::TypeReference(_) => Ok(()),
        ParameterSyntax::Attribute(reference) => {
            let target = attribute_target(finding, reference)?;
            own.push(Mention {
                role: Role::ParameterAttribute,
                target,
            })?;
            Ok(())
        }
    }
}

/// What a reference to a parameter is.
#[cycle(finding_attributes)]
pub fn parameter_target<'a>(
    finding: &mut Finding<'a>,
    reference: &'a ParameterReference,
) -> Result<Target<'a>, AllocError>
    ensures { IfOk result (λ target. FindsTarget finding.old finding.new target (parameter_reference reference.now)) }
{
    match reference {
        ParameterReference::Label(reference) => Ok(Target::Label(&reference.label)),
        ParameterReference::Template(template) => Ok(Target::InLine(find_parameter(
            finding, template,
        )?)),
    }
}

/// The parameters in a row.
pub fn find_parameters<'a>(
    finding: &mut Finding<'a>,
    own: &mut Vec<Mention<'a>>,
    references: &'a [ParameterReference],
) -> Result<(), AllocError>
    ensures { OnOk result (FindsRow finding.old finding.new own.old.items own.new.items OfParameter
        (reference_terms parameter_reference references.now)) }
{
    for reference in references.iter() {
        let target = parameter_target(finding, reference)?;
        own.push(Mention {
            role: Role::OfParameter,
            target,
        })?;
    }
    Ok(())
}

/// The parameters of a clause.
pub fn find_parameter_clause<'a>(
    finding: &mut Finding<'a>,
    own: &mut Vec<Mention<'a>>,
    references: &'a Option<Vec<ParameterReference>>,
) -> Result<(), AllocError>
    ensures { OnOk result (FindsRow finding.old finding.new own.old.items own.new.items OfParameter
        (clause_terms parameter_reference references.now)) }
{
    match references {
        Some(references) => find_parameters(finding, own, references.as_slice()),
        None => Ok(()),
    }
}

/// One attribute, in this role.
pub fn find_attribute_role<'a>(
    finding: &mut Finding<'a>,
    own: &mut Vec<Mention<'a>>,
    role: Role,
    reference: &'a AttributeReference,
) -> Result<(), AllocError>
    ensures { wanted_kind (role_term role) ≡ AttributeKind → OnOk result (Finds finding.old finding.new own.old.items
        own.new.items (in_reference (attribute_reference reference.now))
        (mention (role_term role) (attribute_reference reference.now) ∷ [])) }
{
    let target = attribute_target(finding, reference)?;
    own.push(Mention { role, target })?;
    Ok(())
}

/// The attributes in a row, each in this role.
pub fn find_attributes<'a>(
    finding: &mut Finding<'a>,
    own: &mut Vec<Mention<'a>>,
    role: Role,
    references: &'a [AttributeReference],
) -> Result<(), AllocError>
    ensures { wanted_kind (role_term role) ≡ AttributeKind → OnOk result (FindsRow finding.old finding.new
        own.old.items own.new.items (role_term role) (reference_terms attribute_reference references.now)) }
{
    for reference in references.iter() {
        let target = attribute_target(finding, reference)?;
        own.push(Mention { role, target })?;
    }
    Ok(())
}
