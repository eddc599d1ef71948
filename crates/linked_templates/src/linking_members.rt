//! Attributes, groups, actions and notifications with the targets of their references (X.722, sections 8.7 to 8.11;
//! docs/PROFILE.md, section 12).

ghost use Rattle.std.specs.Prelude.{◌≡◌, ℕ, IfOk};
ghost use Rattle.linked_templates.specs.LinkedMembers.{AreFields, IsActionOf, IsAttributeOf, IsGroupOf, IsNotificationOf};
ghost use Rattle.linked_templates.specs.LinkedMembers.{IsSyntax};
ghost use Rattle.gdmo_linking.specs.LinkedNames.{IsOptionalName};
ghost use Rattle.gdmo_linking.specs.Linkers.{IsLinker, IsNamed, IsOwn, LinksMention};
ghost use Rattle.linked_templates.specs.MemberTexts.{IsFieldText, LinksField};
ghost use Rattle.gdmo_names.specs.FoundViews.{body_term};
ghost use Rattle.gdmo_names.specs.InStep.{AreAll, AreEach};
ghost use Rattle.gdmo_names.specs.MemberViews.{action_term, attribute_syntax_term, attribute_term, clause_tokens};
ghost use Rattle.gdmo_names.specs.MemberViews.{group_term, information_fields, information_type, notification_term};
ghost use Rattle.gdmo_names.specs.Mentions.{field_mentions};
ghost use Rattle.gdmo_names.specs.PartTerms.{PartTerms, body_of};
ghost use Rattle.gdmo_names.specs.TypeMeaning.{name_list};

use gdmo_linking::linking::{Linker, number_at};
use gdmo_members::attribute::AttributeSyntax;
use gdmo_members::notification::{Field, Information};
use gdmo_members::{ActionTemplate, AttributeTemplate, GroupTemplate, NotificationTemplate};
use gdmo_names::found::Found;
use gdmo_names::roles::Role;
use linked_parts::linked::{
    LinkedAction, LinkedAttribute, LinkedField, LinkedGroup, LinkedHead, LinkedName,
    LinkedNotification, LinkedSyntax,
};
use std::alloc::AllocError;
use token_grammar::Token;

/// Copies of words.
fn copied_words(linker: &Linker, words: &[Token]) -> Result<Vec<Token>, AllocError>
    ensures { IfOk result (λ copies. copies.items ≡ words.now) }
{
    let mut copies = Vec::new(linker.linkage.alloc);
    for word in words.iter() {
        copies.push(linker.token(word)?)?;
    }
    Ok(copies)
}

/// The words of MATCHES FOR.
fn rule_words(linker: &Linker, rules: &Option<Vec<Token>>) -> Result<Vec<Token>, AllocError>
    ensures { IfOk result (λ words. words.items ≡ clause_tokens rules.now) }
{
    match rules {
        Some(rules) => Ok(copied_words(linker, rules.as_slice())?),
        None => Ok(Vec::new(linker.linkage.alloc)),
    }
}

/// What says which syntax an attribute has.
fn linked_syntax(
    linker: &Linker,
    found: &Found,
    targets: &[Option<usize>],
    attribute: &AttributeTemplate,
) -> Result<LinkedSyntax, AllocError>
    ensures { IfOk result (λ x. (parts : PartTerms) → IsOwn parts linker.now found.now targets.now →
        body_term found.now.body ≡ body_of (attribute_term attribute.now) →
        IsSyntax parts found.now.document (attribute_syntax_term attribute.now.syntax) x) }
{
    match &attribute.syntax {
        AttributeSyntax::TypeReference(name) => Ok(LinkedSyntax::OfType(linker.name(name)?)),
        AttributeSyntax::Derived(_) => Ok(LinkedSyntax::OfAttribute(linker.first_in_role(
            found,
            targets,
            Role::BaseAttribute,
        )?)),
    }
}

/// An attribute.
pub fn linked_attribute(
    linker: &Linker,
    found: &Found,
    targets: &[Option<usize>],
    head: LinkedHead,
    attribute: &AttributeTemplate,
) -> Result<LinkedAttribute, AllocError>
    ensures head { IfOk result (λ x. x.head ≡ head) }
    ensures is { IfOk result (λ x. (parts : PartTerms) → IsOwn parts linker.now found.now targets.now →
        body_term found.now.body ≡ body_of (attribute_term attribute.now) →
        IsAttributeOf parts found.now.document (body_term found.now.body) x) }
{
    let syntax = linked_syntax(linker, found, targets, attribute)?;
    let rules = rule_words(linker, &attribute.rules)?;
    Ok(LinkedAttribute {
        head,
        syntax,
        rules,
    })
}

/// An attribute group.
pub fn linked_group(
    linker: &Linker,
    found: &Found,
    targets: &[Option<usize>],
    head: LinkedHead,
    group: &GroupTemplate,
) -> Result<LinkedGroup, AllocError>
    ensures head { IfOk result (λ x. x.head ≡ head) }
    ensures is { IfOk result (λ x. (parts : PartTerms) → IsOwn parts linker.now found.now targets.now →
        body_term found.now.body ≡ body_of (group_term group.now) →
        IsGroupOf parts found.now.document (body_term found.now.body) x) }
{
    let elements = linker.in_role(found, targets, Role::GroupElement)?;
    Ok(LinkedGroup {
        head,
        elements,
        fixed: group.fixed.is_some(),
    })
}

/// An action.
pub fn linked_action(
    linker: &Linker,
    found: &Found,
    head: LinkedHead,
    action: &ActionTemplate,
) -> Result<LinkedAction, AllocError>
    ensures head { IfOk result (λ x. x.head ≡ head) }
    ensures is { IfOk result (λ x. (parts : PartTerms) → IsLinker parts linker.now →
        AreAll (IsNamed parts) (name_list action.now.information) → AreAll (IsNamed parts) (name_list action.now.reply) →
        body_term found.now.body ≡ body_of (action_term action.now) →
        IsActionOf parts found.now.document (body_term found.now.body) x) }
{
    let information = linker.optional_name(&action.information)?;
    let reply = linker.optional_name(&action.reply)?;
    Ok(LinkedAction {
        head,
        confirmed: action.mode.is_some(),
        information,
        reply,
    })
}

/// Fields of a notification, with the places of their attributes.
fn linked_fields(
    linker: &Linker,
    fields: &[Field],
    attributes: &[usize],
) -> Result<Vec<LinkedField>, AllocError>
    ensures { IfOk result (λ xs. (parts : PartTerms) (document : ℕ) →
        AreEach (LinksField parts document) fields.now attributes.now →
        AreEach (IsFieldText parts document) fields.now xs.items) }
{
    let mut linked = Vec::new(linker.linkage.alloc);
    for (k, field) in fields.iter().enumerate() {
        let name = linker.token(&field.name)?;
        linked.push(LinkedField {
            name,
            attribute: number_at(attributes, k),
        })?;
    }
    Ok(linked)
}

/// The fields of what a notification tells, with the places of their attributes.
fn information_fields(
    linker: &Linker,
    information: &Option<Information>,
    attributes: &[usize],
) -> Result<Vec<LinkedField>, AllocError>
    ensures { IfOk result (λ xs. (parts : PartTerms) (document : ℕ) →
        AreEach (LinksMention parts document) (field_mentions (information_fields information.now)) attributes.now →
        AreFields parts document (information_fields information.now) xs.items) }
{
    match information {
        Some(information) => match &information.fields {
            Some(fields) => {
                let own = fields.as_slice();
                Ok(linked_fields(linker, own, attributes)?)
            }
            None => Ok(Vec::new(linker.linkage.alloc)),
        },
        None => Ok(Vec::new(linker.linkage.alloc)),
    }
}

/// The type of what a notification tells.
fn information_name(
    linker: &Linker,
    information: &Option<Information>,
) -> Result<Option<LinkedName>, AllocError>
    ensures { IfOk result (λ x. (parts : PartTerms) → IsLinker parts linker.now →
        AreAll (IsNamed parts) (name_list (information_type information.now)) →
        IsOptionalName parts (information_type information.now) x) }
{
    match information {
        Some(information) => Ok(Some(linker.name(&information.syntax)?)),
        None => Ok(None),
    }
}

/// A notification.
pub fn linked_notification(
    linker: &Linker,
    found: &Found,
    targets: &[Option<usize>],
    head: LinkedHead,
    notification: &NotificationTemplate,
) -> Result<LinkedNotification, AllocError>
    ensures head { IfOk result (λ x. x.head ≡ head) }
    ensures is { IfOk result (λ x. (parts : PartTerms) → IsOwn parts linker.now found.now targets.now →
        body_term found.now.body ≡ body_of (notification_term notification.now) →
        IsNotificationOf parts found.now.document (body_term found.now.body) x) }
{
    let information = information_name(linker, &notification.information)?;
    let attributes = linker.in_role(found, targets, Role::FieldAttribute)?;
    let places = attributes.as_slice();
    let fields = information_fields(linker, &notification.information, places)?;
    let reply = linker.optional_name(&notification.reply)?;
    Ok(LinkedNotification {
        head,
        information,
        fields,
        reply,
    })
}
