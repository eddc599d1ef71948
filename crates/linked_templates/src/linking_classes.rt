//! Classes and name bindings with the targets of their references (X.722, sections 8.3 and 8.6; docs/PROFILE.md, section
//! 12).

ghost use Rattle.std.specs.Prelude.{◌≡◌, ◌++◌, ◌∷◌, IfOk, OnOk};
ghost use Rattle.gdmo_classes.specs.declared.class.ObjectClassTemplate.{ObjectClassTemplate};
ghost use Rattle.linked_templates.specs.LinkedMembers.{IsBindingOf, IsLife};
ghost use Rattle.linked_templates.specs.LinkedTemplates.{IsClassOf};
ghost use Rattle.gdmo_linking.specs.Linkers.{IsOwn};
ghost use Rattle.gdmo_names.specs.ClassViews.{binding_term, class_term, creation_term, deletion_term, modifier_words};
ghost use Rattle.gdmo_names.specs.ClassViews.{second_word, word_list};
ghost use Rattle.gdmo_names.specs.FoundViews.{body_term};
ghost use Rattle.gdmo_names.specs.PartTerms.{PartTerms, body_of};

use gdmo_classes::creation::{CreateModifiers, Creation, Deletion, FurtherModifier, ModifierRow};
use gdmo_classes::name_binding::NameBindingTemplate;
use gdmo_linking::linking::Linker;
use gdmo_names::found::Found;
use gdmo_names::roles::Role;
use linked_parts::linked::{LinkedBinding, LinkedClass, LinkedHead};
use std::alloc::AllocError;
use token_grammar::Token;

/// A class.
pub fn linked_class(
    linker: &Linker,
    found: &Found,
    targets: &[Option<usize>],
    head: LinkedHead,
) -> Result<LinkedClass, AllocError>
    ensures head { IfOk result (λ x. x.head ≡ head) }
    ensures is { IfOk result (λ x. (parts : PartTerms) (text : ObjectClassTemplate) →
        IsOwn parts linker.now found.now targets.now → body_term found.now.body ≡ body_of (class_term text) →
        IsClassOf parts found.now.document (body_term found.now.body) x) }
{
    let superclasses = linker.in_role(found, targets, Role::Superclass)?;
    let mandatory = linker.in_role(found, targets, Role::MandatoryPackage)?;
    let conditional = linker.in_role(found, targets, Role::ConditionalPackage)?;
    Ok(LinkedClass {
        head,
        superclasses,
        mandatory,
        conditional,
    })
}

/// Adds the word of a further modifier, where one stands.
fn push_second(
    linker: &Linker,
    second: &Option<FurtherModifier>,
    words: &mut Vec<Token>,
) -> Result<(), AllocError>
    ensures { OnOk result (words.new.items ≡ words.old.items ++ second_word second.now) }
{
    match second {
        Some(second) => {
            let word = linker.token(&second.word)?;
            words.push(word)?;
            Ok(())
        }
        None => Ok(()),
    }
}

/// Adds the words of modifiers.
fn push_modifiers(
    linker: &Linker,
    row: &ModifierRow,
    words: &mut Vec<Token>,
) -> Result<(), AllocError>
    ensures { OnOk result (words.new.items ≡ words.old.items ++ row.now.first ∷ second_word row.now.second) }
{
    let first = linker.token(&row.first)?;
    words.push(first)?;
    push_second(linker, &row.second, words)
}

/// The words of the modifiers behind CREATE.
fn modifier_words(
    linker: &Linker,
    modifiers: &Option<CreateModifiers>,
) -> Result<Vec<Token>, AllocError>
    ensures { IfOk result (λ words. words.items ≡ modifier_words modifiers.now) }
{
    let mut words = Vec::new(linker.linkage.alloc);
    match modifiers {
        Some(CreateModifiers::ReferenceFirst(row)) => push_modifiers(linker, row, &mut words)?,
        Some(CreateModifiers::NamingFirst(row)) => push_modifiers(linker, row, &mut words)?,
        None => {}
    }
    Ok(words)
}

/// The words behind CREATE.
fn create_words(
    linker: &Linker,
    create: &Option<Creation>,
) -> Result<Option<Vec<Token>>, AllocError>
    ensures { IfOk result (λ words. IsLife (creation_term create.now) words) }
{
    match create {
        Some(create) => Ok(Some(modifier_words(linker, &create.modifiers)?)),
        None => Ok(None),
    }
}

/// A word, where it stands.
fn word_list(linker: &Linker, word: &Option<Token>) -> Result<Vec<Token>, AllocError>
    ensures { IfOk result (λ words. words.items ≡ word_list word.now) }
{
    let mut words = Vec::new(linker.linkage.alloc);
    if let Some(word) = word {
        words.push(linker.token(word)?)?;
    }
    Ok(words)
}

/// The word behind DELETE.
fn delete_words(
    linker: &Linker,
    delete: &Option<Deletion>,
) -> Result<Option<Vec<Token>>, AllocError>
    ensures { IfOk result (λ words. IsLife (deletion_term delete.now) words) }
{
    match delete {
        Some(delete) => Ok(Some(word_list(linker, &delete.modifier)?)),
        None => Ok(None),
    }
}

/// A name binding.
pub fn linked_binding(
    linker: &Linker,
    found: &Found,
    targets: &[Option<usize>],
    head: LinkedHead,
    binding: &NameBindingTemplate,
) -> Result<LinkedBinding, AllocError>
    ensures head { IfOk result (λ x. x.head ≡ head) }
    ensures is { IfOk result (λ x. (parts : PartTerms) → IsOwn parts linker.now found.now targets.now →
        body_term found.now.body ≡ body_of (binding_term binding.now) →
        IsBindingOf parts found.now.document (body_term found.now.body) x) }
{
    let subordinate = linker.first_in_role(found, targets, Role::SubordinateClass)?;
    let superior = linker.first_in_role(found, targets, Role::SuperiorClass)?;
    let attribute = linker.first_in_role(found, targets, Role::NamingAttribute)?;
    let create = create_words(linker, &binding.create)?;
    let delete = delete_words(linker, &binding.delete)?;
    Ok(LinkedBinding {
        head,
        subordinate,
        subordinate_subclasses: binding.subordinate.subclasses.is_some(),
        superior,
        superior_subclasses: binding.superior.subclasses.is_some(),
        attribute,
        create,
        delete,
    })
}
