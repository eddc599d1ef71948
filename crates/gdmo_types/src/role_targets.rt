//! Which templates a template names in a role (X.722, section 8).

ghost use Rattle.std.specs.Prelude.{◌≡◌, ◌≢◌, ◌++◌, ◌∷◌, [], ℕ, List, Option, IfOk, IsFalse, IsTrue, OnOk, Some};
ghost use Rattle.std.specs.Prelude.{slice_get};
ghost use Rattle.gdmo_names.specs.FoundViews.{found_view};
ghost use Rattle.gdmo_names.specs.InStep.{AreEach};
ghost use Rattle.gdmo_names.specs.Mentions.{Mention as MentionTerm};
ghost use Rattle.gdmo_names.specs.PartTerms.{PartTerms};
ghost use Rattle.gdmo_names.specs.Roles.{role_term};
ghost use Rattle.gdmo_names.specs.TargetTables.{AreFound, AreTargets, IsMention, TellsMention};
ghost use Rattle.gdmo_names.specs.declared.found.Found.{Found as FoundTerm};
ghost use Rattle.gdmo_types.specs.RoleTargets.{AreInRole, AreRoleTargets, IsFirstTarget, MeansNumber, TellsLeads};
ghost use Rattle.gdmo_types.specs.RoleTargets.{IsFirst};

use gdmo_names::found::{Found, Mention};
use gdmo_names::roles::Role;
use std::alloc::{AllocError, Global};

fn is_in_role(mention: &Mention, role: Role) -> bool
    ensures same { IsTrue result → role_term mention.now.role ≡ role_term role }
    ensures other { IsFalse result → role_term mention.now.role ≢ role_term role }
{
    mention.role == role
}

/// The number that a mention means, where it is that of a template.
fn known_number(templates: &[Found], number: Option<usize>) -> Option<usize>
    ensures { (parts : PartTerms) (document : ℕ) (x : MentionTerm) →
        TellsMention parts templates.now document x number → MeansNumber parts templates.now document x result }
{
    match number {
        Some(number) => {
            if number < templates.len() {
                Some(number)
            } else {
                None
            }
        }
        None => None,
    }
}

/// The number that stands at a place.
pub(crate) fn number_at(numbers: &[Option<usize>], place: usize) -> Option<usize>
    ensures { (n : Option ℕ) → slice_get numbers.now place ≡ Some n → result ≡ n }
{
    match numbers.get(place) {
        Some(number) => *number,
        None => None,
    }
}

/// Adds the number of a mention that is in the role.
fn keep_in_role(
    templates: &[Found],
    mention: &Mention,
    number: Option<usize>,
    role: Role,
    own: &mut Vec<Option<usize>>,
) -> Result<(), AllocError>
    ensures { OnOk result ((parts : PartTerms) (document : ℕ) (xs : List MentionTerm) (x : MentionTerm) →
        IsMention templates.now document mention.now x → TellsMention parts templates.now document x number →
        AreInRole (MeansNumber parts templates.now document) (role_term role) xs own.old.items →
        AreInRole (MeansNumber parts templates.now document) (role_term role) (xs ++ x ∷ []) own.new.items) }
{
    if !is_in_role(mention, role) {
        return Ok(());
    }
    own.push(known_number(templates, number))?;
    Ok(())
}

/// The numbers of the mentions in a role.
fn numbers_in_role(
    alloc: Global,
    templates: &[Found],
    mentions: &[Mention],
    numbers: &[Option<usize>],
    role: Role,
) -> Result<Vec<Option<usize>>, AllocError>
    ensures { IfOk result (λ own. (parts : PartTerms) (document : ℕ) (terms : List MentionTerm) →
        AreEach (IsMention templates.now document) mentions.now terms →
        AreEach (TellsMention parts templates.now document) terms numbers.now →
        AreInRole (MeansNumber parts templates.now document) (role_term role) terms own.items) }
{
    let mut own = Vec::new(alloc);
    for (k, mention) in mentions.iter().enumerate() {
        keep_in_role(templates, mention, number_at(numbers, k), role, &mut own)?;
    }
    Ok(own)
}

/// The templates that the references of a template mean in a role, in their order; none where one is missing.
pub fn targets_in_role(
    alloc: Global,
    templates: &[Found],
    targets: &[Vec<Option<usize>>],
    number: usize,
    role: Role,
) -> Result<Vec<Option<usize>>, AllocError>
    ensures in_order { IfOk result (λ own. (parts : PartTerms) (x : FoundTerm) → AreFound parts templates.now →
        AreTargets parts templates.now targets.now → slice_get templates.now number ≡ Some x →
        AreRoleTargets parts templates.now x (role_term role) own.items) }
    ensures leads { IfOk result (λ own. (parts : PartTerms) (x : FoundTerm) → AreFound parts templates.now →
        AreTargets parts templates.now targets.now → slice_get templates.now number ≡ Some x →
        TellsLeads parts templates.now (found_view x) (role_term role) own.items) }
{
    let Some(found) = templates.get(number) else {
        return Ok(Vec::new(alloc));
    };
    let Some(all) = targets.get(number) else {
        return Ok(Vec::new(alloc));
    };
    numbers_in_role(
        alloc,
        templates,
        found.mentions.as_slice(),
        all.as_slice(),
        role,
    )
}

/// The first number among those of the mentions in a role.
fn first_number(
    templates: &[Found],
    mentions: &[Mention],
    numbers: &[Option<usize>],
    role: Role,
) -> Option<usize>
    ensures { (parts : PartTerms) (document : ℕ) (terms : List MentionTerm) →
        AreEach (IsMention templates.now document) mentions.now terms →
        AreEach (TellsMention parts templates.now document) terms numbers.now →
        IsFirst (MeansNumber parts templates.now document) (role_term role) terms result }
{
    for (k, mention) in mentions.iter().enumerate() {
        if is_in_role(mention, role) {
            return known_number(templates, number_at(numbers, k));
        }
    }
    None
}

/// The first template that a template names in a role.
pub fn target_in_role(
    templates: &[Found],
    targets: &[Vec<Option<usize>>],
    number: usize,
    role: Role,
) -> Option<usize>
    ensures { (parts : PartTerms) (x : FoundTerm) → AreFound parts templates.now →
        AreTargets parts templates.now targets.now → slice_get templates.now number ≡ Some x →
        IsFirstTarget parts templates.now x (role_term role) result }
{
    let found = templates.get(number)?;
    let all = targets.get(number)?;
    first_number(templates, found.mentions.as_slice(), all.as_slice(), role)
}
