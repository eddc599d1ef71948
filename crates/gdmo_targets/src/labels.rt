//! What labels mean, and which template each reference means (X.722, section 8.2; docs/PROFILE.md, section 12).

ghost use Rattle.std.specs.Prelude.{◌≡◌, ◌↔◌, ◌&&◌, ℕ, List, true, None, Some, IfOk, IsTrue, OnOk, option_map};
ghost use Rattle.std.specs.Prelude.{if◌then◌else◌};
ghost use Rattle.asn1_names.specs.FirstNames.{found};
ghost use Rattle.asn1_names.specs.NameMeaning.{is_called};
ghost use Rattle.gdmo_names.specs.FaultSets.{LabelledTwice, MeaningFaults, Notes, ReferenceFaults};
ghost use Rattle.gdmo_names.specs.FaultSets.{FaultsOfTemplates, TellsMeant, TemplateFaults};
ghost use Rattle.gdmo_names.specs.FoundViews.{AreLabels, AreTemplates, IsReference, found_term};
ghost use Rattle.gdmo_names.specs.FoundViews.{found_view, found_views, numbered, target_number};
ghost use Rattle.gdmo_names.specs.LabelMeaning.{reference_token, stands_before};
ghost use Rattle.gdmo_names.specs.LabelSteps.{DoubleBy, comes_behind, comes_first};
ghost use Rattle.gdmo_names.specs.Mentions.{must_be_registered, wanted_kind};
ghost use Rattle.gdmo_names.specs.PartTerms.{PartTerms, identifier_of, kind_of};
ghost use Rattle.gdmo_names.specs.Roles.{role_term};
ghost use Rattle.gdmo_names.specs.TargetTables.{AreFound, AreTargets, HasMentions, TellsTargets};
ghost use Rattle.gdmo_names.specs.TemplateTerms.{ReferenceTerm};

use gdmo_names::first_fault::{FaultKind, Faults};
use gdmo_names::found::{Found, Mention, Target, kind_of};
use gdmo_names::roles::Role;
use indexmap::IndexMap;
use std::alloc::{AllocError, Global};
use token_grammar::Token;

/// Whether a label stands before another one: by the document, and then by its place.
fn stands_before(one: &Found, other: &Found) -> bool
    ensures { result ≡ stands_before (found_view one.now) (found_view other.now) }
{
    if one.document != other.document {
        return one.document < other.document;
    }
    one.label.at < other.label.at
}

/// Whether a template is the first of its label beside the one that was first so far.
fn comes_first(template: &Found, first: Option<&Found>) -> bool
    ensures { result ≡ comes_first (found_view template.now) (option_map (λ x. found_view x.now) first.entry) }
{
    match first {
        Some(first) => stands_before(template, first),
        None => true,
    }
}

/// Whether it stands behind that one.
fn comes_behind(template: &Found, first: Option<&Found>) -> bool
    ensures { result ≡ comes_behind (found_view template.now) (option_map (λ x. found_view x.now) first.entry) }
{
    match first {
        Some(first) => stands_before(first, template),
        None => false,
    }
}

/// The template that has a number.
pub(crate) fn numbered<'a, 't>(
    templates: &'t [Found<'a>],
    number: Option<usize>,
) -> Option<&'t Found<'a>>
    ensures { option_map (λ x. found_view x.now) result ≡ numbered (found_views templates.now) number }
{
    match number {
        Some(number) => templates.get(number),
        None => None,
    }
}

/// Tells a table a label: it means this template, unless an earlier one has it.
fn keep_label<'a>(
    templates: &[Found<'a>],
    number: usize,
    template: &Found<'a>,
    table: &mut IndexMap<&'a [u8], usize>,
) -> Result<(), AllocError>
    ensures { OnOk result ((label : List ℕ) → found table.new label ≡ (if is_called label template.now.label.now
        && comes_first (found_view template.now) (numbered (found_views templates.now)
        (found table.old template.now.label.now.text)) then Some number else found table.old label)) }
{
    let label = template.label.text.as_slice();
    let first = numbered(templates, table.get(label).copied());
    if comes_first(template, first) {
        table.insert(label, number)?;
    }
    Ok(())
}

/// Which template each label means: the first one that has it, by document and then by place, among all templates of
/// all documents, whatever their kinds (X.722, section 8.2).
pub fn label_table<'a>(
    alloc: Global,
    templates: &[Found<'a>],
) -> Result<IndexMap<&'a [u8], usize>, AllocError>
    ensures { IfOk result (λ table. (parts : PartTerms) → AreTemplates parts templates.now →
        AreLabels parts templates.now table) }
{
    let mut table: IndexMap<&'a [u8], usize> = IndexMap::new(alloc);
    for (number, template) in templates.iter().enumerate() {
        keep_label(templates, number, template, &mut table)?;
    }
    Ok(table)
}

/// Notes a label that stands behind the first of its name.
fn note_double_label<'a>(
    templates: &[Found<'a>],
    labels: &IndexMap<&'a [u8], usize>,
    template: &Found<'a>,
    faults: &mut Faults,
)
    ensures { Notes (DoubleBy (λ label. numbered (found_views templates.now) (found labels.now label))
        (found_view template.now)) faults.old.first faults.new.first }
{
    let number = labels.get(template.label.text.as_slice()).copied();
    if comes_behind(template, numbered(templates, number)) {
        faults.note(template.document, template.label, FaultKind::DoubleLabel);
    }
}

/// Notes the labels of which an earlier template has the same, each at the later one.
pub fn note_double_labels<'a>(
    templates: &[Found<'a>],
    labels: &IndexMap<&'a [u8], usize>,
    faults: &mut Faults,
)
    ensures { (parts : PartTerms) → AreTemplates parts templates.now → AreLabels parts templates.now labels.now →
        Notes (LabelledTwice parts) faults.old.first faults.new.first }
{
    for template in templates.iter() {
        note_double_label(templates, labels, template, faults);
    }
}

/// The token of a reference: its label, or that of the template in line.
pub fn reference_token<'a>(templates: &[Found<'a>], target: &Target<'a>) -> Option<&'a Token>
    ensures { (document : ℕ) (reference : ReferenceTerm) → IsReference templates.now document target.now reference →
        option_map (λ x. x.now) result ≡ Some (reference_token reference) }
{
    match target {
        Target::Label(label) => Some(*label),
        Target::InLine(number) => match templates.get(*number) {
            Some(found) => Some(found.label),
            None => None,
        },
    }
}

/// The number of the template that a reference means.
fn target_number<'a>(labels: &IndexMap<&'a [u8], usize>, target: &Target<'a>) -> Option<usize>
    ensures { result ≡ target_number labels.now target.now }
{
    match target {
        Target::Label(label) => labels.get(label.text.as_slice()).copied(),
        Target::InLine(number) => Some(*number),
    }
}

/// Whether a template is of the kind that is wanted.
fn is_wanted(template: &Found, role: Role) -> bool
    ensures { (IsTrue result) ↔ (kind_of (found_term template.now) ≡ wanted_kind (role_term role)) }
{
    kind_of(&template.body) == role.wanted_kind()
}

/// Whether a template isn't registered, and has to be.
fn lacks_identifier(template: &Found, role: Role) -> bool
    ensures { (IsTrue result) ↔ ((must_be_registered (role_term role) ≡ true)
        × (identifier_of (found_term template.now) ≡ None)) }
{
    role.must_be_registered() && template.identifier.is_none()
}

/// Whether a template that a token means is of the kind that is wanted; else it is a fault, and so is one that must be
/// registered and isn't.
fn is_meant(template: &Found, role: Role, document: u32, token: &Token, faults: &mut Faults) -> bool
    ensures wanted { (IsTrue result) ↔ (kind_of (found_term template.now) ≡ wanted_kind (role_term role)) }
    ensures faults { Notes (MeaningFaults (role_term role) (found_term template.now) document token.now.at)
        faults.old.first faults.new.first }
{
    if !is_wanted(template, role) {
        faults.note(document, token, FaultKind::WrongKind);
        return false;
    }
    if lacks_identifier(template, role) {
        faults.note(document, token, FaultKind::WrongKind);
    }
    true
}

/// The template that a reference in a document means, where it is of the kind that is wanted; else a fault. One that
/// must be registered and isn't is a fault too.
pub fn meant_template<'a>(
    templates: &[Found<'a>],
    labels: &IndexMap<&'a [u8], usize>,
    document: u32,
    mention: &Mention<'a>,
    faults: &mut Faults,
) -> Option<usize>
    ensures means { (parts : PartTerms) (reference : ReferenceTerm) → AreTemplates parts templates.now →
        AreLabels parts templates.now labels.now → IsReference templates.now document mention.now.target reference →
        TellsMeant parts document (role_term mention.now.role) reference
        (numbered (found_views templates.now) result) }
    ensures faults { (parts : PartTerms) (reference : ReferenceTerm) → AreTemplates parts templates.now →
        AreLabels parts templates.now labels.now → IsReference templates.now document mention.now.target reference →
        Notes (ReferenceFaults parts document (role_term mention.now.role) reference) faults.old.first
        faults.new.first }
{
    let token = reference_token(templates, &mention.target)?;
    let number = target_number(labels, &mention.target);
    match numbered(templates, number) {
        None => {
            faults.note(document, token, FaultKind::UnknownLabel);
            None
        }
        Some(template) => {
            if is_meant(template, mention.role, document, token, faults) {
                number
            } else {
                None
            }
        }
    }
}

/// The templates that the references of a template mean, in the order of its mentions; none where one is missing.
fn own_targets<'a>(
    alloc: Global,
    templates: &[Found<'a>],
    labels: &IndexMap<&'a [u8], usize>,
    found: &Found<'a>,
    faults: &mut Faults,
) -> Result<Vec<Option<usize>>, AllocError>
    ensures { IfOk result (λ own. (parts : PartTerms) → AreTemplates parts templates.now →
        AreLabels parts templates.now labels.now → HasMentions templates.now found.now →
        (TellsTargets parts templates.now found.now own)
        × Notes (TemplateFaults parts (found_view found.now)) faults.old.first faults.new.first) }
{
    let mut own = Vec::new(alloc);
    for mention in found.mentions.iter() {
        own.push(meant_template(templates, labels, found.document, mention, faults))?;
    }
    Ok(own)
}

/// The templates that the references of each template mean, in the order of its mentions; none where one is missing.
pub fn targets_of<'a>(
    alloc: Global,
    templates: &[Found<'a>],
    labels: &IndexMap<&'a [u8], usize>,
    faults: &mut Faults,
) -> Result<Vec<Vec<Option<usize>>>, AllocError>
    ensures { IfOk result (λ targets. (parts : PartTerms) → AreFound parts templates.now →
        AreLabels parts templates.now labels.now → (AreTargets parts templates.now targets.items)
        × Notes (FaultsOfTemplates parts) faults.old.first faults.new.first) }
{
    let mut targets = Vec::new(alloc);
    for found in templates.iter() {
        targets.push(own_targets(alloc, templates, labels, found, faults)?)?;
    }
    Ok(targets)
}
