//! How many templates of each kind, and types, documents have (docs/PROFILE.md, section 2).

ghost use Rattle.std.specs.Prelude.{◌≡◌, ◌↔◌, IfOk, IsTrue, true};
ghost use Rattle.gdmo_names.specs.FoundViews.{found_view, found_views};
ghost use Rattle.gdmo_names.specs.Roles.{kind_term};
ghost use Rattle.template_compile.specs.Counting.{counted, is_of_kind, kind_count, type_count, types_of};

use crate::counts::Counts;
use asn1_syntax::Module;
use asn1_syntax::module::Assigned;
use document_parts::Doc;
use gdmo_names::Parsed;
use gdmo_names::finding_classes::find_templates;
use gdmo_names::found::{Found, kind_of};
use gdmo_names::roles::TemplateKind;
use std::alloc::{AllocError, Global};

/// Whether a template is of a kind.
fn is_of_kind(template: &Found, kind: TemplateKind) -> bool
    ensures { result ≡ is_of_kind (kind_term kind) (found_view template.now) }
{
    kind_of(&template.body) == kind
}

/// How many templates are of a kind.
fn kind_count(templates: &[Found], kind: TemplateKind) -> u64
    ensures { result ≡ kind_count (kind_term kind) (found_views templates.now) }
{
    let mut count = 0u64;
    for template in templates.iter() {
        if is_of_kind(template, kind) {
            count += 1;
        }
    }
    count
}

/// How many types a module assigns.
fn types_of(text: &Module) -> u64
    ensures { result ≡ types_of text.now }
{
    let mut count = 0u64;
    for assignment in text.assignments.iter() {
        if let Assigned::OfType(_) = assignment.assigned {
            count += 1;
        }
    }
    count
}

/// How many types modules assign.
fn type_count(modules: &[Module]) -> u64
    ensures { result ≡ type_count modules.now }
{
    let mut count = 0u64;
    for each in modules.iter() {
        count = count.saturating_add(types_of(each));
    }
    count
}

/// How many parts of each kind documents have.
pub fn counts_of(alloc: Global, documents: &[Doc], parts: &Parsed) -> Result<Counts, AllocError>
    ensures { IfOk result (λ counts. counts ≡ counted documents.now parts.now) }
{
    let found = find_templates(alloc, parts)?;
    let templates = found.as_slice();
    Ok(Counts {
        documents: documents.len() as u64,
        classes: kind_count(templates, TemplateKind::Class),
        packages: kind_count(templates, TemplateKind::Package),
        attributes: kind_count(templates, TemplateKind::Attribute),
        groups: kind_count(templates, TemplateKind::Group),
        bindings: kind_count(templates, TemplateKind::Binding),
        actions: kind_count(templates, TemplateKind::Action),
        notifications: kind_count(templates, TemplateKind::Notification),
        parameters: kind_count(templates, TemplateKind::Parameter),
        behaviours: kind_count(templates, TemplateKind::Behaviour),
        types: type_count(parts.modules.as_slice()),
    })
}
