//! The first names with which the identifiers of templates and modules begin (X.660, annex A; docs/PROFILE.md, section
//! 12).

ghost use Rattle.std.specs.Prelude.{◌≡◌, map, Some};
ghost use Rattle.gdmo_names.specs.FoundViews.{AreTemplates, found_view};
ghost use Rattle.gdmo_names.specs.MemberViews.{identifier_term};
ghost use Rattle.gdmo_names.specs.PartTerms.{PartTerms};
ghost use Rattle.gdmo_names.specs.PartViews.{identifier_list, imported_identifiers, module_part};
ghost use Rattle.gdmo_begun_names.specs.BegunMarks.{AnyFirst, Marks};
ghost use Rattle.gdmo_begun_names.specs.StatedNames.{FirstsOfModule, FirstsOfModules, StatedFirst, StatedFirsts};
ghost use Rattle.gdmo_begun_names.specs.StatedNames.{TemplateFirst};

use crate::begun_names::BegunNames;
use asn1_syntax::module::{Imports, Module};
use gdmo_names::found::Found;
use token_grammar::object_identifier::{FirstArc, ObjectIdentifier};

/// Marks the name with which an identifier begins.
fn mark_identifier(identifier: &ObjectIdentifier, names: &mut BegunNames)
    ensures { Marks (StatedFirst (identifier_term identifier.now)) names.old names.new }
{
    match &identifier.first {
        FirstArc::OfArc(_) => {}
        FirstArc::Name(name) => names.mark(name),
    }
}

/// The same of a module's identifier, where it has one.
fn mark_maybe(identifier: &Option<ObjectIdentifier>, names: &mut BegunNames)
    ensures { Marks (AnyFirst StatedFirst (identifier_list identifier.now)) names.old names.new }
{
    if let Some(identifier) = identifier {
        mark_identifier(identifier, names);
    }
}

/// Marks the names with which the identifiers of the modules begin from which one imports.
fn mark_imports(imports: &Imports, names: &mut BegunNames)
    ensures { Marks (AnyFirst StatedFirst (imported_identifiers (Some imports.now))) names.old names.new }
{
    mark_maybe(&imports.first.identifier, names);
    for other in imports.others.iter() {
        mark_maybe(&other.identifier, names);
    }
}

/// The same, where it imports.
fn mark_maybe_imports(imports: &Option<Imports>, names: &mut BegunNames)
    ensures { Marks (AnyFirst StatedFirst (imported_identifiers imports.now)) names.old names.new }
{
    if let Some(imports) = imports {
        mark_imports(imports, names);
    }
}

/// Marks the names with which the identifiers of a module begin.
fn mark_module(text: &Module, names: &mut BegunNames)
    ensures { Marks (FirstsOfModule (module_part text.now)) names.old names.new }
{
    mark_maybe(&text.identifier, names);
    mark_maybe_imports(&text.imports, names);
}

/// Marks the names with which the identifiers of modules begin, and of those from which they import.
fn mark_modules(modules: &[Module], names: &mut BegunNames)
    ensures { Marks (FirstsOfModules modules.now) names.old names.new }
{
    for text in modules.iter() {
        mark_module(text, names);
    }
}

/// Marks the name with which the identifier of a template begins.
fn mark_template(found: &Found, names: &mut BegunNames)
    ensures { Marks (TemplateFirst (found_view found.now)) names.old names.new }
{
    if let Some(identifier) = found.identifier {
        mark_identifier(identifier, names);
    }
}

/// Marks the names with which the identifiers of templates begin.
fn mark_templates(templates: &[Found], names: &mut BegunNames)
    ensures { Marks (AnyFirst (λ found. TemplateFirst (found_view found)) templates.now) names.old names.new }
{
    for found in templates.iter() {
        mark_template(found, names);
    }
}

/// Marks the first names with which the identifiers of modules and templates begin.
pub fn mark_identifiers(modules: &[Module], templates: &[Found], names: &mut BegunNames)
    ensures { (parts : PartTerms) → parts.modules ≡ map module_part modules.now → AreTemplates parts templates.now →
        Marks (StatedFirsts parts) names.old names.new }
{
    mark_modules(modules, names);
    mark_templates(templates, names);
}
