//! The first names in a value of a type that is meant (X.680, sections 17 to 32; docs/PROFILE.md, section 12).

ghost use Rattle.std.specs.Prelude.{OnOk};
ghost use Rattle.asn1_names.specs.CodeMeanings.{Means};
ghost use Rattle.asn1_names.specs.NameMeaning.{Meaning as Meant};
ghost use Rattle.asn1_names.specs.ResolvedTypes.{HasSyntax};
ghost use Rattle.asn1_names.specs.TermViews.{module_terms};
ghost use Rattle.asn1_values_syntax.specs.ValueTrees.{value_tree};
ghost use Rattle.gdmo_begun_names.specs.BegunMarks.{Marks};
ghost use Rattle.begun_values.specs.MeantSyntaxes.{BeginsMaybe, BeginsOf};

use asn1_names::name_tables::Meaning;
use asn1_types::Types;
use asn1_values_syntax::value::ValueText;
use gdmo_begun_names::begun_names::BegunNames;
use gdmo_begun_names::value_names::mark_names;
use std::alloc::{AllocError, Global};
use term_values::Syntax;

/// Marks the names in a value, where it has a syntax.
pub(crate) fn mark_maybe(names: &mut BegunNames, value: &ValueText, syntax: &Option<Syntax>)
    ensures { Marks (BeginsMaybe syntax.now (value_tree value.now)) names.old names.new }
{
    match syntax {
        Some(syntax) => mark_names(names, value, syntax),
        None => {}
    }
}

/// Marks the names in a value of the type that is meant.
pub(crate) fn mark_meant(
    alloc: Global,
    types: &Types,
    meaning: Meaning,
    value: &ValueText,
    names: &mut BegunNames,
) -> Result<(), AllocError>
    ensures { OnOk result ((meant : Meant) → Means (module_terms types.now) meaning meant →
        Marks (BeginsOf (HasSyntax (module_terms types.now) meant) (value_tree value.now)) names.old names.new) }
{
    let syntax = types.syntax(alloc, meaning)?;
    mark_maybe(names, value, &syntax);
    Ok(())
}
