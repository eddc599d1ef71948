//! The first names in a value that a rule or an instance states, by its type (docs/PROFILE.md, sections 9 and 12).

ghost use Rattle.std.specs.Prelude.{◌≡◌, ℕ, MatchOption, None, OnOk};
ghost use Rattle.std.specs.Option.{option_and_then};
ghost use Rattle.std.specs.List.{slice_get};
ghost use Rattle.token_grammar.specs.declared.token.Token.{Token as AToken};
ghost use Rattle.asn1_names.specs.CodeMeanings.{Means};
ghost use Rattle.asn1_names.specs.NameMeaning.{Meaning as Meant};
ghost use Rattle.asn1_names.specs.ResolvedTypes.{HasSyntax};
ghost use Rattle.asn1_values_syntax.specs.ValueTrees.{value_tree};
ghost use Rattle.gdmo_names.specs.Mentions.{Role, wanted_kind};
ghost use Rattle.gdmo_names.specs.PartTerms.{PartTerms, module_terms_of};
ghost use Rattle.gdmo_names.specs.TemplateTerms.TemplateKind.{AttributeKind};
ghost use Rattle.gdmo_targets.specs.SectionTables.{TellsLabel};
ghost use Rattle.gdmo_types.specs.Linkages.{IsLinkage};
ghost use Rattle.gdmo_begun_names.specs.BegunMarks.{Marks};
ghost use Rattle.begun_values.specs.MeantSyntaxes.{BeginsOf};
ghost use Rattle.begun_values.specs.SectionValues.{LabelledSyntax};

use crate::meant_values::mark_meant;
use crate::section_meanings::attribute_meaning;
use asn1_names::Meaning;
use asn1_values_syntax::value::ValueText;
use gdmo_begun_names::begun_names::BegunNames;
use gdmo_types::linkage::Linkage;
use std::alloc::AllocError;

/// The number at a place; none where there is none.
pub(crate) fn target_at(targets: &[Option<usize>], place: usize) -> Option<usize>
    ensures { result ≡ option_and_then (λ target. target) (slice_get targets.now place) }
{
    match targets.get(place) {
        Some(target) => *target,
        None => None,
    }
}

/// Marks the names in a value of a type, where names may stand in it.
fn mark_typed(
    linkage: &Linkage,
    meaning: Meaning,
    value: &ValueText,
    names: &mut BegunNames,
) -> Result<(), AllocError>
    ensures { OnOk result ((parts : PartTerms) (meant : Meant) → IsLinkage parts linkage.now →
        Means (module_terms_of parts) meaning meant →
        Marks (BeginsOf (HasSyntax (module_terms_of parts) meant) (value_tree value.now)) names.old names.new) }
{
    if names.may_stand_in(value) {
        mark_meant(linkage.alloc, linkage.types, meaning, value, names)
    } else {
        Ok(())
    }
}

/// Marks the names in a value of a type, where there is one.
pub(crate) fn mark_value(
    linkage: &Linkage,
    meaning: Option<Meaning>,
    value: &ValueText,
    names: &mut BegunNames,
) -> Result<(), AllocError>
    ensures { OnOk result ((parts : PartTerms) → IsLinkage parts linkage.now → MatchOption meaning (names.new ≡ names.old)
        (λ code. (meant : Meant) → Means (module_terms_of parts) code meant →
        Marks (BeginsOf (HasSyntax (module_terms_of parts) meant) (value_tree value.now)) names.old names.new)) }
{
    match meaning {
        Some(meaning) => mark_typed(linkage, meaning, value, names),
        None => Ok(()),
    }
}

/// Marks the names in a value of an attribute.
pub(crate) fn mark_attribute(
    linkage: &Linkage,
    attribute: Option<usize>,
    value: &ValueText,
    names: &mut BegunNames,
) -> Result<(), AllocError>
    ensures { OnOk result ((parts : PartTerms) (document : ℕ) (role : Role) (label : AToken) →
        IsLinkage parts linkage.now → wanted_kind role ≡ AttributeKind →
        TellsLabel parts linkage.now.templates.now document role label attribute →
        Marks (BeginsOf (LabelledSyntax parts document role label) (value_tree value.now)) names.old names.new) }
{
    mark_value(linkage, attribute_meaning(linkage, attribute), value, names)
}
