//! Whether members of a type share tags of which these must decide (X.680, sections 25.6, 27.3 and 29.3).

ghost use Rattle.std.specs.Prelude.{◌↔◌, IfOk, IsTrue, map};
ghost use Rattle.asn1_names.specs.TagClashes.{RunShares, TwoShare};
ghost use Rattle.asn1_names.specs.TermViews.{module_terms, type_term};
ghost use Rattle.asn1_tags.specs.GatheredTags.{AreTagsKnown, HasTags, KnowsTags};
ghost use Rattle.asn1_tags.specs.KnownFacts.{AreKnown, HasFew, MembersKnown};
ghost use Rattle.asn1_tags.specs.MemberRows.{alternative_row, component_row, members};
ghost use Rattle.asn1_tags.specs.TagRuns.{GoesOn};
ghost use Rattle.asn1_tags.specs.ToldFacts.{TellsAmbiguous};

use crate::tag_runs::{Run, empty_run};
use crate::tag_sets::{KnownTags, TagSet, no_tags, push_tags};
use asn1_names::type_walk::may_be_absent;
use asn1_syntax::type_text::{Alternative, Component, StructureText, TypeText};
use std::alloc::{AllocError, Global};
use token_grammar::token_tests::is_word_of;

/// The tags with which a type begins.
pub(crate) fn tags_of(
    alloc: Global,
    known: &KnownTags,
    home: usize,
    of: &TypeText,
) -> Result<TagSet, AllocError>
    ensures { IfOk result (λ set. AreKnown (KnowsTags (module_terms known.now.numbers.now) known.now.sources.now
        known.now.sets.now) (module_terms known.now.numbers.now) known.now.cyclic.now home (type_term of.now) →
        HasFew (module_terms known.now.numbers.now) home (type_term of.now) 10000 →
        HasTags (module_terms known.now.numbers.now) home (type_term of.now) set) }
{
    let mut gathered = no_tags(alloc);
    push_tags(known, home, of, &mut gathered)?;
    Ok(gathered)
}

/// Whether two alternatives share a tag.
pub(crate) fn alternatives_share(
    alloc: Global,
    known: &KnownTags,
    home: usize,
    alternatives: &[Alternative],
) -> Result<bool, AllocError>
    ensures { IfOk result (λ told. MembersKnown (KnowsTags (module_terms known.now.numbers.now) known.now.sources.now
        known.now.sets.now) (module_terms known.now.numbers.now) known.now.cyclic.now home
        (members (map alternative_row alternatives.now)) → IsTrue told ↔ TwoShare (module_terms known.now.numbers.now)
        home (members (map alternative_row alternatives.now))) }
{
    let mut run = empty_run(alloc);
    for alternative in alternatives.iter() {
        let set = tags_of(alloc, known, home, &alternative.of)?;
        if run.push(&set)? {
            return Ok(true);
        }
    }
    Ok(false)
}

/// Whether two components share a tag.
pub(crate) fn components_share(
    alloc: Global,
    known: &KnownTags,
    home: usize,
    components: &[Component],
) -> Result<bool, AllocError>
    ensures { IfOk result (λ told. MembersKnown (KnowsTags (module_terms known.now.numbers.now) known.now.sources.now
        known.now.sets.now) (module_terms known.now.numbers.now) known.now.cyclic.now home
        (members (map component_row components.now)) → IsTrue told ↔ TwoShare (module_terms known.now.numbers.now)
        home (members (map component_row components.now))) }
{
    let mut run = empty_run(alloc);
    for component in components.iter() {
        let set = tags_of(alloc, known, home, &component.of)?;
        if run.push(&set)? {
            return Ok(true);
        }
    }
    Ok(false)
}

/// The run that goes on behind a component: a new one where it stands always.
fn next_run(alloc: Global, run: Run, may_be_absent: bool) -> Run
    ensures { GoesOn run may_be_absent result }
{
    if may_be_absent { run } else { empty_run(alloc) }
}

/// Whether two components share a tag that stand in one optional run, or of which the later one is the next behind it.
pub(crate) fn runs_share(
    alloc: Global,
    known: &KnownTags,
    home: usize,
    components: &[Component],
) -> Result<bool, AllocError>
    ensures { IfOk result (λ told. MembersKnown (KnowsTags (module_terms known.now.numbers.now) known.now.sources.now
        known.now.sets.now) (module_terms known.now.numbers.now) known.now.cyclic.now home
        (members (map component_row components.now)) → IsTrue told ↔ RunShares (module_terms known.now.numbers.now)
        home (members (map component_row components.now))) }
{
    let mut run = empty_run(alloc);
    for component in components.iter() {
        let absent = may_be_absent(&component.presence);
        let set = tags_of(alloc, known, home, &component.of)?;
        let shares = run.push(&set)?;
        if shares {
            return Ok(true);
        }
        run = next_run(alloc, run, absent);
    }
    Ok(false)
}

/// Whether tags don't decide in a type itself (see `TypeFacts::is_ambiguous`).
pub(crate) fn is_ambiguous_by(
    alloc: Global,
    known: &KnownTags,
    home: usize,
    of: &TypeText,
) -> Result<bool, AllocError>
    ensures { IfOk result (λ told. AreTagsKnown (module_terms known.now.numbers.now) known.now.cyclic.now
        known.now.sources.now known.now.sets.now → TellsAmbiguous (module_terms known.now.numbers.now) home
        (type_term of.now) told) }
{
    match of {
        TypeText::Tagged { .. } => Ok(false),
        TypeText::Structured { word, content } => match content {
            StructureText::Components { components, .. } => match components {
                Some(components) => {
                    if is_word_of(word, "SET") {
                        components_share(alloc, known, home, components.as_slice())
                    } else {
                        runs_share(alloc, known, home, components.as_slice())
                    }
                }
                None => Ok(false),
            },
            StructureText::ListOf { .. } => Ok(false),
        },
        TypeText::Choice { alternatives, .. } => {
            alternatives_share(alloc, known, home, alternatives.as_slice())
        }
        TypeText::Plain { .. } => Ok(false),
    }
}
