//! What is known of the assigned types of all modules: which contain themselves, how many nodes they have, and with
//! which tags they begin (X.680, sections 8.4, 25.6, 27.3 and 29.3; docs/PROFILE.md, section 11).

ghost use Rattle.std.specs.Prelude.{◌≡◌, ◌↔◌, IfOk, IsTrue};
ghost use Rattle.asn1_names.specs.TermViews.{module_terms, type_term};
ghost use Rattle.asn1_numbers.specs.NumberedTypes.{IsCyclicNumber};
ghost use Rattle.asn1_tags.specs.GatheredTags.{AreTagsKnown};
ghost use Rattle.asn1_tags.specs.ToldFacts.{TellsAmbiguous, TellsNodes};

use crate::fact_finding::{Facts, find_facts};
use crate::node_counting::{is_marked, nodes_told};
use crate::tag_clashes::is_ambiguous_by;
use crate::tag_sets::KnownTags;
use asn1_numbers::number_tables::Numbers;
use asn1_syntax::type_text::TypeText;
use std::alloc::{AllocError, Global};
use std::marker::Model;

/// What is known of the assigned types. Contracts see the modules.
#[derive(Drop)]
pub struct TypeFacts<'a> {
    numbers: Numbers<'a>,
    facts: Facts,
}

impl<'a> Model for TypeFacts<'a> {
    ghost use Rattle.std.specs.Prelude.{List};
    ghost use Rattle.asn1_syntax.specs.declared.module.Module.{Module};

    ghost Value = { List Module };

    ghost use Rattle.std.specs.Coded.{coded_list};
    ghost use Rattle.asn1_syntax.specs.contracts.module.Module as m;

    ghost coded = { coded_list m.the_row.coded };

    ghost use Rattle.asn1_names.specs.TermViews.{module_terms};
    ghost use Rattle.asn1_tags.specs.DraftFacts.{AreFacts};

    ghost view = { λ f. f.numbers };

    ghost invariant = { λ f. AreFacts (module_terms f.numbers) f.facts.cyclic.items f.facts.found.nodes.items
        f.facts.found.sources.items f.facts.found.sets.items };
}

impl<'a> TypeFacts<'a> {
    /// The facts of all assigned types of these modules.
    pub fn new(alloc: Global, numbers: Numbers<'a>) -> Result<TypeFacts<'a>, AllocError>
        ensures { IfOk result (λ facts. facts ≡ numbers.entry) }
    {
        let facts = find_facts(alloc, &numbers)?;
        Ok(TypeFacts { numbers, facts })
    }

    /// The numbers of the modules.
    pub fn numbers(&self) -> &Numbers<'a>
        ensures { result.now ≡ self.now }
    {
        &self.numbers
    }

    /// The numbers of the modules, once the facts are no longer needed.
    pub fn into_numbers(self) -> Numbers<'a>
        ensures { result ≡ self.entry }
    {
        self.numbers
    }

    /// Whether the assignment with this number assigns a type that contains itself.
    pub fn is_cyclic(&self, number: usize) -> bool
        ensures { IsTrue result ↔ IsCyclicNumber (module_terms self.now) number }
    {
        is_marked(self.facts.cyclic.as_slice(), number)
    }

    /// The nodes of the type of the assignment with this number.
    pub fn nodes_at(&self, number: usize) -> usize
        ensures { TellsNodes (module_terms self.now) number result }
    {
        nodes_told(self.facts.found.nodes.as_slice(), number)
    }

    /// What is known of tags.
    fn known_tags(&self) -> KnownTags<'_, 'a>
        ensures numbers { result.numbers.now ≡ self.now }
        ensures known { AreTagsKnown (module_terms self.now) result.cyclic.now result.sources.now result.sets.now }
    {
        KnownTags {
            numbers: &self.numbers,
            cyclic: self.facts.cyclic.as_slice(),
            sources: self.facts.found.sources.as_slice(),
            sets: self.facts.found.sets.as_slice(),
        }
    }

    /// Whether tags don't tell apart the alternatives of a CHOICE, the components of a SET, or those of a SEQUENCE of
    /// which they must decide; told of types of at most 10,000 nodes. Other types are never ambiguous.
    pub fn is_ambiguous(
        &self,
        alloc: Global,
        home: usize,
        of: &TypeText,
    ) -> Result<bool, AllocError>
        ensures { IfOk result (λ told. TellsAmbiguous (module_terms self.now) home (type_term of.now) told) }
    {
        let known = self.known_tags();
        is_ambiguous_by(alloc, &known, home, of)
    }
}
