//! Modules that are resolved: what names mean, the syntaxes of types, and the texts of values and of DEFAULTs (X.680,
//! sections 13 to 51; docs/PROFILE.md, section 11).

ghost use Rattle.std.specs.Prelude.{◌≡◌, ℕ, IfOk, MatchOption, option_map};
ghost use Rattle.token_grammar.specs.Form.{Tree};
ghost use Rattle.asn1_values_syntax.specs.ValueTrees.{value_tree};
ghost use Rattle.asn1_names.specs.AssignmentNumbers.{numbered_at};
ghost use Rattle.asn1_names.specs.CodeMeanings.{IsTypeOf, Means};
ghost use Rattle.asn1_names.specs.FirstModuleFault.{AreFaultless};
ghost use Rattle.asn1_names.specs.ModuleTerms.{TypeTerm};
ghost use Rattle.asn1_names.specs.NameMeaning.{Meaning as Meant};
ghost use Rattle.asn1_names.specs.ResolvedTypes.{HasText, meaning_of};
ghost use Rattle.asn1_names.specs.TermViews.{assigned_term, module_terms};
ghost use Rattle.asn1_types.specs.CountedTypes.{AreCounted};
ghost use Rattle.asn1_types.specs.SoughtDefaults.{TellsDefault};
ghost use Rattle.asn1_types.specs.ToldMeanings.{TellsDefaultText, TellsSyntax, TellsSyntaxAt, place_meant};
ghost use Rattle.asn1_types.specs.ToldMeanings.{text_assigned};

use crate::building::Builder;
use crate::defaults::default_within;
use asn1_names::Meaning;
use asn1_names::standard_module::standard_syntax;
use asn1_numbers::number_tables::Numbers;
use asn1_syntax::ValueText;
use asn1_syntax::module::{Assigned, Assignment};
use std::alloc::{AllocError, Global};
use std::marker::Model;
use term_values::Syntax;

/// Modules without faults. Names are found in constant time; a syntax is built where it is asked for, so that what is
/// kept grows with the texts and not with the syntaxes. Contracts see the modules.
#[derive(Drop)]
pub struct Types<'a> {
    numbers: Numbers<'a>,
}

impl<'a> Model for Types<'a> {
    ghost use Rattle.std.specs.Prelude.{List};
    ghost use Rattle.asn1_syntax.specs.declared.module.Module.{Module};

    ghost Value = { List Module };

    ghost use Rattle.std.specs.Coded.{coded_list};
    ghost use Rattle.asn1_syntax.specs.contracts.module.Module as m;

    ghost coded = { coded_list m.the_row.coded };

    ghost view = { λ t. t.numbers };

    ghost use Rattle.asn1_names.specs.TermViews.{module_terms};
    ghost use Rattle.asn1_types.specs.CountedTypes.{AreSound};

    ghost invariant = { λ t. AreSound (module_terms t.numbers) };
}

/// The text of the value that is assigned.
fn value_of(assignment: &Assignment) -> Option<&ValueText>
    ensures { option_map (λ text. value_tree text.now) result ≡ text_assigned (assigned_term assignment.now.assigned) }
{
    match &assignment.assigned {
        Assigned::OfType(_) => None,
        Assigned::OfValue { value, .. } => Some(value),
    }
}

impl<'a> Types<'a> {
    /// The modules of these numbers, in which nothing is wrong and each type has a number of nodes, as the judging of
    /// modules tells.
    pub fn new(numbers: Numbers<'a>) -> Types<'a>
        requires faultless { AreFaultless (module_terms numbers) }
        requires counted { AreCounted (module_terms numbers) }
        ensures { result ≡ numbers.entry }
    {
        Types { numbers }
    }

    /// What a module has of a name: what it assigns first, and nothing that it imports. Of two modules of one name the
    /// first is meant; CMIP-1 stands before all (X.680, sections 13.1 and 14).
    pub fn meaning(&self, module_name: &[u8], name: &[u8]) -> Meaning
        ensures { Means (module_terms self.now) result
            (meaning_of (module_terms self.now) module_name.now name.now) }
    {
        let tables = self.numbers.tables();
        tables.meaning_within(tables.module_meaning(module_name), name)
    }

    /// The place of the module that assigns what is meant; none where nothing is assigned.
    pub fn home(&self, meaning: Meaning) -> Option<usize>
        ensures { (meant : Meant) → Means (module_terms self.now) meaning meant → result ≡ place_meant meant }
    {
        match meaning {
            Meaning::TypeAt(number) => self.home_at(number),
            Meaning::ValueAt(number) => self.home_at(number),
            Meaning::Standard(_) => None,
            Meaning::Nothing => None,
        }
    }

    /// The place of the module of the assignment with a number.
    fn home_at(&self, number: usize) -> Option<usize>
        ensures { result ≡ option_map (λ x. x.in_module) (numbered_at (module_terms self.now) number) }
    {
        match self.numbers.tables().assignment(number) {
            Some((home, _)) => Some(home),
            None => None,
        }
    }

    /// The syntax of the type of the assignment with a number.
    fn syntax_at(&self, alloc: Global, number: usize) -> Result<Option<Syntax>, AllocError>
        ensures { IfOk result (λ told. TellsSyntaxAt (module_terms self.now) number told) }
    {
        match self.numbers.tables().type_at(number) {
            Some((home, of)) => {
                let builder = Builder {
                    alloc,
                    numbers: &self.numbers,
                };
                Ok(Some(builder.syntax(home, of)?))
            }
            None => Ok(None),
        }
    }

    /// The syntax that a type denotes, or the type of a value; none where the name means nothing, or `meaning` is of
    /// other modules than these and has a number that no assignment has. `AllocError` comes where there is no memory
    /// for the syntax. A DEFAULT's value stands in no syntax: its component may be missing and has no default.
    pub fn syntax(&self, alloc: Global, meaning: Meaning) -> Result<Option<Syntax>, AllocError>
        ensures { IfOk result (λ told. (meant : Meant) → Means (module_terms self.now) meaning meant →
            TellsSyntax (module_terms self.now) meant told) }
    {
        match meaning {
            Meaning::TypeAt(number) => self.syntax_at(alloc, number),
            Meaning::ValueAt(number) => self.syntax_at(alloc, number),
            Meaning::Standard(standard) => Ok(Some(standard_syntax(alloc, standard)?)),
            Meaning::Nothing => Ok(None),
        }
    }

    /// The text of a value; none where the name means no value.
    pub fn value_text(&self, meaning: Meaning) -> Option<&'a ValueText>
        ensures { (meant : Meant) → Means (module_terms self.now) meaning meant →
            MatchOption result ((text : Tree) → ¬ HasText meant text) (λ text. HasText meant (value_tree text.now)) }
    {
        match meaning {
            Meaning::ValueAt(number) => match self.numbers.tables().assignment(number) {
                Some((_, assignment)) => value_of(assignment),
                None => None,
            },
            Meaning::TypeAt(_) => None,
            Meaning::Standard(_) => None,
            Meaning::Nothing => None,
        }
    }

    /// The text of DEFAULT at a path, of the type of the assignment with a number.
    fn default_at(
        &self,
        alloc: Global,
        number: usize,
        path: &[usize],
    ) -> Result<Option<(usize, &'a ValueText)>, AllocError>
        ensures { IfOk result (λ told. (m : ℕ) (of : TypeTerm) → IsTypeOf (module_terms self.now) number m of →
            TellsDefault (module_terms self.now) m of path.now told) }
    {
        match self.numbers.tables().type_at(number) {
            Some((home, of)) => default_within(alloc, &self.numbers, home, of, path),
            None => Ok(None),
        }
    }

    /// The text of DEFAULT that stands beside the syntax of a type, or of a value's type, and the place of the module
    /// in which it is written, where its names are to be looked up; none where no DEFAULT stands. `path` leads from the
    /// outermost SEQUENCE, SET or CHOICE to the component, by the number of the component, or of the alternative, at
    /// each, counted from 0. Tags, names and lists take no number: within SEQUENCE OF and SET OF the path goes on in
    /// the element. `AllocError` comes where there is no memory for the names on the way.
    pub fn default_text(
        &self,
        alloc: Global,
        meaning: Meaning,
        path: &[usize],
    ) -> Result<Option<(usize, &'a ValueText)>, AllocError>
        ensures { IfOk result (λ told. (meant : Meant) → Means (module_terms self.now) meaning meant →
            TellsDefaultText (module_terms self.now) meant path.now told) }
    {
        match meaning {
            Meaning::TypeAt(number) => self.default_at(alloc, number, path),
            Meaning::ValueAt(number) => self.default_at(alloc, number, path),
            Meaning::Standard(_) => Ok(None),
            Meaning::Nothing => Ok(None),
        }
    }
}
