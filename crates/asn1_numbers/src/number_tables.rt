//! Which numbers stand as tags, named numbers, named bits and bounds (X.680, sections 19, 20, 22, 31.2 and 51).

ghost use Rattle.std.specs.Prelude.{◌≡◌, ℕ, IfOk, List, MatchOption, Some, option_map};
ghost use Rattle.term_values.specs.Syntaxes.{TypeSyntax};
ghost use Rattle.term_values.specs.declared.tag.Tag.{Tag as SaidTag};
ghost use Rattle.asn1_names.specs.CodeMeanings.{IsTypeOf, named_module, named_type};
ghost use Rattle.asn1_names.specs.ModuleTerms.{LimitTerm, TypeTerm};
ghost use Rattle.asn1_names.specs.ModuleTerms.NumberTerm.{Called};
ghost use Rattle.asn1_names.specs.ModuleTerms.TypeTerm.{Reference};
ghost use Rattle.asn1_names.specs.NameMeaning.{reference_meaning};
ghost use Rattle.asn1_names.specs.NameMeaning.Meaning.{StandardType as MeansStandard};
ghost use Rattle.asn1_names.specs.NumbersFound.{FindsBase, FindsBound, FindsNumber, IsOwn, TellsNames, beneath_tags};
ghost use Rattle.asn1_names.specs.NumbersFound.{text_term};
ghost use Rattle.asn1_names.specs.TermViews.{bound_term, module_terms, tag_term, type_term};
ghost use Rattle.asn1_names.specs.TypeBase.{named_numbers, number_called};
ghost use Rattle.asn1_names.specs.WholeNumbers.{IsTag};
ghost use Rattle.asn1_names.specs.WordViews.{standard_syntax_of};
ghost use Rattle.asn1_numbers.specs.NumberedBases.{TellsBase};
ghost use Rattle.asn1_numbers.specs.NumberedValues.{TellsNamed, TellsValue, known_answer, number_answer};

use crate::bases::{bases_of, bound_called, held_at, maps_of};
use crate::values::{number_at, values_of};
use asn1_names::name_tables::{Meaning, NameTables};
use asn1_names::named_numbers::NumberMap;
use asn1_names::numbers::{Base, NumberFound, NumberText, bound_text, token_text};
use asn1_names::numerals::digits_number;
use asn1_names::standard_module::StandardType;
use asn1_names::tag_texts::class_of;
use asn1_names::type_walk::{beneath_tags, name_of};
use asn1_syntax::plain_type::TypeName;
use asn1_syntax::type_text::TypeText;
use asn1_values_syntax::numbers::Bound;
use asn1_values_syntax::tag::Tag as TagText;
use std::alloc::{AllocError, Global};
use std::marker::Model;
use term_values::Tag;
use token_grammar::Token;

/// What is known of the numbers of all modules. Contracts see the modules.
#[derive(Drop)]
pub struct Numbers<'a> {
    tables: NameTables<'a>,
    bases: Vec<Option<usize>>,
    maps: Vec<NumberMap<'a>>,
    values: Vec<Option<i64>>,
}

impl<'a> Model for Numbers<'a> {
    ghost use Rattle.std.specs.Prelude.{List};
    ghost use Rattle.asn1_syntax.specs.declared.module.Module.{Module};

    ghost Value = { List Module };

    ghost use Rattle.std.specs.Coded.{coded_list};
    ghost use Rattle.asn1_syntax.specs.contracts.module.Module as m;

    ghost coded = { coded_list m.the_row.coded };

    ghost use Rattle.asn1_names.specs.TermViews.{module_terms};
    ghost use Rattle.asn1_numbers.specs.AreNumbers.{AreNumbers};

    ghost view = { λ n. n.tables };

    ghost invariant = { λ n. AreNumbers (module_terms n.tables) n.bases.items n.maps.items n.values.items };
}

/// The type of CMIP-1 that a name means.
fn standing(tables: &NameTables, home: usize, name: &TypeName) -> Option<StandardType>
    ensures { MatchOption result
        ((syntax : TypeSyntax) → ¬ (reference_meaning (module_terms tables.now) home (named_module name.now)
        (named_type name.now) ≡ MeansStandard syntax))
        (λ standard. reference_meaning (module_terms tables.now) home (named_module name.now) (named_type name.now) ≡
        MeansStandard (standard_syntax_of standard)) }
{
    match tables.reference_meaning(home, name) {
        Meaning::Standard(standard) => Some(standard),
        Meaning::TypeAt(_) => None,
        Meaning::ValueAt(_) => None,
        Meaning::Nothing => None,
    }
}

/// The answer for a number that was found or not.
fn number_answer(found: Option<i64>) -> NumberFound
    ensures { result ≡ number_answer found }
{
    match found {
        Some(number) => NumberFound::Number(number),
        None => NumberFound::NotNumber,
    }
}

/// The answer for the named number of a bound, which is known.
fn known_answer(found: NumberFound) -> NumberFound
    ensures { result ≡ known_answer found }
{
    match found {
        NumberFound::Number(number) => NumberFound::Number(number),
        NumberFound::NotNumber => NumberFound::NotNumber,
        NumberFound::Unknown => NumberFound::NotNumber,
    }
}

impl<'a> Numbers<'a> {
    /// The numbers of all modules.
    pub fn new(alloc: Global, tables: NameTables<'a>) -> Result<Numbers<'a>, AllocError>
        ensures { IfOk result (λ numbers. numbers ≡ tables.entry) }
    {
        let bases = bases_of(alloc, &tables)?;
        let maps = maps_of(alloc, &tables)?;
        let values = values_of(alloc, &tables, &bases, &maps)?;
        Ok(Numbers {
            tables,
            bases,
            maps,
            values,
        })
    }

    /// The names of the modules.
    pub fn tables(&self) -> &NameTables<'a>
        ensures { result.now ≡ self.now }
    {
        &self.tables
    }

    /// The number that the value of an assignment is.
    fn value_at(&self, number: usize) -> Option<i64>
        ensures { TellsValue (module_terms self.now) number result }
    {
        number_at(self.values.as_slice(), number)
    }

    /// The assignment whose type has beneath its tags the base of the type of an assignment.
    fn base_end(&self, number: usize) -> Option<usize>
        ensures { TellsBase (module_terms self.now) number result }
    {
        held_at(self.bases.as_slice(), number)
    }

    /// The named number of this name that the type of an assignment states beneath its tags.
    fn stated(&self, number: usize, name: &[u8]) -> Option<&'a Bound>
        ensures { (m : ℕ) (of : TypeTerm) → IsTypeOf (module_terms self.now) number m of →
            option_map (λ bound. bound_term bound.now) result ≡
            number_called name.now (named_numbers (beneath_tags of)) }
    {
        bound_called(self.maps.as_slice(), number, name)
    }

    /// The number for which a name stands in a module.
    fn called_number(&self, home: usize, name: &Token) -> NumberFound
        ensures { FindsNumber (module_terms self.now) home (Called name.now) result }
    {
        match self.tables.name_meaning(home, name.text.as_slice()) {
            Meaning::ValueAt(number) => number_answer(self.value_at(number)),
            Meaning::TypeAt(_) => NumberFound::Unknown,
            Meaning::Standard(_) => NumberFound::Unknown,
            Meaning::Nothing => NumberFound::Unknown,
        }
    }

    /// The number that stands in a module.
    pub fn number(&self, home: usize, text: NumberText) -> NumberFound
        ensures { FindsNumber (module_terms self.now) home (text_term text.entry) result }
    {
        match text {
            NumberText::Digits(minus, token) => number_answer(digits_number(minus, token)),
            NumberText::Called(name) => self.called_number(home, name),
        }
    }

    /// What is left of the type of an assignment beneath its names and tags, where the other assignment has it.
    fn base_of_end(&self, end: usize) -> Base<'a>
        ensures found { (number m : ℕ) (of : TypeTerm) → TellsBase (module_terms self.now) number (Some end) →
            IsTypeOf (module_terms self.now) number m of → FindsBase (module_terms self.now) m of result }
        ensures own { (of : TypeTerm) → IsOwn of result }
    {
        match self.tables.type_at(end) {
            Some((home, of)) => {
                let top = beneath_tags(of);
                match name_of(top) {
                    Some(name) => match standing(&self.tables, home, name) {
                        Some(standard) => Base::Standing(standard),
                        None => Base::Nothing,
                    },
                    None => Base::Written(home, top, Some(end)),
                }
            }
            None => Base::Nothing,
        }
    }

    /// What is left of the type of an assignment beneath its names and tags.
    fn base_at(&self, number: usize) -> Base<'a>
        ensures found { (m : ℕ) (of : TypeTerm) → IsTypeOf (module_terms self.now) number m of →
            FindsBase (module_terms self.now) m of result }
        ensures own { (of : TypeTerm) → IsOwn of result }
    {
        match self.base_end(number) {
            Some(end) => self.base_of_end(end),
            None => Base::Nothing,
        }
    }

    /// What is left beneath its names and tags of a type that is a name.
    fn named_base(&self, home: usize, name: &TypeName) -> Base<'a>
        ensures found { (limits : List LimitTerm) → FindsBase (module_terms self.now) home
            (Reference (named_module name.now) (named_type name.now) limits) result }
        ensures own { (of : TypeTerm) → IsOwn of result }
    {
        match self.tables.reference_meaning(home, name) {
            Meaning::TypeAt(number) => self.base_at(number),
            Meaning::Standard(standard) => Base::Standing(standard),
            Meaning::ValueAt(_) => Base::Nothing,
            Meaning::Nothing => Base::Nothing,
        }
    }

    /// What is left of a type beneath its names and tags.
    pub fn base(&self, home: usize, of: &'a TypeText) -> Base<'a>
        ensures found { FindsBase (module_terms self.now) home (type_term of.now) result }
        ensures own { IsOwn (type_term of.now) result }
    {
        let top = beneath_tags(of);
        match name_of(top) {
            Some(name) => self.named_base(home, name),
            None => Base::Written(home, top, None),
        }
    }

    /// The number of a bound that is a name, by the type's named number of this name in a module, where there is one.
    fn bound_by(
        &self,
        home: usize,
        name: &Token,
        written_in: usize,
        found: Option<&Bound>,
    ) -> NumberFound
        ensures { (of : TypeTerm) → TellsNamed (module_terms self.now) home of name.now written_in
            (option_map (λ bound. bound_term bound.now) found.entry) →
            FindsBound (module_terms self.now) home of (Called name.now) result }
    {
        match found {
            Some(bound) => known_answer(self.number(written_in, bound_text(bound))),
            None => self.called_number(home, name),
        }
    }

    /// The number of a bound that is a name.
    fn called_bound(&self, home: usize, base: &Base, own: &NumberMap, name: &Token) -> NumberFound
        ensures { (of : TypeTerm) → TellsNames (module_terms self.now) home of base.now own.now →
            FindsBound (module_terms self.now) home of (Called name.now) result }
    {
        let key = name.text.as_slice();
        match base {
            Base::Written(written_in, _, holder) => match holder {
                Some(number) => self.bound_by(home, name, *written_in, self.stated(*number, key)),
                None => self.bound_by(home, name, *written_in, own.get(key).copied()),
            },
            Base::Standing(_) => self.called_number(home, name),
            Base::Nothing => self.called_number(home, name),
        }
    }

    /// The number of a bound of a type with this base; `own` has the named numbers of a base that is no assignment's.
    pub fn bound(&self, home: usize, base: &Base, own: &NumberMap, text: NumberText) -> NumberFound
        ensures { (of : TypeTerm) → TellsNames (module_terms self.now) home of base.now own.now →
            FindsBound (module_terms self.now) home of (text_term text.entry) result }
    {
        match text {
            NumberText::Digits(_, _) => self.number(home, text),
            NumberText::Called(name) => self.called_bound(home, base, own, name),
        }
    }

    /// The tag that a text says, where its number is from 0 to 2^32 - 1 (X.680, section 31.2).
    pub fn tag(&self, home: usize, text: &TagText) -> Option<Tag>
        ensures { MatchOption result ((tag : SaidTag) → ¬ (IsTag (module_terms self.now) home (tag_term text.now) tag))
            (λ tag. IsTag (module_terms self.now) home (tag_term text.now) tag) }
    {
        match self.number(home, token_text(&text.number)) {
            NumberFound::Number(number) => match u32::try_from(number) {
                Ok(number) => Some(Tag {
                    class: class_of(&text.class),
                    number,
                }),
                Err(_) => None,
            },
            NumberFound::NotNumber => None,
            NumberFound::Unknown => None,
        }
    }
}
