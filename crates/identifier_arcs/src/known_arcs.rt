//! The arcs of identifiers and of the values that modules assign: first names are replaced by those for which they
//! stand (X.660, annex A; X.680, section 32; docs/PROFILE.md, section 12).

ghost use Rattle.std.specs.Prelude.{◌≡◌, ℕ, All, IfOk, Some, map};
ghost use Rattle.asn1_names.specs.AssignmentNumbers.{Numbered, assignment_count, numbered_at};
ghost use Rattle.asn1_names.specs.FirstNames.{found};
ghost use Rattle.asn1_names.specs.TermViews.{module_terms};
ghost use Rattle.gdmo_first_names.specs.DefinedNames.{AreAssignedNames};
ghost use Rattle.gdmo_first_names.specs.ReadModules.{AreWhole, HasModules, HasWholeArcs, IsWhole, IsWholeFirst};
ghost use Rattle.gdmo_names.specs.FirstNames.{arc_value, root_arc};
ghost use Rattle.gdmo_names.specs.PartTerms.{PartTerms, arcs_at, module_terms_of};
ghost use Rattle.gdmo_names.specs.PartViews.{assigned_arcs};
ghost use Rattle.key_numbers.specs.NumberedLists.{Grows};
ghost use Rattle.identifier_arcs.specs.ArcTexts.{first_said, maybe_said, text_term, tokens_said};
ghost use Rattle.identifier_arcs.specs.KnownArcs.{AreChains, AreKnown, IsChain, IsValueChain, TellsArcs, TellsChain};
ghost use Rattle.identifier_arcs.specs.KnownArcs.{TellsSaid, first_begin, name_begin};

use crate::arc_texts::{FirstText, IdentifierText, value_text};
use crate::chains::{Begin, Chain, ChainNumbers, chain_list, chain_numbers, told_at};
use asn1_names::name_tables::NameTables;
use asn1_syntax::module::{Assigned, Assignment};
use gdmo_first_names::assigned_names::AssignedNames;
use gdmo_first_names::roots::root_arc;
use indexmap::IndexMap;
use std::alloc::{AllocError, Global};
use text_lex::numerals::decimal;
use token_grammar::Token;

/// The number that digits say; the greatest number of 64 bits where it is a greater one, which no text has.
pub fn arc_value(token: &Token) -> u64
    ensures { IsWhole token.now → result ≡ arc_value token.now }
{
    match decimal(token.text.as_slice()) {
        Some(value) => value,
        None => u64::MAX,
    }
}

/// The numbers of arcs.
fn arc_values(alloc: Global, tokens: &[&Token]) -> Result<Vec<u64>, AllocError>
    ensures { IfOk result (λ values. All IsWhole (tokens_said tokens.now) →
        values.items ≡ map arc_value (tokens_said tokens.now)) }
{
    let mut values = Vec::new(alloc);
    for token in tokens.iter() {
        values.push(arc_value(token))?;
    }
    Ok(values)
}

/// How many assignments there are.
fn count_of(tables: &NameTables) -> usize
    ensures { result ≡ assignment_count (module_terms tables.now) }
{
    tables.count()
}

/// The number of the assignment by which the first module that defines a name does.
fn definer(defined: &IndexMap<&[u8], usize>, name: &[u8]) -> Option<usize>
    ensures { result ≡ found defined.now name.now }
{
    defined.get(name).copied()
}

/// With what an identifier begins whose first arc is a name.
fn name_begin(defined: &IndexMap<&[u8], usize>, name: &[u8]) -> Begin
    ensures { result ≡ name_begin (root_arc name.now) (found defined.now name.now) }
{
    match root_arc(name) {
        Some(arc) => Begin::Number(arc),
        None => match definer(defined, name) {
            Some(number) => Begin::Element(number),
            None => Begin::Nowhere,
        },
    }
}

/// With what an identifier begins.
fn first_begin(defined: &IndexMap<&[u8], usize>, first: FirstText) -> Begin
    ensures { IsWholeFirst (first_said first.entry) →
        result ≡ first_begin (found defined.now) (first_said first.entry) }
{
    match first {
        FirstText::Number(token) => Begin::Number(arc_value(token)),
        FirstText::Name(token) => name_begin(defined, token.text.as_slice()),
    }
}

/// The arcs of an identifier, as far as it states them.
fn identifier_chain(
    alloc: Global,
    defined: &IndexMap<&[u8], usize>,
    text: &IdentifierText,
) -> Result<Chain, AllocError>
    ensures { IfOk result (λ chain. HasWholeArcs (text_term text.now) →
        IsChain (found defined.now) (text_term text.now) chain) }
{
    let others = arc_values(alloc, text.others.as_slice())?;
    Ok(Chain {
        begin: first_begin(defined, text.first),
        others,
    })
}

/// What an assignment says as an object identifier.
fn assigned_text(alloc: Global, assigned: &Assigned) -> Result<Option<IdentifierText>, AllocError>
    ensures { IfOk result (λ text. maybe_said text ≡ assigned_arcs assigned.now) }
{
    match assigned {
        Assigned::OfValue { value, .. } => value_text(alloc, value),
        Assigned::OfType(_) => Ok(None),
    }
}

/// The arcs of what may be an identifier, as far as it states them.
fn maybe_chain(
    alloc: Global,
    defined: &IndexMap<&[u8], usize>,
    text: &Option<IdentifierText>,
) -> Result<Chain, AllocError>
    ensures { IfOk result (λ chain. TellsChain (found defined.now) (maybe_said text.now) chain) }
{
    match text {
        Some(text) => identifier_chain(alloc, defined, text),
        None => Ok(Chain {
            begin: Begin::Nowhere,
            others: Vec::new(alloc),
        }),
    }
}

/// The arcs of the value of an assignment, as far as it states them.
fn assigned_chain(
    alloc: Global,
    defined: &IndexMap<&[u8], usize>,
    assignment: &Assignment,
) -> Result<Chain, AllocError>
    ensures { IfOk result (λ chain.
        TellsChain (found defined.now) (assigned_arcs assignment.now.assigned) chain) }
{
    let text = assigned_text(alloc, &assignment.assigned)?;
    maybe_chain(alloc, defined, &text)
}

/// The same of the assignment with a number.
fn value_chain(
    alloc: Global,
    tables: &NameTables,
    defined: &IndexMap<&[u8], usize>,
    number: usize,
) -> Result<Chain, AllocError>
    ensures { IfOk result (λ chain. (parts : PartTerms) → HasModules parts tables.now →
        IsValueChain parts (found defined.now) number chain) }
{
    match tables.assignment(number) {
        Some((_, assignment)) => assigned_chain(alloc, defined, assignment),
        None => Ok(Chain {
            begin: Begin::Nowhere,
            others: Vec::new(alloc),
        }),
    }
}

/// The arcs of all values, as far as they state them.
fn value_chains(
    alloc: Global,
    tables: &NameTables,
    defined: &IndexMap<&[u8], usize>,
) -> Result<Vec<Chain>, AllocError>
    ensures { IfOk result (λ chains. (parts : PartTerms) → HasModules parts tables.now →
        AreChains parts (found defined.now) chains.items) }
{
    let mut chains = Vec::new(alloc);
    for number in 0..count_of(tables) {
        chains.push(value_chain(alloc, tables, defined, number)?)?;
    }
    Ok(chains)
}

/// The arcs of values, each list of arcs once.
#[derive(Drop)]
pub struct KnownArcs<'a, 't> {
    /// The number of the assignment by which the first module that defines a name does.
    pub defined: &'t IndexMap<&'a [u8], usize>,
    /// The list of the arcs of each assignment's value.
    pub numbers: ChainNumbers,
}

/// The arcs of all values that modules assign. The time grows with the length of their texts.
pub fn known_arcs<'a, 't>(
    alloc: Global,
    tables: &NameTables<'a>,
    assigned: &'t AssignedNames<'a>,
) -> Result<KnownArcs<'a, 't>, AllocError>
    ensures names { IfOk result (λ known. known.defined.now ≡ assigned.now.defined) }
    ensures known { IfOk result (λ known. (parts : PartTerms) → HasModules parts tables.now →
        AreAssignedNames parts assigned.now → AreKnown parts known) }
{
    let defined = &assigned.defined;
    let chains = value_chains(alloc, tables, defined)?;
    let numbers = chain_numbers(alloc, chains.as_slice())?;
    Ok(KnownArcs { defined, numbers })
}

impl<'a, 't> KnownArcs<'a, 't> {
    /// The list of the arcs of an assignment's value; none where it has none, since it isn't written as an identifier,
    /// begins with a name that has none, or leads back to itself.
    pub fn of_value(&self, number: usize) -> Option<usize>
        ensures { (parts : PartTerms) → AreKnown parts self.now → AreWhole parts → (x : Numbered) →
            numbered_at (module_terms_of parts) number ≡ Some x →
            TellsSaid parts self.now.numbers.lists (arcs_at parts x.in_module x.place) result }
    {
        told_at(self.numbers.told.as_slice(), number)
    }

    /// The list of the arcs of an identifier; none where it has none.
    pub fn arcs_of(
        &mut self,
        alloc: Global,
        text: &IdentifierText,
    ) -> Result<Option<usize>, AllocError>
        ensures grows { Grows self.old.numbers.lists self.new.numbers.lists }
        ensures keeps { (parts : PartTerms) → AreKnown parts self.old → AreKnown parts self.new }
        ensures is { IfOk result (λ answer. (parts : PartTerms) → AreKnown parts self.old → AreWhole parts →
            HasWholeArcs (text_term text.now) →
            TellsArcs parts self.new.numbers.lists (text_term text.now) answer) }
    {
        let chain = identifier_chain(alloc, self.defined, text)?;
        let own = &mut self.numbers;
        chain_list(&mut own.lists, &chain, own.told.as_slice())
    }
}
