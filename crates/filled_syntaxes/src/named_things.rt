//! What names mean in linked parts, and the values that modules assign (X.680, sections 13.1, 16 and 32).

ghost use Rattle.std.specs.Prelude.{◌≡◌, ◌+◌, ◌<◌, ◌^◌, ℕ, List, IfOk, OnOk, Some, if◌then◌else◌, slice_get};
ghost use Rattle.asn1_names.specs.AssignmentNumbers.{numbered_at};
ghost use Rattle.asn1_names.specs.CodeMeanings.{Means};
ghost use Rattle.asn1_names.specs.ModuleTerms.{AssignmentTerm, ModuleTerm};
ghost use Rattle.asn1_names.specs.TermViews.{module_terms};
ghost use Rattle.asn1_leaf_values.specs.Arcs.{where_arcs};
ghost use Rattle.asn1_leaf_values.specs.FirstNames.{arcs_named};
ghost use Rattle.asn1_leaf_values.specs.Literals.{same_name};
ghost use Rattle.asn1_values_syntax.specs.ValueTrees.{value_tree};
ghost use Rattle.linked_parts.specs.declared.linked.Linked.{Linked as LinkedTerm};
ghost use Rattle.filled_syntaxes.specs.KnownThings.{AreFirstNumbers, AreNamedThings, where_known};
ghost use Rattle.filled_syntaxes.specs.LinkedMeanings.{assignment_meaning, linked_arcs, linked_meaning};
ghost use Rattle.filled_syntaxes.specs.NotedTexts.{NotesTexts};
ghost use Rattle.filled_syntaxes.specs.SaidTexts.{BadText, TellsValue};

use crate::bad_texts::BadTexts;
use asn1_names::Meaning;
use asn1_names::standard_module::standard_type;
use asn1_syntax::module::{Assigned, Module};
use asn1_types::Types;
use asn1_values::{ArcList, FirstNames, ValueRefusal, value_with_names};
use asn1_values_syntax::value::ValueText;
use linked_parts::Linked;
use linked_parts::linked::{LinkedFirstName, NamedMeaning};
use std::alloc::{AllocError, Global};
use term_values::{Syntax, Value};

/// The modules of linked parts with their types, and the names with which object identifiers begin.
#[derive(Drop)]
pub struct NamedThings<'a, 't> {
    /// What gives memory.
    pub alloc: Global,
    /// The modules.
    pub modules: &'a [Module],
    /// Their types.
    pub types: &'t Types<'a>,
    /// The number of the first assignment of each module.
    first_numbers: Vec<usize>,
    names: FirstNames<'t>,
}

/// How many assignments stand before those of each module; there is no memory for more than can be counted.
fn first_numbers(alloc: Global, modules: &[Module]) -> Result<Vec<usize>, AllocError>
    ensures { IfOk result (λ numbers. AreFirstNumbers (module_terms modules.now) numbers.items) }
{
    let mut numbers = Vec::new(alloc);
    let mut next = 0usize;
    for module in modules {
        numbers.push(next)?;
        match next.checked_add(module.assignments.as_slice().len()) {
            Some(further) => next = further,
            None => return Err(AllocError),
        }
    }
    Ok(numbers)
}

/// Arcs of 32 bits; none where one of them is greater.
fn arcs_of(alloc: Global, arcs: &[u64]) -> Result<Option<ArcList>, AllocError>
    ensures { IfOk result (λ told. told ≡ where_arcs arcs.now) }
{
    let mut items = Vec::new(alloc);
    for arc in arcs {
        let number = *arc;
        if number > 4_294_967_295 {
            return Ok(None);
        }
        items.push(number as u32)?;
    }
    Ok(Some(ArcList { items }))
}

/// A name stands for its arcs from here on, or for none where one of them is too great.
fn set_first_name<'t>(
    alloc: Global,
    names: &mut FirstNames<'t>,
    first: &'t LinkedFirstName,
) -> Result<(), AllocError>
    ensures { OnOk result ((name : List ℕ) → arcs_named names.new name ≡
        (if same_name first.now.name.text name then where_arcs first.now.arcs.items else arcs_named names.old name)) }
{
    let name = first.name.text.as_slice();
    match arcs_of(alloc, first.arcs.as_slice())? {
        Some(arcs) => {
            names.insert(name, arcs)?;
        }
        None => {
            names.swap_remove(name);
        }
    }
    Ok(())
}

/// The names with which object identifiers begin: of each the first one decides, so the last one is set first.
fn first_names<'t>(alloc: Global, linked: &'t Linked) -> Result<FirstNames<'t>, AllocError>
    ensures { IfOk result (λ names. (name : List ℕ) → arcs_named names name ≡
        where_known (linked_arcs linked.now) name) }
{
    let mut names = FirstNames::new(alloc);
    let told = linked.first_names.as_slice();
    for behind in 0..told.len() {
        set_first_name(alloc, &mut names, &told[told.len() - 1 - behind])?;
    }
    Ok(names)
}

impl<'a, 't> NamedThings<'a, 't> {
    /// The things that names mean in linked parts, of which these are the modules and their types.
    pub fn new(
        alloc: Global,
        modules: &'a [Module],
        types: &'t Types<'a>,
        linked: &'t Linked,
    ) -> Result<NamedThings<'a, 't>, AllocError>
        ensures { IfOk result (λ things. module_terms types.now ≡ module_terms modules.now →
            AreNamedThings (module_terms modules.now) linked.now things) }
    {
        let first_numbers = first_numbers(alloc, modules)?;
        let names = first_names(alloc, linked)?;
        Ok(NamedThings {
            alloc,
            modules,
            types,
            first_numbers,
            names,
        })
    }

    /// The number of an assignment of a module.
    fn number(&self, home: usize, assignment: usize) -> usize
        ensures { (ms : List ModuleTerm) (x : ModuleTerm) (y : AssignmentTerm) →
            AreFirstNumbers ms self.now.first_numbers.items → slice_get ms home ≡ Some x →
            slice_get x.assignments assignment ≡ Some y →
            numbered_at ms result ≡ Some (record { in_module = home; place = assignment; assignment = y }) }
    {
        match self.first_numbers.get(home) {
            Some(first) => (*first).saturating_add(assignment),
            None => assignment,
        }
    }

    /// What an assignment of a module gives its name.
    fn assigned(&self, home: usize, assignment: usize) -> Meaning
        ensures { (ms : List ModuleTerm) (linked : LinkedTerm) → AreNamedThings ms linked self.now →
            Means ms result (assignment_meaning ms home assignment) }
    {
        let Some(text) = self.modules.get(home) else {
            return Meaning::Nothing;
        };
        let Some(found) = text.assignments.as_slice().get(assignment) else {
            return Meaning::Nothing;
        };
        let number = self.number(home, assignment);
        match &found.assigned {
            Assigned::OfType(_) => Meaning::TypeAt(number),
            Assigned::OfValue { .. } => Meaning::ValueAt(number),
        }
    }

    /// What a name of a type or value means.
    pub fn meaning(&self, named: &NamedMeaning) -> Meaning
        ensures { (ms : List ModuleTerm) (linked : LinkedTerm) → AreNamedThings ms linked self.now →
            Means ms result (linked_meaning ms named.now) }
    {
        match named {
            NamedMeaning::Assigned { module, assignment } => self.assigned(*module, *assignment),
            NamedMeaning::Standard(name) => match standard_type(name.text.as_slice()) {
                Some(standard) => Meaning::Standard(standard),
                None => Meaning::Nothing,
            },
        }
    }

    /// The document of the module at a place.
    pub fn document(&self, home: usize) -> u32
        ensures { (ms : List ModuleTerm) (linked : LinkedTerm) (x : ModuleTerm) → AreNamedThings ms linked self.now →
            slice_get ms home ≡ Some x → result ≡ x.document }
    {
        match self.modules.get(home) {
            Some(text) => text.document,
            None => 0,
        }
    }

    /// The value of a syntax that a text of a document denotes; where it denotes none, this is noted.
    pub fn value(
        &self,
        syntax: &Syntax,
        text: &ValueText,
        document: u32,
        bad: &mut BadTexts,
    ) -> Result<Option<Value>, AllocError>
        ensures told { IfOk result (λ told. (ms : List ModuleTerm) (linked : LinkedTerm) →
            AreNamedThings ms linked self.now →
            TellsValue (linked_arcs linked) syntax.now (value_tree text.now) told) }
        ensures noted { OnOk result ((ms : List ModuleTerm) (linked : LinkedTerm) → AreNamedThings ms linked self.now →
            NotesTexts (BadText (linked_arcs linked) syntax.now (value_tree text.now) document) bad.old.first
            bad.new.first) }
    {
        match value_with_names(self.alloc, &self.names, syntax, text) {
            Ok(value) => Ok(Some(value)),
            Err(ValueRefusal::BadValue { token }) => {
                bad.note(document, token);
                Ok(None)
            }
            Err(ValueRefusal::Memory) => Err(AllocError),
        }
    }
}
