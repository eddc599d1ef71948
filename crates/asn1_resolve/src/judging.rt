//! The first fault of modules: the least by document, then by token, then in the order of the faults (docs/PROFILE.md,
//! section 11).

ghost use Rattle.std.specs.Prelude.{◌≡◌, ℕ, IfOk, IsFalse, IsTrue, MatchOption, None, Some, length, slice_get};
ghost use Rattle.asn1_names.specs.AssignmentNumbers.{Numbered, assignment_count, numbered_at};
ghost use Rattle.asn1_names.specs.CodeMeanings.{IsAssignment, IsTypeOf};
ghost use Rattle.asn1_names.specs.FirstModuleFault.FaultKind.{NotSupported, TypeCyclic};
ghost use Rattle.asn1_names.specs.ModuleTerms.{TypeTerm};
ghost use Rattle.asn1_names.specs.Occurrences.{first_word};
ghost use Rattle.asn1_names.specs.TermViews.{assignment_term, module_term, module_terms, type_term};
ghost use Rattle.asn1_names.specs.declared.refusal.UnsupportedKind.TheVariants.{TooManyNodes};
ghost use Rattle.asn1_resolve.specs.AllFaults.{AssignmentFaults, Below, FaultsAt, ImportFaultsAt};
ghost use Rattle.asn1_resolve.specs.FaultSets.{In, IsFirstOf, OneFault};
ghost use Rattle.asn1_resolve.specs.ToldFaults.{IsCounted, Judges};
ghost use Rattle.asn1_resolve.specs.TypeFaults.{IsFew, IsLarge};
ghost use Rattle.asn1_numbers.specs.NumberedTypes.{IsCyclicNumber};
ghost use Rattle.asn1_types.specs.CountedTypes.{AreCounted};

use crate::faults::{Home, earlier, fault_at, home_of, refusal_of};
use crate::import_faults::judge_imports;
use crate::type_faults::judge_type;
use asn1_names::first_fault::{FaultKind, ModuleFault};
use asn1_names::first_words::first_word;
use asn1_names::name_tables::{NameTables, type_of};
use asn1_names::refusal::ModuleRefusal;
use asn1_syntax::module::{Assignment, Module};
use asn1_syntax::type_text::TypeText;
use asn1_tags::type_facts::TypeFacts;
use std::alloc::{AllocError, Global};

/// The most nodes that a syntax may have (docs/PROFILE.md, section 11).
const MOST_NODES: usize = 10_000;

/// Whether the type of an assignment has no more nodes than it may.
fn is_few(facts: &TypeFacts, number: usize) -> bool
    ensures few { IsTrue result → (m : ℕ) → (of : TypeTerm) → IsTypeOf (module_terms facts.now) number m of →
        IsFew (module_terms facts.now) m of }
    ensures large { IsFalse result → (m : ℕ) → (of : TypeTerm) → IsTypeOf (module_terms facts.now) number m of →
        IsLarge (module_terms facts.now) m of }
    ensures counted { IsCounted (module_terms facts.now) number }
{
    facts.nodes_at(number) <= MOST_NODES
}

/// The fault of an assigned type that has more nodes than it may.
fn judge_nodes(home: Home, few: bool, of: &TypeText) -> Option<ModuleFault>
    ensures { IsFirstOf (In home.document
        (OneFault (IsFalse few) (first_word (type_term of.now)).at (NotSupported TooManyNodes))) result }
{
    if few {
        return None;
    }
    Some(fault_at(home, first_word(of), FaultKind::TooManyNodes))
}

/// The fault of an assigned type that contains itself.
fn judge_cycle(
    facts: &TypeFacts,
    home: Home,
    number: usize,
    assignment: &Assignment,
) -> Option<ModuleFault>
    ensures { IsFirstOf (In home.document (OneFault (IsCyclicNumber (module_terms facts.now) number)
        assignment.now.name.at TypeCyclic)) result }
{
    if facts.is_cyclic(number) {
        return Some(fault_at(home, &assignment.name, FaultKind::CyclicType));
    }
    None
}

/// The first fault of an assignment.
fn judge_assigned<'a>(
    alloc: Global,
    facts: &TypeFacts<'a>,
    home: Home,
    number: usize,
    assignment: &'a Assignment,
) -> Result<Option<ModuleFault>, AllocError>
    ensures first { IsAssignment (module_terms facts.now) number home.module (assignment_term assignment.now) →
        (x : Numbered) → numbered_at (module_terms facts.now) number ≡ Some x →
        IfOk result (λ first. IsFirstOf (In home.document (AssignmentFaults (module_terms facts.now) x)) first) }
    ensures counted { IsCounted (module_terms facts.now) number }
{
    let of = type_of(assignment);
    let few = is_few(facts, number);
    let nodes = judge_nodes(home, few, of);
    let cycle = judge_cycle(facts, home, number, assignment);
    let within = judge_type(alloc, facts, home, few, of)?;
    Ok(earlier(earlier(nodes, cycle), within))
}

/// The module at a place.
fn module_at<'a>(tables: &NameTables<'a>, place: usize) -> Option<&'a Module>
    ensures { MatchOption result (slice_get (module_terms tables.now) place ≡ None)
        (λ text. slice_get (module_terms tables.now) place ≡ Some (module_term text.now)) }
{
    tables.modules().get(place)
}

/// The first fault of the assignment with a number.
fn judge_assignment(
    alloc: Global,
    facts: &TypeFacts,
    number: usize,
) -> Result<Option<ModuleFault>, AllocError>
    ensures first { IfOk result (λ first. IsFirstOf (FaultsAt (module_terms facts.now) number) first) }
    ensures counted { IfOk result (λ _. IsCounted (module_terms facts.now) number) }
{
    let tables = facts.numbers().tables();
    match tables.assignment(number) {
        None => Ok(None),
        Some((place, assignment)) => match module_at(tables, place) {
            None => Ok(None),
            Some(text) => {
                let home = home_of(place, text);
                judge_assigned(alloc, facts, home, number, assignment)
            }
        },
    }
}

/// The first fault of all assignments.
fn judge_assignments(alloc: Global, facts: &TypeFacts) -> Result<Option<ModuleFault>, AllocError>
    ensures first { IfOk result (λ first. IsFirstOf
        (Below (FaultsAt (module_terms facts.now)) (assignment_count (module_terms facts.now))) first) }
    ensures counted { IfOk result (λ _. AreCounted (module_terms facts.now)) }
{
    let mut first = None;
    for number in 0..facts.numbers().tables().count() {
        let own = judge_assignment(alloc, facts, number)?;
        first = earlier(first, own);
    }
    Ok(first)
}

/// The first fault of all imports.
fn judge_all_imports(tables: &NameTables) -> Option<ModuleFault>
    ensures { IsFirstOf
        (Below (ImportFaultsAt (module_terms tables.now)) (length (module_terms tables.now))) result }
{
    let mut first = None;
    for (place, text) in tables.modules().iter().enumerate() {
        let own = judge_imports(tables, home_of(place, text), &text.imports);
        first = earlier(first, own);
    }
    first
}

/// The refusal that tells the first fault of modules, or none where nothing is wrong in them.
pub fn first_fault(alloc: Global, facts: &TypeFacts) -> Result<Option<ModuleRefusal>, AllocError>
    ensures told { IfOk result (λ told. Judges (module_terms facts.now) told) }
    ensures counted { IfOk result (λ _. AreCounted (module_terms facts.now)) }
{
    let imports = judge_all_imports(facts.numbers().tables());
    let assignments = judge_assignments(alloc, facts)?;
    match earlier(imports, assignments) {
        Some(fault) => Ok(Some(refusal_of(fault))),
        None => Ok(None),
    }
}
