//! The names that modules assign, and the first names among them (X.680, section 32; docs/PROFILE.md, section 12).

ghost use Rattle.std.specs.Prelude.{◌≡◌, ◌↔◌, ◌+◌, ◌&&◌, ℕ, List, None, Some, IfOk, OnOk, is_none, true, if◌then◌else◌};
ghost use Rattle.asn1_names.specs.AssignmentNumbers.{assignment_count};
ghost use Rattle.asn1_names.specs.CodeMeanings.{IsAssignment, IsValueNumber};
ghost use Rattle.asn1_names.specs.FirstNames.{first_of, found};
ghost use Rattle.asn1_names.specs.ModuleTerms.{AssignmentTerm};
ghost use Rattle.asn1_names.specs.NameMeaning.{assigned_in};
ghost use Rattle.asn1_names.specs.StandardModule.{is_same_name};
ghost use Rattle.asn1_names.specs.TermViews.{module_terms};
ghost use Rattle.gdmo_first_names.specs.DefinedNames.{AreAssignedNames, AreNamesBelow, DefinesAt, TellsDefiner};
ghost use Rattle.gdmo_first_names.specs.ReadModules.{HasModules};
ghost use Rattle.gdmo_names.specs.FirstNames.{root_arc};
ghost use Rattle.gdmo_names.specs.PartTerms.{PartTerms};

use crate::identifier_types::has_identifier_type;
use crate::roots::root_arc;
use asn1_names::name_tables::{Meaning, NameTables};
use asn1_numbers::number_tables::Numbers;
use indexmap::IndexMap;
use std::alloc::{AllocError, Global};

/// The names that modules assign.
#[derive(Drop)]
pub struct AssignedNames<'a> {
    /// The number of the first assignment that has a name.
    pub names: IndexMap<&'a [u8], usize>,
    /// The numbers of the assignments that define first names, in order.
    pub definers: Vec<usize>,
    /// The number of the assignment by which the first module that defines a first name does.
    pub defined: IndexMap<&'a [u8], usize>,
}

/// Whether an assignment is the first of its name in its module, and gives it a value.
fn is_first_value(tables: &NameTables, number: usize, home: usize, name: &[u8]) -> bool
    ensures { (result ≡ true) ↔
        IsValueNumber (module_terms tables.now) number (assigned_in (module_terms tables.now) home name.now) }
{
    match tables.assigned_in(home, name) {
        Meaning::ValueAt(first) => first == number,
        Meaning::TypeAt(_) => false,
        Meaning::Standard(_) => false,
        Meaning::Nothing => false,
    }
}

fn is_no_root(name: &[u8]) -> bool
    ensures { result ≡ is_none (root_arc name.now) }
{
    match root_arc(name) {
        Some(_) => false,
        None => true,
    }
}

fn all_hold(one: bool, other: bool, third: bool) -> bool
    ensures { result ≡ (one && (other && third)) }
{
    one & (other & third)
}

/// Whether an assignment of a module defines a first name: an OBJECT IDENTIFIER value, the first of its name there.
fn is_definer(numbers: &Numbers, number: usize, home: usize, name: &[u8]) -> bool
    ensures { (parts : PartTerms) → HasModules parts numbers.now → (assignment : AssignmentTerm) →
        IsAssignment (module_terms numbers.now) number home assignment → assignment.name.text ≡ name.now →
        (result ≡ true) ↔ DefinesAt parts name.now number }
{
    all_hold(
        is_no_root(name),
        is_first_value(numbers.tables(), number, home, name),
        has_identifier_type(numbers, number),
    )
}

/// Keeps a number under a name that has none yet.
fn keep_first<'a>(
    table: &mut IndexMap<&'a [u8], usize>,
    key: &'a [u8],
    value: usize,
) -> Result<(), AllocError>
    ensures { OnOk result ((name : List ℕ) → found table.new name ≡ first_of (found table.old name)
        (if is_same_name key.now name then Some value else None)) }
{
    if table.get(key).is_none() {
        table.insert(key, value)?;
    }
    Ok(())
}

/// Tells that an assignment defines a first name.
fn keep_definer<'a>(
    assigned: &mut AssignedNames<'a>,
    name: &'a [u8],
    number: usize,
) -> Result<(), AllocError>
    ensures { OnOk result (TellsDefiner true name.now number assigned.old assigned.new) }
{
    assigned.definers.push(number)?;
    keep_first(&mut assigned.defined, name, number)
}

/// The same where it does.
fn keep_if<'a>(
    assigned: &mut AssignedNames<'a>,
    name: &'a [u8],
    number: usize,
    is_definer: bool,
) -> Result<(), AllocError>
    ensures { OnOk result (TellsDefiner is_definer name.now number assigned.old assigned.new) }
{
    if is_definer {
        keep_definer(assigned, name, number)
    } else {
        Ok(())
    }
}

/// Tells the name of an assignment of a module.
fn keep_name<'a>(
    assigned: &mut AssignedNames<'a>,
    numbers: &Numbers<'a>,
    number: usize,
    home: usize,
    name: &'a [u8],
) -> Result<(), AllocError>
    ensures { OnOk result ((parts : PartTerms) → HasModules parts numbers.now → (assignment : AssignmentTerm) →
        IsAssignment (module_terms numbers.now) number home assignment → assignment.name.text ≡ name.now →
        AreNamesBelow parts number assigned.old → AreNamesBelow parts (number + 1) assigned.new) }
{
    keep_first(&mut assigned.names, name, number)?;
    keep_if(
        assigned,
        name,
        number,
        is_definer(numbers, number, home, name),
    )
}

/// Tells the name of the assignment with a number.
fn keep_assigned<'a>(
    assigned: &mut AssignedNames<'a>,
    numbers: &Numbers<'a>,
    number: usize,
) -> Result<(), AllocError>
    ensures { OnOk result ((parts : PartTerms) → HasModules parts numbers.now →
        AreNamesBelow parts number assigned.old → AreNamesBelow parts (number + 1) assigned.new) }
{
    match numbers.tables().assignment(number) {
        Some((home, assignment)) => {
            let name = assignment.name.text.as_slice();
            keep_name(assigned, numbers, number, home, name)
        }
        None => Ok(()),
    }
}

/// How many assignments there are.
fn count_of(numbers: &Numbers) -> usize
    ensures { result ≡ assignment_count (module_terms numbers.now) }
{
    numbers.tables().count()
}

/// The names that modules assign whose numbers are known.
fn all_names<'a>(alloc: Global, numbers: &Numbers<'a>) -> Result<AssignedNames<'a>, AllocError>
    ensures { IfOk result (λ assigned. (parts : PartTerms) → HasModules parts numbers.now →
        AreAssignedNames parts assigned) }
{
    let names = IndexMap::new(alloc);
    let definers = Vec::new(alloc);
    let defined = IndexMap::new(alloc);
    let mut assigned = AssignedNames {
        names,
        definers,
        defined,
    };
    for number in 0..count_of(numbers) {
        keep_assigned(&mut assigned, numbers, number)?;
    }
    Ok(assigned)
}

/// The names that modules assign, and the first names among them.
pub fn assigned_names<'a>(
    alloc: Global,
    tables: &NameTables<'a>,
) -> Result<AssignedNames<'a>, AllocError>
    ensures { IfOk result (λ assigned. (parts : PartTerms) → HasModules parts tables.now →
        AreAssignedNames parts assigned) }
{
    let own = NameTables::new(alloc, tables.modules())?;
    let numbers = Numbers::new(alloc, own)?;
    all_names(alloc, &numbers)
}
