//! What names mean: tables by which modules, assignments and imports are found in constant time (X.680, sections 13.1
//! and 14; docs/PROFILE.md, section 11).

ghost use Rattle.std.specs.Prelude.{◌≡◌, ℕ, List, None, Some, IfOk, IfSome, MatchOption, OnOk, if◌then◌else◌, length};
ghost use Rattle.std.specs.Prelude.{◌++◌, is_some, map, option_map};
ghost use Rattle.std.specs.List.{list_any};
ghost use Rattle.asn1_names.specs.AssignmentNumbers.{assignment_count, first_number, numbered_at, numbered_from};
ghost use Rattle.asn1_names.specs.CodeMeanings.{IsAssignment, IsTypeOf, Means, TellsNumber, module_meant};
ghost use Rattle.asn1_names.specs.CodeMeanings.{named_module, named_type};
ghost use Rattle.asn1_names.specs.FirstNames.{first_of, found, sources};
ghost use Rattle.asn1_names.specs.ModuleTables.{TellsNames, numbered_view};
ghost use Rattle.asn1_names.specs.NameMeaning.{assigned_in, assigned_meaning, import_of, imported_from, is_called, meaning_within};
ghost use Rattle.asn1_names.specs.NameMeaning.{module_meaning, name_meaning, reference_meaning};
ghost use Rattle.asn1_names.specs.Occurrences.{type_assigned};
ghost use Rattle.asn1_names.specs.StandardModule.{is_same_name};
ghost use Rattle.asn1_names.specs.TermViews.{assigned_term, assignment_term, import_terms, module_term};
ghost use Rattle.asn1_names.specs.TermViews.{module_terms, type_term};

use crate::standard_module::{StandardType, is_standard_module, standard_type};
use asn1_syntax::module::{Assigned, Assignment, ImportedSymbols, Imports, Module};
use asn1_syntax::plain_type::TypeName;
use asn1_syntax::type_text::TypeText;
use indexmap::IndexMap;
use std::alloc::{AllocError, Global};
use std::marker::Model;
use token_grammar::Token;

/// What the name of a module means.
#[derive(Clone, Copy, PartialEq, Eq)]
pub enum ModuleMeaning {
    /// CMIP-1.
    Standard,
    /// The module at this place of the list.
    At(usize),
    /// No module.
    Nothing,
}

/// What the name of a type or value means. Assignments are numbered through all modules.
#[derive(Clone, Copy, PartialEq, Eq)]
pub enum Meaning {
    /// The type of the assignment with this number.
    TypeAt(usize),
    /// The value of the assignment with this number.
    ValueAt(usize),
    /// A type of CMIP-1.
    Standard(StandardType),
    /// No type and no value.
    Nothing,
}

/// An assignment, with the places of its module and of itself in this.
#[derive(Clone, Copy)]
struct NumberedAssignment<'a> {
    module: usize,
    place: usize,
    assignment: &'a Assignment,
}

/// The names of one module: the number of the first assignment of each, and the name of the module from which the
/// first import has it.
#[derive(Drop)]
struct ModuleNames<'a> {
    assigned: IndexMap<&'a [u8], usize>,
    imported: IndexMap<&'a [u8], &'a [u8]>,
}

/// The names of all modules. Contracts see the modules.
#[derive(Drop)]
pub struct NameTables<'a> {
    modules: &'a [Module],
    by_name: IndexMap<&'a [u8], usize>,
    names: Vec<ModuleNames<'a>>,
    assignments: Vec<NumberedAssignment<'a>>,
}

impl<'a> Model for NameTables<'a> {
    ghost use Rattle.std.specs.Prelude.{List};
    ghost use Rattle.asn1_syntax.specs.declared.module.Module.{Module};

    ghost Value = { List Module };

    ghost use Rattle.std.specs.Coded.{coded_list};
    ghost use Rattle.asn1_syntax.specs.contracts.module.Module as m;

    ghost coded = { coded_list m.the_row.coded };

    ghost use Rattle.asn1_names.specs.ModuleTables.{AreTables};

    ghost view = { λ t. t.modules.now };

    ghost invariant = { λ t. AreTables t.modules.now t.by_name t.names.items t.assignments.items };
}

/// Keeps a value under a key that has none yet.
fn keep_first<'a>(
    table: &mut IndexMap<&'a [u8], usize>,
    key: &'a [u8],
    value: usize,
) -> Result<(), AllocError>
    ensures { OnOk result ((name : List ℕ) → found table.new name ≡ first_of (found table.old name)
        (if is_same_name key.now name then Some value else None)) }
{
    if table.get(key).is_none() {
        table.insert(key, value)?;
    }
    Ok(())
}

/// Keeps the name of a module under a key that has none yet.
fn keep_source<'a>(
    table: &mut IndexMap<&'a [u8], &'a [u8]>,
    key: &'a [u8],
    from: &'a [u8],
) -> Result<(), AllocError>
    ensures { OnOk result ((name : List ℕ) → sources table.new name ≡ first_of (sources table.old name)
        (if is_same_name key.now name then Some from.now else None)) }
{
    if table.get(key).is_none() {
        table.insert(key, from)?;
    }
    Ok(())
}

/// Keeps the names that are imported from one module.
fn keep_imports<'a>(
    table: &mut IndexMap<&'a [u8], &'a [u8]>,
    group: &'a ImportedSymbols,
) -> Result<(), AllocError>
    ensures { OnOk result ((name : List ℕ) → sources table.new name ≡ first_of (sources table.old name)
        (if list_any (is_called name) group.now.symbols.items then Some group.now.module_name.text else None)) }
{
    let from = group.module_name.text.as_slice();
    for symbol in group.symbols.iter() {
        keep_source(table, symbol.text.as_slice(), from)?;
    }
    Ok(())
}

/// The names that imports have.
fn kept_imports<'a>(
    alloc: Global,
    imports: &'a Imports,
) -> Result<IndexMap<&'a [u8], &'a [u8]>, AllocError>
    ensures { IfOk result (λ table. (name : List ℕ) → sources table name ≡
        option_map (λ token. token.text) (imported_from name (import_terms (Some imports.now)))) }
{
    let mut imported = IndexMap::new(alloc);
    keep_imports(&mut imported, &imports.first)?;
    for group in imports.others.iter() {
        keep_imports(&mut imported, group)?;
    }
    Ok(imported)
}

/// The names that a module imports.
fn imported_names<'a>(
    alloc: Global,
    imports: &'a Option<Imports>,
) -> Result<IndexMap<&'a [u8], &'a [u8]>, AllocError>
    ensures { IfOk result (λ table. (name : List ℕ) → sources table name ≡
        option_map (λ token. token.text) (imported_from name (import_terms imports.now))) }
{
    match imports {
        Some(found) => kept_imports(alloc, found),
        None => Ok(IndexMap::new(alloc)),
    }
}

/// The names that a module assigns; appends its assignments to all.
fn assigned_names<'a>(
    alloc: Global,
    home: usize,
    own: &'a [Assignment],
    assignments: &mut Vec<NumberedAssignment<'a>>,
) -> Result<IndexMap<&'a [u8], usize>, AllocError>
    ensures names { IfOk result (λ table. (name : List ℕ) → found table name ≡
        first_number name (length assignments.old.items) (map assignment_term own.now)) }
    ensures numbered { OnOk result (map numbered_view assignments.new.items ≡
        map numbered_view assignments.old.items ++ numbered_from home 0 (map assignment_term own.now)) }
{
    let mut assigned = IndexMap::new(alloc);
    for (place, assignment) in own.iter().enumerate() {
        keep_first(
            &mut assigned,
            assignment.name.text.as_slice(),
            assignments.as_slice().len(),
        )?;
        assignments.push(NumberedAssignment {
            module: home,
            place,
            assignment,
        })?;
    }
    Ok(assigned)
}

/// The names of a module; appends its assignments to all.
fn names_of<'a>(
    alloc: Global,
    home: usize,
    text: &'a Module,
    assignments: &mut Vec<NumberedAssignment<'a>>,
) -> Result<ModuleNames<'a>, AllocError>
    ensures names { IfOk result (λ names. TellsNames (length assignments.old.items) names (module_term text.now)) }
    ensures numbered { OnOk result (map numbered_view assignments.new.items ≡
        map numbered_view assignments.old.items ++ numbered_from home 0 (module_term text.now).assignments) }
{
    let assigned = assigned_names(alloc, home, text.assignments.as_slice(), assignments)?;
    let imported = imported_names(alloc, &text.imports)?;
    Ok(ModuleNames { assigned, imported })
}

impl<'a> NameTables<'a> {
    /// The tables of these modules.
    pub fn new(alloc: Global, modules: &'a [Module]) -> Result<NameTables<'a>, AllocError>
        ensures { IfOk result (λ tables. tables ≡ modules.now) }
    {
        let mut by_name = IndexMap::new(alloc);
        let mut names = Vec::new(alloc);
        let mut assignments = Vec::new(alloc);
        for (home, text) in modules.iter().enumerate() {
            keep_first(&mut by_name, text.name.text.as_slice(), home)?;
            names.push(names_of(alloc, home, text, &mut assignments)?)?;
        }
        Ok(NameTables {
            modules,
            by_name,
            names,
            assignments,
        })
    }

    /// The modules.
    pub fn modules(&self) -> &'a [Module]
        ensures { result.now ≡ self.now }
    {
        self.modules
    }

    /// How many assignments there are.
    pub fn count(&self) -> usize
        ensures { result ≡ assignment_count (module_terms self.now) }
    {
        self.assignments.as_slice().len()
    }

    /// The place of the module of the assignment with a number, and the assignment; none where no assignment has it.
    pub fn assignment(&self, number: usize) -> Option<(usize, &'a Assignment)>
        ensures { MatchOption result (numbered_at (module_terms self.now) number ≡ None)
            (λ found. IsAssignment (module_terms self.now) number found.0 (assignment_term found.1.now)) }
    {
        match self.assignments.get(number) {
            Some(found) => Some((found.module, found.assignment)),
            None => None,
        }
    }

    /// The place of the module of the assignment with a number, and its type: the one that is assigned, or the
    /// value's; none where no assignment has the number.
    pub fn type_at(&self, number: usize) -> Option<(usize, &'a TypeText)>
        ensures { MatchOption result (numbered_at (module_terms self.now) number ≡ None)
            (λ found. IsTypeOf (module_terms self.now) number found.0 (type_term found.1.now)) }
    {
        match self.assignments.get(number) {
            Some(found) => Some((found.module, type_of(found.assignment))),
            None => None,
        }
    }

    /// What the name of a module means.
    pub fn module_meaning(&self, name: &[u8]) -> ModuleMeaning
        ensures { module_meant result ≡ module_meaning (module_terms self.now) name.now }
    {
        if is_standard_module(name) {
            return ModuleMeaning::Standard;
        }
        match self.by_name.get(name).copied() {
            Some(place) => ModuleMeaning::At(place),
            None => ModuleMeaning::Nothing,
        }
    }

    /// The number of the first assignment of a name in a module.
    fn number_of(&self, home: usize, name: &[u8]) -> Option<usize>
        ensures { TellsNumber (module_terms self.now) (assigned_in (module_terms self.now) home name.now) result }
    {
        match self.names.get(home) {
            Some(names) => names.assigned.get(name).copied(),
            None => None,
        }
    }

    /// What the assignment with a number means.
    fn meaning_at(&self, number: usize) -> Meaning
        ensures { IfSome (numbered_at (module_terms self.now) number) (λ x. Means (module_terms self.now) result
            (assigned_meaning x.in_module x.place x.assignment.assigned)) }
    {
        match self.assignments.get(number) {
            Some(found) => match &found.assignment.assigned {
                Assigned::OfType(_) => Meaning::TypeAt(number),
                Assigned::OfValue { .. } => Meaning::ValueAt(number),
            },
            None => Meaning::Nothing,
        }
    }

    /// What a module itself assigns.
    pub fn assigned_in(&self, home: usize, name: &[u8]) -> Meaning
        ensures { Means (module_terms self.now) result (assigned_in (module_terms self.now) home name.now) }
    {
        match self.number_of(home, name) {
            Some(number) => self.meaning_at(number),
            None => Meaning::Nothing,
        }
    }

    /// What a module, told by what its name means, has of a name.
    pub fn meaning_within(&self, within: ModuleMeaning, name: &[u8]) -> Meaning
        ensures { Means (module_terms self.now) result
            (meaning_within (module_terms self.now) (module_meant within) name.now) }
    {
        match within {
            ModuleMeaning::Standard => match standard_type(name) {
                Some(standard) => Meaning::Standard(standard),
                None => Meaning::Nothing,
            },
            ModuleMeaning::At(place) => self.assigned_in(place, name),
            ModuleMeaning::Nothing => Meaning::Nothing,
        }
    }

    /// The name of the module from which a module imports a name.
    fn imported_from(&self, home: usize, name: &[u8]) -> Option<&'a [u8]>
        ensures { option_map (λ text. text.now) result ≡
            option_map (λ token. token.text) (import_of (module_terms self.now) home name.now) }
    {
        match self.names.get(home) {
            Some(names) => names.imported.get(name).copied(),
            None => None,
        }
    }

    /// Whether a module imports a name.
    pub fn imports(&self, home: usize, name: &[u8]) -> bool
        ensures { result ≡ is_some (import_of (module_terms self.now) home name.now) }
    {
        self.imported_from(home, name).is_some()
    }

    /// What a name alone means in a module.
    pub fn name_meaning(&self, home: usize, name: &[u8]) -> Meaning
        ensures { Means (module_terms self.now) result (name_meaning (module_terms self.now) home name.now) }
    {
        match self.assigned_in(home, name) {
            Meaning::Nothing => match self.imported_from(home, name) {
                Some(from) => self.meaning_within(self.module_meaning(from), name),
                None => Meaning::Nothing,
            },
            own => own,
        }
    }

    /// What the name of a type means in a module.
    pub fn reference_meaning(&self, home: usize, name: &TypeName) -> Meaning
        ensures { Means (module_terms self.now) result (reference_meaning (module_terms self.now) home
            (named_module name.now) (named_type name.now)) }
    {
        match &name.member {
            Some(member) => self.meaning_within(
                self.module_meaning(name.name.text.as_slice()),
                member.text.as_slice(),
            ),
            None => self.name_meaning(home, name.name.text.as_slice()),
        }
    }
}

/// The type of an assignment: the one that is assigned, or the value's.
pub fn type_of(assignment: &Assignment) -> &TypeText
    ensures { type_term result.now ≡ type_assigned (assigned_term assignment.now.assigned) }
{
    match &assignment.assigned {
        Assigned::OfType(of) => of,
        Assigned::OfValue { of, .. } => of,
    }
}

/// The token of a type's name: behind the point, where one stands.
pub fn name_token(name: &TypeName) -> &Token
    ensures { result.now ≡ named_type name.now }
{
    match &name.member {
        Some(member) => member,
        None => &name.name,
    }
}
