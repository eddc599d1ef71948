//! The types that linked parts name, each with its syntax once (X.680, section 16).

ghost use Rattle.std.specs.Prelude.{◌≡◌, ◌++◌, ◌∷◌, [], List, IfOk, IfSome, OnOk, Some, slice_get, slice_set};
ghost use Rattle.std.specs.Option.{option_copied};
ghost use Rattle.asn1_names.specs.CodeMeanings.{Means};
ghost use Rattle.asn1_names.specs.ModuleTerms.{ModuleTerm};
ghost use Rattle.asn1_names.specs.TermViews.{module_terms};
ghost use Rattle.linked_parts.specs.declared.linked.Linked.{Linked};
ghost use Rattle.filled_syntaxes.specs.BadDefaults.{BadBeside};
ghost use Rattle.filled_syntaxes.specs.KnownThings.{AreNamedThings};
ghost use Rattle.filled_syntaxes.specs.LinkedMeanings.{linked_arcs, linked_meaning};
ghost use Rattle.linked_types.specs.NotedDefaults.{BadDefaults, NotesSome};
ghost use Rattle.linked_types.specs.PartTypes.{TellsOptionalType};
ghost use Rattle.linked_types.specs.TypeTables.{IsKept, IsNamedType, IsTypeAt, IsTypeTable, KeepsAssigned, KeepsPlace};
ghost use Rattle.linked_types.specs.TypeTables.{KeepsStandard, NamesTypes, behind_module, called_at, syntax_at};
ghost use Rattle.linked_types.specs.TypeTables.{type_at};
ghost use Rattle.linked_types.specs.TypeTables.{type_called, with_assigned};

use asn1_names::Meaning;
use asn1_syntax::module::Module;
use filled_syntaxes::{BadTexts, NamedThings};
use linked_parts::linked::{LinkedName, NamedMeaning};
use std::alloc::{AllocError, Global};
use term_values::{Bytes, Syntax};

/// A type that is named.
#[derive(Drop)]
pub struct NamedType {
    /// Its name, with its module and a point before it.
    pub name: Bytes,
    /// Its syntax; none where the name means no type.
    pub syntax: Option<Syntax>,
}

/// A type of CMIP-1 that is named.
#[derive(Drop)]
struct StandardPlace {
    /// Its name there.
    name: Bytes,
    /// Its place among the types.
    place: usize,
}

/// The types that were named so far. Each is told by its place.
#[derive(Drop)]
pub struct TypeTable {
    items: Vec<NamedType>,
    /// The place of the type of each assignment, by its number.
    assigned: Vec<Option<usize>>,
    /// The places of the types of CMIP-1.
    standard: Vec<StandardPlace>,
}

/// The place of the type of CMIP-1 with this name.
fn standard_place(standard: &[StandardPlace], name: &[u8]) -> Option<usize>
    ensures { IfSome result (λ place. KeepsStandard standard.now name.now place) }
{
    for entry in standard {
        if entry.name.as_slice() == name {
            return Some(entry.place);
        }
    }
    None
}

/// A name behind that of its module and a point.
fn name_behind(alloc: Global, module_name: &[u8], name: &[u8]) -> Result<Bytes, AllocError>
    ensures { IfOk result (λ text. text ≡ behind_module module_name.now name.now) }
{
    let mut items = Vec::new(alloc);
    items.extend_from_slice(module_name)?;
    items.push(b'.')?;
    items.extend_from_slice(name)?;
    Ok(Bytes { items })
}

/// The name of an assignment with its module's.
fn assigned_name(
    alloc: Global,
    modules: &[Module],
    home: usize,
    assignment: usize,
) -> Result<Bytes, AllocError>
    ensures { IfOk result (λ text. text ≡ called_at (slice_get (module_terms modules.now) home) assignment) }
{
    let Some(text) = modules.get(home) else {
        return Bytes::from_slice(alloc, b"");
    };
    let Some(found) = text.assignments.as_slice().get(assignment) else {
        return Bytes::from_slice(alloc, b"");
    };
    name_behind(alloc, text.name.text.as_slice(), found.name.text.as_slice())
}

/// The name of a type with its module's.
fn type_name(things: &NamedThings, named: &NamedMeaning) -> Result<Bytes, AllocError>
    ensures { IfOk result (λ text. (ms : List ModuleTerm) (linked : Linked) → AreNamedThings ms linked things.now →
        text ≡ type_called ms named.now) }
{
    match named {
        NamedMeaning::Assigned { module, assignment } => {
            assigned_name(things.alloc, things.modules, *module, *assignment)
        }
        NamedMeaning::Standard(name) => {
            name_behind(things.alloc, b"CMIP-1", name.text.as_slice())
        }
    }
}

/// The type that a name means. Notes the texts of DEFAULT beside it that denote no value.
fn named_type(
    things: &NamedThings,
    named: &NamedMeaning,
    meaning: Meaning,
    bad: &mut BadTexts,
) -> Result<NamedType, AllocError>
    ensures told { IfOk result (λ x. (ms : List ModuleTerm) (linked : Linked) → AreNamedThings ms linked things.now →
        Means ms meaning (linked_meaning ms named.now) → IsNamedType ms linked named.now x) }
    ensures noted { OnOk result ((ms : List ModuleTerm) (linked : Linked) → AreNamedThings ms linked things.now →
        Means ms meaning (linked_meaning ms named.now) →
        NotesSome (BadBeside ms (linked_arcs linked) (linked_meaning ms named.now)) bad.old.first bad.new.first) }
{
    let name = type_name(things, named)?;
    let syntax = things.filled(meaning, bad)?;
    Ok(NamedType { name, syntax })
}

/// Sets the place with a number.
fn set_place(places: &mut Vec<Option<usize>>, number: usize, place: usize)
    ensures { places.new.items ≡ slice_set places.old.items number (Some place) }
{
    if let Some(slot) = places.get_mut(number) {
        *slot = Some(place);
    }
}

/// Keeps the place of the type of an assignment.
fn keep_assigned(assigned: &mut Vec<Option<usize>>, meaning: Meaning, place: usize)
    ensures { assigned.new.items ≡ with_assigned assigned.old.items meaning place }
{
    match meaning {
        Meaning::TypeAt(number) => set_place(assigned, number, place),
        Meaning::ValueAt(_) => {}
        Meaning::Standard(_) => {}
        Meaning::Nothing => {}
    }
}

/// Keeps the place of a type of CMIP-1.
fn keep_standard(
    alloc: Global,
    standard: &mut Vec<StandardPlace>,
    name: &[u8],
    place: usize,
) -> Result<(), AllocError>
    ensures { OnOk result (standard.new.items ≡ standard.old.items ++ record { name = name.now; place = place } ∷ []) }
{
    let name = Bytes::from_slice(alloc, name)?;
    standard.push(StandardPlace { name, place })?;
    Ok(())
}

impl TypeTable {
    /// No type is named yet; there are so many assignments.
    pub fn new(alloc: Global, assignments: usize) -> Result<TypeTable, AllocError>
        ensures { IfOk result (λ table. (ms : List ModuleTerm) (linked : Linked) → IsTypeTable ms linked table) }
    {
        let assigned: Vec<Option<usize>> = vec![in alloc; None; assignments]?;
        Ok(TypeTable {
            items: Vec::new(alloc),
            assigned,
            standard: Vec::new(alloc),
        })
    }

    /// The place of the type of an assignment, where it was named before.
    fn assigned_place(&self, meaning: Meaning) -> Option<usize>
        ensures { IfSome result (λ place. KeepsAssigned self.now.assigned.items meaning place) }
    {
        match meaning {
            Meaning::TypeAt(number) => self.assigned.get(number).copied().flatten(),
            _ => None,
        }
    }

    /// The place of the type that is meant, where it was named before.
    fn known(&self, named: &NamedMeaning, meaning: Meaning) -> Option<usize>
        ensures { IfSome result (λ place. IsKept self.now named.now meaning place) }
    {
        match named {
            NamedMeaning::Assigned { .. } => self.assigned_place(meaning),
            NamedMeaning::Standard(name) => {
                standard_place(self.standard.as_slice(), name.text.as_slice())
            }
        }
    }

    /// Keeps the place of a type.
    fn keep(
        &mut self,
        alloc: Global,
        named: &NamedMeaning,
        meaning: Meaning,
        place: usize,
    ) -> Result<(), AllocError>
        ensures items { self.new.items.items ≡ self.old.items.items }
        ensures kept { OnOk result (KeepsPlace self.old self.new named.now meaning place) }
    {
        match named {
            NamedMeaning::Assigned { .. } => {
                keep_assigned(&mut self.assigned, meaning, place);
                Ok(())
            }
            NamedMeaning::Standard(name) => {
                keep_standard(alloc, &mut self.standard, name.text.as_slice(), place)?;
                Ok(())
            }
        }
    }

    /// Appends the type that is meant, and keeps its place.
    fn add(
        &mut self,
        things: &NamedThings,
        named: &NamedMeaning,
        meaning: Meaning,
        bad: &mut BadTexts,
    ) -> Result<usize, AllocError>
        ensures told { IfOk result (λ place. (ms : List ModuleTerm) (linked : Linked) →
            AreNamedThings ms linked things.now → Means ms meaning (linked_meaning ms named.now) →
            IsTypeAt ms linked named.now self.new place) }
        ensures names { OnOk result ((ms : List ModuleTerm) (linked : Linked) → AreNamedThings ms linked things.now →
            Means ms meaning (linked_meaning ms named.now) → IsTypeTable ms linked self.old →
            NamesTypes ms linked (BadBeside ms (linked_arcs linked) (linked_meaning ms named.now)) self.old self.new
            bad.old.first bad.new.first) }
    {
        let item = named_type(things, named, meaning, bad)?;
        let place = self.items.as_slice().len();
        self.items.push(item)?;
        self.keep(things.alloc, named, meaning, place)?;
        Ok(place)
    }

    /// The place of the type that a name means. What stood in the table stays there; only texts of DEFAULT beside the
    /// type are noted that denote no value.
    pub fn place(
        &mut self,
        things: &NamedThings,
        name: &LinkedName,
        bad: &mut BadTexts,
    ) -> Result<usize, AllocError>
        ensures told { IfOk result (λ place. (ms : List ModuleTerm) (linked : Linked) →
            AreNamedThings ms linked things.now → IsTypeTable ms linked self.old →
            IsTypeAt ms linked name.now.meaning self.new place) }
        ensures names { OnOk result ((ms : List ModuleTerm) (linked : Linked) → AreNamedThings ms linked things.now →
            IsTypeTable ms linked self.old →
            NamesTypes ms linked (BadBeside ms (linked_arcs linked) (linked_meaning ms name.now.meaning)) self.old
            self.new bad.old.first bad.new.first) }
    {
        let meaning = things.meaning(&name.meaning);
        match self.known(&name.meaning, meaning) {
            Some(place) => Ok(place),
            None => Ok(self.add(things, &name.meaning, meaning, bad)?),
        }
    }

    /// The place of the type of a name that may stand.
    pub fn optional_place(
        &mut self,
        things: &NamedThings,
        name: &Option<LinkedName>,
        bad: &mut BadTexts,
    ) -> Result<Option<usize>, AllocError>
        ensures told { IfOk result (λ place. (ms : List ModuleTerm) (linked : Linked) →
            AreNamedThings ms linked things.now → IsTypeTable ms linked self.old →
            TellsOptionalType ms linked self.new name.now place) }
        ensures names { OnOk result ((ms : List ModuleTerm) (linked : Linked) → AreNamedThings ms linked things.now →
            IsTypeTable ms linked self.old →
            NamesTypes ms linked (BadDefaults ms linked) self.old self.new bad.old.first bad.new.first) }
    {
        match name {
            Some(name) => Ok(Some(self.place(things, name, bad)?)),
            None => Ok(None),
        }
    }

    /// The type at a place.
    pub fn named(&self, place: usize) -> Option<&NamedType>
        ensures { option_copied result ≡ type_at self.now place }
    {
        self.items.get(place)
    }

    /// The syntax of the type at a place that may be missing.
    pub fn syntax(&self, place: Option<usize>) -> Option<&Syntax>
        ensures { option_copied result ≡ syntax_at self.now place }
    {
        match self.items.get(place?) {
            Some(found) => found.syntax.as_ref(),
            None => None,
        }
    }
}
