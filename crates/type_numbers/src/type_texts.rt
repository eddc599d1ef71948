//! The texts of types, and of the types in them, with names gone past (X.680, section 17; docs/PROFILE.md, section 12).

ghost use Rattle.std.specs.Prelude.{◌≡◌, ℕ, IfOk, MatchOption, map, option_map, true};
ghost use Rattle.token_grammar.specs.declared.token.Token.{Token};
ghost use Rattle.asn1_names.specs.AssignmentNumbers.{assignment_count, numbered_at};
ghost use Rattle.asn1_names.specs.CodeMeanings.{IsTypeOf};
ghost use Rattle.asn1_names.specs.ModuleTerms.MemberTerms.{NoMembers};
ghost use Rattle.asn1_names.specs.TermViews.{module_terms, presence_term, structure_term, type_term};
ghost use Rattle.asn1_types.specs.BuiltSyntaxes.{alternative_member, component_member};
ghost use Rattle.asn1_types.specs.MeasuredTypes.{members_listed};
ghost use Rattle.key_numbers.specs.TypeKeys.{TypeKey};
ghost use Rattle.type_numbers.specs.KeysBeside.{IsBeside, IsBesideAt, IsBesideEnd};
ghost use Rattle.type_numbers.specs.PlacedTerms.{HasComponents, are_components, beneath_at, beneath_of, default_at};
ghost use Rattle.type_numbers.specs.PlacedTerms.{member_at, members_of, nth_default, nth_member, placed_terms};
ghost use Rattle.type_numbers.specs.PlacedTerms.{stands_default};
ghost use Rattle.type_numbers.specs.TextLeads.{AreTextLinks, IsAssignedBeside, IsEndBeside, IsTextLink, NamesAssigned};
ghost use Rattle.type_numbers.specs.TextLeads.{TellsLead};

use asn1_names::name_tables::{Meaning, NameTables};
use asn1_names::type_walk::name_of;
use asn1_syntax::presence::Presence;
use asn1_syntax::type_text::{Alternative, Component, StructureText, TypeText};
use link_graphs::{Link, chain_ends};
use std::alloc::{AllocError, Global};
use std::boxed::Box;
use std::marker::Model;

/// The text of a type, and the place of the module in which it stands.
#[derive(Clone, Copy)]
pub struct PlacedText<'a> {
    /// The place of the module.
    pub module: usize,
    /// The text.
    pub of: &'a TypeText,
}

/// Where a type leads that may be a name.
enum Lead {
    /// To the type of the assignment with this number.
    Assigned(usize),
    /// To no text: a type of CMIP-1, or nothing.
    Elsewhere,
    /// It is no name.
    Itself,
}

/// Where a text leads.
fn lead_of(tables: &NameTables, text: PlacedText) -> Lead
    ensures { TellsLead (module_terms tables.now) text.entry.module (type_term text.entry.of.now) result }
{
    let Some(name) = name_of(text.of) else {
        return Lead::Itself;
    };
    match tables.reference_meaning(text.module, name) {
        Meaning::TypeAt(target) => Lead::Assigned(target),
        Meaning::ValueAt(_) => Lead::Elsewhere,
        Meaning::Standard(_) => Lead::Elsewhere,
        Meaning::Nothing => Lead::Elsewhere,
    }
}

fn placed_at<'a>(tables: &NameTables<'a>, number: usize) -> Option<PlacedText<'a>>
    ensures { MatchOption result (numbered_at (module_terms tables.now) number ≡ None)
        (λ text. IsTypeOf (module_terms tables.now) number text.module (type_term text.of.now)) }
{
    match tables.type_at(number) {
        Some((module, of)) => Some(PlacedText { module, of }),
        None => None,
    }
}

/// Where the type of an assignment leads.
fn link_of(tables: &NameTables, number: usize) -> Link
    ensures { IsTextLink (module_terms tables.now) number result }
{
    match placed_at(tables, number) {
        Some(text) => match lead_of(tables, text) {
            Lead::Assigned(target) => Link::Next(target),
            Lead::Elsewhere => Link::End,
            Lead::Itself => Link::End,
        },
        None => Link::Stop,
    }
}

/// Texts of types of modules, with names gone past. Contracts see the modules.
#[derive(Drop)]
pub struct TypeTexts<'a, 't> {
    tables: &'t NameTables<'a>,
    /// The number of the assignment at which the names end that begin with the type of each assignment.
    ends: Vec<Option<usize>>,
}

impl<'a, 't> Model for TypeTexts<'a, 't> {
    ghost use Rattle.std.specs.Prelude.{List};
    ghost use Rattle.asn1_syntax.specs.declared.module.Module.{Module};

    ghost Value = { List Module };

    ghost use Rattle.std.specs.Coded.{coded_list};
    ghost use Rattle.asn1_syntax.specs.contracts.module.Module as m;

    ghost coded = { coded_list m.the_row.coded };

    ghost view = { λ t. t.tables.now };

    ghost use Rattle.asn1_names.specs.TermViews.{module_terms};
    ghost use Rattle.type_numbers.specs.TextLeads.{AreTextEnds};

    ghost invariant = { λ t. AreTextEnds (module_terms t.tables.now) t.ends.items };
}

/// Where the types of all assignments lead.
fn links_of(alloc: Global, tables: &NameTables) -> Result<Vec<Link>, AllocError>
    ensures { IfOk result (λ links. AreTextLinks (module_terms tables.now) links.items) }
{
    let mut links = Vec::new(alloc);
    for number in 0..tables.count() {
        links.push(link_of(tables, number))?;
    }
    Ok(links)
}

impl<'a, 't> TypeTexts<'a, 't> {
    /// The texts of the types of modules.
    pub fn new(alloc: Global, tables: &'t NameTables<'a>) -> Result<TypeTexts<'a, 't>, AllocError>
        ensures { IfOk result (λ texts. texts ≡ tables.now) }
    {
        let links = links_of(alloc, tables)?;
        let ends = chain_ends(alloc, links.as_slice())?;
        Ok(TypeTexts { tables, ends })
    }

    /// How many assignments there are.
    pub fn count(&self) -> usize
        ensures { result ≡ assignment_count (module_terms self.now) }
    {
        self.tables.count()
    }

    /// The assignment at which the names end that begin with the type of an assignment: itself where that is no name.
    pub fn end(&self, number: usize) -> usize
        ensures { (key : TypeKey) → IsAssignedBeside (module_terms self.now) number key →
            IsEndBeside (module_terms self.now) result key }
    {
        match self.ends.get(number) {
            Some(Some(end)) => *end,
            Some(None) => number,
            None => number,
        }
    }

    /// The text of the type of an assignment.
    pub fn type_at(&self, number: usize) -> Option<PlacedText<'a>>
        ensures { MatchOption result (numbered_at (module_terms self.now) number ≡ None)
            (λ text. IsTypeOf (module_terms self.now) number text.module (type_term text.of.now)) }
    {
        placed_at(self.tables, number)
    }

    /// The text at the end of names; none where they lead to a type of CMIP-1.
    pub fn at_end(&self, stated: Option<PlacedText<'a>>) -> Option<PlacedText<'a>>
        ensures { (key : TypeKey) → IsBesideAt (module_terms self.now) (placed_terms stated.entry) key →
            IsBesideEnd (module_terms self.now) (placed_terms result) key }
    {
        match stated {
            Some(text) => self.text_at_end(text),
            None => None,
        }
    }

    fn text_at_end(&self, text: PlacedText<'a>) -> Option<PlacedText<'a>>
        ensures { (key : TypeKey) →
            IsBeside (module_terms self.now) text.entry.module (type_term text.entry.of.now) key →
            IsBesideEnd (module_terms self.now) (placed_terms result) key }
    {
        match lead_of(self.tables, text) {
            Lead::Itself => Some(text),
            Lead::Elsewhere => None,
            Lead::Assigned(target) => self.end_text(target),
        }
    }

    /// The text at the end of names that begin with the type of an assignment.
    fn end_text(&self, number: usize) -> Option<PlacedText<'a>>
        ensures { (key : TypeKey) → IsAssignedBeside (module_terms self.now) number key →
            IsBesideEnd (module_terms self.now) (placed_terms result) key }
    {
        match self.type_at(self.end(number)) {
            Some(text) => self.itself(text),
            None => None,
        }
    }

    /// A text that is no name; none of one that is.
    fn itself(&self, text: PlacedText<'a>) -> Option<PlacedText<'a>>
        ensures { (key : TypeKey) →
            IsBeside (module_terms self.now) text.entry.module (type_term text.entry.of.now) key →
            ((target : ℕ) →
            ¬ NamesAssigned (module_terms self.now) text.entry.module (type_term text.entry.of.now) target) →
            IsBesideEnd (module_terms self.now) (placed_terms result) key }
    {
        match lead_of(self.tables, text) {
            Lead::Itself => Some(text),
            Lead::Elsewhere => None,
            Lead::Assigned(_) => None,
        }
    }
}

/// The components of a SEQUENCE or SET.
fn components_of(content: &StructureText) -> Option<&[Component]>
    ensures { (word : Token) → MatchOption result (members_of (structure_term word content.now) ≡ NoMembers)
        (λ components. HasComponents (structure_term word content.now)
        (members_listed (map component_member components.now))) }
{
    match content {
        StructureText::Components { components, .. } => match components {
            Some(components) => Some(components.as_slice()),
            None => None,
        },
        StructureText::ListOf { .. } => None,
    }
}

/// The text of the component at a place.
fn component_text(content: &StructureText, place: usize) -> Option<&TypeText>
    ensures { (word : Token) → option_map (λ x. type_term x.now) result ≡
        nth_member (members_of (structure_term word content.now)) place }
{
    match components_of(content) {
        Some(components) => match components.get(place) {
            Some(component) => Some(&component.of),
            None => None,
        },
        None => None,
    }
}

/// The text of the alternative at a place.
fn alternative_text(alternatives: &[Alternative], place: usize) -> Option<&TypeText>
    ensures { option_map (λ x. type_term x.now) result ≡
        nth_member (members_listed (map alternative_member alternatives.now)) place }
{
    match alternatives.get(place) {
        Some(alternative) => Some(&alternative.of),
        None => None,
    }
}

/// The text of the component or alternative at a place, of a type.
fn member_of(of: &TypeText, place: usize) -> Option<&TypeText>
    ensures { option_map (λ x. type_term x.now) result ≡ nth_member (members_of (type_term of.now)) place }
{
    match of {
        TypeText::Choice { alternatives, .. } => alternative_text(alternatives.as_slice(), place),
        TypeText::Structured { content, .. } => component_text(content, place),
        TypeText::Tagged { .. } => None,
        TypeText::Plain { .. } => None,
    }
}

/// The text of the component or alternative at a place.
pub fn member_text<'a>(text: Option<PlacedText<'a>>, place: usize) -> Option<PlacedText<'a>>
    ensures { placed_terms result ≡ member_at (placed_terms text.entry) place }
{
    match text {
        Some(text) => match member_of(text.of, place) {
            Some(of) => Some(PlacedText {
                module: text.module,
                of,
            }),
            None => None,
        },
        None => None,
    }
}

/// Whether DEFAULT stands where a component may be missing.
fn is_default(presence: &Option<Box<Presence>>) -> bool
    ensures { result ≡ stands_default true (presence_term presence.now) }
{
    match presence {
        Some(presence) => match &**presence {
            Presence::Default(_) => true,
            Presence::Optional(_) => false,
        },
        None => false,
    }
}

/// Whether DEFAULT stands at the component at a place, of a SEQUENCE or SET.
fn component_default(content: &StructureText, place: usize) -> bool
    ensures { (word : Token) → result ≡ nth_default (are_components (structure_term word content.now))
        (members_of (structure_term word content.now)) place }
{
    match components_of(content) {
        Some(components) => match components.get(place) {
            Some(component) => is_default(&component.presence),
            None => false,
        },
        None => false,
    }
}

/// Whether DEFAULT stands at the component at a place, of a type.
fn default_of(of: &TypeText, place: usize) -> bool
    ensures { result ≡ nth_default (are_components (type_term of.now)) (members_of (type_term of.now)) place }
{
    match of {
        TypeText::Structured { content, .. } => component_default(content, place),
        TypeText::Choice { .. } => false,
        TypeText::Tagged { .. } => false,
        TypeText::Plain { .. } => false,
    }
}

/// Whether DEFAULT stands at the component at a place.
pub fn has_default(text: Option<PlacedText>, place: usize) -> bool
    ensures { result ≡ default_at (placed_terms text.entry) place }
{
    match text {
        Some(text) => default_of(text.of, place),
        None => false,
    }
}

/// The type of the elements of a list.
fn element_of(content: &StructureText) -> Option<&TypeText>
    ensures { (word : Token) → option_map (λ x. type_term x.now) result ≡
        beneath_of (structure_term word content.now) }
{
    match content {
        StructureText::ListOf { of, .. } => Some(of),
        StructureText::Components { .. } => None,
    }
}

/// The type under a tag, or of the elements of a list.
fn type_beneath(of: &TypeText) -> Option<&TypeText>
    ensures { option_map (λ x. type_term x.now) result ≡ beneath_of (type_term of.now) }
{
    match of {
        TypeText::Tagged { of: inner, .. } => Some(inner),
        TypeText::Structured { content, .. } => element_of(content),
        TypeText::Choice { .. } => None,
        TypeText::Plain { .. } => None,
    }
}

/// The text of the type under a tag, or of the elements of a list.
pub fn text_beneath<'a>(text: Option<PlacedText<'a>>) -> Option<PlacedText<'a>>
    ensures { placed_terms result ≡ beneath_at (placed_terms text.entry) }
{
    match text {
        Some(text) => match type_beneath(text.of) {
            Some(of) => Some(PlacedText {
                module: text.module,
                of,
            }),
            None => None,
        },
        None => None,
    }
}
