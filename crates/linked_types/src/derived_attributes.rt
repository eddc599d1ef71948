//! Which attributes derive from themselves, and the types and the rules of attributes (X.722, section 8.7).

ghost use Rattle.std.specs.Prelude.{◌≡◌, List, IfOk, OnOk, map, slice_set};
ghost use Rattle.std.specs.Option.{option_copied};
ghost use Rattle.asn1_names.specs.ModuleTerms.{ModuleTerm};
ghost use Rattle.link_graphs.specs.ChainEnds.{AreEnds};
ghost use Rattle.link_graphs.specs.Cycles.{IsBehindTargets};
ghost use Rattle.linked_parts.specs.declared.linked.Linked.{Linked as LinkedTerm};
ghost use Rattle.filled_syntaxes.specs.KnownThings.{AreNamedThings};
ghost use Rattle.class_faults.specs.CyclicFaults.{CyclicAttributeFaults, bases_of_each};
ghost use Rattle.class_faults.specs.FaultSets.{Notes};
ghost use Rattle.linked_types.specs.AttributeRules.{AreAttributeRules, has_word};
ghost use Rattle.linked_types.specs.RuleSteps.{base_rules, either_rules, rules_at, rules_now, stated_rules};
ghost use Rattle.linked_types.specs.RuleSteps.{stepped_rules};
ghost use Rattle.linked_types.specs.AttributeTypes.{AreAttributeTypes, base_link, base_links, name_at, type_name};
ghost use Rattle.linked_types.specs.NotedDefaults.{BadDefaults};
ghost use Rattle.linked_types.specs.PartTypes.{AreDerivedAttributes, AreTold, TellsOptionalType};
ghost use Rattle.linked_types.specs.TypeTables.{IsTypeTable, NamesTypes};

use crate::cyclic_attributes::note_cyclic;
use crate::type_table::TypeTable;
use class_faults::Faults;
use filled_syntaxes::{BadTexts, NamedThings};
use link_graphs::{Link, chain_ends};
use linked_parts::Linked;
use linked_parts::linked::{LinkedAttribute, LinkedSyntax};
use std::alloc::{AllocError, Global};
use term_values::Rules;
use token_grammar::Token;
use token_grammar::token_tests::is_word_of;

fn link_of(attribute: &LinkedAttribute) -> Link
    ensures { result ≡ base_link attribute.now.syntax }
{
    match &attribute.syntax {
        LinkedSyntax::OfType(_) => Link::End,
        LinkedSyntax::OfAttribute(base) => Link::Next(*base),
    }
}

fn has_word(words: &[Token], word: &str) -> bool
    ensures { result ≡ has_word word.now words.now }
{
    words.iter().any(|token| is_word_of(token, word))
}

/// The rules that an attribute states itself.
fn own_rules(words: &[Token]) -> Rules
    ensures { result ≡ stated_rules words.now }
{
    Rules {
        equality: has_word(words, "EQUALITY"),
        ordering: has_word(words, "ORDERING"),
        substrings: has_word(words, "SUBSTRINGS"),
        comparison: has_word(words, "SET-COMPARISON"),
        intersection: has_word(words, "SET-INTERSECTION"),
    }
}

/// The rules of both.
fn both_rules(one: Rules, other: Rules) -> Rules
    ensures { result ≡ either_rules one other }
{
    Rules {
        equality: one.equality || other.equality,
        ordering: one.ordering || other.ordering,
        substrings: one.substrings || other.substrings,
        comparison: one.comparison || other.comparison,
        intersection: one.intersection || other.intersection,
    }
}

/// The rules of an attribute, from those of its base that are known.
fn rules_of(attribute: &LinkedAttribute, known: &[Rules]) -> Rules
    ensures { result ≡ rules_now known.now attribute.now }
{
    let own = own_rules(attribute.rules.as_slice());
    match &attribute.syntax {
        LinkedSyntax::OfType(_) => own,
        LinkedSyntax::OfAttribute(base) => match known.get(*base) {
            Some(rules) => both_rules(own, *rules),
            None => own,
        },
    }
}

/// The rules that each attribute states itself.
fn first_rules(alloc: Global, attributes: &[LinkedAttribute]) -> Result<Vec<Rules>, AllocError>
    ensures { IfOk result (λ rules. rules.items ≡ map (λ x. stated_rules x.rules.items) attributes.now) }
{
    attributes
        .iter()
        .map(|attribute| own_rules(attribute.rules.as_slice()))
        .collect(alloc)
}

/// The rules of the attribute at a place, from those of its base that are known.
fn rules_at(attributes: &[LinkedAttribute], known: &[Rules], place: usize) -> Option<Rules>
    ensures { result ≡ rules_at attributes.now known.now place }
{
    match attributes.get(place) {
        Some(attribute) => Some(rules_of(attribute, known)),
        None => None,
    }
}

fn set_rules(rules: &mut Vec<Rules>, place: usize, joined: Rules)
    ensures { rules.new.items ≡ slice_set rules.old.items place joined }
{
    if let Some(slot) = rules.get_mut(place) {
        *slot = joined;
    }
}

/// Joins the rules of the attribute at a place with those of its base.
fn join_base(attributes: &[LinkedAttribute], rules: &mut Vec<Rules>, place: usize)
    ensures { rules.new.items ≡ stepped_rules attributes.now rules.old.items place }
{
    match rules_at(attributes, rules.as_slice(), place) {
        Some(joined) => set_rules(rules, place, joined),
        None => {}
    }
}

/// The rules of each attribute, in an order in which each stands behind its base.
fn all_rules(
    alloc: Global,
    attributes: &[LinkedAttribute],
    order: &[usize],
) -> Result<Vec<Rules>, AllocError>
    ensures { IfOk result (λ rules. (linked : LinkedTerm) → linked.attributes.items ≡ attributes.now →
        IsBehindTargets (bases_of_each attributes.now) order.now → AreAttributeRules linked rules.items) }
{
    let mut rules = first_rules(alloc, attributes)?;
    for place in order {
        join_base(attributes, &mut rules, *place);
    }
    Ok(rules)
}

/// What is found of attributes, by their places.
#[derive(Drop)]
pub struct DerivedAttributes {
    /// The place of the type of each in the table of types; none of one that derives from itself.
    pub types: Vec<Option<usize>>,
    /// The rules of each.
    pub rules: Vec<Rules>,
}

/// The place of the type with whose name a syntax is stated.
fn type_place(
    things: &NamedThings,
    syntax: &LinkedSyntax,
    table: &mut TypeTable,
    bad: &mut BadTexts,
) -> Result<Option<usize>, AllocError>
    ensures told { IfOk result (λ place. (ms : List ModuleTerm) (linked : LinkedTerm) →
        AreNamedThings ms linked things.now → IsTypeTable ms linked table.old →
        TellsOptionalType ms linked table.new (type_name syntax.now) place) }
    ensures names { OnOk result ((ms : List ModuleTerm) (linked : LinkedTerm) → AreNamedThings ms linked things.now →
        IsTypeTable ms linked table.old →
        NamesTypes ms linked (BadDefaults ms linked) table.old table.new bad.old.first bad.new.first) }
{
    match syntax {
        LinkedSyntax::OfType(name) => Ok(Some(table.place(things, name, bad)?)),
        LinkedSyntax::OfAttribute(_) => Ok(None),
    }
}

/// The place of the type of the attribute at an end.
fn end_type(
    things: &NamedThings,
    attributes: &[LinkedAttribute],
    end: Option<usize>,
    table: &mut TypeTable,
    bad: &mut BadTexts,
) -> Result<Option<usize>, AllocError>
    ensures told { IfOk result (λ place. (ms : List ModuleTerm) (linked : LinkedTerm) →
        AreNamedThings ms linked things.now → IsTypeTable ms linked table.old →
        TellsOptionalType ms linked table.new (name_at attributes.now end) place) }
    ensures names { OnOk result ((ms : List ModuleTerm) (linked : LinkedTerm) → AreNamedThings ms linked things.now →
        IsTypeTable ms linked table.old →
        NamesTypes ms linked (BadDefaults ms linked) table.old table.new bad.old.first bad.new.first) }
{
    match end {
        Some(place) => match attributes.get(place) {
            Some(attribute) => type_place(things, &attribute.syntax, table, bad),
            None => Ok(None),
        },
        None => Ok(None),
    }
}

/// Where the syntax of each attribute leads.
fn all_links(alloc: Global, attributes: &[LinkedAttribute]) -> Result<Vec<Link>, AllocError>
    ensures { IfOk result (λ links. links.items ≡ base_links attributes.now) }
{
    attributes
        .iter()
        .map(|attribute| link_of(attribute))
        .collect(alloc)
}

/// The attribute at which the bases of each end.
fn base_ends(
    alloc: Global,
    attributes: &[LinkedAttribute],
) -> Result<Vec<Option<usize>>, AllocError>
    ensures { IfOk result (λ ends. AreEnds (base_links attributes.now) ends.items) }
{
    let links = all_links(alloc, attributes)?;
    chain_ends(alloc, links.as_slice())
}

/// The place of the type of each attribute at an end.
fn end_types(
    things: &NamedThings,
    attributes: &[LinkedAttribute],
    ends: &[Option<usize>],
    table: &mut TypeTable,
    bad: &mut BadTexts,
) -> Result<Vec<Option<usize>>, AllocError>
    ensures told { IfOk result (λ types. (ms : List ModuleTerm) (linked : LinkedTerm) →
        AreNamedThings ms linked things.now → IsTypeTable ms linked table.old →
        AreTold (λ end place. TellsOptionalType ms linked table.new (name_at attributes.now end) place) ends.now
        types.items) }
    ensures names { OnOk result ((ms : List ModuleTerm) (linked : LinkedTerm) → AreNamedThings ms linked things.now →
        IsTypeTable ms linked table.old →
        NamesTypes ms linked (BadDefaults ms linked) table.old table.new bad.old.first bad.new.first) }
{
    let mut types = Vec::new(things.alloc);
    for end in ends {
        types.push(end_type(things, attributes, *end, table, bad)?)?;
    }
    Ok(types)
}

/// The place of the type of each attribute: that of the attribute at which its bases end.
fn all_types(
    things: &NamedThings,
    attributes: &[LinkedAttribute],
    table: &mut TypeTable,
    bad: &mut BadTexts,
) -> Result<Vec<Option<usize>>, AllocError>
    ensures told { IfOk result (λ types. (ms : List ModuleTerm) (linked : LinkedTerm) →
        AreNamedThings ms linked things.now → IsTypeTable ms linked table.old →
        linked.attributes.items ≡ attributes.now → AreAttributeTypes ms linked table.new types.items) }
    ensures names { OnOk result ((ms : List ModuleTerm) (linked : LinkedTerm) → AreNamedThings ms linked things.now →
        IsTypeTable ms linked table.old →
        NamesTypes ms linked (BadDefaults ms linked) table.old table.new bad.old.first bad.new.first) }
{
    let ends = base_ends(things.alloc, attributes)?;
    let types = end_types(things, attributes, ends.as_slice(), table, bad)?;
    Ok(types)
}

/// The types and the rules of attributes. Notes those that derive from themselves, and texts of DEFAULT that denote no
/// value; what stood in the table stays there.
pub fn derived_attributes(
    things: &NamedThings,
    linked: &Linked,
    table: &mut TypeTable,
    bad: &mut BadTexts,
    faults: &mut Faults,
) -> Result<DerivedAttributes, AllocError>
    ensures noted { OnOk result (Notes (CyclicAttributeFaults linked.now.attributes.items) faults.old.first
        faults.new.first) }
    ensures told { IfOk result (λ derived. (ms : List ModuleTerm) → AreNamedThings ms linked.now things.now →
        IsTypeTable ms linked.now table.old → AreDerivedAttributes ms linked.now table.new derived) }
    ensures names { OnOk result ((ms : List ModuleTerm) → AreNamedThings ms linked.now things.now →
        IsTypeTable ms linked.now table.old → NamesTypes ms linked.now (BadDefaults ms linked.now)
        table.old table.new bad.old.first bad.new.first) }
{
    let attributes = linked.attributes.as_slice();
    let cycles = note_cyclic(things.alloc, attributes, faults)?;
    let rules = all_rules(things.alloc, attributes, cycles.order.as_slice())?;
    let types = all_types(things, attributes, table, bad)?;
    Ok(DerivedAttributes { types, rules })
}
