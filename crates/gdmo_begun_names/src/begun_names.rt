//! With which first names the object identifiers begin that stand in a value: the syntax decides which braces are arcs
//! and which hold components or elements (X.680, sections 17 to 32; docs/PROFILE.md, sections 8 and 12).

ghost use Rattle.std.specs.Prelude.{◌≡◌, ◌↔◌, true, option_map, set};
ghost use Rattle.token_grammar.specs.Form.{Bare, Empty, First, Leaf, Pair, Second};
ghost use Rattle.token_grammar.specs.Parts.{list_tree};
ghost use Rattle.asn1_names.specs.FirstNames.{found};
ghost use Rattle.asn1_names.specs.StandardModule.{is_same_name};
ghost use Rattle.asn1_values_syntax.specs.ValueTrees.{content_tree, part_tree, value_tree};
ghost use Rattle.gdmo_names.specs.ValueNames.{arcs_name, chosen_value, content_name, part_name};
ghost use Rattle.gdmo_begun_names.specs.BegunMarks.{DefinesSome, Marks, MaybeFirst, ThisFirst};
ghost use Rattle.gdmo_begun_names.specs.PartNames.{MayBeginPart, MayBeginValue, syntax_called};

use asn1_values_syntax::value::{BracesText, NamedValue, ValuePart, ValueText};
use indexmap::IndexMap;
use term_values::{Parts, Syntax};
use token_grammar::Token;

/// First names, and which of them some identifier begins with.
#[derive(Drop)]
pub struct BegunNames<'a, 't> {
    /// The number of the assignment by which the first module that defines a name does.
    pub defined: &'t IndexMap<&'a [u8], usize>,
    /// Whether some identifier begins with the name that an assignment defines.
    pub begun: Vec<bool>,
}

/// A name before a number without a sign.
fn numbered_name<'v>(name: &'v Token, value: &ValueText) -> Option<&'v Token>
    ensures { option_map (λ token. token.now) result ≡ part_name (First (Pair (Leaf name.now) (value_tree value.now))) }
{
    match value {
        ValueText::Number(number) => match &number.minus {
            Some(_) => None,
            None => Some(name),
        },
        ValueText::Literal(_) => None,
        ValueText::Named(_) => None,
        ValueText::Braces { .. } => None,
    }
}

/// A name alone.
fn lone_name(value: &ValueText) -> Option<&Token>
    ensures { option_map (λ token. token.now) result ≡ part_name (Second (value_tree value.now)) }
{
    match value {
        ValueText::Named(named) => match named {
            NamedValue::Name(name) => Some(name),
            NamedValue::Choice { .. } => None,
        },
        ValueText::Literal(_) => None,
        ValueText::Number(_) => None,
        ValueText::Braces { .. } => None,
    }
}

/// The name with which a part begins that can be an arc: a name, or a name and a number.
fn part_name(part: &ValuePart) -> Option<&Token>
    ensures { option_map (λ token. token.now) result ≡ part_name (part_tree part.now) }
{
    match part {
        ValuePart::Named { name, value } => numbered_name(name, value),
        ValuePart::Unnamed(value) => lone_name(value),
    }
}

/// The name with which parts begin that can be arcs: there is one of them.
fn only_name(parts: &[ValuePart]) -> Option<&Token>
    ensures { option_map (λ token. token.now) result ≡
        content_name (Second (First (Pair (list_tree part_tree Empty parts.now) Bare))) }
{
    if parts.len() == 1 {
        part_name(&parts[0])
    } else {
        None
    }
}

/// The name with which braces begin that can be arcs.
fn content_name(content: &BracesText) -> Option<&Token>
    ensures { option_map (λ token. token.now) result ≡ content_name (content_tree content.now) }
{
    match content {
        BracesText::Nothing => None,
        BracesText::Parts(parts) => only_name(parts.as_slice()),
        BracesText::Arcs(_) => None,
        BracesText::NamedArcs { first, .. } => Some(first),
    }
}

/// The name with which a value begins that can be arcs.
fn arcs_name(value: &ValueText) -> Option<&Token>
    ensures { option_map (λ token. token.now) result ≡ arcs_name (value_tree value.now) }
{
    match value {
        ValueText::Braces { content, .. } => content_name(content),
        ValueText::Literal(_) => None,
        ValueText::Number(_) => None,
        ValueText::Named(_) => None,
    }
}

/// The alternative that a value chooses, and its value.
fn chosen_value(value: &ValueText) -> Option<(&Token, &ValueText)>
    ensures { option_map (λ chosen. (chosen.0.now, value_tree chosen.1.now)) result ≡
        chosen_value (value_tree value.now) }
{
    match value {
        ValueText::Named(named) => match named {
            NamedValue::Choice { name, value } => Some((name, &**value)),
            NamedValue::Name(_) => None,
        },
        ValueText::Literal(_) => None,
        ValueText::Number(_) => None,
        ValueText::Braces { .. } => None,
    }
}

/// The syntax of the first component or alternative of a name.
pub(crate) fn part_called<'s>(parts: &'s Parts, name: &[u8]) -> Option<&'s Syntax>
    ensures { option_map (λ syntax. syntax.now) result ≡ syntax_called name.now parts.now }
{
    for part in parts.items.iter() {
        if part.name.as_slice() == name {
            return Some(&part.syntax);
        }
    }
    None
}

/// Whether a value itself can be arcs that begin with a name that some module defines.
fn arcs_may_begin(names: &BegunNames, value: &ValueText) -> bool
    ensures { (result ≡ true) ↔ DefinesSome (MaybeFirst (arcs_name (value_tree value.now))) names.now }
{
    match arcs_name(value) {
        Some(name) => names.number_of(name).is_some(),
        None => false,
    }
}

/// The same of what stands in a part.
#[cycle(begun_names)]
fn part_may_begin(names: &BegunNames, part: &ValuePart) -> bool
    ensures { (result ≡ true) ↔ DefinesSome (MayBeginPart (part_tree part.now)) names.now }
{
    match part {
        ValuePart::Named { value, .. } => may_begin(names, value),
        ValuePart::Unnamed(value) => may_begin(names, value),
    }
}

/// Whether a value has braces that can be arcs and begin with a name that some module defines.
#[cycle(begun_names)]
fn may_begin(names: &BegunNames, value: &ValueText) -> bool
    ensures { (result ≡ true) ↔ DefinesSome (MayBeginValue (value_tree value.now)) names.now }
{
    if arcs_may_begin(names, value) {
        return true;
    }
    match value {
        ValueText::Literal(_) => false,
        ValueText::Number(_) => false,
        ValueText::Named(named) => match named {
            NamedValue::Name(_) => false,
            NamedValue::Choice { value, .. } => may_begin(names, value),
        },
        ValueText::Braces { content, .. } => match content {
            BracesText::Nothing => false,
            BracesText::Parts(parts) => {
                for part in parts.iter() {
                    if part_may_begin(names, part) {
                        return true;
                    }
                }
                false
            }
            BracesText::Arcs(_) => false,
            BracesText::NamedArcs { .. } => false,
        },
    }
}

/// Whether a name is this word.
pub(crate) fn is_named(name: &[u8], word: &str) -> bool
    ensures { result ≡ is_same_name word.now name.now }
{
    word.as_bytes() == name
}

/// Sets the mark with a number.
fn set_mark(marks: &mut Vec<bool>, number: usize)
    ensures { marks.new.items ≡ set marks.old.items number true }
{
    if let Some(slot) = marks.get_mut(number) {
        *slot = true;
    }
}

impl<'a, 't> BegunNames<'a, 't> {
    /// The number of the assignment that defines a name.
    fn number_of(&self, name: &Token) -> Option<usize>
        ensures { result ≡ found self.now.defined.now name.now.text }
    {
        self.defined.get(name.text.as_slice()).copied()
    }

    /// Whether a value has braces that can be arcs and begin with a name that some module defines.
    pub fn may_stand_in(&self, value: &ValueText) -> bool
        ensures { (result ≡ true) ↔ DefinesSome (MayBeginValue (value_tree value.now)) self.now }
    {
        may_begin(self, value)
    }

    /// Marks a name with which an identifier begins.
    pub fn mark(&mut self, name: &Token)
        ensures { Marks (ThisFirst name.now) self.old self.new }
    {
        match self.number_of(name) {
            Some(number) => set_mark(&mut self.begun, number),
            None => {}
        }
    }

    /// Marks the name with which an OBJECT IDENTIFIER value begins.
    pub(crate) fn mark_arcs(&mut self, value: &ValueText)
        ensures { Marks (MaybeFirst (arcs_name (value_tree value.now))) self.old self.new }
    {
        match arcs_name(value) {
            Some(name) => self.mark(name),
            None => {}
        }
    }
}
