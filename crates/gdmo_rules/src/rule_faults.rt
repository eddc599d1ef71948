//! What SET and REPLY take, and which attribute a word alone behind REPLY means (docs/PROFILE.md, sections 9 and 12).

ghost use Rattle.std.specs.Prelude.{◌≡◌, ◌↔◌, IfNone, IfSome, IsTrue};
ghost use Rattle.gdmo_names.specs.FoundViews.{AreLabels, AreTemplates, found_term};
ghost use Rattle.gdmo_names.specs.PartTerms.{PartTerms, kind_of};
ghost use Rattle.gdmo_names.specs.PartViews.{reply_term, taken_term, word_taken};
ghost use Rattle.gdmo_names.specs.TemplateTerms.TemplateKind.{AttributeKind};
ghost use Rattle.gdmo_rules.specs.AttributeLabels.{IsAttributeAt, TellsAttribute};
ghost use Rattle.gdmo_rules.specs.TakenViews.{taken_view};

use asn1_values_syntax::value::{NamedValue, ValueText};
use extra_syntax::step::Reply;
use gdmo_names::found::{Found, kind_of};
use gdmo_names::roles::TemplateKind;
use indexmap::IndexMap;
use token_grammar::Token;
use token_grammar::token_tests::is_word_of;

/// What SET or REPLY takes.
#[derive(Clone, Copy)]
pub enum Taken<'a> {
    /// The one word ARGUMENT.
    Argument(&'a Token),
    /// Any other word alone.
    Word(&'a Token),
    /// Any other value.
    Value(&'a ValueText),
}

/// What a word alone is that SET or REPLY takes.
fn taken_word<'a>(word: &'a Token) -> Taken<'a>
    ensures { taken_view result ≡ word_taken word.now }
{
    if is_word_of(word, "ARGUMENT") {
        Taken::Argument(word)
    } else {
        Taken::Word(word)
    }
}

/// What a value is that SET or REPLY takes.
pub fn taken_value<'a>(value: &'a ValueText) -> Taken<'a>
    ensures { taken_view result ≡ taken_term value.now }
{
    match value {
        ValueText::Named(NamedValue::Name(word)) => taken_word(word),
        ValueText::Literal(_)
        | ValueText::Number(_)
        | ValueText::Named(NamedValue::Choice { .. })
        | ValueText::Braces { .. } => Taken::Value(value),
    }
}

/// What REPLY takes.
pub fn taken_reply<'a>(reply: &'a Reply) -> Taken<'a>
    ensures { taken_view result ≡ reply_term reply.now }
{
    match reply {
        Reply::Value(value) => taken_value(value),
        Reply::Label(label) => Taken::Word(label),
    }
}

/// Whether a template is an attribute.
fn is_attribute(template: &Found) -> bool
    ensures { (IsTrue result) ↔ (kind_of (found_term template.now) ≡ AttributeKind) }
{
    kind_of(&template.body) == TemplateKind::Attribute
}

/// The number, where the template that has it is an attribute.
fn attribute_number(templates: &[Found], number: usize) -> Option<usize>
    ensures some { IfSome result (λ n. (n ≡ number) × IsAttributeAt templates.now number) }
    ensures none { IfNone result (¬ IsAttributeAt templates.now number) }
{
    match templates.get(number) {
        Some(template) => {
            if is_attribute(template) {
                Some(number)
            } else {
                None
            }
        }
        None => None,
    }
}

/// The attribute that a label means, where it means one.
pub fn labelled_attribute<'a>(
    templates: &[Found<'a>],
    labels: &IndexMap<&'a [u8], usize>,
    label: &Token,
) -> Option<usize>
    ensures { (parts : PartTerms) → AreTemplates parts templates.now → AreLabels parts templates.now labels.now →
        TellsAttribute parts templates.now label.now result }
{
    match labels.get(label.text.as_slice()).copied() {
        Some(number) => attribute_number(templates, number),
        None => None,
    }
}
