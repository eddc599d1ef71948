//! Whether a DEFAULT is written in the text of a type (X.680, section 25.1).

ghost use Rattle.std.specs.Prelude.{◌≡◌, map};
ghost use Rattle.asn1_names.specs.TermViews.{presence_term, structure_term, type_term};
ghost use Rattle.asn1_types.specs.BuiltSyntaxes.{alternative_member, component_member};
ghost use Rattle.asn1_types.specs.MeasuredTypes.{members_listed};
ghost use Rattle.filled_syntaxes.specs.WrittenDefaults.{content_writes, is_default, members_write, writes_default};

use asn1_syntax::presence::Presence;
use asn1_syntax::type_text::{Alternative, Component, StructureText, TypeText};
use std::boxed::Box;

fn is_default(presence: &Option<Box<Presence>>) -> bool
    ensures { result ≡ is_default (presence_term presence.now) }
{
    match presence {
        Some(presence) => match &**presence {
            Presence::Default(_) => true,
            Presence::Optional(_) => false,
        },
        None => false,
    }
}

/// Whether a DEFAULT is written in the text of a type, and not only in types that it names.
#[cycle(default_words)]
pub fn has_default(of: &TypeText) -> bool
    ensures { result ≡ writes_default (type_term of.now) }
{
    match of {
        TypeText::Tagged { of, .. } => has_default(of),
        TypeText::Structured { content, .. } => content_has_default(content),
        TypeText::Choice { alternatives, .. } => alternatives_have_default(alternatives.as_slice()),
        TypeText::Plain { .. } => false,
    }
}

#[cycle(default_words)]
fn content_has_default(content: &StructureText) -> bool
    ensures { result ≡ content_writes content.now }
{
    match content {
        StructureText::Components { components, .. } => match components {
            Some(components) => components_have_default(components.as_slice()),
            None => false,
        },
        StructureText::ListOf { of, .. } => has_default(of),
    }
}

#[cycle(default_words)]
fn components_have_default(components: &[Component]) -> bool
    ensures { result ≡ members_write (members_listed (map component_member components.now)) }
{
    for component in components {
        if is_default(&component.presence) || has_default(&component.of) {
            return true;
        }
    }
    false
}

#[cycle(default_words)]
fn alternatives_have_default(alternatives: &[Alternative]) -> bool
    ensures { result ≡ members_write (members_listed (map alternative_member alternatives.now)) }
{
    for alternative in alternatives {
        if has_default(&alternative.of) {
            return true;
        }
    }
    false
}
