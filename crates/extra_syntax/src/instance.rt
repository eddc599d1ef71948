//! An object of a section INSTANCES (docs/PROFILE.md, section 9).

ghost use Rattle.std.specs.Prelude.{◌≡◌};
ghost use Rattle.token_grammar.specs.Form.{Leaf, Maybe};
ghost use Rattle.token_grammar.specs.Outcome.{Reads, closed};
ghost use Rattle.token_grammar.specs.Parts.{optional_tree, vector_tree};
ghost use Rattle.asn1_values_syntax.specs.Asn1.{asn1};
ghost use Rattle.asn1_values_syntax.specs.ValueForms.{comma};
ghost use Rattle.extra_syntax.specs.SectionForms.{instance, instance_head, instance_kind, labels, packages};
ghost use Rattle.extra_syntax.specs.SectionForms.{with_values};
ghost use Rattle.extra_syntax.specs.SectionEnds.{is_packages_end, is_with_end};
ghost use Rattle.extra_syntax.specs.SectionTrees.{instance_head_tree, instance_tree, kind_tree, packages_tree};
ghost use Rattle.extra_syntax.specs.SectionTrees.{with_tree};

use super::assignment::{Assignment, read_assignments, read_instance_name};
use std::alloc::Global;
use token_grammar::part_keeping::keep_part;
use token_grammar::token_reading::{place_behind, read_label, read_one_of, skip_sign, skip_word};
use token_grammar::token_tests::is_word_at;
use token_grammar::{SyntaxRefusal, Token};

/// An object that is there at the opening, `ROOT class AT name ..;` or `OBJECT class AT name ..;`.
#[derive(Drop)]
pub struct Instance {
    /// Whether it is the root.
    pub kind: InstanceKind,
    /// The label of its class.
    pub class: Token,
    /// The pairs of its name, `{attribute = value, ..}`: the root's is the system's own, any other is relative to it.
    pub name: Vec<Assignment>,
    /// Its values, `WITH attribute = value, ..`.
    pub values: Option<Vec<Assignment>>,
    /// The labels of its packages, `PACKAGES package, ..`.
    pub packages: Option<Vec<Token>>,
}

/// The word with which an instance begins.
#[derive(Drop)]
pub enum InstanceKind {
    /// ROOT
    Root(Token),
    /// OBJECT
    Object(Token),
}

/// What stands of every instance.
#[derive(Drop)]
pub struct InstanceHead {
    /// The word with which it begins.
    pub kind: InstanceKind,
    /// The label of its class.
    pub class: Token,
    /// The pairs of its name.
    pub name: Vec<Assignment>,
}

/// Reads ROOT or OBJECT.
fn read_kind(
    alloc: Global,
    tokens: &[Token],
    at: usize,
) -> Result<(InstanceKind, usize), SyntaxRefusal>
    ensures { Reads tokens.now asn1 closed instance_kind at kind_tree result }
{
    if is_word_at(tokens, at, "ROOT") {
        let (word, next) = read_one_of(alloc, tokens, at, &["ROOT"])?;
        return Ok((InstanceKind::Root(word), next));
    }
    let (word, next) = read_one_of(alloc, tokens, at, &["OBJECT"])?;
    Ok((InstanceKind::Object(word), next))
}

/// Reads an instance up to its name.
fn read_instance_head(
    alloc: Global,
    tokens: &[Token],
    at: usize,
) -> Result<(InstanceHead, usize), SyntaxRefusal>
    ensures { Reads tokens.now asn1 closed instance_head at instance_head_tree result }
{
    let (kind, next) = read_kind(alloc, tokens, at)?;
    let (class, next) = read_label(alloc, tokens, next)?;
    let next = skip_word(tokens, next, "AT")?;
    let (name, next) = read_instance_name(alloc, tokens, next)?;
    Ok((InstanceHead { kind, class, name }, next))
}

/// Reads values where WITH comes.
fn read_values(
    alloc: Global,
    tokens: &[Token],
    at: usize,
) -> Result<(Option<Vec<Assignment>>, usize), SyntaxRefusal>
    ensures { Reads tokens.now asn1 is_with_end (Maybe with_values) at (optional_tree with_tree) result }
{
    if !is_word_at(tokens, at, "WITH") {
        return Ok((None, at));
    }
    let next = skip_word(tokens, at, "WITH")?;
    let (values, next) = read_assignments(alloc, tokens, next)?;
    Ok((Some(values), next))
}

/// Reads labels with commas between them.
fn read_labels(
    alloc: Global,
    tokens: &[Token],
    at: usize,
) -> Result<(Vec<Token>, usize), SyntaxRefusal>
    ensures { Reads tokens.now asn1 comma labels at (vector_tree Leaf) result }
{
    let mut list = Vec::new(alloc);
    let mut next = at;
    'turns: loop {
        let behind = keep_part(&mut list, read_label(alloc, tokens, next))?;
        let Some(place) = place_behind(tokens, behind, ",") else {
            return Ok((list, behind));
        };
        next = place;
    }
}

/// Reads labels of packages where PACKAGES comes.
fn read_packages(
    alloc: Global,
    tokens: &[Token],
    at: usize,
) -> Result<(Option<Vec<Token>>, usize), SyntaxRefusal>
    ensures { Reads tokens.now asn1 is_packages_end (Maybe packages) at (optional_tree packages_tree) result }
{
    if !is_word_at(tokens, at, "PACKAGES") {
        return Ok((None, at));
    }
    let next = skip_word(tokens, at, "PACKAGES")?;
    let (labels, next) = read_labels(alloc, tokens, next)?;
    Ok((Some(labels), next))
}

/// Reads an instance.
pub fn read_instance(
    alloc: Global,
    tokens: &[Token],
    at: usize,
) -> Result<(Instance, usize), SyntaxRefusal>
    ensures { Reads tokens.now asn1 closed instance at instance_tree result }
{
    let (head, next) = read_instance_head(alloc, tokens, at)?;
    let (values, next) = read_values(alloc, tokens, next)?;
    let (packages, next) = read_packages(alloc, tokens, next)?;
    let next = skip_sign(tokens, next, ";")?;
    Ok((
        Instance {
            kind: head.kind,
            class: head.class,
            name: head.name,
            values,
            packages,
        },
        next,
    ))
}
