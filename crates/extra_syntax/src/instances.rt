//! The section INSTANCES: the objects that are there at the opening (docs/PROFILE.md, section 9).

ghost use Rattle.std.specs.Prelude.{◌≡◌};
ghost use Rattle.token_grammar.specs.Form.{Empty, Many, Named};
ghost use Rattle.token_grammar.specs.Outcome.{Reads, closed};
ghost use Rattle.token_grammar.specs.Parts.{vector_tree};
ghost use Rattle.asn1_values_syntax.specs.Asn1.{asn1};
ghost use Rattle.extra_syntax.specs.SectionForms.{instance, instance_sections, sections};
ghost use Rattle.extra_syntax.specs.SectionEnds.{is_instance_start};
ghost use Rattle.extra_syntax.specs.SectionTrees.{instance_tree, instances_tree};

use super::instance::{Instance, read_instance};
use std::alloc::Global;
use token_grammar::part_keeping::keep_part;
use token_grammar::token_reading::{read_one_of, skip_word};
use token_grammar::token_tests::is_one_of_at;
use token_grammar::{SyntaxRefusal, Token};

/// A section INSTANCES.
#[derive(Drop)]
pub struct InstancesSection {
    /// The number of its document, which the reader leaves 0.
    pub document: u32,
    /// The word INSTANCES.
    pub word: Token,
    /// The lines ROOT and OBJECT, in the order of the text.
    pub instances: Vec<Instance>,
}

/// Reads instances, as many as come.
fn read_instances(
    alloc: Global,
    tokens: &[Token],
    at: usize,
) -> Result<(Vec<Instance>, usize), SyntaxRefusal>
    ensures { Reads tokens.now asn1 is_instance_start (Many Empty instance) at (vector_tree instance_tree) result }
{
    let mut list = Vec::new(alloc);
    let mut next = at;
    'turns: while is_one_of_at(tokens, next, &["ROOT", "OBJECT"]) {
        next = keep_part(&mut list, read_instance(alloc, tokens, next))?;
    }
    Ok((list, next))
}

/// Reads a section INSTANCES. It has the document number 0.
pub fn read_instances_section(
    alloc: Global,
    tokens: &[Token],
    at: usize,
) -> Result<(InstancesSection, usize), SyntaxRefusal>
    ensures { Reads tokens.now sections closed (Named instance_sections) at instances_tree result }
{
    let (word, next) = read_one_of(alloc, tokens, at, &["INSTANCES"])?;
    let (instances, next) = read_instances(alloc, tokens, next)?;
    let next = skip_word(tokens, next, "END")?;
    Ok((
        InstancesSection {
            document: 0,
            word,
            instances,
        },
        next,
    ))
}
