//! The syntaxes that types denote (X.680, sections 17 to 51).

ghost use Rattle.std.specs.Prelude.{◌≡◌, ◌+◌, ◌<◌, [], ℕ, IfOk, List, length, map, option_map};
ghost use Rattle.term_values.specs.PartsView.{parts_listed};
ghost use Rattle.term_values.specs.Syntaxes.TypeParts.{NoParts};
ghost use Rattle.term_values.specs.declared.tag.Tag.{Tag as SaidTag};
ghost use Rattle.asn1_names.specs.DenotedSyntax.{Denotes, MembersDenote, has_implicit_default, is_explicit};
ghost use Rattle.asn1_names.specs.ModuleTerms.{MemberTerms, ModuleTerm, TypeTerm};
ghost use Rattle.asn1_names.specs.ModuleTerms.TypeTerm.{Repeated, Structure, Under};
ghost use Rattle.asn1_names.specs.TermViews.{module_terms, range_terms, structure_term, tag_term, type_term};
ghost use Rattle.asn1_names.specs.TypeWalks.{IsNoName};
ghost use Rattle.asn1_names.specs.WholeNumbers.{IsTag};
ghost use Rattle.asn1_types.specs.BuiltSyntaxes.{AreSizesSaid, IsPart, alternative_member, component_member};
ghost use Rattle.asn1_types.specs.MeasuredTypes.{AreMeasured, IsMeasured, members_listed};

use crate::constraining::{constrained, sized};
use crate::following::follow;
use crate::plain_syntax::plain_form;
use crate::returning::{syntax_of_named, syntax_of_standard};
use asn1_names::tag_texts::is_explicit;
use asn1_names::type_walk::may_be_absent;
use asn1_numbers::number_tables::Numbers;
use asn1_syntax::type_text::{Alternative, Component, StructureText, TypeText};
use asn1_values_syntax::constraint::Range;
use asn1_values_syntax::tag::Tag as TagText;
use std::alloc::{AllocError, Global};
use std::boxed::Box;
use term_values::bytes::Bytes;
use term_values::{Part, Parts, Ranges, Syntax, SyntaxForm, Tag};
use token_grammar::Token;
use token_grammar::token_tests::is_word_of;

/// The most nodes of a syntax.
pub const MOST_NODES: usize = 10_000;

/// What is needed to build a syntax.
#[derive(Drop)]
pub struct Builder<'f, 'a> {
    pub alloc: Global,
    pub numbers: &'f Numbers<'a>,
}

/// The parts of a list; none where they are 2^32 or more, which no type of a module without faults has.
fn parts_of(alloc: Global, items: Vec<Part>) -> Parts
    ensures { length items.items < 4294967296 → result ≡ parts_listed items.items }
{
    match Parts::from_items(items) {
        Some(parts) => parts,
        None => no_parts(alloc),
    }
}

/// A component, or an alternative. The value of a DEFAULT stands in no syntax.
fn part(alloc: Global, name: &Token, syntax: Syntax, optional: bool) -> Result<Part, AllocError>
    ensures { IfOk result (λ part. IsPart part name.now.text syntax optional) }
{
    Ok(Part {
        name: Bytes::from_slice(alloc, name.text.as_slice())?,
        syntax,
        optional,
        default: None,
    })
}

/// The syntax of SEQUENCE OF or SET OF, by its word.
fn list_of(
    alloc: Global,
    numbers: &Numbers,
    home: usize,
    word: &Token,
    size: &Option<Vec<Range>>,
    element: Syntax,
) -> Result<Syntax, AllocError>
    ensures { IfOk result (λ left. (of : TypeTerm) → Denotes (module_terms numbers.now) home of element →
        AreSizesSaid (module_terms numbers.now) home word.now (option_map range_terms size.now) of →
        Denotes (module_terms numbers.now) home (Repeated word.now (option_map range_terms size.now) of) left) }
{
    let element = Box::new(alloc, element)?;
    let bounds = Ranges::new(alloc);
    if is_word_of(word, "SET") {
        let list = Syntax {
            form: SyntaxForm::SetOf(element, bounds),
        };
        return sized(alloc, numbers, home, size, list);
    }
    let list = Syntax {
        form: SyntaxForm::ListOf(element, bounds),
    };
    sized(alloc, numbers, home, size, list)
}

/// The tag that a text says, or that of NULL.
fn own_tag(numbers: &Numbers, home: usize, text: &TagText) -> Tag
    ensures { ¬ ((own : SaidTag) → ¬ IsTag (module_terms numbers.now) home (tag_term text.now) own) →
        IsTag (module_terms numbers.now) home (tag_term text.now) result }
{
    match numbers.tag(home, text) {
        Some(own) => own,
        None => Tag::NULL,
    }
}

/// Whether a tag that stands in a module is explicit above a type.
fn is_explicit_in(numbers: &Numbers, home: usize, mode: &Option<Token>, of: &Syntax) -> bool
    ensures { result ≡ is_explicit (has_implicit_default (module_terms numbers.now) home) mode.now of.now }
{
    match numbers.tables().modules().get(home) {
        Some(text) => is_explicit(&text.tag_default, mode, of),
        None => is_explicit(&None, mode, of),
    }
}

/// The syntax of a type under a tag.
fn tagged(
    alloc: Global,
    numbers: &Numbers,
    home: usize,
    tag: &TagText,
    mode: &Option<Token>,
    inner: Syntax,
) -> Result<Syntax, AllocError>
    ensures { IfOk result (λ left. (of : TypeTerm) → Denotes (module_terms numbers.now) home of inner →
        ¬ ((own : SaidTag) → ¬ IsTag (module_terms numbers.now) home (tag_term tag.now) own) →
        Denotes (module_terms numbers.now) home (Under (tag_term tag.now) mode.now of) left) }
{
    let own = own_tag(numbers, home, tag);
    let explicit = is_explicit_in(numbers, home, mode, &inner);
    Ok(Syntax {
        form: SyntaxForm::Tagged(own, explicit, Box::new(alloc, inner)?),
    })
}

/// SET or SEQUENCE, by its word.
fn structure_of(word: &Token, parts: Parts) -> Syntax
    ensures { (ms : List ModuleTerm) (m : ℕ) (members : MemberTerms) → MembersDenote ms m members parts →
        Denotes ms m (Structure word.now members []) result }
{
    if is_word_of(word, "SET") {
        Syntax {
            form: SyntaxForm::Unordered(parts),
        }
    } else {
        Syntax {
            form: SyntaxForm::Seq(parts),
        }
    }
}

/// No parts.
fn no_parts(alloc: Global) -> Parts
    ensures { result ≡ NoParts }
{
    Parts {
        items: Vec::new(alloc),
    }
}

impl<'f, 'a> Builder<'f, 'a> {
    #[cycle(syntaxes)]
    fn components(
        &self,
        depth: usize,
        home: usize,
        components: &'a [Component],
    ) -> Result<Parts, AllocError>
        ensures { IfOk result (λ parts.
            AreMeasured (module_terms self.now.numbers.now) home (map component_member components.now) depth →
            MembersDenote (module_terms self.now.numbers.now) home
            (members_listed (map component_member components.now)) parts) }
    {
        let mut items = Vec::new(self.alloc);
        for component in components.iter() {
            let syntax = self.syntax_within(depth, home, &component.of)?;
            let optional = may_be_absent(&component.presence);
            let one = part(self.alloc, &component.name, syntax, optional)?;
            items.push(one)?;
        }
        Ok(parts_of(self.alloc, items))
    }

    #[cycle(syntaxes)]
    fn alternatives(
        &self,
        depth: usize,
        home: usize,
        alternatives: &'a [Alternative],
    ) -> Result<Parts, AllocError>
        ensures { IfOk result (λ parts.
            AreMeasured (module_terms self.now.numbers.now) home (map alternative_member alternatives.now) depth →
            MembersDenote (module_terms self.now.numbers.now) home
            (members_listed (map alternative_member alternatives.now)) parts) }
    {
        let mut items = Vec::new(self.alloc);
        for alternative in alternatives.iter() {
            let syntax = self.syntax_within(depth, home, &alternative.of)?;
            let one = part(self.alloc, &alternative.name, syntax, false)?;
            items.push(one)?;
        }
        Ok(parts_of(self.alloc, items))
    }

    /// The syntax of SEQUENCE, SET, SEQUENCE OF or SET OF, whose parts go no deeper than `depth`.
    #[cycle(syntaxes)]
    fn structure(
        &self,
        depth: usize,
        home: usize,
        word: &Token,
        content: &'a StructureText,
    ) -> Result<Syntax, AllocError>
        ensures { IfOk result (λ syntax.
            IsMeasured (module_terms self.now.numbers.now) home (structure_term word.now content.now) (depth + 1) →
            Denotes (module_terms self.now.numbers.now) home (structure_term word.now content.now) syntax) }
    {
        match content {
            StructureText::Components { components, .. } => match components {
                Some(components) => {
                    let parts = self.components(depth, home, components.as_slice())?;
                    Ok(structure_of(word, parts))
                }
                None => Ok(structure_of(word, no_parts(self.alloc))),
            },
            StructureText::ListOf { size, of } => {
                let element = self.syntax_within(depth, home, of)?;
                list_of(self.alloc, self.numbers, home, word, size, element)
            }
        }
    }

    /// The syntax of a type that is no name, whose parts go no deeper than `depth`.
    #[cycle(syntaxes)]
    fn unnamed(&self, depth: usize, home: usize, of: &'a TypeText) -> Result<Syntax, AllocError>
        ensures { IfOk result (λ syntax. IsNoName (type_term of.now) →
            IsMeasured (module_terms self.now.numbers.now) home (type_term of.now) (depth + 1) →
            Denotes (module_terms self.now.numbers.now) home (type_term of.now) syntax) }
    {
        match of {
            TypeText::Tagged { tag, mode, of } => {
                let inner = self.syntax_within(depth, home, of)?;
                tagged(self.alloc, self.numbers, home, tag, mode, inner)
            }
            TypeText::Structured { word, content } => self.structure(depth, home, word, content),
            TypeText::Choice { alternatives, .. } => {
                let parts = self.alternatives(depth, home, alternatives.as_slice())?;
                Ok(Syntax {
                    form: SyntaxForm::Choice(parts),
                })
            }
            TypeText::Plain {
                of: plain,
                constraints,
            } => {
                let form = plain_form(self.alloc, self.numbers, home, plain)?;
                let syntax = Syntax { form };
                constrained(
                    self.alloc,
                    self.numbers,
                    home,
                    of,
                    constraints.as_slice(),
                    syntax,
                )
            }
        }
    }

    /// The syntax that a type denotes, where this goes no deeper than `depth`.
    #[cycle(syntaxes)]
    fn syntax_within(
        &self,
        depth: usize,
        home: usize,
        of: &'a TypeText,
    ) -> Result<Syntax, AllocError>
        ensures { IfOk result (λ syntax.
            IsMeasured (module_terms self.now.numbers.now) home (type_term of.now) depth →
            Denotes (module_terms self.now.numbers.now) home (type_term of.now) syntax) }
    {
        let followed = follow(self.alloc, self.numbers, home, of)?;
        if let Some(standard) = followed.standard {
            return syntax_of_standard(self.alloc, self.numbers, &followed, standard);
        }
        if depth == 0 {
            return Ok(Syntax {
                form: SyntaxForm::Null,
            });
        }
        let syntax = self.unnamed(depth - 1, followed.home, followed.of)?;
        syntax_of_named(self.alloc, self.numbers, &followed, syntax)
    }

    /// The syntax that a type of a module without faults denotes. It has at most [`MOST_NODES`] nodes, so it goes no
    /// deeper.
    pub fn syntax(&self, home: usize, of: &'a TypeText) -> Result<Syntax, AllocError>
        ensures { IfOk result (λ syntax.
            IsMeasured (module_terms self.now.numbers.now) home (type_term of.now) 10000 →
            Denotes (module_terms self.now.numbers.now) home (type_term of.now) syntax) }
    {
        self.syntax_within(MOST_NODES, home, of)
    }
}
