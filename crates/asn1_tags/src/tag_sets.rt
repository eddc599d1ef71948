//! The tags with which a type begins, by those of the types that it names (X.680, sections 8.4, 25.6, 27.3, 29.3 and
//! 31; X.690, section 8.1.2).

ghost use Rattle.std.specs.Prelude.{[], ◌∷◌, ◌≡◌, ◌≤◌, ℕ, List, OnOk, Some, false, map, option_copied};
ghost use Rattle.term_values.specs.Beginnings.{begins, first_tags, is_one_of};
ghost use Rattle.term_values.specs.Tag.{context, is_same_tag};
ghost use Rattle.term_values.specs.UniversalTags.{text_tag};
ghost use Rattle.term_values.specs.declared.tag.Tag.{Tag};
ghost use Rattle.asn1_names.specs.CodeMeanings.{Means, named_module, named_type};
ghost use Rattle.asn1_names.specs.ModuleTerms.{LimitTerm};
ghost use Rattle.asn1_names.specs.ModuleTerms.TypeTerm.{Reference};
ghost use Rattle.asn1_names.specs.NameMeaning.{reference_meaning};
ghost use Rattle.asn1_names.specs.NodeCount.{HasNodes};
ghost use Rattle.asn1_names.specs.TermViews.{module_terms, type_term};
ghost use Rattle.asn1_names.specs.TypeWords.{one_word_type};
ghost use Rattle.asn1_names.specs.WordViews.{standard_syntax_of, word_syntax};
ghost use Rattle.asn1_tags.specs.GatheredTags.{AddsTags, GainsTags, KnowsTags, has_tag, plain_begins};
ghost use Rattle.asn1_tags.specs.GatheredTags.{set_found, word_begins};
ghost use Rattle.asn1_tags.specs.KnownFacts.{AreKnown};

use crate::node_counting::is_marked;
use asn1_names::name_tables::Meaning;
use asn1_names::standard_module::StandardType;
use asn1_names::tag_texts::structure_tag;
use asn1_names::type_walk::name_of;
use asn1_names::type_words::{WordType, word_type};
use asn1_numbers::number_tables::Numbers;
use asn1_syntax::plain_type::{PlainType, TypeName};
use asn1_syntax::type_text::TypeText;
use std::alloc::{AllocError, Global};
use term_values::{Charset, Tag};
use token_grammar::Token;

/// The class of tags whose meaning depends on the type round them: X.690, section 8.1.2.2.
const CONTEXT: u8 = 2;

/// Tags with which a type begins; `any` where it is an ANY, which begins with each.
#[derive(Drop)]
pub struct TagSet {
    pub any: bool,
    pub tags: Vec<Tag>,
}

/// What is known of the types that others name.
#[derive(Clone, Copy)]
pub(crate) struct KnownTags<'f, 'a> {
    pub numbers: &'f Numbers<'a>,
    /// For each assignment whether its type contains itself.
    pub cyclic: &'f [bool],
    /// For each assignment the place of the set of its type's tags.
    pub sources: &'f [usize],
    /// Sets of tags.
    pub sets: &'f [TagSet],
}

/// No tags.
pub(crate) fn no_tags(alloc: Global) -> TagSet
    ensures { (tag : Tag) → has_tag result tag ≡ false }
{
    TagSet {
        any: false,
        tags: Vec::new(alloc),
    }
}

fn push_tag(tag: Tag, into: &mut TagSet) -> Result<(), AllocError>
    ensures { OnOk result (GainsTags into.old into.new (is_same_tag tag)) }
{
    into.tags.push(tag)?;
    Ok(())
}

/// Appends a tag of the context with this number.
fn push_context(number: u32, into: &mut TagSet) -> Result<(), AllocError>
    ensures { OnOk result (GainsTags into.old into.new (is_same_tag (context number))) }
{
    push_tag(
        Tag {
            class: CONTEXT,
            number,
        },
        into,
    )
}

/// Appends the tags of another set.
fn push_set(set: &TagSet, into: &mut TagSet) -> Result<(), AllocError>
    ensures { OnOk result (GainsTags into.old into.new (has_tag set.now)) }
{
    into.any |= set.any;
    into.tags.extend_from_slice(set.tags.as_slice())?;
    Ok(())
}

/// The tag of a type of text.
fn text_tag(charset: Charset) -> Tag
    ensures { result ≡ text_tag charset }
{
    let number = match charset {
        Charset::Numeric => 18,
        Charset::Printable => 19,
        Charset::Ia5 => 22,
        Charset::Graphic => 25,
        Charset::Visible => 26,
    };
    Tag { class: 0, number }
}

/// The tag of a type of one word.
fn word_tag(word: WordType) -> Tag
    ensures { first_tags (word_syntax word) ≡ Some (result ∷ []) }
{
    match word {
        WordType::Boolean => Tag::BOOLEAN,
        WordType::Null => Tag::NULL,
        WordType::Text(charset) => text_tag(charset),
        WordType::Time => Tag::GENERALIZED_TIME,
    }
}

/// Appends the tag of a type of one word.
fn push_word(word: &Token, into: &mut TagSet) -> Result<(), AllocError>
    ensures { OnOk result (GainsTags into.old into.new (word_begins (one_word_type word.now.text))) }
{
    match word_type(word.text.as_slice()) {
        Some(found) => push_tag(word_tag(found), into),
        None => Ok(()),
    }
}

/// Appends the tags of a type that holds no other and is no name.
fn push_plain(of: &PlainType, into: &mut TagSet) -> Result<(), AllocError>
    ensures { OnOk result (GainsTags into.old into.new (plain_begins of.now)) }
{
    match of {
        PlainType::Simple(word) => push_word(word, into),
        PlainType::Integer(_) => push_tag(Tag::INTEGER, into),
        PlainType::Enumerated(_) => push_tag(Tag::ENUMERATED, into),
        PlainType::BitString(_) => push_tag(Tag::BIT_STRING, into),
        PlainType::OctetString(_) => push_tag(Tag::OCTET_STRING, into),
        PlainType::ObjectIdentifier(_) => push_tag(Tag::OBJECT_IDENTIFIER, into),
        PlainType::Any(_) => {
            into.any = true;
            Ok(())
        }
        PlainType::Named(_) => Ok(()),
    }
}

/// Appends tags of the context with these numbers.
fn push_contexts(numbers: &[u32], into: &mut TagSet) -> Result<(), AllocError>
    ensures { OnOk result (GainsTags into.old into.new (is_one_of (map context numbers.now))) }
{
    for number in numbers.iter() {
        push_context(*number, into)?;
    }
    Ok(())
}

/// Appends the tags of a type of CMIP-1.
fn push_standard(standard: StandardType, into: &mut TagSet) -> Result<(), AllocError>
    ensures { OnOk result (GainsTags into.old into.new (begins (standard_syntax_of standard))) }
{
    match standard {
        StandardType::ObjectClass => push_contexts(&[0, 1], into),
        StandardType::AttributeId => push_contexts(&[0, 1], into),
        StandardType::ActionTypeId => push_contexts(&[2, 3], into),
        StandardType::EventTypeId => push_contexts(&[6, 7], into),
        StandardType::ObjectInstance => push_contexts(&[2, 3, 4], into),
        StandardType::RdnSequence => push_tag(Tag::SEQUENCE, into),
        StandardType::Attribute => push_tag(Tag::SEQUENCE, into),
        StandardType::Filter => push_contexts(&[8, 9, 10, 11], into),
    }
}

/// The set of tags of an assignment's type.
pub(crate) fn set_at<'f>(sources: &[usize], sets: &'f [TagSet], number: usize) -> Option<&'f TagSet>
    ensures { option_copied result ≡ set_found sources.now sets.now number }
{
    let place = sources.get(number)?;
    sets.get(*place)
}

/// What the name of a type means.
pub(crate) fn meaning_of(known: &KnownTags, home: usize, name: &TypeName) -> Meaning
    ensures { Means (module_terms known.now.numbers.now) result (reference_meaning (module_terms known.now.numbers.now)
        home (named_module name.now) (named_type name.now)) }
{
    known.numbers.tables().reference_meaning(home, name)
}

/// Appends the tags of a type that is a name.
fn push_named(
    known: &KnownTags,
    home: usize,
    name: &TypeName,
    into: &mut TagSet,
) -> Result<(), AllocError>
    ensures { OnOk result ((limits : List LimitTerm) (n : ℕ) → AreKnown (KnowsTags (module_terms known.now.numbers.now)
        known.now.sources.now known.now.sets.now) (module_terms known.now.numbers.now) known.now.cyclic.now home
        (Reference (named_module name.now) (named_type name.now) limits) → HasNodes (module_terms known.now.numbers.now)
        home (Reference (named_module name.now) (named_type name.now) limits) n → n ≤ 10000 →
        AddsTags (module_terms known.now.numbers.now) home
        (Reference (named_module name.now) (named_type name.now) limits) into.old into.new) }
{
    match meaning_of(known, home, name) {
        Meaning::TypeAt(number) => {
            if is_marked(known.cyclic, number) {
                return Ok(());
            }
            match set_at(known.sources, known.sets, number) {
                Some(set) => push_set(set, into),
                None => Ok(()),
            }
        }
        Meaning::Standard(standard) => push_standard(standard, into),
        Meaning::ValueAt(_) => Ok(()),
        Meaning::Nothing => Ok(()),
    }
}

/// Appends the tags with which a type begins.
pub(crate) fn push_tags(
    known: &KnownTags,
    home: usize,
    of: &TypeText,
    into: &mut TagSet,
) -> Result<(), AllocError>
    ensures { OnOk result ((n : ℕ) → AreKnown (KnowsTags (module_terms known.now.numbers.now) known.now.sources.now
        known.now.sets.now) (module_terms known.now.numbers.now) known.now.cyclic.now home (type_term of.now) →
        HasNodes (module_terms known.now.numbers.now) home (type_term of.now) n → n ≤ 10000 →
        AddsTags (module_terms known.now.numbers.now) home (type_term of.now) into.old into.new) }
{
    match of {
        TypeText::Tagged { tag, .. } => match known.numbers.tag(home, tag) {
            Some(own) => push_tag(own, into),
            None => Ok(()),
        },
        TypeText::Structured { word, .. } => push_tag(structure_tag(word), into),
        TypeText::Choice { alternatives, .. } => {
            for alternative in alternatives.iter() {
                push_tags(known, home, &alternative.of, into)?;
            }
            Ok(())
        }
        TypeText::Plain { of: plain, .. } => match name_of(of) {
            Some(name) => push_named(known, home, name, into),
            None => push_plain(plain, into),
        },
    }
}
