//! The number of a type's syntax, walked beside its text for DEFAULT (docs/PROFILE.md, section 12).

ghost use Rattle.std.specs.Prelude.{◌≡◌, [], ℕ, Bool, IfOk, List};
ghost use Rattle.term_values.specs.Sketch.{Sketch};
ghost use Rattle.term_values.specs.Sketch.Sketch.{Join, Leaf};
ghost use Rattle.term_values.specs.SyntaxPieces.{charset_sketch};
ghost use Rattle.asn1_names.specs.TermViews.{module_terms};
ghost use Rattle.key_numbers.specs.KeyNumbers.{IsKeyNumber, IsSketchNumber, names_sketch, parts_sketch, presence_kind};
ghost use Rattle.key_numbers.specs.NumberedLists.{Grows};
ghost use Rattle.key_numbers.specs.TypeKeys.{PartKeys, TypeKey};
ghost use Rattle.key_numbers.specs.TypeKeys.PartKeys.{PartKey};
ghost use Rattle.key_numbers.specs.TypeKeys.TypeKey.{EnumeratedKey, TaggedKey, TextKey};
ghost use Rattle.type_numbers.specs.KeysBeside.{AreBesideAt, IsBesideAt};
ghost use Rattle.type_numbers.specs.MarkedKeys.{marked, marked_parts};
ghost use Rattle.type_numbers.specs.PlacedTerms.{placed_terms};

use crate::type_texts::{PlacedText, TypeTexts, has_default, member_text, text_beneath};
use key_numbers::number_lists::NumberLists;
use std::alloc::AllocError;
use term_values::{Charset, Names, Part, Parts, Ranges, Syntax, SyntaxForm, Tag};

/// The kinds of what has no parts.
const BOOLEAN: u8 = 0;

const NULL: u8 = 1;

const OBJECT_IDENTIFIER: u8 = 2;

const GENERALIZED_TIME: u8 = 3;

const ANY: u8 = 4;

const FILTER: u8 = 5;

const OCTET_STRING: u8 = 6;

/// The kinds of what joins two.
const INTEGER: u8 = 0;

const ENUMERATED: u8 = 1;

const BIT_STRING: u8 = 2;

const STRING: u8 = 3;

const SEQUENCE: u8 = 4;

const SET: u8 = 5;

const CHOICE: u8 = 6;

const SEQUENCE_OF: u8 = 7;

const SET_OF: u8 = 8;

const TAGGED: u8 = 9;

/// The kind of a string type.
fn kind_of_charset(charset: Charset) -> u8
    ensures { Leaf result [] [] ≡ charset_sketch charset }
{
    match charset {
        Charset::Numeric => 0,
        Charset::Printable => 1,
        Charset::Ia5 => 2,
        Charset::Visible => 3,
        Charset::Graphic => 4,
    }
}

/// The kind of a component: whether it may be left out, and whether DEFAULT stands at it.
fn kind_of_presence(optional: bool, has_default: bool) -> u8
    ensures { result ≡ presence_kind optional has_default }
{
    match (optional, has_default) {
        (false, false) => 0,
        (true, false) => 1,
        (false, true) => 2,
        (true, true) => 3,
    }
}

/// Names with numbers, and bounds.
fn with_names(
    lists: &mut NumberLists,
    kind: u8,
    names: &Names,
    ranges: &Ranges,
) -> Result<usize, AllocError>
    ensures grows { Grows lists.old lists.new }
    ensures is { IfOk result (λ n.
        IsSketchNumber lists.new (Join kind (Leaf 0 [] ranges.now) (names_sketch names.now)) n) }
{
    let bounds = lists.bounds(ranges)?;
    let names = lists.names(names)?;
    let number = lists.joined(kind, bounds, names)?;
    Ok(number)
}

fn enumerated(lists: &mut NumberLists, names: &Names) -> Result<usize, AllocError>
    ensures grows { Grows lists.old lists.new }
    ensures is { IfOk result (λ n. IsKeyNumber lists.new (EnumeratedKey names.now) n) }
{
    let nothing = lists.leaf(0, &[], &[])?;
    let names = lists.names(names)?;
    let number = lists.joined(ENUMERATED, nothing, names)?;
    Ok(number)
}

fn string(lists: &mut NumberLists, charset: Charset, sizes: &Ranges) -> Result<usize, AllocError>
    ensures grows { Grows lists.old lists.new }
    ensures is { IfOk result (λ n. IsKeyNumber lists.new (TextKey charset sizes.now) n) }
{
    let bounds = lists.bounds(sizes)?;
    let kind = lists.leaf(kind_of_charset(charset), &[], &[])?;
    let number = lists.joined(STRING, bounds, kind)?;
    Ok(number)
}

/// The elements of a list.
fn list_of(
    lists: &mut NumberLists,
    kind: u8,
    of: usize,
    sizes: &Ranges,
) -> Result<usize, AllocError>
    ensures grows { Grows lists.old lists.new }
    ensures is { IfOk result (λ n. (x : Sketch) → IsSketchNumber lists.old x of →
        IsSketchNumber lists.new (Join kind (Leaf 0 [] sizes.now) x) n) }
{
    let bounds = lists.bounds(sizes)?;
    let number = lists.joined(kind, bounds, of)?;
    Ok(number)
}

/// Components or alternatives.
fn with_parts(lists: &mut NumberLists, kind: u8, parts: usize) -> Result<usize, AllocError>
    ensures grows { Grows lists.old lists.new }
    ensures is { IfOk result (λ n. (x : Sketch) → IsSketchNumber lists.old x parts →
        IsSketchNumber lists.new (Join kind (Leaf 0 [] []) x) n) }
{
    let nothing = lists.leaf(0, &[], &[])?;
    let number = lists.joined(kind, nothing, parts)?;
    Ok(number)
}

/// What stands under a tag.
fn tagged(lists: &mut NumberLists, tag: Tag, explicit: bool, of: usize) -> Result<usize, AllocError>
    ensures grows { Grows lists.old lists.new }
    ensures is { IfOk result (λ n. (key : TypeKey) → IsKeyNumber lists.old key of →
        IsKeyNumber lists.new (TaggedKey tag explicit key) n) }
{
    let own = lists.tag(tag, explicit)?;
    let number = lists.joined(TAGGED, own, of)?;
    Ok(number)
}

/// A component with its name and its type, before others.
fn with_part(
    lists: &mut NumberLists,
    part: &Part,
    of: usize,
    has_default: bool,
    rest: usize,
) -> Result<usize, AllocError>
    ensures grows { Grows lists.old lists.new }
    ensures is { IfOk result (λ n. (key : TypeKey) (keys : PartKeys) → IsKeyNumber lists.old key of →
        IsSketchNumber lists.old (parts_sketch keys) rest →
        IsSketchNumber lists.new (parts_sketch (PartKey part.now.name key part.now.optional has_default keys)) n) }
{
    let called = lists.leaf(0, part.name.as_slice(), &[])?;
    let typed = lists.joined(0, of, rest)?;
    let kind = kind_of_presence(part.optional, has_default);
    let number = lists.joined(kind, called, typed)?;
    Ok(number)
}

/// The number of the types of parts.
#[cycle(type_numbers)]
fn parts_number<'a>(
    lists: &mut NumberLists,
    texts: &TypeTexts<'a, '_>,
    parts: &Parts,
    text: Option<PlacedText<'a>>,
) -> Result<usize, AllocError>
    ensures grows { Grows lists.old lists.new }
    ensures is { IfOk result (λ n. (f : ℕ → List ℕ → Bool) →
        AreBesideAt (module_terms texts.now) (placed_terms text.entry) (marked_parts parts.now f) →
        IsSketchNumber lists.new (parts_sketch (marked_parts parts.now f)) n) }
{
    let items = parts.items.as_slice();
    let mut rest = lists.leaf(0, &[], &[])?;
    for i in 0..items.len() {
        let place = items.len() - 1 - i;
        let part = &items[place];
        let of = syntax_number(lists, texts, &part.syntax, member_text(text, place))?;
        rest = with_part(lists, part, of, has_default(text, place), rest)?;
    }
    Ok(rest)
}

/// The number of a type. `stated` is its text; none where it has no DEFAULT.
#[cycle(type_numbers)]
pub(crate) fn syntax_number<'a>(
    lists: &mut NumberLists,
    texts: &TypeTexts<'a, '_>,
    syntax: &Syntax,
    stated: Option<PlacedText<'a>>,
) -> Result<usize, AllocError>
    ensures grows { Grows lists.old lists.new }
    ensures is { IfOk result (λ n. (f : List ℕ → Bool) →
        IsBesideAt (module_terms texts.now) (placed_terms stated.entry) (marked syntax.now f) →
        IsKeyNumber lists.new (marked syntax.now f) n) }
{
    let text = texts.at_end(stated);
    match &syntax.form {
        SyntaxForm::Bool => lists.leaf(BOOLEAN, &[], &[]),
        SyntaxForm::Int(names, ranges) => with_names(lists, INTEGER, names, ranges),
        SyntaxForm::Enumerated(names) => enumerated(lists, names),
        SyntaxForm::Bits(names, ranges) => with_names(lists, BIT_STRING, names, ranges),
        SyntaxForm::Octets(ranges) => lists.leaf(OCTET_STRING, &[], ranges.items.as_slice()),
        SyntaxForm::Null => lists.leaf(NULL, &[], &[]),
        SyntaxForm::Oid => lists.leaf(OBJECT_IDENTIFIER, &[], &[]),
        SyntaxForm::Text(charset, ranges) => string(lists, *charset, ranges),
        SyntaxForm::Time => lists.leaf(GENERALIZED_TIME, &[], &[]),
        SyntaxForm::Seq(parts) => {
            let members = parts_number(lists, texts, parts, text)?;
            with_parts(lists, SEQUENCE, members)
        }
        SyntaxForm::Unordered(parts) => {
            let members = parts_number(lists, texts, parts, text)?;
            with_parts(lists, SET, members)
        }
        SyntaxForm::ListOf(of, sizes) => {
            let member = syntax_number(lists, texts, of, text_beneath(text))?;
            list_of(lists, SEQUENCE_OF, member, sizes)
        }
        SyntaxForm::SetOf(of, sizes) => {
            let member = syntax_number(lists, texts, of, text_beneath(text))?;
            list_of(lists, SET_OF, member, sizes)
        }
        SyntaxForm::Choice(parts) => {
            let members = parts_number(lists, texts, parts, text)?;
            with_parts(lists, CHOICE, members)
        }
        SyntaxForm::Tagged(tag, explicit, of) => {
            let beneath = syntax_number(lists, texts, of, text_beneath(text))?;
            tagged(lists, *tag, *explicit, beneath)
        }
        SyntaxForm::Any => lists.leaf(ANY, &[], &[]),
        SyntaxForm::Filter => lists.leaf(FILTER, &[], &[]),
    }
}
