//! Types that hold no types: those of one word, with their named numbers and bits, and names of types (X.680,
//! sections 14 to 41; X.208, section 27).

ghost use Rattle.std.specs.Prelude.{◌≡◌, [], ◌∷◌, codes, slice_get};
ghost use Rattle.token_grammar.specs.Form.{Form, Keep, Leaf, Maybe, Then, Marks};
ghost use Rattle.token_grammar.specs.Outcome.{Reads, closed};
ghost use Rattle.token_grammar.specs.Parts.{optional_tree, sign, words};
ghost use Rattle.token_grammar.specs.Spelling.{passes};
ghost use Rattle.token_grammar.specs.TokenTests.{is_name};
ghost use Rattle.asn1_values_syntax.specs.Asn1.{asn1};
ghost use Rattle.asn1_values_syntax.specs.TypeEnds.{is_plain_end};
ghost use Rattle.asn1_values_syntax.specs.TypeForms.{any_type, bit_string_type, brace, defined, enumerated_type};
ghost use Rattle.asn1_values_syntax.specs.TypeForms.{integer_type, is_simple_type, object_identifier_type};
ghost use Rattle.asn1_values_syntax.specs.TypeForms.{octet_string_type, plain_type, point, type_name};
ghost use Rattle.asn1_syntax.specs.PlainTrees.{any_type_tree, behind_tree, bit_string_tree, enumerated_tree};
ghost use Rattle.asn1_syntax.specs.PlainTrees.{integer_tree, plain_type_tree, type_name_tree, words_tree};

use asn1_values_syntax::named_number::{
    NamedBit, NamedInteger, read_named_integers, read_optional_bits, read_optional_integers,
};
use std::alloc::Global;
use token_grammar::token_reading::{
    keep_token, read_name, read_one_of, skip_sign, skip_word, skip_words,
};
use token_grammar::token_tests::{is_one_of_at, is_sign_at, is_word_at};
use token_grammar::{SyntaxRefusal, Token};

/// INTEGER, with its named numbers.
#[derive(Drop)]
pub struct IntegerType {
    /// The word.
    pub word: Token,
    /// The named numbers, where braces stand.
    pub numbers: Option<Vec<NamedInteger>>,
}

/// ENUMERATED.
#[derive(Drop)]
pub struct EnumeratedType {
    /// The word.
    pub word: Token,
    /// Its items.
    pub items: Vec<NamedInteger>,
}

/// BIT STRING, with its named bits.
#[derive(Drop)]
pub struct BitStringType {
    /// The word BIT.
    pub word: Token,
    /// The named bits, where braces stand.
    pub bits: Option<Vec<NamedBit>>,
}

/// ANY.
#[derive(Drop)]
pub struct AnyType {
    /// The word.
    pub word: Token,
    /// The component that says the type, where DEFINED BY stands.
    pub defined_by: Option<Token>,
}

/// The name of a type.
#[derive(Drop)]
pub struct TypeName {
    /// The name; the module's, where a further one stands behind a point.
    pub name: Token,
    /// The type's name behind the point.
    pub member: Option<Token>,
}

/// A type that holds no other.
#[derive(Drop)]
pub enum PlainType {
    /// BOOLEAN, NULL, a type of text, or GeneralizedTime.
    Simple(Token),
    /// INTEGER.
    Integer(IntegerType),
    /// ENUMERATED.
    Enumerated(EnumeratedType),
    /// BIT STRING.
    BitString(BitStringType),
    /// OCTET STRING, with its first word.
    OctetString(Token),
    /// OBJECT IDENTIFIER, with its first word.
    ObjectIdentifier(Token),
    /// ANY.
    Any(AnyType),
    /// The name of a type.
    Named(TypeName),
}

/// Whether a type of one word stands at a place.
fn is_simple_type_at(tokens: &[Token], at: usize) -> bool
    ensures { result ≡ passes is_simple_type (slice_get tokens.now at) }
{
    is_one_of_at(
        tokens,
        at,
        &[
            "BOOLEAN",
            "NULL",
            "IA5String",
            "PrintableString",
            "NumericString",
            "VisibleString",
            "GraphicString",
            "GeneralizedTime",
        ],
    )
}

/// Reads a type of one word.
fn read_simple_type(
    alloc: Global,
    tokens: &[Token],
    at: usize,
) -> Result<(Token, usize), SyntaxRefusal>
    ensures { Reads tokens.now asn1 closed (Keep is_simple_type) at Leaf result }
{
    keep_token(alloc, tokens, at, is_simple_type_at(tokens, at))
}

/// Reads INTEGER, with its named numbers where a brace comes.
fn read_integer_type(
    alloc: Global,
    tokens: &[Token],
    at: usize,
) -> Result<(IntegerType, usize), SyntaxRefusal>
    ensures { Reads tokens.now asn1 brace integer_type at integer_tree result }
{
    let (word, next) = read_one_of(alloc, tokens, at, &["INTEGER"])?;
    let (numbers, next) = read_optional_integers(alloc, tokens, next)?;
    Ok((IntegerType { word, numbers }, next))
}

/// Reads ENUMERATED with its items.
fn read_enumerated_type(
    alloc: Global,
    tokens: &[Token],
    at: usize,
) -> Result<(EnumeratedType, usize), SyntaxRefusal>
    ensures { Reads tokens.now asn1 closed enumerated_type at enumerated_tree result }
{
    let (word, next) = read_one_of(alloc, tokens, at, &["ENUMERATED"])?;
    let (items, next) = read_named_integers(alloc, tokens, next)?;
    Ok((EnumeratedType { word, items }, next))
}

/// Reads BIT STRING, with its named bits where a brace comes.
fn read_bit_string_type(
    alloc: Global,
    tokens: &[Token],
    at: usize,
) -> Result<(BitStringType, usize), SyntaxRefusal>
    ensures { Reads tokens.now asn1 brace bit_string_type at bit_string_tree result }
{
    let (word, next) = read_one_of(alloc, tokens, at, &["BIT"])?;
    let next = skip_word(tokens, next, "STRING")?;
    let (bits, next) = read_optional_bits(alloc, tokens, next)?;
    Ok((BitStringType { word, bits }, next))
}

/// Reads OCTET STRING.
fn read_octet_string_type(
    alloc: Global,
    tokens: &[Token],
    at: usize,
) -> Result<(Token, usize), SyntaxRefusal>
    ensures { Reads tokens.now asn1 closed octet_string_type at words_tree result }
{
    let (word, next) = read_one_of(alloc, tokens, at, &["OCTET"])?;
    let next = skip_word(tokens, next, "STRING")?;
    Ok((word, next))
}

/// Reads OBJECT IDENTIFIER.
fn read_object_identifier_type(
    alloc: Global,
    tokens: &[Token],
    at: usize,
) -> Result<(Token, usize), SyntaxRefusal>
    ensures { Reads tokens.now asn1 closed object_identifier_type at words_tree result }
{
    let (word, next) = read_one_of(alloc, tokens, at, &["OBJECT"])?;
    let next = skip_word(tokens, next, "IDENTIFIER")?;
    Ok((word, next))
}

/// Reads DEFINED BY and the name behind it where DEFINED comes.
fn read_defined_by(
    alloc: Global,
    tokens: &[Token],
    at: usize,
) -> Result<(Option<Token>, usize), SyntaxRefusal>
    ensures { Reads tokens.now asn1 defined (Maybe (Then (Marks (words (codes "DEFINED" ∷ codes "BY" ∷ [])))
        (Keep is_name))) at (optional_tree behind_tree) result }
{
    if !is_word_at(tokens, at, "DEFINED") {
        return Ok((None, at));
    }
    let next = skip_words(tokens, at, &["DEFINED", "BY"])?;
    let (name, next) = read_name(alloc, tokens, next)?;
    Ok((Some(name), next))
}

/// Reads ANY.
fn read_any_type(
    alloc: Global,
    tokens: &[Token],
    at: usize,
) -> Result<(AnyType, usize), SyntaxRefusal>
    ensures { Reads tokens.now asn1 defined any_type at any_type_tree result }
{
    let (word, next) = read_one_of(alloc, tokens, at, &["ANY"])?;
    let (defined_by, next) = read_defined_by(alloc, tokens, next)?;
    Ok((AnyType { word, defined_by }, next))
}

/// Reads a point and the name behind it where a point comes.
fn read_member(
    alloc: Global,
    tokens: &[Token],
    at: usize,
) -> Result<(Option<Token>, usize), SyntaxRefusal>
    ensures { Reads tokens.now asn1 point (Maybe (Then (sign (codes ".")) (Keep is_name))) at
        (optional_tree behind_tree) result }
{
    if !is_sign_at(tokens, at, ".") {
        return Ok((None, at));
    }
    let next = skip_sign(tokens, at, ".")?;
    let (name, next) = read_name(alloc, tokens, next)?;
    Ok((Some(name), next))
}

/// Reads the name of a type.
fn read_type_name(
    alloc: Global,
    tokens: &[Token],
    at: usize,
) -> Result<(TypeName, usize), SyntaxRefusal>
    ensures { Reads tokens.now asn1 point type_name at type_name_tree result }
{
    let (name, next) = read_name(alloc, tokens, at)?;
    let (member, next) = read_member(alloc, tokens, next)?;
    Ok((TypeName { name, member }, next))
}

/// Reads a type that holds no other.
pub fn read_plain_type(
    alloc: Global,
    tokens: &[Token],
    at: usize,
) -> Result<(PlainType, usize), SyntaxRefusal>
    ensures { Reads tokens.now asn1 is_plain_end plain_type at plain_type_tree result }
{
    if is_simple_type_at(tokens, at) {
        let (word, next) = read_simple_type(alloc, tokens, at)?;
        return Ok((PlainType::Simple(word), next));
    }
    if is_word_at(tokens, at, "INTEGER") {
        let (integer, next) = read_integer_type(alloc, tokens, at)?;
        return Ok((PlainType::Integer(integer), next));
    }
    if is_word_at(tokens, at, "ENUMERATED") {
        let (enumerated, next) = read_enumerated_type(alloc, tokens, at)?;
        return Ok((PlainType::Enumerated(enumerated), next));
    }
    if is_word_at(tokens, at, "BIT") {
        let (bits, next) = read_bit_string_type(alloc, tokens, at)?;
        return Ok((PlainType::BitString(bits), next));
    }
    if is_word_at(tokens, at, "OCTET") {
        let (octets, next) = read_octet_string_type(alloc, tokens, at)?;
        return Ok((PlainType::OctetString(octets), next));
    }
    if is_word_at(tokens, at, "OBJECT") {
        let (identifier, next) = read_object_identifier_type(alloc, tokens, at)?;
        return Ok((PlainType::ObjectIdentifier(identifier), next));
    }
    if is_word_at(tokens, at, "ANY") {
        let (any, next) = read_any_type(alloc, tokens, at)?;
        return Ok((PlainType::Any(any), next));
    }
    let (name, next) = read_type_name(alloc, tokens, at)?;
    Ok((PlainType::Named(name), next))
}
