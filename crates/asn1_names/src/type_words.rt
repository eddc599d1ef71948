//! The words of types: ASN.1's types of one word, and those that documents may not use (X.680, sections 18, 41 and 45
//! to 48).

ghost use Rattle.std.specs.Prelude.{◌≡◌, option_map};
ghost use Rattle.std.specs.List.{list_any};
ghost use Rattle.asn1_names.specs.StandardModule.{is_same_name};
ghost use Rattle.asn1_names.specs.TypeWords.{is_other_type_word, one_word_type};
ghost use Rattle.asn1_names.specs.WordViews.{word_syntax};

use term_values::Charset;

/// A type of one word.
#[derive(Clone, Copy)]
pub enum WordType {
    /// BOOLEAN.
    Boolean,
    /// NULL.
    Null,
    /// A type of text.
    Text(Charset),
    /// GeneralizedTime.
    Time,
}

/// Whether a word is this text.
pub fn is_named(word: &[u8], text: &str) -> bool
    ensures { result ≡ is_same_name word.now text.now }
{
    word == text.as_bytes()
}

/// Whether a word is one of these texts.
fn is_one_of(word: &[u8], texts: &[&str]) -> bool
    ensures { result ≡ list_any (λ text. is_same_name word.now text.now) texts.now }
{
    texts.iter().any(|text| is_named(word, text))
}

/// The type of one word that a word names; none where it names no such type.
pub fn word_type(word: &[u8]) -> Option<WordType>
    ensures { option_map word_syntax result ≡ one_word_type word.now }
{
    if is_named(word, "BOOLEAN") {
        Some(WordType::Boolean)
    } else if is_named(word, "NULL") {
        Some(WordType::Null)
    } else if is_named(word, "NumericString") {
        Some(WordType::Text(Charset::Numeric))
    } else if is_named(word, "PrintableString") {
        Some(WordType::Text(Charset::Printable))
    } else if is_named(word, "IA5String") {
        Some(WordType::Text(Charset::Ia5))
    } else if is_named(word, "VisibleString") {
        Some(WordType::Text(Charset::Visible))
    } else if is_named(word, "GraphicString") {
        Some(WordType::Text(Charset::Graphic))
    } else if is_named(word, "GeneralizedTime") {
        Some(WordType::Time)
    } else {
        None
    }
}

/// Whether a word begins a type of ASN.1 that documents may not use.
#[tactic(auto, unfolding(crate::specs::TypeWords::is_other_type_word))]
pub fn is_other_type_word(word: &[u8]) -> bool
    ensures { result ≡ is_other_type_word word.now }
{
    is_one_of(
        word,
        &[
            "REAL",
            "EXTERNAL",
            "UTCTime",
            "ObjectDescriptor",
            "UTF8String",
            "TeletexString",
            "T61String",
            "VideotexString",
            "GeneralString",
            "UniversalString",
            "BMPString",
            "ISO646String",
            "EMBEDDED",
            "CHARACTER",
            "INSTANCE",
            "RELATIVE-OID",
            "OID-IRI",
            "RELATIVE-OID-IRI",
            "TIME",
            "DATE",
            "TIME-OF-DAY",
            "DATE-TIME",
            "DURATION",
        ],
    )
}
