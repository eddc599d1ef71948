//! The octets of a document by what they begin: X.722, section 8.2, and X.680, section 12.

ghost use Rattle.std.specs.Prelude.{◌≡◌, slice_index};
ghost use Rattle.text_lex.specs.Octets.{is_one_of, is_word_octet, start_of};

pub const LINE_FEED: u8 = b'\n';

pub const HYPHEN: u8 = b'-';

pub const SOLIDUS: u8 = b'/';

pub const COLON: u8 = b':';

pub const EQUALS_SIGN: u8 = b'=';

pub const FULL_STOP: u8 = b'.';

pub const QUOTATION_MARK: u8 = b'"';

pub const APOSTROPHE: u8 = b'\'';

/// The letter behind a hexadecimal string.
pub const HEX_SUFFIX: u8 = b'H';

/// The letter behind a binary string.
pub const BIT_SUFFIX: u8 = b'B';

/// White space: tab, line feed, carriage return and space.
pub const BLANKS: &[u8] = b"\t\n\r ";

/// The signs that are a token of one octet.
pub const SIGNS: &[u8] = b";,:.{}()[]=|-";

/// The delimiters of a string behind the words that announce one.
pub const DELIMITERS: &[u8] = b"!\"#$%^&*'~?@\\`";

pub const DIGITS: &[u8] = b"0123456789";

pub const HEX_DIGITS: &[u8] = b"0123456789ABCDEF";

pub const BITS: &[u8] = b"01";

/// What an octet begins, where no comment begins.
#[derive(Clone, Copy)]
pub enum Start {
    Blank,
    Delimiter,
    Letter,
    Digit,
    Apostrophe,
    Sign,
    Nothing,
}

/// Whether an octet is one of these.
#[tactic(auto, unfolding(crate::specs::Octets::is_one_of))]
pub fn is_one_of(octets: &[u8], octet: u8) -> bool
    ensures { result ≡ is_one_of octets.now octet }
{
    octets.contains(&octet)
}

/// What an octet begins; `announced` says that words stand before it that announce a string.
#[tactic(auto, unfolding(crate::specs::Octets::start_of))]
pub fn start_of(announced: bool, octet: u8) -> Start
    ensures { result ≡ start_of announced octet }
{
    if is_one_of(BLANKS, octet) {
        Start::Blank
    } else if octet == QUOTATION_MARK {
        Start::Delimiter
    } else if announced & is_one_of(DELIMITERS, octet) {
        Start::Delimiter
    } else if octet.is_ascii_alphabetic() {
        Start::Letter
    } else if is_one_of(DIGITS, octet) {
        Start::Digit
    } else if octet == APOSTROPHE {
        Start::Apostrophe
    } else if is_one_of(SIGNS, octet) {
        Start::Sign
    } else {
        Start::Nothing
    }
}

/// Whether an octet stands in words beside the hyphen: a letter, a digit or a solidus.
#[tactic(auto, unfolding(crate::specs::Octets::is_word_octet))]
pub fn is_word_octet(octet: u8) -> bool
    ensures { result ≡ is_word_octet octet }
{
    octet.is_ascii_alphanumeric() | (octet == SOLIDUS)
}

/// The octet at a place, or 0 behind the end of the text, which begins nothing.
pub fn octet_at(text: &[u8], at: usize) -> u8
    ensures { result ≡ slice_index text.now at }
{
    if at < text.len() { text[at] } else { 0 }
}
