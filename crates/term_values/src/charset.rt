//! The character sets of string types: X.680, section 41.

ghost use Rattle.std.specs.Prelude.{◌≡◌};
ghost use Rattle.std.specs.List.{list_all};
ghost use Rattle.term_values.specs.Bounded.{has_character, is_printable};

/// The octets that a text may have.
#[derive(Clone, Copy, Debug, PartialEq, Eq)]
pub enum Charset {
    /// NumericString: digits and space.
    Numeric,
    /// PrintableString: letters, digits, space and `'()+,-./:=?`.
    Printable,
    /// IA5String: 0 to 127.
    Ia5,
    /// VisibleString: 32 to 126.
    Visible,
    /// GraphicString: any octets.
    Graphic,
}

fn is_printable(octet: u8) -> bool
    ensures { result ≡ is_printable octet }
{
    matches!(octet, b'A'..=b'Z' | b'a'..=b'z' | b'0'..=b'9' | b' ' | b'\''..=b')' | b'+'..=b'/' | b':' | b'=' | b'?')
}

impl Charset {
    /// Whether the string type has the character.
    pub fn has(self, octet: u8) -> bool
        ensures { result ≡ has_character self octet }
    {
        match self {
            Charset::Numeric => matches!(octet, b'0'..=b'9' | b' '),
            Charset::Printable => is_printable(octet),
            Charset::Ia5 => octet < 128,
            Charset::Visible => matches!(octet, 32..=126),
            Charset::Graphic => true,
        }
    }

    /// Whether the string type has each of the characters.
    pub fn has_all(self, text: &[u8]) -> bool
        ensures { result ≡ list_all (has_character self) text.now }
    {
        for octet in text {
            if !self.has(*octet) {
                return false;
            }
        }
        true
    }
}
