//! Tags: X.690, section 8.1.2, and the universal class of X.680, section 8.4.

ghost use Rattle.std.specs.Prelude.{◌≡◌};
ghost use Rattle.term_values.specs.UniversalTags.{universal, text_tag};
ghost use Rattle.term_values.specs.declared.tag.TheConstants.Tag.{BOOLEAN, INTEGER, BIT_STRING, OCTET_STRING, NULL};
ghost use Rattle.term_values.specs.declared.tag.TheConstants.Tag.{OBJECT_IDENTIFIER, ENUMERATED, SEQUENCE, SET};
ghost use Rattle.term_values.specs.declared.tag.TheConstants.Tag.{GENERALIZED_TIME};

use crate::charset::Charset;

/// The class of tags that X.680 assigns.
pub const UNIVERSAL: u8 = 0;

/// The class of tags whose meaning depends on the type round them.
pub const CONTEXT: u8 = 2;

/// A tag: its class and its number within the class.
#[derive(Clone, Copy, Debug, PartialEq, Eq)]
pub struct Tag {
    /// 0 universal, 1 application, 2 context-specific, 3 private.
    pub class: u8,
    pub number: u32,
}

impl Tag {
    pub const BOOLEAN: Tag = Tag {
        class: UNIVERSAL,
        number: 1,
    };

    pub const INTEGER: Tag = Tag {
        class: UNIVERSAL,
        number: 2,
    };

    pub const BIT_STRING: Tag = Tag {
        class: UNIVERSAL,
        number: 3,
    };

    pub const OCTET_STRING: Tag = Tag {
        class: UNIVERSAL,
        number: 4,
    };

    pub const NULL: Tag = Tag {
        class: UNIVERSAL,
        number: 5,
    };

    pub const OBJECT_IDENTIFIER: Tag = Tag {
        class: UNIVERSAL,
        number: 6,
    };

    pub const ENUMERATED: Tag = Tag {
        class: UNIVERSAL,
        number: 10,
    };

    /// SEQUENCE and SEQUENCE OF.
    pub const SEQUENCE: Tag = Tag {
        class: UNIVERSAL,
        number: 16,
    };

    /// SET and SET OF.
    pub const SET: Tag = Tag {
        class: UNIVERSAL,
        number: 17,
    };

    pub const NUMERIC_STRING: Tag = Tag {
        class: UNIVERSAL,
        number: 18,
    };

    pub const PRINTABLE_STRING: Tag = Tag {
        class: UNIVERSAL,
        number: 19,
    };

    pub const IA5_STRING: Tag = Tag {
        class: UNIVERSAL,
        number: 22,
    };

    pub const GENERALIZED_TIME: Tag = Tag {
        class: UNIVERSAL,
        number: 24,
    };

    pub const GRAPHIC_STRING: Tag = Tag {
        class: UNIVERSAL,
        number: 25,
    };

    pub const VISIBLE_STRING: Tag = Tag {
        class: UNIVERSAL,
        number: 26,
    };

    /// The context-specific tag with this number.
    pub const fn context(number: u32) -> Tag
        ensures { result ≡ record { class = 2; number = number } }
    {
        Tag {
            class: CONTEXT,
            number,
        }
    }

    /// The tag of a string type.
    pub fn text(charset: Charset) -> Tag
        ensures { result ≡ text_tag charset }
    {
        match charset {
            Charset::Numeric => Tag::NUMERIC_STRING,
            Charset::Printable => Tag::PRINTABLE_STRING,
            Charset::Ia5 => Tag::IA5_STRING,
            Charset::Visible => Tag::VISIBLE_STRING,
            Charset::Graphic => Tag::GRAPHIC_STRING,
        }
    }
}

/// The constants have the numbers of X.680, table 1; those of the string types are given by `Tag::text`.
pub fn universal_tags()
    ensures boolean { BOOLEAN ≡ universal 1 }
    ensures integer { INTEGER ≡ universal 2 }
    ensures bit_string { BIT_STRING ≡ universal 3 }
    ensures octet_string { OCTET_STRING ≡ universal 4 }
    ensures null { NULL ≡ universal 5 }
    ensures object_identifier { OBJECT_IDENTIFIER ≡ universal 6 }
    ensures enumerated { ENUMERATED ≡ universal 10 }
    ensures sequence { SEQUENCE ≡ universal 16 }
    ensures set { SET ≡ universal 17 }
    ensures generalized_time { GENERALIZED_TIME ≡ universal 24 }
{}
