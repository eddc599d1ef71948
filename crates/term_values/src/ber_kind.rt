//! The kinds of faults of octets that spell no tree: docs/PROFILE.md, section 3.

/// What is wrong where no front of octets spells a tree.
#[derive(Clone, Copy, Debug, PartialEq, Eq)]
pub enum BerKind {
    /// The octets end before the value does.
    Truncated,
    /// A constructed value stands within 32 constructed values.
    TooDeep,
    /// A tag in the high form begins with an octet 80, or has a number below 31 or past 2^32 - 1, or the tag is
    /// universal 0 and no end of an indefinite value: X.690, sections 8.1.2.4 and 8.1.5.
    BadTag,
    /// A length octet is FF, or 80 on a primitive value, or the length is past 2^32 - 1; a value goes past the end of a
    /// definite value round it; or an end of contents isn't 0000: X.690, sections 8.1.3 and 8.1.5.
    BadLength,
    /// The octets of an indefinite value end in place of its next part: X.690, section 8.1.3.6.
    NoEnd,
}
