//! What is told of the records that a log holds, so that an append need not go through them: X.735, section 8;
//! docs/PROFILE.md, section 21.

/// A record of a log. Records go by their numbers.
#[derive(Clone, Copy, Debug, PartialEq, Eq, PartialOrd, Ord)]
pub struct HeldRecord {
    /// Its number.
    pub number: i64,
    /// Its size in octets: that of its attributes, as SET OF Attribute.
    pub size: u64,
}

/// The records of a log.
#[derive(Drop)]
pub struct HeldRecords {
    /// The records by rising number.
    pub records: Vec<HeldRecord>,
    /// The sum of their sizes.
    pub octets: u64,
}
