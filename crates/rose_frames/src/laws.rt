//! Laws of APDUs, as contracts: X.229, section 9.

ghost use Rattle.rose_frames.specs.ApduLaws.{ReadIsApdu, ApduIsRead, WrittenIsApdu, WrittenIsReadBack};

/// The APDU that is read from a tree is the one that the tree is: by the syntax of the APDU the tree denotes the
/// value whose components are its fields. Does nothing.
pub fn reading_is_denoting()
    ensures read { ReadIsApdu }
    ensures denoted { ApduIsRead }
{}

/// What is written for a sound APDU spells its tree, and where that has at most 32 constructed values inside one
/// another and lengths below 2^32 it is read back as it, whatever follows. Does nothing.
pub fn written_is_read_back()
    ensures apdu { WrittenIsApdu }
    ensures read_back { WrittenIsReadBack }
{}
