//! Numbers and names of numbers (X.680, sections 12.8 and 19).

ghost use Rattle.std.specs.Prelude.{◌≡◌};
ghost use Rattle.asn1_leaf_values.specs.Arcs.{arc_number};
ghost use Rattle.asn1_leaf_values.specs.Literals.{signed, where_whole, number_said, same_name, named_number};

use term_values::Names;
use text_lex::numerals::decimal;

/// The least number that isn't one of 64 bits.
const PAST_WHOLE: u64 = 9_223_372_036_854_775_808;

/// The least number that isn't one of 32 bits.
const PAST_ARC: u64 = 4_294_967_296;

/// Whether two names are one.
pub fn same_name(name: &[u8], other: &[u8]) -> bool
    ensures { result ≡ same_name name.now other.now }
{
    name == other
}

/// The number with its sign, where it has 64 bits.
fn signed(minus: bool, number: u64) -> Option<i64>
    ensures { result ≡ where_whole (signed minus number) }
{
    if !minus {
        return if number < PAST_WHOLE {
            Some(number as i64)
        } else {
            None
        };
    }
    if number == 0 {
        return Some(0);
    }
    if number <= PAST_WHOLE {
        Some(-1 - (number - 1) as i64)
    } else {
        None
    }
}

/// The number that a sign and digits stand for, where it has 64 bits.
pub fn read_number(minus: bool, digits: &[u8]) -> Option<i64>
    ensures { result ≡ number_said minus digits.now }
{
    match decimal(digits) {
        None => None,
        Some(number) => signed(minus, number),
    }
}

/// The number of an arc, where it has 32 bits.
pub fn read_arc_number(digits: &[u8]) -> Option<u32>
    ensures { result ≡ arc_number digits.now }
{
    match decimal(digits) {
        None => None,
        Some(number) => {
            if number < PAST_ARC {
                Some(number as u32)
            } else {
                None
            }
        }
    }
}

/// The number that a name has, by the first one of that name.
pub fn named_number(names: &Names, name: &[u8]) -> Option<i64>
    ensures { result ≡ named_number names.now name.now }
{
    for (own, number) in names.items.as_slice() {
        if same_name(own.as_slice(), name) {
            return Some(*number);
        }
    }
    None
}
