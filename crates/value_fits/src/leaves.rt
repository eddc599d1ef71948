//! Values that hold no others, against their syntaxes: X.680, sections 17 to 24, 32, 41 and 46.

ghost use Rattle.std.specs.Prelude.{◌≡◌, ◌<◌};
ghost use Rattle.term_values.specs.LeafTests.{truth_fits, whole_fits, named_fits, are_bits, bits_fit, octets_fit};
ghost use Rattle.term_values.specs.LeafTests.{null_fits, identifier_fits, text_fits, time_fits, are_arcs, is_cleared};

use term_values::times::is_time;
use term_values::{Charset, Names, Oid, Ranges, Value, ValueForm};

/// BOOLEAN.
pub(crate) fn truth_fits(value: &Value) -> bool
    ensures { result ≡ truth_fits value.now }
{
    match &value.form {
        ValueForm::Bool(_) => true,
        _ => false,
    }
}

/// INTEGER.
pub(crate) fn whole_fits(ranges: &Ranges, value: &Value) -> bool
    ensures { result ≡ whole_fits ranges.now value.now }
{
    match &value.form {
        ValueForm::Int(number) => ranges.allow(*number),
        _ => false,
    }
}

/// ENUMERATED.
pub(crate) fn named_fits(names: &Names, value: &Value) -> bool
    ensures { result ≡ named_fits names.now value.now }
{
    match &value.form {
        ValueForm::Int(number) => names.have(*number),
        _ => false,
    }
}

/// The unused bits of the last octet are 0.
fn is_cleared(octets: &[u8], unused: u8) -> bool
    requires { unused < 8 }
    ensures { result ≡ is_cleared octets.now unused }
{
    match octets {
        [] => true,
        [.., last] => *last >> unused << unused == *last,
    }
}

/// Fewer than eight bits are unused, and they are 0; no octets have no unused bits.
fn are_bits(octets: &[u8], unused: u8) -> bool
    ensures { result ≡ are_bits octets.now unused }
{
    unused < 8 && (unused == 0 || octets.len() > 0) && is_cleared(octets, unused)
}

/// BIT STRING.
pub(crate) fn bits_fit(sizes: &Ranges, value: &Value) -> bool
    ensures { result ≡ bits_fit sizes.now value.now }
{
    match &value.form {
        ValueForm::Bits(octets, unused) => {
            are_bits(octets.as_slice(), *unused) && sizes.allow_bits(octets.as_slice(), *unused)
        }
        _ => false,
    }
}

/// OCTET STRING.
pub(crate) fn octets_fit(sizes: &Ranges, value: &Value) -> bool
    ensures { result ≡ octets_fit sizes.now value.now }
{
    match &value.form {
        ValueForm::Octets(octets) => sizes.allow_size(octets.as_slice().len()),
        _ => false,
    }
}

/// NULL.
pub(crate) fn null_fits(value: &Value) -> bool
    ensures { result ≡ null_fits value.now }
{
    match &value.form {
        ValueForm::Null => true,
        _ => false,
    }
}

/// An identifier of the program has the arcs of one, as its type says.
fn are_arcs(oid: &Oid) -> bool
    ensures { result ≡ are_arcs oid.now }
{
    !oid.arcs().is_empty()
}

/// OBJECT IDENTIFIER.
pub(crate) fn identifier_fits(value: &Value) -> bool
    ensures { result ≡ identifier_fits value.now }
{
    match &value.form {
        ValueForm::Oid(oid) => are_arcs(oid),
        _ => false,
    }
}

/// The string types.
pub(crate) fn text_fits(charset: Charset, sizes: &Ranges, value: &Value) -> bool
    ensures { result ≡ text_fits charset sizes.now value.now }
{
    match &value.form {
        ValueForm::Text(octets) => {
            charset.has_all(octets.as_slice()) && sizes.allow_size(octets.as_slice().len())
        }
        _ => false,
    }
}

/// GeneralizedTime.
pub(crate) fn time_fits(value: &Value) -> bool
    ensures { result ≡ time_fits value.now }
{
    match &value.form {
        ValueForm::Time(octets) => is_time(octets.as_slice()),
        _ => false,
    }
}
