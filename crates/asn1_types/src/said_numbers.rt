//! The numbers of named numbers, named bits and ranges, where each of them is said (X.680, sections 19 to 22 and 51).

ghost use Rattle.std.specs.Prelude.{◌≡◌, IfOk, map};
ghost use Rattle.asn1_names.specs.Constraining.{AreRanges};
ghost use Rattle.asn1_names.specs.DenotedSyntax.{AreNamed};
ghost use Rattle.asn1_names.specs.ModuleTerms.{TypeTerm};
ghost use Rattle.asn1_names.specs.NumbersFound.{TellsNames, text_term};
ghost use Rattle.asn1_names.specs.SaidNumbers.{AllSayBounds, AllSayNumbers, RangeIsSaid, SaysBound, SaysNumber};
ghost use Rattle.asn1_names.specs.SaidNumbers.{number_or_zero};
ghost use Rattle.asn1_names.specs.TermViews.{bit_term, bound_term, integer_term, module_terms, range_term, token_term};
ghost use Rattle.asn1_names.specs.WholeNumbers.{IsBound, IsNumber};

use asn1_names::named_numbers::NumberMap;
use asn1_names::numbers::{Base, NumberFound, NumberText, bound_text, token_text};
use asn1_numbers::number_tables::Numbers;
use asn1_values_syntax::constraint::Range;
use asn1_values_syntax::named_number::{NamedBit, NamedInteger};
use asn1_values_syntax::numbers::Bound;
use std::alloc::{AllocError, Global};
use term_values::Names;
use term_values::bytes::Bytes;

/// The number that was found, or 0.
fn number_or_zero(found: NumberFound) -> i64
    ensures { result ≡ number_or_zero found }
{
    match found {
        NumberFound::Number(number) => number,
        NumberFound::NotNumber => 0,
        NumberFound::Unknown => 0,
    }
}

/// The number that is said, or 0.
fn said_number(numbers: &Numbers, home: usize, text: NumberText) -> i64
    ensures { SaysNumber (module_terms numbers.now) home (text_term text.entry) →
        IsNumber (module_terms numbers.now) home (text_term text.entry) result }
{
    number_or_zero(numbers.number(home, text))
}

/// The number of a bound that is said, or 0.
fn said_bound(numbers: &Numbers, home: usize, base: &Base, own: &NumberMap, bound: &Bound) -> i64
    ensures { (of : TypeTerm) → TellsNames (module_terms numbers.now) home of base.now own.now →
        SaysBound (module_terms numbers.now) home of (bound_term bound.now) →
        IsBound (module_terms numbers.now) home of (bound_term bound.now) result }
{
    number_or_zero(numbers.bound(home, base, own, bound_text(bound)))
}

/// The least and the greatest number of a range.
fn range_pair(
    numbers: &Numbers,
    home: usize,
    base: &Base,
    own: &NumberMap,
    range: &Range,
) -> (i64, i64)
    ensures { (of : TypeTerm) → TellsNames (module_terms numbers.now) home of base.now own.now →
        RangeIsSaid (module_terms numbers.now) home of (range_term range.now) result }
{
    let least = said_bound(numbers, home, base, own, &range.lower);
    match &range.upper {
        Some(upper) => (least, said_bound(numbers, home, base, own, upper)),
        None => (least, least),
    }
}

/// The numbers of ranges of a type with this base; `own` has the named numbers of a base that is no assignment's.
pub fn range_pairs(
    alloc: Global,
    numbers: &Numbers,
    home: usize,
    base: &Base,
    own: &NumberMap,
    ranges: &[Range],
) -> Result<Vec<(i64, i64)>, AllocError>
    ensures { IfOk result (λ pairs. (of : TypeTerm) →
        TellsNames (module_terms numbers.now) home of base.now own.now →
        AllSayBounds (module_terms numbers.now) home of (map range_term ranges.now) →
        AreRanges (module_terms numbers.now) home of (map range_term ranges.now) pairs.items) }
{
    let mut pairs = Vec::new(alloc);
    for range in ranges.iter() {
        pairs.push(range_pair(numbers, home, base, own, range))?;
    }
    Ok(pairs)
}

/// The names and numbers of named numbers, or of items of ENUMERATED.
pub fn named_integers(
    alloc: Global,
    numbers: &Numbers,
    home: usize,
    named: &[NamedInteger],
) -> Result<Names, AllocError>
    ensures { IfOk result (λ names. AllSayNumbers (module_terms numbers.now) home (map integer_term named.now) →
        AreNamed (module_terms numbers.now) home (map integer_term named.now) names) }
{
    let mut items = Vec::new(alloc);
    for one in named.iter() {
        let number = said_number(numbers, home, bound_text(&one.number));
        let name = Bytes::from_slice(alloc, one.name.text.as_slice())?;
        items.push((name, number))?;
    }
    Ok(Names { items })
}

/// The names and numbers of named bits.
pub fn named_bits(
    alloc: Global,
    numbers: &Numbers,
    home: usize,
    named: &[NamedBit],
) -> Result<Names, AllocError>
    ensures { IfOk result (λ names. AllSayNumbers (module_terms numbers.now) home (map bit_term named.now) →
        AreNamed (module_terms numbers.now) home (map bit_term named.now) names) }
{
    let mut items = Vec::new(alloc);
    for one in named.iter() {
        let number = said_number(numbers, home, token_text(&one.number));
        let name = Bytes::from_slice(alloc, one.name.text.as_slice())?;
        items.push((name, number))?;
    }
    Ok(Names { items })
}
