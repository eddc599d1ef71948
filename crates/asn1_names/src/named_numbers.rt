//! Named numbers: the numbers that INTEGER and ENUMERATED give names (X.680, sections 19 and 20).

ghost use Rattle.std.specs.Prelude.{◌≡◌, [], ℕ, List, IfOk, MatchOption, None, OnOk, Some, if◌then◌else◌, map};
ghost use Rattle.asn1_names.specs.FirstNames.{first_of};
ghost use Rattle.asn1_names.specs.ModuleTerms.{LimitTerm};
ghost use Rattle.asn1_names.specs.NumbersFound.{StatesNumbers, numbers_in};
ghost use Rattle.asn1_names.specs.StandardModule.{is_same_name};
ghost use Rattle.asn1_names.specs.TermViews.{bound_term, integer_term, plain_term, type_term};
ghost use Rattle.asn1_names.specs.TypeBase.{named_numbers, number_called};

use asn1_syntax::plain_type::PlainType;
use asn1_syntax::type_text::TypeText;
use asn1_values_syntax::named_number::NamedInteger;
use asn1_values_syntax::numbers::Bound;
use indexmap::IndexMap;
use std::alloc::{AllocError, Global};

/// The first number of each name, by name.
pub type NumberMap<'a> = IndexMap<&'a [u8], &'a Bound>;

/// The named numbers that a type which holds no other states.
fn plain_numbers(of: &PlainType) -> Option<&[NamedInteger]>
    ensures { (limits : List LimitTerm) → MatchOption result (named_numbers (plain_term of.now limits) ≡ [])
        (λ numbers. named_numbers (plain_term of.now limits) ≡ map integer_term numbers.now) }
{
    match of {
        PlainType::Integer(integer) => match &integer.numbers {
            Some(numbers) => Some(numbers.as_slice()),
            None => None,
        },
        PlainType::Enumerated(enumerated) => Some(enumerated.items.as_slice()),
        PlainType::Named(_) => None,
        PlainType::Simple(_) => None,
        PlainType::BitString(_) => None,
        PlainType::OctetString(_) => None,
        PlainType::ObjectIdentifier(_) => None,
        PlainType::Any(_) => None,
    }
}

/// The named numbers that a type states itself.
pub fn stated_numbers(of: &TypeText) -> Option<&[NamedInteger]>
    ensures { MatchOption result (named_numbers (type_term of.now) ≡ [])
        (λ numbers. named_numbers (type_term of.now) ≡ map integer_term numbers.now) }
{
    match of {
        TypeText::Plain { of: plain, .. } => plain_numbers(plain),
        TypeText::Tagged { .. } => None,
        TypeText::Structured { .. } => None,
        TypeText::Choice { .. } => None,
    }
}

/// Keeps a number under a name that has none yet.
fn keep_number<'a>(
    table: &mut NumberMap<'a>,
    key: &'a [u8],
    number: &'a Bound,
) -> Result<(), AllocError>
    ensures { OnOk result ((name : List ℕ) → numbers_in table.new name ≡ first_of (numbers_in table.old name)
        (if is_same_name key.now name then Some (bound_term number.now) else None)) }
{
    if table.get(key).is_none() {
        table.insert(key, number)?;
    }
    Ok(())
}

/// The first number of each name.
fn first_numbers<'a>(
    alloc: Global,
    numbers: &'a [NamedInteger],
) -> Result<NumberMap<'a>, AllocError>
    ensures { IfOk result (λ table. (name : List ℕ) →
        numbers_in table name ≡ number_called name (map integer_term numbers.now)) }
{
    let mut table = IndexMap::new(alloc);
    for named in numbers.iter() {
        keep_number(&mut table, named.name.text.as_slice(), &named.number)?;
    }
    Ok(table)
}

/// The first number of each name that a type states itself.
pub fn number_map<'a>(alloc: Global, of: &'a TypeText) -> Result<NumberMap<'a>, AllocError>
    ensures { IfOk result (λ table. StatesNumbers table (type_term of.now)) }
{
    match stated_numbers(of) {
        Some(numbers) => first_numbers(alloc, numbers),
        None => Ok(IndexMap::new(alloc)),
    }
}
