//! What constraints leave of a syntax (X.680, sections 49 to 51).

ghost use Rattle.std.specs.Prelude.{◌≡◌, [], ◌∷◌, IfOk, map, option_map};
ghost use Rattle.asn1_names.specs.Constraining.{Constrains, limit_ranges};
ghost use Rattle.asn1_names.specs.DenotedSyntax.{size_limits};
ghost use Rattle.asn1_names.specs.ModuleTerms.{TypeTerm};
ghost use Rattle.asn1_names.specs.NumbersFound.{TellsNames};
ghost use Rattle.asn1_names.specs.TermViews.{limit_term, module_terms, range_term, range_terms, type_term};
ghost use Rattle.asn1_types.specs.BuiltSyntaxes.{HasNoNames, TakesLimits};

use crate::said_numbers::range_pairs;
use asn1_names::named_numbers::{NumberMap, number_map};
use asn1_names::narrowing::narrow;
use asn1_names::numbers::Base;
use asn1_names::type_walk::beneath_tags;
use asn1_numbers::number_tables::Numbers;
use asn1_syntax::type_text::TypeText;
use asn1_values_syntax::constraint::{Constraint, Range};
use std::alloc::{AllocError, Global};
use term_values::Syntax;

/// The ranges of a constraint.
fn ranges_of(constraint: &Constraint) -> &[Range]
    ensures { limit_ranges (limit_term constraint.now) ≡ map range_term result.now }
{
    match constraint {
        Constraint::Size(ranges) => ranges.as_slice(),
        Constraint::Values(ranges) => ranges.as_slice(),
    }
}

/// What one constraint leaves of a syntax; `base` and `own` are told of the type at which it stands.
fn constrained_by_one(
    alloc: Global,
    numbers: &Numbers,
    home: usize,
    base: &Base,
    own: &NumberMap,
    constraint: &Constraint,
    syntax: Syntax,
) -> Result<Syntax, AllocError>
    ensures { IfOk result (λ left. (of : TypeTerm) → TellsNames (module_terms numbers.now) home of base.now own.now →
        TakesLimits (module_terms numbers.now) home of (limit_term constraint.now ∷ []) syntax →
        Constrains (module_terms numbers.now) home of (limit_term constraint.now ∷ []) syntax left) }
{
    let pairs = range_pairs(alloc, numbers, home, base, own, ranges_of(constraint))?;
    narrow(alloc, syntax, pairs)
}

/// What the constraints at a type leave of its syntax.
pub fn constrained<'a>(
    alloc: Global,
    numbers: &Numbers<'a>,
    home: usize,
    of: &'a TypeText,
    constraints: &[Constraint],
    syntax: Syntax,
) -> Result<Syntax, AllocError>
    ensures { IfOk result (λ left.
        TakesLimits (module_terms numbers.now) home (type_term of.now) (map limit_term constraints.now) syntax →
        Constrains (module_terms numbers.now) home (type_term of.now) (map limit_term constraints.now) syntax left) }
{
    if constraints.is_empty() {
        return Ok(syntax);
    }
    let base = numbers.base(home, of);
    let own = number_map(alloc, beneath_tags(of))?;
    let mut left = syntax;
    for constraint in constraints.iter() {
        left = constrained_by_one(alloc, numbers, home, &base, &own, constraint, left)?;
    }
    Ok(left)
}

/// What the sizes before OF leave of the syntax of a list, whose type has no named numbers.
pub fn sized(
    alloc: Global,
    numbers: &Numbers,
    home: usize,
    size: &Option<Vec<Range>>,
    syntax: Syntax,
) -> Result<Syntax, AllocError>
    ensures { IfOk result (λ left. (of : TypeTerm) → HasNoNames (module_terms numbers.now) home of →
        TakesLimits (module_terms numbers.now) home of (size_limits (option_map range_terms size.now)) syntax →
        Constrains (module_terms numbers.now) home of (size_limits (option_map range_terms size.now)) syntax left) }
{
    match size {
        None => Ok(syntax),
        Some(ranges) => {
            let own = NumberMap::new(alloc);
            let pairs = range_pairs(
                alloc,
                numbers,
                home,
                &Base::Nothing,
                &own,
                ranges.as_slice(),
            )?;
            narrow(alloc, syntax, pairs)
        }
    }
}
