//! What is wrong in constraints (X.680, sections 49 to 51; docs/PROFILE.md, section 11).

ghost use Rattle.std.specs.Prelude.{◌≡◌, List, None, Some, IfOk, map, option_map};
ghost use Rattle.asn1_names.specs.ModuleTerms.{ModuleTerm, TypeTerm};
ghost use Rattle.asn1_names.specs.NumbersFound.{FindsBase, TellsNames};
ghost use Rattle.asn1_names.specs.TermViews.{bound_term, limit_term, module_terms, range_term, range_terms, type_term};
ghost use Rattle.asn1_names.specs.WholeNumbers.{NamesNumber};
ghost use Rattle.token_grammar.specs.declared.token.Token.{Token as NameToken};
ghost use Rattle.asn1_names.specs.Constraining.{limit_ranges};
ghost use Rattle.asn1_names.specs.Occurrences.{bound_or_word, first_word};
ghost use Rattle.asn1_names.specs.FirstModuleFault.FaultKind.{NotSupported};
ghost use Rattle.asn1_names.specs.declared.refusal.UnsupportedKind.TheVariants.{MisplacedConstraint};
ghost use Rattle.asn1_resolve.specs.FaultSets.{AnyOf, In, IsFirstOf, OneFault};
ghost use Rattle.asn1_resolve.specs.TypeFaults.{BoundFaults, ConstraintFaults, IsMisplaced, LimitFaults, RangeFaults};
ghost use Rattle.asn1_resolve.specs.TypeFaults.{SizeFaults, UpperFaults};

use crate::faults::{Home, earlier, fault_at};
use crate::number_faults::judge_found;
use asn1_names::constraint_places::has_place;
use asn1_names::first_fault::{FaultKind, ModuleFault};
use asn1_names::first_words::first_word;
use asn1_names::named_numbers::{NumberMap, number_map};
use asn1_names::numbers::{Base, bound_text, number_token};
use asn1_names::type_walk::beneath_tags;
use asn1_numbers::number_tables::Numbers;
use asn1_syntax::type_text::{StructureText, TypeText};
use asn1_values_syntax::constraint::{Constraint, Range};
use asn1_values_syntax::numbers::Bound;
use std::alloc::{AllocError, Global};
use token_grammar::Token;

/// The fault of a bound of a type with this base.
fn judge_bound(
    numbers: &Numbers,
    home: Home,
    base: &Base,
    own: &NumberMap,
    bound: &Bound,
) -> Option<ModuleFault>
    ensures { (of : TypeTerm) → TellsNames (module_terms numbers.now) home.module of base.now own.now →
        IsFirstOf (In home.document
        (BoundFaults (module_terms numbers.now) home.module of (bound_term bound.now))) result }
{
    let text = bound_text(bound);
    let found = numbers.bound(home.module, base, own, text);
    judge_found(home, number_token(text), found, FaultKind::WideNumber)
}

/// The fault of the greatest number of a range, where one stands.
fn judge_upper(
    numbers: &Numbers,
    home: Home,
    base: &Base,
    own: &NumberMap,
    upper: &Option<Bound>,
) -> Option<ModuleFault>
    ensures { (of : TypeTerm) → TellsNames (module_terms numbers.now) home.module of base.now own.now →
        IsFirstOf (In home.document
        (UpperFaults (module_terms numbers.now) home.module of (option_map bound_term upper.now))) result }
{
    match upper {
        Some(bound) => judge_bound(numbers, home, base, own, bound),
        None => None,
    }
}

/// The first fault of a range.
fn judge_range(
    numbers: &Numbers,
    home: Home,
    base: &Base,
    own: &NumberMap,
    range: &Range,
) -> Option<ModuleFault>
    ensures { (of : TypeTerm) → TellsNames (module_terms numbers.now) home.module of base.now own.now →
        IsFirstOf (In home.document
        (RangeFaults (module_terms numbers.now) home.module of (range_term range.now))) result }
{
    let lower = judge_bound(numbers, home, base, own, &range.lower);
    let upper = judge_upper(numbers, home, base, own, &range.upper);
    earlier(lower, upper)
}

/// The first fault of ranges.
fn judge_ranges(
    numbers: &Numbers,
    home: Home,
    base: &Base,
    own: &NumberMap,
    ranges: &[Range],
) -> Option<ModuleFault>
    ensures { (of : TypeTerm) → TellsNames (module_terms numbers.now) home.module of base.now own.now →
        IsFirstOf (In home.document
        (AnyOf (RangeFaults (module_terms numbers.now) home.module of) (map range_term ranges.now))) result }
{
    let mut first = None;
    for range in ranges.iter() {
        first = earlier(first, judge_range(numbers, home, base, own, range));
    }
    first
}

/// The ranges of a constraint.
fn ranges_of(constraint: &Constraint) -> &[Range]
    ensures { map range_term result.now ≡ limit_ranges (limit_term constraint.now) }
{
    match constraint {
        Constraint::Size(ranges) => ranges.as_slice(),
        Constraint::Values(ranges) => ranges.as_slice(),
    }
}

/// The token of the first bound of ranges, or another one where there are none.
fn bound_or_word<'a>(ranges: &'a [Range], word: &'a Token) -> &'a Token
    ensures { result.now ≡ bound_or_word (map range_term ranges.now) word.now }
{
    match ranges {
        [first, ..] => number_token(bound_text(&first.lower)),
        [] => word,
    }
}

/// The fault of a constraint that the type has no place for.
fn judge_place(
    home: Home,
    base: &Base,
    of: &TypeText,
    constraint: &Constraint,
) -> Option<ModuleFault>
    ensures { (ms : List ModuleTerm) → FindsBase ms home.module (type_term of.now) base.now →
        IsFirstOf (In home.document
        (OneFault (IsMisplaced ms home.module (type_term of.now) (limit_term constraint.now))
        (bound_or_word (limit_ranges (limit_term constraint.now)) (first_word (type_term of.now))).at
        (NotSupported MisplacedConstraint))) result }
{
    if has_place(base, constraint) {
        return None;
    }
    let token = bound_or_word(ranges_of(constraint), first_word(of));
    Some(fault_at(home, token, FaultKind::MisplacedConstraint))
}

/// The first fault of a constraint.
fn judge_limit(
    numbers: &Numbers,
    home: Home,
    base: &Base,
    own: &NumberMap,
    of: &TypeText,
    constraint: &Constraint,
) -> Option<ModuleFault>
    ensures { TellsNames (module_terms numbers.now) home.module (type_term of.now) base.now own.now →
        FindsBase (module_terms numbers.now) home.module (type_term of.now) base.now →
        IsFirstOf (In home.document (LimitFaults (module_terms numbers.now) home.module (type_term of.now)
        (limit_term constraint.now))) result }
{
    let bounds = judge_ranges(numbers, home, base, own, ranges_of(constraint));
    let place = judge_place(home, base, of, constraint);
    earlier(bounds, place)
}

/// The first fault of constraints that stand behind a type.
fn judge_limits<'a>(
    alloc: Global,
    numbers: &Numbers<'a>,
    home: Home,
    of: &'a TypeText,
    constraints: &[Constraint],
) -> Result<Option<ModuleFault>, AllocError>
    ensures { IfOk result (λ first. IsFirstOf (In home.document
        (AnyOf (LimitFaults (module_terms numbers.now) home.module (type_term of.now)) (map limit_term
        constraints.now)))
        first) }
{
    if constraints.is_empty() {
        return Ok(None);
    }
    let base = numbers.base(home.module, of);
    let own = number_map(alloc, beneath_tags(of))?;
    let mut first = None;
    for constraint in constraints.iter() {
        first = earlier(
            first,
            judge_limit(numbers, home, &base, &own, of, constraint),
        );
    }
    Ok(first)
}

/// The first fault of the sizes of a type that has no named numbers.
fn judge_size(
    alloc: Global,
    numbers: &Numbers,
    home: Home,
    size: &Option<Vec<Range>>,
) -> Option<ModuleFault>
    ensures { (of : TypeTerm) →
        ((name : NameToken) → ¬ (NamesNumber (module_terms numbers.now) home.module of name)) →
        IsFirstOf (In home.document
        (SizeFaults (module_terms numbers.now) home.module of (option_map range_terms size.now))) result }
{
    match size {
        Some(ranges) => {
            let own = NumberMap::new(alloc);
            judge_ranges(numbers, home, &Base::Nothing, &own, ranges.as_slice())
        }
        None => None,
    }
}

/// The first fault of the constraints of a type.
pub fn judge_constraints<'a>(
    alloc: Global,
    numbers: &Numbers<'a>,
    home: Home,
    of: &'a TypeText,
) -> Result<Option<ModuleFault>, AllocError>
    ensures { IfOk result (λ first. IsFirstOf (In home.document
        (ConstraintFaults (module_terms numbers.now) home.module (type_term of.now))) first) }
{
    match of {
        TypeText::Tagged { .. } => Ok(None),
        TypeText::Structured { content, .. } => match content {
            StructureText::Components { constraints, .. } => {
                judge_limits(alloc, numbers, home, of, constraints.as_slice())
            }
            StructureText::ListOf { size, .. } => Ok(judge_size(alloc, numbers, home, size)),
        },
        TypeText::Choice { constraints, .. } => {
            judge_limits(alloc, numbers, home, of, constraints.as_slice())
        }
        TypeText::Plain { constraints, .. } => {
            judge_limits(alloc, numbers, home, of, constraints.as_slice())
        }
    }
}
