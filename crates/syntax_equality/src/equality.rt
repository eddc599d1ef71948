//! Whether two types are the same, names, ranges, tags and defaults among it: X.680, section 3.

ghost use Rattle.std.specs.Prelude.{◌≡◌, ◌&&◌};
ghost use Rattle.term_values.specs.SameSyntax.{same_default, same_mark, same_parts, same_syntax};
ghost use Rattle.term_values.specs.SameValue.{same_octets};

use crate::leaf_parts::{same_bounds, same_charset, same_default, same_names};
use term_values::{Part, Parts, Syntax, SyntaxForm};

#[cycle(equality)]
fn are_same(one: &Syntax, other: &Syntax) -> bool
    ensures { result ≡ same_syntax one.now other.now }
{
    match (&one.form, &other.form) {
        (SyntaxForm::Bool, SyntaxForm::Bool) => true,
        (SyntaxForm::Int(n, a), SyntaxForm::Int(m, b)) => same_names(n, m) && same_bounds(a, b),
        (SyntaxForm::Enumerated(n), SyntaxForm::Enumerated(m)) => same_names(n, m),
        (SyntaxForm::Bits(n, a), SyntaxForm::Bits(m, b)) => same_names(n, m) && same_bounds(a, b),
        (SyntaxForm::Octets(a), SyntaxForm::Octets(b)) => same_bounds(a, b),
        (SyntaxForm::Null, SyntaxForm::Null) => true,
        (SyntaxForm::Oid, SyntaxForm::Oid) => true,
        (SyntaxForm::Text(c, a), SyntaxForm::Text(d, b)) => same_charset(*c, *d)
            && same_bounds(a, b),
        (SyntaxForm::Time, SyntaxForm::Time) => true,
        (SyntaxForm::Seq(a), SyntaxForm::Seq(b)) => are_same_parts(a, b),
        (SyntaxForm::Unordered(a), SyntaxForm::Unordered(b)) => are_same_parts(a, b),
        (SyntaxForm::ListOf(x, a), SyntaxForm::ListOf(y, b)) => are_same(x, y) && same_bounds(a, b),
        (SyntaxForm::SetOf(x, a), SyntaxForm::SetOf(y, b)) => are_same(x, y) && same_bounds(a, b),
        (SyntaxForm::Choice(a), SyntaxForm::Choice(b)) => are_same_parts(a, b),
        (SyntaxForm::Tagged(t, e, x), SyntaxForm::Tagged(u, f, y)) => *t == *u
            && *e == *f
            && are_same(x, y),
        (SyntaxForm::Any, SyntaxForm::Any) => true,
        (SyntaxForm::Filter, SyntaxForm::Filter) => true,
        _ => false,
    }
}

#[cycle(equality)]
fn is_same_part(part: &Part, other: &Part) -> bool
    ensures { result ≡ (same_octets part.now.name other.now.name && same_syntax part.now.syntax other.now.syntax
        && same_mark part.now.optional other.now.optional && same_default part.now.default other.now.default) }
{
    part.name == other.name
        && are_same(&part.syntax, &other.syntax)
        && part.optional == other.optional
        && same_default(&part.default, &other.default)
}

#[cycle(equality)]
fn are_same_parts(parts: &Parts, other: &Parts) -> bool
    ensures { result ≡ same_parts parts.now other.now }
{
    let items = parts.items.as_slice();
    let held = other.items.as_slice();
    if items.len() != held.len() {
        return false;
    }
    for i in 0..items.len() {
        if !is_same_part(&items[i], &held[i]) {
            return false;
        }
    }
    true
}

/// Whether two types are the same: their forms, names of numbers, of components and of alternatives, ranges, character
/// sets, tags, and which components are optional or have which defaults. The recursion goes down both types; the time
/// is linear in the smaller one.
pub fn same_syntax(one: &Syntax, other: &Syntax) -> bool
    ensures { result ≡ same_syntax one.now other.now }
{
    are_same(one, other)
}
