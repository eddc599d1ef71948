//! Defaults and initial values that are held: none, that of an assignment, or unequal ones (X.722, section 8.4).

ghost use Rattle.std.specs.Prelude.{◌≡◌};
ghost use Rattle.std.specs.Option.{option_copied};
ghost use Rattle.joined_statements.specs.HeldValues.{are_equal, are_same, both, handed_on, hiding, value_at};

use term_values::Value;

/// A default, or an initial value.
#[derive(Clone, Copy, PartialEq, Eq)]
pub enum Held {
    /// None is stated.
    Nothing,
    /// One is stated whose text denotes no value.
    NoValue,
    /// The value of the assignment with this number.
    One(usize),
    /// Two that are unequal.
    Unequal,
}

/// The values of assignments, by their numbers.
#[derive(Clone, Copy)]
pub struct AssignedValues<'v> {
    /// The values; none of an assignment that has none.
    pub items: &'v [Option<Value>],
}

/// Whether both are there and equal.
fn are_equal(one: Option<&Value>, other: Option<&Value>) -> bool
    ensures { result ≡ are_equal (option_copied one.entry) (option_copied other.entry) }
{
    match (one, other) {
        (Some(value), Some(held)) => value.is_same(held),
        _ => false,
    }
}

impl<'v> AssignedValues<'v> {
    /// The value of an assignment, where it has one.
    pub fn value(&self, number: usize) -> Option<&'v Value>
        ensures { option_copied result ≡ value_at self.now.items.now number }
    {
        match self.items.get(number) {
            Some(value) => value.as_ref(),
            None => None,
        }
    }

    /// Whether two assignments are one, or have equal values.
    fn are_same(&self, one: usize, other: usize) -> bool
        ensures { result ≡ are_same self.now.items.now one other }
    {
        if one == other {
            return true;
        }
        are_equal(self.value(one), self.value(other))
    }

    /// What is held of two.
    pub fn both(&self, one: Held, other: Held) -> Held
        ensures { result ≡ both self.now.items.now one other }
    {
        match (one, other) {
            (Held::Nothing, _) => other,
            (_, Held::Nothing) => one,
            (Held::NoValue, _) => other,
            (_, Held::NoValue) => one,
            (Held::One(number), Held::One(another)) => {
                if self.are_same(number, another) {
                    one
                } else {
                    Held::Unequal
                }
            }
            _ => Held::Unequal,
        }
    }
}

/// What a class hands on to those that derive from it: one that is stated without a value is none for them.
pub(crate) fn handed_on(held: Held) -> Held
    ensures { result ≡ handed_on held }
{
    match held {
        Held::NoValue => Held::Nothing,
        _ => held,
    }
}

/// What a class holds that states the one and inherits the other.
pub(crate) fn hiding(own: Held, inherited: Held) -> Held
    ensures { result ≡ hiding own inherited }
{
    match own {
        Held::Nothing => inherited,
        _ => own,
    }
}
