//! What is told of the order of two members, and of lists of numbers in parts.

ghost use Rattle.std.specs.Prelude.{◌≡◌, ◌∷◌, [], ◌++◌, ℕ, List, IsTrue};
ghost use Rattle.term_values.specs.Rearranged.{may_precede};
ghost use Rattle.value_match.specs.MemberOrder.{TellsOrder, is_rising};

/// What is told of two members. Nothing is told of values of two forms, nor of an ANY that begins another one.
#[derive(Clone, Copy, Debug, PartialEq, Eq, Drop)]
pub enum MemberOrder {
    /// The first one stands before the second.
    Before,
    /// Neither stands before the other one.
    Alike,
    /// The first one stands behind the second.
    After,
    /// Nothing.
    Untold,
}

/// The order of two lists of numbers, each in two parts.
pub fn order_then(first: MemberOrder, next: MemberOrder) -> MemberOrder
    ensures { (xs ys ns ms : List ℕ) → TellsOrder first xs ys → TellsOrder next ns ms
        → TellsOrder result (xs ++ ns) (ys ++ ms) }
{
    match first {
        MemberOrder::Before => MemberOrder::Before,
        MemberOrder::Alike => next,
        MemberOrder::After => MemberOrder::After,
        MemberOrder::Untold => MemberOrder::Untold,
    }
}

/// The order of two numbers.
pub fn order_of_numbers(number: u64, other: u64) -> MemberOrder
    ensures { TellsOrder result (number ∷ []) (other ∷ []) }
{
    if number < other {
        MemberOrder::Before
    } else if other < number {
        MemberOrder::After
    } else {
        MemberOrder::Alike
    }
}

/// Whether it is told that the first one may stand before the second.
pub fn may_precede(told: MemberOrder) -> bool
    ensures exact { result ≡ is_rising told }
    ensures rises { (xs ys : List ℕ) → TellsOrder told xs ys → IsTrue result → IsTrue (may_precede xs ys) }
{
    match told {
        MemberOrder::Before => true,
        MemberOrder::Alike => true,
        MemberOrder::After => false,
        MemberOrder::Untold => false,
    }
}
