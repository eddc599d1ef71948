//! Values that are lent to a function and let go behind it.
#![tactic(auto)]

ghost use Rattle.std.specs.Fn.{FnOnceReturnsAt};

/// What a function answers of a value, which is let go behind the call.
pub fn lend<T: Drop, R, F: FnOnce(&T) -> R>(value: T, to: F) -> R
    requires { F.IsAlwaysCallable to }
    ensures { FnOnceReturnsAt F.FnOnce to value result }
{
    to(&value)
}
