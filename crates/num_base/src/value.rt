//! Operations on values, each within the range of values.
ghost use Rattle.std.specs.Prelude.{◌≡◌, ◌+ℤ◌, ◌-ℤ◌, ◌*ℤ◌};
ghost use Rattle.num_base.specs.Value.{in_range, quotient};

use crate::evaluation::EvalFault;

pub(crate) fn sum(a: i128, b: i128) -> Result<i128, EvalFault>
    ensures { result ≡ in_range (a +ℤ b) }
{
    match a.checked_add(b) {
        Some(value) => Ok(value),
        None => Err(EvalFault::Range),
    }
}

pub(crate) fn difference(a: i128, b: i128) -> Result<i128, EvalFault>
    ensures { result ≡ in_range (a -ℤ b) }
{
    match a.checked_sub(b) {
        Some(value) => Ok(value),
        None => Err(EvalFault::Range),
    }
}

pub(crate) fn product(a: i128, b: i128) -> Result<i128, EvalFault>
    ensures { result ≡ in_range (a *ℤ b) }
{
    match a.checked_mul(b) {
        Some(value) => Ok(value),
        None => Err(EvalFault::Range),
    }
}

pub(crate) fn quotient(a: i128, b: i128) -> Result<i128, EvalFault>
    ensures { result ≡ quotient a b }
{
    if b == 0 {
        return Err(EvalFault::ZeroDivisor);
    }
    match a.checked_div(b) {
        Some(value) => Ok(value),
        None => Err(EvalFault::Range),
    }
}
