//! The value of an expression.
ghost use Rattle.std.specs.Prelude.{◌≡◌};
ghost use Rattle.std.specs.FinMap as map;
ghost use Rattle.num_base.specs.Eval.{value_of, done};
ghost use Rattle.num_base.specs.Term.{term_of};

use crate::expr::{Expr, Op};
use crate::numbers::Numbers;
use crate::value::{difference, product, quotient, sum};

/// Why an expression has no value.
#[derive(Clone, Copy, Debug, PartialEq, Eq)]
pub enum EvalFault {
    /// A name has no value, as in `N+1` where N has none.
    Undefined,
    /// A result lies outside -2^127 to 2^127-1.
    Range,
    /// Division by zero, as in `div(1,0)`.
    ZeroDivisor,
}

/// One operation on values.
fn apply(op: Op, left: i128, right: i128) -> Result<i128, EvalFault>
    ensures { result ≡ done op left right }
{
    match op {
        Op::Add => sum(left, right),
        Op::Sub => difference(left, right),
        Op::Mul => product(left, right),
        Op::Div => quotient(left, right),
        Op::Max => Ok(left.max(right)),
        Op::Min => Ok(left.min(right)),
    }
}

/// The value of an expression of a directive on this line. The call nests as deep as the expression does.
#[cycle(eval)]
pub fn eval(expr: &Expr, numbers: &Numbers, line: u32) -> Result<i128, EvalFault>
    ensures { result ≡ value_of (map.get numbers.now) line (term_of expr.now) }
{
    match expr {
        Expr::Literal(value) => Ok(*value),
        Expr::Line => Ok(line as i128),
        Expr::Name(name) => match numbers.get(name.as_slice()) {
            Some(value) => Ok(value),
            None => Err(EvalFault::Undefined),
        },
        Expr::Binary { op, left, right } => {
            match (eval(left, numbers, line), eval(right, numbers, line)) {
                (Ok(a), Ok(b)) => apply(*op, a, b),
                (Err(EvalFault::Undefined), _) => Err(EvalFault::Undefined),
                (_, Err(EvalFault::Undefined)) => Err(EvalFault::Undefined),
                (Err(fault), _) => Err(fault),
                (Ok(_), Err(fault)) => Err(fault),
            }
        }
    }
}
