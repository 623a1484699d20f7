//! Values of expressions.
use crate::rows::{Tells, each_is_told, no_row};
use num_base::{EvalFault, Expr, Numbers, Op, eval, law_of_undefined};
use std::alloc::{AllocError, Global};
use tt_base::{Bytes, NoMemory};

fn binary(alloc: Global, op: Op, left: Expr, right: Expr) -> Result<Expr, AllocError> {
    let left = Box::new(alloc, left)?;
    let right = Box::new(alloc, right)?;
    Ok(Expr::Binary { op, left, right })
}

fn name(alloc: Global, bytes: &[u8]) -> Result<Expr, AllocError> {
    Ok(Expr::Name(Bytes::from_slice(alloc, bytes).or(Err(AllocError))?))
}

/// Additions in one another, as many as `depth`.
fn nested(alloc: Global, depth: usize) -> Result<Expr, AllocError> {
    let mut expr = Expr::Literal(1);
    for _ in 0..depth {
        expr = binary(alloc, Op::Add, Expr::Literal(1), expr)?;
    }
    Ok(expr)
}

/// The value of an operation on two numbers, or its fault.
fn value_of(alloc: Global, op: Op, left: i128, right: i128) -> Result<String, AllocError> {
    let expr = binary(alloc, op, Expr::Literal(left), Expr::Literal(right))?;
    let numbers = Numbers::new(alloc);
    match eval(&expr, &numbers, 1) {
        Ok(value) => format!(in alloc; "{value}"),
        Err(fault) => format!(in alloc; "{fault:?}"),
    }
}

fn op_of(name: &str) -> Option<Op> {
    match name {
        "Add" => Some(Op::Add),
        "Sub" => Some(Op::Sub),
        "Mul" => Some(Op::Mul),
        "Div" => Some(Op::Div),
        "Max" => Some(Op::Max),
        "Min" => Some(Op::Min),
        _ => None,
    }
}

/// An operation and its two numbers.
fn asked(given: &str) -> Option<(Op, i128, i128)> {
    let (op, numbers) = given.split_once(' ')?;
    let (left, right) = numbers.split_once(' ')?;
    Some((op_of(op)?, left.parse().ok()?, right.parse().ok()?))
}

/// The value of an operation, or its fault.
struct Values;

impl Tells for Values {
    fn told(&self, alloc: Global, given: &str) -> Result<String, AllocError> {
        match asked(given) {
            Some((op, left, right)) => value_of(alloc, op, left, right),
            None => no_row(alloc),
        }
    }
}

/// An operation and two numbers, and the value or the fault.
const VALUES: &str = "Div -7 2 => -3
Div 7 -2 => -3
Div 1 0 => ZeroDivisor
Div -170141183460469231731687303715884105728 -1 => Range
Sub -170141183460469231731687303715884105727 1 => -170141183460469231731687303715884105728
Sub -170141183460469231731687303715884105727 2 => Range
Add 170141183460469231731687303715884105727 1 => Range
Mul 170141183460469231731687303715884105727 2 => Range
Mul -3 5 => -15
Max -3 5 => 5
Min -3 5 => -3";

#[test]
fn operations_keep_the_range(rt: HostRuntime) -> Result<(), AllocError> {
    law_of_undefined();
    each_is_told(&rt, rt.alloc(), VALUES, &Values)
}

/// `N+1`.
fn one_more(alloc: Global) -> Result<Expr, AllocError> {
    let name = name(alloc, b"N")?;
    binary(alloc, Op::Add, name, Expr::Literal(1))
}

/// `@LINE*M`.
fn lines(alloc: Global) -> Result<Expr, AllocError> {
    let name = name(alloc, b"M")?;
    binary(alloc, Op::Mul, Expr::Line, name)
}

/// Numbers where N was 7 and is 1, and M is 5.
fn two_numbers(alloc: Global) -> Result<Numbers, NoMemory> {
    let mut numbers = Numbers::new(alloc);
    numbers.put(b"N", 7)?;
    numbers.put(b"N", 1)?;
    numbers.put(b"M", 5)?;
    Ok(numbers)
}

#[test]
fn names_have_the_value_put_last(rt: HostRuntime) -> Result<(), AllocError> {
    let sum = one_more(rt.alloc())?;
    assert!(rt; eval(&sum, &Numbers::new(rt.alloc()), 1) == Err(EvalFault::Undefined));
    let numbers = two_numbers(rt.alloc()).or(Err(AllocError))?;
    assert!(rt; eval(&sum, &numbers, 1) == Ok(2));
    assert!(rt; eval(&lines(rt.alloc())?, &numbers, 9) == Ok(45));
    Ok(())
}

/// `div(1,0)`.
fn divided(alloc: Global) -> Result<Expr, AllocError> {
    binary(alloc, Op::Div, Expr::Literal(1), Expr::Literal(0))
}

/// `div(1,0)+N`.
fn divided_and_undefined(alloc: Global) -> Result<Expr, AllocError> {
    let name = name(alloc, b"N")?;
    binary(alloc, Op::Add, divided(alloc)?, name)
}

/// A product past the range, and `div(1,0)` added.
fn past_and_divided(alloc: Global) -> Result<Expr, AllocError> {
    let past = binary(alloc, Op::Mul, Expr::Literal(i128::MAX), Expr::Literal(2))?;
    binary(alloc, Op::Add, past, divided(alloc)?)
}

#[test]
fn an_undefined_name_comes_before_a_fault_to_its_left(rt: HostRuntime) -> Result<(), AllocError> {
    let numbers = Numbers::new(rt.alloc());
    let sum = divided_and_undefined(rt.alloc())?;
    assert!(rt; eval(&sum, &numbers, 1) == Err(EvalFault::Undefined));
    let sum = past_and_divided(rt.alloc())?;
    assert!(rt; eval(&sum, &numbers, 1) == Err(EvalFault::Range));
    Ok(())
}

#[test]
fn deep_expressions_have_values(rt: HostRuntime) -> Result<(), AllocError> {
    let numbers = Numbers::new(rt.alloc());
    let sum = nested(rt.alloc(), 250)?;
    assert!(rt; eval(&sum, &numbers, 1) == Ok(251));
    Ok(())
}
