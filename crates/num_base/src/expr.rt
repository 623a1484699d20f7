//! Expressions over numbers.
use tt_base::Bytes;

/// What is done with two values.
#[derive(Clone, Copy, Debug, PartialEq, Eq)]
pub enum Op {
    Add,
    Sub,
    Mul,
    /// It cuts toward zero.
    Div,
    Max,
    Min,
}

/// An expression, as `N+1`.
#[cycle(expr)]
#[derive(Drop, Debug)]
pub enum Expr {
    Literal(i128),
    /// The number of the directive's line, `@LINE`.
    Line,
    /// The number of this name.
    Name(Bytes),
    Binary {
        op: Op,
        left: Box<Expr>,
        right: Box<Expr>,
    },
}
