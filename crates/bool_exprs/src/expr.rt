//! Expressions over features.
use ere_tree::Ere;
use tt_base::Bytes;

/// An expression, as `linux && !{{arm.*}}`.
#[cycle(expr)]
#[derive(Drop, Debug)]
pub enum BoolExpr {
    Const(bool),
    /// That there is a feature of this name.
    Name(Bytes),
    /// That the whole name of a feature matches.
    Match(Ere),
    Not(Box<BoolExpr>),
    And(Box<BoolExpr>, Box<BoolExpr>),
    Or(Box<BoolExpr>, Box<BoolExpr>),
}
