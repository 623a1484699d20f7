//! Whether an expression holds.
ghost use Rattle.std.specs.Prelude.{◌≡◌, false};
ghost use Rattle.bool_exprs.specs.Expr.{expr_of, refers};
ghost use Rattle.bool_values.specs.Holding.{holds_in};

use bool_exprs::{BoolExpr, holds};
use tt_base::Bytes;

/// Whether an expression holds over these features. No `Match` in it has references.
pub fn holds_in(expr: &BoolExpr, features: &[Bytes]) -> bool
    requires no_refs { refers (expr_of expr.now) ≡ false }
    ensures { result ≡ holds_in features.now (expr_of expr.now) }
{
    holds(expr, features)
}
