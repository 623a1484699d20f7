//! Whether an expression holds.
ghost use Rattle.std.specs.Prelude.{◌≡◌, ◌↔◌, false, IsTrue};
ghost use Rattle.ere_tree.specs.Shape.{has_refs};
ghost use Rattle.ere_tree.specs.View.{view};
ghost use Rattle.bool_exprs.specs.Expr.{Holds, OneOf, expr_of, refers};
ghost use Rattle.ere_whole.specs.Whole.{MatchesWhole};

use crate::expr::BoolExpr;
use ere_tree::Ere;
use ere_whole::matches_whole;
use tt_base::Bytes;

fn is_same(feature: &Bytes, name: &Bytes) -> bool
    ensures { IsTrue result ↔ (feature.now ≡ name.now) }
{
    feature.as_slice() == name.as_slice()
}

/// Whether one of the features is these bytes.
fn is_among(name: &Bytes, features: &[Bytes]) -> bool
    ensures { IsTrue result ↔ OneOf (λ feature. feature ≡ name.now) features.now }
{
    for feature in features {
        if is_same(feature, name) {
            return true;
        }
    }
    false
}

/// Whether one of the features is matched as a whole.
fn matches_one(ere: &Ere, features: &[Bytes]) -> bool
    requires { has_refs (view ere.now) ≡ false }
    ensures { IsTrue result ↔ OneOf (MatchesWhole (view ere.now)) features.now }
{
    for feature in features {
        if matches_whole(ere, feature.as_slice()) {
            return true;
        }
    }
    false
}

/// Whether a `Match` of an expression has references.
pub fn has_refs(expr: &BoolExpr) -> bool
    ensures { result ≡ refers (expr_of expr.now) }
{
    match expr {
        BoolExpr::Const(_) | BoolExpr::Name(_) => false,
        BoolExpr::Match(ere) => ere.has_refs(),
        BoolExpr::Not(inner) => has_refs(inner),
        BoolExpr::And(left, right) | BoolExpr::Or(left, right) => has_refs(left) || has_refs(right),
    }
}

/// Whether an expression holds over these features. No `Match` in it has references.
pub fn holds(expr: &BoolExpr, features: &[Bytes]) -> bool
    requires no_refs { refers (expr_of expr.now) ≡ false }
    ensures exact { IsTrue result ↔ Holds features.now (expr_of expr.now) }
{
    match expr {
        BoolExpr::Const(value) => *value,
        BoolExpr::Name(name) => is_among(name, features),
        BoolExpr::Match(ere) => matches_one(ere, features),
        BoolExpr::Not(inner) => !holds(inner, features),
        BoolExpr::And(left, right) => holds(left, features) && holds(right, features),
        BoolExpr::Or(left, right) => holds(left, features) || holds(right, features),
    }
}
