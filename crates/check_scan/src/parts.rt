//! The parts of a block.
ghost use Rattle.std.specs.Prelude.{◌≤◌, ◌<◌, ◌↔◌, All, Bool, IfOk, IsTrue, OnErr, length, take, drop};
ghost use Rattle.std.specs.List.{AllByRecursion};
ghost use Rattle.check_group.specs.Changes.{IsReady};
ghost use Rattle.check_group.specs.Continues.{ComesFrom, LiesIn, StopsFrom};
ghost use Rattle.check_scan.specs.Parts.{BeginsOtherwise, BeginsPositive, IsDag, IsFirstPart, IsNot, found_at, parts_of};

use check_group::{Check, Fault, Matched, match_alone, place_group};
use ere_auto::Steps;
use pattern_parse::Role;
use pattern_vars::Vars;
use std::alloc::Global;
use std::sync::ledger::Ledger;
use tt_base::NoMemory;

/// Whether a directive is a NOT.
pub(crate) fn is_not(check: &Check) -> bool
    ensures { IsTrue result ↔ IsNot check.now }
{
    matches!(check.demand.role, Role::Excluded)
}

/// Whether a directive is a DAG.
fn is_dag(check: &Check) -> bool
    ensures { IsTrue result ↔ IsDag check.now }
{
    matches!(check.demand.role, Role::Unordered)
}

/// How many DAGs stand in front.
#[tactic(auto, using(crate::proofs::PartLemmas::begins_behind, crate::proofs::PartLemmas::begins_at_end))]
fn dag_count(checks: &[Check]) -> usize
    ensures within { result ≤ length checks.now }
    ensures dags { AllByRecursion IsDag (take result checks.now) }
    ensures rest { (last : Bool) → BeginsOtherwise (parts_of last (drop result checks.now)) }
{
    let mut at = 0;
    while at < checks.len() && is_dag(&checks[at]) {
        at += 1;
    }
    at
}

/// How many directives the part in front holds.
pub(crate) fn part_length(checks: &[Check]) -> usize
    requires { BeginsPositive checks.now }
    ensures some { 0 < result }
    ensures within { result ≤ length checks.now }
    ensures part { IsFirstPart checks.now result }
{
    let Some((check, _)) = checks.split_first() else {
        return 0;
    };
    if is_dag(check) { dag_count(checks) } else { 1 }
}

/// A positive part at a place. The text ends where the block does.
pub(crate) fn match_part<L: Ledger>(
    alloc: Global,
    part: &[Check],
    text: &[u8],
    place: usize,
    vars: &mut Vars,
    steps: &mut Steps<L>,
) -> Result<Result<Matched, Fault>, NoMemory>
    requires some { 0 < length part.now }
    requires here { place ≤ length text.now }
    requires ready { All (IsReady vars.old) part.now }
    ensures value { IfOk result (ComesFrom (found_at text.now place part.now) vars.old vars.new) }
    ensures lies { IfOk result (λ outcome. IfOk outcome (LiesIn place (length text.now))) }
    ensures part_way { OnErr result (StopsFrom (found_at text.now place part.now) vars.old vars.new) }
{
    let check = &part[0];
    if is_dag(check) {
        place_group(alloc, part, text, place, vars, steps)
    } else {
        match_alone(alloc, check, text, place, vars, steps)
    }
}
