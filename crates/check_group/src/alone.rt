//! A positive directive that is no DAG, at a place.
ghost use Rattle.std.specs.Prelude.{◌≡◌, ◌≤◌, ℕ, IfOk, OnErr, length};
ghost use Rattle.check_group.specs.Alone.{alone_at, began_at, met_in};
ghost use Rattle.check_group.specs.Changes.{IsReady};
ghost use Rattle.check_group.specs.Continues.{ComesFrom, LiesIn, StopsFrom};
ghost use Rattle.check_group.specs.Matches.{FitsIn};
ghost use Rattle.check_group.specs.Tries.{AreFor};

use crate::answer::{Matched, Met};
use crate::directive::Check;
use crate::fault::{Fault, FaultKind};
use crate::lines::{behind_newline, empty_line, on_next_line, on_same_line};
use crate::tries::Tries;
use ere_auto::Steps;
use pattern_parse::LineRule;
use pattern_scan::Context;
use pattern_vars::Vars;
use std::alloc::Global;
use std::sync::ledger::Ledger;
use tt_base::NoMemory;

/// The first match of a directive behind an offset, on its line; `done` matches of it are done.
fn met<L: Ledger>(
    context: &Context<'_>,
    tries: &mut Tries,
    check: &Check,
    done: u32,
    at: usize,
    steps: &mut Steps<L>,
) -> Result<Result<Met, FaultKind>, NoMemory>
    requires here { at ≤ length context.now.text.now }
    requires ready { IsReady context.now.vars.now check.now }
    requires same { AreFor tries.old check.now context.now.vars.now }
    ensures value { IfOk result (λ m. m ≡ met_in context.now check.now done at) }
    ensures fits { IfOk result (λ m. IfOk m (FitsIn context.now at)) }
    ensures same { AreFor tries.new check.now context.now.vars.now }
{
    let text = context.text;
    match check.demand.rule {
        LineRule::Any => tries.look(context, check, done, at, steps),
        LineRule::Next => {
            let found = tries.look(context, check, done, at, steps)?;
            Ok(on_next_line(text, at, found))
        }
        LineRule::Same => {
            let found = tries.look(context, check, done, at, steps)?;
            Ok(on_same_line(text, at, found))
        }
        LineRule::Empty => {
            let found = behind_newline(context.alloc, at, empty_line(text, at));
            Ok(on_next_line(text, at, found))
        }
    }
}

/// Where the first match of a directive began: the one at hand, if none was done before.
fn began_at(done: u32, at: usize, first: usize) -> usize
    ensures value { result ≡ began_at done at first }
    ensures low { (from : ℕ) → from ≤ at → from ≤ first → from ≤ result }
    ensures high { (to : ℕ) → at ≤ to → first ≤ to → result ≤ to }
{
    if done == 0 { at } else { first }
}

/// A positive directive that is no DAG, at a place. The text ends where the block does. Each of its matches begins behind the
/// one before, and binds; these bindings stay where a later one fails.
pub fn match_alone<L: Ledger>(
    alloc: Global,
    check: &Check,
    text: &[u8],
    place: usize,
    vars: &mut Vars,
    steps: &mut Steps<L>,
) -> Result<Result<Matched, Fault>, NoMemory>
    requires here { place ≤ length text.now }
    requires ready { IsReady vars.old check.now }
    ensures value { IfOk result (ComesFrom (alone_at text.now place check.now) vars.old vars.new) }
    ensures lies { IfOk result (λ outcome. IfOk outcome (LiesIn place (length text.now))) }
    ensures part_way { OnErr result (StopsFrom (alone_at text.now place check.now) vars.old vars.new) }
{
    let mut reached = Matched {
        from: place,
        to: place,
    };
    let mut tries = Tries::of(check);
    for done in 0..check.demand.times {
        let context = Context { alloc, text, vars };
        match met(&context, &mut tries, check, done, reached.to, steps)? {
            Ok(m) => {
                reached = Matched {
                    from: began_at(done, m.span.from, reached.from),
                    to: m.span.to,
                };
                tries = tries.behind(&m.fresh);
                m.bind(vars);
            }
            Err(kind) => return Ok(Err(check.fault(kind))),
        }
    }
    Ok(Ok(reached))
}
