//! Directives that are sought again and again.
ghost use Rattle.std.specs.Prelude.{◌≡◌, ◌≤◌, IfOk, length};
ghost use Rattle.check_group.specs.Changes.{IsReady, Variables};
ghost use Rattle.check_group.specs.Matches.{FitsIn, looked_in, sought_for};
ghost use Rattle.check_group.specs.Tries.{AreFor, Outlast};
ghost use Rattle.pattern_scan.specs.Ready.{IsBuilt, IsReady as IsPrepared};
ghost use Rattle.pattern_scan.specs.Seek.{ArePlaced, IsWithin};

use crate::answer::{Met, answered, look};
use crate::directive::Check;
use crate::fault::FaultKind;
use ere_auto::Steps;
use pattern_parse::{Frame, Pattern, Piece};
use pattern_scan::{Context, Ready, Sought, prepare};
use pattern_vars::Bindings;
use std::sync::ledger::Ledger;
use tt_base::NoMemory;

/// How a directive is sought more than once: what depends on the variables alone is made for the first try, and kept.
#[derive(Drop)]
pub(crate) enum Tries {
    /// Nothing is made yet.
    Fresh,
    /// There is nothing to make.
    Plain,
    Built(Box<Ready>),
}

/// Seeks the pattern of a directive that was made ready.
#[inline(never)]
fn sought_again<L: Ledger>(
    context: &Context<'_>,
    ready: &mut Ready,
    check: &Check,
    from: usize,
    steps: &mut Steps<L>,
) -> Result<Sought, NoMemory>
    requires inside { from ≤ length context.now.text.now }
    requires ready { IsReady context.now.vars.now check.now }
    requires prepared { IsPrepared ready.old check.now.pattern context.now.vars.now check.now.line }
    requires built { IsBuilt ready.old }
    ensures value { IfOk result (λ answer. answer ≡ sought_for context.now check.now from) }
    ensures within { IfOk result (IsWithin from (length context.now.text.now)) }
    ensures named { IfOk result (ArePlaced context.now.vars.now) }
    ensures prepared { IsPrepared ready.new check.now.pattern context.now.vars.now check.now.line }
    ensures built { IsBuilt ready.new }
{
    ready.seek(context.alloc, context.text, from, steps)
}

/// Whether a pattern has no piece but plain text and recalls, and so is sought as bytes at each try.
fn is_text(pattern: &Pattern) -> bool {
    if pattern.fold || !matches!(pattern.frame, Frame::Open) {
        return false;
    }
    let pieces = pattern.pieces.as_slice();
    pieces.iter().all(|piece| matches!(piece, Piece::Plain(_) | Piece::Recall { .. }))
}

/// What is made for the tries of a directive.
fn made(context: &Context<'_>, check: &Check) -> Result<Tries, NoMemory>
    requires { IsReady context.now.vars.now check.now }
    ensures { IfOk result (λ tries. AreFor tries check.now context.now.vars.now) }
{
    if is_text(&check.pattern) {
        return Ok(Tries::Plain);
    }
    let ready = prepare(context.alloc, &check.pattern, context.vars, check.line)?;
    match Box::new(context.alloc, ready) {
        Ok(ready) => Ok(Tries::Built(ready)),
        Err(_) => Err(NoMemory),
    }
}

impl Tries {
    /// Those of a directive: nothing is kept of one that is sought once.
    pub(crate) fn of(check: &Check) -> Tries
        ensures { (vars : Variables) → AreFor result check.now vars }
    {
        if check.demand.times > 1 {
            Tries::Fresh
        } else {
            Tries::Plain
        }
    }

    /// Makes what a directive's tries share.
    #[inline(never)]
    fn make(&mut self, context: &Context<'_>, check: &Check) -> Result<(), NoMemory>
        requires ready { IsReady context.now.vars.now check.now }
        requires same { AreFor self.old check.now context.now.vars.now }
        ensures same { AreFor self.new check.now context.now.vars.now }
    {
        *self = made(context, check)?;
        Ok(())
    }

    /// The directive sought in the slice from an offset to the text's end, behind `done` matches of the same directive.
    #[inline(always)]
    pub(crate) fn look<L: Ledger>(
        &mut self,
        context: &Context<'_>,
        check: &Check,
        done: u32,
        from: usize,
        steps: &mut Steps<L>,
    ) -> Result<Result<Met, FaultKind>, NoMemory>
        requires inside { from ≤ length context.now.text.now }
        requires ready { IsReady context.now.vars.now check.now }
        requires same { AreFor self.old check.now context.now.vars.now }
        ensures value { IfOk result (λ met. met ≡ looked_in context.now check.now done from) }
        ensures fits { IfOk result (λ met. IfOk met (FitsIn context.now from)) }
        ensures same { AreFor self.new check.now context.now.vars.now }
    {
        if let Tries::Fresh = self {
            self.make(context, check)?;
        }
        match self {
            Tries::Built(ready) => {
                let answer = sought_again(context, ready, check, from, steps)?;
                Ok(answered(answer, from, done))
            }
            Tries::Plain | Tries::Fresh => look(context, check, done, from, steps),
        }
    }

    /// The same once a match has bound what it gives.
    #[inline(always)]
    pub(crate) fn behind(self, fresh: &Bindings) -> Tries
        ensures { Outlast self fresh.now result }
    {
        if fresh.is_empty() { self } else { Tries::Fresh }
    }
}
