//! The search of a positive directive.
ghost use Rattle.std.specs.Prelude.{◌≡◌, ◌≤◌, IfOk, length, true};
ghost use Rattle.check_group.specs.Changes.{IsReady};
ghost use Rattle.check_group.specs.declared.fault.FaultKind.TheVariants.{NotFound};
ghost use Rattle.check_group.specs.Matches.{FitsIn, answered, looked_in};
ghost use Rattle.pattern_vars.specs.Vars.{bound_all, have_places};

use crate::directive::Check;
use crate::fault::FaultKind;
use ere_auto::Steps;
use pattern_scan::{Context, Sought, seek};
use pattern_vars::{Bindings, Vars};
use std::sync::ledger::Ledger;
use tt_base::{NoMemory, Span};

/// A match, and what it gives the names that its pattern defines.
#[derive(Drop, Debug)]
pub struct Met {
    pub span: Span,
    pub fresh: Bindings,
}

impl Met {
    /// Binds what the match gives.
    #[inline]
    pub(crate) fn bind(self, vars: &mut Vars)
        requires { have_places vars.old self.fresh ≡ true }
        ensures { vars.new ≡ bound_all vars.old self.fresh }
    {
        // Most matches give nothing.
        if !self.fresh.is_empty() {
            vars.bind(self.fresh);
        }
    }
}

/// Where a positive directive or a group begins and ends.
#[derive(Clone, Copy, Debug, PartialEq, Eq)]
pub struct Matched {
    pub from: usize,
    pub to: usize,
}

/// The answer of a search from an offset on as a match or a fault, behind `done` matches of the same directive.
#[inline(always)]
pub(crate) fn answered(answer: Sought, from: usize, done: u32) -> Result<Met, FaultKind>
    ensures { result ≡ answered answer (NotFound from done) }
{
    match answer {
        Sought::Found { span, fresh } => Ok(Met { span, fresh }),
        Sought::Absent => Err(FaultKind::NotFound { from, done }),
        Sought::UndefinedNames(names) => Err(FaultKind::Undefined(names)),
        Sought::Range => Err(FaultKind::Range),
        Sought::ZeroDivisor => Err(FaultKind::ZeroDivisor),
        Sought::Unreadable(span) => Err(FaultKind::Unreadable { found: span.from }),
    }
}

/// A directive sought in the slice from an offset to the text's end, behind `done` matches of the same directive.
#[inline(always)]
pub fn look<L: Ledger>(
    context: &Context<'_>,
    check: &Check,
    done: u32,
    from: usize,
    steps: &mut Steps<L>,
) -> Result<Result<Met, FaultKind>, NoMemory>
    requires inside { from ≤ length context.now.text.now }
    requires ready { IsReady context.now.vars.now check.now }
    ensures value { IfOk result (λ met. met ≡ looked_in context.now check.now done from) }
    ensures fits { IfOk result (λ met. IfOk met (FitsIn context.now from)) }
{
    let answer = seek(context, &check.pattern, check.line, from, steps)?;
    Ok(answered(answer, from, done))
}
