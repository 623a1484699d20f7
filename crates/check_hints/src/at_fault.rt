//! What variables hold where a directive is tried, and where its block ends.
ghost use Rattle.std.specs.Prelude.{◌≡◌, ◌≤◌, ◌<◌, All, IfOk, IfSome, OnOk, length};
ghost use Rattle.check_group.specs.Changes.{IsReady, Variables, changed};
ghost use Rattle.check_scan.specs.Verdict.{scan};

use check_group::{Check, Fault, look};
use check_scan::{Subject, scan};
use ere_auto::Steps;
use pattern_parse::Role;
use pattern_scan::Context;
use pattern_vars::Vars;
use std::alloc::Global;
use std::marker::Brand;
use std::sync::ledger::{Blank, Ledger};
use tt_base::{Items, NoMemory};

/// What directives find amiss in a text. The variables are left as the matches bound them.
pub fn faults_in(
    subject: &Subject<'_>,
    checks: &[Check],
    scope: bool,
    vars: &mut Vars,
) -> Result<Items<Fault>, NoMemory>
    requires ready { All (IsReady vars.old) checks.now }
    requires always_ready { All (IsReady vars.old) subject.now.always.now }
    ensures value { IfOk result (λ faults. faults
        ≡ (scan checks.now subject.now.always.now scope subject.now.text.now vars.old).faults) }
    ensures vars { OnOk result (vars.new
        ≡ changed vars.old (scan checks.now subject.now.always.now scope subject.now.text.now vars.old).changes) }
{
    scanned::<Brand>(subject, checks, scope, vars, Blank::new(1))
}

/// Runs the directives that come before one is tried, which leaves what the variables hold there, and answers where its block ends in
/// the input.
pub fn run_before(
    alloc: Global,
    checks: &[Check],
    scope: bool,
    vars: &mut Vars,
    input: &[u8],
    at: usize,
) -> Result<usize, NoMemory>
    requires { All (IsReady vars.old) checks.now }
    ensures { IfOk result (λ end. end ≤ length input.now) }
{
    let end = block_end::<Brand>(alloc, checks, vars, input, at, Blank::new(1))?;
    let subject = Subject {
        alloc,
        text: &input[..end],
        always: &[],
    };
    faults_in(&subject, met_before(checks, at), scope, vars)?;
    Ok(end)
}

/// The directives that are met when one is tried.
fn met_before(checks: &[Check], at: usize) -> &[Check]
    ensures { (vars : Variables) → All (IsReady vars) checks.now → All (IsReady vars) result.now }
{
    checks.split_at(tried_behind(checks, at)).0
}

fn scanned<L: Ledger>(
    subject: &Subject<'_>,
    checks: &[Check],
    scope: bool,
    vars: &mut Vars,
    blank: Blank,
) -> Result<Items<Fault>, NoMemory>
    requires name { blank.name ≡ L.name }
    requires parts { blank.parts ≡ L.parts }
    requires some_part { 0 < blank.parts }
    requires ready { All (IsReady vars.old) checks.now }
    requires always_ready { All (IsReady vars.old) subject.now.always.now }
    ensures value { IfOk result (λ faults. faults
        ≡ (scan checks.now subject.now.always.now scope subject.now.text.now vars.old).faults) }
    ensures vars { OnOk result (vars.new
        ≡ changed vars.old (scan checks.now subject.now.always.now scope subject.now.text.now vars.old).changes) }
{
    let mut steps = Steps::<L>::new(blank);
    let verdict = scan(subject, checks, scope, vars, &mut steps)?;
    Ok(verdict.faults)
}

/// Where the block of a directive ends: behind the match of the label that comes next.
fn block_end<L: Ledger>(
    alloc: Global,
    checks: &[Check],
    vars: &Vars,
    input: &[u8],
    at: usize,
    blank: Blank,
) -> Result<usize, NoMemory>
    requires name { blank.name ≡ L.name }
    requires parts { blank.parts ≡ L.parts }
    requires some_part { 0 < blank.parts }
    requires ready { All (IsReady vars.now) checks.now }
    ensures { IfOk result (λ end. end ≤ length input.now) }
{
    let mut steps = Steps::<L>::new(blank);
    let context = Context {
        alloc,
        text: input,
        vars,
    };
    let mut place = 0;
    for (index, check) in checks.iter().enumerate() {
        if check.demand.role.is_label() {
            match label_end(&context, check, place, &mut steps)? {
                Some(end) => place = end,
                None => return Ok(input.len()),
            }
            if index > at {
                return Ok(place);
            }
        }
    }
    Ok(input.len())
}

/// Where the match of a label ends, if it is found.
fn label_end<L: Ledger>(
    context: &Context<'_>,
    label: &Check,
    place: usize,
    steps: &mut Steps<L>,
) -> Result<Option<usize>, NoMemory>
    requires here { place ≤ length context.now.text.now }
    requires ready { IsReady context.now.vars.now label.now }
    ensures { IfOk result (λ end. IfSome end (λ to. to ≤ length context.now.text.now)) }
{
    match look(context, label, 0, place, steps)? {
        Ok(met) => Ok(Some(met.span.to)),
        Err(_) => Ok(None),
    }
}

/// How many directives are met when one is tried: those before it; and where it is a NOT also the match that ends its region.
fn tried_behind(checks: &[Check], at: usize) -> usize
    ensures { result ≤ length checks.now }
{
    let mut in_group = false;
    for (index, check) in checks.iter().enumerate() {
        if index >= at {
            match check.demand.role {
                Role::Excluded => if in_group {
                    return index;
                },
                Role::Unordered => if index == at {
                    return index;
                } else {
                    in_group = true;
                },
                Role::Label => return index,
                Role::Sought => return if index == at || in_group {
                    index
                } else {
                    index + 1
                },
            }
        }
    }
    checks.len()
}
