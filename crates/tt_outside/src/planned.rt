//! The planned replies of a crew in memory.
ghost use Rattle.std.specs.Prelude.{◌≡◌, IfOk};
ghost use Rattle.std.specs.Option.{option_map};
ghost use Rattle.std.specs.Arc.{arc_value};
ghost use Rattle.tt_outside.specs.Planned.{answer, default_reply, first_planned};

use crate::request::{Reply, Request, fits};
use std::alloc::Global;
use std::mem;
use std::sync::Arc;
use tt_base::{Items, NoMemory};

/// The reply to a test's request behind so many entries.
#[derive(Drop, Debug)]
pub struct Planned {
    pub test: u64,
    pub earlier: u64,
    pub reply: Reply,
}

/// The first plan for a test and so many entries.
fn find_planned(plan: &[Planned], test: u64, earlier: u64) -> Option<&Planned>
    ensures { option_map (λ planned. planned.now) result ≡ first_planned plan.now test earlier }
{
    plan.iter().find(|planned| planned.test == test && planned.earlier == earlier)
}

/// The reply where nothing that fits is planned.
fn reply_unplanned(request: &Request) -> Reply
    ensures { result ≡ default_reply request.now }
{
    match request {
        Request::MakeDir { .. } => Reply::Written,
        Request::WriteFile { .. } => Reply::Written,
        Request::ReadFile { .. } => Reply::Missing,
        Request::Spawn { .. } => Reply::Missing,
    }
}

/// The reply of a plan.
pub(crate) fn reply_planned(
    plan: &[Planned],
    test: u64,
    earlier: u64,
    request: &Request,
) -> Result<Reply, NoMemory>
    ensures { IfOk result (λ reply. reply ≡ answer plan.now test earlier request.now) }
{
    let Some(planned) = find_planned(plan, test, earlier) else {
        return Ok(reply_unplanned(request));
    };
    if !fits(request, &planned.reply) {
        return Ok(reply_unplanned(request));
    }
    planned.reply.copy()
}

/// A plan, and from the first hire on one that hands share.
#[derive(Drop)]
pub(crate) enum Shared {
    Own(Items<Planned>),
    Many(Arc<Items<Planned>>),
}

impl Shared {
    ghost use Rattle.tt_outside.specs.PlanOf.{plan_of};

    /// The plan, shared once more.
    pub(crate) fn share(&mut self, alloc: Global) -> Result<Arc<Items<Planned>>, NoMemory>
        ensures plan { plan_of self.new ≡ plan_of self.old }
        ensures shared { IfOk result (λ shared. arc_value shared ≡ plan_of self.old) }
    {
        let first = match mem::replace(self, Shared::Own(Items::new(alloc))) {
            Shared::Own(plan) => match Arc::new(alloc, plan) {
                Ok(first) => first,
                Err(refused) => {
                    *self = Shared::Own(refused.value);
                    return Err(NoMemory);
                }
            },
            Shared::Many(first) => first,
        };
        let next = Arc::try_clone(&first);
        *self = Shared::Many(first);
        match next {
            Ok(next) => Ok(next),
            Err(_) => Err(NoMemory),
        }
    }
}
