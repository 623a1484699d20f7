//! Requests that are answered inside.
ghost use Rattle.std.specs.Prelude.{◌≡◌, ◌<◌, IfOk, IfSome, is_some, length};
ghost use Rattle.std.specs.List.{list_any};
ghost use Rattle.inner_answers.specs.Inside.{AreFit, IsOf, IsReplyInside, asked_inside, is_broken, is_inside};

use crate::below::{core_asks, core_reply};
use crate::peeling::{Peeling, peel, texts_of};
use crate::told::inverse_all;
use crate::tool::tool_in;
use not_count::INPUT_LIMIT;
use std::alloc::Global;
use tt_base::{Items, NoMemory};
use tt_outside::{Reply, Request};

/// What is kept of a request that is answered inside.
#[derive(Drop, Debug)]
pub struct Inside {
    words: Items<String>,
    peeling: Peeling,
}

/// Whether a reply is a fault.
fn is_broken(reply: &Reply) -> bool
    ensures { result ≡ is_broken reply.now }
{
    match reply {
        Reply::Broken => true,
        _ => false,
    }
}

/// Whether one of replies is a fault.
fn has_fault(replies: &[Reply]) -> bool
    ensures { result ≡ list_any is_broken replies.now }
{
    replies.iter().any(is_broken)
}

impl Inside {
    /// What is kept of a request. There is none of it where the request isn't answered inside.
    pub fn of(alloc: Global, request: &Request) -> Result<Option<Inside>, NoMemory>
        ensures some { IfOk result (λ found. is_some found ≡ is_inside request.now) }
        ensures of { IfOk result (λ found. IfSome found (IsOf request.now)) }
    {
        let Request::Spawn { words, input, .. } = request else {
            return Ok(None);
        };
        if tool_in(words.as_slice()).is_none() {
            return Ok(None);
        }
        let Some(words) = texts_of(alloc, words.as_slice())? else {
            return Ok(None);
        };
        let short = input.len() as u64 <= INPUT_LIMIT;
        let peeling = peel(alloc, words.as_slice(), short)?;
        Ok(Some(Inside { words, peeling }))
    }

    /// What the request asks of the hand, in order.
    pub fn asked(&self, alloc: Global, request: &Request) -> Result<Items<Request>, NoMemory>
        requires { IsOf request.now self.now }
        ensures { IfOk result (λ requests. requests ≡ asked_inside request.now) }
    {
        let Request::Spawn {
            dir,
            env,
            input,
            limit,
            ..
        } = request
        else {
            unreachable!()
        };
        let core = &self.words.as_slice()[self.peeling.core..];
        let (dir, env) = (dir.as_slice(), env.as_slice());
        let requests = core_asks(alloc, core, dir, env, input, *limit)?;
        Ok(requests)
    }

    /// The reply to the request, over the replies to what it asks.
    pub fn reply(
        &self,
        alloc: Global,
        request: &Request,
        replies: Items<Reply>,
    ) -> Result<Reply, NoMemory>
        requires of { IsOf request.now self.now }
        requires fit { AreFit (asked_inside request.now) replies }
        ensures { IfOk result (IsReplyInside request.now replies) }
    {
        if has_fault(replies.as_slice()) {
            return Ok(Reply::Broken);
        }
        let Request::Spawn { input, limit, .. } = request else {
            unreachable!()
        };
        let words = self.words.as_slice();
        let core = &words[self.peeling.core..];
        let reply = core_reply(alloc, core, input.as_slice(), *limit, replies)?;
        let levels = self.peeling.levels.as_slice();
        let inverse = inverse_all(alloc, words, levels, *limit, reply)?;
        Ok(inverse)
    }
}
