//! Words below all `not`s.
ghost use Rattle.std.specs.Prelude.{◌≡◌, ◌<◌, IfOk, length};
ghost use Rattle.opt_words.specs.Step.{texts};
ghost use Rattle.inner_answers.specs.Below.{IsCheckReply, IsCoreReply, core_asks};
ghost use Rattle.inner_answers.specs.Files.{AreShort};

use crate::files::{check_read, files_asked, input_read, last_reply, names_in};
use crate::told::{count_reply, refused_reply, reply_within};
use crate::tool::{Tool, tool_of};
use filecheck_tool::answer_on;
use not_count::bytes_of;
use std::alloc::Global;
use tt_base::{Bytes, Items, NoMemory};
use tt_outside::{Pair, Reply, Request, SharedBytes, pairs};

/// What words ask of the hand.
pub(crate) fn core_asks(
    alloc: Global,
    core: &[String],
    dir: &[u8],
    env: &[Pair],
    input: &SharedBytes,
    limit: u64,
) -> Result<Items<Request>, NoMemory>
    requires { 0 < length core.now }
    ensures { IfOk result (λ requests. requests ≡ core_asks (texts core.now) dir.now env.now input.now limit) }
{
    match tool_of(core[0].as_bytes()) {
        Some(Tool::FileCheck) => {
            let names = names_in(alloc, &core[1..])?;
            files_asked(alloc, dir, &names)
        }
        Some(Tool::Count) | Some(Tool::Not) => Ok(Items::new(alloc)),
        None => {
            let mut requests = Items::new(alloc);
            requests.push(Request::Spawn {
                words: bytes_of(alloc, core)?,
                dir: Bytes::from_slice(alloc, dir)?,
                env: pairs(alloc, env)?,
                input: input.share()?,
                limit,
            })?;
            Ok(requests)
        }
    }
}

/// The reply of FileCheck to words, which are without its name, over the replies about its files.
fn check_reply(
    alloc: Global,
    words: &[String],
    input: &[u8],
    limit: u64,
    replies: Items<Reply>,
) -> Result<Reply, NoMemory>
    requires { AreShort replies }
    ensures { IfOk result (IsCheckReply (texts words.now) input.now limit replies) }
{
    let names = names_in(alloc, words)?;
    let file = check_read(alloc, &names, replies.as_slice())?;
    let read = input_read(alloc, &names, input, replies)?;
    let answer = answer_on(alloc, words, file, read)?;
    reply_within(alloc, limit, answer)
}

/// The reply to words, over replies of the hand.
pub(crate) fn core_reply(
    alloc: Global,
    core: &[String],
    input: &[u8],
    limit: u64,
    replies: Items<Reply>,
) -> Result<Reply, NoMemory>
    requires some { 0 < length core.now }
    requires short { AreShort replies }
    ensures { IfOk result (IsCoreReply (texts core.now) input.now limit replies) }
{
    match tool_of(core[0].as_bytes()) {
        Some(Tool::FileCheck) => check_reply(alloc, &core[1..], input, limit, replies),
        Some(Tool::Count) => count_reply(alloc, &core[1..], input, limit),
        Some(Tool::Not) => refused_reply(alloc, &core[1..], limit),
        None => Ok(last_reply(replies)),
    }
}
