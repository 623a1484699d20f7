//! The files that FileCheck reads.
ghost use Rattle.std.specs.Prelude.{◌≡◌, ◌++◌, ◌∷◌, ◌^◌, [], IfOk, OnOk};
ghost use Rattle.opt_words.specs.Step.{texts};
ghost use Rattle.shell_play.specs.Places.{joined};
ghost use Rattle.tt_outside.specs.declared.request.Request.TheVariants.{ReadFile};
ghost use Rattle.tt_run.specs.Run.{IsShort};
ghost use Rattle.inner_answers.specs.Below.{names_in};
ghost use Rattle.inner_answers.specs.Files.{AreShort, check_read, files_asked, input_read, is_shared, last_reply, reading_of, standard_read};

use filecheck_tool::{CHECK_LIMIT, INPUT_LIMIT, Names, names};
use shell_play::joined;
use std::alloc::Global;
use tt_base::{Bytes, Items, NoMemory};
use tt_outside::{Reply, Request};
use tt_run::Reading;

/// The files that words of FileCheck name.
pub(crate) fn names_in(alloc: Global, words: &[String]) -> Result<Names, NoMemory>
    ensures { IfOk result (λ names. names ≡ names_in (texts words.now)) }
{
    match names(alloc, words)? {
        Some(names) => Ok(names),
        None => Ok(Names {
            check: None,
            input: None,
        }),
    }
}

/// Whether the check file has this name too.
fn is_shared(check: &Option<Bytes>, input: &[u8]) -> bool
    ensures { result ≡ is_shared check.now input.now }
{
    match check {
        Some(check) => check.as_slice() == input,
        None => false,
    }
}

/// Adds the request for the file of a name in a directory.
fn add_file(
    alloc: Global,
    requests: &mut Items<Request>,
    dir: &[u8],
    name: &[u8],
    limit: u64,
) -> Result<(), NoMemory>
    ensures { OnOk result (requests.new ≡ requests.old ++ ReadFile (joined dir.now name.now) limit ∷ []) }
{
    requests.push(Request::ReadFile {
        path: joined(alloc, dir, name)?,
        limit,
    })
}

/// The requests for the files of these names.
pub(crate) fn files_asked(
    alloc: Global,
    dir: &[u8],
    names: &Names,
) -> Result<Items<Request>, NoMemory>
    ensures { IfOk result (λ requests. requests ≡ files_asked dir.now names.now) }
{
    let mut requests = Items::new(alloc);
    if let Some(name) = &names.check {
        add_file(alloc, &mut requests, dir, name.as_slice(), CHECK_LIMIT)?;
    }
    if let Some(name) = &names.input {
        if !is_shared(&names.check, name.as_slice()) {
            add_file(alloc, &mut requests, dir, name.as_slice(), INPUT_LIMIT)?;
        }
    }
    Ok(requests)
}

/// What a reply to such a request says of the file. Its bytes are copied only where others hold them too.
fn reading_of(alloc: Global, reply: Reply) -> Result<Reading, NoMemory>
    ensures { IfOk result (λ read. read ≡ reading_of reply) }
{
    match reply {
        Reply::Bytes(bytes) => Ok(Reading::Whole(bytes.into_bytes(alloc)?)),
        Reply::Missing => Ok(Reading::Missing),
        Reply::TooLarge(_) => Ok(Reading::TooLarge),
        Reply::Written | Reply::Status { .. } | Reply::Broken => Ok(Reading::Failed),
    }
}

/// The last of replies. It takes no memory.
pub(crate) fn last_reply(replies: Items<Reply>) -> Reply
    ensures { result ≡ last_reply replies }
{
    let mut replies = replies.into_vec();
    match replies.pop() {
        Some(reply) => reply,
        None => Reply::Missing,
    }
}

/// What reading the check file gave.
pub(crate) fn check_read(
    alloc: Global,
    names: &Names,
    replies: &[Reply],
) -> Result<Reading, NoMemory>
    ensures { IfOk result (λ read. read ≡ check_read names.now replies.now) }
{
    if names.check.is_none() {
        return Ok(Reading::Missing);
    }
    match replies.split_first() {
        Some((reply, _)) => reading_of(alloc, reply.copy()?),
        None => Ok(Reading::Missing),
    }
}

/// What reading the input gave.
pub(crate) fn input_read(
    alloc: Global,
    names: &Names,
    input: &[u8],
    replies: Items<Reply>,
) -> Result<Reading, NoMemory>
    ensures { IfOk result (λ read. read ≡ input_read names.now input.now replies) }
{
    match &names.input {
        Some(_) => reading_of(alloc, last_reply(replies)),
        None => standard_read(alloc, input),
    }
}

/// What reading a standard input gave.
fn standard_read(alloc: Global, input: &[u8]) -> Result<Reading, NoMemory>
    ensures { IfOk result (λ read. read ≡ standard_read input.now) }
{
    if input.len() as u64 <= INPUT_LIMIT {
        Ok(Reading::Whole(Bytes::from_slice(alloc, input)?))
    } else {
        Ok(Reading::TooLarge)
    }
}
