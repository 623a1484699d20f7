//! How many bytes a test keeps.
ghost use Rattle.std.specs.Prelude.{◌≡◌, ◌+◌, ◌≤◌, ◌^◌};
ghost use Rattle.test_course.specs.Bytes.{bytes_in, bytes_in_pairs, capped, kept_behind, own_bytes, reply_bytes};

use tt_base::Bytes;
use tt_outside::{Entry, Pair, Reply, Request};

/// How many bytes a test may have kept where it asks for more, with those of the request.
pub const MAX_KEPT: u64 = 1 << 24;

/// How many bytes a file and a stream of a test may have.
pub const LIMIT: u64 = 1 << 22;

/// Bytes are counted up to this number, which stands for all greater ones. No test keeps as many.
pub const COUNTED: u64 = 1 << 25;

/// A sum.
fn more(total: u64, count: usize) -> u64
    requires { total ≤ 2 ^ 25 }
    ensures { result ≡ capped (total + count) }
{
    let count = (count as u64).min(COUNTED);
    (total + count).min(COUNTED)
}

fn add_texts(total: u64, texts: &[Bytes]) -> u64
    requires { total ≤ 2 ^ 25 }
    ensures { result ≡ capped (total + bytes_in texts.now) }
{
    let mut total = total;
    for text in texts {
        total = more(total, text.len());
    }
    total
}

fn add_pairs(total: u64, pairs: &[Pair]) -> u64
    requires { total ≤ 2 ^ 25 }
    ensures { result ≡ capped (total + bytes_in_pairs pairs.now) }
{
    let mut total = total;
    for pair in pairs {
        total = more(more(total, pair.name.len()), pair.value.len());
    }
    total
}

/// A request's own bytes: all bytes in it, and one more. Numbers past `COUNTED` are told as `COUNTED`.
pub fn own_bytes(request: &Request) -> u64
    ensures { result ≡ capped (own_bytes request.now) }
{
    match request {
        Request::ReadFile { path, .. } => more(1, path.len()),
        Request::MakeDir { path } => more(1, path.len()),
        Request::WriteFile { path, bytes, .. } => more(more(1, path.len()), bytes.len()),
        Request::Spawn {
            words,
            dir,
            env,
            input,
            ..
        } => {
            let total = add_texts(1, words.as_slice());
            let total = add_pairs(total, env.as_slice());
            more(more(total, dir.len()), input.len())
        }
    }
}

/// The bytes of a reply. Numbers past `COUNTED` are told as `COUNTED`.
pub fn reply_bytes(reply: &Reply) -> u64
    ensures { result ≡ capped (reply_bytes reply.now) }
{
    match reply {
        Reply::Bytes(bytes) => more(0, bytes.len()),
        Reply::Status { out, err, .. } => more(more(0, out.len()), err.len()),
        Reply::Written | Reply::Missing | Reply::TooLarge(_) | Reply::Broken => 0,
    }
}

/// The bytes that entries keep. Numbers past `COUNTED` are told as `COUNTED`.
pub fn kept_bytes(entries: &[Entry]) -> u64
    ensures { result ≡ capped (kept_behind 0 entries.now) }
{
    let mut kept = 0;
    let mut rest = entries;
    while let Some((entry, behind)) = rest.split_first() {
        kept = (kept + own_bytes(&entry.request) + reply_bytes(&entry.reply)).min(COUNTED);
        rest = behind;
    }
    kept
}
