//! What is written where nothing is run.
ghost use Rattle.std.specs.Prelude.{◌≡◌, ◌≤◌, ◌++◌, IfOk, OnOk};
ghost use Rattle.tt_run.specs.Run.{stream_of};
ghost use Rattle.lit_tool.specs.Answer.{TellsStop, WritesNames, name_line, shown_names, status_of};
ghost use Rattle.lit_tool.specs.Message.{text_of};

use crate::message::message_of;
use crate::stop::LitStop;
use lit_dirs::DiscoverFault;
use run_report::LIT;
use std::alloc::Global;
use tt_base::{Bytes, NoMemory};
use tt_outside::Sink;
use tt_run::{Answer, answer_on};

/// Names, each on a line.
fn shown_names(alloc: Global, names: &[Bytes]) -> Result<Bytes, NoMemory>
    ensures { IfOk result (λ text. text ≡ shown_names names.now) }
{
    let mut text = Bytes::from_slice(alloc, b"-- Available Tests --\n")?;
    for name in names {
        add_line(&mut text, name)?;
    }
    Ok(text)
}

/// Adds the line of a name.
fn add_line(text: &mut Bytes, name: &Bytes) -> Result<(), NoMemory>
    ensures { OnOk result (text.new ≡ text.old ++ name_line name.now) }
{
    text.append(b"  ")?;
    text.append(name.as_slice())?;
    text.append(b"\n")
}

/// Writes names, each on a line, and answers 0, 3 at a fault of a stream, or 4 for want of memory.
pub(crate) fn write_names<O: Sink, E: Sink>(
    alloc: Global,
    names: &[Bytes],
    out: &mut O,
    err: &mut E,
) -> u8
    ensures { WritesNames names.now result
        (stream_of O.Sink out.old out.new) (stream_of E.Sink err.old err.new) }
{
    let Ok(text) = shown_names(alloc, names) else {
        return LIT.out_of_memory(err);
    };
    let answer = Answer {
        out: text,
        err: Bytes::new(alloc),
        status: 0,
    };
    answer.write(LIT, out, err)
}

/// The status of a stop.
fn status_of(stop: &LitStop) -> u8
    ensures value { result ≡ status_of stop.now }
    ensures small { result ≤ 3 }
{
    match stop {
        LitStop::Discovery(DiscoverFault::TreeFault) => 3,
        _ => 2,
    }
}

/// Tells a stop, and answers its status, 3 at a fault of the stream, or 4 for want of memory.
pub(crate) fn refuse<E: Sink>(alloc: Global, stop: &LitStop, err: &mut E) -> u8
    ensures { TellsStop stop.now result (stream_of E.Sink err.old err.new) }
{
    let Ok(message) = message_of(alloc, stop) else {
        return LIT.out_of_memory(err);
    };
    answer_on(message.as_slice(), status_of(stop), err)
}
