//! What is told of a run that stops. Each message is tried once, and takes no memory.
ghost use Rattle.tt_run.specs.Run.{Answered, stream_of};
ghost use Rattle.run_report.specs.Message.{too_much};
ghost use Rattle.run_report.specs.Run.{StopTells};

use lit_pool::PoolWhy;
use tt_outside::Sink;
use tt_run::{ToolFrame, answer_on};

/// The name of lit.
pub const LIT: ToolFrame = ToolFrame { name: b"lit" };

/// Tells that the tests keep too many bytes, and answers 2, or 3 where the error stream fails.
fn tell_too_much<E: Sink>(err: &mut E) -> u8
    ensures { Answered too_much 2 result (stream_of E.Sink err.old err.new) }
{
    answer_on(b"lit: error: kept output passes 2147483648 bytes\n", 2, err)
}

/// Tells why a run stops, and answers its status.
pub(crate) fn tell_stop<E: Sink>(why: PoolWhy, err: &mut E) -> u8
    ensures { StopTells why result (stream_of E.Sink err.old err.new) }
{
    match why {
        PoolWhy::SinkFault => LIT.cannot_write(err),
        PoolWhy::TooMuch => tell_too_much(err),
        PoolWhy::NoMemory => LIT.out_of_memory(err),
    }
}
