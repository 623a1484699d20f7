//! Why a run stops, and with what.
ghost use Rattle.std.specs.Prelude.{◌≡◌};
ghost use Rattle.lit_pool.specs.Pool.{why_of};

use lit_desk::DeskStop;
use lit_test::Trial;
use tt_base::Items;

/// Why a run stops.
#[derive(Clone, Copy, Debug, PartialEq, Eq)]
pub enum PoolWhy {
    /// The report couldn't be written on.
    SinkFault,
    /// The tests keep more than 2 GiB.
    TooMuch,
    NoMemory,
}

/// A run that stopped: why, the trials that were put, and the trial that the desk refused, if it refused one.
#[derive(Drop, Debug)]
pub struct PoolStop {
    pub why: PoolWhy,
    pub trials: Items<Trial>,
    pub other: Option<Trial>,
}

/// Why a run stops where its desk does.
pub(crate) fn why_of(stop: DeskStop) -> PoolWhy
    ensures { result ≡ why_of stop }
{
    match stop {
        DeskStop::SinkFault => PoolWhy::SinkFault,
        DeskStop::TooMuch => PoolWhy::TooMuch,
        DeskStop::NoMemory => PoolWhy::NoMemory,
    }
}
