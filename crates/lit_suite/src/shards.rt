//! The shards of a run.
ghost use Rattle.std.specs.Prelude.{◌↔◌, ◌≡◌, ◌+◌, ◌%◌, ◌<◌, ◌≤◌, IsTrue};

/// Whether a test belongs to a shard. Its place counts from 0, the shards count from 1.
pub fn shard(place: u64, shards: u64, run: u64) -> bool
    requires first { 0 < run }
    requires last { run ≤ shards }
    ensures { IsTrue result ↔ (place % shards + 1 ≡ run) }
{
    place % shards == run - 1
}
