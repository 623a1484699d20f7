//! Threads.
ghost use Rattle.std.specs.Prelude.{◌≡◌, ◌+◌, ◌≤◌, ◌++◌, length, vec_len, vec_capacity};

/// A node that a path has come to, and where the path comes from: the slot of its start, or the index of the thread
/// that reaches it.
#[derive(Clone, Copy, Debug, PartialEq, Eq)]
pub struct Thread {
    pub node: usize,
    pub origin: usize,
}

/// Adds threads, for which there is room. They are few, so they are put one by one.
pub fn add_threads(list: &mut Vec<Thread>, threads: &[Thread])
    requires { vec_len list.old + length threads.now ≤ vec_capacity list.old }
    ensures items { list.new.items ≡ list.old.items ++ threads.now }
    ensures len { vec_len list.new ≡ vec_len list.old + length threads.now }
    ensures capacity { vec_capacity list.new ≡ vec_capacity list.old }
{
    for thread in threads {
        list.push_reserved(*thread);
    }
}
