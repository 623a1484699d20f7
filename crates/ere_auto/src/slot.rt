//! Slots, in which the starts of threads are kept.
ghost use Rattle.std.specs.Prelude.{◌≡◌, ℕ, ◌<◌, length};
ghost use Rattle.ere_auto.specs.Closure.{origin_in};

use crate::marks::Marks;
use crate::thread::Thread;

/// The first slot that no thread has.
pub fn free_slot(threads: &[Thread], slots: &mut Marks) -> usize
    requires within { (x : ℕ) → x < length threads.now → origin_in threads.now x < length slots.old }
    requires room { length threads.now < length slots.old }
    ensures within { result < length slots.old }
    ensures free { (x : ℕ) → x < length threads.now → origin_in threads.now x ≡ result → ⊥ }
    ensures slots { length slots.new ≡ length slots.old }
{
    slots.clear();
    for thread in threads {
        slots.insert(thread.origin);
    }
    for slot in 0..threads.len() {
        if !slots.has(slot) {
            return slot;
        }
    }
    threads.len()
}
