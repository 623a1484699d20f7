//! What the threads of a run may share, and hand on to each other.

use crate::request::Entry;
use crate::shared::SharedItems;
use crate::test_data::Test;
use tt_base::{Bytes, Items};

/// Takes only what threads may share and hand on.
fn shared<T: Send + Sync>(_value: &T) {}

/// Takes a list of what threads may share and hand on: they may the list, too.
fn shared_list<T: Send + Sync>(items: &Items<T>) {
    shared(items);
}

/// Takes a list that many hold, of what threads may share and hand on: they may the list, too.
fn shared_items<T: Send + Sync>(items: &SharedItems<T>) {
    shared(items);
}

/// Law: threads may share bytes, lists, tests and entries, and hand them on. The bounds of what it calls keep it.
pub fn law_of_sharing(
    bytes: &Bytes,
    features: &SharedItems<Bytes>,
    tests: &Items<Test>,
    entries: &Items<Entry>,
) {
    shared(bytes);
    shared_items(features);
    shared_list(tests);
    shared_list(entries);
}
