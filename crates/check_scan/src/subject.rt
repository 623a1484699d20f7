//! What a scan is of.
use check_group::Check;
use std::alloc::Global;

/// What a scan is of: a text, and the implicit NOTs, which hold in each of its regions.
#[derive(Drop)]
pub struct Subject<'a> {
    pub alloc: Global,
    pub text: &'a [u8],
    pub always: &'a [Check],
}
