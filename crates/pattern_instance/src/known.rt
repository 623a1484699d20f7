//! What is known where a pattern is sought.
use pattern_vars::Vars;

/// The variables, the directive's line, and whether letters match in either case.
#[derive(Drop)]
pub(crate) struct Known<'a> {
    pub(crate) vars: &'a Vars,
    pub(crate) line: u32,
    pub(crate) fold: bool,
}
