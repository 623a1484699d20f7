//! What a walk along an expression tells from a place.
use crate::rows::{Tells, bytes_of, each_is_told, no_row, numbered};
use ere_one::walk;
use ere_tree::parse;
use std::alloc::{AllocError, Global};

/// What the walk along an expression tells from a place in a text.
struct Walks;

impl Tells for Walks {
    fn told(&self, alloc: Global, given: &str) -> Result<String, AllocError> {
        let Some((expression, text, place)) = numbered(given) else {
            return no_row(alloc);
        };
        let expression = bytes_of(alloc, expression)?;
        let text = bytes_of(alloc, text)?;
        walked(alloc, expression.as_slice(), text.as_slice(), place)
    }
}

fn walked(
    alloc: Global,
    expression: &[u8],
    text: &[u8],
    place: usize,
) -> Result<String, AllocError> {
    match parse(alloc, expression, false) {
        Ok(ere) if place <= text.len() => {
            let walked = walk(&ere, text, place);
            format!(in alloc; "{walked:?}")
        }
        _ => no_row(alloc),
    }
}

/// An expression, a text, a place, and where the one match ends that begins there.
const ENDS: &str = "op [0-9]+; => op 120; op 3; => 0 => Ends(7)
op [0-9]+; => op 120; op 3; => 8 => Ends(13)
op ([0-9]+)(;) => op 120; => 0 => Ends(7)
mov r[0-9]+, # => mov r12, #1 => 0 => Ends(10)
%[a-z0-9]+ = add => %v1 = add => 0 => Ends(9)
[a-z]* => abc1 => 0 => Ends(3)
[a-z]* => 1 => 0 => Ends(0)
[0-9]{2,3} => 12345 => 0 => Ends(3)
[0-9]{2}[0-9] => 12345 => 0 => Ends(3)
[0-9]{2}[0-9] => 12 45 => 0 => Nowhere
^[0-9]+$ => a~12~3 => 2 => Ends(4)
[0-9]+$ => 12 => 0 => Ends(2)
 => a => 1 => Ends(1)";

#[test]
fn ends_where_nothing_is_left_to_choose(rt: HostRuntime) -> Result<(), AllocError> {
    each_is_told(&rt, rt.alloc(), ENDS, &Walks)
}

const NOWHERE: &str = "op [0-9]+; => op 120, => 0 => Nowhere
op [0-9]+; => op ; => 0 => Nowhere
op [0-9]+; => op 120 => 0 => Nowhere
[0-9]{3} => 12a => 0 => Nowhere
[0-9]{1,2}; => 123; => 0 => Nowhere
[ab]c => abc => 0 => Nowhere
^a => ba => 1 => Nowhere
a$ => ab => 0 => Nowhere
[ab] => a => 1 => Nowhere";

#[test]
fn begins_nowhere(rt: HostRuntime) -> Result<(), AllocError> {
    each_is_told(&rt, rt.alloc(), NOWHERE, &Walks)
}

const UNKNOWN: &str = r"[a-z]+b => aab => 0 => Unknown
[a-z]+[a-z] => aab => 0 => Unknown
a|ab => ab => 0 => Unknown
(ab)* => ab => 0 => Unknown
(a)\1 => aa => 0 => Unknown
.*x => aax => 0 => Unknown
[^~]*$ => aa~ => 0 => Ends(2)";

#[test]
fn leaves_a_choice(rt: HostRuntime) -> Result<(), AllocError> {
    each_is_told(&rt, rt.alloc(), UNKNOWN, &Walks)
}
