//! Which prefix is meant, with ample memory.
use crate::fields::{Tells, each_is_told, in_bytes, no_row};
use prefix_tree::{PrefixTree, Standing};
use std::alloc::Global;
use tt_base::{Bytes, Items, NoMemory};

/// Names that stand between commas; none of an empty text.
pub(crate) fn list_of(alloc: Global, names: &str) -> Result<Items<Bytes>, NoMemory> {
    let mut list = Items::new(alloc);
    if names.is_empty() {
        return Ok(list);
    }
    for name in names.split(',') {
        list.push(Bytes::from_slice(alloc, name.as_bytes())?)?;
    }
    Ok(list)
}

/// The longest prefix of a list that a text begins with.
fn longest(alloc: Global, names: &str, text: &str) -> Result<Option<Standing>, NoMemory> {
    let prefixes = list_of(alloc, names)?;
    let tree = PrefixTree::new(alloc, prefixes.as_slice())?;
    Ok(tree.longest(text.as_bytes()))
}

/// The number and the length of the longest prefix that a text begins with, or `none`.
struct Meant;

impl Tells for Meant {
    fn told(&self, alloc: Global, given: &str) -> Result<Bytes, NoMemory> {
        let Some((names, text)) = given.split_once(" => ") else {
            return no_row(alloc);
        };
        match longest(alloc, names, text)? {
            Some(Standing { index, length }) => {
                in_bytes(alloc, format!(in alloc; "{index} {length}"))
            }
            None => Bytes::from_slice(alloc, b"none"),
        }
    }
}

/// Names, a text, and the number and the length of the longest one that the text begins with.
const LONGEST: &str = "A,AB,A-B,AB => A: x => 0 1
A,AB,A-B,AB => AB: x => 1 2
A,AB,A-B,AB => A-B: x => 2 3
A,AB,A-B,AB => A-C: x => 0 1
A,AB,A-B,AB => BA => none
ABC,A => ABA => 1 1
ABC,A => ABC => 0 3
ABC => AB => none
B,,C => A => 1 0
B,,C =>  => 1 0
 => A => none
A,AB,A-B,AB,ABC => ABC: x => 4 3
A,AB,A-B,AB,ABC => ABD: x => 1 2
AB,ABC,A-B,D,E => A-C: x => none
B,,C,D,E => A => 1 0";

#[test]
fn the_longest_prefix_is_meant(rt: HostRuntime) -> Result<(), NoMemory> {
    each_is_told(&rt, rt.alloc(), LONGEST, &Meant)
}
