//! What values of `-D` define. They stand between `|`.
use crate::fields::{Tells, each_is_told, in_bytes};
use define_words::{Defined, defined_by, start_vars};
use pattern_vars::Vars;
use std::alloc::Global;
use tt_base::{Bytes, Items, NoMemory};

fn list(alloc: Global, line: &str) -> Result<Items<Bytes>, NoMemory> {
    let mut all = Items::new(alloc);
    for one in line.split('|') {
        all.push(Bytes::from_slice(alloc, one.as_bytes())?)?;
    }
    Ok(all)
}

fn defined(alloc: Global, line: &str) -> Result<Defined, NoMemory> {
    let values = list(alloc, line)?;
    defined_by(alloc, values.as_slice())
}

/// Values, the last one bad in some rows, and the kind of format that `N` has behind them.
const KINDS: &str = "#%x,N=1 => Some(LowerHex)
#%d,M=1|#N=M => Some(Signed)
#%x,N=1|#%X,N=2 => Some(UpperHex)
1|#%x,N=M => Some(LowerHex)
#N=1 => Some(Unsigned)
#%x,N=1|#N=N+1 => Some(LowerHex)
#%x,N=1|#N===3 => Some(LowerHex)
#%x,N=|#%x,N=@LINE|#%x,N===1|N=1 => None";

/// The kind of format that `N` has.
struct Kinds;

impl Tells for Kinds {
    fn told(&self, alloc: Global, given: &str) -> Result<Bytes, NoMemory> {
        let defined = defined(alloc, given)?;
        kind_told(alloc, &defined)
    }
}

fn kind_told(alloc: Global, defined: &Defined) -> Result<Bytes, NoMemory> {
    let kind = defined.known.get(b"N").map(|format| format.kind);
    in_bytes(alloc, format!(in alloc; "{kind:?}"))
}

#[test]
fn formats_are_known_behind_a_bad_value(rt: HostRuntime) -> Result<(), NoMemory> {
    each_is_told(&rt, rt.alloc(), KINDS, &Kinds)
}

/// The variables that these values start with, and places under these names. A refused value counts as want of memory.
fn started(alloc: Global, line: &str, names: &str) -> Result<Vars, NoMemory> {
    let names = list(alloc, names)?;
    let Defined { fresh, .. } = defined(alloc, line)?;
    match fresh {
        Ok(bindings) => start_vars(alloc, names, bindings),
        Err(_) => Err(NoMemory),
    }
}

/// What is amiss with these variables.
fn amiss(vars: &Vars) -> &'static str {
    if !vars.has_place(b"Z") || vars.has_place(b"Y") {
        return "places";
    }
    if vars.number(b"N") != Some(3) {
        return "number";
    }
    match vars.text(b"X") {
        Some(text) if text.as_slice() == b"b".as_slice() => "nothing",
        _ => "text",
    }
}

fn amiss_of(alloc: Global) -> Result<&'static str, NoMemory> {
    let vars = started(alloc, "X=a|#N=3|X=b", "N|Z")?;
    Ok(amiss(&vars))
}

#[test]
fn variables_start_with_what_is_defined(rt: HostRuntime) -> Result<(), NoMemory> {
    let amiss = amiss_of(rt.alloc())?;
    assert!(rt; amiss == "nothing", "{amiss}");
    Ok(())
}
