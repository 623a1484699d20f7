//! The variables before the first directive.
ghost use Rattle.std.specs.Prelude.{◌≡◌, ◌++◌, IfOk, OnOk, map};
ghost use Rattle.pattern_vars.specs.Vars.{HavePlaces, name_of};
ghost use Rattle.define_words.specs.Start.{start};

use pattern_vars::{Binding, Bindings, Vars};
use std::alloc::Global;
use tt_base::{Bytes, Items, NoMemory};

/// Variables with a place under each of these names and of those of the bindings, which are stored.
#[tactic(auto, using(crate::proofs::StartLemmas::fresh_placed, crate::proofs::StartLemmas::names_placed))]
pub fn start_vars(alloc: Global, names: Items<Bytes>, fresh: Bindings) -> Result<Vars, NoMemory>
    ensures value { IfOk result (λ vars. vars ≡ start names fresh) }
    ensures placed { IfOk result (λ vars. HavePlaces vars names) }
{
    let mut all = names;
    add_names(alloc, &mut all, fresh.as_slice())?;
    let mut vars = Vars::new(alloc, all.as_slice())?;
    vars.bind(fresh);
    Ok(vars)
}

/// Adds the names of bindings.
fn add_names(alloc: Global, names: &mut Items<Bytes>, fresh: &[Binding]) -> Result<(), NoMemory>
    ensures { OnOk result (names.new ≡ names.old ++ map name_of fresh.now) }
{
    for binding in fresh {
        let name = Bytes::from_slice(alloc, binding.name())?;
        names.push(name)?;
    }
    Ok(())
}
