//! What variables hold as matches are bound and blocks begin.
use pattern_vars::{Binding, Bindings, Vars};
use std::alloc::Global;
use tt_base::{Bytes, Items, NoMemory};

fn owned(alloc: Global, text: &str) -> Result<Bytes, NoMemory> {
    Bytes::from_slice(alloc, text.as_bytes())
}

/// Variables with places for X, N and `$G`.
fn three_places(alloc: Global) -> Result<Vars, NoMemory> {
    let mut names = Items::new(alloc);
    for name in ["X", "N", "$G", "X"] {
        names.push(owned(alloc, name)?)?;
    }
    Vars::new(alloc, names.as_slice())
}

fn add_text(alloc: Global, fresh: &mut Bindings, name: &str, text: &str) -> Result<(), NoMemory> {
    let name = owned(alloc, name)?;
    let text = owned(alloc, text)?;
    fresh.push(Binding::Text { name, text })
}

fn add_number(
    alloc: Global,
    fresh: &mut Bindings,
    name: &str,
    value: i128,
) -> Result<(), NoMemory> {
    let name = owned(alloc, name)?;
    fresh.push(Binding::Number { name, value })
}

/// Binds. A name without a place counts as want of memory.
fn bind(vars: &mut Vars, fresh: Bindings) -> Result<(), NoMemory> {
    if !vars.have_places(fresh.as_slice()) {
        return Err(NoMemory);
    }
    vars.bind(fresh);
    Ok(())
}

/// Whether a text is held under a name, and is this one.
fn holds(vars: &Vars, name: &str, wanted: &str) -> bool {
    match vars.text(name.as_bytes()) {
        Some(text) => text.as_slice() == wanted.as_bytes(),
        None => false,
    }
}

/// X with two texts and a number between them, and N with a number.
fn two_names(alloc: Global) -> Result<Bindings, NoMemory> {
    let mut fresh = Items::new(alloc);
    add_text(alloc, &mut fresh, "X", "first")?;
    add_number(alloc, &mut fresh, "X", 7)?;
    add_number(alloc, &mut fresh, "N", -1)?;
    add_text(alloc, &mut fresh, "X", "last")?;
    Ok(fresh)
}

/// A name with a number.
fn one_number(alloc: Global, name: &str, value: i128) -> Result<Bindings, NoMemory> {
    let mut fresh = Items::new(alloc);
    add_number(alloc, &mut fresh, name, value)?;
    Ok(fresh)
}

/// Whether there is a place for a name that is bound to a text.
fn has_place_for(alloc: Global, vars: &Vars, name: &str) -> Result<bool, NoMemory> {
    let mut fresh = Items::new(alloc);
    add_text(alloc, &mut fresh, name, "a")?;
    Ok(vars.have_places(fresh.as_slice()))
}

/// Variables where X has `last` and 7, and N has -1.
fn bound(alloc: Global) -> Result<Vars, NoMemory> {
    let mut vars = three_places(alloc)?;
    bind(&mut vars, two_names(alloc)?)?;
    Ok(vars)
}

/// Whether X has this text and 7, and N has no text and this number.
fn has_last(vars: &Vars, text: &str, number: i128) -> bool {
    let is_x = holds(vars, "X", text) && vars.number(b"X") == Some(7);
    is_x && vars.text(b"N").is_none() && vars.number(b"N") == Some(number)
}

#[test]
fn a_name_has_its_last_text_and_its_last_number(rt: HostRuntime) -> Result<(), NoMemory> {
    let alloc = rt.alloc();
    let vars = three_places(alloc)?;
    assert!(rt; vars.has_place(b"X") && !vars.has_place(b"Y"));
    assert!(rt; vars.text(b"X").is_none() && vars.number(b"X").is_none());
    let mut vars = bound(alloc)?;
    assert!(rt; has_last(&vars, "last", -1));
    bind(&mut vars, one_number(alloc, "N", i128::MIN)?)?;
    assert!(rt; has_last(&vars, "last", i128::MIN));
    assert!(rt; !has_place_for(alloc, &vars, "Y")?);
    Ok(())
}

/// A text and a number for a name of a block and for a global one.
fn local_and_global(alloc: Global) -> Result<Bindings, NoMemory> {
    let mut fresh = Items::new(alloc);
    add_text(alloc, &mut fresh, "X", "a")?;
    add_text(alloc, &mut fresh, "$G", "")?;
    add_number(alloc, &mut fresh, "X", 1)?;
    add_number(alloc, &mut fresh, "$G", 2)?;
    Ok(fresh)
}

/// Variables that were bound so, in a new block.
fn in_new_block(alloc: Global) -> Result<Vars, NoMemory> {
    let mut vars = three_places(alloc)?;
    bind(&mut vars, local_and_global(alloc)?)?;
    vars.clear_local();
    Ok(vars)
}

#[test]
fn a_block_begins_with_global_names_alone(rt: HostRuntime) -> Result<(), NoMemory> {
    let vars = in_new_block(rt.alloc())?;
    assert!(rt; vars.text(b"X").is_none() && vars.number(b"X").is_none());
    assert!(rt; holds(&vars, "$G", "") && vars.number(b"$G") == Some(2));
    assert!(rt; vars.has_place(b"X"));
    Ok(())
}
