//! Texts and numbers under names.
ghost use Rattle.std.specs.Prelude.{◌≡◌, IfOk, OnOk, is_some, true};
ghost use Rattle.std.specs.Option.{option_map};
ghost use Rattle.std.specs.FinMap as map;
ghost use Rattle.num_base.specs.Names.{by_names};
ghost use Rattle.pattern_vars.specs.Vars.{Changes, IsCleared, MakesPlace, MakesPlaces, bound, bound_all, forgotten, has_place, have_places, is_lasting, number_of, text_of, with_number, with_places, with_text};

use crate::binding::{Binding, Bindings};
use std::alloc::Global;
use std::collections::BTreeMap;
use std::marker::Model;
use tt_base::{Bytes, NoMemory};

/// What is held under a name.
#[derive(Drop, Debug)]
pub struct Held {
    pub text: Option<Bytes>,
    pub number: Option<i128>,
}

/// Variables. Under each name that has a place there may be a text and a number, apart from each other.
#[derive(Drop, Debug)]
pub struct Vars {
    held: BTreeMap<Vec<u8>, Held>,
}

impl Model for Vars {
    ghost use Rattle.std.specs.FinMap as map;
    ghost use Rattle.num_base.specs.Names.{by_names, name_cmp};
    ghost use Rattle.std.specs.Coded.{coded_list, coded_ℕ};
    ghost use Rattle.pattern_vars.specs.Vars.{held_code};
    ghost use Rattle.pattern_vars.specs.declared.vars.Held.{Held};

    ghost Value = { map.FinMap name_cmp Held };

    ghost coded = { map.code (coded_list coded_ℕ) held_code };

    ghost view = { λ vars. by_names vars.held.entries };
}

/// A place with nothing in it.
fn add_place(alloc: Global, held: &mut BTreeMap<Vec<u8>, Held>, name: &[u8]) -> Result<(), NoMemory>
    ensures { OnOk result (MakesPlace held.old.entries held.new.entries name.now) }
{
    let Ok(owned) = Vec::from_slice(alloc, name) else {
        return Err(NoMemory);
    };
    let nothing = Held {
        text: None,
        number: None,
    };
    match held.insert(owned, nothing) {
        Ok(_) => Ok(()),
        Err(_) => Err(NoMemory),
    }
}

/// Stores a text at a name's place.
fn set_text(held: &mut BTreeMap<Vec<u8>, Held>, name: &[u8], text: Bytes)
    ensures { Changes held.old.entries held.new.entries name.now (with_text text) }
{
    if let Some(place) = held.get_mut(name) {
        place.text = Some(text);
    }
}

/// Stores a number at a name's place.
fn set_number(held: &mut BTreeMap<Vec<u8>, Held>, name: &[u8], number: Option<i128>)
    ensures { Changes held.old.entries held.new.entries name.now (with_number number) }
{
    if let Some(place) = held.get_mut(name) {
        place.number = number;
    }
}

/// Stores what a match gives a name, which has a place.
#[tactic(auto, using(crate::proofs::VarsLemmas::stored))]
fn store(held: &mut BTreeMap<Vec<u8>, Held>, binding: Binding)
    requires { has_place (by_names held.old.entries) binding ≡ true }
    ensures { by_names held.new.entries ≡ bound (by_names held.old.entries) binding }
{
    match binding {
        Binding::Text { name, text } => set_text(held, name.as_slice(), text),
        Binding::Number { name, value } => set_number(held, name.as_slice(), Some(value)),
    }
}

/// Stores what a match gives, in order.
#[tactic(auto, using(crate::proofs::VarsLemmas::places_stay))]
fn store_all(held: &mut BTreeMap<Vec<u8>, Held>, fresh: Vec<Binding>)
    requires { have_places (by_names held.old.entries) fresh.items ≡ true }
    ensures { by_names held.new.entries ≡ bound_all (by_names held.old.entries) fresh.items }
{
    for binding in fresh {
        store(held, binding);
    }
}

/// Places with nothing in them.
fn make_places(
    alloc: Global,
    held: &mut BTreeMap<Vec<u8>, Held>,
    names: &[Bytes],
) -> Result<(), NoMemory>
    ensures { OnOk result (MakesPlaces held.old.entries held.new.entries names.now) }
{
    for name in names {
        add_place(alloc, held, name.as_slice())?;
    }
    Ok(())
}

/// Whether a name keeps its values at the start of a block.
fn is_lasting(name: &[u8]) -> bool
    ensures { result ≡ is_lasting name.now }
{
    match name.first() {
        Some(byte) => *byte == b'$',
        None => false,
    }
}

impl Vars {
    /// A place under each name, with nothing in it. All memory that the variables need but their texts is taken here.
    pub fn new(alloc: Global, names: &[Bytes]) -> Result<Vars, NoMemory>
        ensures { IfOk result (λ vars. vars ≡ with_places map.empty names.now) }
    {
        let mut held = BTreeMap::new(alloc);
        make_places(alloc, &mut held, names)?;
        Ok(Vars { held })
    }

    /// Whether a name has a place. It takes no memory.
    pub fn has_place(&self, name: &[u8]) -> bool
        ensures { result ≡ is_some (map.get self.now name.now) }
    {
        self.held.contains_key(name)
    }

    /// The text under a name. It takes no memory.
    pub fn text(&self, name: &[u8]) -> Option<&Bytes>
        ensures { option_map (λ text. text.now) result ≡ text_of self.now name.now }
    {
        match self.held.get(name) {
            Some(one) => one.text.as_ref(),
            None => None,
        }
    }

    /// The number under a name. It takes no memory.
    pub fn number(&self, name: &[u8]) -> Option<i128>
        ensures { result ≡ number_of self.now name.now }
    {
        match self.held.get(name) {
            Some(one) => one.number,
            None => None,
        }
    }

    /// Whether each name has a place. It takes no memory.
    pub fn have_places(&self, fresh: &[Binding]) -> bool
        ensures { result ≡ have_places self.now fresh.now }
    {
        for binding in fresh {
            if !self.has_place(binding.name()) {
                return false;
            }
        }
        true
    }

    /// Stores what a match gives, the later over the earlier. It takes no memory.
    pub fn bind(&mut self, fresh: Bindings)
        requires { have_places self.old fresh ≡ true }
        ensures { self.new ≡ bound_all self.old fresh }
    {
        store_all(&mut self.held, fresh.into_vec());
    }

    /// Forgets what is held under each name that doesn't begin with `$`, as at the start of a block with
    /// `--enable-var-scope`. The places stay. It takes no memory.
    pub fn clear_local(&mut self)
        ensures each { IsCleared self.old self.new }
        ensures value { self.new ≡ forgotten self.old }
    {
        self.held.retain(|name, one| {
            if !is_lasting(name.as_slice()) {
                one.text = None;
                one.number = None;
            }
            true
        });
    }
}
