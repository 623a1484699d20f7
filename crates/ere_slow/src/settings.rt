//! Captures, as values.
ghost use Rattle.std.specs.Prelude.{◌≡◌, ℕ, IfOk, OnOk, option_map};
ghost use Rattle.std.specs.FinMap.{empty, get, insert};
ghost use Rattle.ere_slow.specs.WayView.{captures_of};

use std::alloc::{AllocError, Global};

/// That a group was set to the part from `from` to `to`.
#[derive(Clone, Copy, Debug, PartialEq, Eq)]
pub struct Setting {
    pub number: u32,
    pub from: usize,
    pub to: usize,
}

/// Captures, as the settings of groups in the order in which they came: the last of a group counts.
#[derive(Drop, Debug)]
pub struct GroupSettings {
    held: Vec<Setting>,
}

impl GroupSettings {
    pub(crate) fn none(alloc: Global) -> GroupSettings
        ensures { captures_of result ≡ empty }
    {
        GroupSettings {
            held: Vec::new(alloc),
        }
    }

    /// How many steps a copy takes.
    pub(crate) fn steps(&self) -> usize {
        self.held.len().saturating_add(3)
    }

    pub(crate) fn copy(&self, alloc: Global) -> Result<GroupSettings, AllocError>
        ensures { IfOk result (λ s. captures_of s ≡ captures_of self.now) }
    {
        let held = Vec::from_slice(alloc, self.held.as_slice())?;
        Ok(GroupSettings { held })
    }

    #[tactic(auto, using(crate::proofs::WayLemmas::after_settings_push))]
    pub(crate) fn set(&mut self, number: u32, from: usize, to: usize) -> Result<(), AllocError>
        ensures { OnOk result (captures_of self.new ≡ insert (captures_of self.old) number (from, to)) }
    {
        self.held.push(Setting { number, from, to })?;
        Ok(())
    }

    /// The part that a group holds. None where it is unset.
    pub fn get(&self, number: u32) -> Option<(usize, usize)>
        ensures value { result ≡ get (captures_of self.now) number }
    {
        let mut held = None;
        for setting in self.held.as_slice() {
            if setting.number == number {
                held = Some((setting.from, setting.to));
            }
        }
        held
    }
}
