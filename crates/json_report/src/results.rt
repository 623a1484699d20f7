//! Results under paths.
ghost use Rattle.std.specs.Prelude.{◌≡◌, [], IfOk, OnOk};
ghost use Rattle.json_report.specs.Changes.{Agrees, Results, both_at, changes_at, paths_of, with_both, with_lines, with_new, with_old};

use crate::changed::{Change, differs};
use crate::line::Line;
use std::alloc::Global;
use std::collections::BTreeMap;
use std::marker::Model;
use test_outcome::Outcome;
use tt_base::{Bytes, Items, NoMemory};

/// The results of a path in an old report and in a new one.
#[derive(Clone, Copy)]
pub(crate) struct Both {
    pub(crate) old: Option<Outcome>,
    pub(crate) new: Option<Outcome>,
}

/// The results of each path, in byte order of the paths.
#[derive(Drop)]
pub(crate) struct ByPath {
    alloc: Global,
    held: BTreeMap<Vec<u8>, Both>,
}

impl Model for ByPath {
    ghost use Rattle.json_report.specs.Changes.{Known, by_paths};

    ghost Value = { Known };

    ghost view = { λ results. by_paths results.held.entries };
}

impl ByPath {
    pub(crate) fn new(alloc: Global) -> ByPath
        ensures { result ≡ [] }
    {
        ByPath {
            alloc,
            held: BTreeMap::new(alloc),
        }
    }

    /// The results of a path.
    fn get(&self, path: &[u8]) -> Option<Both>
        ensures { result ≡ both_at self.now path.now }
    {
        self.held.get(path).copied()
    }

    /// Sets the results of a path, and gives those that it had.
    fn put(&mut self, path: &[u8], both: Both) -> Result<Option<Both>, NoMemory>
        ensures had { IfOk result (λ had. had ≡ both_at self.old path.now) }
        ensures put { OnOk result (self.new ≡ with_both self.old path.now both) }
    {
        let Ok(owned) = Vec::from_slice(self.alloc, path) else {
            return Err(NoMemory);
        };
        match self.held.insert(owned, both) {
            Ok(had) => Ok(had),
            Err(_) => Err(NoMemory),
        }
    }

    /// Sets the result of a test of an old report, and gives what its path had.
    pub(crate) fn put_old(&mut self, line: &Line) -> Result<Option<Both>, NoMemory>
        ensures had { IfOk result (λ had. had ≡ both_at self.old line.now.path) }
        ensures put { OnOk result (self.new ≡ with_old self.old line.now) }
    {
        let both = Both {
            old: Some(line.result),
            new: None,
        };
        self.put(line.path.as_slice(), both)
    }

    /// Sets the result of a test of a new report; that of the old one stays.
    fn put_new(&mut self, line: &Line) -> Result<(), NoMemory>
        ensures { OnOk result (self.new ≡ with_new self.old line.now) }
    {
        let path = line.path.as_slice();
        let both = Both {
            old: self.get(path).and_then(|both| both.old),
            new: Some(line.result),
        };
        self.put(path, both)?;
        Ok(())
    }

    /// Sets the results of an old report.
    pub(crate) fn add_old(&mut self, lines: &[Line]) -> Result<(), NoMemory>
        ensures { OnOk result ((known : Results) → Agrees self.old known [] known →
            Agrees self.new (with_lines known lines.now) [] (with_lines known lines.now)) }
    {
        for line in lines {
            self.put_old(line)?;
        }
        Ok(())
    }

    /// Sets the results of a new report behind an old one.
    pub(crate) fn add_new(&mut self, lines: &[Line]) -> Result<(), NoMemory>
        ensures { OnOk result ((old new both : Results) → Agrees self.old old new both →
            Agrees self.new old (with_lines new lines.now) (with_lines both lines.now)) }
    {
        for line in lines {
            self.put_new(line)?;
        }
        Ok(())
    }

    /// Those of the paths whose results differ.
    pub(crate) fn changes(&self, alloc: Global) -> Result<Items<Change>, NoMemory>
        ensures { IfOk result (λ found. (old new both : Results) → Agrees self.now old new both →
            found ≡ changes_at old new (paths_of both)) }
    {
        let mut found = Items::new(alloc);
        for (path, both) in &self.held {
            if differs(both.old, both.new) {
                found.push(Change {
                    path: Bytes::from_slice(alloc, path.as_slice())?,
                    old: both.old,
                    new: both.new,
                })?;
            }
        }
        Ok(found)
    }
}
