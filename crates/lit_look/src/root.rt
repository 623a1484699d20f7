//! The root of a suite, which all that is found below it shares.
ghost use Rattle.std.specs.Prelude.{◌≡◌, IfOk, map};
ghost use Rattle.lit_dirs.specs.Tests.{tool_of};
ghost use Rattle.lit_suite.specs.Whole.{IsWhole};

use lit_dirs::tools_of;
use lit_suite::Suite;
use std::alloc::Global;
use std::marker::Model;
use std::sync::Arc;
use tt_base::{Bytes, Items, NoMemory};
use tt_outside::{Pair, SharedItems};

/// A directory with its suite.
#[derive(Drop, Debug)]
pub struct SuiteRoot {
    pub dir: Items<Bytes>,
    pub suite: Suite,
    pub ghost whole: { IsWhole suite },
}

/// A directory with its suite, and the paths of the suite's programs.
#[derive(Drop, Debug)]
struct ToolRoot {
    root: SuiteRoot,
    tools: SharedItems<Pair>,
    ghost joined: { tools ≡ map (tool_of root.dir) root.suite.tools },
}

/// The root of a suite, held once for all that is found below it.
#[derive(Drop, Debug)]
pub struct SharedRoot {
    held: Arc<ToolRoot>,
}

impl Model for SharedRoot {
    ghost use Rattle.std.specs.Arc.{arc_value};
    ghost use Rattle.lit_look.specs.declared.root.SuiteRoot.{SuiteRoot};

    ghost Value = { SuiteRoot };

    ghost view = { λ shared. (arc_value shared.held).root };
}

impl SharedRoot {
    /// A root, to be shared.
    pub fn new(alloc: Global, root: SuiteRoot) -> Result<SharedRoot, NoMemory>
        ensures { IfOk result (λ shared. shared ≡ root) }
    {
        let tools = tools_of(alloc, root.dir.as_slice(), root.suite.tools.as_slice())?;
        match Arc::new(alloc, ToolRoot { root, tools }) {
            Ok(held) => Ok(SharedRoot { held }),
            Err(_) => Err(NoMemory),
        }
    }

    /// The same root, for one more that is found below it.
    pub fn share(&self) -> Result<SharedRoot, NoMemory>
        ensures { IfOk result (λ shared. shared ≡ self.now) }
    {
        match Arc::try_clone(&self.held) {
            Ok(held) => Ok(SharedRoot { held }),
            Err(_) => Err(NoMemory),
        }
    }

    /// The root.
    pub fn get(&self) -> &SuiteRoot
        ensures { result.now ≡ self.now }
    {
        &self.held.root
    }

    /// The paths of the programs of its suite.
    pub fn tools(&self) -> &SharedItems<Pair>
        ensures { result.now ≡ map (tool_of self.now.dir) self.now.suite.tools }
    {
        &self.held.tools
    }
}
