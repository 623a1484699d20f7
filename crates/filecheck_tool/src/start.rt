//! What a run begins with.
ghost use Rattle.std.specs.Prelude.{◌≡◌, ◌≤◌, IfOk};
ghost use Rattle.filecheck_tool.specs.Start.{IsStart, made_asked, start_made};

use filecheck_words::{Asked, ChosenPrefixes, Dump, Input, When, check_names, comment_names};
use std::alloc::Global;
use tt_base::{Bytes, Items, NoMemory};

/// What a run begins with.
#[derive(Drop, Debug)]
pub struct Start {
    /// What the words ask for; where the texts are made, what no words ask for.
    pub asked: Asked,
    /// How many checks are made, where the texts are made and not read.
    pub made: Option<u64>,
}

/// What begins where both texts are made.
pub(crate) fn start_made(alloc: Global, count: u64) -> Result<Start, NoMemory>
    requires least { 1 ≤ count }
    requires most { count ≤ 20000 }
    ensures value { IfOk result (λ start. start ≡ start_made count) }
    ensures sound { IfOk result IsStart }
{
    Ok(Start {
        asked: made_asked(alloc)?,
        made: Some(count),
    })
}

/// What is asked of texts that are made.
fn made_asked(alloc: Global) -> Result<Asked, NoMemory>
    ensures { IfOk result (λ asked. asked ≡ made_asked) }
{
    let prefixes = made_prefixes(alloc)?;
    let name = Bytes::from_slice(alloc, b"<generate>")?;
    Ok(Asked {
        name,
        input: Input::Standard,
        prefixes,
        strict: false,
        allow_empty: false,
        allow_unused: false,
        full_lines: false,
        fold: false,
        var_scope: false,
        may_lack: false,
        implicit: Items::new(alloc),
        defines: Items::new(alloc),
        dump: Dump {
            when: When::Never,
            all: false,
            context: 5,
        },
    })
}

/// The prefixes that are used where no words name any.
fn made_prefixes(alloc: Global) -> Result<ChosenPrefixes, NoMemory>
    ensures { IfOk result (λ prefixes. prefixes ≡ made_asked.prefixes) }
{
    let checks = check_names(alloc)?;
    let comments = comment_names(alloc)?;
    Ok(ChosenPrefixes { checks, comments })
}
