//! What was read of a script, directive by directive.
ghost use Rattle.std.specs.Prelude.{◌≡◌};
ghost use Rattle.lit_directives.specs.declared.keyword.Kind.TheVariants.{Requires, Unsupported, Xfail};
ghost use Rattle.lit_directives.specs.Script.{AddsList, IsState, beginning, by_directive, by_kind, reader_view, with_run, with_retries, retries_of};

use crate::fault::{MAX_RUNS, ScriptFail, ScriptFault};
use crate::keyword::Kind;
use crate::retries::retries_of;
use crate::runs::{Pending, add_part};
use crate::script::RunLine;
use bool_exprs::{BoolExpr, read_list};
use std::alloc::Global;
use std::mem;
use tt_base::{Items, NoMemory};

/// What was read of a script.
#[derive(Drop, Debug)]
pub(crate) struct Reader {
    pub(crate) runs: Items<RunLine>,
    /// How many RUN directives there were.
    pub(crate) count: u32,
    /// The RUN line that goes on.
    pub(crate) pending: Option<Pending>,
    pub(crate) required: Items<BoolExpr>,
    pub(crate) unsupported: Items<BoolExpr>,
    pub(crate) xfail: Items<BoolExpr>,
    pub(crate) retries: Option<u32>,
}

/// Adds the items of a line's list, which stands behind a keyword.
fn add_list(
    alloc: Global,
    list: &mut Items<BoolExpr>,
    xfail: bool,
    line: u32,
    rest: &[u8],
) -> Result<(), ScriptFail>
    ensures { AddsList list.old xfail line rest.now list.new result }
{
    let mut more = match read_list(alloc, xfail, rest) {
        Ok(Some(more)) => more.into_vec(),
        Ok(None) => return Err(ScriptFail::Bad(ScriptFault::BadExpr(line))),
        Err(NoMemory) => return Err(ScriptFail::NoMemory),
    };
    let mut all = mem::replace(list, Items::new(alloc)).into_vec();
    match all.append(&mut more) {
        Ok(()) => {
            *list = Items::from_vec(all);
            Ok(())
        }
        Err(_) => Err(ScriptFail::NoMemory),
    }
}

impl Reader {
    /// Where a text begins.
    pub(crate) fn beginning(alloc: Global) -> Reader
        ensures { reader_view result ≡ beginning }
    {
        Reader {
            runs: Items::new(alloc),
            count: 0,
            pending: None,
            required: Items::new(alloc),
            unsupported: Items::new(alloc),
            xfail: Items::new(alloc),
            retries: None,
        }
    }

    fn with_run(self, alloc: Global, line: u32, rest: &[u8]) -> Result<Reader, ScriptFail>
        ensures { IsState result (with_run (reader_view self) line rest.now) }
    {
        let Reader {
            mut runs,
            count,
            pending,
            required,
            unsupported,
            xfail,
            retries,
        } = self;
        if count >= MAX_RUNS {
            return Err(ScriptFail::Bad(ScriptFault::TooMany(line)));
        }
        match add_part(alloc, &mut runs, line, pending, rest) {
            Ok(pending) => Ok(Reader {
                runs,
                count: count + 1,
                pending,
                required,
                unsupported,
                xfail,
                retries,
            }),
            Err(NoMemory) => Err(ScriptFail::NoMemory),
        }
    }

    fn with_requires(self, alloc: Global, line: u32, rest: &[u8]) -> Result<Reader, ScriptFail>
        ensures { IsState result (by_kind (reader_view self) line Requires rest.now) }
    {
        let mut reader = self;
        match add_list(alloc, &mut reader.required, false, line, rest) {
            Ok(()) => Ok(reader),
            Err(fail) => Err(fail),
        }
    }

    fn with_unsupported(self, alloc: Global, line: u32, rest: &[u8]) -> Result<Reader, ScriptFail>
        ensures { IsState result (by_kind (reader_view self) line Unsupported rest.now) }
    {
        let mut reader = self;
        match add_list(alloc, &mut reader.unsupported, false, line, rest) {
            Ok(()) => Ok(reader),
            Err(fail) => Err(fail),
        }
    }

    fn with_xfail(self, alloc: Global, line: u32, rest: &[u8]) -> Result<Reader, ScriptFail>
        ensures { IsState result (by_kind (reader_view self) line Xfail rest.now) }
    {
        let mut reader = self;
        match add_list(alloc, &mut reader.xfail, true, line, rest) {
            Ok(()) => Ok(reader),
            Err(fail) => Err(fail),
        }
    }

    fn with_retries(self, line: u32, rest: &[u8]) -> Result<Reader, ScriptFail>
        ensures { IsState result (with_retries (reader_view self) line self.retries (retries_of rest.now)) }
    {
        if self.retries.is_some() {
            return Err(ScriptFail::Bad(ScriptFault::TwiceRetries(line)));
        }
        match retries_of(rest) {
            Some(number) => {
                let mut reader = self;
                reader.retries = Some(number);
                Ok(reader)
            }
            None => Err(ScriptFail::Bad(ScriptFault::BadRetries(line))),
        }
    }

    fn by_kind(
        self,
        alloc: Global,
        line: u32,
        kind: Kind,
        rest: &[u8],
    ) -> Result<Reader, ScriptFail>
        ensures { IsState result (by_kind (reader_view self) line kind rest.now) }
    {
        match kind {
            Kind::Run => self.with_run(alloc, line, rest),
            Kind::Requires => self.with_requires(alloc, line, rest),
            Kind::Unsupported => self.with_unsupported(alloc, line, rest),
            Kind::Xfail => self.with_xfail(alloc, line, rest),
            Kind::Retries => self.with_retries(line, rest),
        }
    }

    /// Behind a directive of a line that is UTF-8 or not.
    pub(crate) fn by_directive(
        self,
        alloc: Global,
        line: u32,
        is_text: bool,
        kind: Kind,
        rest: &[u8],
    ) -> Result<Reader, ScriptFail>
        ensures { IsState result (by_directive (reader_view self) line is_text kind rest.now) }
    {
        if is_text {
            self.by_kind(alloc, line, kind, rest)
        } else {
            Err(ScriptFail::Bad(ScriptFault::NotText(line)))
        }
    }
}
