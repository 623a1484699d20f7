//! Equal tests, requests and replies: copies, and comparisons, which take no memory.
ghost use Rattle.std.specs.Prelude.{◌≡◌, ◌++◌, ◌↔◌, IfOk, IsTrue, OnOk};
ghost use Rattle.tt_outside.specs.declared.request.Request.TheVariants.{MakeDir, ReadFile, Spawn, WriteFile};

use crate::request::{Entry, Pair, Reply, Request};
use crate::shared::SharedBytes;
use crate::test_data::Test;
use std::alloc::Global;
use tt_base::{Bytes, Items, NoMemory};

/// An equal text.
fn text(alloc: Global, bytes: &Bytes) -> Result<Bytes, NoMemory>
    ensures { IfOk result (λ copy. copy ≡ bytes.now) }
{
    Bytes::from_slice(alloc, bytes.as_slice())
}

/// Adds equal texts.
fn add_texts(alloc: Global, texts: &mut Items<Bytes>, more: &[Bytes]) -> Result<(), NoMemory>
    ensures { OnOk result (texts.new ≡ texts.old ++ more.now) }
{
    for one in more {
        texts.push(text(alloc, one)?)?;
    }
    Ok(())
}

/// Adds equal pairs.
fn add_pairs(alloc: Global, pairs: &mut Items<Pair>, more: &[Pair]) -> Result<(), NoMemory>
    ensures { OnOk result (pairs.new ≡ pairs.old ++ more.now) }
{
    for one in more {
        pairs.push(one.copy(alloc)?)?;
    }
    Ok(())
}

/// Equal texts.
pub fn texts(alloc: Global, items: &Items<Bytes>) -> Result<Items<Bytes>, NoMemory>
    ensures { IfOk result (λ copy. copy ≡ items.now) }
{
    let mut copy = Items::new(alloc);
    add_texts(alloc, &mut copy, items.as_slice())?;
    Ok(copy)
}

/// Equal pairs.
pub fn pairs(alloc: Global, items: &[Pair]) -> Result<Items<Pair>, NoMemory>
    ensures { IfOk result (λ copy. copy ≡ items.now) }
{
    let mut copy = Items::new(alloc);
    add_pairs(alloc, &mut copy, items)?;
    Ok(copy)
}

/// Whether two texts are equal.
fn same_text(one: &Bytes, other: &Bytes) -> bool
    ensures { IsTrue result ↔ (one.now ≡ other.now) }
{
    one.as_slice() == other.as_slice()
}

/// Whether bytes that may be shared are equal.
fn same_bytes(one: &SharedBytes, other: &SharedBytes) -> bool
    ensures { IsTrue result ↔ (one.now ≡ other.now) }
{
    one.as_slice() == other.as_slice()
}

/// Whether texts are equal, one by one.
pub fn same_texts(one: &[Bytes], other: &[Bytes]) -> bool
    ensures { IsTrue result ↔ (one.now ≡ other.now) }
{
    let mut rest = other;
    for first in one {
        let Some((second, behind)) = rest.split_first() else {
            return false;
        };
        if !same_text(first, second) {
            return false;
        }
        rest = behind;
    }
    rest.is_empty()
}

/// Whether pairs are equal, one by one.
pub fn same_pairs(one: &[Pair], other: &[Pair]) -> bool
    ensures { IsTrue result ↔ (one.now ≡ other.now) }
{
    let mut rest = other;
    for first in one {
        let Some((second, behind)) = rest.split_first() else {
            return false;
        };
        if !first.same(second) {
            return false;
        }
        rest = behind;
    }
    rest.is_empty()
}

impl Pair {
    /// An equal pair.
    pub fn copy(&self, alloc: Global) -> Result<Pair, NoMemory>
        ensures { IfOk result (λ copy. copy ≡ self.now) }
    {
        Ok(Pair {
            name: text(alloc, &self.name)?,
            value: text(alloc, &self.value)?,
        })
    }

    /// Whether two pairs are equal.
    pub fn same(&self, other: &Pair) -> bool
        ensures { IsTrue result ↔ (self.now ≡ other.now) }
    {
        same_text(&self.name, &other.name) && same_text(&self.value, &other.value)
    }
}

impl Test {
    /// An equal test, which shares its lists with the first.
    #[tactic(auto, using(crate::proofs::EqualLemmas::equal_tests))]
    pub fn copy(&self, alloc: Global) -> Result<Test, NoMemory>
        ensures { IfOk result (λ copy. copy ≡ self.now) }
    {
        Ok(Test {
            name: text(alloc, &self.name)?,
            path: text(alloc, &self.path)?,
            source_dir: text(alloc, &self.source_dir)?,
            work_dir: text(alloc, &self.work_dir)?,
            temp_dir: text(alloc, &self.temp_dir)?,
            temp: text(alloc, &self.temp)?,
            features: self.features.share()?,
            substitutions: self.substitutions.share()?,
            tools: self.tools.share()?,
            environment: self.environment.share()?,
        })
    }

    /// Whether two tests are equal.
    pub fn same(&self, other: &Test) -> bool
        ensures { IsTrue result ↔ (self.now ≡ other.now) }
    {
        same_text(&self.name, &other.name)
            && same_text(&self.path, &other.path)
            && same_text(&self.source_dir, &other.source_dir)
            && same_text(&self.work_dir, &other.work_dir)
            && same_text(&self.temp_dir, &other.temp_dir)
            && same_text(&self.temp, &other.temp)
            && same_texts(self.features.as_slice(), other.features.as_slice())
            && same_pairs(
                self.substitutions.as_slice(),
                other.substitutions.as_slice(),
            )
            && same_pairs(self.tools.as_slice(), other.tools.as_slice())
            && same_pairs(self.environment.as_slice(), other.environment.as_slice())
    }
}

impl Request {
    /// An equal request, which shares its input or its bytes with the first.
    pub fn copy(&self, alloc: Global) -> Result<Request, NoMemory>
        ensures { IfOk result (λ copy. copy ≡ self.now) }
    {
        match self {
            Request::ReadFile { path, limit } => Ok(Request::ReadFile {
                path: text(alloc, path)?,
                limit: *limit,
            }),
            Request::MakeDir { path } => Ok(Request::MakeDir {
                path: text(alloc, path)?,
            }),
            Request::WriteFile {
                path,
                bytes,
                append,
            } => Ok(Request::WriteFile {
                path: text(alloc, path)?,
                bytes: bytes.share()?,
                append: *append,
            }),
            Request::Spawn {
                words,
                dir,
                env,
                input,
                limit,
            } => Ok(Request::Spawn {
                words: texts(alloc, words)?,
                dir: text(alloc, dir)?,
                env: pairs(alloc, env.as_slice())?,
                input: input.share()?,
                limit: *limit,
            }),
        }
    }

    /// Whether this reads that file, up to this limit.
    fn reads(&self, file: &Bytes, most: u64) -> bool
        ensures { IsTrue result ↔ (self.now ≡ ReadFile file.now most) }
    {
        match self {
            Request::ReadFile { path, limit } => same_text(path, file) && *limit == most,
            _ => false,
        }
    }

    /// Whether this makes that directory.
    fn makes(&self, dir: &Bytes) -> bool
        ensures { IsTrue result ↔ (self.now ≡ MakeDir dir.now) }
    {
        match self {
            Request::MakeDir { path } => same_text(path, dir),
            _ => false,
        }
    }

    /// Whether this writes these bytes to that file.
    fn writes(&self, file: &Bytes, written: &SharedBytes, behind: bool) -> bool
        ensures { IsTrue result ↔ (self.now ≡ WriteFile file.now written.now behind) }
    {
        match self {
            Request::WriteFile {
                path,
                bytes,
                append,
            } => { same_text(path, file) && same_bytes(bytes, written) && *append == behind }
            _ => false,
        }
    }

    /// Whether this runs that program, in the same way.
    fn spawns(
        &self,
        program: &[Bytes],
        place: &Bytes,
        pairs: &[Pair],
        read: &SharedBytes,
        most: u64,
    ) -> bool
        ensures { IsTrue result ↔ (self.now ≡ Spawn program.now place.now pairs.now read.now most) }
    {
        match self {
            Request::Spawn {
                words,
                dir,
                env,
                input,
                limit,
            } => {
                same_texts(words.as_slice(), program)
                    && same_text(dir, place)
                    && same_pairs(env.as_slice(), pairs)
                    && same_bytes(input, read)
                    && *limit == most
            }
            _ => false,
        }
    }

    /// Whether two requests are equal.
    pub fn same(&self, other: &Request) -> bool
        ensures { IsTrue result ↔ (self.now ≡ other.now) }
    {
        match self {
            Request::ReadFile { path, limit } => other.reads(path, *limit),
            Request::MakeDir { path } => other.makes(path),
            Request::WriteFile {
                path,
                bytes,
                append,
            } => other.writes(path, bytes, *append),
            Request::Spawn {
                words,
                dir,
                env,
                input,
                limit,
            } => { other.spawns(words.as_slice(), dir, env.as_slice(), input, *limit) }
        }
    }
}

impl Reply {
    /// Whether two replies are equal.
    pub fn same(&self, other: &Reply) -> bool
        ensures { IsTrue result ↔ (self.now ≡ other.now) }
    {
        match (self, other) {
            (Reply::Bytes(bytes), Reply::Bytes(read)) => same_bytes(bytes, read),
            (Reply::Written, Reply::Written) => true,
            (Reply::Missing, Reply::Missing) => true,
            (
                Reply::Status { finish, out, err },
                Reply::Status {
                    finish: end,
                    out: written,
                    err: told,
                },
            ) => finish == end && same_bytes(out, written) && same_bytes(err, told),
            (Reply::TooLarge(stream), Reply::TooLarge(other)) => stream == other,
            (Reply::Broken, Reply::Broken) => true,
            _ => false,
        }
    }
}

impl Entry {
    /// An equal entry.
    pub fn copy(&self, alloc: Global) -> Result<Entry, NoMemory>
        ensures { IfOk result (λ copy. copy ≡ self.now) }
    {
        Ok(Entry {
            request: self.request.copy(alloc)?,
            reply: self.reply.copy()?,
        })
    }

    /// Whether two entries are equal.
    pub fn same(&self, other: &Entry) -> bool
        ensures { IsTrue result ↔ (self.now ≡ other.now) }
    {
        self.request.same(&other.request) && self.reply.same(&other.reply)
    }
}
