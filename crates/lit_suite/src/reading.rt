//! How a suite file is read.
ghost use Rattle.std.specs.Prelude.{◌≡◌, codes, IfOk, map};
ghost use Rattle.lit_suite.specs.Parts.{other_key};
ghost use Rattle.lit_suite.specs.Suites.{Reads, Tells, exec_root_at, good, keys_of, known, maybe_text, name_at, named_at, pairs_at, parts_at, suffixes_at, suite_file, suite_of, texts_at, version_of};
ghost use Rattle.toml.specs.Data.{get_member};
ghost use Rattle.toml.specs.View.{table_view, view};

use crate::parts::{optional_pairs, optional_texts, parts_of};
use crate::suite_file::{Part, Suite, SuiteFail, SuiteFault};
use crate::tables::{first_other, value_at};
use crate::values::{full_text, name_text, named_of, some_full_texts};
use std::alloc::Global;
use std::str;
use toml::{Table, Value};
use tt_base::{Bytes, Items, NoMemory};
use tt_outside::{Pair, SharedItems};

/// The keys of a suite; the last is one from version 2 on.
const KEYS: [&str; 10] = [
    "version",
    "name",
    "suffixes",
    "excludes",
    "features",
    "exec_root",
    "substitutions",
    "tools",
    "environment",
    "parts",
];

/// The fault of a key that isn't there.
fn missing_key(alloc: Global, key: &str) -> SuiteFail
    ensures { Tells result (SuiteFault.MissingKey key.now) }
{
    match Bytes::from_slice(alloc, key.as_bytes()) {
        Ok(key) => SuiteFail::Bad(SuiteFault::MissingKey(key)),
        Err(NoMemory) => SuiteFail::NoMemory,
    }
}

/// What was read of a key's value.
fn good<T>(alloc: Global, key: &str, read: Option<T>) -> Result<T, SuiteFail>
    ensures { Reads result (good key.now read) }
{
    match read {
        Some(value) => Ok(value),
        None => match Bytes::from_slice(alloc, key.as_bytes()) {
            Ok(key) => Err(SuiteFail::Bad(SuiteFault::BadValue(key))),
            Err(NoMemory) => Err(SuiteFail::NoMemory),
        },
    }
}

/// Whether the file's version has parts.
fn version_of(alloc: Global, table: &Table) -> Result<bool, SuiteFail>
    ensures { Reads result (version_of (get_member (codes "version") (table_view table.now))) }
{
    let Some(value) = value_at(table, "version") else {
        return Err(missing_key(alloc, "version"));
    };
    match value.as_integer() {
        Some(1) => Ok(false),
        Some(2) => Ok(true),
        _ => Err(SuiteFail::Bad(SuiteFault::BadVersion)),
    }
}

/// The keys of a suite.
fn keys_of(parts: bool) -> &'static [&'static str]
    ensures { map (λ key. key.now) result.now ≡ keys_of parts }
{
    if parts { &KEYS } else { &KEYS[..9] }
}

/// Refuses the first key that isn't one of a suite.
fn check_keys(alloc: Global, table: &Table, parts: bool) -> Result<(), SuiteFail>
    ensures { Reads result (known (other_key (keys_of parts) (table_view table.now))) }
{
    match first_other(alloc, keys_of(parts), table)? {
        Some(key) => Err(SuiteFail::Bad(SuiteFault::UnknownKey(key))),
        None => Ok(()),
    }
}

/// The suite's name.
fn name_at(alloc: Global, table: &Table) -> Result<Bytes, SuiteFail>
    ensures { Reads result (name_at (table_view table.now)) }
{
    match value_at(table, "name") {
        Some(value) => good(alloc, "name", name_text(alloc, value)?),
        None => Err(missing_key(alloc, "name")),
    }
}

/// How the names of its tests end.
fn suffixes_at(alloc: Global, table: &Table) -> Result<Items<Bytes>, SuiteFail>
    ensures { Reads result (suffixes_at (table_view table.now)) }
{
    match value_at(table, "suffixes") {
        Some(value) => good(alloc, "suffixes", some_full_texts(alloc, value)?),
        None => Err(missing_key(alloc, "suffixes")),
    }
}

/// The texts of a key that may be absent.
fn texts_at(alloc: Global, table: &Table, key: &str) -> Result<Items<Bytes>, SuiteFail>
    ensures { Reads result (texts_at key.now (table_view table.now)) }
{
    let read = optional_texts(alloc, table, key)?;
    good(alloc, key, read)
}

/// The pairs of a key that may be absent.
fn pairs_at(alloc: Global, table: &Table, key: &str) -> Result<Items<Pair>, SuiteFail>
    ensures { Reads result (pairs_at key.now (table_view table.now)) }
{
    let read = optional_pairs(alloc, table, key)?;
    good(alloc, key, read)
}

/// The named texts of a key that may be absent.
fn named_at(alloc: Global, table: &Table, key: &str) -> Result<Items<Pair>, SuiteFail>
    ensures { Reads result (named_at key.now (table_view table.now)) }
{
    match value_at(table, key) {
        Some(value) => good(alloc, key, named_of(alloc, value)?),
        None => Ok(Items::new(alloc)),
    }
}

/// A path, or none where its value isn't one.
fn maybe_text(alloc: Global, value: &Value) -> Result<Option<Option<Bytes>>, NoMemory>
    ensures { IfOk result (λ path. path ≡ maybe_text (view value.now)) }
{
    match full_text(alloc, value)? {
        Some(path) => Ok(Some(Some(path))),
        None => Ok(None),
    }
}

/// Where the commands run, if it is said.
fn exec_root_at(alloc: Global, table: &Table) -> Result<Option<Bytes>, SuiteFail>
    ensures { Reads result (exec_root_at (table_view table.now)) }
{
    match value_at(table, "exec_root") {
        Some(value) => good(alloc, "exec_root", maybe_text(alloc, value)?),
        None => Ok(None),
    }
}

/// The parts, where the version has them.
fn parts_at(alloc: Global, table: &Table, parts: bool) -> Result<Items<Part>, SuiteFail>
    ensures { Reads result (parts_at parts (get_member (codes "parts") (table_view table.now))) }
{
    if !parts {
        return Ok(Items::new(alloc));
    }
    match value_at(table, "parts") {
        Some(value) => good(alloc, "parts", parts_of(alloc, value)?),
        None => Ok(Items::new(alloc)),
    }
}

/// A suite from its table.
#[tactic(auto, using(crate::proofs::SuiteLemmas::handed))]
fn suite_of(alloc: Global, table: &Table) -> Result<Suite, SuiteFail>
    ensures { Reads result (suite_of (table_view table.now)) }
{
    let version = version_of(alloc, table)?;
    check_keys(alloc, table, version)?;
    let name = name_at(alloc, table)?;
    let suffixes = suffixes_at(alloc, table)?;
    let excludes = texts_at(alloc, table, "excludes")?;
    let features = texts_at(alloc, table, "features")?;
    let exec_root = exec_root_at(alloc, table)?;
    let substitutions = pairs_at(alloc, table, "substitutions")?;
    let tools = named_at(alloc, table, "tools")?;
    let environment = named_at(alloc, table, "environment")?;
    let parts = parts_at(alloc, table, version)?;
    Ok(Suite {
        name,
        suffixes,
        excludes,
        features: SharedItems::new(alloc, features)?,
        exec_root,
        substitutions: SharedItems::new(alloc, substitutions)?,
        tools,
        environment: SharedItems::new(alloc, environment)?,
        parts,
    })
}

/// Reads a suite file.
pub fn read_suite(alloc: Global, bytes: &[u8]) -> Result<Suite, SuiteFail>
    ensures { Reads result (suite_file bytes.now) }
{
    let Ok(text) = str::from_utf8(bytes) else {
        return Err(SuiteFail::Bad(SuiteFault::NotToml));
    };
    match toml::table_from_str(alloc, text) {
        Ok(table) => suite_of(alloc, &table),
        Err(error) => {
            if error.is_memory() {
                Err(SuiteFail::NoMemory)
            } else {
                Err(SuiteFail::Bad(SuiteFault::NotToml))
            }
        }
    }
}
