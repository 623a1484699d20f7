//! The keys of a table.
ghost use Rattle.std.specs.Prelude.{◌≡◌, IfOk, map};
ghost use Rattle.std.specs.Option.{option_map};
ghost use Rattle.lit_suite.specs.Parts.{is_key_of, other_key};
ghost use Rattle.toml.specs.Data.{get_member};
ghost use Rattle.toml.specs.View.{table_view, view};

use std::alloc::Global;
use toml::{Table, Value};
use tt_base::{Bytes, NoMemory};

/// The value of a key.
pub(crate) fn value_at<'a>(table: &'a Table, key: &str) -> Option<&'a Value>
    ensures { option_map (λ value. view value.now) result ≡ get_member key.now (table_view table.now) }
{
    table.get(key)
}

/// Whether a key is one of these.
fn is_key_of(keys: &[&str], key: &str) -> bool
    ensures { result ≡ is_key_of (map (λ one. one.now) keys.now) key.now }
{
    keys.iter().any(|one| one.as_bytes() == key.as_bytes())
}

/// The first key that isn't one of these.
pub(crate) fn first_other(
    alloc: Global,
    keys: &[&str],
    table: &Table,
) -> Result<Option<Bytes>, NoMemory>
    ensures { IfOk result (λ key. key ≡ other_key (map (λ one. one.now) keys.now) (table_view table.now)) }
{
    for (key, _) in table {
        if !is_key_of(keys, key.as_str()) {
            return Ok(Some(Bytes::from_slice(alloc, key.as_str().as_bytes())?));
        }
    }
    Ok(None)
}
