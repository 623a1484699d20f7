//! Names that a directory lists.
ghost use Rattle.std.specs.Prelude.{◌≡◌, codes, map};
ghost use Rattle.std.specs.Option.{option_map};
ghost use Rattle.tt_outside.specs.TreeMap.{kind_of};
ghost use Rattle.lit_dirs.specs.Looks.{first_file, is_file, item_named, python_of};

use tt_outside::{Item, ItemKind};

/// The file of a suite.
pub(crate) const SUITE_FILE: &str = "lit.suite.toml";

/// The names that a directory is looked at for: its suite file, and Python configurations in byte order.
pub(crate) const CONFIG: [&str; 7] = [
    SUITE_FILE,
    "lit.cfg",
    "lit.cfg.py",
    "lit.local.cfg",
    "lit.local.cfg.py",
    "lit.site.cfg",
    "lit.site.cfg.py",
];

/// The item of a name.
fn item_named<'a>(items: &'a [Item], name: &[u8]) -> Option<&'a Item>
    ensures { option_map (λ item. item.now) result ≡ item_named items.now name.now }
{
    items.iter().find(|item| item.name.as_slice() == name)
}

/// Whether a file is listed under a name.
fn has_file(items: &[Item], name: &[u8]) -> bool
    ensures { result ≡ is_file (kind_of items.now name.now) }
{
    match item_named(items, name) {
        Some(item) => item.kind == ItemKind::File,
        None => false,
    }
}

/// The first of these names under which a file is listed.
fn first_file<'a>(items: &[Item], names: &[&'a str]) -> Option<&'a str>
    ensures { option_map (λ name. name.now) result ≡ first_file items.now (map (λ name. name.now) names.now) }
{
    for name in names {
        if has_file(items, name.as_bytes()) {
            return Some(name);
        }
    }
    None
}

/// The least Python configuration that is listed.
pub(crate) fn python_of(items: &[Item]) -> Option<&'static str>
    ensures { option_map (λ name. name.now) result ≡ python_of items.now }
{
    first_file(items, &CONFIG[1..])
}

/// Whether a suite file is listed.
pub(crate) fn has_suite_file(items: &[Item]) -> bool
    ensures { result ≡ is_file (kind_of items.now (codes "lit.suite.toml")) }
{
    has_file(items, SUITE_FILE.as_bytes())
}
