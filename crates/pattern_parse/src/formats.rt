//! Formats of numbers under names.
ghost use Rattle.std.specs.Prelude.{◌≡◌, ℕ, List, OnErr, OnOk, is_some, true};
ghost use Rattle.pattern_parse.specs.Formats.{HasPlace, HasPlaces, SetsFormat, SetsFormats, Stays, by_places, value_at, with_entry};
ghost use Rattle.pattern_parse.specs.PieceView.{item_view, items_view};
ghost use Rattle.pattern_parse.specs.Pieces.{with_formats};
ghost use Rattle.std.specs.FinMap as map;

use crate::pattern::Piece;
use num_base::Format;
use std::alloc::Global;
use std::collections::BTreeMap;
use std::marker::Model;
use tt_base::NoMemory;

/// A finite map from names to formats. A name may have a place and no format yet, which nobody sees.
#[derive(Drop, Debug)]
pub struct Formats {
    alloc: Global,
    held: BTreeMap<Vec<u8>, Option<Format>>,
}

impl Model for Formats {
    ghost use Rattle.std.specs.FinMap as map;
    ghost use Rattle.num_base.specs.declared.format.Format.{Format};
    ghost use Rattle.num_base.specs.Names.{name_cmp};
    ghost use Rattle.std.specs.Coded.{coded_list, coded_ℕ};
    ghost use Rattle.pattern_parse.specs.Formats.{by_places, format_code};

    ghost Value = { map.FinMap name_cmp Format };

    ghost coded = { map.code (coded_list coded_ℕ) format_code };

    ghost view = { λ formats. by_places formats.held.entries };
}

/// Makes a place for a name. Nobody sees it.
fn make_place(
    alloc: Global,
    held: &mut BTreeMap<Vec<u8>, Option<Format>>,
    name: &[u8],
) -> Result<(), NoMemory>
    ensures same { by_places held.new.entries ≡ by_places held.old.entries }
    ensures made { OnOk result (is_some (value_at held.new.entries name.now) ≡ true) }
    ensures stays { Stays held.old.entries held.new.entries }
{
    if held.contains_key(name) {
        return Ok(());
    }
    let Ok(owned) = Vec::from_slice(alloc, name) else {
        return Err(NoMemory);
    };
    match held.insert(owned, None) {
        Ok(_) => Ok(()),
        Err(_) => Err(NoMemory),
    }
}

/// Sets the format of a name that has a place. It takes no memory.
fn set_format(held: &mut BTreeMap<Vec<u8>, Option<Format>>, name: &[u8], format: Format)
    requires { is_some (value_at held.old.entries name.now) ≡ true }
    ensures set { by_places held.new.entries ≡ map.insert (by_places held.old.entries) name.now format }
    ensures stays { Stays held.old.entries held.new.entries }
{
    set_entry(held, name, format);
}

fn set_entry(held: &mut BTreeMap<Vec<u8>, Option<Format>>, name: &[u8], format: Format)
    requires { is_some (value_at held.old.entries name.now) ≡ true }
    ensures { held.new.entries ≡ with_entry name.now format held.old.entries }
{
    if let Some(place) = held.get_mut(name) {
        *place = Some(format);
    }
}

/// Makes a place for the number that a piece defines.
fn make_piece_place(
    alloc: Global,
    held: &mut BTreeMap<Vec<u8>, Option<Format>>,
    piece: &Piece,
) -> Result<(), NoMemory>
    ensures same { by_places held.new.entries ≡ by_places held.old.entries }
    ensures made { OnOk result (HasPlace held.new.entries piece.now) }
    ensures stays { Stays held.old.entries held.new.entries }
{
    match piece {
        Piece::Num { block, .. } => match &block.defines {
            Some(name) => make_place(alloc, held, name.as_slice()),
            None => Ok(()),
        },
        Piece::Plain(_) => Ok(()),
        Piece::Regex(_) => Ok(()),
        Piece::Define { .. } => Ok(()),
        Piece::Recall { .. } => Ok(()),
    }
}

/// Makes places for the numbers that pieces define.
fn make_places(
    alloc: Global,
    held: &mut BTreeMap<Vec<u8>, Option<Format>>,
    pieces: &[Piece],
) -> Result<(), NoMemory>
    ensures same { by_places held.new.entries ≡ by_places held.old.entries }
    ensures made { OnOk result (HasPlaces held.new.entries pieces.now) }
{
    for piece in pieces {
        make_piece_place(alloc, held, piece)?;
    }
    Ok(())
}

/// Sets the format of the number that a piece defines, which has a place.
fn set_piece_format(held: &mut BTreeMap<Vec<u8>, Option<Format>>, piece: &Piece)
    requires { HasPlace held.old.entries piece.now }
    ensures set { SetsFormat held.old.entries held.new.entries (item_view piece.now) }
    ensures stays { Stays held.old.entries held.new.entries }
{
    match piece {
        Piece::Num { block, format } => match &block.defines {
            Some(name) => set_format(held, name.as_slice(), *format),
            None => {}
        },
        Piece::Plain(_) => {}
        Piece::Regex(_) => {}
        Piece::Define { .. } => {}
        Piece::Recall { .. } => {}
    }
}

/// Sets the formats of the numbers that pieces define, which have places.
fn set_formats(held: &mut BTreeMap<Vec<u8>, Option<Format>>, pieces: &[Piece])
    requires { HasPlaces held.old.entries pieces.now }
    ensures { SetsFormats held.old.entries held.new.entries (items_view pieces.now) }
{
    for piece in pieces {
        set_piece_format(held, piece);
    }
}

impl Formats {
    /// No names. It takes no memory.
    pub fn new(alloc: Global) -> Formats
        ensures { result ≡ map.empty }
    {
        Formats {
            alloc,
            held: BTreeMap::new(alloc),
        }
    }

    /// The format of a name. It takes no memory.
    pub fn get(&self, name: &[u8]) -> Option<Format>
        ensures { result ≡ map.get self.now name.now }
    {
        self.held.get(name).copied().flatten()
    }

    /// Sets the format of one name.
    pub fn put(&mut self, name: &[u8], format: Format) -> Result<(), NoMemory>
        ensures ok { OnOk result (self.new ≡ map.insert self.old name.now format) }
        ensures err { OnErr result (self.new ≡ self.old) }
    {
        make_place(self.alloc, &mut self.held, name)?;
        set_format(&mut self.held, name, format);
        Ok(())
    }

    /// Sets the formats of the numbers that pieces define, in order, or none of them.
    pub(crate) fn add_all(&mut self, pieces: &[Piece]) -> Result<(), NoMemory>
        ensures ok { OnOk result (self.new ≡ with_formats self.old (items_view pieces.now)) }
        ensures err { OnErr result (self.new ≡ self.old) }
    {
        make_places(self.alloc, &mut self.held, pieces)?;
        set_formats(&mut self.held, pieces);
        Ok(())
    }
}
