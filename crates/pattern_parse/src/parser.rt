//! A body as pieces.
ghost use Rattle.std.specs.Prelude.{◌≡◌, [], ◌∷◌, ◌-◌, IfOk, OnErr, drop, take};
ghost use Rattle.std.specs.FinMap as fin;
ghost use Rattle.pattern_parse.specs.PieceView.{Reads, Tells, TellsAll, items_view, told_view};
ghost use Rattle.pattern_parse.specs.Item.{plain};
ghost use Rattle.pattern_parse.specs.Demand.{is_label};
ghost use Rattle.pattern_parse.specs.Pieces.{IsFramed, IsPieces, behind_raw, ended, frame_of, is_plain, with_formats};
ghost use Rattle.pattern_parse.specs.RawView.{ending_view, raw_view, raws_view};
ghost use Rattle.pattern_parse.specs.ReaderView.{items_by, raw_by};
ghost use Rattle.pattern_parse.specs.Search.{IsSearchable};

use crate::block::{Read, Reader, behind_raw, raw_read, refused};
use crate::cutting::{Ending, Raw, cut_body, is_text_alone};
use crate::fault::{PatFail, PatFault, PatKind};
use crate::formats::Formats;
use crate::pattern::{BodyRules, Frame, Pattern, Piece};
use crate::said::Said;
use num_spell::behind;
use std::alloc::Global;
use tt_base::{Bytes, Items, NoMemory};

/// The most bytes that a body has.
pub const MAX_BODY: usize = 65_536;

/// The most definitions of texts that recalls of a body mean.
pub const MAX_REFERENCES: usize = 9;

/// Pieces, or why there are none; outside of it stands want of memory.
type Told = Result<Result<Items<Piece>, PatFault>, NoMemory>;

/// The bytes of a body from one offset to before another.
#[tactic(auto, using(std::proofs::lemmas::List::take_min, crate::proofs::PieceLemmas::none_there))]
fn part(body: &[u8], from: usize, to: usize) -> &[u8]
    ensures { result.now ≡ take (to - from) (drop from body.now) }
{
    if body.len() < from {
        return body.split_at(0).0;
    }
    let rest = behind(body, from);
    let count = to.saturating_sub(from).min(rest.len());
    rest.split_at(count).0
}

/// Why a body that ends so at an offset is refused, where so many definitions are meant.
fn ended(label: bool, references: usize, at: usize, ending: Ending) -> Option<PatFault>
    ensures { result ≡ ended label references at (ending_view ending) }
{
    match ending {
        Ending::Over => {
            if references > MAX_REFERENCES {
                Some(refused(PatKind::TooManyReferences, 0))
            } else {
                None
            }
        }
        Ending::NoRegexEnd => Some(refused(PatKind::NoRegexEnd, at)),
        Ending::NoBlockEnd => {
            let kind = if label {
                PatKind::VariableInLabel
            } else {
                PatKind::NoBlockEnd
            };
            Some(refused(kind, at))
        }
    }
}

/// A piece of a body at an offset.
fn read_next(reader: &Reader<'_>, said: &mut Said, at: usize, body: &[u8], raw: &Raw) -> Read
    ensures { Reads result said.new (raw_by reader.now said.old at (raw_view body.now raw.now)) }
{
    raw_read(reader, said, at, raw.kind, part(body, raw.from, raw.to))
}

/// The offset behind a piece of a body.
fn next_at(at: usize, body: &[u8], raw: &Raw) -> Result<usize, NoMemory>
    ensures { IfOk result (λ next. next ≡ behind_raw at (raw_view body.now raw.now)) }
{
    behind_raw(at, raw.kind, part(body, raw.from, raw.to))
}

/// No pieces, with room for so many. A check file has a list for each directive, most of them of one piece.
fn room_for(alloc: Global, count: usize) -> Result<Items<Piece>, NoMemory>
    ensures { IfOk result (λ pieces. pieces ≡ []) }
{
    match Vec::with_capacity(alloc, count) {
        Ok(pieces) => Ok(Items::from_vec(pieces)),
        Err(_) => Err(NoMemory),
    }
}

/// The pieces of a body that was cut.
fn read_pieces(reader: &Reader<'_>, body: &[u8], raws: &[Raw], ending: Ending) -> Told
    ensures { TellsAll result (items_by reader.now (raws_view body.now raws.now) (ending_view ending)) }
{
    let mut said = Said::new(reader.alloc);
    let mut pieces = room_for(reader.alloc, raws.len())?;
    let mut at: usize = 0;
    for raw in raws {
        match read_next(reader, &mut said, at, body, raw)? {
            Ok(piece) => pieces.push(piece)?,
            Err(fault) => return Ok(Err(fault)),
        }
        at = next_at(at, body, raw)?;
    }
    match ended(reader.label, said.references, at, ending) {
        Some(fault) => Ok(Err(fault)),
        None => Ok(Ok(pieces)),
    }
}

/// Whether a body is plain text as a whole.
fn is_plain(rules: &BodyRules) -> bool
    ensures { result ≡ is_plain rules.now }
{
    rules.literal || rules.demand.rule.takes_none()
}

/// Where a match may stand on its line.
fn frame_of(rules: &BodyRules) -> Frame
    ensures { result ≡ frame_of rules.now }
{
    if rules.demand.role.is_excluded() || rules.demand.rule.takes_none() {
        Frame::Open
    } else {
        rules.frame
    }
}

/// A body that is plain text.
fn plain_body(alloc: Global, body: &[u8]) -> Result<Items<Piece>, NoMemory>
    ensures { IfOk result (λ pieces. items_view pieces ≡ plain body.now ∷ []) }
{
    let mut pieces = room_for(alloc, 1)?;
    pieces.push(Piece::Plain(Bytes::from_slice(alloc, body)?))?;
    Ok(pieces)
}

/// The pieces of a body, or its first refusal.
fn read_body(alloc: Global, known: &Formats, rules: &BodyRules, body: &[u8]) -> Told
    ensures { IfOk result (λ told. IsPieces body.now rules.now (fin.get known.now) (told_view told)) }
{
    if body.len() > MAX_BODY {
        Ok(Err(refused(PatKind::TooLong, 0)))
    } else if is_plain(rules) || is_text_alone(body) {
        Ok(Ok(plain_body(alloc, body)?))
    } else {
        let cut = cut_body(alloc, body)?;
        let reader = Reader {
            alloc,
            known,
            fold: rules.fold,
            label: rules.demand.role.is_label(),
        };
        read_pieces(&reader, body, cut.raws.as_slice(), cut.ending)
    }
}

/// The pattern of a directive's body, where these formats are known; from then on those of the numbers that it
/// defines are, too. Of a refusal nothing is kept.
#[tactic(auto, using(crate::proofs::SearchLemmas::pieces_searchable))]
pub fn parse_pattern(
    alloc: Global,
    body: &[u8],
    rules: &BodyRules,
    known: &mut Formats,
) -> Result<Pattern, PatFail>
    ensures pieces { Tells (IsPieces body.now rules.now (fin.get known.old)) result }
    ensures framed { IfOk result (IsFramed rules.now) }
    ensures known { IfOk result (λ pattern. known.new ≡ with_formats known.old (items_view pattern.pieces)) }
    ensures err { OnErr result (known.new ≡ known.old) }
    // A search finds the numbers of groups and references as it needs them.
    ensures searchable { IfOk result (λ pattern. IsSearchable (items_view pattern.pieces)) }
{
    match read_body(alloc, known, rules, body) {
        Ok(Ok(pieces)) => match known.add_all(pieces.as_slice()) {
            Ok(()) => Ok(Pattern {
                pieces,
                frame: frame_of(rules),
                fold: rules.fold,
            }),
            Err(NoMemory) => Err(PatFail::NoMemory),
        },
        Ok(Err(fault)) => Err(PatFail::Bad(fault)),
        Err(NoMemory) => Err(PatFail::NoMemory),
    }
}
