//! What stands inside `[[ ]]`.
ghost use Rattle.std.specs.Prelude.{◌≡◌, ◌≤◌, ◌+◌, IfOk, OnOk, length};
ghost use Rattle.std.specs.List.{prefix_len};
ghost use Rattle.ere_tree.specs.Class.{is_digit};
ghost use Rattle.num_base.specs.Term.{binary, line, literal, term_of};
ghost use Rattle.pattern_parse.specs.Pieces.{regex_read};
ghost use Rattle.pattern_parse.specs.Pieces as pieces;
ghost use Rattle.pattern_parse.specs.RawView.{raw_of};
ghost use Rattle.pattern_parse.specs.ReaderView.{block_by, raw_by};
ghost use Rattle.ere_tree.specs.Grammar as ere;
ghost use Rattle.pattern_parse.specs.Block.{all_uses_read, behind_line, behind_name, line_digits, line_read, number_by, regex_defined, same_format, same_kind, text_read, with_recall};
ghost use Rattle.pattern_parse.specs.Block as blocks;
ghost use Rattle.pattern_parse.specs.PieceView.{Reads, ReadsOne, Sees, item_view, said_view};
ghost use Rattle.pattern_parse.specs.Item.{recall};
ghost use Rattle.num_exprs.specs.View.{reading_view};

use crate::cutting::RawKind;
use crate::fault::{PatFault, PatKind};
use crate::formats::Formats;
use crate::pattern::Piece;
use crate::said::Said;
use ere_tree::{EreFail, parse};
use num_base::{Expr, Format, FormatKind, Numbers, Op};
use num_exprs::{BlockReading, NumBlock, NumKind, PlacedName, name_at, read_block};
use num_spell::{begins, behind, number_of};
use std::alloc::Global;
use tt_base::{Bytes, NoMemory};

/// A piece, or why there is none; outside of it stands want of memory.
pub(crate) type Read = Result<Result<Piece, PatFault>, NoMemory>;

/// What the pieces of a body are read by: the formats that are known before it, whether letters match in either case,
/// and whether it is that of a label.
#[derive(Drop)]
pub(crate) struct Reader<'a> {
    pub(crate) alloc: Global,
    pub(crate) known: &'a Formats,
    pub(crate) fold: bool,
    pub(crate) label: bool,
}

pub(crate) fn refused(kind: PatKind, at: usize) -> PatFault
    ensures { result ≡ record { at = at; kind = kind } }
{
    PatFault { at, kind }
}

/// The offset so far behind another. Both lie in the body, so there is one; those that read a part of it don't tell so.
fn place(at: usize, behind: usize) -> Result<usize, NoMemory>
    ensures { IfOk result (λ sum. sum ≡ at + behind) }
{
    match at.checked_add(behind) {
        Some(sum) => Ok(sum),
        None => Err(NoMemory),
    }
}

/// A text that is defined by a regular expression at an offset.
fn define(alloc: Global, name: &[u8], said: &mut Said, fold: bool, at: usize, bytes: &[u8]) -> Read
    ensures { Reads result said.new (regex_defined fold name.now (said_view said.old) at bytes.now) }
{
    match parse(alloc, bytes, fold) {
        Ok(ere) => {
            let name = Bytes::from_slice(alloc, name)?;
            said.add_text(name.as_slice())?;
            Ok(Ok(Piece::Define { name, ere }))
        }
        Err(EreFail::Bad(fault)) => {
            let at = place(at, fault.at)?;
            Ok(Err(refused(PatKind::BadRegex(fault), at)))
        }
        Err(EreFail::NoMemory) => Err(NoMemory),
    }
}

/// A text that is recalled.
fn recall(alloc: Global, name: &[u8], said: &mut Said) -> Read
    ensures { Reads result said.new (Ok (recall name.now, with_recall name.now (said_view said.old))) }
{
    let name = Bytes::from_slice(alloc, name)?;
    said.add_recall(name.as_slice())?;
    Ok(Ok(Piece::Recall { name }))
}

/// A name of this length at an offset and what is behind it.
fn behind_name(
    alloc: Global,
    said: &mut Said,
    fold: bool,
    at: usize,
    long: usize,
    bytes: &[u8],
) -> Read
    requires { long ≤ length bytes.now }
    ensures { Reads result said.new (behind_name fold (said_view said.old) at long bytes.now) }
{
    let (name, rest) = bytes.split_at(long);
    if bytes.len() == long {
        recall(alloc, name, said)
    } else if begins(rest, b':') {
        let at = place(at, long)?;
        define(alloc, name, said, fold, place(at, 1)?, behind(rest, 1))
    } else {
        Ok(Err(refused(PatKind::BadName, place(at, long)?)))
    }
}

/// A block with a text.
fn text_read(alloc: Global, said: &mut Said, fold: bool, at: usize, bytes: &[u8]) -> Read
    ensures { Reads result said.new (text_read fold (said_view said.old) at bytes.now) }
{
    match name_at(bytes) {
        Ok(long) => behind_name(alloc, said, fold, at, long, bytes),
        Err(stop) => Ok(Err(refused(PatKind::BadName, place(at, stop)?))),
    }
}

/// Whether two kinds are one.
fn same_kind(kind: FormatKind, other: FormatKind) -> bool
    ensures { result ≡ same_kind kind other }
{
    match (kind, other) {
        (FormatKind::Unsigned, FormatKind::Unsigned) => true,
        (FormatKind::Signed, FormatKind::Signed) => true,
        (FormatKind::LowerHex, FormatKind::LowerHex) => true,
        (FormatKind::UpperHex, FormatKind::UpperHex) => true,
        _ => false,
    }
}

/// Whether two formats are one.
fn same_format(f: Format, g: Format) -> bool
    ensures { result ≡ same_format f g }
{
    let alternate = if f.alternate {
        g.alternate
    } else {
        !g.alternate
    };
    same_kind(f.kind, g.kind) && alternate && f.digits == g.digits
}

/// Whether a format differs from one that was seen before it.
fn differs(seen: Option<Format>, format: Format) -> bool
    ensures { result ≡ blocks.differs seen format }
{
    match seen {
        Some(before) => !same_format(before, format),
        None => false,
    }
}

/// The format of the numbers that a block uses, which are used from then on; or the first refusal at one of them.
fn read_uses(
    known: &Formats,
    defined: &Numbers,
    used: &mut Numbers,
    written: bool,
    at: usize,
    uses: &[PlacedName],
) -> Result<Result<Option<Format>, PatFault>, NoMemory>
    ensures { Sees result used.new (all_uses_read known.now defined.now written at used.old uses.now) }
{
    let mut seen: Option<Format> = None;
    for named in uses {
        let name = named.name.as_slice();
        if defined.get(name).is_some() {
            return Ok(Err(refused(PatKind::SameLineNumber, place(at, named.at)?)));
        }
        if let Some(format) = known.get(name) {
            if !written && differs(seen, format) {
                return Ok(Err(refused(PatKind::FormatConflict, place(at, named.at)?)));
            }
            seen = Some(format);
        }
        used.put(name, 1)?;
    }
    Ok(Ok(seen))
}

fn kind_of(kind: NumKind) -> PatKind
    ensures { result ≡ blocks.kind_of kind }
{
    match kind {
        NumKind::BadName => PatKind::BadName,
        NumKind::BadFormat => PatKind::BadFormat,
        NumKind::BadExpr => PatKind::BadExpr,
    }
}

/// The format of a block: the written one, that of the numbers that it uses, or `%u`.
fn format_of(written: Option<Format>, seen: Option<Format>) -> Format
    ensures { result ≡ blocks.format_of written seen }
{
    match (written, seen) {
        (Some(format), _) => format,
        (None, Some(format)) => format,
        (None, None) => Format {
            kind: FormatKind::Unsigned,
            alternate: false,
            digits: 0,
        },
    }
}

/// Whether the number that a block defines was used before it.
fn is_used(used: &Numbers, defines: &Option<PlacedName>) -> bool
    ensures { result ≡ blocks.is_used used.now defines.now }
{
    match defines {
        Some(named) => used.get(named.name.as_slice()).is_some(),
        None => false,
    }
}

fn own_place(defines: &Option<PlacedName>) -> usize
    ensures { result ≡ blocks.own_place defines.now }
{
    match defines {
        Some(named) => named.at,
        None => 0,
    }
}

/// Adds the number that a block defines.
fn add_own(defined: &mut Numbers, defines: &Option<PlacedName>) -> Result<(), NoMemory>
    ensures { OnOk result (defined.new ≡ blocks.with_own defined.old defines.now) }
{
    match defines {
        Some(named) => defined.put(named.name.as_slice(), 1),
        None => Ok(()),
    }
}

/// A block with a number.
fn read_number(known: &Formats, said: &mut Said, at: usize, read: BlockReading) -> Read
    ensures { Reads result said.new (number_by known.now (said_view said.old) at (reading_view read)) }
{
    let BlockReading {
        format: written,
        defines,
        uses,
        expr,
    } = read;
    if is_used(&said.used, &defines) {
        let at = place(at, own_place(&defines))?;
        return Ok(Err(refused(PatKind::SameLineNumber, at)));
    }
    add_own(&mut said.defined, &defines)?;
    let seen = match read_uses(
        known,
        &said.defined,
        &mut said.used,
        written.is_some(),
        at,
        uses.as_slice(),
    )? {
        Ok(seen) => seen,
        Err(fault) => return Ok(Err(fault)),
    };
    match expr {
        Ok(expr) => Ok(Ok(Piece::Num {
            block: NumBlock {
                format: written,
                defines: defines.map(|named| named.name),
                expr,
            },
            format: format_of(written, seen),
        })),
        Err(fault) => Ok(Err(refused(kind_of(fault.kind), place(at, fault.at)?))),
    }
}

/// A block with this expression over the line alone.
fn line_number(expr: Expr) -> Piece
    ensures { item_view result ≡ blocks.line_number (term_of expr) }
{
    let block = NumBlock {
        format: None,
        defines: None,
        expr: Some(expr),
    };
    Piece::Num {
        block,
        format: format_of(None, None),
    }
}

/// How many decimal digits stand at the front.
fn digits_length(text: &[u8]) -> usize
    ensures exact { result ≡ prefix_len is_digit text.now }
    ensures within { result ≤ length text.now }
{
    for (at, byte) in text.iter().enumerate() {
        if !byte.is_ascii_digit() {
            return at;
        }
    }
    text.len()
}

/// The value of these digits, where there are digits and it is one.
fn decimal(digits: &[u8]) -> Option<i128>
    ensures { result ≡ blocks.decimal digits.now }
{
    if digits.is_empty() {
        return None;
    }
    match number_of(digits, 10) {
        Some(n) => match i128::try_from(n) {
            Ok(value) => Some(value),
            Err(_) => None,
        },
        None => None,
    }
}

/// `@LINE` and this value behind an operator.
fn behind_op(alloc: Global, op: Op, value: i128) -> Result<Expr, NoMemory>
    ensures { IfOk result (λ expr. term_of expr ≡ binary op line (literal value)) }
{
    let Ok(left) = Box::new(alloc, Expr::Line) else {
        return Err(NoMemory);
    };
    let Ok(right) = Box::new(alloc, Expr::Literal(value)) else {
        return Err(NoMemory);
    };
    Ok(Expr::Binary { op, left, right })
}

/// The digits behind `@LINE` and a sign.
fn line_digits(alloc: Global, op: Op, at: usize, bytes: &[u8]) -> Read
    ensures { ReadsOne result (line_digits op at (prefix_len is_digit bytes.now) bytes.now) }
{
    let count = digits_length(bytes);
    match decimal(bytes.split_at(count).0) {
        None => Ok(Err(refused(PatKind::BadExpr, at))),
        Some(value) => {
            if bytes.len() == count {
                let expr = behind_op(alloc, op, value)?;
                Ok(Ok(line_number(expr)))
            } else {
                Ok(Err(refused(PatKind::BadExpr, place(at, count)?)))
            }
        }
    }
}

/// What is behind `@LINE`.
fn behind_line(alloc: Global, at: usize, bytes: &[u8]) -> Read
    ensures { ReadsOne result (behind_line at bytes.now) }
{
    if bytes.is_empty() {
        Ok(Ok(line_number(Expr::Line)))
    } else if begins(bytes, b'+') {
        line_digits(alloc, Op::Add, place(at, 1)?, behind(bytes, 1))
    } else if begins(bytes, b'-') {
        line_digits(alloc, Op::Sub, place(at, 1)?, behind(bytes, 1))
    } else {
        Ok(Err(refused(PatKind::BadExpr, at)))
    }
}

/// A block with a line.
fn line_read(alloc: Global, at: usize, bytes: &[u8]) -> Read
    ensures { ReadsOne result (line_read at bytes.now) }
{
    if bytes.starts_with(b"@LINE") {
        behind_line(alloc, place(at, 5)?, behind(bytes, 5))
    } else {
        Ok(Err(refused(PatKind::BadName, at)))
    }
}

/// A block at an offset.
pub(crate) fn block_read(reader: &Reader<'_>, said: &mut Said, at: usize, bytes: &[u8]) -> Read
    ensures { Reads result said.new (block_by reader.now said.old at bytes.now) }
{
    if begins(bytes, b'#') {
        let read = read_block(reader.alloc, behind(bytes, 1))?;
        read_number(reader.known, said, place(at, 1)?, read)
    } else if begins(bytes, b'@') {
        line_read(reader.alloc, at, bytes)
    } else {
        text_read(reader.alloc, said, reader.fold, at, bytes)
    }
}

/// A regular expression at an offset.
fn regex_read(alloc: Global, fold: bool, at: usize, bytes: &[u8]) -> Read
    ensures { ReadsOne result (regex_read at (ere.reading fold bytes.now)) }
{
    match parse(alloc, bytes, fold) {
        Ok(ere) => Ok(Ok(Piece::Regex(ere))),
        Err(EreFail::Bad(fault)) => {
            let at = place(at, fault.at)?;
            Ok(Err(refused(PatKind::BadRegex(fault), at)))
        }
        Err(EreFail::NoMemory) => Err(NoMemory),
    }
}

/// A piece at an offset, without what encloses it.
pub(crate) fn raw_read(
    reader: &Reader<'_>,
    said: &mut Said,
    at: usize,
    kind: RawKind,
    bytes: &[u8],
) -> Read
    ensures { Reads result said.new (raw_by reader.now said.old at (raw_of kind bytes.now)) }
{
    match kind {
        RawKind::Text => Ok(Ok(Piece::Plain(Bytes::from_slice(reader.alloc, bytes)?))),
        RawKind::Regex => regex_read(reader.alloc, reader.fold, place(at, 2)?, bytes),
        RawKind::Block => {
            if reader.label {
                Ok(Err(refused(PatKind::VariableInLabel, at)))
            } else {
                block_read(reader, said, place(at, 2)?, bytes)
            }
        }
    }
}

/// The offset behind a piece.
pub(crate) fn behind_raw(at: usize, kind: RawKind, bytes: &[u8]) -> Result<usize, NoMemory>
    ensures { IfOk result (λ next. next ≡ pieces.behind_raw at (raw_of kind bytes.now)) }
{
    let next = place(at, bytes.len())?;
    match kind {
        RawKind::Text => Ok(next),
        RawKind::Regex => place(next, 4),
        RawKind::Block => place(next, 4),
    }
}
