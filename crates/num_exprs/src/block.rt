//! Numeric blocks.
ghost use Rattle.std.specs.Prelude.{◌≡◌, ◌≤◌, ◌<◌, ◌+◌, ◌^◌, IfOk, length};
ghost use Rattle.num_exprs.specs.Block.{behind_format, behind_name, block_of, expr_from, reading, refused};
ghost use Rattle.num_exprs.specs.View.{IsRead, reading_view};

use crate::fault::{NumFail, NumFault, NumKind};
use crate::head::{equals_at, format_at, name_from};
use crate::reader::read_expr;
use crate::row::{Row, row_length};
use num_base::{Expr, Format};
use num_spell::behind;
use std::alloc::Global;
use tt_base::{Bytes, Items, NoMemory};

/// What stands between `[[#` and `]]`.
#[derive(Drop, Debug)]
pub struct NumBlock {
    /// The format that is written.
    pub format: Option<Format>,
    /// The name that is defined.
    pub defines: Option<Bytes>,
    pub expr: Option<Expr>,
}

/// A name and where it stands.
#[derive(Drop, Debug)]
pub struct PlacedName {
    /// The offset of its first byte, behind the `[[#`.
    pub at: usize,
    pub name: Bytes,
}

/// What is read of a numeric block. Where it has a fault, the format and the names are those before the fault.
#[derive(Drop, Debug)]
pub struct BlockReading {
    /// The format that is written.
    pub format: Option<Format>,
    /// The name that is defined.
    pub defines: Option<PlacedName>,
    /// The names that the expression uses, from the left.
    pub uses: Items<PlacedName>,
    /// The expression, if there is one, or the first fault.
    pub expr: Result<Option<Expr>, NumFault>,
}

fn refused(
    alloc: Global,
    format: Option<Format>,
    defines: Option<PlacedName>,
    fault: NumFault,
) -> BlockReading
    ensures { reading_view result ≡ refused format defines fault }
{
    BlockReading {
        format,
        defines,
        uses: Items::new(alloc),
        expr: Err(fault),
    }
}

/// What is read where the expression may begin, at an offset, behind an `==` or not.
fn expr_from(
    alloc: Global,
    format: Option<Format>,
    defines: Option<PlacedName>,
    equals: bool,
    at: usize,
    text: &[u8],
) -> Result<BlockReading, NoMemory>
    requires { at + length text.now < 2 ^ 64 }
    ensures { IfOk result (λ read. reading_view read ≡ expr_from format defines equals at text.now) }
{
    if row_length(text, Row::Blanks) == text.len() {
        if equals {
            let fault = NumFault {
                at: at + text.len(),
                kind: NumKind::BadExpr,
            };
            return Ok(refused(alloc, format, defines, fault));
        }
        return Ok(BlockReading {
            format,
            defines,
            uses: Items::new(alloc),
            expr: Ok(None),
        });
    }
    let read = read_expr(alloc, at, text)?;
    Ok(BlockReading {
        format,
        defines,
        uses: read.uses,
        expr: match read.outcome {
            Ok(expr) => Ok(Some(expr)),
            Err(at) => Err(NumFault {
                at,
                kind: NumKind::BadExpr,
            }),
        },
    })
}

/// What is read behind the name that is defined.
fn behind_name(
    alloc: Global,
    format: Option<Format>,
    defines: Option<PlacedName>,
    at: usize,
    text: &[u8],
) -> Result<BlockReading, NoMemory>
    requires { at + length text.now < 2 ^ 64 }
    ensures { IfOk result (λ read. reading_view read ≡ behind_name format defines at text.now) }
{
    let count = equals_at(text);
    expr_from(
        alloc,
        format,
        defines,
        count != 0,
        at + count,
        behind(text, count),
    )
}

/// What is read behind the format.
fn behind_format(
    alloc: Global,
    format: Option<Format>,
    at: usize,
    text: &[u8],
) -> Result<BlockReading, NoMemory>
    requires { at + length text.now < 2 ^ 64 }
    ensures { IfOk result (λ read. reading_view read ≡ behind_format format at text.now) }
{
    match name_from(alloc, at, text)? {
        Ok((defines, count)) => {
            behind_name(alloc, format, defines, at + count, behind(text, count))
        }
        Err(fault) => Ok(refused(alloc, format, None, fault)),
    }
}

/// Reads the bytes behind `[[#` up to their end or their first fault.
#[tactic(auto, unfolding(crate::specs::Block::reading))]
pub fn read_block(alloc: Global, bytes: &[u8]) -> Result<BlockReading, NoMemory>
    ensures { IfOk result (λ read. reading_view read ≡ reading bytes.now) }
{
    match format_at(bytes) {
        Ok((format, count)) => behind_format(alloc, format, count, behind(bytes, count)),
        Err(fault) => Ok(refused(alloc, None, None, fault)),
    }
}

/// Reads the bytes behind `[[#` as a numeric block.
pub fn parse_block(alloc: Global, bytes: &[u8]) -> Result<NumBlock, NumFail>
    // The block of the bytes, or its first fault.
    ensures exact { IsRead result (block_of (reading bytes.now)) }
{
    let Ok(read) = read_block(alloc, bytes) else {
        return Err(NumFail::NoMemory);
    };
    let BlockReading {
        format,
        defines,
        expr,
        ..
    } = read;
    match expr {
        Ok(expr) => Ok(NumBlock {
            format,
            defines: defines.map(|named| named.name),
            expr,
        }),
        Err(NumFault { at, kind }) => Err(NumFail::Bad { at, kind }),
    }
}
