//! Numeric blocks with what is read of them or their faults, values of expressions, and hostile blocks.
use crate::rows::{Tells, each_is_told, is_text};
use num_base::{Expr, Format, Numbers, Op, eval};
use num_exprs::{NumBlock, NumFail, PlacedName, parse_block, read_block};
use std::alloc::{AllocError, Global};

fn add_bytes(out: &mut String, bytes: &[u8]) -> Result<(), AllocError> {
    for byte in bytes {
        out.push(char::from(*byte))?;
    }
    Ok(())
}

fn put(out: &mut String, text: &str) -> Result<(), AllocError> {
    out.push_str(text)
}

fn put_number(alloc: Global, value: i128, out: &mut String) -> Result<(), AllocError> {
    put(out, format!(in alloc; "{value}")?.as_str())
}

fn put_op(alloc: Global, op: Op, out: &mut String) -> Result<(), AllocError> {
    put(out, format!(in alloc; "{op:?}(")?.as_str())
}

#[cycle(show)]
fn show(alloc: Global, expr: &Expr, out: &mut String) -> Result<(), AllocError> {
    match expr {
        Expr::Literal(value) => put_number(alloc, *value, out),
        Expr::Line => put(out, "@LINE"),
        Expr::Name(name) => add_bytes(out, name.as_slice()),
        Expr::Binary { op, left, right } => {
            put_op(alloc, *op, out)?;
            show(alloc, left, out)?;
            put(out, " ")?;
            show(alloc, right, out)?;
            put(out, ")")
        }
    }
}

fn show_format(alloc: Global, format: Format, out: &mut String) -> Result<(), AllocError> {
    let Format {
        kind,
        alternate,
        digits,
    } = format;
    let mark = if alternate { "#" } else { "" };
    put(out, format!(in alloc; "%{mark}{digits}{kind:?} ")?.as_str())
}

/// The format and the defined name of a block, where it has them.
fn show_front(alloc: Global, block: &NumBlock, out: &mut String) -> Result<(), AllocError> {
    if let Some(format) = block.format {
        show_format(alloc, format, out)?;
    }
    if let Some(name) = &block.defines {
        add_bytes(out, name.as_slice())?;
        put(out, ": ")?;
    }
    Ok(())
}

/// A block as a text.
fn shown(alloc: Global, block: &NumBlock) -> Result<String, AllocError> {
    let mut out = String::new(alloc);
    show_front(alloc, block, &mut out)?;
    match &block.expr {
        Some(expr) => show(alloc, expr, &mut out)?,
        None => put(&mut out, "none")?,
    }
    Ok(out)
}

/// A fault and its place.
fn fault_told(alloc: Global, fault: NumFail) -> Result<String, AllocError> {
    match fault {
        NumFail::Bad { at, kind } => format!(in alloc; "{kind:?} {at}"),
        NumFail::NoMemory => Err(AllocError),
    }
}

/// A block, or its fault.
fn told(alloc: Global, bytes: &[u8]) -> Result<String, AllocError> {
    match parse_block(alloc, bytes) {
        Ok(block) => shown(alloc, &block),
        Err(fault) => fault_told(alloc, fault),
    }
}

/// What a text is as a block.
struct Blocks;

impl Tells for Blocks {
    fn told(&self, alloc: Global, given: &str) -> Result<String, AllocError> {
        told(alloc, given.as_bytes())
    }
}

/// Blocks, and what they are.
const BLOCKS: &str = " => none
 \t => none
%x,N: => %0LowerHex N: none
%#.8X, N : == M + 1  => %#8UpperHex N: Add(M 1)
%d, => %0Signed none
%.007u, => %7Unsigned none
%.100u,7 => %100Unsigned 7
 % u , $N: => %0Unsigned $N: none
N => N
==N => N
N:M => N: M
add => add
add:add(1,2) => add: Add(1 2)
1-2+3 => Add(Sub(1 2) 3)
1-(2+3) => Sub(1 Add(2 3))
1--2 => Sub(1 -2)
-0x1F => -31
0xfF => 255
007 => 7
@LINE+1 => Add(@LINE 1)
mul ( max(N,1) , min(2 , 3) ) => Mul(Max(N 1) Min(2 3))
div(0-7,2) => Div(Sub(0 7) 2)
sub(1,2)-$_a9 => Sub(Sub(1 2) $_a9)
-170141183460469231731687303715884105727 => -170141183460469231731687303715884105727
0x7fffffffffffffffffffffffffffffff => 170141183460469231731687303715884105727";

#[test]
fn blocks_are_read(rt: HostRuntime) -> Result<(), AllocError> {
    each_is_told(&rt, rt.alloc(), BLOCKS, &Blocks)
}

/// Blocks, and their first faults.
const FAULTS: &str = "1: => BadName 0
 1N: => BadName 1
$: => BadName 1
: => BadName 0
N M: => BadName 2
N+1: => BadName 1
%x,9 : => BadName 3
%.0u, => BadFormat 2
%.101u, => BadFormat 2
%.u, => BadFormat 2
%#u, => BadFormat 2
%#d, => BadFormat 2
%y, => BadFormat 1
% => BadFormat 1
%x => BadFormat 2
%x N: => BadFormat 3
%# x, => BadFormat 2
N+ => BadExpr 2
N+   => BadExpr 4
N  $ => BadExpr 3
$ => BadExpr 1
N+-x => BadExpr 3
- => BadExpr 1
0x => BadExpr 1
@LIN => BadExpr 0
@LINEX => BadExpr 5
foo( => BadExpr 3
add(1) => BadExpr 5
add(1,2 => BadExpr 7
(1 => BadExpr 2
1) => BadExpr 1
1,2 => BadExpr 1
1 2 => BadExpr 2
== => BadExpr 2
==  => BadExpr 3
N: == => BadExpr 5
=N => BadExpr 0
N=1 => BadExpr 1
170141183460469231731687303715884105728 => BadExpr 0
1+-170141183460469231731687303715884105728 => BadExpr 2
0x80000000000000000000000000000000 => BadExpr 0";

#[test]
fn the_first_fault_is_told_with_its_place(rt: HostRuntime) -> Result<(), AllocError> {
    each_is_told(&rt, rt.alloc(), FAULTS, &Blocks)
}

/// A name behind its offset.
fn put_named(alloc: Global, named: &PlacedName, out: &mut String) -> Result<(), AllocError> {
    let at = named.at;
    put(out, format!(in alloc; "{at} ")?.as_str())?;
    add_bytes(out, named.name.as_slice())
}

/// The names that are read, each with its offset, the defined one in brackets.
fn names_of(
    alloc: Global,
    defines: &Option<PlacedName>,
    uses: &[PlacedName],
) -> Result<String, AllocError> {
    let mut out = String::new(alloc);
    if let Some(named) = defines {
        put(&mut out, "[")?;
        put_named(alloc, named, &mut out)?;
        put(&mut out, "]")?;
    }
    for named in uses {
        put(&mut out, " ")?;
        put_named(alloc, named, &mut out)?;
    }
    Ok(out)
}

/// The names that are read, and the fault's offset.
fn names_told(alloc: Global, bytes: &[u8]) -> Result<String, AllocError> {
    let Ok(read) = read_block(alloc, bytes) else {
        return Err(AllocError);
    };
    let names = names_of(alloc, &read.defines, read.uses.as_slice())?;
    match &read.expr {
        Err(fault) => {
            let at = fault.at;
            format!(in alloc; "{names} fault {at}")
        }
        Ok(_) => Ok(names),
    }
}

/// Blocks, and the names that they tell.
const NAMES: &str = "N+ =>  0 N fault 2
A+B+ =>  0 A 2 B fault 4
 %x, D : A+max(B,A) C => [5 D] 9 A 15 B 17 A fault 20
1+A =>  2 A
%y,A =>  fault 1
A:1+A => [0 A] 4 A
A: => [0 A]";

/// The names that a block tells.
struct Names;

impl Tells for Names {
    fn told(&self, alloc: Global, given: &str) -> Result<String, AllocError> {
        names_told(alloc, given.as_bytes())
    }
}

#[test]
fn names_before_a_fault_are_told(rt: HostRuntime) -> Result<(), AllocError> {
    each_is_told(&rt, rt.alloc(), NAMES, &Names)
}

/// Numbers where N is 1.
fn one_number(alloc: Global) -> Result<Numbers, AllocError> {
    let mut numbers = Numbers::new(alloc);
    numbers.put(b"N", 1).or(Err(AllocError))?;
    Ok(numbers)
}

/// The value of an expression where N is 1, or its fault, on line 7.
fn value_of(alloc: Global, expr: &Expr) -> Result<String, AllocError> {
    let numbers = one_number(alloc)?;
    match eval(expr, &numbers, 7) {
        Ok(value) => format!(in alloc; "{value}"),
        Err(fault) => format!(in alloc; "{fault:?}"),
    }
}

/// The value of a text, or its fault.
struct Values;

impl Tells for Values {
    fn told(&self, alloc: Global, given: &str) -> Result<String, AllocError> {
        match parse_block(alloc, given.as_bytes()) {
            Ok(block) => valued(alloc, &block),
            Err(_) => String::from_str(alloc, "refused"),
        }
    }
}

fn valued(alloc: Global, block: &NumBlock) -> Result<String, AllocError> {
    match &block.expr {
        Some(expr) => value_of(alloc, expr),
        None => String::from_str(alloc, "no expression"),
    }
}

/// Expressions, and their values or faults.
const VALUES: &str = "N+1 => 2
div(0-7,2) => -3
-170141183460469231731687303715884105727-1 => -170141183460469231731687303715884105728
-170141183460469231731687303715884105727-2 => Range
170141183460469231731687303715884105727+1-1 => Range
div(1,0) => ZeroDivisor
div(1,0)+M => Undefined
@LINE+max(2,min(3,9)) => 10
mul(sub(1,3),add(2,2)) => -8";

#[test]
fn expressions_have_values_or_faults(rt: HostRuntime) -> Result<(), AllocError> {
    each_is_told(&rt, rt.alloc(), VALUES, &Values)
}

/// A front, so many copies of a text, a middle, and so many copies of another text.
fn nested(
    alloc: Global,
    front: &str,
    count: usize,
    (open, inner, close): (&str, &str, &str),
) -> Result<Vec<u8>, AllocError> {
    let mut text = Vec::from_slice(alloc, front.as_bytes())?;
    for _ in 0..count {
        text.extend_from_slice(open.as_bytes())?;
    }
    text.extend_from_slice(inner.as_bytes())?;
    for _ in 0..count {
        text.extend_from_slice(close.as_bytes())?;
    }
    Ok(text)
}

/// Whether this is told of a nest of `add(` behind a front.
fn nest_is_told(alloc: Global, front: &str, depth: usize, due: &str) -> Result<bool, AllocError> {
    let text = nested(alloc, front, depth, ("add(", "1", ",1)"))?;
    is_text(read_told(alloc, text.as_slice()), due)
}

/// Whether a block is read, or its fault.
fn read_told(alloc: Global, text: &[u8]) -> Result<String, AllocError> {
    match parse_block(alloc, text) {
        Ok(_) => String::from_str(alloc, "read"),
        Err(fault) => fault_told(alloc, fault),
    }
}

/// Whether a sum of so many ones behind a first one is read.
fn sum_is_read(alloc: Global, count: usize) -> Result<bool, AllocError> {
    let text = nested(alloc, "1", count, ("+1", "", ""))?;
    is_text(read_told(alloc, text.as_slice()), "read")
}

#[test]
fn nesting_is_bounded(rt: HostRuntime) -> Result<(), AllocError> {
    for (front, depth, due) in [
        ("", 125, "read"),
        ("", 126, "BadExpr 500"),
        ("", 250, "BadExpr 500"),
        ("", 251, "BadExpr 500"),
        ("1+", 125, "BadExpr 501"),
    ] {
        let is_told = nest_is_told(rt.alloc(), front, depth, due)?;
        assert!(rt; is_told, "{front}{depth} deep");
    }
    assert!(rt; sum_is_read(rt.alloc(), 250)?);
    assert!(rt; !sum_is_read(rt.alloc(), 251)?);
    Ok(())
}

/// Whether a text is read or refused.
fn is_answered(alloc: Global, text: &[u8]) -> bool {
    !matches!(parse_block(alloc, text), Err(NumFail::NoMemory))
}

/// Whether this is told of so many copies of a digit.
fn is_told_of(alloc: Global, digit: &str, count: usize, due: &str) -> Result<bool, AllocError> {
    let text = nested(alloc, "", count, (digit, "", ""))?;
    is_text(told(alloc, text.as_slice()), due)
}

#[test]
fn any_bytes_are_answered(rt: HostRuntime) -> Result<(), AllocError> {
    let alloc = rt.alloc();
    for first in 0..=255u8 {
        assert!(rt; is_answered(alloc, &[first]), "byte {first}");
        for second in 0..=255u8 {
            assert!(rt;
                is_answered(alloc, &[first, second]),
                "bytes {first} and {second}"
            );
        }
    }
    assert!(rt; is_told_of(alloc, "9", 40_000, "BadExpr 0")?);
    assert!(rt; is_told_of(alloc, "0", 40_000, "0")?);
    Ok(())
}
