//! Texts with their trees or their faults, and hostile texts.
use crate::rows::{Tells, each_is_told, is_text};
use ere_tree::{ByteSet, Ere, EreFail, EreFault, EreList, parse};
use std::alloc::{AllocError, Global};

/// How many bytes the set has.
fn count_of(set: &ByteSet) -> u32 {
    let mut count: u32 = 0;
    for byte in 0..=255 {
        if set.has(byte) {
            count = count.saturating_add(1);
        }
    }
    count
}

/// The bytes of the set, or how many there are of more than 13.
fn show_set(alloc: Global, set: &ByteSet, out: &mut String) -> Result<(), AllocError> {
    let count = count_of(set);
    if count > 13 {
        return put_number(alloc, "[", count, "]", out);
    }
    put(out, "[")?;
    for byte in 0..=255 {
        if set.has(byte) {
            out.push(char::from(byte))?;
        }
    }
    put(out, "]")
}

fn put(out: &mut String, text: &str) -> Result<(), AllocError> {
    out.push_str(text)
}

fn put_bytes(out: &mut String, bytes: &[u8]) -> Result<(), AllocError> {
    for byte in bytes {
        out.push(char::from(*byte))?;
    }
    Ok(())
}

fn put_bounds(
    alloc: Global,
    least: u32,
    most: Option<u32>,
    out: &mut String,
) -> Result<(), AllocError> {
    put(out, format!(in alloc; "{least}-{most:?}")?.as_str())
}

/// A number between two texts.
fn put_number(
    alloc: Global,
    front: &str,
    number: u32,
    end: &str,
    out: &mut String,
) -> Result<(), AllocError> {
    put(out, format!(in alloc; "{front}{number}{end}")?.as_str())
}

fn put_ref(alloc: Global, number: u32, fold: bool, out: &mut String) -> Result<(), AllocError> {
    put(out, format!(in alloc; "ref {number} {fold}")?.as_str())
}

#[cycle(show)]
fn show(alloc: Global, ere: &Ere, out: &mut String) -> Result<(), AllocError> {
    match ere {
        Ere::Empty => put(out, "empty"),
        Ere::Plain(run) => put_bytes(out, run.as_slice()),
        Ere::Set(set) => show_set(alloc, set, out),
        Ere::LineStart => put(out, "^"),
        Ere::LineEnd => put(out, "$"),
        Ere::Cat(parts) => show_all(alloc, "cat", parts, out),
        Ere::Alt(branches) => show_all(alloc, "alt", branches, out),
        Ere::Repeat { inner, least, most } => {
            put_bounds(alloc, *least, *most, out)?;
            show_inner(alloc, inner, out)
        }
        Ere::Group { number, inner } => {
            put_number(alloc, "#", *number, "", out)?;
            show_inner(alloc, inner, out)
        }
        Ere::Ref { number, fold } => put_ref(alloc, *number, *fold, out),
    }
}

#[cycle(show)]
fn show_inner(alloc: Global, ere: &Ere, out: &mut String) -> Result<(), AllocError> {
    put(out, "(")?;
    show(alloc, ere, out)?;
    put(out, ")")
}

#[cycle(show)]
fn show_all(alloc: Global, name: &str, list: &EreList, out: &mut String) -> Result<(), AllocError> {
    put(out, name)?;
    put(out, "(")?;
    for one in list.as_slice() {
        put(out, " ")?;
        show(alloc, one, out)?;
    }
    put(out, " )")
}

/// A tree as a text.
pub(crate) fn shown(alloc: Global, ere: &Ere) -> Result<String, AllocError> {
    let mut out = String::new(alloc);
    show(alloc, ere, &mut out)?;
    Ok(out)
}

/// The tree of a text, or its fault.
fn told(alloc: Global, text: &[u8], fold: bool) -> Result<String, AllocError> {
    match parse(alloc, text, fold) {
        Ok(ere) => shown(alloc, &ere),
        Err(EreFail::Bad(EreFault { at, kind })) => format!(in alloc; "{kind:?} {at}"),
        Err(EreFail::NoMemory) => Err(AllocError),
    }
}

/// A text and its tree in each line.
const READ: &str = " => empty
() => #1(empty)
a{x => a{x
{ => {
{a}]} => {a}]}
ab => ab
ab* => cat( a 0-None(b) )
a*b+c? => cat( 0-None(a) 1-None(b) 0-Some(1)(c) )
a{2}b{2,}c{0,255} => cat( 2-Some(2)(a) 2-None(b) 0-Some(255)(c) )
a{007} => 7-Some(7)(a)
a|b => alt( a b )
a|b|c => alt( a b c )
(a|b)c => cat( #1(alt( a b )) c )
(a)(b(c))(d) => cat( #1(a) #2(cat( b #3(c) )) #4(d) )
(a)* => 0-None(#1(a))
()* => 0-None(#1(empty))
(a)\\1 => cat( #1(a) ref 1 false )
(a)\\1{2}b => cat( #1(a) 2-Some(2)(ref 1 false) b )
^a$ => cat( ^ a $ )
a\\.b\\*\\0 => a.b*0
\\\\* => 0-None(\\)
.a => cat( [255] a )
[^a] => [254]
[]a-] => [-]a]
[^]a] => [253]
[a-c-e] => [-abce]
[a-c--0] => [-./0abc]
[--/] => [-./]
[[:digit:]-] => [-0123456789]
[[:digit:]x] => [0123456789x]
[[:xdigit:][:punct:]] => [54]
[a[:] => [:[a]
[a\\] => [\\a]
[X-[] => [XYZ[]
[[:al]b => cat( [:[al] b )
(a{248}){250}(b{248}){149}c{247} => cat( 250-Some(250)(#1(248-Some(248)(a))) 149-Some(149)(#2(248-Some(248)(b))) 247-Some(247)(c) )";

/// A text and its fault in each line.
const REFUSED: &str = "a{2,1} => BadBound 1
(|a) => EmptyAlternative 1
a** => RepeatOfNothing 2
[[.a.]] => UnsupportedBracket 1
\\1(a) => BadReference 0
a) => StrayClose 1
[^[:digit:]-z] => BadRange 2
a|) => StrayClose 2
a| => EmptyAlternative 2
a||b => EmptyAlternative 2
| => EmptyAlternative 0
(a|) => EmptyAlternative 3
(a| => UnclosedGroup 0
( => UnclosedGroup 0
(a(b)(c => UnclosedGroup 5
(a** => RepeatOfNothing 3
{2} => RepeatOfNothing 0
^* => RepeatOfNothing 1
(*a) => RepeatOfNothing 1
a|*b => RepeatOfNothing 2
a{1}{2} => RepeatOfNothing 4
a{256} => BadBound 1
a{4294967297} => BadBound 1
a{2 => BadBound 1
a{2,x} => BadBound 1
a{2,3x => BadBound 1
{256} => BadBound 0
a){2,1} => StrayClose 1
(a\\1) => BadReference 2
(a)\\2 => BadReference 3
a\\ => TrailingBackslash 1
a[b => UnclosedBracket 1
[] => UnclosedBracket 0
[^] => UnclosedBracket 0
[[:digit:] => UnclosedBracket 0
[a- => UnclosedBracket 0
[z-a] => BadRange 1
[a-[:digit:]] => BadRange 1
[a--] => BadRange 1
[b[:word:]] => UnknownClass 2
[a-[:w:]] => BadRange 1
[[:w:]-z] => BadRange 1
[[::]] => UnknownClass 1
[a-[=a=]] => UnsupportedBracket 3
(a{248}){250}(b{248}){149}c{247}d => TooLarge 0
((a{255}){255}){255} => TooLarge 0
((a{255}){255}){255}( => UnclosedGroup 20";

/// The tree of a text, or its fault; in it letters may match in either case.
struct Read {
    fold: bool,
}

impl Tells for Read {
    fn told(&self, alloc: Global, given: &str) -> Result<String, AllocError> {
        told(alloc, given.as_bytes(), self.fold)
    }
}

/// A text and its tree where letters match in either case in each line.
const READ_IN_EITHER_CASE: &str = "a => [Aa]
1a2 => cat( 1 [Aa] 2 )
12 => 12
\\a* => 0-None([Aa])
[a-c]1 => cat( [ABCabc] 1 )
[[:lower:]-] => [53]
[^a] => [253]
.z => cat( [255] [Zz] )
(b)\\1 => cat( #1([Bb]) ref 1 true )
@[@[`{]{ => cat( @ [@[`{] { )
a{2,1} => BadBound 1";

#[test]
fn texts_are_read_as_their_trees(rt: HostRuntime) -> Result<(), AllocError> {
    each_is_told(&rt, rt.alloc(), READ, &Read { fold: false })
}

#[test]
fn letters_are_read_in_either_case(rt: HostRuntime) -> Result<(), AllocError> {
    each_is_told(&rt, rt.alloc(), READ_IN_EITHER_CASE, &Read { fold: true })
}

/// The tree of a text, changed so that letters match in either case.
struct Folded;

impl Tells for Folded {
    fn told(&self, alloc: Global, given: &str) -> Result<String, AllocError> {
        let Ok(ere) = parse(alloc, given.as_bytes(), false) else {
            return String::from_str(alloc, "refused");
        };
        let folded = ere.folded(alloc)?;
        shown(alloc, &folded)
    }
}

/// A text and its changed tree in each line.
const FOLDED: &str = "a => [Aa]
ab-1 => cat( [Aa] [Bb] -1 )
12 => 12
^[a-c]|(Z)*$ => alt( cat( ^ [ABCabc] ) cat( 0-None(#1([Zz])) $ ) )
[^a] => [255]
(a)\\1 => cat( #1([Aa]) ref 1 true )
() => #1(empty)";

#[test]
fn an_expression_is_changed_to_either_case(rt: HostRuntime) -> Result<(), AllocError> {
    each_is_told(&rt, rt.alloc(), FOLDED, &Folded)
}

/// So many copies of a piece of text.
fn repeated(alloc: Global, piece: &str, count: usize) -> Result<String, AllocError> {
    let mut text = String::new(alloc);
    for _ in 0..count {
        text.push_str(piece)?;
    }
    Ok(text)
}

/// The number of groups of a text, and its size; nothing of one that is refused.
fn measured(alloc: Global, text: &[u8], fold: bool) -> Option<(u32, u64)> {
    let ere = parse(alloc, text, fold).ok()?;
    Some((ere.groups(), ere.size()))
}

/// The number of groups of so many copies of a text.
fn groups_of(alloc: Global, piece: &str, count: usize) -> Option<u32> {
    let text = repeated(alloc, piece, count).ok()?;
    let (groups, _) = measured(alloc, text.as_bytes(), false)?;
    Some(groups)
}

/// The size of so many copies of a text, with another text behind them.
fn size_of(alloc: Global, piece: &str, count: usize, end: &str, fold: bool) -> Option<u64> {
    let mut text = repeated(alloc, piece, count).ok()?;
    text.push_str(end).ok()?;
    let (_, size) = measured(alloc, text.as_bytes(), fold)?;
    Some(size)
}

#[test]
fn long_expressions_are_read(rt: HostRuntime) {
    let alloc = rt.alloc();
    assert!(rt; groups_of(alloc, "(a)", 1_000) == Some(1_000));
    assert!(rt; size_of(alloc, "a*", 2_000, "", true) == Some(4_000));
    assert!(rt; size_of(alloc, "ab|", 2_000, "c", false) == Some(4_002));
}

#[test]
fn the_first_fault_is_told_with_its_place(rt: HostRuntime) -> Result<(), AllocError> {
    each_is_told(&rt, rt.alloc(), REFUSED, &Read { fold: false })
}

/// Whether this is told of so many copies of a text.
fn is_told_of(alloc: Global, piece: &str, count: usize, due: &str) -> Result<bool, AllocError> {
    is_text(told_of(alloc, piece, count), due)
}

/// The tree of so many copies of a text, or its fault.
fn told_of(alloc: Global, piece: &str, count: usize) -> Result<String, AllocError> {
    let text = repeated(alloc, piece, count)?;
    told(alloc, text.as_bytes(), false)
}

/// A letter in so many groups.
fn nest(alloc: Global, depth: usize) -> Result<String, AllocError> {
    let mut text = repeated(alloc, "(", depth)?;
    text.push('a')?;
    for _ in 0..depth {
        text.push(')')?;
    }
    Ok(text)
}

/// Whether a letter in so many groups is read.
fn nest_is_read(alloc: Global, depth: usize) -> Result<bool, AllocError> {
    let text = nest(alloc, depth)?;
    Ok(is_read(alloc, text.as_bytes()))
}

fn is_read(alloc: Global, text: &[u8]) -> bool {
    parse(alloc, text, false).is_ok()
}

/// Reads a byte, and each pair of bytes that begins with it.
fn read_pairs(alloc: Global, first: u8) {
    let _one = is_read(alloc, &[first]);
    for second in 0..=255 {
        let _pair = is_read(alloc, &[first, second]);
    }
}

#[test]
fn hostile_texts_are_answered(rt: HostRuntime) -> Result<(), AllocError> {
    let alloc = rt.alloc();
    assert!(rt; is_told_of(alloc, "(", 100_000, "TooDeep 250")?);
    assert!(rt; nest_is_read(alloc, 250)?);
    assert!(rt; is_told_of(alloc, "[", 65_536, "UnclosedBracket 0")?);
    for first in 0..=255 {
        read_pairs(alloc, first);
    }
    Ok(())
}
