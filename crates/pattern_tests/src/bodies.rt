//! Bodies with their pieces or first refusals, what they make known, and hostile bodies.
use crate::rows::{Tells, each_is_told, is_text, is_told, no_row};
use num_base::{Format, FormatKind};
use pattern_parse::{
    BodyRules, Demand, Formats, Frame, LineRule, PatFail, PatFault, PatKind, Pattern, Piece, Role,
    parse_pattern,
};
use std::alloc::{AllocError, Global};
use tt_base::NoMemory;

fn format(kind: FormatKind) -> Format {
    Format {
        kind,
        alternate: false,
        digits: 0,
    }
}

/// The rules of a body that is plain text alone or not, of a directive with this role and this line rule.
fn rules_of(role: Role, rule: LineRule, literal: bool) -> BodyRules {
    BodyRules {
        demand: Demand {
            role,
            rule,
            times: 1,
        },
        literal,
        fold: false,
        frame: Frame::Open,
    }
}

fn plain_rules() -> BodyRules {
    rules_of(Role::Sought, LineRule::Any, false)
}

/// The formats of two numbers: A is hexadecimal, B is decimal.
fn two_known(alloc: Global) -> Result<Formats, NoMemory> {
    let mut known = Formats::new(alloc);
    known.put(b"A", format(FormatKind::LowerHex))?;
    known.put(b"B", format(FormatKind::Unsigned))?;
    Ok(known)
}

fn add_bytes(out: &mut String, bytes: &[u8]) -> Result<(), AllocError> {
    for byte in bytes {
        out.push(char::from(*byte))?;
    }
    out.push(';')
}

fn put(out: &mut String, text: &str) -> Result<(), AllocError> {
    out.push_str(text)
}

/// A piece: its kind, and its text, name or format.
fn show_piece(alloc: Global, out: &mut String, piece: &Piece) -> Result<(), AllocError> {
    match piece {
        Piece::Plain(text) => add_bytes(out, text.as_slice()),
        Piece::Regex(ere) => show_groups(alloc, out, "regex", ere.groups(), ";"),
        Piece::Define { name, ere } => {
            show_groups(alloc, out, "define", ere.groups(), " ")?;
            add_bytes(out, name.as_slice())
        }
        Piece::Recall { name } => {
            put(out, "recall ")?;
            add_bytes(out, name.as_slice())
        }
        Piece::Num { block, format } => {
            let name = block.defines.as_ref().map(|name| name.as_slice());
            show_num(alloc, out, format.kind, block.expr.is_some(), name)
        }
    }
}

/// A word, and how many groups an expression has.
fn show_groups(
    alloc: Global,
    out: &mut String,
    word: &str,
    groups: u32,
    end: &str,
) -> Result<(), AllocError> {
    put(out, format!(in alloc; "{word} {groups}{end}")?.as_str())
}

/// A kind of format, whether a value is asked for, and the defined name.
fn show_num(
    alloc: Global,
    out: &mut String,
    kind: FormatKind,
    value: bool,
    name: Option<&[u8]>,
) -> Result<(), AllocError> {
    put(out, format!(in alloc; "{kind:?} {value} ")?.as_str())?;
    add_bytes(out, name.unwrap_or(b""))
}

/// The pieces of a pattern.
fn shown(alloc: Global, pattern: &Pattern) -> Result<String, AllocError> {
    let mut out = String::new(alloc);
    for piece in pattern.pieces.as_slice() {
        show_piece(alloc, &mut out, piece)?;
    }
    Ok(out)
}

/// A refusal and its place; of a bad regular expression without its fault.
fn refusal(alloc: Global, fault: PatFault) -> Result<String, AllocError> {
    let at = fault.at;
    match fault.kind {
        PatKind::BadRegex(_) => format!(in alloc; "BadRegex {at}"),
        kind => format!(in alloc; "{kind:?} {at}"),
    }
}

/// The pieces of a body, or its first refusal.
fn told_of(
    alloc: Global,
    body: &[u8],
    rules: &BodyRules,
    known: &mut Formats,
) -> Result<String, AllocError> {
    match parse_pattern(alloc, body, rules, known) {
        Ok(pattern) => shown(alloc, &pattern),
        Err(PatFail::Bad(fault)) => refusal(alloc, fault),
        Err(PatFail::NoMemory) => Err(AllocError),
    }
}

/// The same where A is hexadecimal and B is decimal.
fn told(alloc: Global, body: &[u8], rules: &BodyRules) -> Result<String, AllocError> {
    let mut known = two_known(alloc).or(Err(AllocError))?;
    told_of(alloc, body, rules, &mut known)
}

/// What a body is read as by these rules.
#[derive(Drop)]
struct Bodies(BodyRules);

impl Tells for Bodies {
    fn told(&self, alloc: Global, given: &str) -> Result<String, AllocError> {
        told(alloc, given.as_bytes(), &self.0)
    }
}

/// Bodies and their pieces.
const PIECES: &str = " => 
a[b]]{c}} => a[b]]{c}};
[[[X]]] => [;recall X;];
[[[[X]] => [[;recall X;
a{{b}}c => a;regex 0;c;
{{}}{{(a)}}} => regex 0;regex 1;};
{{(a{2})}} => regex 1;
{{[[X]]}} => regex 0;
%[[R:[a-z]+]] = %[[R]] => %;define 0 R; = %;recall R;
[[X:]] => define 0 X;
[[X:[a]]]]] => define 0 X;]];
[[X:(\\])b]] => define 1 X;
[[$X_1:a]] => define 0 $X_1;
[[#%x,N:]] => LowerHex false N;
[[#N+1]] => Unsigned true ;
[[#A+1]] [[#%X,A]] => LowerHex true ; ;UpperHex true ;
[[#%d,N:A+B]] => Signed true N;
[[#]][[#%x,]] => Unsigned false ;LowerHex false ;
[[@LINE]][[@LINE+2]][[@LINE-007]] => Unsigned true ;Unsigned true ;Unsigned true ;
[[X:a]][[#X]] => define 0 X;Unsigned true ;
[[#N:]][[#N:]] => Unsigned false N;Unsigned false N;";

#[test]
fn bodies_are_read_as_pieces(rt: HostRuntime) -> Result<(), AllocError> {
    each_is_told(&rt, rt.alloc(), PIECES, &Bodies(plain_rules()))
}

/// Bodies and their first refusals.
const REFUSALS: &str = "{{a => NoRegexEnd 0
a{{b} => NoRegexEnd 1
[[X:[a] => NoBlockEnd 0
a[[X] ]] => NoBlockEnd 1
[[X\\ => NoBlockEnd 0
[[1X]] => BadName 2
[[]] => BadName 2
[[$]] => BadName 3
[[X+1]] => BadName 3
[[@X]] => BadName 2
[[#1:]] => BadName 3
[[#%y,N:]] => BadFormat 4
[[#%#u,N:]] => BadFormat 5
[[#%.101x,]] => BadFormat 5
[[#N+]] => BadExpr 5
[[#==]] => BadExpr 5
[[@LINE*2]] => BadExpr 7
[[@LINE+]] => BadExpr 8
[[@LINE+ 1]] => BadExpr 8
[[@LINE+1a]] => BadExpr 9
[[#A+B]] => FormatConflict 5
[[#A+B+]] => FormatConflict 5
[[#N:N]] => SameLineNumber 5
[[#N:]][[#1+N]] => SameLineNumber 12
[[#N+1]][[#N:]] => SameLineNumber 11
[[#N:]][[#N+]] => SameLineNumber 10
[[1X]]{{a => BadName 2
{{a)}} => BadRegex 3
{{a{2}}} => BadRegex 3
ab[[X:(|a)]] => BadRegex 7
[[X:[]]] => BadRegex 4";

#[test]
fn the_first_refusal_is_told_with_its_place(rt: HostRuntime) -> Result<(), AllocError> {
    each_is_told(&rt, rt.alloc(), REFUSALS, &Bodies(plain_rules()))
}

/// The frame that an empty body gets, and whether letters match in either case in it.
fn frame_of(alloc: Global, rules: &BodyRules) -> Option<(Frame, bool)> {
    let mut known = Formats::new(alloc);
    match parse_pattern(alloc, b"", rules, &mut known) {
        Ok(pattern) => Some((pattern.frame, pattern.fold)),
        Err(_) => None,
    }
}

/// Bodies of labels.
const LABELS: &str = "[[X]] => VariableInLabel 0
a[[X => VariableInLabel 1
a{{b}} => a;regex 0;";

#[test]
fn roles_and_line_rules_decide_what_a_body_may_hold(rt: HostRuntime) -> Result<(), AllocError> {
    let label = Bodies(rules_of(Role::Label, LineRule::Any, false));
    each_is_told(&rt, rt.alloc(), LABELS, &label)?;
    for (role, rule, literal, row) in [
        (Role::Sought, LineRule::Any, true, "{{a[[X => {{a[[X;"),
        (Role::Label, LineRule::Any, true, "[[X]] => [[X]];"),
        (Role::Sought, LineRule::Empty, false, " => ;"),
        (Role::Excluded, LineRule::Any, false, "{{a => NoRegexEnd 0"),
    ] {
        let bodies = Bodies(rules_of(role, rule, literal));
        assert!(rt; is_told(rt.alloc(), row, &bodies)?, "{row}");
    }
    let mut twice = plain_rules();
    twice.demand.times = 2;
    each_is_told(&rt, rt.alloc(), "[[X]] => recall X;", &Bodies(twice))
}

#[test]
fn a_not_and_an_empty_line_have_no_frame(rt: HostRuntime) -> Result<(), AllocError> {
    for (role, rule, due) in [
        (Role::Sought, LineRule::Next, Frame::Tight),
        (Role::Excluded, LineRule::Any, Frame::Open),
        (Role::Sought, LineRule::Empty, Frame::Open),
    ] {
        let mut rules = rules_of(role, rule, false);
        rules.fold = true;
        rules.frame = Frame::Tight;
        assert!(rt;
            frame_of(rt.alloc(), &rules) == Some((due, true)),
            "{due:?}"
        );
    }
    Ok(())
}

/// Whether a name is known, and of this format.
fn has(known: &Formats, name: &[u8], kind: FormatKind) -> bool {
    known.get(name) == Some(format(kind))
}

/// Whether the body of a row is read so; what it makes known is kept.
fn is_told_by(alloc: Global, known: &mut Formats, row: &str) -> Result<bool, AllocError> {
    match row.split_once(" => ") {
        Some((body, due)) => {
            is_text(told_of(alloc, body.as_bytes(), &plain_rules(), known), due)
        }
        None => Ok(false),
    }
}

/// Formats where N is hexadecimal.
fn one_known(alloc: Global) -> Result<Formats, AllocError> {
    let mut known = Formats::new(alloc);
    known
        .put(b"N", format(FormatKind::LowerHex))
        .or(Err(AllocError))?;
    Ok(known)
}

const MAKES_NOTHING_KNOWN: &str = "[[#%X,N:]][[#%d,M:]][[#M]] => SameLineNumber 23";

const MAKES_TWO_KNOWN: &str =
    "[[#M:N]] [[#%d,L:]] [[#%X,L:]] => LowerHex true M; ;Signed false L; ;UpperHex false L;";

#[test]
fn formats_are_known_from_then_on(rt: HostRuntime) -> Result<(), AllocError> {
    let mut known = one_known(rt.alloc())?;
    assert!(rt; has(&known, b"N", FormatKind::LowerHex) && known.get(b"M").is_none());
    assert!(rt; is_told_by(rt.alloc(), &mut known, MAKES_NOTHING_KNOWN)?);
    assert!(rt; has(&known, b"N", FormatKind::LowerHex) && known.get(b"M").is_none());
    assert!(rt; is_told_by(rt.alloc(), &mut known, MAKES_TWO_KNOWN)?);
    assert!(rt; has(&known, b"M", FormatKind::LowerHex));
    assert!(rt; has(&known, b"L", FormatKind::UpperHex));
    Ok(())
}

/// The given fields of a row: a text between two others, and how often it stands there.
fn fields(given: &str) -> Option<(&str, &str, &str, usize)> {
    let (front, rest) = given.split_once(" => ")?;
    let (text, rest) = rest.split_once(" => ")?;
    let (end, count) = rest.split_once(" => ")?;
    Some((front, text, end, count.parse().ok()?))
}

/// So many copies of a text between two others.
fn repeated(
    alloc: Global,
    front: &str,
    text: &str,
    count: usize,
    end: &str,
) -> Result<Vec<u8>, AllocError> {
    let mut body = Vec::from_slice(alloc, front.as_bytes())?;
    for _ in 0..count {
        body.extend_from_slice(text.as_bytes())?;
    }
    body.extend_from_slice(end.as_bytes())?;
    Ok(body)
}

/// How many pieces a body has, or its first refusal.
fn counted(alloc: Global, body: &[u8]) -> Result<String, AllocError> {
    let mut known = Formats::new(alloc);
    match parse_pattern(alloc, body, &plain_rules(), &mut known) {
        Ok(pattern) => {
            let count = pattern.pieces.as_slice().len();
            format!(in alloc; "{count} pieces")
        }
        Err(PatFail::Bad(fault)) => refusal(alloc, fault),
        Err(PatFail::NoMemory) => Err(AllocError),
    }
}

/// How many pieces the body has that a row spells, or its first refusal.
struct Counts;

impl Tells for Counts {
    fn told(&self, alloc: Global, given: &str) -> Result<String, AllocError> {
        let Some((front, text, end, count)) = fields(given) else {
            return no_row(alloc);
        };
        let body = repeated(alloc, front, text, count, end)?;
        counted(alloc, body.as_slice())
    }
}

/// A front, a text that is repeated, an end, how often, and the pieces or the refusal.
const RECALLED: &str = " => [[X:a]][[X]] => [[X]][[Y]][[X:a]] => 9 => 21 pieces
 => [[X:a]][[X]] =>  => 10 => TooManyReferences 0
 => [[X:a]][[X]] => {{a => 10 => NoRegexEnd 120";

#[test]
fn at_most_nine_definitions_are_recalled(rt: HostRuntime) -> Result<(), AllocError> {
    each_is_told(&rt, rt.alloc(), RECALLED, &Counts)
}

const HOSTILE: &str = " => [[ =>  => 32768 => NoBlockEnd 65534
 => {{ =>  => 32768 => NoRegexEnd 0
 => [[X:( =>  => 13107 => NoBlockEnd 0
 => [[X]] =>  => 32768 => TooLong 0
 => a =>  => 65537 => TooLong 0
[[# => add( => ]] => 126 => BadExpr 503
[[# => add( => ]] => 251 => BadExpr 503
[[# => 9 => ]] => 40000 => BadExpr 3
[[@LINE+ => 9 => ]] => 40000 => BadExpr 8
 => [[X]] => a => 13107 => 13108 pieces
[[@LINE+ => 0 => 7]] => 40000 => 1 pieces
 => a =>  => 65536 => 1 pieces";

#[test]
fn hostile_bodies_are_answered(rt: HostRuntime) -> Result<(), AllocError> {
    each_is_told(&rt, rt.alloc(), HOSTILE, &Counts)
}

/// Whether a body is read.
fn is_read(alloc: Global, body: &[u8], known: &mut Formats) -> bool {
    parse_pattern(alloc, body, &plain_rules(), known).is_ok()
}

/// Whether a body is read or refused.
fn is_answered(alloc: Global, body: &[u8], known: &mut Formats) -> bool {
    let told = parse_pattern(alloc, body, &plain_rules(), known);
    !matches!(told, Err(PatFail::NoMemory))
}

#[test]
fn any_two_bytes_are_answered(rt: HostRuntime) -> Result<(), AllocError> {
    let mut known = Formats::new(rt.alloc());
    for first in 0..=255u8 {
        for second in 0..=255u8 {
            let is_read = is_read(rt.alloc(), &[first, second], &mut known);
            let begun = first == second && (first == b'[' || first == b'{');
            assert!(rt; is_read != begun, "bytes {first} and {second}");
            let block = [b'[', b'[', first, second, b']', b']'];
            assert!(rt;
                is_answered(rt.alloc(), &block, &mut known),
                "the block of bytes {first} and {second}"
            );
        }
        assert!(rt; is_read(rt.alloc(), &[first], &mut known), "byte {first}");
        let is_read = is_read(rt.alloc(), &[b'[', b'[', first, b']', b']'], &mut known);
        let named = first.is_ascii_alphabetic() || first == b'_' || first == b'#';
        assert!(rt; is_read == named, "the block of byte {first}");
    }
    Ok(())
}
