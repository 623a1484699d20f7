//! Bracket expressions.
ghost use Rattle.std.specs.Prelude.{◌≡◌, ◌≤◌, ◌<◌, ◌+◌, ◌^◌, ◌&&◌, not, true, false, IfOk, IfErr, IfSome, IsTrue, length, drop};
ghost use Rattle.std.specs.Int.{is_in_range};
ghost use Rattle.ere_tree.specs.Bracket.{name_len, class_len, element, element_len, begins_range, range, alone, member, members, bracket, GivesTest, as_bytes, as_bracket};
ghost use Rattle.ere_tree.specs.Case.{bracket_bytes};
ghost use Rattle.ere_tree.specs.Front.{begins};
ghost use Rattle.ere_tree.specs.Bytes.{HasBytes};
ghost use Rattle.ere_tree.specs.View.{has_bit, members_of};

use crate::byte_set::ByteSet;
use crate::classes::class;
use crate::fault::{EreFault, EreKind};
use crate::front::{begins, behind};

/// A bracket: the bytes of its members, and whether it stands for the others.
#[derive(Clone, Copy, Debug, PartialEq, Eq)]
pub(crate) struct Bracket {
    pub(crate) negated: bool,
    pub(crate) members: ByteSet,
}

impl Bracket {
    /// The bytes that the bracket stands for. With `fold` its letters are in both cases.
    pub(crate) fn bytes(&self, fold: bool) -> ByteSet
        ensures { members_of result.bits
            ≡ bracket_bytes fold self.now.negated (members_of self.now.members.bits) }
    {
        let all = if fold {
            self.members.both_cases()
        } else {
            self.members
        };
        if self.negated { all.others() } else { all }
    }
}

/// What a text begins with inside a bracket.
#[derive(Clone, Copy, Debug, PartialEq, Eq)]
pub(crate) enum Element {
    Byte(u8),
    /// A class whose name is of so many bytes.
    Class(usize),
    /// `[.` or `[=`.
    Unsupported,
}

/// How many bytes at the front of the text are neither `:` nor `]`.
fn name_length(text: &[u8]) -> usize
    ensures exact { result ≡ name_len text.now }
    ensures within { result ≤ length text.now }
{
    for (index, byte) in text.iter().enumerate() {
        if *byte == b':' || *byte == b']' {
            return index;
        }
    }
    text.len()
}

/// How long the name of the class is that the text begins with.
#[tactic(auto, unfolding(crate::specs::Bracket::class_len))]
fn class_length(text: &[u8]) -> Option<usize>
    ensures exact { result ≡ class_len text.now }
    ensures within { IfSome result (λ count. count + 4 ≤ length text.now) }
{
    if !begins(text, b'[') || !begins(behind(text, 1), b':') {
        return None;
    }
    let count = name_length(behind(text, 2));
    let rest = behind(text, count + 2);
    if begins(rest, b':') && begins(behind(rest, 1), b']') {
        Some(count)
    } else {
        None
    }
}

#[tactic(auto, unfolding(crate::specs::Bracket::element))]
fn element_at(text: &[u8]) -> Element
    requires { 0 < length text.now }
    ensures exact { result ≡ element text.now }
    ensures within { element_len result ≤ length text.now }
{
    if begins(text, b'[') && (begins(behind(text, 1), b'.') || begins(behind(text, 1), b'=')) {
        return Element::Unsupported;
    }
    match class_length(text) {
        Some(count) => Element::Class(count),
        None => Element::Byte(text[0]),
    }
}

fn length_of(element: Element) -> usize
    requires { element_len element < 2 ^ 64 }
    ensures { result ≡ element_len element }
{
    match element {
        Element::Byte(_) => 1,
        Element::Class(count) => count + 4,
        Element::Unsupported => 2,
    }
}

/// Whether the text goes on with a `-` and an end of a range.
#[tactic(auto, unfolding(crate::specs::Bracket::begins_range))]
fn range_begins(text: &[u8]) -> bool
    ensures exact { result ≡ begins_range text.now }
    ensures some { IsTrue result → 1 < length text.now }
{
    begins(text, b'-') && text.len() > 1 && !begins(behind(text, 1), b']')
}

fn refused(at: usize, kind: EreKind) -> EreFault
    ensures { result ≡ record { at = at; kind = kind } }
{
    EreFault { at, kind }
}

/// The set of the bytes from `low` to `high`.
fn span(low: u8, high: u8) -> ByteSet
    requires { low ≤ high }
    ensures { HasBytes result.bits (is_in_range low high) }
{
    let mut set = ByteSet::empty();
    set.insert_range(low, high);
    set
}

/// The range between two ends.
fn range_of(low: Element, high: Element) -> Result<(ByteSet, usize), EreFault>
    ensures exact { GivesTest result (range low high) }
    ensures taken { IfOk result (λ found. found.1 ≡ 3) }
    ensures place { IfErr result (λ fault. fault.at ≤ 2) }
{
    match (low, high) {
        (Element::Byte(low), Element::Byte(high)) => {
            if low <= high {
                Ok((span(low, high), 3))
            } else {
                Err(refused(0, EreKind::BadRange))
            }
        }
        (Element::Byte(_), Element::Class(_)) => Err(refused(0, EreKind::BadRange)),
        (Element::Byte(_), Element::Unsupported) => Err(refused(2, EreKind::UnsupportedBracket)),
        (Element::Class(_), _) => Err(refused(0, EreKind::BadRange)),
        (Element::Unsupported, _) => Err(refused(0, EreKind::UnsupportedBracket)),
    }
}

/// The member that the text begins with, where it is no range.
#[tactic(auto, using(crate::proofs::BracketLemmas::class_known, crate::proofs::BracketLemmas::class_unknown))]
fn single(text: &[u8], element: Element) -> Result<(ByteSet, usize), EreFault>
    requires { element_len element ≤ length text.now }
    ensures exact { GivesTest result (alone text.now element) }
    ensures taken { IfOk result (λ found. found.1 ≡ element_len element) }
    ensures place { IfErr result (λ fault. fault.at ≡ 0) }
{
    match element {
        Element::Byte(byte) => Ok((span(byte, byte), 1)),
        Element::Class(count) => match class(behind(text, 2).split_at(count).0) {
            Some(set) => Ok((set, count + 4)),
            None => Err(refused(0, EreKind::UnknownClass)),
        },
        Element::Unsupported => Err(refused(0, EreKind::UnsupportedBracket)),
    }
}

/// The member at the front of the text, and its length.
#[tactic(auto, unfolding(crate::specs::Bracket::member))]
fn member_at(text: &[u8]) -> Result<(ByteSet, usize), EreFault>
    requires { 0 < length text.now }
    ensures exact { GivesTest result (member text.now) }
    ensures some { IfOk result (λ found. 0 < found.1) }
    ensures within { IfOk result (λ found. found.1 ≤ length text.now) }
    ensures place { IfErr result (λ fault. fault.at < length text.now) }
{
    let first = element_at(text);
    let rest = behind(text, length_of(first));
    if range_begins(rest) {
        range_of(first, element_at(behind(rest, 1)))
    } else {
        single(text, first)
    }
}

/// Whether the bracket ends here. Its first member may be a `]`.
fn closes(text: &[u8], first: bool) -> bool
    ensures exact { result ≡ (begins 93 text.now && not first) }
    ensures some { IsTrue result → 0 < length text.now }
{
    begins(text, b']') && !first
}

/// The bytes of the members that begin at an offset, and the length up to the `]` behind them.
fn members_at(text: &[u8], start: usize) -> Result<(ByteSet, usize), EreFault>
    requires { start ≤ length text.now }
    ensures exact { as_bytes result ≡ members (λ _. false) true start 0 (drop start text.now) }
    ensures some { IfOk result (λ found. 0 < found.1) }
    ensures within { IfOk result (λ found. found.1 ≤ length text.now) }
    ensures place { 0 < length text.now → IfErr result (λ fault. fault.at < length text.now) }
{
    let mut set = ByteSet::empty();
    let mut first = true;
    let mut at = start;
    while at < text.len() {
        let rest = behind(text, at);
        if closes(rest, first) {
            return Ok((set, at + 1));
        }
        match member_at(rest) {
            Ok((found, taken)) => {
                set.union(&found);
                first = false;
                at += taken;
            }
            Err(fault) => {
                return Err(EreFault {
                    at: at + fault.at,
                    kind: fault.kind,
                });
            }
        }
    }
    Err(refused(0, EreKind::UnclosedBracket))
}

/// The bracket that the text begins with, and its length.
#[tactic(auto, unfolding(crate::specs::Bracket::bracket))]
pub(crate) fn bracket_at(text: &[u8]) -> Result<(Bracket, usize), EreFault>
    requires { 0 < length text.now }
    ensures exact { as_bracket result ≡ bracket text.now }
    ensures some { IfOk result (λ found. 0 < found.1) }
    ensures within { IfOk result (λ found. found.1 ≤ length text.now) }
    ensures place { IfErr result (λ fault. fault.at < length text.now) }
{
    let negated = begins(behind(text, 1), b'^');
    match members_at(text, if negated { 2 } else { 1 }) {
        Ok((members, count)) => Ok((Bracket { negated, members }, count)),
        Err(fault) => Err(fault),
    }
}
