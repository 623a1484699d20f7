//! The parser of expressions.
ghost use Rattle.std.specs.Prelude.{◌≡◌, ◌≤◌, ◌==◌, IfOk, OnOk};
ghost use Rattle.std.specs.List.{list_any};
ghost use Rattle.ere_tree.specs.Grammar.{atom_tree, sized, tree_read, reading, Reads};
ghost use Rattle.ere_tree.specs.Place.{is_open, refusal, refusal_at_end};
ghost use Rattle.ere_tree.specs.Levels.{state, place_of, beginning_levels, item_taken, opened, closed, taken, tree_of};
ghost use Rattle.ere_tree.specs.Productions.{IsEre};
ghost use Rattle.ere_tree.specs.Shape.{size_of};
ghost use Rattle.ere_tree.specs.Tree.{Tree};
ghost use Rattle.ere_tree.specs.TokenView.{atom_view, token_view};
ghost use Rattle.ere_tree.specs.View.{view};

use crate::bound::Bound;
use crate::case::{is_folded, letter};
use crate::ere::{ByteRun, Ere};
use crate::fault::{EreFail, EreFault, EreKind};
use crate::front::behind;
use crate::level::{Last, Level, repeat};
use crate::token::{Atom, Token, token_at};
use std::alloc::{AllocError, Global};
use std::mem;

/// How deep groups may be nested.
pub const MAX_DEPTH: usize = 250;

/// How large an expression may be.
pub const MAX_SIZE: u64 = 100_000;

/// What has been read: how many groups began, the level at hand, and the levels round it, innermost last.
#[derive(Drop)]
struct Reader {
    groups: u32,
    inner: Level,
    outer: Vec<Level>,
}

/// The expression of an atom.
fn atom_ere(alloc: Global, atom: Atom, fold: bool) -> Result<Ere, AllocError>
    ensures { IfOk result (λ ere. view ere ≡ atom_tree fold (atom_view atom)) }
{
    match atom {
        Atom::Byte(byte) if is_folded(fold, byte) => Ok(Ere::Set(letter(byte))),
        Atom::Byte(byte) => {
            let mut bytes = Vec::new(alloc);
            bytes.push(byte)?;
            Ok(Ere::Plain(ByteRun::from_vec(bytes)))
        }
        Atom::OneOf(bracket) => Ok(Ere::Set(bracket.bytes(fold))),
        Atom::SameAs(number) => Ok(Ere::Ref { number, fold }),
    }
}

/// Whether a level has this number.
fn any_of_number(levels: &[Level], number: u32) -> bool
    ensures { result ≡ list_any (λ level. level.number == number) levels.now }
{
    levels.iter().any(|level| level.number == number)
}

impl Reader {
    fn new(alloc: Global) -> Reader
        ensures { state result ≡ beginning_levels }
    {
        Reader {
            groups: 0,
            inner: Level::new(alloc, 0, 0),
            outer: Vec::new(alloc),
        }
    }

    /// Whether the group of this number is open.
    #[tactic(auto, using(crate::proofs::LevelLemmas::any_of_levels))]
    fn is_open(&self, number: u32) -> bool
        ensures { result ≡ is_open (place_of (state self.now)) number }
    {
        self.inner.number == number || any_of_number(self.outer.as_slice(), number)
    }

    /// Why the token is refused here, if it is.
    fn refusal(&self, token: &Token) -> Option<EreKind>
        ensures { result ≡ refusal (place_of (state self.now)) (token_view token.now) }
    {
        match token {
            Token::Item(Atom::SameAs(number), _) => {
                if *number <= self.groups && !self.is_open(*number) {
                    None
                } else {
                    Some(EreKind::BadReference)
                }
            }
            Token::Item(_, _) => None,
            Token::LineStart => None,
            Token::LineEnd => None,
            Token::Bar => match self.inner.last {
                Last::Part => None,
                _ => Some(EreKind::EmptyAlternative),
            },
            Token::OpenGroup => if self.outer.len() < MAX_DEPTH {
                None
            } else {
                Some(EreKind::TooDeep)
            },
            Token::CloseGroup(_) => {
                if self.outer.is_empty() {
                    Some(EreKind::StrayClose)
                } else {
                    match self.inner.last {
                        Last::Bar => Some(EreKind::EmptyAlternative),
                        _ => None,
                    }
                }
            }
        }
    }

    fn add_item(
        &mut self,
        alloc: Global,
        atom: Atom,
        bound: Option<Bound>,
        fold: bool,
    ) -> Result<(), AllocError>
        ensures { OnOk result (state self.new ≡ item_taken fold (atom_view atom) bound (state self.old)) }
    {
        match (atom, bound) {
            (Atom::Byte(byte), None) => self.inner.add_byte(alloc, byte, fold),
            (atom, bound) => {
                let ere = repeat(alloc, atom_ere(alloc, atom, fold)?, bound)?;
                self.inner.add_part(alloc, ere)
            }
        }
    }

    /// Begins a group whose `(` stands at this offset.
    fn open(&mut self, alloc: Global, at: usize) -> Result<(), AllocError>
        ensures { OnOk result (state self.new ≡ opened at (state self.old)) }
    {
        let Some(number) = self.groups.checked_add(1) else {
            return Err(AllocError);
        };
        let round = mem::replace(&mut self.inner, Level::new(alloc, at, number));
        self.groups = number;
        self.outer.push(round)?;
        Ok(())
    }

    /// Ends the group at hand.
    fn close(&mut self, alloc: Global, bound: Option<Bound>) -> Result<(), AllocError>
        ensures { OnOk result (state self.new ≡ closed bound (state self.old)) }
    {
        let Some(round) = self.outer.pop() else {
            return Ok(());
        };
        let level = mem::replace(&mut self.inner, round);
        let number = level.number;
        let inner = Box::new(alloc, level.finish(alloc)?)?;
        let group = repeat(alloc, Ere::Group { number, inner }, bound)?;
        self.inner.add_part(alloc, group)
    }

    /// Reads a token that isn't refused.
    fn take(&mut self, alloc: Global, at: usize, token: Token, fold: bool) -> Result<(), AllocError>
        ensures { OnOk result (state self.new ≡ taken fold at (token_view token) (state self.old)) }
    {
        match token {
            Token::Item(atom, bound) => self.add_item(alloc, atom, bound, fold),
            Token::LineStart => self.inner.add_part(alloc, Ere::LineStart),
            Token::LineEnd => self.inner.add_part(alloc, Ere::LineEnd),
            Token::Bar => self.inner.add_bar(alloc),
            Token::OpenGroup => self.open(alloc, at),
            Token::CloseGroup(bound) => self.close(alloc, bound),
        }
    }

    /// Why the text may not end here, if it may not.
    fn refusal_at_end(&self, at: usize) -> Option<EreFault>
        ensures { result ≡ refusal_at_end (place_of (state self.now)) at }
    {
        if !self.outer.is_empty() {
            return Some(EreFault {
                at: self.inner.at,
                kind: EreKind::UnclosedGroup,
            });
        }
        match self.inner.last {
            Last::Bar => Some(EreFault {
                at,
                kind: EreKind::EmptyAlternative,
            }),
            _ => None,
        }
    }

    /// The whole expression.
    fn finish(self, alloc: Global) -> Result<Ere, AllocError>
        ensures { IfOk result (λ ere. view ere ≡ tree_of (state self).inner) }
    {
        let Reader { inner, .. } = self;
        inner.finish(alloc)
    }
}

/// The expression, where its size is within the limit.
fn within_size(ere: Ere) -> Result<Ere, EreFail>
    ensures { Reads result (sized (Ok (view ere))) }
{
    if ere.size() <= MAX_SIZE {
        Ok(ere)
    } else {
        Err(EreFail::Bad(EreFault {
            at: 0,
            kind: EreKind::TooLarge,
        }))
    }
}

/// The expression of a text, however large.
fn read_all(alloc: Global, bytes: &[u8], fold: bool) -> Result<Ere, EreFail>
    ensures { Reads result (tree_read fold bytes.now) }
{
    let mut reader = Reader::new(alloc);
    let mut at: usize = 0;
    while at < bytes.len() {
        match token_at(behind(bytes, at)) {
            Err(fault) => {
                return Err(EreFail::Bad(EreFault {
                    at: at + fault.at,
                    kind: fault.kind,
                }));
            }
            Ok((token, taken)) => {
                if let Some(kind) = reader.refusal(&token) {
                    return Err(EreFail::Bad(EreFault { at, kind }));
                }
                if let Err(_) = reader.take(alloc, at, token, fold) {
                    return Err(EreFail::NoMemory);
                }
                at += taken;
            }
        }
    }
    if let Some(fault) = reader.refusal_at_end(at) {
        return Err(EreFail::Bad(fault));
    }
    match reader.finish(alloc) {
        Ok(ere) => Ok(ere),
        Err(_) => Err(EreFail::NoMemory),
    }
}

/// The expression of a text.
#[tactic(auto, unfolding(crate::specs::Grammar::reading))]
fn read_text(alloc: Global, bytes: &[u8], fold: bool) -> Result<Ere, EreFail>
    ensures { Reads result (reading fold bytes.now) }
{
    match read_all(alloc, bytes, fold) {
        Ok(ere) => within_size(ere),
        Err(fail) => Err(fail),
    }
}

/// Reads a text as an expression. With `fold` its letters match in either case. An expression with more than `u32::MAX`
/// groups is answered as one that memory doesn't hold.
pub fn parse(alloc: Global, bytes: &[u8], fold: bool) -> Result<Ere, EreFail>
    // The tree of the text, or its first fault.
    ensures exact { Reads result (reading fold bytes.now) }
    // What is read is in the grammar.
    ensures found { IfOk result (λ ere. IsEre fold bytes.now (view ere) × (size_of (view ere) ≤ 100000)) }
    // What is in the grammar is read, unless memory runs out.
    ensures only { (t : Tree) → IsEre fold bytes.now t → size_of t ≤ 100000 → Reads result (Ok t) }
{
    read_text(alloc, bytes, fold)
}
