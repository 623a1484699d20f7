//! The ranges of a group's matches, in order.
ghost use Rattle.std.specs.Prelude.{◌≡◌, ◌≤◌, ◌<◌, ℕ, All, IfSome, OnErr, OnOk, length, take, drop};
ghost use Rattle.std.specs.List.{AllByRecursion, insert};
ghost use Rattle.check_group.specs.Group.{AreInOrder, EndsBy, is_lower, lowest, overlaps, placed_among};

use std::collections::VecDeque;
use tt_base::{NoMemory, Span};

/// Whether two parts overlap.
fn overlap(a: Span, b: Span) -> bool
    ensures { result ≡ overlaps a b }
{
    a.from < b.to && b.from < a.to
}

/// The lowest range that a match overlaps, of ranges in order, from the one with a number on.
#[tactic(auto, unfolding(crate::specs::Group::lowest))]
pub(crate) fn lowest_overlapped(m: Span, ranges: &VecDeque<Span>, at: usize) -> Option<Span>
    requires in_order { AreInOrder ranges.now.items }
    requires within { at ≤ length ranges.now.items }
    ensures value { result ≡ lowest m (drop at ranges.now.items) }
    ensures behind { IfSome result (λ range. m.from < range.to) }
    ensures within { (to : ℕ) → All (EndsBy to) ranges.now.items → IfSome result (EndsBy to) }
{
    for number in at..ranges.len() {
        let range = ranges[number];
        if m.to <= range.from {
            return None;
        }
        if overlap(m, range) {
            return Some(range);
        }
    }
    None
}

/// How many ranges in front end at or before an offset, behind `at` that do.
pub(crate) fn passed(ranges: &VecDeque<Span>, at: usize, from: usize) -> usize
    requires in_order { AreInOrder ranges.now.items }
    requires within { at ≤ length ranges.now.items }
    requires before { All (EndsBy from) (take at ranges.now.items) }
    ensures within { result ≤ length ranges.now.items }
    ensures before { All (EndsBy from) (take result ranges.now.items) }
{
    let mut low = at;
    let mut high = ranges.len();
    while low < high {
        let middle = low + (high - low) / 2;
        if ranges[middle].to <= from {
            low = middle + 1;
        } else {
            high = middle;
        }
    }
    low
}

/// Whether a part is lower than another: by least start, and then by least end.
fn lower(a: Span, b: Span) -> bool
    ensures { result ≡ is_lower a b }
{
    a.from < b.from || (a.from == b.from && a.to < b.to)
}

/// How many ranges in front end before an offset.
fn ended(ranges: &VecDeque<Span>, from: usize) -> usize
    requires in_order { AreInOrder ranges.now.items }
    ensures within { result ≤ length ranges.now.items }
    ensures before { All (λ range. range.to < from) (take result ranges.now.items) }
{
    match from.checked_sub(1) {
        Some(last) => passed(ranges, 0, last),
        None => 0,
    }
}

/// How many of some ranges, in order, are lower than a part.
#[tactic(auto, using(crate::proofs::OrderLemmas::front_stays), unfolding(crate::specs::Group::placed_among))]
fn lower_count(ranges: &VecDeque<Span>, m: Span) -> usize
    requires in_order { AreInOrder ranges.now.items }
    ensures within { result ≤ length ranges.now.items }
    ensures value { insert ranges.now.items result m ≡ placed_among m ranges.now.items }
{
    let mut at = ended(ranges, m.from);
    while at < ranges.len() && lower(ranges[at], m) {
        at += 1;
    }
    at
}

/// Puts a range among ranges in order.
pub(crate) fn place_among(ranges: &mut VecDeque<Span>, m: Span) -> Result<(), NoMemory>
    requires in_order { AreInOrder ranges.old.items }
    ensures ok { OnOk result (ranges.new.items ≡ placed_among m ranges.old.items) }
    ensures err { OnErr result (ranges.new.items ≡ ranges.old.items) }
{
    let at = lower_count(ranges, m);
    match ranges.insert(at, m) {
        Ok(()) => Ok(()),
        Err(_) => Err(NoMemory),
    }
}
