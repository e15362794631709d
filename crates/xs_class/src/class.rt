ghost use Rattle.std.specs.Prelude.{◌≡◌, ℕ, ◌<◌, ◌≤◌, ◌^◌, ◌↔◌, [], length, IsTrue, IfOk, OnOk, MatchOption};
ghost use Rattle.std.specs.List.Sorted.{IsPartitionPoint, IsNonDecreasingBy};
ghost use Rattle.xs_class.specs.Classes.{Has, IsClass, HaveSame, IsLeast, BeginBy, IsAdded};

use crate::{Memory, Sym};
use std::alloc::Global;
use std::marker::Model;

/// A set of symbols, kept as sorted ranges that are disjoint and of which no two touch.
///
/// Both ends belong to a range. Contracts see the list of the ranges.
#[derive(Debug, Drop)]
pub struct Class {
    ranges: Vec<(u32, u32)>,
}

impl Model for Class {
    ghost use Rattle.std.specs.Prelude.{List, ℕ};
    ghost use Rattle.xs_class.specs.Classes.{IsClass};

    ghost Value = { List (ℕ × ℕ) };

    ghost view = { λ c. c.ranges.items };

    ghost invariant = { λ c. IsClass c.ranges.items };
}

impl Class {
    /// The symbols of the ranges, which come in any order. Both ends belong to a range, and a
    /// reversed range has no symbol. In time n log n of the number of ranges.
    pub fn from_ranges(alloc: Global, ranges: &[(u32, u32)]) -> Result<Self, Memory>
        ensures { IfOk result (λ c. HaveSame c ranges.now) }
    {
        let mut sorted = Vec::from_slice(alloc, ranges)?;
        sorted.sort_unstable_by_key(|range| range.0);
        joined(alloc, &sorted)
    }

    /// The ranges in ascending order.
    pub fn ranges(&self) -> &[(u32, u32)]
        ensures value { result.now ≡ self.now }
        ensures sorted { IsClass self.now }
    {
        &self.ranges
    }

    /// Whether the symbol is a member.
    pub fn has(&self, s: Sym) -> bool
        ensures { IsTrue result ↔ Has self.now s }
    {
        let number = s.number();
        let begun = begun_by(&self.ranges, number);
        begun > 0 && number <= self.ranges[begun - 1].1
    }

    /// Whether there is no member.
    pub fn is_empty(&self) -> bool
        ensures ranges { IsTrue result ↔ (self.now ≡ []) }
        ensures members { IsTrue result ↔ ((s : ℕ) → ¬ (Has self.now s)) }
    {
        self.ranges.is_empty()
    }

    /// The least member, or None where there is none.
    pub fn least(&self) -> Option<Sym>
        ensures { MatchOption result (self.now ≡ []) (IsLeast self.now) }
    {
        if self.ranges.is_empty() {
            return None;
        }
        Some(Sym(self.ranges[0].0))
    }

    /// The symbols of both classes, in time linear in the number of ranges.
    pub fn meet(&self, other: &Class) -> Result<Class, Memory>
        ensures { IfOk result (λ c. (s : ℕ) → Has c s ↔ (Has self.now s × Has other.now s)) }
    {
        common(*self.ranges.allocator(), &self.ranges, &other.ranges)
    }

    /// The symbols of this class that are not in the other, in time linear in the number of ranges.
    pub fn without(&self, other: &Class) -> Result<Class, Memory>
        ensures { IfOk result (λ c. (s : ℕ) → Has c s ↔ (Has self.now s × (¬ (Has other.now s)))) }
    {
        self.meet(&gaps(*self.ranges.allocator(), &other.ranges)?)
    }

    /// The same class once more.
    pub fn copy(&self) -> Result<Class, Memory>
        ensures { IfOk result (λ c. c ≡ self.now) }
    {
        Ok(Class {
            ranges: Vec::from_slice(*self.ranges.allocator(), &self.ranges)?,
        })
    }
}

/// How many ranges begin at or below the symbol: a binary search.
fn begun_by(ranges: &[(u32, u32)], number: u32) -> usize
    requires { IsClass ranges.now }
    ensures within { result ≤ length ranges.now }
    ensures parted { IsPartitionPoint (λ r. r.0 ≤ number) (λ r. number < r.0) ranges.now result }
{
    ranges.partition_point(|range| range.0 <= number)
}

/// Adds a range that begins no earlier than those that are there, and joins it to the last one
/// where the two meet or touch. A reversed range adds nothing.
fn add(ranges: &mut Vec<(u32, u32)>, range: (u32, u32)) -> Result<(), Memory>
    requires sorted { IsClass ranges.old.items }
    requires begun { BeginBy range.0 ranges.old.items }
    ensures { OnOk result (IsAdded ranges.old.items range ranges.new.items) }
{
    if range.1 < range.0 {
        return Ok(());
    }
    let len = ranges.len();
    if len > 0 {
        let last = ranges[len - 1];
        if range.0 <= last.1.saturating_add(1) {
            ranges[len - 1] = (last.0, last.1.max(range.1));
            return Ok(());
        }
    }
    ranges.push(range)?;
    Ok(())
}

/// The class of ranges that are sorted by their beginnings.
fn joined(alloc: Global, sorted: &[(u32, u32)]) -> Result<Class, Memory>
    requires { IsNonDecreasingBy (λ r. r.0) sorted.now }
    ensures { IfOk result (λ c. HaveSame c sorted.now) }
{
    let mut ranges = Vec::with_capacity(alloc, sorted.len())?;
    'sorted: for range in sorted {
        add(&mut ranges, *range)?;
    }
    Ok(Class { ranges })
}

/// The class of the symbols that are in ranges of both lists.
fn common(alloc: Global, a: &[(u32, u32)], b: &[(u32, u32)]) -> Result<Class, Memory>
    requires one { IsClass a.now }
    requires two { IsClass b.now }
    ensures { IfOk result (λ c. (s : ℕ) → Has c s ↔ (Has a.now s × Has b.now s)) }
{
    let mut ranges = Vec::with_capacity(alloc, a.len() + b.len())?;
    let mut i = 0;
    let mut j = 0;
    'pairs: while i < a.len() && j < b.len() {
        let (one, two) = (a[i], b[j]);
        add(&mut ranges, (one.0.max(two.0), one.1.min(two.1)))?;
        if one.1 < two.1 {
            i += 1;
        } else {
            j += 1;
        }
    }
    Ok(Class { ranges })
}

/// The class of the symbols that are in none of the ranges.
fn gaps(alloc: Global, ranges: &[(u32, u32)]) -> Result<Class, Memory>
    requires { IsClass ranges.now }
    ensures { IfOk result (λ c. (s : ℕ) → Has c s ↔ ((s < 2 ^ 32) × (¬ (Has ranges.now s)))) }
{
    let mut between = Vec::with_capacity(alloc, ranges.len() + 1)?;
    let mut next: u64 = 0;
    'gaps: for range in ranges {
        if next < u64::from(range.0) {
            add(&mut between, (next as u32, range.0 - 1))?;
        }
        next = u64::from(range.1) + 1;
    }
    if next <= u64::from(u32::MAX) {
        add(&mut between, (next as u32, u32::MAX))?;
    }
    Ok(Class { ranges: between })
}
