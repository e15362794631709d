ghost use Rattle.std.specs.Prelude.{◌≡◌, ◌<◌, ◌+◌, ◌↔◌, ℕ, true, length, IfOk, OnOk, IsTrue};
ghost use Rattle.xs_auto.specs.{group_at, HaveOneFence, IsFenced, AreShared};
ghost use Rattle.xs_meet.specs.Rounds.{CanTry, Tries, Finds, AreThese, AreFrom, AreWithin};
ghost use Rattle.xs_meet.specs.Sharing.{has_at, HasRoom, IsSharedOf};

use crate::callers::Callers;
use crate::meet::meet_pieces;
use crate::shared_groups::SharedGroups;
use crate::sharing::Shared;
use std::alloc::Global;
use xs_auto::{Nest, Pairs};
use xs_class::Memory;

/// How many pairs of callers of two groups are tried at most between two rounds: where there are more,
/// each found pair would have them tried again, and a round does so once.
const MOST_TRIED: usize = 16;

/// Which two groups of the nest have one fence and contents that accept a common word.
///
/// Goes in rounds over the pairs of groups that have one fence and are not known to share a word,
/// until a round finds no more. After each round that does, what calls groups that were found to
/// share a word is tried again, where it is little, and so on; so the second round mostly finds
/// none. The pairs of states are marked in the first map.
pub fn shared(alloc: Global, nest: &Nest, pairs: &mut Pairs) -> Result<Shared, Memory>
    requires fenced { IsFenced nest.now }
    requires room { HasRoom nest.now pairs.old.cells }
    ensures cells { pairs.new.cells ≡ pairs.old.cells }
    ensures ok { IfOk result (IsSharedOf nest.now) }
    ensures exact { IfOk result (λ s. (g h : ℕ) → (has_at s g h ≡ true) ↔ AreShared nest.now g h) }
{
    let callers = Callers::of(alloc, nest)?;
    let mut shared = Shared::blank(alloc, nest.len())?;
    'rounds: while shared.try_all(alloc, nest, pairs)? {
        shared.follow(alloc, nest, &callers, pairs)?;
    }
    Ok(shared)
}

impl Shared {
    /// One round: tries each two groups, and says whether any were found to share a word.
    fn try_all(&mut self, alloc: Global, nest: &Nest, pairs: &mut Pairs) -> Result<bool, Memory>
        requires ready { CanTry nest.now pairs.old.cells self.old }
        ensures cells { pairs.new.cells ≡ pairs.old.cells }
        ensures ok { IfOk result (Tries nest.now (AreWithin (length nest.now) (length nest.now)) self.old self.new) }
    {
        let mut grown = false;
        'groups: for first in 0..nest.len() {
            let found = self.try_from(alloc, nest, first, pairs)?;
            grown = grown || found;
        }
        Ok(grown)
    }

    /// Tries a group with itself and each after it.
    fn try_from(
        &mut self,
        alloc: Global,
        nest: &Nest,
        first: u32,
        pairs: &mut Pairs,
    ) -> Result<bool, Memory>
        requires ready { CanTry nest.now pairs.old.cells self.old }
        requires first { first < length nest.now }
        ensures cells { pairs.new.cells ≡ pairs.old.cells }
        ensures ok { IfOk result (Tries nest.now (AreFrom first (length nest.now)) self.old self.new) }
    {
        let mut grown = false;
        'partners: for second in first..nest.len() {
            let found = self.try_pair(alloc, nest, first, second, pairs)?;
            grown = grown || found;
        }
        Ok(grown)
    }

    /// Tries two groups, unless they are known to share a word.
    fn try_pair(
        &mut self,
        alloc: Global,
        nest: &Nest,
        first: u32,
        second: u32,
        pairs: &mut Pairs,
    ) -> Result<bool, Memory>
        requires ready { CanTry nest.now pairs.old.cells self.old }
        requires first { first < length nest.now }
        requires second { second < length nest.now }
        ensures cells { pairs.new.cells ≡ pairs.old.cells }
        ensures ok { IfOk result (Tries nest.now (AreThese first second) self.old self.new) }
    {
        if !have_one_fence(nest, first, second) {
            return Ok(false);
        }
        if self.has(first, second) {
            return Ok(false);
        }
        let found = meet_pieces(
            alloc,
            self,
            nest.content(first),
            nest.content(second),
            pairs,
        )?;
        match found {
            None => Ok(false),
            Some(pieces) => {
                self.add(first, second, &pieces)?;
                Ok(true)
            }
        }
    }
}

impl Shared {
    /// Tries the callers of each two groups that are known to share a word, those that are found
    /// here included.
    fn follow(
        &mut self,
        alloc: Global,
        nest: &Nest,
        callers: &Callers,
        pairs: &mut Pairs,
    ) -> Result<(), Memory>
        requires ready { CanTry nest.now pairs.old.cells self.old }
        ensures cells { pairs.new.cells ≡ pairs.old.cells }
        ensures ok { OnOk result (Finds nest.now self.old self.new) }
    {
        'places: for place in 0..usize::MAX {
            let Some(row) = self.row(place) else {
                return Ok(());
            };
            self.follow_row(alloc, nest, callers, row, pairs)?;
        }
        Ok(())
    }

    /// Tries each caller of the one group with each of the other, where these are few pairs.
    fn follow_row(
        &mut self,
        alloc: Global,
        nest: &Nest,
        callers: &Callers,
        row: SharedGroups,
        pairs: &mut Pairs,
    ) -> Result<(), Memory>
        requires ready { CanTry nest.now pairs.old.cells self.old }
        ensures cells { pairs.new.cells ≡ pairs.old.cells }
        ensures ok { OnOk result (Finds nest.now self.old self.new) }
    {
        let firsts = callers.of_group(row.first);
        let seconds = callers.of_group(row.second);
        if firsts.len().saturating_mul(seconds.len()) > MOST_TRIED {
            return Ok(());
        }
        'firsts: for first in firsts {
            self.follow_caller(alloc, nest, *first, seconds, pairs)?;
        }
        Ok(())
    }

    /// Tries a group with each of these.
    fn follow_caller(
        &mut self,
        alloc: Global,
        nest: &Nest,
        first: u32,
        seconds: &[u32],
        pairs: &mut Pairs,
    ) -> Result<(), Memory>
        requires ready { CanTry nest.now pairs.old.cells self.old }
        ensures cells { pairs.new.cells ≡ pairs.old.cells }
        ensures ok { OnOk result (Finds nest.now self.old self.new) }
    {
        'seconds: for second in seconds {
            if first < nest.len() && *second < nest.len() {
                self.try_pair(alloc, nest, first, *second, pairs)?;
            }
        }
        Ok(())
    }
}

/// Whether two groups have one fence.
fn have_one_fence(nest: &Nest, first: u32, second: u32) -> bool
    requires first { first < length nest.now }
    requires second { second < length nest.now }
    ensures { IsTrue result ↔ HaveOneFence (group_at nest.now first) (group_at nest.now second) }
{
    let (left, right) = nest.fence(first);
    let (left2, right2) = nest.fence(second);
    left == left2 && right == right2
}
