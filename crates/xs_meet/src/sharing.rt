mod spelling;

ghost use Rattle.std.specs.Prelude.{◌≡◌, ◌<◌, ◌*◌, ◌^◌, [], length, false, replicate, OnOk, IfOk};
ghost use Rattle.xs_meet.specs.Sharing.{has_at, AddsRow};

use crate::piece::Piece;
use crate::shared_groups::SharedGroups;
use std::alloc::Global;
use std::marker::Model;
use xs_auto::BitSet;
use xs_class::Memory;

/// Which two groups of a nest have one fence and contents that accept a common word.
///
/// Takes a bit for each two groups. Of each two that share a word, it keeps the pieces that spell
/// one, and not the word, which may double in length with each level of groups inside groups.
#[derive(Debug, Drop)]
pub struct Shared {
    groups: u32,
    table: BitSet,
    rows: Vec<SharedGroups>,
    pieces: Vec<Piece>,
}

impl Model for Shared {
    ghost use Rattle.xs_meet.specs.Sharing.{Sharing, HasCells};

    ghost Value = { Sharing };

    ghost view = { λ s. record { groups = s.groups; table = s.table; rows = s.rows.items; pieces = s.pieces.items } };

    ghost invariant = { λ s. HasCells (record { groups = s.groups; table = s.table; rows = s.rows.items; pieces = s.pieces.items }) };
}

impl Shared {
    /// For that many groups, none of which are known to share a word yet.
    pub(crate) fn blank(alloc: Global, groups: u32) -> Result<Shared, Memory>
        ensures { IfOk result (λ s. s ≡ record { groups = groups; table = replicate (groups * groups) false; rows = []; pieces = [] }) }
    {
        let table = BitSet::with_bound(alloc, groups as u64 * groups as u64)?;
        Ok(Shared {
            groups,
            table,
            rows: Vec::new(alloc),
            pieces: Vec::new(alloc),
        })
    }

    /// Whether two groups have one fence and share a word; not where one of them does not exist.
    pub fn has(&self, g: u32, h: u32) -> bool
        ensures { result ≡ has_at self.now g h }
    {
        if g >= self.groups || h >= self.groups {
            return false;
        }
        self.table.has(g as u64 * self.groups as u64 + h as u64)
    }

    /// Two groups that share a word, by the order in which they were found, if there are so many.
    pub(crate) fn row(&self, place: usize) -> Option<SharedGroups> {
        self.rows.get(place).copied()
    }

    /// Notes that two groups share the words that these pieces spell.
    pub(crate) fn add(&mut self, first: u32, second: u32, pieces: &[Piece]) -> Result<(), Memory>
        requires first { first < self.old.groups }
        requires second { second < self.old.groups }
        ensures ok { OnOk result (AddsRow self.old self.new first second pieces.now) }
    {
        let start = self.pieces.len();
        self.pieces.extend_from_slice(pieces)?;
        let end = self.pieces.len();
        self.rows.push(SharedGroups {
            first,
            second,
            start,
            end,
        })?;
        let groups = self.groups as u64;
        self.table.insert(first as u64 * groups + second as u64);
        self.table.insert(second as u64 * groups + first as u64);
        Ok(())
    }
}
