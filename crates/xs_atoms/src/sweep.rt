ghost use Rattle.std.specs.Prelude.{◌≡◌, [], ◌≤◌, ◌<◌, ◌+◌, ◌*◌, ℕ, false, take, drop, length, slice_index_or, IsTrue, IfOk, IfSome};
ghost use Rattle.std.specs.List.Sorted.{IsNonDecreasingBy};
ghost use Rattle.xs_atoms.specs.Stretches.{flag, IsAdded, IsGiven, IsPushed, IsTurned, IsSwept};
ghost use Rattle.xs_atoms.specs.Turns.{AreKept};

use crate::turns::Turn;
use std::alloc::Global;
use std::collections::HashMap;
use xs_class::Memory;

/// The greatest number of atoms: one more number is that of the end of a document.
const MOST_ATOMS: usize = 65_534;

/// The greatest number of pairs of a class and an atom, as long as no row is longer.
const MOST_PAIRS: usize = 1 << 24;

/// Symbols from one on, up to the next stretch, that have one atom.
#[derive(Clone, Copy, Debug)]
pub struct Stretch {
    pub start: u64,
    pub atom: u16,
}

/// Atoms on the way: the stretches so far, for each atom a row with a flag for each class, and the
/// first symbol that has it.
#[derive(Drop)]
pub struct Draft {
    found: HashMap<u64, u16>,
    pub stretches: Vec<Stretch>,
    pub rows: Vec<bool>,
    pub firsts: Vec<u64>,
}

impl Draft {
    fn new(alloc: Global) -> Self
        ensures stretches { result.stretches.items ≡ [] }
        ensures rows { result.rows.items ≡ [] }
        ensures firsts { result.firsts.items ≡ [] }
    {
        Draft {
            found: HashMap::new(alloc),
            stretches: Vec::new(alloc),
            rows: Vec::new(alloc),
            firsts: Vec::new(alloc),
        }
    }

    /// Appends an atom with this row and first symbol, or None where there are too many.
    fn add(&mut self, row: &[bool], start: u64) -> Result<Option<u16>, Memory>
        ensures { IfOk result (λ o. IfSome o (IsAdded self.old self.new row.now start)) }
    {
        let atom = self.firsts.len();
        if atom >= MOST_ATOMS || self.rows.len() >= MOST_PAIRS {
            return Ok(None);
        }
        self.rows.extend_from_slice(row)?;
        self.firsts.push(start)?;
        Ok(Some(atom as u16))
    }

    /// The atom of a stretch from this symbol on whose classes are in the row, or None where there
    /// are too many. A symbol of a fixed word, which is in class 0, has an atom of its own.
    fn atom(&mut self, start: u64, row: &[bool], hash: u64) -> Result<Option<u16>, Memory>
        ensures { IfOk result (λ o. IfSome o (IsGiven self.old self.new row.now start)) }
    {
        if row.is_empty() || row[0] {
            return self.add(row, start);
        }
        if let Some(atom) = self.found.get(&hash) {
            let atom = *atom;
            if is_row(&self.rows, row, atom) {
                return Ok(Some(atom));
            }
        }
        let Some(atom) = self.add(row, start)? else {
            return Ok(None);
        };
        self.found.insert(hash, atom)?;
        Ok(Some(atom))
    }

    /// Appends a stretch, or answers false where there are too many atoms.
    fn push(&mut self, start: u64, row: &[bool], hash: u64) -> Result<bool, Memory>
        ensures { IfOk result (λ b. IsTrue b → IsPushed self.old self.new start row.now) }
    {
        let Some(atom) = self.atom(start, row, hash)? else {
            return Ok(false);
        };
        self.stretches.push(Stretch { start, atom })?;
        Ok(true)
    }
}

/// Whether the atom has this row.
fn is_row(rows: &[bool], row: &[bool], atom: u16) -> bool
    ensures there { IsTrue result → take (length row.now) (drop (length row.now * atom) rows.now) ≡ row.now }
    ensures within { IsTrue result → length row.now * atom + length row.now ≤ length rows.now }
{
    let Some(begin) = row.len().checked_mul(atom as usize) else {
        return false;
    };
    if rows.len() < begin || rows.len() - begin < row.len() {
        return false;
    }
    let there = &rows[begin..begin + row.len()];
    there == row
}

/// Turns the flag of a class, and gives what that changes in a number that stands for the flags.
fn turned(row: &mut [bool], turn: Turn) -> u64
    ensures { IsTurned row.old row.new turn }
{
    let Some(class) = turn.class else {
        return 0;
    };
    let place = class as usize;
    if place >= row.len() {
        return 0;
    }
    row[place] = !row[place];
    let mixed = (u64::from(class) + 1).wrapping_mul(0x9E37_79B9_7F4A_7C15);
    (mixed ^ (mixed >> 29)).wrapping_mul(0xBF58_476D_1CE4_E5B9)
}

/// The atoms of the stretches between turns, which come in ascending order; None where there are
/// too many.
pub fn sweep(alloc: Global, width: usize, turns: &[Turn]) -> Result<Option<Draft>, Memory>
    requires width { 0 < width }
    requires sorted { IsNonDecreasingBy (λ t. t.place) turns.now }
    requires kept { AreKept turns.now }
    ensures { IfOk result (λ o. IfSome o (IsSwept width turns.now)) }
{
    let mut row = vec![in alloc; false; width]?;
    pass(alloc, &mut row, turns)
}

/// The same, with the flags of no class.
fn pass(alloc: Global, row: &mut [bool], turns: &[Turn]) -> Result<Option<Draft>, Memory>
    requires wide { 0 < length row.old }
    requires none { (c : ℕ) → flag row.old c ≡ false }
    requires sorted { IsNonDecreasingBy (λ t. t.place) turns.now }
    requires kept { AreKept turns.now }
    ensures { IfOk result (λ o. IfSome o (IsSwept (length row.old) turns.now)) }
{
    let mut draft = Draft::new(alloc);
    let mut hash: u64 = 0;
    let mut start: u64 = 0;
    'turns: for turn in turns {
        if start < turn.place {
            if !draft.push(start, row, hash)? {
                return Ok(None);
            }
            start = turn.place;
        }
        hash ^= turned(row, *turn);
    }
    if !draft.push(start, row, hash)? {
        return Ok(None);
    }
    Ok(Some(draft))
}
