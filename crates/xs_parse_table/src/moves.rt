ghost use Rattle.std.specs.Prelude.{◌≡◌, ◌<◌, ◌≤◌, ◌⊎◌, ◌+◌, ◌*◌, ℕ, suc, length, slice_index_or, Contains, IsTrue, IfOk, IfSome};
ghost use Rattle.xs_regex.specs.{Leads};
ghost use Rattle.xs_regex.specs.Marked.{Marked};
ghost use Rattle.xs_atoms.specs.{class_has};
ghost use Rattle.xs_parse_table.specs.Moves.{AreMoves, MayCome, MayEnd, stand};
ghost use Rattle.xs_parse_table.specs.Rows.{AreClassesOf, AreLonger, AreChoices, IsRow};

use crate::sets::Sets;
use std::alloc::Global;
use xs_atoms::Atoms;
use xs_class::Memory;
use xs_regex::Position;

/// Marks no position.
fn clear(flags: &mut [bool])
    ensures none { (k : ℕ) → ¬ (Marked flags.new k) }
    ensures length { length flags.new ≡ length flags.old }
{
    flags.fill(false);
}

/// Marks the positions.
fn mark(positions: &[u32], flags: &mut [bool])
    ensures marked { (k : ℕ) → Marked flags.new k → Marked flags.old k ⊎ Contains positions.now k }
    ensures length { length flags.new ≡ length flags.old }
{
    'positions: for position in positions {
        let place = *position as usize;
        if place < flags.len() {
            flags[place] = true;
        }
    }
}

/// Marks the positions that follow those of a set.
fn mark_next(p: &Position, set: &[u32], flags: &mut [bool])
    ensures marked { (k : ℕ) → Marked flags.new k → Marked flags.old k ⊎ ((j : ℕ) × Contains set.now j × Leads p.now j k) }
    ensures length { length flags.new ≡ length flags.old }
{
    'set: for position in set {
        let place = *position as usize;
        if place < p.follow.len() {
            mark(p.follow.at(place).as_slice(), flags);
        }
    }
}

/// The marked positions that 32 bits number, in ascending order.
fn marked(alloc: Global, flags: &[bool]) -> Result<Vec<u32>, Memory>
    ensures { IfOk result (λ list. (k : ℕ) → Contains list.items k → Marked flags.now k) }
{
    let mut list = Vec::with_capacity(alloc, flags.len())?;
    'flags: for (place, flag) in flags.iter().enumerate() {
        if *flag {
            let Ok(position) = u32::try_from(place) else {
                return Ok(list);
            };
            list.push(position)?;
        }
    }
    Ok(list)
}

/// Marks the positions that may come after the row of this number.
fn mark_after(p: &Position, sets: &Sets, row: usize, flags: &mut [bool])
    requires { row ≤ length sets.now }
    ensures marked { (k : ℕ) → Marked flags.new k → Marked flags.old k ⊎ MayCome p.now (stand sets.now row) k }
    ensures length { length flags.new ≡ length flags.old }
{
    if row == 0 {
        mark(p.first.as_slice(), flags);
        return;
    }
    mark_next(p, sets.at(row - 1), flags);
}

/// The positions that may come after the row of this number, in ascending order.
fn may_come(
    alloc: Global,
    p: &Position,
    sets: &Sets,
    row: usize,
    flags: &mut [bool],
) -> Result<Vec<u32>, Memory>
    requires row { row ≤ length sets.now }
    requires room { length flags.old ≡ length p.now.classes }
    ensures come { IfOk result (λ list. (k : ℕ) → Contains list.items k → MayCome p.now (stand sets.now row) k) }
    ensures within { IfOk result (λ list. (k : ℕ) → Contains list.items k → k < length p.now.classes) }
    ensures room { length flags.new ≡ length flags.old }
{
    clear(flags);
    mark_after(p, sets, row, flags);
    let list = marked(alloc, flags)?;
    Ok(list)
}

/// Whether a run may end at the row of this number.
fn may_end(p: &Position, sets: &Sets, row: usize) -> bool
    requires { row ≤ length sets.now }
    ensures { IsTrue result → MayEnd p.now (stand sets.now row) }
{
    if row == 0 {
        return p.nullable;
    }
    has_common(sets.at(row - 1), p.last.as_slice())
}

/// Whether the lists have a number in common.
fn has_common(set: &[u32], last: &[u32]) -> bool
    ensures { IsTrue result → (k : ℕ) × Contains set.now k × Contains last.now k }
{
    'set: for position in set {
        if last.contains(position) {
            return true;
        }
    }
    false
}

/// Whether the class of a position has the atom.
fn is_taken(atoms: &Atoms, classes: &[u32], position: u32, atom: u16) -> bool
    ensures { IsTrue result → IsTrue (class_has atoms.now (slice_index_or classes.now position 0) atom) }
{
    let place = position as usize;
    place < classes.len() && atoms.class_has(classes[place], atom)
}

/// Puts those of the positions into a list whose class has the atom.
fn choose(
    atoms: &Atoms,
    classes: &[u32],
    may: &[u32],
    atom: u32,
    chosen: &mut Vec<u32>,
) -> Result<(), Memory>
    ensures { IfOk result (λ _. (k : ℕ) → Contains chosen.new.items k → Contains may.now k × IsTrue (class_has atoms.now (slice_index_or classes.now k 0) atom)) }
{
    chosen.clear();
    let Ok(number) = u16::try_from(atom) else {
        return Ok(());
    };
    'may: for position in may {
        if is_taken(atoms, classes, *position, number) {
            chosen.push(*position)?;
        }
    }
    Ok(())
}

/// The cell after a row's moves.
fn end_cell(ends: bool) -> u32
    ensures { result ≡ 1 → IsTrue ends }
{
    if ends { 1 } else { 0 }
}

/// The first cell of the row of a set, or None where 32 bits do not number it.
fn cell_of(start: u32, number: usize, width: u32) -> Option<u32>
    ensures { IfSome result (λ cell. cell ≡ start + suc number * width) }
{
    let rows = number.checked_add(1)?;
    let cells = rows.checked_mul(width as usize)?;
    let cell = cells.checked_add(start as usize)?;
    u32::try_from(cell).ok()
}

/// Appends a cell for each atom, which leads from the row of this number to that of a set; false
/// where there are too many cells.
fn push_moves(
    alloc: Global,
    atoms: &Atoms,
    classes: &[u32],
    start: u32,
    may: &[u32],
    sets: &mut Sets,
    cells: &mut Vec<u32>,
) -> Result<bool, Memory>
    ensures sets { IfOk result (λ _. AreLonger sets.old sets.new) }
    ensures cells { IfOk result (λ _. AreLonger cells.old.items cells.new.items) }
    ensures count { IfOk result (λ few. IsTrue few → length cells.new.items ≡ length cells.old.items + atoms.now.count) }
    ensures moves { IfOk result (λ few. IsTrue few → AreChoices atoms.now classes.now may.now start sets.new cells.new.items (length cells.old.items) atoms.now.count) }
{
    let mut chosen = Vec::new(alloc);
    let count = atoms.count();
    'atoms: for atom in 0..count {
        choose(atoms, classes, may, atom, &mut chosen)?;
        let number = sets.number(&chosen)?;
        let Some(cell) = cell_of(start, number, count + 1) else {
            return Ok(false);
        };
        cells.push(cell)?;
    }
    Ok(true)
}

/// Appends the row of this number; false where there are too many cells.
fn push_row(
    alloc: Global,
    p: &Position,
    classes: &[u32],
    atoms: &Atoms,
    start: u32,
    row: usize,
    flags: &mut [bool],
    sets: &mut Sets,
    cells: &mut Vec<u32>,
) -> Result<bool, Memory>
    requires row { row ≤ length sets.old }
    requires room { length flags.old ≡ length p.now.classes }
    requires classes { AreClassesOf p.now atoms.now classes.now }
    ensures sets { IfOk result (λ _. AreLonger sets.old sets.new) }
    ensures cells { IfOk result (λ _. AreLonger cells.old.items cells.new.items) }
    ensures count { IfOk result (λ few. IsTrue few → length cells.new.items ≡ length cells.old.items + suc atoms.now.count) }
    ensures row { IfOk result (λ few. IsTrue few → IsRow p.now atoms.now sets.new start row cells.new.items (length cells.old.items)) }
    ensures room { IfOk result (λ _. length flags.new ≡ length flags.old) }
{
    let may = may_come(alloc, p, sets, row, flags)?;
    if !push_moves(alloc, atoms, classes, start, &may, sets, cells)? {
        return Ok(false);
    }
    let end = end_cell(may_end(p, sets, row));
    cells.push(end)?;
    Ok(true)
}

/// Appends the rows of an automaton from this cell on, and says whether there are few enough.
fn fill_rows(
    alloc: Global,
    p: &Position,
    classes: &[u32],
    atoms: &Atoms,
    start: u32,
    flags: &mut [bool],
    cells: &mut Vec<u32>,
) -> Result<bool, Memory>
    requires start { start ≡ length cells.old.items }
    requires room { length flags.old ≡ length p.now.classes }
    requires classes { AreClassesOf p.now atoms.now classes.now }
    ensures cells { IfOk result (λ _. AreLonger cells.old.items cells.new.items) }
    ensures moves { IfOk result (λ few. IsTrue few → AreMoves p.now atoms.now cells.new.items start) }
{
    let mut sets = Sets::new(alloc);
    let most = flags.len().saturating_mul(2).saturating_add(16);
    'rows: for row in 0..most {
        if row > sets.len() {
            return Ok(true);
        }
        if !push_row(
            alloc, p, classes, atoms, start, row, flags, &mut sets, cells,
        )? {
            return Ok(false);
        }
    }
    Ok(false)
}

/// Appends the rows of an automaton, and gives the first cell of its start's, or None where there
/// are more than twice its positions and 16, or more cells than 32 bits number.
pub fn push_rows(
    alloc: Global,
    p: &Position,
    classes: &[u32],
    atoms: &Atoms,
    cells: &mut Vec<u32>,
) -> Result<Option<u32>, Memory>
    requires { AreClassesOf p.now atoms.now classes.now }
    ensures cells { IfOk result (λ _. AreLonger cells.old.items cells.new.items) }
    ensures moves { IfOk result (λ o. IfSome o (AreMoves p.now atoms.now cells.new.items)) }
{
    let Ok(start) = u32::try_from(cells.len()) else {
        return Ok(None);
    };
    let mut flags = vec![in alloc; false; p.classes.len()]?;
    if fill_rows(alloc, p, classes, atoms, start, &mut flags, cells)? {
        Ok(Some(start))
    } else {
        Ok(None)
    }
}
