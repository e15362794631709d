ghost use Rattle.std.specs.Prelude.{◌≡◌, ◌+◌, ◌*◌, ◌<◌, ◌≤◌, ◌^◌, ◌%◌, ◌/◌, ℕ, length, slice_get, slice_index_or, IsTrue, IfOk};
ghost use Rattle.xs_atoms.specs.Pages.{IsIn, IsAtomIn, IsPage, IsSame, IsLonger, AreWhole, ArePages, cell_of};
ghost use Rattle.xs_atoms.specs.declared.sweep.Stretch.{Stretch as AnyStretch};

use crate::fault::AtomsFault;
use crate::sweep::Stretch;
use std::alloc::Global;
use xs_class::Memory;

/// A bound of symbols: the pages of more would be more than any memory.
const MOST_SYMBOLS: u64 = 1 << 40;

/// A table of two levels: for each page of 256 symbols where its cells begin, the cells, and the
/// atom of all symbols on later pages.
#[derive(Debug, Drop)]
pub struct Pages {
    pub rest: u16,
    pub pages: Vec<u32>,
    pub cells: Vec<u16>,
}

/// The last stretch from one on that begins at a symbol or before it.
fn current(stretches: &[Stretch], from: usize, symbol: u64) -> usize
    requires within { from < length stretches.now }
    requires begun { (t : AnyStretch) → slice_get stretches.now from ≡ Some t → t.start ≤ symbol }
    ensures { IsIn stretches.now result symbol }
{
    let mut at = from;
    'stretches: while at + 1 < stretches.len() && stretches[at + 1].start <= symbol {
        at += 1;
    }
    at
}

/// Whether all symbols of the page that begins at a symbol are in the stretch of this number.
fn is_whole(stretches: &[Stretch], at: usize, begin: u64) -> bool
    requires in_stretch { IsIn stretches.now at begin }
    requires begin { begin < 1099511627776 }
    ensures { IsTrue result → ((low : ℕ) → low < 256 → IsIn stretches.now at (begin + low)) }
{
    at + 1 == stretches.len() || begin + 255 < stretches[at + 1].start
}

/// Appends a cell for each symbol of a page, all of the same atom.
fn push_same(cells: &mut Vec<u16>, atom: u16) -> Result<(), Memory>
    ensures longer { IfOk result (λ _. IsLonger cells.old.items cells.new.items) }
    ensures same { IfOk result (λ _. IsSame cells.new.items (length cells.old.items) atom) }
{
    'cells: for _ in 0..256_usize {
        cells.push(atom)?;
    }
    Ok(())
}

/// Appends a cell for each symbol of a page, the first in the stretch of this number.
fn push_cells(
    cells: &mut Vec<u16>,
    stretches: &[Stretch],
    from: usize,
    begin: u64,
) -> Result<(), Memory>
    requires in_stretch { IsIn stretches.now from begin }
    requires begin { begin < 1099511627776 }
    ensures longer { IfOk result (λ _. IsLonger cells.old.items cells.new.items) }
    ensures page { IfOk result (λ _. IsPage stretches.now cells.new.items (length cells.old.items) begin) }
{
    let mut at = from;
    'cells: for low in 0..256 {
        at = current(stretches, at, begin + low);
        cells.push(stretches[at].atom)?;
    }
    Ok(())
}

/// Where the cells of the page that begins at a symbol begin, which are appended where they are not
/// there. The symbol is in the stretch of this number.
fn page(
    cells: &mut Vec<u16>,
    whole: &mut [Option<u32>],
    stretches: &[Stretch],
    at: usize,
    begin: u64,
) -> Result<u32, AtomsFault>
    requires in_stretch { IsIn stretches.now at begin }
    requires begin { begin < 1099511627776 }
    requires whole { AreWhole cells.old.items whole.old }
    ensures longer { IfOk result (λ _. IsLonger cells.old.items cells.new.items) }
    ensures whole { IfOk result (λ _. AreWhole cells.new.items whole.new) }
    ensures page { IfOk result (λ first. IsPage stretches.now cells.new.items first begin) }
{
    let Ok(first) = u32::try_from(cells.len()) else {
        return Err(AtomsFault::TooMany);
    };
    if !is_whole(stretches, at, begin) {
        push_cells(cells, stretches, at, begin)?;
        return Ok(first);
    }
    let atom = stretches[at].atom;
    let place = atom as usize;
    if place >= whole.len() {
        push_same(cells, atom)?;
        return Ok(first);
    }
    if let Some(before) = whole[place] {
        return Ok(before);
    }
    push_same(cells, atom)?;
    whole[place] = Some(first);
    Ok(first)
}

/// The table of stretches of this many atoms, the first of which begins at 0.
pub fn pages_of(alloc: Global, stretches: &[Stretch], atoms: usize) -> Result<Pages, AtomsFault>
    requires some { 0 < length stretches.now }
    requires begins { (t : AnyStretch) → slice_get stretches.now 0 ≡ Some t → t.start ≡ 0 }
    ensures { IfOk result (λ p. (s : ℕ) → IsAtomIn stretches.now s (cell_of p.cells.items p.rest (s % 256) (slice_get p.pages.items (s / 256)))) }
{
    let mut cells = Vec::new(alloc);
    let mut whole = vec![in alloc; None; atoms]?;
    let last = stretches[stretches.len() - 1];
    if last.start >= MOST_SYMBOLS {
        return Err(AtomsFault::TooMany);
    }
    let pages = push_pages(
        alloc,
        &mut cells,
        &mut whole,
        stretches,
        last.start / 256 + 1,
    )?;
    Ok(Pages {
        rest: last.atom,
        pages,
        cells,
    })
}

/// Where the cells of this many pages begin, which are appended to no cells.
fn push_pages(
    alloc: Global,
    cells: &mut Vec<u16>,
    whole: &mut [Option<u32>],
    stretches: &[Stretch],
    count: u64,
) -> Result<Vec<u32>, AtomsFault>
    requires some { 0 < length stretches.now }
    requires begins { (t : AnyStretch) → slice_get stretches.now 0 ≡ Some t → t.start ≡ 0 }
    requires count { count ≤ 4294967296 }
    requires whole { AreWhole cells.old.items whole.old }
    ensures count { IfOk result (λ pages. length pages.items ≡ count) }
    ensures pages { IfOk result (λ pages. ArePages stretches.now cells.new.items pages.items) }
{
    let mut pages = Vec::new(alloc);
    let mut at = 0;
    'pages: for number in 0..count {
        at = current(stretches, at, number * 256);
        let first = page(cells, whole, stretches, at, number * 256)?;
        pages.push(first)?;
    }
    Ok(pages)
}
