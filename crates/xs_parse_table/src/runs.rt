ghost use Rattle.std.specs.Prelude.{◌≡◌, ◌⊎◌, ◌≤◌, ℕ, length, Contains, IsTrue};
ghost use Rattle.xs_regex.specs.{Accepts, HasAt, Leads};
ghost use Rattle.xs_regex.specs.Marked.{Marked};
ghost use Rattle.xs_parse_table.specs.Moves.{Says};

use xs_class::Sym;
use xs_regex::Position;

/// The most positions that an automaton has.
const MOST_POSITIONS: usize = 512;

/// Marks those of the positions that have the symbol.
fn enter(p: &Position, symbol: Sym, positions: &[u32], flags: &mut [bool])
    ensures marked { (k : ℕ) → Marked flags.new k → Marked flags.old k ⊎ (Contains positions.now k × HasAt p.now k symbol) }
    ensures length { length flags.new ≡ length flags.old }
{
    'positions: for position in positions {
        let place = *position as usize;
        if place < p.classes.len() && place < flags.len() && p.classes.at(place).has(symbol) {
            flags[place] = true;
        }
    }
}

/// Marks those positions that follow marked ones and have the symbol.
fn step(p: &Position, symbol: Sym, reached: &[bool], next: &mut [bool])
    ensures marked { (k : ℕ) → Marked next.new k → (j : ℕ) × Marked reached.now j × Leads p.now j k × HasAt p.now k symbol }
{
    next.fill(false);
    'rows: for (j, row) in p.follow.as_slice().iter().enumerate() {
        if j < reached.len() && reached[j] {
            enter(p, symbol, row.as_slice(), next);
        }
    }
}

/// Whether one of the positions is marked.
fn some_marked(positions: &[u32], flags: &[bool]) -> bool
    ensures { IsTrue result → (k : ℕ) × Contains positions.now k × Marked flags.now k }
{
    'positions: for position in positions {
        if flags.get(*position as usize) == Some(&true) {
            return true;
        }
    }
    false
}

/// Whether the automaton accepts a word. Where it has more than 512 positions, the answer may be
/// no although it does.
pub fn accepts(p: &Position, word: &[Sym]) -> bool
    ensures { IsTrue result → Accepts p.now word.now }
{
    if word.is_empty() {
        return p.nullable;
    }
    let mut reached = [false; MOST_POSITIONS];
    enter(p, word[0], p.first.as_slice(), &mut reached);
    'symbols: for place in 1..word.len() {
        let before = reached;
        step(p, word[place], &before, &mut reached);
    }
    some_marked(p.last.as_slice(), &reached)
}

/// Whether the moves from the row at a cell lead by the atoms to a row where a run may end.
pub fn says(cells: &[u32], count: u32, start: u32, atoms: &[u16]) -> bool
    ensures { IsTrue result → Says cells.now count start atoms.now }
{
    let mut row = start;
    'atoms: for atom in atoms {
        let place = row as usize + *atom as usize;
        if place >= cells.len() {
            return false;
        }
        row = cells[place];
    }
    let end = row as usize + count as usize;
    end < cells.len() && cells[end] == 1
}
