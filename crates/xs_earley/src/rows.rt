ghost use Rattle.std.specs.Prelude.{◌≡◌, ◌<◌, ◌≤◌, ◌↔◌, ◌^◌, ◌++◌, ℕ, List, length, map, slice_index_or, slice_range, IsTrue, IfOk, OnErr};
ghost use Rattle.xs_gram.specs.{ItemAt, all_places, IsPlace, IsBuilt};
ghost use Rattle.xs_order.specs.{AreNullable};
ghost use Rattle.xs_chart_laws.specs.{IsPassed};
ghost use Rattle.xs_earley.specs.Facts.{MayEnd, IsKind, IsRow, AreRows, next_at, acts_at};
ghost use Rattle.xs_gram.specs.declared.parts.GItem.TheVariants.{Fixed};

use crate::places::{after, item_at};
use std::alloc::Global;
use xs_class::{Memory, Sym, Word};
use xs_gram::{GItem, Gram, Place};
use xs_order::Flags;
use xs_regex::Position;

/// What stands at a place: the end of a rule of a nonterminal, a nonterminal, a fixed word, or a
/// terminal or an ignorable by its number.
///
/// A fixed word is given by where it begins and ends in a list of all their symbols.
#[derive(Clone, Copy, Debug)]
pub enum Stand {
    AtEnd(u32),
    AtNon(u32),
    AtWord(usize, usize),
    AtTerm(u32),
    AtSkip(u32),
}

/// The facts of a place: what stands there, the numbers of the place before that item and of the
/// place after it, and whether the item may be passed over or ended there.
#[derive(Clone, Copy, Debug)]
pub struct Row {
    pub stand: Stand,
    pub base: u32,
    pub next: u32,
    pub passes: bool,
}

/// Whether a word of the automaton may end where the position was reached, or before any.
fn may_end(automaton: &Position, inside: Option<u32>) -> bool
    ensures { IsTrue result ↔ MayEnd automaton.now inside }
{
    match inside {
        None => automaton.nullable,
        Some(position) => automaton.last.as_slice().contains(&position),
    }
}

/// Whether the item at the place may be passed over, or ended there.
fn is_passed(g: &Gram, nulls: &Flags, place: Place, item: &GItem) -> bool
    requires built { IsBuilt g.now }
    requires nulls { AreNullable g.now nulls.now }
    requires place { IsPlace g.now place }
    requires item { ItemAt g.now place.rule place.dot item.now }
    ensures { IsTrue result ↔ IsPassed g.now place }
{
    match item {
        GItem::Fixed(_) => false,
        GItem::Non { non, .. } => *nulls.at(*non as usize),
        GItem::Term { term, .. } => may_end(g.term(*term), place.inside),
        GItem::Skip { skip } => may_end(g.skip(*skip), place.inside),
    }
}

/// Appends the symbols of a fixed word, and gives where they stand.
fn push_word(letters: &mut Vec<Sym>, word: &Word) -> Result<Stand, Memory>
    requires { 0 < length word.now }
    ensures letters { IfOk result (λ _. letters.new.items ≡ letters.old.items ++ word.now) }
    ensures stand { IfOk result (IsKind letters.new.items (Fixed word.now)) }
{
    let from = letters.len();
    letters.extend_from_slice(word.as_slice())?;
    Ok(Stand::AtWord(from, letters.len()))
}

/// What the item is; the symbols of a fixed word are appended.
fn stand_of(letters: &mut Vec<Sym>, item: &GItem) -> Result<Stand, Memory>
    requires words { (f : List ℕ) → item.now ≡ Fixed f → 0 < length f }
    ensures letters { IfOk result (λ _. (more : List ℕ) × (letters.new.items ≡ letters.old.items ++ more)) }
    ensures stand { IfOk result (IsKind letters.new.items item.now) }
{
    match item {
        GItem::Fixed(word) => {
            let stand = push_word(letters, word)?;
            Ok(stand)
        }
        GItem::Non { non, .. } => Ok(Stand::AtNon(*non)),
        GItem::Term { term, .. } => Ok(Stand::AtTerm(*term)),
        GItem::Skip { skip } => Ok(Stand::AtSkip(*skip)),
    }
}

/// The row of a place.
fn row_of(g: &Gram, nulls: &Flags, letters: &mut Vec<Sym>, place: Place) -> Result<Row, Memory>
    requires built { IsBuilt g.now }
    requires nulls { AreNullable g.now nulls.now }
    requires place { IsPlace g.now place }
    ensures letters { IfOk result (λ _. (more : List ℕ) × (letters.new.items ≡ letters.old.items ++ more)) }
    ensures row { IfOk result (IsRow g.now letters.new.items place) }
{
    let base = g.number(Place {
        rule: place.rule,
        dot: place.dot,
        inside: None,
    });
    match item_at(g, place) {
        None => Ok(Row {
            stand: Stand::AtEnd(g.non_of(place.rule)),
            base,
            next: base,
            passes: false,
        }),
        Some(item) => {
            let stand = stand_of(letters, item)?;
            let next = g.number(after(g, place));
            let passes = is_passed(g, nulls, place, item);
            Ok(Row {
                stand,
                base,
                next,
                passes,
            })
        }
    }
}

/// The row of each place, and the symbols of all fixed words.
pub fn rows_of(alloc: Global, g: &Gram, nulls: &Flags) -> Result<(Vec<Row>, Vec<Sym>), Memory>
    requires built { IsBuilt g.now }
    requires nulls { AreNullable g.now nulls.now }
    ensures rows { IfOk result (λ r. AreRows g.now r.1.items (length (all_places g.now)) r.0.items) }
    ensures few { IfOk result (λ r. length r.1.items < 2 ^ 63) }
{
    let mut letters = Vec::new(alloc);
    let mut rows = Vec::with_capacity(alloc, g.places() as usize)?;
    'places: for number in 0..g.places() {
        let row = row_of(g, nulls, &mut letters, g.place(number))?;
        rows.push(row)?;
    }
    let _few = letters.len();
    Ok((rows, letters))
}

/// Of each row the number of the place after its item.
pub fn nexts_of(alloc: Global, rows: &[Row]) -> Result<Vec<u32>, Memory>
    ensures { IfOk result (λ nexts. nexts.items ≡ map next_at rows.now) }
{
    let mut nexts = Vec::with_capacity(alloc, rows.len())?;
    'rows: for row in rows {
        nexts.push(row.next)?;
    }
    Ok(nexts)
}

/// Whether an item of the row may lead on within its set.
fn may_act(row: Row) -> bool
    ensures { result ≡ acts_at row }
{
    if row.passes {
        return true;
    }
    match row.stand {
        Stand::AtEnd(_) => true,
        Stand::AtNon(_) => true,
        Stand::AtWord(_, _) => false,
        Stand::AtTerm(_) => false,
        Stand::AtSkip(_) => false,
    }
}

/// Of each row whether an item of it may lead on within its set.
pub fn acts_of(alloc: Global, rows: &[Row]) -> Result<Vec<bool>, Memory>
    ensures { IfOk result (λ acts. acts.items ≡ map acts_at rows.now) }
{
    let mut acts = Vec::with_capacity(alloc, rows.len())?;
    'rows: for row in rows {
        acts.push(may_act(*row))?;
    }
    Ok(acts)
}
