ghost use Rattle.std.specs.Prelude.{◌≡◌, ◌<◌, ◌≤◌, Some, length, slice_get, slice_range, IsTrue, IfSome};
ghost use Rattle.xs_gram.specs.{NamesAreThere, IsTermWord, IsSkipWord, IsBuilt};
ghost use Rattle.xs_regex.specs.{Accepts};
ghost use Rattle.xs_parse_table.specs.Moves.{Says};
ghost use Rattle.xs_parse_table.specs.Validators.{IsReady, AreSaid};
ghost use Rattle.xs_parse_table.specs.Nodes.{IsWordPart, IsChild, ItemEnds};

use crate::runs::{accepts, says};
use crate::{Node, Validator};
use xs_class::Sym;
use xs_gram::{GItem, Gram};
use xs_regex::Position;

/// Whether the words are the same, symbol by symbol: most are too short for a comparison of memory.
#[inline(always)]
fn are_same(a: &[Sym], b: &[Sym]) -> bool
    ensures { IsTrue result → a.now ≡ b.now }
{
    if a.len() != b.len() {
        return false;
    }
    if let ([only], [other]) = (a, b) {
        return only == other;
    }
    'places: for place in 0..a.len() {
        if a[place] != b[place] {
            return false;
        }
    }
    true
}

/// Whether the word stands in the document from one place up to another.
#[inline(always)]
fn is_word(doc: &[Sym], at: u32, to: u32, word: &[Sym]) -> bool
    ensures { IsTrue result → IsWordPart (λ w. w ≡ word.now) doc.now at to to }
{
    if to < at || doc.len() < to as usize {
        return false;
    }
    let there = &doc[at as usize..to as usize];
    are_same(there, word)
}

/// Whether the automaton accepts what stands in the document from one place up to another.
fn is_accepted(doc: &[Sym], at: u32, to: u32, p: &Position) -> bool
    ensures { IsTrue result → IsWordPart (λ w. Accepts p.now w) doc.now at to to }
{
    if to < at || doc.len() < to as usize {
        return false;
    }
    let there = &doc[at as usize..to as usize];
    accepts(p, there)
}

/// Whether the moves from the row at a cell say so of the atoms from one place up to another.
fn is_said(cells: &[u32], count: u32, start: u32, atoms: &[u16], at: u32, to: u32) -> bool
    ensures risen { IsTrue result → at ≤ to }
    ensures says { IsTrue result → Says cells.now count start (slice_range atoms.now at to) }
{
    if to < at || atoms.len() < to as usize {
        return false;
    }
    let there = &atoms[at as usize..to as usize];
    says(cells, count, start, there)
}

/// Whether a word of the automaton stands in the document from one place up to another, by its moves
/// where it has some.
fn is_of(
    validator: &Validator,
    start: Option<u32>,
    p: &Position,
    doc: &[Sym],
    atoms: &[u16],
    at: u32,
    to: u32,
) -> bool
    requires moves { AreSaid validator.now start p.now doc.now atoms.now }
    ensures { IsTrue result → IsWordPart (λ w. Accepts p.now w) doc.now at to to }
{
    let Some(cell) = start else {
        return is_accepted(doc, at, to, p);
    };
    if doc.len() < to as usize {
        return false;
    }
    is_said(&validator.cells, validator.count, cell, atoms, at, to)
}

/// The start of an automaton's rows, where it has some.
fn start_of(starts: &[Option<u32>], number: u32) -> Option<u32>
    ensures { IfSome result (λ start. slice_get starts.now number ≡ Some (Some start)) }
{
    let place = number as usize;
    if place < starts.len() {
        starts[place]
    } else {
        None
    }
}

/// The end of a child of node v: the node before it that is of a rule of the nonterminal and begins
/// at the place.
#[inline(always)]
fn child_end(
    g: &Gram,
    doc: &[Sym],
    nodes: &[Node],
    v: u32,
    non: u32,
    at: u32,
    part: u32,
) -> Option<u32>
    ensures { IfSome result (IsChild g.now doc.now nodes.now v non at part) }
{
    if v <= part || nodes.len() <= part as usize {
        return None;
    }
    let child = nodes[part as usize];
    if child.from != at || doc.len() < child.to as usize || g.rules() <= child.production {
        return None;
    }
    if g.non_of(child.production) == non {
        Some(child.to)
    } else {
        None
    }
}

/// The place where an item of node v ends that begins at a place and has this part, or None where
/// its part is not right.
#[inline(always)]
pub fn item_end(
    validator: &Validator,
    g: &Gram,
    doc: &[Sym],
    atoms: &[u16],
    nodes: &[Node],
    v: u32,
    item: &GItem,
    at: u32,
    part: u32,
) -> Option<u32>
    requires built { IsBuilt g.now }
    requires ready { IsReady g.now validator.now doc.now atoms.now }
    requires there { NamesAreThere g.now item.now }
    ensures { IfSome result (ItemEnds g.now doc.now nodes.now v item.now at part) }
{
    let right = match item {
        GItem::Fixed(word) => is_word(doc, at, part, word.as_slice()),
        GItem::Term { term, .. } => {
            let start = start_of(&validator.terms, *term);
            is_of(validator, start, g.term(*term), doc, atoms, at, part)
        }
        GItem::Skip { skip } => {
            let start = start_of(&validator.skips, *skip);
            is_of(validator, start, g.skip(*skip), doc, atoms, at, part)
        }
        GItem::Non { non, .. } => return child_end(g, doc, nodes, v, *non, at, part),
    };
    if right { Some(part) } else { None }
}
