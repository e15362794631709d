ghost use Rattle.std.specs.Prelude.{◌≡◌, ◌<◌, ◌/◌, ◌%◌, [], slice_get, slice_index_or, IfOk, IfSome};
ghost use Rattle.xs_atoms.specs.Pages.{cell_of};

use crate::distinct::Distinct;
use crate::fault::AtomsFault;
use crate::fixed::fixed_ranges;
use crate::numbers::leaf_numbers;
use crate::pages::pages_of;
use crate::sweep::sweep;
use crate::turns::turns_of;
use std::alloc::Global;
use xs_class::{Class, Memory, Sym};
use xs_gram::Gram;
use xs_regex::Numbers;

/// The atoms of a grammar: a number for each symbol, the same for symbols that no class of the
/// grammar tells apart.
///
/// Each distinct class has a number too, and class 0 is that of the symbols of fixed words.
#[derive(Debug, Drop)]
pub struct Atoms {
    rest: u16,
    pages: Vec<u32>,
    cells: Vec<u16>,
    width: u32,
    count: u16,
    rows: Vec<bool>,
    terms: Vec<Numbers>,
    skips: Vec<Numbers>,
}

/// The atom of a symbol by a table of two levels.
#[inline(always)]
fn atom_at(pages: &[u32], cells: &[u16], rest: u16, s: Sym) -> u16
    ensures { result ≡ cell_of cells.now rest (s % 256) (slice_get pages.now (s / 256)) }
{
    let number = s.number();
    match pages.get((number / 256) as usize) {
        None => rest,
        Some(page) => match cells.get(*page as usize + (number % 256) as usize) {
            None => rest,
            Some(atom) => *atom,
        },
    }
}

impl Atoms {
    ghost use Rattle.xs_atoms.specs.Alphabet.{AreAtoms, count_of, width_of, atom_of, term_classes, skip_classes, term_class, skip_class, class_has, word_of};

    /// The atoms of a grammar, or None where it has 65,535 atoms or more, where its classes and
    /// atoms make more than about 2^24 pairs, or where 32 bits do not number its classes or the
    /// cells of its symbols.
    ///
    /// In time about linear in the ranges of its classes, but for the sorting of their ends and a
    /// row of the classes for each stretch between them.
    pub fn of(alloc: Global, g: &Gram) -> Result<Option<Atoms>, Memory>
        ensures { IfOk result (λ o. IfSome o (AreAtoms g.now)) }
    {
        match Atoms::made(alloc, g) {
            Ok(atoms) => Ok(Some(atoms)),
            Err(AtomsFault::TooMany) => Ok(None),
            Err(AtomsFault::Memory) => Err(Memory),
        }
    }

    /// The same, with a cause where there are none.
    fn made(alloc: Global, g: &Gram) -> Result<Atoms, AtomsFault>
        ensures { IfOk result (AreAtoms g.now) }
    {
        let fixed = fixed_ranges(alloc, g)?;
        let class = Class::from_ranges(alloc, &fixed)?;
        let mut distinct = Distinct::one(alloc, &class)?;
        let leaves = leaf_numbers(alloc, g, &mut distinct)?;
        let turns = turns_of(alloc, &distinct, &fixed)?;
        let Some(draft) = sweep(alloc, distinct.len(), &turns)? else {
            return Err(AtomsFault::TooMany);
        };
        let Ok(width) = u32::try_from(distinct.len()) else {
            return Err(AtomsFault::TooMany);
        };
        let pages = pages_of(alloc, &draft.stretches, draft.firsts.len())?;
        Ok(Atoms {
            rest: pages.rest,
            pages: pages.pages,
            cells: pages.cells,
            width,
            count: draft.firsts.len() as u16,
            rows: draft.rows,
            terms: leaves.terms,
            skips: leaves.skips,
        })
    }

    /// The number of atoms, which is also the atom of the end of a document.
    pub fn count(&self) -> u32
        ensures count { result ≡ count_of self.now }
        ensures small { result < 65536 }
    {
        u32::from(self.count)
    }

    /// The atom of a symbol, in constant time.
    pub fn of_symbol(&self, s: Sym) -> u16
        ensures { result ≡ atom_of self.now s }
    {
        atom_at(&self.pages, &self.cells, self.rest, s)
    }

    /// The atoms of a document's symbols, and then that of its end as often as the padding says.
    pub fn word(&self, alloc: Global, doc: &[Sym], padding: usize) -> Result<Vec<u16>, Memory>
        ensures { IfOk result (λ word. word.items ≡ word_of self.now doc.now padding) }
    {
        let Some(room) = doc.len().checked_add(padding) else {
            return Err(Memory);
        };
        let mut atoms = Vec::with_capacity(alloc, room)?;
        let pages = self.pages.as_slice();
        let cells = self.cells.as_slice();
        let rest = self.rest;
        'symbols: for symbol in doc {
            atoms.push_reserved(atom_at(pages, cells, rest, *symbol));
        }
        'ends: for _ in 0..padding {
            atoms.push_reserved(self.count);
        }
        Ok(atoms)
    }

    /// The number of distinct classes.
    pub fn classes(&self) -> u32
        ensures { result ≡ width_of self.now }
    {
        self.width
    }

    /// The numbers of the classes at the positions of a terminal's automaton.
    pub fn term_classes(&self, term: u32) -> &[u32]
        ensures { result.now ≡ term_classes self.now term }
    {
        row_at(&self.terms, term)
    }

    /// The numbers of the classes at the positions of an ignorable's automaton.
    pub fn skip_classes(&self, skip: u32) -> &[u32]
        ensures { result.now ≡ skip_classes self.now skip }
    {
        row_at(&self.skips, skip)
    }

    /// The number of the class at a position of a terminal's automaton, 0 where there is none.
    pub fn term_class(&self, term: u32, position: u32) -> u32
        ensures { result ≡ term_class self.now term position }
    {
        number_at(self.term_classes(term), position)
    }

    /// The number of the class at a position of an ignorable's automaton, 0 where there is none.
    pub fn skip_class(&self, skip: u32, position: u32) -> u32
        ensures { result ≡ skip_class self.now skip position }
    {
        number_at(self.skip_classes(skip), position)
    }

    /// Whether a class has the symbols of an atom, in constant time.
    pub fn class_has(&self, class: u32, atom: u16) -> bool
        ensures { result ≡ class_has self.now class atom }
    {
        let place = self.width as usize * atom as usize + class as usize;
        place < self.rows.len() && self.rows[place]
    }
}

/// A row, and the empty one where there is none.
fn row_at(rows: &[Numbers], row: u32) -> &[u32]
    ensures { result.now ≡ slice_index_or rows.now row [] }
{
    let number = row as usize;
    if number < rows.len() {
        rows[number].as_slice()
    } else {
        &[]
    }
}

/// The number at a place of a row, 0 where there is none.
fn number_at(row: &[u32], place: u32) -> u32
    ensures { result ≡ slice_index_or row.now place 0 }
{
    let at = place as usize;
    if at < row.len() { row[at] } else { 0 }
}
