ghost use Rattle.std.specs.Prelude.{◌≡◌, ◌<◌, ◌↔◌, ℕ, length, Some, IfOk, Contains};
ghost use Rattle.xs_chart.specs.{AreDifferent};
ghost use Rattle.xs_atoms.specs.{term_classes, skip_classes};
ghost use Rattle.xs_atoms.specs.declared.atoms.Atoms.{Atoms as AnyAtoms};
ghost use Rattle.xs_gram.specs.{all_places, IsBuilt};
ghost use Rattle.xs_order.specs.{AreNullable};
ghost use Rattle.xs_earley.specs.Starts.{IsStart, AreStarts, AreEnds};
ghost use Rattle.xs_earley.specs.Facts.{AreFacts, IsAtom, row_at};
ghost use Rattle.xs_earley.specs.Masks.{AreMasks};

use crate::masks::masks_of;
use crate::rows::{Row, acts_of, nexts_of, rows_of};
use std::alloc::Global;
use xs_atoms::Atoms;
use xs_class::{Memory, Sym, empty_lists};
use xs_gram::{Gram, Place};
use xs_order::{Flags, nullable};
use xs_regex::Numbers;

/// Of each nonterminal, whether it derives the empty word, and the states in which its rules begin;
/// the states in which the rules of the start end; of each place a row, the number of the place after its item, and whether an item there may lead on
/// within its set; the symbols of all fixed words; the grammar's atoms, where it has few; and of each
/// place a mask, by which most items that cannot read a symbol are passed over.
#[derive(Drop)]
pub struct Facts {
    pub nulls: Flags,
    pub starts: Vec<Numbers>,
    pub ends: Vec<u32>,
    pub rows: Vec<Row>,
    pub nexts: Vec<u32>,
    pub acts: Vec<bool>,
    pub letters: Vec<Sym>,
    pub atoms: Option<Atoms>,
    pub masks: Vec<u64>,
}

/// The states in which the rules of each nonterminal begin.
fn starts_of(alloc: Global, g: &Gram) -> Result<Vec<Numbers>, Memory>
    requires built { IsBuilt g.now }
    ensures { IfOk result (λ rows. AreStarts g.now (length g.now.rules) rows.items) }
{
    let mut rows: Vec<Numbers> = empty_lists(alloc, g.nons() as usize)?;
    'rules: for rule in 0..g.rules() {
        let state = g.number(Place {
            rule,
            dot: 0,
            inside: None,
        });
        let row = &mut rows[g.non_of(rule) as usize];
        row.push(state)?;
    }
    Ok(rows)
}

/// The states in which the rules of the start end.
fn ends_of(alloc: Global, g: &Gram) -> Result<Vec<u32>, Memory>
    requires built { IsBuilt g.now }
    ensures { IfOk result (λ ends. AreEnds g.now (length g.now.rules) ends.items) }
{
    let mut ends = Vec::new(alloc);
    'rules: for rule in 0..g.rules() {
        if g.non_of(rule) == g.start() {
            let dot = g.items(rule).len() as u32;
            ends.push(g.number(Place {
                rule,
                dot,
                inside: None,
            }))?;
        }
    }
    Ok(ends)
}

impl Facts {
    /// The facts of a grammar; linear in its nonterminals, rules, places, fixed words and automata,
    /// beyond its atoms with their classes and the nonterminals that derive the empty word.
    pub fn of(alloc: Global, g: &Gram) -> Result<Facts, Memory>
        requires built { IsBuilt g.now }
        ensures facts { IfOk result (AreFacts g.now) }
        ensures masks { IfOk result (λ facts. AreMasks g.now facts (length (all_places g.now)) facts.masks.items) }
    {
        let nulls = nullable(alloc, g)?;
        let starts = starts_of(alloc, g)?;
        let ends = ends_of(alloc, g)?;
        let (rows, letters) = rows_of(alloc, g, &nulls)?;
        let nexts = nexts_of(alloc, &rows)?;
        let acts = acts_of(alloc, &rows)?;
        let atoms = Atoms::of(alloc, g)?;
        let _places = g.places();
        let mut facts = Facts {
            nulls,
            starts,
            ends,
            rows,
            nexts,
            acts,
            letters,
            atoms,
            masks: Vec::new(alloc),
        };
        let masks = masks_of(alloc, g, &facts)?;
        facts.masks = masks;
        Ok(facts)
    }

    /// The states in which the rules of the nonterminal begin, each once.
    #[inline(always)]
    pub fn starts(&self, g: &Gram, non: u32) -> &[u32]
        requires facts { AreFacts g.now self.now }
        requires non { non < g.now.nons }
        ensures is { (state : ℕ) → Contains result.now state ↔ IsStart g.now non state }
        ensures different { AreDifferent result.now }
    {
        self.starts[non as usize].as_slice()
    }

    /// The row of a place by its number.
    #[inline(always)]
    pub fn row(&self, state: u32) -> Row
        requires { state < length self.now.rows.items }
        ensures { result ≡ row_at self.now.rows.items state }
    {
        self.rows[state as usize]
    }

    /// The atom of a symbol, where the grammar has atoms.
    #[inline(always)]
    pub fn atom(&self, symbol: Sym) -> u16
        ensures { IsAtom self.now symbol result }
    {
        match &self.atoms {
            Some(atoms) => atoms.of_symbol(symbol),
            None => 0,
        }
    }

    /// The numbers of the classes at the positions of a terminal, where the grammar has atoms.
    #[inline(always)]
    pub fn term_classes(&self, term: u32) -> &[u32]
        ensures { (atoms : AnyAtoms) → self.now.atoms ≡ Some atoms → result.now ≡ term_classes atoms term }
    {
        match &self.atoms {
            Some(atoms) => atoms.term_classes(term),
            None => &[],
        }
    }

    /// The numbers of the classes at the positions of an ignorable, where the grammar has atoms.
    #[inline(always)]
    pub fn skip_classes(&self, skip: u32) -> &[u32]
        ensures { (atoms : AnyAtoms) → self.now.atoms ≡ Some atoms → result.now ≡ skip_classes atoms skip }
    {
        match &self.atoms {
            Some(atoms) => atoms.skip_classes(skip),
            None => &[],
        }
    }
}
