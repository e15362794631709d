ghost use Rattle.std.specs.Prelude.{◌≡◌, ◌<◌, ◌≤◌, length, slice_range, IsTrue, IfOk, IfSome};
ghost use Rattle.xs_atoms.specs.{AreAtoms};
ghost use Rattle.xs_gram.specs.{Derivation, Derives, IsBuilt};
ghost use Rattle.xs_parse_table.specs.Moves.{AreMoves};
ghost use Rattle.xs_parse_table.specs.Rows.{AreLonger, AreMovesOf, automaton_of, count_of};
ghost use Rattle.xs_parse_table.specs.Tables.{IsTreeOf};

use crate::ParseTable;
use crate::check::derives;
use crate::moves::push_rows;
use std::alloc::Global;
use xs_atoms::Atoms;
use xs_class::{Memory, Sym};
use xs_gram::Gram;

/// The check of parse tables of a grammar: the moves of its automata over its atoms, by which the
/// words of terminals and ignorables are run.
#[derive(Debug, Drop)]
pub struct Validator {
    pub count: u32,
    pub cells: Vec<u32>,
    pub terms: Vec<Option<u32>>,
    pub skips: Vec<Option<u32>>,
}

impl Validator {
    ghost use Rattle.xs_parse_table.specs.Validators.{IsValidatorOf, IsReady};

    /// The moves of each terminal and ignorable that has few enough sets of positions: at most twice
    /// its positions and 16, as far as 32 bits number their cells. All others are run by their
    /// automata.
    pub fn of(alloc: Global, g: &Gram, atoms: &Atoms) -> Result<Validator, Memory>
        requires { AreAtoms g.now atoms.now }
        ensures { IfOk result (IsValidatorOf g.now atoms.now) }
    {
        let mut cells = Vec::new(alloc);
        let terms = moves_of(alloc, g, atoms, Kind::Terminals, g.terms(), &mut cells)?;
        let skips = moves_of(alloc, g, atoms, Kind::Ignorables, g.skips(), &mut cells)?;
        Ok(Validator {
            count: atoms.count(),
            cells,
            terms,
            skips,
        })
    }

    /// Whether the table means a derivation of the document, whose atoms are given; where the answer
    /// is no it still may. In time linear in the table and, where each part of it is of one node, in
    /// the document, without memory.
    pub fn validate(&self, g: &Gram, doc: &[Sym], atoms: &[u16], table: &ParseTable) -> bool
        requires built { IsBuilt g.now }
        requires ready { IsReady g.now self.now doc.now atoms.now }
        ensures { IsTrue result → ((d : Derivation) × IsTreeOf table.now doc.now d × Derives g.now doc.now d) }
    {
        derives(self, g, doc, atoms, table)
    }
}

/// The kinds of leaves that have automata.
#[derive(Clone, Copy)]
enum Kind {
    Terminals,
    Ignorables,
}

/// The first cells of the rows of the leaves of a kind, of which there are that many.
fn moves_of(
    alloc: Global,
    g: &Gram,
    atoms: &Atoms,
    kind: Kind,
    count: u32,
    cells: &mut Vec<u32>,
) -> Result<Vec<Option<u32>>, Memory>
    requires are { AreAtoms g.now atoms.now }
    requires count { count ≡ count_of g.now kind }
    ensures cells { IfOk result (λ _. AreLonger cells.old.items cells.new.items) }
    ensures moves { IfOk result (λ starts. AreMovesOf g.now kind atoms.now cells.new.items starts.items) }
{
    let mut starts = Vec::with_capacity(alloc, count as usize)?;
    'leaves: for leaf in 0..count {
        let start = push_leaf(alloc, g, atoms, kind, leaf, cells)?;
        starts.push(start)?;
    }
    Ok(starts)
}

/// Appends the rows of a leaf's automaton, and gives the first cell of its start's, if it has some.
fn push_leaf(
    alloc: Global,
    g: &Gram,
    atoms: &Atoms,
    kind: Kind,
    leaf: u32,
    cells: &mut Vec<u32>,
) -> Result<Option<u32>, Memory>
    requires are { AreAtoms g.now atoms.now }
    requires leaf { leaf < count_of g.now kind }
    ensures cells { IfOk result (λ _. AreLonger cells.old.items cells.new.items) }
    ensures moves { IfOk result (λ o. IfSome o (AreMoves (automaton_of g.now kind leaf) atoms.now cells.new.items)) }
{
    match kind {
        Kind::Terminals => push_rows(alloc, g.term(leaf), atoms.term_classes(leaf), atoms, cells),
        Kind::Ignorables => push_rows(alloc, g.skip(leaf), atoms.skip_classes(leaf), atoms, cells),
    }
}
