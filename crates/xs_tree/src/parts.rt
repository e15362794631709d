ghost use Rattle.std.specs.Prelude.{◌≡◌, ◌<◌, ◌≤◌, ◌+◌, ◌∷◌, ◌++◌, [], Some, length, slice_get, vec_len, vec_capacity, OnOk, OnErr, IfOk};
ghost use Rattle.xs_tree.specs.Flat.{Leaf, Node};
ghost use Rattle.xs_tree.specs.Lent.{lent};

use crate::Part;
use std::alloc::Global;
use std::marker::Model;
use xs_class::{Memory, Sym};

/// Up to that many elements are appended one by one: a copy of memory costs more to begin.
const SHORT: usize = 6;

/// Appends elements one by one, for which there is room.
#[inline(always)]
fn append_each<T: Copy + Drop>(list: &mut Vec<T>, piece: &[T])
    requires { vec_len list.old + length piece.now ≤ vec_capacity list.old }
    ensures { list.new.items ≡ list.old.items ++ piece.now }
{
    'elements: for element in piece {
        list.push_reserved(*element);
    }
}

/// Appends elements, or all stays as it was.
#[inline(always)]
fn append<T: Copy + Drop>(list: &mut Vec<T>, piece: &[T]) -> Result<(), Memory>
    ensures ok { OnOk result (list.new.items ≡ list.old.items ++ piece.now) }
    ensures err { OnErr result (list.new.items ≡ list.old.items) }
{
    if piece.len() > SHORT {
        list.extend_from_slice(piece)?;
        return Ok(());
    }
    list.reserve(piece.len())?;
    append_each(list, piece);
    Ok(())
}

/// Where the word of a leaf stands among all symbols, or where the children of a node stand among
/// all children.
#[derive(Clone, Copy, Debug)]
pub enum Row {
    Word {
        begin: usize,
        end: usize,
    },
    Made {
        production: u32,
        begin: usize,
        end: usize,
    },
}

/// The parts of a flat tree, as contracts see it the list of them: a row for each, the children of
/// all, and the symbols of all leaves. No part has an allocation of its own.
#[derive(Debug, Drop)]
pub struct Parts {
    rows: Vec<Row>,
    kids: Vec<u64>,
    symbols: Vec<Sym>,
}

impl Model for Parts {
    ghost use Rattle.std.specs.Prelude.{List};
    ghost use Rattle.xs_tree.specs.Flat.{TreePart};

    ghost Value = { List TreePart };

    ghost use Rattle.xs_tree.specs.Rows.{AreWithin, row_parts};

    ghost view = { λ p. row_parts p.kids.items p.symbols.items p.rows.items };

    ghost invariant = { λ p. AreWithin p.kids.items p.symbols.items p.rows.items };
}

impl Parts {
    /// No part yet, without memory.
    pub fn new(alloc: Global) -> Self
        ensures { result ≡ [] }
    {
        Parts {
            rows: Vec::new(alloc),
            kids: Vec::new(alloc),
            symbols: Vec::new(alloc),
        }
    }

    /// Room for that many more parts, children in all, and symbols of leaves in all.
    pub fn reserve(&mut self, parts: usize, kids: usize, symbols: usize) -> Result<(), Memory>
        ensures { self.new ≡ self.old }
    {
        self.rows.reserve(parts)?;
        self.kids.reserve(kids)?;
        self.symbols.reserve(symbols)?;
        Ok(())
    }

    /// The number of parts.
    pub fn len(&self) -> usize
        ensures { result ≡ length self.now }
    {
        self.rows.len()
    }

    /// Part i, counted from 0.
    pub fn part(&self, i: usize) -> Part<'_>
        requires { i < length self.now }
        ensures { slice_get self.now i ≡ Some (lent result) }
    {
        match self.rows[i] {
            Row::Word { begin, end } => Part::Leaf(&self.symbols[begin..end]),
            Row::Made {
                production,
                begin,
                end,
            } => Part::Node {
                production,
                kids: &self.kids[begin..end],
            },
        }
    }

    /// A new last leaf, or all stays as it was.
    #[inline(always)]
    pub fn push_leaf(&mut self, word: &[Sym]) -> Result<(), Memory>
        ensures ok { OnOk result (self.new ≡ self.old ++ Leaf word.now ∷ []) }
        ensures err { OnErr result (self.new ≡ self.old) }
    {
        self.rows.reserve(1)?;
        let begin = self.symbols.len();
        append(&mut self.symbols, word)?;
        let end = self.symbols.len();
        self.rows.push_reserved(Row::Word { begin, end });
        Ok(())
    }

    /// A new last node, or all stays as it was.
    #[inline(always)]
    pub fn push_node(&mut self, production: u32, kids: &[u64]) -> Result<(), Memory>
        ensures ok { OnOk result (self.new ≡ self.old ++ Node production kids.now ∷ []) }
        ensures err { OnErr result (self.new ≡ self.old) }
    {
        self.rows.reserve(1)?;
        let begin = self.kids.len();
        append(&mut self.kids, kids)?;
        let end = self.kids.len();
        self.rows.push_reserved(Row::Made {
            production,
            begin,
            end,
        });
        Ok(())
    }
}
