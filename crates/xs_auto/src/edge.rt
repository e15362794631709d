ghost use Rattle.std.specs.Prelude.{◌≡◌, ℕ, ◌<◌, ◌≤◌, length, map, slice_get, Some, IfSome, IfNone};
ghost use Rattle.std.specs.List.{All};
ghost use Rattle.xs_class.specs.{Has};
ghost use Rattle.xs_auto.specs.Layout.{seen, NamesBelow};

use crate::common::first_common;
use std::marker::Model;
use xs_class::{Class, Sym};

/// An edge by the number of its class.
#[derive(Clone, Copy, Debug)]
pub struct EdgeRow {
    pub class: usize,
    pub to: u32,
}

/// An edge, which reads one symbol of its class and leads to a state.
#[derive(Debug, Drop)]
pub struct Edge<'n> {
    class: &'n Class,
    to: u32,
}

impl<'n> Model for Edge<'n> {
    ghost use Rattle.xs_auto.specs.Edges.{Edge};

    ghost Value = { Edge };

    ghost view = { λ e. record { class = e.class.now; to = e.to } };
}

impl<'n> Edge<'n> {
    /// The symbols that it reads.
    pub fn class(&self) -> &'n Class
        ensures { result.now ≡ self.now.class }
    {
        self.class
    }

    /// The least symbol that both edges read, by one walk over the ranges of both classes.
    #[inline(always)]
    pub fn first_common(&self, other: &Edge<'_>) -> Option<Sym>
        ensures first { IfSome result (Has self.now.class) }
        ensures second { IfSome result (Has other.now.class) }
        ensures least { IfSome result (λ x. (s : ℕ) → Has self.now.class s → Has other.now.class s → x ≤ s) }
        ensures none { IfNone result ((s : ℕ) → Has self.now.class s → Has other.now.class s → ⊥) }
    {
        first_common(self.class, other.class)
    }

    /// The state that it leads to.
    #[inline(always)]
    pub fn to(&self) -> u32
        ensures { result ≡ self.now.to }
    {
        self.to
    }
}

/// The class of a number.
#[inline(always)]
fn class_at(classes: &[Class], number: usize) -> &Class
    requires { number < length classes.now }
    ensures { slice_get classes.now number ≡ Some result.now }
{
    &classes[number]
}

/// Row k, counted from 0.
#[inline(always)]
fn row_at(rows: &[EdgeRow], k: usize) -> EdgeRow
    requires { k < length rows.now }
    ensures { slice_get rows.now k ≡ Some result }
{
    rows[k]
}

/// The edges that lead from a state.
#[derive(Debug, Drop)]
pub struct Edges<'n> {
    classes: &'n [Class],
    rows: &'n [EdgeRow],
}

impl<'n> Model for Edges<'n> {
    ghost use Rattle.std.specs.Prelude.{List, map, length};
    ghost use Rattle.std.specs.List.{All};
    ghost use Rattle.xs_auto.specs.Edges.{Edge};
    ghost use Rattle.xs_auto.specs.Layout.{seen, NamesBelow};

    ghost Value = { List Edge };

    ghost view = { λ e. map (seen e.classes.now) e.rows.now };

    ghost invariant = { λ e. All (NamesBelow (length e.classes.now)) e.rows.now };
}

impl<'n> Edges<'n> {
    /// The edges of rows that name these classes.
    pub(crate) fn of(classes: &'n [Class], rows: &'n [EdgeRow]) -> Edges<'n>
        requires { All (NamesBelow (length classes.now)) rows.now }
        ensures { result ≡ map (seen classes.now) rows.now }
    {
        Edges { classes, rows }
    }

    /// The number of edges.
    #[inline(always)]
    pub fn len(&self) -> usize
        ensures { result ≡ length self.now }
    {
        self.rows.len()
    }

    /// Edge k, counted from 0.
    #[inline(always)]
    pub fn edge(&self, k: usize) -> Edge<'n>
        requires { k < length self.now }
        ensures { slice_get self.now k ≡ Some result }
    {
        let row = row_at(self.rows, k);
        let class = class_at(self.classes, row.class);
        Edge { class, to: row.to }
    }
}
