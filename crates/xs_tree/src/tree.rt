ghost use Rattle.std.specs.Prelude.{◌≡◌, ◌<◌, length, slice_get, All, Some};
ghost use Rattle.std.specs.Option.{option_copied};

use crate::Part;
use crate::parts::Parts;
use std::marker::Model;
use xs_class::Sym;

/// A flat tree: its parts, the children of each before it, and the root, as contracts see it the
/// list of the parts and the root's place.
///
/// Parts are numbered from 0. A part may be a child of several, so that the common tree which the
/// root means can be far larger than the flat one.
#[derive(Debug, Drop)]
pub struct Tree {
    parts: Parts,
    root: u64,
}

impl Model for Tree {
    ghost use Rattle.xs_tree.specs.Flat.{Flat, IsFlat};

    ghost Value = { Flat };

    ghost view = { λ t. record { parts = t.parts; root = t.root } };

    ghost invariant = { λ t. IsFlat (record { parts = t.parts; root = t.root }) };
}

impl Tree {
    ghost use Rattle.xs_tree.specs.Flat.{AreRising, IsAfter, IsFlat, kids_of, production_of, word_of};
    ghost use Rattle.xs_tree.specs.Lent.{lent};

    /// The tree of these parts.
    pub(crate) fn of(parts: Parts, root: u64) -> Self
        requires root { root < length parts }
        requires rising { AreRising parts }
        ensures parts { result.parts ≡ parts }
        ensures root { result.root ≡ root }
    {
        Tree { parts, root }
    }

    /// The parts in order.
    pub(crate) fn parts(&self) -> &Parts
        ensures parts { result.now ≡ self.now.parts }
        ensures flat { IsFlat self.now }
    {
        &self.parts
    }

    /// The number of parts.
    pub fn len(&self) -> u64
        ensures { result ≡ length self.now.parts }
    {
        self.parts.len() as u64
    }

    /// The number of the root, which is one of the parts.
    pub fn root(&self) -> u64
        ensures root { result ≡ self.now.root }
        ensures flat { IsFlat self.now }
    {
        self.root
    }

    /// Part i, whose children stand before it.
    pub fn part(&self, i: u64) -> Part<'_>
        requires { i < length self.now.parts }
        ensures part { slice_get self.now.parts i ≡ Some (lent result) }
        ensures before { IsAfter (lent result) i }
    {
        self.parts.part(i as usize)
    }

    /// The production of a node, and None at a leaf.
    pub fn production(&self, i: u64) -> Option<u32>
        requires { i < length self.now.parts }
        ensures { result ≡ production_of (slice_get self.now.parts i) }
    {
        match self.part(i) {
            Part::Leaf(_) => None,
            Part::Node { production, .. } => Some(production),
        }
    }

    /// The children of a node in the order of the slots, each before the node, and none at a leaf.
    pub fn kids(&self, i: u64) -> &[u64]
        requires { i < length self.now.parts }
        ensures kids { result.now ≡ kids_of (slice_get self.now.parts i) }
        ensures before { All (λ kid. kid < i) result.now }
    {
        match self.part(i) {
            Part::Leaf(_) => &[],
            Part::Node { kids, .. } => kids,
        }
    }

    /// The child of a node at a slot, which stands before the node.
    pub fn kid(&self, i: u64, slot: u32) -> u64
        requires part { i < length self.now.parts }
        requires slot { slot < length (kids_of (slice_get self.now.parts i)) }
        ensures kid { slice_get (kids_of (slice_get self.now.parts i)) slot ≡ Some result }
        ensures before { result < i }
    {
        self.kids(i)[slot as usize]
    }

    /// The word of a leaf, and None at a node.
    pub fn word(&self, i: u64) -> Option<&[Sym]>
        requires { i < length self.now.parts }
        ensures { option_copied result ≡ word_of (slice_get self.now.parts i) }
    {
        match self.part(i) {
            Part::Leaf(word) => Some(word),
            Part::Node { .. } => None,
        }
    }
}
