ghost use Rattle.std.specs.Prelude.{◌≡◌, ◌<◌, [], ◌∷◌, ◌++◌, length, All, IfOk, OnOk, OnErr};
ghost use Rattle.xs_tree.specs.Flat.{Leaf, Node, tree_of, trees_of};

use crate::Tree;
use crate::parts::Parts;
use std::alloc::Global;
use std::marker::Model;
use xs_class::{Memory, Sym};

/// The parts of a tree that is made from its leaves upwards, as contracts see it the list of them.
///
/// Parts are numbered from 0 in the order of their making, and a part may be a child of several.
#[derive(Debug, Drop)]
pub struct Builder {
    parts: Parts,
}

impl Model for Builder {
    ghost use Rattle.std.specs.Prelude.{List};
    ghost use Rattle.xs_tree.specs.Flat.{AreRising, TreePart};

    ghost Value = { List TreePart };

    ghost view = { λ b. b.parts };

    ghost invariant = { λ b. AreRising b.parts };
}

impl Builder {
    /// No part yet, without memory.
    pub fn new(alloc: Global) -> Result<Self, Memory>
        ensures { IfOk result (λ builder. builder ≡ []) }
    {
        Ok(Builder {
            parts: Parts::new(alloc),
        })
    }

    /// No part yet, and room for that many parts, for the children of all nodes, and for the symbols
    /// of all leaves.
    pub fn with_capacity(
        alloc: Global,
        parts: usize,
        kids: usize,
        symbols: usize,
    ) -> Result<Self, Memory>
        ensures { IfOk result (λ builder. builder ≡ []) }
    {
        let mut builder = Builder::new(alloc)?;
        builder.parts.reserve(parts, kids, symbols)?;
        Ok(builder)
    }

    /// A new leaf with a copy of the word, in time linear in the word; the answer is its number.
    #[inline(always)]
    pub fn leaf(&mut self, word: &[Sym]) -> Result<u64, Memory>
        ensures number { IfOk result (λ number. number ≡ length self.old) }
        ensures added { OnOk result (self.new ≡ self.old ++ Leaf word.now ∷ []) }
        ensures means { OnOk result (trees_of self.new ≡ trees_of self.old ++ tree_of (trees_of self.old) (Leaf word.now) ∷ []) }
        ensures err { OnErr result (self.new ≡ self.old) }
    {
        let number = self.parts.len() as u64;
        self.parts.push_leaf(word)?;
        Ok(number)
    }

    /// A new node with these children in the order of the slots, in time linear in their number;
    /// the answer is its number.
    #[inline(always)]
    pub fn node(&mut self, production: u32, kids: &[u64]) -> Result<u64, Memory>
        requires { All (λ kid. kid < length self.old) kids.now }
        ensures number { IfOk result (λ number. number ≡ length self.old) }
        ensures added { OnOk result (self.new ≡ self.old ++ Node production kids.now ∷ []) }
        ensures means { OnOk result (trees_of self.new ≡ trees_of self.old ++ tree_of (trees_of self.old) (Node production kids.now) ∷ []) }
        ensures err { OnErr result (self.new ≡ self.old) }
    {
        let number = self.parts.len() as u64;
        self.parts.push_node(production, kids)?;
        Ok(number)
    }

    /// The tree of these parts whose root is part `root`, without memory.
    pub fn finish(self, root: u64) -> Tree
        requires { root < length self }
        ensures parts { result.parts ≡ self }
        ensures root { result.root ≡ root }
    {
        Tree::of(self.parts, root)
    }
}
