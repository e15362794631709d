use crate::graph::{Graph, REDUCED, Reduction, Way};
use crate::tree::Tree;
use xs_class::Memory;

/// A reduction whose number has this bit is wanted: its production, or its node once that is made.
const WANTED: u32 = 1 << 31;

/// The nodes of those reductions of a graph that are wanted.
#[derive(Drop)]
pub struct Made {
    pub graph: Graph,
}

impl Made {
    /// Puts the nodes of a way and of all below them next.
    pub fn put(&mut self, way: Way, tree: &mut Tree) -> Result<(), Memory> {
        let mut id = way.top;
        'vertices: for _ in 0..way.length {
            let part = self.graph.vertex(id).part;
            self.want(part);
            id = self.graph.under(id);
        }
        'reductions: for number in (0..self.graph.reductions.len()).rev() {
            self.want_parts(number);
        }
        'numbers: for number in 0..self.graph.reductions.len() {
            self.put_node(number, tree)?;
        }
        Ok(())
    }

    /// Asks for the node of a part.
    fn want(&mut self, part: u32) {
        if part & REDUCED == 0 {
            return;
        }
        if let Some(reduction) = self.graph.reductions.get_mut((part & !REDUCED) as usize) {
            reduction.production |= WANTED;
        }
    }

    /// Asks for the nodes of the parts of a reduction that is wanted.
    fn want_parts(&mut self, number: usize) {
        if self.wanted(number).is_none() {
            return;
        }
        'parts: for place in self.begin(number)..self.begin(number.wrapping_add(1)) {
            if let Some(part) = self.graph.parts.get(place) {
                let part = *part;
                self.want(part);
            }
        }
    }

    /// A reduction that is wanted, or None where it is not.
    fn wanted(&self, number: usize) -> Option<Reduction> {
        let reduction = self.graph.reductions.get(number)?;
        if reduction.production & WANTED == 0 {
            return None;
        }
        Some(Reduction {
            production: reduction.production & !WANTED,
            ..*reduction
        })
    }

    /// Where the parts of a reduction begin.
    fn begin(&self, number: usize) -> usize {
        match self.graph.reductions.get(number) {
            None => self.graph.parts.len(),
            Some(reduction) => reduction.parts as usize,
        }
    }

    /// Puts the node of a reduction next, if it is wanted.
    fn put_node(&mut self, number: usize, tree: &mut Tree) -> Result<(), Memory> {
        let Some(reduction) = self.wanted(number) else {
            return Ok(());
        };
        if let Some(reduction) = self.graph.reductions.get_mut(number) {
            reduction.production = tree.count() | WANTED;
        }
        tree.put_node(reduction.production, reduction.from, reduction.to)?;
        'parts: for place in self.begin(number)..self.begin(number.wrapping_add(1)) {
            if let Some(part) = self.graph.parts.get(place) {
                tree.put_part(self.part(*part))?;
            }
        }
        Ok(())
    }

    /// A part, with its node in place of a reduction.
    pub fn part(&self, part: u32) -> u32 {
        if part & REDUCED == 0 {
            return part;
        }
        match self.graph.reductions.get((part & !REDUCED) as usize) {
            None => 0,
            Some(reduction) => reduction.production & !WANTED,
        }
    }
}
