use crate::keys::capped;
use std::alloc::Global;
use xs_class::Memory;
use xs_parse_table::{Node, ParseTable};

/// Nodes and parts, with room for more.
#[derive(Drop)]
pub struct Tree {
    pub nodes: Vec<Node>,
    pub parts: Vec<u32>,
}

impl Tree {
    /// No node, with room for some.
    pub fn new(alloc: Global, nodes: usize, parts: usize) -> Result<Self, Memory> {
        Ok(Tree {
            nodes: Vec::with_capacity(alloc, nodes)?,
            parts: Vec::with_capacity(alloc, parts)?,
        })
    }

    /// The number of nodes.
    pub fn count(&self) -> u32 {
        capped(self.nodes.len())
    }

    /// Makes more room for nodes.
    pub fn grow_nodes(&mut self) -> Result<(), Memory> {
        make_room(&mut self.nodes)
    }

    /// Makes more room for parts.
    pub fn grow_parts(&mut self) -> Result<(), Memory> {
        make_room(&mut self.parts)
    }

    /// Puts a node next whose parts come next.
    pub fn put_node(&mut self, production: u32, from: u32, to: u32) -> Result<(), Memory> {
        let node = Node {
            production,
            parts: capped(self.parts.len()),
            from,
            to,
        };
        self.nodes.push(node)?;
        Ok(())
    }

    /// Puts a part next.
    pub fn put_part(&mut self, part: u32) -> Result<(), Memory> {
        self.parts.push(part)?;
        Ok(())
    }

    /// The parse table.
    pub fn into_table(self) -> ParseTable {
        ParseTable {
            nodes: self.nodes,
            parts: self.parts,
        }
    }
}

/// Doubles the room beyond the elements that are there.
fn make_room<T: Drop>(list: &mut Vec<T>) -> Result<(), Memory> {
    list.reserve(list.len().saturating_add(16))?;
    Ok(())
}

/// Makes half as much room again: what is not needed is filled all the same.
pub fn grow<T: Copy + Drop>(list: &mut Vec<T>, element: T) -> Result<(), Memory> {
    let more = (list.len() / 2).saturating_add(16);
    list.resize(list.len().saturating_add(more), element)?;
    Ok(())
}
