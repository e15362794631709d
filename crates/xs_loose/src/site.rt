use crate::tables::Tables;
use std::alloc::Global;
use xs_auto::Draft;
use xs_gram::{Comps, Gram};

/// A grammar with its components and what is computed once of it, for nets of its stretches.
#[derive(Drop)]
pub struct Site<'s> {
    pub alloc: Global,
    pub g: &'s Gram,
    pub comps: &'s Comps,
    pub tables: &'s Tables,
}

/// A component that is still to be laid: that of a nonterminal, from a state on.
#[derive(Clone, Copy, Debug)]
pub struct Task {
    pub non: u32,
    pub at: u32,
}

/// The component, that of a nonterminal, in which the items of a rule are laid, and its first
/// state.
#[derive(Clone, Copy, Debug)]
pub struct Home {
    pub non: u32,
    pub first: u32,
}

/// A net that is being laid, and the components that are still to be laid in it.
#[derive(Drop)]
pub struct Laid {
    pub net: Draft,
    pub tasks: Vec<Task>,
}

/// Where the items of a rule are laid: at a site, in the component of a home if they have one.
#[derive(Clone, Copy)]
pub struct Walk<'w, 's> {
    pub site: &'w Site<'s>,
    pub home: Option<Home>,
}

/// Where something is laid: after a state, and by states from another on.
#[derive(Clone, Copy, Debug)]
pub struct Spot {
    pub before: u32,
    pub at: u32,
}

/// A spot, and the place of the item that comes next.
#[derive(Clone, Copy, Debug)]
pub struct Next {
    pub spot: Spot,
    pub place: u32,
}
