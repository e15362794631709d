ghost use Rattle.std.specs.Prelude.{ℕ, ◌<◌, length, IfOk, IfSome, IfNone};
ghost use Rattle.xs_auto.specs.{states};
ghost use Rattle.xs_meet.specs.Closed.{ReadsBoth, Crosses, Strides};
ghost use Rattle.xs_meet.specs.Searches.{ReadsWith, CallsWith, CallsAmong, NoneCalls, InNets, IsChained};
ghost use Rattle.xs_meet.specs.Sharing.{AreKnown};
ghost use Rattle.xs_meet.specs.Traces.{Bridges, IsTrace};

use crate::layer::Layer;
use crate::piece::Piece;
use crate::reached_pair::ReachedPair;
use crate::sharing::Shared;
use std::alloc::Global;
use xs_auto::{Call, Edge, Edges, Net};
use xs_class::{Memory, Sym};

/// Pieces of a word that leads from a layer's seed to one of its pairs, and the seed's place.
#[derive(Debug, Drop)]
pub struct Trace {
    pub pieces: Vec<Piece>,
    pub seed: usize,
}

/// The pieces by which the pair at a place was reached from a seed.
pub fn read_trace(
    alloc: Global,
    shared: &Shared,
    first: &Net,
    second: &Net,
    layer: &Layer,
    place: usize,
) -> Result<Trace, Memory>
    requires range { InNets first.now second.now layer.now.steps.items }
    requires chained { IsChained (AreKnown shared.now) first.now second.now layer.now.seeds layer.now.steps.items }
    requires place { place < length layer.now.steps.items }
    ensures { IfOk result (IsTrace (AreKnown shared.now) first.now second.now layer.now place) }
{
    let mut pieces = Vec::new(alloc);
    let mut at = place;
    'links: while at >= layer.seeds {
        let step = layer.steps[at];
        let parent = layer.steps[step.from];
        match piece_between(shared, first, second, parent, step) {
            Some(piece) => pieces.push(piece)?,
            None => {}
        }
        at = step.from;
    }
    pieces.reverse();
    Ok(Trace { pieces, seed: at })
}

/// A symbol, or two groups, by which edges, or calls, of both nets lead from one pair to another,
/// if any do.
pub fn piece_between(
    shared: &Shared,
    first: &Net,
    second: &Net,
    from: ReachedPair,
    to: ReachedPair,
) -> Option<Piece>
    requires first { from.first < states first.now }
    requires second { from.second < states second.now }
    ensures some { IfSome result (Bridges (AreKnown shared.now) first.now second.now from.first from.second to.first to.second) }
    ensures none { IfNone result (Strides (AreKnown shared.now) first.now second.now from.first from.second to.first to.second → ⊥) }
{
    if let Some(symbol) = symbol_between(first, second, from, to) {
        return Some(Piece::Symbol(symbol));
    }
    let groups = groups_between(
        shared,
        first.calls(from.first),
        second.calls(from.second),
        to,
    );
    match groups {
        Some((group, other)) => Some(Piece::Groups(group, other)),
        None => None,
    }
}

/// A symbol by which edges of both nets lead from one pair to another, if any do.
fn symbol_between(first: &Net, second: &Net, from: ReachedPair, to: ReachedPair) -> Option<Sym>
    requires first { from.first < states first.now }
    requires second { from.second < states second.now }
    ensures some { IfSome result (λ x. ReadsBoth first.now second.now from.first from.second x to.first to.second) }
    ensures none { IfNone result (Crosses first.now second.now from.first from.second to.first to.second → ⊥) }
{
    let edges = first.edges(from.first);
    let others = second.edges(from.second);
    'edges: for place in 0..edges.len() {
        let edge = edges.edge(place);
        let target = edge.to();
        if target == to.first {
            let symbol = symbol_with(&edge, &others, to.second);
            if symbol.is_some() {
                return symbol;
            }
        }
    }
    None
}

/// A symbol that an edge reads and another edge, which leads to a state, reads too, if there is
/// one.
fn symbol_with(edge: &Edge<'_>, others: &Edges<'_>, to: u32) -> Option<Sym>
    ensures some { IfSome result (ReadsWith edge.now others.now to) }
    ensures none { IfNone result ((x : ℕ) → ReadsWith edge.now others.now to x → ⊥) }
{
    'others: for place in 0..others.len() {
        let other = others.edge(place);
        let target = other.to();
        if target == to {
            let symbol = edge.first_common(&other);
            if symbol.is_some() {
                return symbol;
            }
        }
    }
    None
}

/// The groups of two calls that lead to a pair and share a word, if any do.
fn groups_between(
    shared: &Shared,
    calls: &[Call],
    others: &[Call],
    to: ReachedPair,
) -> Option<(u32, u32)>
    ensures some { IfSome result (λ p. CallsAmong (AreKnown shared.now) calls.now others.now to.first to.second p.0 p.1) }
    ensures none { IfNone result (NoneCalls (AreKnown shared.now) calls.now others.now to.first to.second) }
{
    'calls: for call in calls {
        if call.to == to.first {
            let partner = partner_among(shared, call.group, others, to.second);
            if let Some(other) = partner {
                return Some((call.group, other));
            }
        }
    }
    None
}

/// The group of a call that leads to a state, where the group shares a word with another one, if
/// there is such a call.
fn partner_among(shared: &Shared, group: u32, others: &[Call], to: u32) -> Option<u32>
    ensures some { IfSome result (CallsWith (AreKnown shared.now) group others.now to) }
    ensures none { IfNone result ((h : ℕ) → CallsWith (AreKnown shared.now) group others.now to h → ⊥) }
{
    'others: for other in others {
        if other.to == to {
            if shared.has(group, other.group) {
                return Some(other.group);
            }
        }
    }
    None
}
