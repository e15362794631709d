ghost use Rattle.std.specs.Prelude.{◌≡◌, ℕ, ◌<◌, ◌*◌, ◌≤◌, List, Some, IsSome, IfOk, IfSome, IfNone};
ghost use Rattle.xs_auto.specs.{states, IsFenced, IsTame};
ghost use Rattle.xs_meet.specs.Searches.{InNets, EndsBoth, Seeds, Departs};
ghost use Rattle.xs_meet.specs.declared.seat.Seat.TheVariants.{First};
ghost use Rattle.xs_meet.specs.Shared.{AreOverlap, AreOverlapOver};
ghost use Rattle.xs_meet.specs.Sharing.{AreKnown, IsSharedOf};
ghost use Rattle.xs_meet.specs.Traces.{IsSeeded, IsTurns, AreReached, AreLapPieces};

use crate::layer::Layer;
use crate::meet::{final_pair, reach};
use crate::piece::Piece;
use crate::reached_pair::ReachedPair;
use crate::seat::Seat;
use crate::sharing::Shared;
use crate::trace::{piece_between, read_trace};
use std::alloc::Global;
use xs_auto::{Nest, Net, Pairs};
use xs_class::{Memory, Word};

/// Words that show an overlap: of a front and a rest, the front has x and xa, and the rest has y
/// and ay.
#[derive(Debug, Drop)]
pub struct Overlap {
    pub x: Word,
    pub a: Word,
    pub y: Word,
}

/// The pairs that are reached: of two front states by x; of a front and a rest state before a, and
/// after a symbol of a; of two rest states by y.
#[derive(Debug, Drop)]
pub struct Reached {
    pub fronts: Layer,
    pub turns: Layer,
    pub middles: Layer,
    pub rests: Layer,
}

/// The pieces that spell the words of an overlap.
#[derive(Debug, Drop)]
pub struct LapPieces {
    pub x: Vec<Piece>,
    pub a: Vec<Piece>,
    pub y: Vec<Piece>,
}

/// Words x, a and y, a not empty, such that the front net accepts x and xa and the rest net accepts
/// y and ay, or none where there are none. By their calls they go nowhere.
///
/// Uses all three maps. Takes time linear in the pairs that are reached, times the edges and moves
/// of their states, and 16 bytes for each pair.
#[tactic(auto, using(crate::proofs::AloneLemmas::fenced_alone, crate::proofs::AloneLemmas::shared_alone, crate::proofs::AloneLemmas::tame_alone))]
pub fn overlap_word(
    alloc: Global,
    a: &Net,
    b: &Net,
    pairs: &mut Pairs,
) -> Result<Option<Overlap>, Memory>
    requires start_a { IsSome a.now.start }
    requires start_b { IsSome b.now.start }
    requires room_fronts { states a.now * states a.now ≤ pairs.old.cells }
    requires room_middles { states a.now * states b.now ≤ pairs.old.cells }
    requires room_rests { states b.now * states b.now ≤ pairs.old.cells }
    ensures cells { pairs.new.cells ≡ pairs.old.cells }
    ensures some { IfOk result (λ o. IfSome o (λ w. AreOverlap a.now b.now w.x w.a w.y)) }
    ensures none { IfOk result (λ o. IfNone o ((x m y : List ℕ) → AreOverlap a.now b.now x m y → ⊥)) }
{
    let nest = Nest::new(alloc)?;
    let shared = Shared::blank(alloc, 0)?;
    overlap_nested(alloc, &nest, &shared, a, b, pairs)
}

/// Words x, a and y, a not empty, such that over the nest the front net accepts x and xa and the
/// rest net accepts y and ay, or none where there are none.
///
/// Uses all three maps. Takes time linear in the pairs that are reached, times the edges, moves and
/// calls of their states, and 16 bytes for each pair. The words may double in length with each
/// level of groups inside groups.
pub fn overlap_nested(
    alloc: Global,
    nest: &Nest,
    shared: &Shared,
    a: &Net,
    b: &Net,
    pairs: &mut Pairs,
) -> Result<Option<Overlap>, Memory>
    requires fenced { IsFenced nest.now }
    requires shared { IsSharedOf nest.now shared.now }
    requires tame_a { IsTame nest.now a.now }
    requires tame_b { IsTame nest.now b.now }
    requires room_fronts { states a.now * states a.now ≤ pairs.old.cells }
    requires room_middles { states a.now * states b.now ≤ pairs.old.cells }
    requires room_rests { states b.now * states b.now ≤ pairs.old.cells }
    ensures cells { pairs.new.cells ≡ pairs.old.cells }
    ensures some { IfOk result (λ o. IfSome o (λ w. AreOverlapOver nest.now a.now b.now w.x w.a w.y)) }
    ensures none { IfOk result (λ o. IfNone o ((x m y : List ℕ) → AreOverlapOver nest.now a.now b.now x m y → ⊥)) }
{
    let reached = reach_all(alloc, shared, a, b, pairs)?;
    match final_pair(b, b, &reached.rests.steps) {
        None => Ok(None),
        Some(place) => {
            let pieces = read_overlap(alloc, shared, a, b, &reached, place)?;
            Ok(Some(Overlap {
                x: shared.spelt(alloc, nest, pieces.x)?,
                a: shared.spelt(alloc, nest, pieces.a)?,
                y: shared.spelt(alloc, nest, pieces.y)?,
            }))
        }
    }
}

/// All four layers, one after the other.
fn reach_all(
    alloc: Global,
    shared: &Shared,
    a: &Net,
    b: &Net,
    pairs: &mut Pairs,
) -> Result<Reached, Memory>
    requires start_a { IsSome a.now.start }
    requires start_b { IsSome b.now.start }
    requires room_fronts { states a.now * states a.now ≤ pairs.old.cells }
    requires room_middles { states a.now * states b.now ≤ pairs.old.cells }
    requires room_rests { states b.now * states b.now ≤ pairs.old.cells }
    ensures cells { pairs.new.cells ≡ pairs.old.cells }
    ensures ok { IfOk result (AreReached (AreKnown shared.now) a.now b.now) }
{
    let start = b.start().unwrap();
    let fronts = reach(alloc, shared, a, a, pairs)?;
    let turns = reach_turns(alloc, a, b, start, &fronts.steps, pairs)?;
    let middles = reach_middles(alloc, shared, a, b, &turns.steps, pairs)?;
    let rests = reach_rests(alloc, shared, a, b, start, &middles.steps, pairs)?;
    Ok(Reached {
        fronts,
        turns,
        middles,
        rests,
    })
}

/// From pairs of front states by x: where the first one is final, the second one beside the start
/// of the rest, and where empty moves lead from there.
fn reach_turns(
    alloc: Global,
    a: &Net,
    b: &Net,
    start: u32,
    fronts: &[ReachedPair],
    pairs: &mut Pairs,
) -> Result<Layer, Memory>
    requires start { b.now.start ≡ Some start }
    requires exists { start < states b.now }
    requires range { InNets a.now a.now fronts.now }
    requires room { states a.now * states b.now ≤ pairs.old.cells }
    ensures cells { pairs.new.cells ≡ pairs.old.cells }
    ensures ok { IfOk result (IsTurns a.now b.now start fronts.now) }
{
    pairs.clear(1);
    let mut layer = Layer::new(alloc, 1, a, b);
    layer.seed_ends(pairs, Seat::Second, fronts, a, start)?;
    layer.close_drifts(pairs, a, b)?;
    Ok(layer)
}

/// The pairs that are reached from there by one symbol or call or more.
fn reach_middles(
    alloc: Global,
    shared: &Shared,
    a: &Net,
    b: &Net,
    turns: &[ReachedPair],
    pairs: &mut Pairs,
) -> Result<Layer, Memory>
    requires range { InNets a.now b.now turns.now }
    requires room { states a.now * states b.now ≤ pairs.old.cells }
    ensures cells { pairs.new.cells ≡ pairs.old.cells }
    ensures ok { IfOk result (IsSeeded (AreKnown shared.now) a.now b.now (Departs (AreKnown shared.now) a.now b.now turns.now)) }
{
    pairs.clear(2);
    let mut layer = Layer::new(alloc, 2, a, b);
    layer.seed_departures(pairs, shared, turns, a, b)?;
    layer.close(pairs, shared, a, b)?;
    Ok(layer)
}

/// From pairs of a front and a rest state: where the front state is final, the start of the rest
/// beside the rest state, and all pairs that are reached from there.
fn reach_rests(
    alloc: Global,
    shared: &Shared,
    a: &Net,
    b: &Net,
    start: u32,
    middles: &[ReachedPair],
    pairs: &mut Pairs,
) -> Result<Layer, Memory>
    requires start { b.now.start ≡ Some start }
    requires exists { start < states b.now }
    requires range { InNets a.now b.now middles.now }
    requires room { states b.now * states b.now ≤ pairs.old.cells }
    ensures cells { pairs.new.cells ≡ pairs.old.cells }
    ensures ok { IfOk result (IsSeeded (AreKnown shared.now) b.now b.now (Seeds First a.now start middles.now)) }
{
    pairs.clear(0);
    let mut layer = Layer::new(alloc, 0, b, b);
    layer.seed_ends(pairs, Seat::First, middles, a, start)?;
    layer.close(pairs, shared, b, b)?;
    Ok(layer)
}

/// The pieces by which a pair of two final rest states was reached.
fn read_overlap(
    alloc: Global,
    shared: &Shared,
    a: &Net,
    b: &Net,
    reached: &Reached,
    place: usize,
) -> Result<LapPieces, Memory>
    requires reached { AreReached (AreKnown shared.now) a.now b.now reached.now }
    requires place { EndsBoth b.now b.now reached.now.rests.steps.items place }
    ensures { IfOk result (AreLapPieces (AreKnown shared.now) a.now b.now) }
{
    let rest = read_trace(alloc, shared, b, b, &reached.rests, place)?;
    let end = reached.rests.steps[rest.seed].from;
    let middle = read_trace(alloc, shared, a, b, &reached.middles, end)?;
    let departure = reached.middles.steps[middle.seed];
    let turn = reached.turns.steps[departure.from];
    let piece = piece_between(shared, a, b, turn, departure).unwrap();
    let front = read_trace(alloc, shared, a, a, &reached.fronts, turn.from)?;
    let mut pieces = Vec::new(alloc);
    pieces.push(piece)?;
    pieces.extend_from_slice(&middle.pieces)?;
    Ok(LapPieces {
        x: front.pieces,
        a: pieces,
        y: rest.pieces,
    })
}
