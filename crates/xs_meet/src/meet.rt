ghost use Rattle.std.specs.Prelude.{◌≡◌, ℕ, ◌*◌, ◌≤◌, List, IsSome, IfOk, IfSome, IfNone};
ghost use Rattle.xs_auto.specs.{states, IsFenced, IsTame};
ghost use Rattle.xs_meet.specs.Closed.{AreApart};
ghost use Rattle.xs_meet.specs.Searches.{InNets, EndsBoth, Fits, IsFor};
ghost use Rattle.xs_meet.specs.Shared.{IsShared, IsSharedOver};
ghost use Rattle.xs_meet.specs.Sharing.{AreKnown, IsSharedOf};
ghost use Rattle.xs_meet.specs.Traces.{IsSeeded, HasOnly, IsRoot, ArePieces};

use crate::layer::Layer;
use crate::piece::Piece;
use crate::reached_pair::ReachedPair;
use crate::sharing::Shared;
use crate::trace::read_trace;
use std::alloc::Global;
use xs_auto::{Nest, Net, Pairs};
use xs_class::{Memory, Word};

/// A word that both nets accept, or none where there is none. By their calls they go nowhere.
///
/// The pairs are marked in the first map. Takes time linear in the pairs that are reached, times
/// the edges and moves of their states, and 16 bytes for each pair.
#[tactic(auto, using(crate::proofs::AloneLemmas::fenced_alone, crate::proofs::AloneLemmas::shared_alone, crate::proofs::AloneLemmas::tame_alone))]
pub fn meet_word(alloc: Global, a: &Net, b: &Net, pairs: &mut Pairs) -> Result<Option<Word>, Memory>
    requires start_a { IsSome a.now.start }
    requires start_b { IsSome b.now.start }
    requires room { states a.now * states b.now ≤ pairs.old.cells }
    ensures cells { pairs.new.cells ≡ pairs.old.cells }
    ensures some { IfOk result (λ o. IfSome o (IsShared a.now b.now)) }
    ensures none { IfOk result (λ o. IfNone o ((w : List ℕ) → IsShared a.now b.now w → ⊥)) }
{
    let nest = Nest::new(alloc)?;
    let shared = Shared::blank(alloc, 0)?;
    meet_nested(alloc, &nest, &shared, a, b, pairs)
}

/// A word that both nets accept over the nest, or none where there is none.
///
/// The pairs are marked in the first map. Takes time linear in the pairs that are reached, times
/// the edges, moves and calls of their states, and 16 bytes for each pair. The word may double in
/// length with each level of groups inside groups.
pub fn meet_nested(
    alloc: Global,
    nest: &Nest,
    shared: &Shared,
    a: &Net,
    b: &Net,
    pairs: &mut Pairs,
) -> Result<Option<Word>, Memory>
    requires fenced { IsFenced nest.now }
    requires shared { IsSharedOf nest.now shared.now }
    requires tame_a { IsTame nest.now a.now }
    requires tame_b { IsTame nest.now b.now }
    requires room { states a.now * states b.now ≤ pairs.old.cells }
    ensures cells { pairs.new.cells ≡ pairs.old.cells }
    ensures some { IfOk result (λ o. IfSome o (IsSharedOver nest.now a.now b.now)) }
    ensures none { IfOk result (λ o. IfNone o ((w : List ℕ) → IsSharedOver nest.now a.now b.now w → ⊥)) }
{
    match meet_pieces(alloc, shared, a, b, pairs)? {
        None => Ok(None),
        Some(pieces) => {
            let word = shared.spelt(alloc, nest, pieces)?;
            Ok(Some(word))
        }
    }
}

/// Pieces that spell words that both nets accept, or none where no word is shared.
pub fn meet_pieces(
    alloc: Global,
    shared: &Shared,
    a: &Net,
    b: &Net,
    pairs: &mut Pairs,
) -> Result<Option<Vec<Piece>>, Memory>
    requires start_a { IsSome a.now.start }
    requires start_b { IsSome b.now.start }
    requires room { states a.now * states b.now ≤ pairs.old.cells }
    ensures cells { pairs.new.cells ≡ pairs.old.cells }
    ensures some { IfOk result (λ o. IfSome o (λ p. ArePieces (AreKnown shared.now) a.now b.now p.items)) }
    ensures none { IfOk result (λ o. IfNone o (AreApart (AreKnown shared.now) a.now b.now)) }
{
    let mut layer = rooted(alloc, a, b, pairs)?;
    match layer.close_until(pairs, shared, a, b, true)? {
        None => Ok(None),
        Some(place) => {
            let found = read_trace(alloc, shared, a, b, &layer, place)?;
            Ok(Some(found.pieces))
        }
    }
}

/// The pairs of states that two nets reach by one word from their starts.
pub fn reach(
    alloc: Global,
    shared: &Shared,
    first: &Net,
    second: &Net,
    pairs: &mut Pairs,
) -> Result<Layer, Memory>
    requires start_first { IsSome first.now.start }
    requires start_second { IsSome second.now.start }
    requires room { states first.now * states second.now ≤ pairs.old.cells }
    ensures cells { pairs.new.cells ≡ pairs.old.cells }
    ensures ok { IfOk result (IsSeeded (AreKnown shared.now) first.now second.now (IsRoot first.now second.now)) }
{
    let mut layer = rooted(alloc, first, second, pairs)?;
    layer.close(pairs, shared, first, second)?;
    Ok(layer)
}

/// The pair of the starts of two nets, in a layer of its own.
fn rooted(alloc: Global, first: &Net, second: &Net, pairs: &mut Pairs) -> Result<Layer, Memory>
    requires start_first { IsSome first.now.start }
    requires start_second { IsSome second.now.start }
    requires room { states first.now * states second.now ≤ pairs.old.cells }
    ensures cells { pairs.new.cells ≡ pairs.old.cells }
    ensures nets { IfOk result (IsFor first.now second.now) }
    ensures fits { IfOk result (λ l. Fits l pairs.new) }
    ensures only { IfOk result (HasOnly (IsRoot first.now second.now)) }
{
    pairs.clear(0);
    let mut layer = Layer::new(alloc, 0, first, second);
    let root = ReachedPair {
        first: first.start().unwrap(),
        second: second.start().unwrap(),
        from: 0,
    };
    layer.visit(pairs, root)?;
    Ok(layer)
}

/// The place of the first pair of two final states, if there is one.
pub fn final_pair(first: &Net, second: &Net, steps: &[ReachedPair]) -> Option<usize>
    requires { InNets first.now second.now steps.now }
    ensures some { IfSome result (EndsBoth first.now second.now steps.now) }
    ensures none { IfNone result ((k : ℕ) → EndsBoth first.now second.now steps.now k → ⊥) }
{
    'places: for place in 0..steps.len() {
        let at = steps[place];
        if first.is_final(at.first) && second.is_final(at.second) {
            return Some(place);
        }
    }
    None
}
