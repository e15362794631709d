ghost use Rattle.std.specs.Prelude.{◌≡◌, ◌<◌, ◌⊎◌, true, OnOk, length};
ghost use Rattle.xs_auto.specs.{states, edges_of, calls_of};
ghost use Rattle.xs_meet.specs.{Drifts, Strides, Marked};
ghost use Rattle.xs_closed.specs.Rows.{marked};
ghost use Rattle.xs_closed.specs.Search.{IsInside, IsListed, IsFor, Adds, Closes, LeadsBy};

use crate::PairSet;
use crate::moves::Moves;
use crate::pair::Pair;
use crate::visits::{visit_boths, visit_calls, visit_firsts, visit_seconds};
use xs_auto::Net;
use xs_class::Memory;

/// Visits the pairs to which an empty move of either net leads from a pair.
#[inline(always)]
fn drift(set: &mut PairSet, pairs: &mut Vec<Pair>, m: &Net, n: &Net, at: Pair) -> Result<(), Memory>
    requires nets { IsFor m.now n.now set.old }
    requires listed { IsListed set.old pairs.old.items }
    requires at { IsInside (states m.now) (states n.now) at }
    ensures listed { OnOk result (IsListed set.new pairs.new.items) }
    ensures ok { OnOk result (Adds (Drifts m.now n.now at.first at.second) set.old pairs.old.items set.new pairs.new.items) }
{
    visit_firsts(set, pairs, m.moves(at.first), at.second)?;
    visit_seconds(set, pairs, at.first, n.moves(at.second))?;
    Ok(())
}

/// Whether no edge and no call leads from a state.
fn is_still(net: &Net, a: u32) -> bool
    requires { a < states net.now }
    ensures edges { result ≡ true → length (edges_of net.now a) ≡ 0 }
    ensures calls { result ≡ true → length (calls_of net.now a) ≡ 0 }
{
    net.edges(a).len() == 0 && net.calls(a).is_empty()
}

/// Whether edges and calls of both nets lead nowhere from a pair, since one state has none.
fn are_still(m: &Net, n: &Net, at: Pair) -> bool
    requires at { IsInside (states m.now) (states n.now) at }
    ensures edges { result ≡ true → (length (edges_of m.now at.first) ≡ 0) ⊎ (length (edges_of n.now at.second) ≡ 0) }
    ensures calls { result ≡ true → (length (calls_of m.now at.first) ≡ 0) ⊎ (length (calls_of n.now at.second) ≡ 0) }
{
    if is_still(m, at.first) {
        return true;
    }
    is_still(n, at.second)
}

/// Visits the pairs to which edges, or calls over related groups, of both nets lead from a pair.
#[inline(always)]
pub fn stride(
    set: &mut PairSet,
    pairs: &mut Vec<Pair>,
    related: &PairSet,
    m: &Net,
    n: &Net,
    at: Pair,
) -> Result<(), Memory>
    requires nets { IsFor m.now n.now set.old }
    requires listed { IsListed set.old pairs.old.items }
    requires at { IsInside (states m.now) (states n.now) at }
    ensures listed { OnOk result (IsListed set.new pairs.new.items) }
    ensures ok { OnOk result (Adds (Strides (Marked (marked related.now)) m.now n.now at.first at.second) set.old pairs.old.items set.new pairs.new.items) }
{
    if are_still(m, n, at) {
        return Ok(());
    }
    let edges = m.edges(at.first);
    let others = n.edges(at.second);
    visit_boths(set, pairs, &edges, &others)?;
    visit_calls(set, pairs, related, m.calls(at.first), n.calls(at.second))?;
    Ok(())
}

/// Marks and lists all pairs to which the pairs lead by these moves.
#[tactic(auto, using(crate::proofs::CloseLemmas::for_more))]
pub fn close(
    set: &mut PairSet,
    pairs: &mut Vec<Pair>,
    moves: Moves,
    related: &PairSet,
    m: &Net,
    n: &Net,
) -> Result<(), Memory>
    requires nets { IsFor m.now n.now set.old }
    requires listed { IsListed set.old pairs.old.items }
    ensures listed { OnOk result (IsListed set.new pairs.new.items) }
    ensures ok { OnOk result (Closes (LeadsBy moves (Marked (marked related.now)) m.now n.now) set.old set.new) }
{
    'places: for place in 0..usize::MAX {
        if place >= pairs.len() {
            return Ok(());
        }
        let at = pairs[place];
        drift(set, pairs, m, n, at)?;
        match moves {
            Moves::Empty => {}
            Moves::Every => stride(set, pairs, related, m, n, at)?,
        }
    }
    Ok(())
}
