ghost use Rattle.std.specs.Prelude.{◌≡◌, ◌<◌};
ghost use Rattle.xs_auto.specs.{states};
ghost use Rattle.xs_meet.specs.{Marked};
ghost use Rattle.xs_closed.specs.Rows.{marked};
ghost use Rattle.xs_closed.specs.Search.{IsPair, OneOf, Meets, Joins};
ghost use Rattle.xs_closed.specs.Testing.{IsNeed, StridesBy};

use crate::PairSet;
use xs_auto::{Call, Edge, Edges, Net};

/// What one pair needs.
pub fn pair_need(set: &PairSet, c: u32, d: u32, need: u64) -> Option<u64>
    ensures { IsNeed set.now (IsPair c d) need result }
{
    if !set.has(c, d) {
        return None;
    }
    Some(need.max(c as u64 + 1))
}

/// What the pairs of one first state with each of these second states need.
pub fn seconds_need(set: &PairSet, c: u32, seconds: &[u32], need: u64) -> Option<u64>
    ensures { IsNeed set.now (OneOf seconds.now (IsPair c)) need result }
{
    let mut need = need;
    'seconds: for second in seconds {
        need = pair_need(set, c, *second, need)?;
    }
    Some(need)
}

/// What two edges need, where they read a common symbol.
fn edge_need(set: &PairSet, edge: &Edge<'_>, other: &Edge<'_>, need: u64) -> Option<u64>
    ensures { IsNeed set.now (Meets edge.now other.now) need result }
{
    let first = edge.to();
    let second = other.to();
    if set.has(first, second) && (first as u64) < need {
        return Some(need);
    }
    match edge.first_common(other) {
        Some(_) => pair_need(set, first, second, need),
        None => Some(need),
    }
}

/// What one edge needs with each of the others.
fn ends_need(set: &PairSet, edge: &Edge<'_>, others: &Edges<'_>, need: u64) -> Option<u64>
    ensures { IsNeed set.now (OneOf others.now (Meets edge.now)) need result }
{
    let mut need = need;
    'others: for place in 0..others.len() {
        let other = others.edge(place);
        need = edge_need(set, edge, &other, need)?;
    }
    Some(need)
}

/// What each of the edges needs with each of the others.
fn edges_need(set: &PairSet, edges: &Edges<'_>, others: &Edges<'_>, need: u64) -> Option<u64>
    ensures { IsNeed set.now (OneOf edges.now (λ e. OneOf others.now (Meets e))) need result }
{
    let mut need = need;
    'edges: for place in 0..edges.len() {
        let edge = edges.edge(place);
        need = ends_need(set, &edge, others, need)?;
    }
    Some(need)
}

/// What two calls need, where their groups are related.
fn call_need(related: &PairSet, set: &PairSet, call: Call, other: Call, need: u64) -> Option<u64>
    ensures { IsNeed set.now (Joins (Marked (marked related.now)) call other) need result }
{
    if !related.has(call.group, other.group) {
        return Some(need);
    }
    pair_need(set, call.to, other.to, need)
}

/// What one call needs with each of the others.
fn partners_need(
    related: &PairSet,
    set: &PairSet,
    call: Call,
    others: &[Call],
    need: u64,
) -> Option<u64>
    ensures { IsNeed set.now (OneOf others.now (Joins (Marked (marked related.now)) call)) need result }
{
    let mut need = need;
    'others: for other in others {
        need = call_need(related, set, call, *other, need)?;
    }
    Some(need)
}

/// What each of the calls needs with each of the others.
fn calls_need(
    related: &PairSet,
    set: &PairSet,
    calls: &[Call],
    others: &[Call],
    need: u64,
) -> Option<u64>
    ensures { IsNeed set.now (OneOf calls.now (λ h. OneOf others.now (Joins (Marked (marked related.now)) h))) need result }
{
    let mut need = need;
    'calls: for call in calls {
        need = partners_need(related, set, *call, others, need)?;
    }
    Some(need)
}

/// What these edges and calls need with those of a state of the second net.
pub fn stride_need(
    related: &PairSet,
    n: &Net,
    set: &PairSet,
    edges: &Edges<'_>,
    calls: &[Call],
    b: u32,
    need: u64,
) -> Option<u64>
    requires { b < states n.now }
    ensures { IsNeed set.now (StridesBy (Marked (marked related.now)) edges.now calls.now n.now b) need result }
{
    let others = n.edges(b);
    let need = edges_need(set, edges, &others, need)?;
    calls_need(related, set, calls, n.calls(b), need)
}
