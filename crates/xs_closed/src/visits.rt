ghost use Rattle.std.specs.Prelude.{◌≡◌, ◌<◌, true, false, ℕ, OnOk, length};
ghost use Rattle.std.specs.List.{All};
ghost use Rattle.xs_class.specs.{Has};
ghost use Rattle.xs_meet.specs.{Marked};
ghost use Rattle.xs_closed.specs.Rows.{marked};
ghost use Rattle.xs_closed.specs.Search.{IsListed, Adds, IsPair, OneOf, Meets, Joins};

use crate::PairSet;
use crate::pair::Pair;
use xs_auto::{Call, Edge, Edges};
use xs_class::Memory;

/// Marks a pair, and lists it unless it was marked already.
pub fn visit(
    set: &mut PairSet,
    pairs: &mut Vec<Pair>,
    first: u32,
    second: u32,
) -> Result<(), Memory>
    requires listed { IsListed set.old pairs.old.items }
    requires first { first < length set.old.rows }
    requires second { second < set.old.wide }
    ensures listed { OnOk result (IsListed set.new pairs.new.items) }
    ensures ok { OnOk result (Adds (IsPair first second) set.old pairs.old.items set.new pairs.new.items) }
{
    if set.insert(first, second) {
        pairs.push(Pair { first, second })?;
    }
    Ok(())
}

/// Visits the pairs of each of these first states with one second state.
pub fn visit_firsts(
    set: &mut PairSet,
    pairs: &mut Vec<Pair>,
    firsts: &[u32],
    second: u32,
) -> Result<(), Memory>
    requires listed { IsListed set.old pairs.old.items }
    requires first { All (λ a. a < length set.old.rows) firsts.now }
    requires second { second < set.old.wide }
    ensures listed { OnOk result (IsListed set.new pairs.new.items) }
    ensures ok { OnOk result (Adds (OneOf firsts.now (λ a. IsPair a second)) set.old pairs.old.items set.new pairs.new.items) }
{
    'firsts: for first in firsts {
        visit(set, pairs, *first, second)?;
    }
    Ok(())
}

/// Visits the pairs of one first state with each of these second states.
pub fn visit_seconds(
    set: &mut PairSet,
    pairs: &mut Vec<Pair>,
    first: u32,
    seconds: &[u32],
) -> Result<(), Memory>
    requires listed { IsListed set.old pairs.old.items }
    requires first { first < length set.old.rows }
    requires second { All (λ b. b < set.old.wide) seconds.now }
    ensures listed { OnOk result (IsListed set.new pairs.new.items) }
    ensures ok { OnOk result (Adds (OneOf seconds.now (λ b. IsPair first b)) set.old pairs.old.items set.new pairs.new.items) }
{
    'seconds: for second in seconds {
        visit(set, pairs, first, *second)?;
    }
    Ok(())
}

/// Whether the pair of targets of two edges is not marked and they read a common symbol.
fn is_new(set: &PairSet, edge: &Edge<'_>, other: &Edge<'_>) -> bool
    ensures meet { result ≡ true → Meets edge.now other.now edge.now.to other.now.to }
    ensures known { result ≡ false → Meets edge.now other.now edge.now.to other.now.to → Marked (marked set.now) edge.now.to other.now.to }
{
    !set.has(edge.to(), other.to()) && edge.first_common(other).is_some()
}

/// Visits the pairs of targets of one edge and each other edge that reads a symbol of it.
fn visit_ends(
    set: &mut PairSet,
    pairs: &mut Vec<Pair>,
    edge: &Edge<'_>,
    others: &Edges<'_>,
) -> Result<(), Memory>
    requires listed { IsListed set.old pairs.old.items }
    requires first { edge.now.to < length set.old.rows }
    requires second { All (λ f. f.to < set.old.wide) others.now }
    ensures listed { OnOk result (IsListed set.new pairs.new.items) }
    ensures ok { OnOk result (Adds (OneOf others.now (Meets edge.now)) set.old pairs.old.items set.new pairs.new.items) }
{
    'others: for place in 0..others.len() {
        let other = others.edge(place);
        if is_new(set, edge, &other) {
            let first = edge.to();
            let second = other.to();
            visit(set, pairs, first, second)?;
        }
    }
    Ok(())
}

/// Visits the pairs of targets of each two edges that read a common symbol.
#[inline(always)]
pub fn visit_boths(
    set: &mut PairSet,
    pairs: &mut Vec<Pair>,
    edges: &Edges<'_>,
    others: &Edges<'_>,
) -> Result<(), Memory>
    requires listed { IsListed set.old pairs.old.items }
    requires first { All (λ e. e.to < length set.old.rows) edges.now }
    requires second { All (λ f. f.to < set.old.wide) others.now }
    ensures listed { OnOk result (IsListed set.new pairs.new.items) }
    ensures ok { OnOk result (Adds (OneOf edges.now (λ e. OneOf others.now (Meets e))) set.old pairs.old.items set.new pairs.new.items) }
{
    'edges: for place in 0..edges.len() {
        let edge = edges.edge(place);
        visit_ends(set, pairs, &edge, others)?;
    }
    Ok(())
}

/// Visits the pairs of targets of one call and each other call over a group that is related to its
/// group.
fn visit_partners(
    set: &mut PairSet,
    pairs: &mut Vec<Pair>,
    related: &PairSet,
    call: Call,
    others: &[Call],
) -> Result<(), Memory>
    requires listed { IsListed set.old pairs.old.items }
    requires first { call.to < length set.old.rows }
    requires second { All (λ k. k.to < set.old.wide) others.now }
    ensures listed { OnOk result (IsListed set.new pairs.new.items) }
    ensures ok { OnOk result (Adds (OneOf others.now (Joins (Marked (marked related.now)) call)) set.old pairs.old.items set.new pairs.new.items) }
{
    'others: for other in others {
        if related.has(call.group, other.group) {
            visit(set, pairs, call.to, other.to)?;
        }
    }
    Ok(())
}

/// Visits the pairs of targets of each two calls over related groups.
#[inline(always)]
pub fn visit_calls(
    set: &mut PairSet,
    pairs: &mut Vec<Pair>,
    related: &PairSet,
    calls: &[Call],
    others: &[Call],
) -> Result<(), Memory>
    requires listed { IsListed set.old pairs.old.items }
    requires first { All (λ h. h.to < length set.old.rows) calls.now }
    requires second { All (λ k. k.to < set.old.wide) others.now }
    ensures listed { OnOk result (IsListed set.new pairs.new.items) }
    ensures ok { OnOk result (Adds (OneOf calls.now (λ h. OneOf others.now (Joins (Marked (marked related.now)) h))) set.old pairs.old.items set.new pairs.new.items) }
{
    'calls: for call in calls {
        visit_partners(set, pairs, related, *call, others)?;
    }
    Ok(())
}
