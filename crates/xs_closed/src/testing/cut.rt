ghost use Rattle.std.specs.Prelude.{◌≡◌, ◌↔◌, ℕ, ◌<◌, length, true, IsTrue, Some};
ghost use Rattle.xs_auto.specs.{states};
ghost use Rattle.xs_meet.specs.{Marked};
ghost use Rattle.xs_closed.specs.Rows.{marked, IsSized};
ghost use Rattle.xs_closed.specs.Least.{IsPastMiddle};
ghost use Rattle.xs_closed.specs.Testing.{IsNeed, EachPair, LeadsWithin, IsTurned, IsPastRow};

use super::rows::{drifts_need, first_need, strides_need};
use super::walk::partner_from;
use crate::PairSet;
use xs_auto::Net;

/// Whether the pairs of a row lead to pairs of their set by empty moves, and to pairs of another
/// by edges or calls.
fn is_closed_row(related: &PairSet, m: &Net, n: &Net, set: &PairSet, into: &PairSet, a: u32) -> bool
    requires state { a < states m.now }
    requires sized { IsSized (states m.now) (states n.now) set.now }
    ensures { IsTrue result ↔ ((b : ℕ) → marked set.now a b ≡ true → LeadsWithin (Marked (marked related.now)) m.now n.now set.now into.now a b) }
{
    let Some(_) = set.next(a, 0) else {
        return true;
    };
    drifts_need(m, n, set, a, u64::MAX).is_some()
        && strides_need(related, m, n, set, into, a, u64::MAX).is_some()
}

/// Whether each pair of a set leads to pairs of it by empty moves, and to pairs of another by edges
/// or calls.
pub fn is_closed(related: &PairSet, m: &Net, n: &Net, set: &PairSet, into: &PairSet) -> bool
    requires { IsSized (states m.now) (states n.now) set.now }
    ensures { IsTrue result ↔ EachPair set.now (LeadsWithin (Marked (marked related.now)) m.now n.now set.now into.now) }
{
    'rows: for a in 0..m.len() {
        if !is_closed_row(related, m, n, set, into, a) {
            return false;
        }
    }
    true
}

/// Whether another set has each second state of a row beside a state.
fn is_turned_row(set: &PairSet, a: u32, into: &PairSet, r: u32) -> bool
    ensures { IsTrue result ↔ ((b : ℕ) → marked set.now a b ≡ true → marked into.now b r ≡ true) }
{
    let mut from = 0;
    'partners: while let Some(b) = partner_from(set, a, from) {
        if !into.has(b, r) {
            return false;
        }
        from = b as u64 + 1;
    }
    true
}

/// Whether another set has the second state of each pair beside the start of the rest, where the
/// first is final.
pub fn is_turned(front: &Net, rest: &Net, set: &PairSet, into: &PairSet) -> bool
    requires { length set.now.rows ≡ states front.now }
    ensures { IsTrue result ↔ EachPair set.now (IsTurned front.now rest.now into.now) }
{
    let Some(r) = rest.start() else {
        return true;
    };
    'rows: for a in 0..front.len() {
        if front.is_final(a) && !is_turned_row(set, a, into, r) {
            return false;
        }
    }
    true
}

/// What a row needs of another set beside a state, where the row's own state is final.
fn past_row_need(
    front: &Net,
    set: &PairSet,
    a: u32,
    into: &PairSet,
    s: u32,
    need: u64,
) -> Option<u64>
    requires state { a < states front.now }
    requires row { a < length set.now.rows }
    requires into { s < length into.now.rows }
    requires wide { set.now.wide ≡ into.now.wide }
    ensures { IsNeed into.now (IsPastRow front.now set.now a s) need result }
{
    if front.is_final(a) {
        first_need(set, a, into, s, need)
    } else {
        Some(need)
    }
}

/// What the pairs of a set need of another: the start of the rest beside each second state, where
/// the first is final.
pub fn past_need(front: &Net, rest: &Net, set: &PairSet, into: &PairSet) -> Option<u64>
    requires set { IsSized (states front.now) (states rest.now) set.now }
    requires into { IsSized (states rest.now) (states rest.now) into.now }
    ensures { IsNeed into.now (IsPastMiddle front.now rest.now (Marked (marked set.now))) 0 result }
{
    let Some(s) = rest.start() else {
        return Some(0);
    };
    let mut need = 0;
    'rows: for a in 0..front.len() {
        need = past_row_need(front, set, a, into, s, need)?;
    }
    Some(need)
}
