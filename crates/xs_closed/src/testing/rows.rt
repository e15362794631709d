ghost use Rattle.std.specs.Prelude.{◌≡◌, ◌<◌, length, true, false};
ghost use Rattle.std.specs.List.{All};
ghost use Rattle.xs_auto.specs.{states, moves_of};
ghost use Rattle.xs_meet.specs.{Marked, Drifts, Strides};
ghost use Rattle.xs_closed.specs.Rows.{marked, IsSized};
ghost use Rattle.xs_closed.specs.Search.{IsPair, OneOf};
ghost use Rattle.xs_closed.specs.Testing.{IsNeed, InRow, RowHasNoFinals};

use super::steps::{seconds_need, stride_need};
use super::walk::partner_from;
use crate::PairSet;
use xs_auto::Net;

/// What the pairs of one first state with all partners of a row need.
pub fn first_need(set: &PairSet, a: u32, into: &PairSet, c: u32, need: u64) -> Option<u64>
    requires row { a < length set.now.rows }
    requires into { c < length into.now.rows }
    requires wide { set.now.wide ≡ into.now.wide }
    ensures { IsNeed into.now (InRow set.now a (IsPair c)) need result }
{
    match set.next(a, 0) {
        Some(_) => {
            if into.has_row(c, set, a) {
                Some(need.max(c as u64 + 1))
            } else {
                None
            }
        }
        None => Some(need),
    }
}

/// What the pairs of each of these first states with all partners of a row need.
fn firsts_need(set: &PairSet, a: u32, firsts: &[u32], need: u64) -> Option<u64>
    requires row { a < length set.now.rows }
    requires firsts { All (λ c. c < length set.now.rows) firsts.now }
    ensures { IsNeed set.now (OneOf firsts.now (λ c. InRow set.now a (IsPair c))) need result }
{
    let mut need = need;
    'firsts: for first in firsts {
        need = first_need(set, a, set, *first, need)?;
    }
    Some(need)
}

/// What the empty moves of the second net from the pairs of a row need.
fn moved_need(n: &Net, set: &PairSet, a: u32, need: u64) -> Option<u64>
    requires { IsSized (length set.now.rows) (states n.now) set.now }
    ensures { IsNeed set.now (InRow set.now a (λ b. OneOf (moves_of n.now b) (IsPair a))) need result }
{
    let mut need = need;
    let mut from = 0;
    'partners: while let Some(b) = partner_from(set, a, from) {
        need = seconds_need(set, a, n.moves(b), need)?;
        from = b as u64 + 1;
    }
    Some(need)
}

/// What the empty moves of either net from the pairs of a row need.
pub fn drifts_need(m: &Net, n: &Net, set: &PairSet, a: u32, need: u64) -> Option<u64>
    requires state { a < states m.now }
    requires sized { IsSized (states m.now) (states n.now) set.now }
    ensures { IsNeed set.now (InRow set.now a (Drifts m.now n.now a)) need result }
{
    let need = firsts_need(set, a, m.moves(a), need)?;
    moved_need(n, set, a, need)
}

/// What the edges and the calls of both nets from the pairs of a row need of another set.
pub fn strides_need(
    related: &PairSet,
    m: &Net,
    n: &Net,
    set: &PairSet,
    into: &PairSet,
    a: u32,
    need: u64,
) -> Option<u64>
    requires state { a < states m.now }
    requires sized { IsSized (states m.now) (states n.now) set.now }
    ensures { IsNeed into.now (InRow set.now a (Strides (Marked (marked related.now)) m.now n.now a)) need result }
{
    let edges = m.edges(a);
    let calls = m.calls(a);
    if edges.len() == 0 && calls.is_empty() {
        return Some(need);
    }
    let mut need = need;
    let mut from = 0;
    'partners: while let Some(b) = partner_from(set, a, from) {
        need = stride_need(related, n, into, &edges, calls, b, need)?;
        from = b as u64 + 1;
    }
    Some(need)
}

/// Whether both states of a pair of a row are final.
pub fn has_finals(m: &Net, n: &Net, set: &PairSet, a: u32) -> bool
    requires state { a < states m.now }
    requires sized { IsSized (states m.now) (states n.now) set.now }
    ensures some { result ≡ true → RowHasNoFinals m.now n.now set.now a → ⊥ }
    ensures none { result ≡ false → RowHasNoFinals m.now n.now set.now a }
{
    if !m.is_final(a) {
        return false;
    }
    let mut from = 0;
    'partners: while let Some(b) = partner_from(set, a, from) {
        if n.is_final(b) {
            return true;
        }
        from = b as u64 + 1;
    }
    false
}
