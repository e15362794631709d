ghost use Rattle.std.specs.Prelude.{◌≡◌, ◌+◌, ◌-◌, ◌^◌, ◌<◌, ◌≤◌, ◌&&◌, length, true, Some};
ghost use Rattle.xs_auto.specs.{states, final_at};
ghost use Rattle.xs_meet.specs.{Marked};
ghost use Rattle.xs_closed.specs.Rows.{marked, IsSized};
ghost use Rattle.xs_closed.specs.Testing.{IsRowNeed, IsBest, rank};

use super::rows::{drifts_need, first_need, has_finals, strides_need};
use crate::PairSet;
use xs_auto::Net;

/// What the pairs of a row need with all that leads from them; none also where both states of one
/// are final.
fn row_need(related: &PairSet, m: &Net, n: &Net, set: &PairSet, a: u32, need: u64) -> Option<u64>
    requires first { a < states m.now }
    requires sized { IsSized (states m.now) (states n.now) set.now }
    ensures { IsRowNeed (Marked (marked related.now)) m.now n.now set.now a need result }
{
    let Some(_) = set.next(a, 0) else {
        return Some(need);
    };
    if has_finals(m, n, set, a) {
        return None;
    }
    let kept = first_need(set, a, set, a, need)?;
    let drifted = drifts_need(m, n, set, a, kept)?;
    strides_need(related, m, n, set, set, a, drifted)
}

/// The count, where no more is needed than the rows before a, and else the best until then.
fn better(best: Option<u32>, count: u32, need: u64, a: u32) -> Option<u32>
    ensures taken { need ≤ a → result ≡ Some count }
    ensures kept { a < need → result ≡ best }
{
    if need <= a as u64 { Some(count) } else { best }
}

/// The number of rows with pairs up to row a, where the count is of those before it.
fn counted(set: &PairSet, a: u32, count: u32) -> u32
    requires few { a < 2 ^ 32 - 1 }
    requires row { a < length set.now.rows }
    requires count { count ≡ rank set.now a }
    ensures { result ≡ rank set.now (a + 1) }
{
    match set.next(a, 0) {
        Some(_) => count + 1,
        None => count,
    }
}

/// The greatest number of leading rows that are closed and have no pair of two final states, where
/// no fewer rows will do than those of the states below a bound.
pub fn longest(related: &PairSet, m: &Net, n: &Net, set: &PairSet, low: u64) -> Option<u32>
    requires { IsSized (states m.now) (states n.now) set.now }
    ensures { IsBest (Marked (marked related.now)) m.now n.now set.now low (states m.now + 1) result }
{
    let high = m.len();
    let mut need = low;
    let mut count = 0;
    let mut best = None;
    'states: for a in 0..high {
        best = better(best, count, need, a);
        match row_need(related, m, n, set, a, need) {
            Some(more) => need = more,
            None => return best,
        }
        count = counted(set, a, count);
    }
    better(best, count, need, high)
}
