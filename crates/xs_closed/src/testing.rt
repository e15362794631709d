mod cut;
mod longest;
mod rows;
mod steps;
mod walk;

ghost use Rattle.std.specs.Prelude.{length};
ghost use Rattle.xs_auto.specs.{states};
ghost use Rattle.xs_meet.specs.{Marked};
ghost use Rattle.xs_closed.specs.Rows.{marked, rows_of, IsSized};
ghost use Rattle.xs_closed.specs.Least.{AreStarts};
ghost use Rattle.xs_closed.specs.Longest.{IsGreatestIn, IsApartBy, IsClearBy, AreSized};
ghost use Rattle.xs_closed.specs.Testing.{IsNeed};

use crate::{CutSets, PairSet};
use cut::{is_closed, is_turned, past_need};
use longest::longest;
use steps::pair_need;
use xs_auto::Net;

/// What the pair of the two starts needs.
fn start_need(m: &Net, n: &Net, set: &PairSet) -> Option<u64>
    ensures { IsNeed set.now (AreStarts m.now n.now) 0 result }
{
    match (m.start(), n.start()) {
        (Some(a), Some(b)) => pair_need(set, a, b, 0),
        _ => Some(0),
    }
}

/// How many leading rows of a set show that two nets share no word, at most, if any number does;
/// `related` has the groups that may share a word.
///
/// Takes time linear in the words of the table, those of a row with pairs once more for each empty
/// move of its state, and in the pairs times what else leads from them; no memory.
pub fn longest_apart(related: &PairSet, m: &Net, n: &Net, set: &PairSet) -> Option<u32>
    requires sized { IsSized (states m.now) (states n.now) set.now }
    ensures { IsGreatestIn (length (rows_of set.now)) (IsApartBy (Marked (marked related.now)) m.now n.now set.now) result }
{
    match start_need(m, n, set) {
        Some(need) => longest(related, m, n, set, need),
        None => None,
    }
}

/// How many leading rows of the last of the four sets of a cut show with the others that there is
/// no overlap, at most, if any number does; `related` has the groups that may share a word.
///
/// Takes the time of `longest_apart` for each of the sets, and no memory.
pub fn longest_clear(related: &PairSet, front: &Net, rest: &Net, sets: &CutSets) -> Option<u32>
    requires sized { AreSized front.now rest.now sets.now }
    ensures { IsGreatestIn (length (rows_of sets.now.rests)) (IsClearBy (Marked (marked related.now)) front.now rest.now sets.now) result }
{
    start_need(front, front, &sets.fronts)?;
    if !is_closed(related, front, front, &sets.fronts, &sets.fronts) {
        return None;
    }
    if !is_turned(front, rest, &sets.fronts, &sets.pauses) {
        return None;
    }
    if !is_closed(related, front, rest, &sets.pauses, &sets.middles) {
        return None;
    }
    if !is_closed(related, front, rest, &sets.middles, &sets.middles) {
        return None;
    }
    match past_need(front, rest, &sets.middles, &sets.rests) {
        Some(need) => longest(related, rest, rest, &sets.rests, need),
        None => None,
    }
}
