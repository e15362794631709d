ghost use Rattle.std.specs.Prelude.{◌≡◌, ◌<◌, OnOk, length};
ghost use Rattle.std.specs.List.{All};
ghost use Rattle.xs_auto.specs.{states};
ghost use Rattle.xs_meet.specs.{Marked, other_of, start_of};
ghost use Rattle.xs_closed.specs.Rows.{marked};
ghost use Rattle.xs_closed.specs.Least.{AreStarts, IsPast, IsStride};
ghost use Rattle.xs_closed.specs.Search.{IsListed, IsFor, IsInside, Adds, HasPair, OneOf, Turns};

use crate::PairSet;
use crate::pair::Pair;
use crate::spread::stride;
use crate::visits::visit;
use xs_auto::Net;
use xs_class::Memory;
use xs_meet::Seat;

/// Visits the pair of the two starts, if there are both.
pub fn seed_starts(set: &mut PairSet, pairs: &mut Vec<Pair>, m: &Net, n: &Net) -> Result<(), Memory>
    requires nets { IsFor m.now n.now set.old }
    requires listed { IsListed set.old pairs.old.items }
    ensures listed { OnOk result (IsListed set.new pairs.new.items) }
    ensures ok { OnOk result (Adds (AreStarts m.now n.now) set.old pairs.old.items set.new pairs.new.items) }
{
    let Some(first) = m.start() else {
        return Ok(());
    };
    let Some(second) = n.start() else {
        return Ok(());
    };
    visit(set, pairs, first, second)
}

/// Visits, for each pair whose first state is final, its second one beside the start.
fn turn_ends(
    set: &mut PairSet,
    pairs: &mut Vec<Pair>,
    seat: Seat,
    front: &Net,
    ends: &[Pair],
    start: u32,
) -> Result<(), Memory>
    requires listed { IsListed set.old pairs.old.items }
    requires start { start < start_of seat (length set.old.rows) set.old.wide }
    requires inside { All (IsInside (states front.now) (other_of seat (length set.old.rows) set.old.wide)) ends.now }
    ensures listed { OnOk result (IsListed set.new pairs.new.items) }
    ensures ok { OnOk result (Adds (OneOf ends.now (Turns seat front.now start)) set.old pairs.old.items set.new pairs.new.items) }
{
    'ends: for at in ends {
        if front.is_final(at.first) {
            let (first, second) = seat.pair(start, at.second);
            visit(set, pairs, first, second)?;
        }
    }
    Ok(())
}

/// Visits, for each pair of which the first state, of the front, is final, its second one beside
/// the start of the rest.
pub fn seed_ends(
    set: &mut PairSet,
    pairs: &mut Vec<Pair>,
    seat: Seat,
    front: &Net,
    rest: &Net,
    ends: &[Pair],
) -> Result<(), Memory>
    requires listed { IsListed set.old pairs.old.items }
    requires rest { start_of seat (length set.old.rows) set.old.wide ≡ states rest.now }
    requires inside { All (IsInside (states front.now) (other_of seat (length set.old.rows) set.old.wide)) ends.now }
    ensures listed { OnOk result (IsListed set.new pairs.new.items) }
    ensures ok { OnOk result (Adds (IsPast seat front.now rest.now (HasPair ends.now)) set.old pairs.old.items set.new pairs.new.items) }
{
    match rest.start() {
        None => Ok(()),
        Some(start) => turn_ends(set, pairs, seat, front, ends, start),
    }
}

/// Visits the pairs to which edges or calls of both nets lead from pairs of a front and a rest
/// state.
pub fn seed_middles(
    set: &mut PairSet,
    pairs: &mut Vec<Pair>,
    related: &PairSet,
    front: &Net,
    rest: &Net,
    pauses: &[Pair],
) -> Result<(), Memory>
    requires nets { IsFor front.now rest.now set.old }
    requires listed { IsListed set.old pairs.old.items }
    requires inside { All (IsInside (states front.now) (states rest.now)) pauses.now }
    ensures listed { OnOk result (IsListed set.new pairs.new.items) }
    ensures ok { OnOk result (Adds (IsStride (Marked (marked related.now)) front.now rest.now (HasPair pauses.now)) set.old pairs.old.items set.new pairs.new.items) }
{
    'pauses: for at in pauses {
        stride(set, pairs, related, front, rest, *at)?;
    }
    Ok(())
}
