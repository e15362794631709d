ghost use Rattle.std.specs.Prelude.{◌≡◌, ◌<◌, OnOk, IfOk, length};
ghost use Rattle.std.specs.List.{All};
ghost use Rattle.xs_auto.specs.{states};
ghost use Rattle.xs_meet.specs.{Drifts, Leads, Marked};
ghost use Rattle.xs_closed.specs.Rows.{marked};
ghost use Rattle.xs_closed.specs.Least.{Reach, IsPastFront, IsStride, IsPastMiddle, Meeting, IsTableOf, AreLeastOf};
ghost use Rattle.xs_closed.specs.Search.{IsInside, HasPair, AreFound};

use crate::moves::Moves;
use crate::pair::Pair;
use crate::seeds::{seed_ends, seed_middles, seed_starts};
use crate::spread::close;
use crate::{CutSets, PairSet};
use std::alloc::Global;
use xs_auto::Net;
use xs_class::Memory;
use xs_meet::Seat;

/// The least set that has the two starts and is closed; empty where one net has no start.
///
/// Takes time linear in the pairs of the set, times the edges, moves and calls of their states, and
/// 8 bytes for each pair beside the set.
pub fn least_apart(
    alloc: Global,
    related: &PairSet,
    m: &Net,
    n: &Net,
    set: &mut PairSet,
) -> Result<(), Memory>
    ensures { OnOk result (IsTableOf (Meeting (Marked (marked related.now)) m.now n.now) m.now n.now set.new) }
{
    find_meeting(alloc, related, m, n, set)?;
    Ok(())
}

/// The four least sets of a cut.
///
/// Takes time linear in the pairs of the sets, times the edges, moves and calls of their states,
/// and 8 bytes for each pair beside the sets.
pub fn least_clear(
    alloc: Global,
    related: &PairSet,
    front: &Net,
    rest: &Net,
    sets: &mut CutSets,
) -> Result<(), Memory>
    ensures { OnOk result (AreLeastOf (Marked (marked related.now)) front.now rest.now sets.new) }
{
    let fronts = find_meeting(alloc, related, front, front, &mut sets.fronts)?;
    let cut = Cut {
        alloc,
        related,
        front,
        rest,
    };
    let pauses = cut.find_pauses(&fronts, &mut sets.pauses)?;
    let middles = cut.find_middles(&pauses, &mut sets.middles)?;
    cut.find_rests(&middles, &mut sets.rests)
}

/// The pairs that the starts of two nets lead to.
fn find_meeting(
    alloc: Global,
    related: &PairSet,
    m: &Net,
    n: &Net,
    set: &mut PairSet,
) -> Result<Vec<Pair>, Memory>
    ensures { IfOk result (λ ps. AreFound (Meeting (Marked (marked related.now)) m.now n.now) m.now n.now set.new ps.items) }
{
    let mut pairs = Vec::new(alloc);
    set.reset(m.len(), n.len())?;
    seed_starts(set, &mut pairs, m, n)?;
    close(set, &mut pairs, Moves::Every, related, m, n)?;
    Ok(pairs)
}

/// A cut: the nets of its front and its rest, and the groups that are said to share a word.
#[derive(Clone, Copy)]
pub struct Cut<'c> {
    alloc: Global,
    related: &'c PairSet,
    front: &'c Net,
    rest: &'c Net,
}

impl<'c> Cut<'c> {
    /// The pairs of a front and a rest state before a middle word is read, from pairs of front
    /// states.
    fn find_pauses(&self, fronts: &[Pair], set: &mut PairSet) -> Result<Vec<Pair>, Memory>
        requires { All (IsInside (states self.now.front.now) (states self.now.front.now)) fronts.now }
        ensures { IfOk result (λ ps. AreFound (Reach (IsPastFront self.now.front.now self.now.rest.now (HasPair fronts.now)) (Drifts self.now.front.now self.now.rest.now)) self.now.front.now self.now.rest.now set.new ps.items) }
    {
        let front = self.front;
        let rest = self.rest;
        let mut pairs = Vec::new(self.alloc);
        set.reset(front.len(), rest.len())?;
        seed_ends(set, &mut pairs, Seat::Second, front, rest, fronts)?;
        close(set, &mut pairs, Moves::Empty, self.related, front, rest)?;
        Ok(pairs)
    }

    /// The pairs of a front and a rest state within a middle word, from those before it.
    fn find_middles(&self, pauses: &[Pair], set: &mut PairSet) -> Result<Vec<Pair>, Memory>
        requires { All (IsInside (states self.now.front.now) (states self.now.rest.now)) pauses.now }
        ensures { IfOk result (λ ps. AreFound (Reach (IsStride (Marked (marked self.now.related.now)) self.now.front.now self.now.rest.now (HasPair pauses.now)) (Leads (Marked (marked self.now.related.now)) self.now.front.now self.now.rest.now)) self.now.front.now self.now.rest.now set.new ps.items) }
    {
        let front = self.front;
        let rest = self.rest;
        let mut pairs = Vec::new(self.alloc);
        set.reset(front.len(), rest.len())?;
        seed_middles(set, &mut pairs, self.related, front, rest, pauses)?;
        close(set, &mut pairs, Moves::Every, self.related, front, rest)?;
        Ok(pairs)
    }

    /// Marks the pairs of rest states after a middle word, from the pairs within it.
    fn find_rests(&self, middles: &[Pair], set: &mut PairSet) -> Result<(), Memory>
        requires { All (IsInside (states self.now.front.now) (states self.now.rest.now)) middles.now }
        ensures { OnOk result (IsTableOf (Reach (IsPastMiddle self.now.front.now self.now.rest.now (HasPair middles.now)) (Leads (Marked (marked self.now.related.now)) self.now.rest.now self.now.rest.now)) self.now.rest.now self.now.rest.now set.new) }
    {
        let rest = self.rest;
        let mut pairs = Vec::new(self.alloc);
        set.reset(rest.len(), rest.len())?;
        seed_ends(set, &mut pairs, Seat::First, self.front, rest, middles)?;
        close(set, &mut pairs, Moves::Every, self.related, rest, rest)?;
        Ok(())
    }
}
