ghost use Rattle.std.specs.Prelude.{◌≡◌, ◌<◌, ◌&&◌, ℕ, true, OnOk, IfOk, IfSome, IfNone};
ghost use Rattle.xs_auto.specs.{final_at, states};
ghost use Rattle.xs_meet.specs.Closed.{Leads, IsClosed};
ghost use Rattle.xs_meet.specs.Searches.{Fits, IsFound, Extends, IsFor, DriftsFrom, StridesFrom, LeadsFrom, Closes, ClosesDrifts, Follows, EndsBoth};
ghost use Rattle.xs_meet.specs.Sharing.{AreKnown};

use crate::layer::Layer;
use crate::reached_pair::ReachedPair;
use crate::sharing::Shared;
use xs_auto::{Net, Pairs};
use xs_class::Memory;

impl Layer {
    /// Visits the pairs to which an empty move of either net leads from a pair.
    #[inline(always)]
    fn drift(
        &mut self,
        pairs: &mut Pairs,
        first: &Net,
        second: &Net,
        at: ReachedPair,
        from: usize,
    ) -> Result<(), Memory>
        requires nets { IsFor first.now second.now self.old }
        requires fits { Fits self.old pairs.old }
        requires first { at.first < states first.now }
        requires second { at.second < states second.now }
        ensures cells { pairs.new.cells ≡ pairs.old.cells }
        ensures fits { OnOk result (Fits self.new pairs.new) }
        ensures ok { OnOk result (Extends (DriftsFrom first.now second.now at.first at.second from) self.old self.new) }
    {
        self.visit_firsts(pairs, first.moves(at.first), at.second, from)?;
        self.visit_seconds(pairs, at.first, second.moves(at.second), from)?;
        Ok(())
    }

    /// Visits the pairs to which edges, or calls, of both nets lead from a pair.
    #[inline(always)]
    pub fn stride(
        &mut self,
        pairs: &mut Pairs,
        shared: &Shared,
        first: &Net,
        second: &Net,
        at: ReachedPair,
        from: usize,
    ) -> Result<(), Memory>
        requires nets { IsFor first.now second.now self.old }
        requires fits { Fits self.old pairs.old }
        requires first { at.first < states first.now }
        requires second { at.second < states second.now }
        ensures cells { pairs.new.cells ≡ pairs.old.cells }
        ensures fits { OnOk result (Fits self.new pairs.new) }
        ensures ok { OnOk result (Extends (StridesFrom (AreKnown shared.now) first.now second.now at.first at.second from) self.old self.new) }
    {
        let edges = first.edges(at.first);
        let others = second.edges(at.second);
        self.visit_boths(pairs, &edges, &others, from)?;
        self.visit_calls(
            pairs,
            shared,
            first.calls(at.first),
            second.calls(at.second),
            from,
        )?;
        Ok(())
    }

    /// Visits the pairs to which an empty move of either net, or edges or calls of both, lead from
    /// a pair.
    fn expand(
        &mut self,
        pairs: &mut Pairs,
        shared: &Shared,
        first: &Net,
        second: &Net,
        at: ReachedPair,
        from: usize,
    ) -> Result<(), Memory>
        requires nets { IsFor first.now second.now self.old }
        requires fits { Fits self.old pairs.old }
        requires first { at.first < states first.now }
        requires second { at.second < states second.now }
        ensures cells { pairs.new.cells ≡ pairs.old.cells }
        ensures fits { OnOk result (Fits self.new pairs.new) }
        ensures ok { OnOk result (Extends (LeadsFrom (AreKnown shared.now) first.now second.now at.first at.second from) self.old self.new) }
    {
        self.drift(pairs, first, second, at, from)?;
        self.stride(pairs, shared, first, second, at, from)?;
        Ok(())
    }

    /// Adds pairs to which the steps lead, each with the place of the step that led there: all of them,
    /// or, if it stops at an end, those up to the first pair of two final states, whose place it gives.
    pub fn close_until(
        &mut self,
        pairs: &mut Pairs,
        shared: &Shared,
        first: &Net,
        second: &Net,
        stops: bool,
    ) -> Result<Option<usize>, Memory>
        requires nets { IsFor first.now second.now self.old }
        requires fits { Fits self.old pairs.old }
        ensures cells { pairs.new.cells ≡ pairs.old.cells }
        ensures fits { OnOk result (Fits self.new pairs.new) }
        ensures follows { OnOk result (Follows (AreKnown shared.now) first.now second.now self.old self.new) }
        ensures some { IfOk result (λ o. IfSome o (λ k. (stops ≡ true) × EndsBoth first.now second.now self.new.steps.items k)) }
        ensures closed { IfOk result (λ o. IfNone o (IsClosed (Leads (AreKnown shared.now) first.now second.now) (IsFound self.new.steps.items))) }
        ensures none { IfOk result (λ o. IfNone o (stops ≡ true → (k : ℕ) → EndsBoth first.now second.now self.new.steps.items k → ⊥)) }
    {
        self.seeds = self.steps.len();
        'places: for place in 0..usize::MAX {
            if place >= self.steps.len() {
                return Ok(None);
            }
            let at = self.steps[place];
            if is_end(stops, first, second, at) {
                return Ok(Some(place));
            }
            self.expand(pairs, shared, first, second, at, place)?;
        }
        Ok(None)
    }

    /// Adds all pairs to which the steps lead, each with the place of the step that led there.
    pub fn close(
        &mut self,
        pairs: &mut Pairs,
        shared: &Shared,
        first: &Net,
        second: &Net,
    ) -> Result<(), Memory>
        requires nets { IsFor first.now second.now self.old }
        requires fits { Fits self.old pairs.old }
        ensures cells { pairs.new.cells ≡ pairs.old.cells }
        ensures fits { OnOk result (Fits self.new pairs.new) }
        ensures ok { OnOk result (Closes (AreKnown shared.now) first.now second.now self.old self.new) }
    {
        let _end = self.close_until(pairs, shared, first, second, false)?;
        Ok(())
    }

    /// Adds all pairs to which the steps lead by empty moves alone, each with the origin of the
    /// step that led there.
    pub fn close_drifts(
        &mut self,
        pairs: &mut Pairs,
        first: &Net,
        second: &Net,
    ) -> Result<(), Memory>
        requires nets { IsFor first.now second.now self.old }
        requires fits { Fits self.old pairs.old }
        ensures cells { pairs.new.cells ≡ pairs.old.cells }
        ensures fits { OnOk result (Fits self.new pairs.new) }
        ensures ok { OnOk result (ClosesDrifts first.now second.now self.old self.new) }
    {
        'places: for place in 0..usize::MAX {
            if place >= self.steps.len() {
                return Ok(());
            }
            let at = self.steps[place];
            self.drift(pairs, first, second, at, at.from)?;
        }
        Ok(())
    }
}

/// Whether a search stops at a pair: one that stops at an end, at two final states.
#[inline(always)]
fn is_end(stops: bool, first: &Net, second: &Net, at: ReachedPair) -> bool
    requires first { at.first < states first.now }
    requires second { at.second < states second.now }
    ensures { result ≡ (stops && (final_at first.now at.first && final_at second.now at.second)) }
{
    stops && first.is_final(at.first) && second.is_final(at.second)
}
