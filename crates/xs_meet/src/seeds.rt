ghost use Rattle.std.specs.Prelude.{◌≡◌, ◌<◌, OnOk};
ghost use Rattle.xs_auto.specs.{states};
ghost use Rattle.xs_meet.specs.Searches.{Fits, Extends, IsFor, InNets, InStates, Seeds, Departs};
ghost use Rattle.xs_meet.specs.Seats.{start_of, other_of};
ghost use Rattle.xs_meet.specs.Sharing.{AreKnown};

use crate::layer::Layer;
use crate::reached_pair::ReachedPair;
use crate::seat::Seat;
use crate::sharing::Shared;
use xs_auto::{Net, Pairs};
use xs_class::Memory;

impl Layer {
    /// Visits, for each step of another layer whose first state is final, the pair of its second
    /// state and the start of the other net.
    pub fn seed_ends(
        &mut self,
        pairs: &mut Pairs,
        seat: Seat,
        steps: &[ReachedPair],
        net: &Net,
        start: u32,
    ) -> Result<(), Memory>
        requires fits { Fits self.old pairs.old }
        requires range { InStates (states net.now) (other_of seat self.old.height self.old.width) steps.now }
        requires start { start < start_of seat self.old.height self.old.width }
        ensures cells { pairs.new.cells ≡ pairs.old.cells }
        ensures fits { OnOk result (Fits self.new pairs.new) }
        ensures ok { OnOk result (Extends (Seeds seat net.now start steps.now) self.old self.new) }
    {
        'places: for place in 0..steps.len() {
            let end = steps[place];
            if net.is_final(end.first) {
                let (first, second) = seat.pair(start, end.second);
                let seed = ReachedPair {
                    first,
                    second,
                    from: place,
                };
                self.visit(pairs, seed)?;
            }
        }
        Ok(())
    }

    /// Visits the pairs to which edges or calls of both nets lead from the steps of another layer.
    pub fn seed_departures(
        &mut self,
        pairs: &mut Pairs,
        shared: &Shared,
        steps: &[ReachedPair],
        first: &Net,
        second: &Net,
    ) -> Result<(), Memory>
        requires nets { IsFor first.now second.now self.old }
        requires fits { Fits self.old pairs.old }
        requires range { InNets first.now second.now steps.now }
        ensures cells { pairs.new.cells ≡ pairs.old.cells }
        ensures fits { OnOk result (Fits self.new pairs.new) }
        ensures ok { OnOk result (Extends (Departs (AreKnown shared.now) first.now second.now steps.now) self.old self.new) }
    {
        'places: for place in 0..steps.len() {
            let at = steps[place];
            self.stride(pairs, shared, first, second, at, place)?;
        }
        Ok(())
    }
}
