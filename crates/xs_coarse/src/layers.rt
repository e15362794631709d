ghost use Rattle.std.specs.Prelude.{◌≡◌, ◌+◌, ◌<◌, ◌≤◌, ℕ, true, IfOk};
ghost use Rattle.std.specs.List.{All};
ghost use Rattle.xs_coarse.specs.Found.{Fits, IsInside};
ghost use Rattle.xs_coarse.specs.Sets.{AreDoubles, AreTurns, AreMiddles, AreLastMiddles, AreRests, AreEndPairs};

use crate::found::Found;
use crate::pair::Pair;
use crate::shape::never_returns;
use crate::{Coarse, Labels};
use std::alloc::Global;
use xs_class::Memory;

impl Found {
    /// The pairs of states up to the top that the first state of a net leads to, in the product of the
    /// net with itself.
    pub fn find_doubles(
        &mut self,
        alloc: Global,
        labels: &Labels,
        net: &Coarse,
        top: u32,
    ) -> Result<bool, Memory>
        requires { Fits self.old }
        ensures fits { Fits self.new }
        ensures ok { IfOk result (λ found. found ≡ true → AreDoubles labels.now net.now top self.new.pairs.items) }
    {
        if top >= net.len() || !never_returns(net, top) {
            return Ok(false);
        }
        let end = top + 1;
        if !self.begin(alloc, end, end)? {
            return Ok(false);
        }
        self.visit(0, 0)?;
        self.close(labels, net, net, Pair::new(end, end))
    }

    /// From doubles of front states: where the first one is that of the cut, the second one beside
    /// it, and where arcs that read nothing lead from there.
    pub fn find_turns(
        &mut self,
        alloc: Global,
        net: &Coarse,
        doubles: &[Pair],
        here: u32,
    ) -> Result<bool, Memory>
        requires fits { Fits self.old }
        requires here { here < net.now.states }
        ensures fits { Fits self.new }
        ensures ok { IfOk result (λ found. found ≡ true → AreTurns net.now here doubles.now self.new.pairs.items) }
    {
        let states = net.len();
        if !self.begin(alloc, here + 1, states)? {
            return Ok(false);
        }
        self.visit_each(
            doubles,
            |p: Pair| (p.first == here).then_some(Pair::new(p.second, here)),
        )?;
        self.close_slips(net, net)
    }

    /// The pairs that are reached from the turns by one arc or more that reads something.
    pub fn find_middles(
        &mut self,
        alloc: Global,
        labels: &Labels,
        net: &Coarse,
        here: u32,
        turns: &[Pair],
    ) -> Result<bool, Memory>
        requires fits { Fits self.old }
        requires inside { All (IsInside net.now.states net.now.states) turns.now }
        requires here { here < net.now.states }
        ensures fits { Fits self.new }
        ensures ok { IfOk result (λ found. found ≡ true → AreMiddles labels.now net.now here turns.now self.new.pairs.items) }
    {
        let states = net.len();
        if !self.begin(alloc, here + 1, states)? {
            return Ok(false);
        }
        self.seed_steps(labels, net, turns)?;
        self.close(labels, net, net, Pair::new(states, states))
    }

    /// The same from all pairs of a state of the front's end and one of the rest; the end may be entered
    /// at its gate, beside each state after that of the cut.
    pub fn find_last_middles(
        &mut self,
        alloc: Global,
        labels: &Labels,
        net: &Coarse,
        gate: u32,
        here: u32,
        pairs: &[Pair],
    ) -> Result<bool, Memory>
        requires fits { Fits self.old }
        requires inside { All (IsInside net.now.states net.now.states) pairs.now }
        requires pairs { AreEndPairs net.now gate here pairs.now }
        requires gate { gate ≤ here }
        requires here { here < net.now.states }
        ensures fits { Fits self.new }
        ensures ok { IfOk result (λ found. found ≡ true → AreLastMiddles labels.now net.now gate here self.new.pairs.items) }
    {
        let states = net.len();
        if !self.begin(alloc, here + 1, states)? {
            return Ok(false);
        }
        self.seed_steps(labels, net, pairs)?;
        if gate > 0 {
            self.seed_firsts(gate, here + 1, states)?;
        }
        self.close(labels, net, net, Pair::new(states, states))
    }

    /// From the middles: where the front state is that of the cut, that one beside the rest state,
    /// and all pairs that are reached from there, if that of the two last states is not.
    pub fn find_rests(
        &mut self,
        alloc: Global,
        labels: &Labels,
        net: &Coarse,
        middles: &[Pair],
        here: u32,
        last: u32,
    ) -> Result<bool, Memory>
        requires fits { Fits self.old }
        requires inside { All (IsInside net.now.states net.now.states) middles.now }
        requires here { here < net.now.states }
        ensures fits { Fits self.new }
        ensures ok { IfOk result (λ none. none ≡ true → AreRests labels.now net.now here last middles.now self.new.pairs.items) }
    {
        let states = net.len();
        if !self.begin(alloc, states, states)? {
            return Ok(false);
        }
        self.visit_each(
            middles,
            |p: Pair| (p.first == here).then_some(Pair::new(here, p.second)),
        )?;
        self.close(labels, net, net, Pair::new(last, last))
    }
}
