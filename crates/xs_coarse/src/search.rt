ghost use Rattle.std.specs.Prelude.{◌≡◌, ℕ, ◌<◌, ◌≤◌, [], true, IfOk, IfSome, OnOk};
ghost use Rattle.std.specs.List.{All};
ghost use Rattle.xs_meet.specs.{AreApart};
ghost use Rattle.xs_coarse.specs.Coarse.{IsTable, MayCall, view, Net as AnyNet};
ghost use Rattle.xs_coarse.specs.Found.{HasPair, IsInside, IsLonger};
ghost use Rattle.xs_coarse.specs.Sets.{AreDoubles, AreClear, AreEndPairs};
ghost use Rattle.xs_coarse.specs.Tails.{IsTail, IsWithinAll};

use crate::found::Found;
use crate::pair::Pair;
use crate::shape::{is_gate, is_source, never_returns};
use crate::tail::Tail;
use crate::{Coarse, Labels};
use std::alloc::Global;
use std::marker::Model;
use xs_class::Memory;

/// The pairs of states up to a top that a net comes to from its first state by words that may be the
/// same. They are found once for all cuts of a net whose states are none after the top.
#[derive(Debug, Drop)]
pub struct Doubles {
    pub pairs: Vec<Pair>,
    pub top: u32,
}

/// A search over pairs of states of coarse nets, which is used again and again: its map of marks
/// grows to the largest product of two nets, at most 2^28 pairs, and is kept.
#[derive(Debug, Drop)]
pub struct Search {
    alloc: Global,
    found: Found,
    seeds: Vec<Pair>,
}

impl Model for Search {
    ghost use Rattle.xs_coarse.specs.Found.{Fits};

    ghost Value = { Unit {0} };

    ghost view = { λ s. tt };

    ghost invariant = { λ s. Fits s.found };
}

impl Search {
    /// A search that has found nothing yet.
    pub fn new(alloc: Global) -> Self {
        Search {
            alloc,
            found: Found::new(alloc),
            seeds: Vec::new(alloc),
        }
    }

    /// Whether a closed set of pairs shows that no word leads both from a to b in the first net and
    /// from c to d in the second one. False says nothing: there may be such a word, or there are
    /// too many pairs.
    ///
    /// Takes time linear in the pairs that are reached, times the products of the arcs of their
    /// states, and 8 bytes for each pair.
    pub fn apart(
        &mut self,
        labels: &Labels,
        first: &Coarse,
        a: u32,
        b: u32,
        second: &Coarse,
        c: u32,
        d: u32,
    ) -> Result<bool, Memory>
        requires first { a < first.now.states }
        requires second { c < second.now.states }
        ensures { IfOk result (λ apart. apart ≡ true → AreApart (MayCall labels.now) (view labels.now first.now a b) (view labels.now second.now c d)) }
    {
        see_table(labels);
        if !self.found.begin(self.alloc, first.len(), second.len())? {
            return Ok(false);
        }
        self.found.visit(a, c)?;
        self.found.close(labels, first, second, Pair::new(b, d))
    }

    /// The pairs of states up to the top that two paths from state 0 of a net come to by words that may
    /// be the same, or none where there are too many, where an arc leads back from beyond the top, or
    /// where the net has no such state.
    pub fn doubles(
        &mut self,
        labels: &Labels,
        net: &Coarse,
        top: u32,
    ) -> Result<Option<Doubles>, Memory>
        ensures { IfOk result (λ o. IfSome o (λ d. AreDoubles labels.now net.now d.top d.pairs.items)) }
    {
        if !self.found.find_doubles(self.alloc, labels, net, top)? {
            return Ok(None);
        }
        let pairs = Vec::from_slice(self.alloc, &self.found.pairs)?;
        Ok(Some(Doubles { pairs, top }))
    }

    /// Whether closed sets of pairs show that nothing overlaps at the state of a cut: there are no
    /// words x, a and y, a not empty, such that x and xa lead from state 0 to that state, and y and
    /// ay from there to the last state. False says nothing: there may be such words, or there are
    /// too many pairs.
    ///
    /// Takes time linear in the doubles and in the pairs that are reached, times the products of the
    /// arcs of their states, and 8 bytes for each pair.
    pub fn clear(
        &mut self,
        labels: &Labels,
        net: &Coarse,
        doubles: &Doubles,
        here: u32,
        last: u32,
    ) -> Result<bool, Memory>
        requires doubles { AreDoubles labels.now net.now doubles.now.top doubles.now.pairs.items }
        requires here { here < net.now.states }
        ensures { IfOk result (λ clear. clear ≡ true → AreClear (MayCall labels.now) (view labels.now net.now 0 here) (view labels.now net.now here last)) }
    {
        see_table(labels);
        if here > doubles.top || !never_returns(net, here) {
            return Ok(false);
        }
        if !self
            .found
            .find_turns(self.alloc, net, &doubles.pairs, here)?
        {
            return Ok(false);
        }
        self.seeds.clear();
        self.seeds.extend_from_slice(&self.found.pairs)?;
        if !self
            .found
            .find_middles(self.alloc, labels, net, here, &self.seeds)?
        {
            return Ok(false);
        }
        self.seeds.clear();
        self.seeds.extend_from_slice(&self.found.pairs)?;
        self.found
            .find_rests(self.alloc, labels, net, &self.seeds, here, last)
    }

    /// Whether closed sets of pairs show the same by the rest, and the end of the front from a gate on,
    /// whatever may stand before it. False says nothing.
    ///
    /// Takes time linear in the arcs of the net, and in the pairs of a state of the front's end and one
    /// of the rest, times the products of the arcs of their states.
    pub fn clear_ends(
        &mut self,
        labels: &Labels,
        net: &Coarse,
        gate: u32,
        here: u32,
        last: u32,
    ) -> Result<bool, Memory>
        requires { here < net.now.states }
        ensures { IfOk result (λ clear. clear ≡ true → AreClear (MayCall labels.now) (view labels.now net.now 0 here) (view labels.now net.now here last)) }
    {
        see_table(labels);
        if gate > here || !is_gate(net, gate) || !is_source(net, here) {
            return Ok(false);
        }
        self.seeds.clear();
        push_end_pairs(&mut self.seeds, net, gate, here)?;
        if !self
            .found
            .find_last_middles(self.alloc, labels, net, gate, here, &self.seeds)?
        {
            return Ok(false);
        }
        self.seeds.clear();
        self.seeds.extend_from_slice(&self.found.pairs)?;
        self.found
            .find_rests(self.alloc, labels, net, &self.seeds, here, last)
    }

    /// Whether a closed set of pairs shows by the ends of two nets, whatever may stand before them, that no
    /// word leads both from the first to the last state of the one and of the other. False says nothing.
    ///
    /// Takes time linear in the pairs that are reached, times the products of the arcs of their states.
    pub fn ends_apart(&mut self, labels: &Labels, one: &Tail, other: &Tail) -> Result<bool, Memory>
        ensures { IfOk result (λ apart. apart ≡ true → (m n : AnyNet) (b e d f : ℕ) → IsWithinAll m → IsWithinAll n → IsTail m b e one.now → IsTail n d f other.now → AreApart (MayCall labels.now) (view labels.now m 0 b) (view labels.now n 0 d)) }
    {
        see_table(labels);
        if !self
            .found
            .begin(self.alloc, one.net.len(), other.net.len())?
        {
            return Ok(false);
        }
        self.found.visit(0, 0)?;
        if one.has_front {
            self.found.seed_firsts(0, 0, other.net.len())?;
        }
        if other.has_front {
            self.found.seed_seconds(one.net.len(), 0)?;
        }
        let end = Pair::new(one.last, other.last);
        self.found.close(labels, &one.net, &other.net, end)
    }
}

/// Each state of a front's end, from a gate on, beside each state of the rest.
fn push_end_pairs(pairs: &mut Vec<Pair>, net: &Coarse, gate: u32, here: u32) -> Result<(), Memory>
    requires none { pairs.old.items ≡ [] }
    requires here { here < net.now.states }
    ensures inside { OnOk result (All (IsInside net.now.states net.now.states) pairs.new.items) }
    ensures each { OnOk result (AreEndPairs net.now gate here pairs.new.items) }
{
    let states = net.len();
    'firsts: for first in gate..here + 1 {
        push_row(pairs, first, here, states)?;
    }
    Ok(())
}

/// A first state beside each second one from one on, before an end.
fn push_row(pairs: &mut Vec<Pair>, first: u32, begin: u32, end: u32) -> Result<(), Memory>
    requires { first < end }
    ensures longer { OnOk result (IsLonger pairs.old.items pairs.new.items) }
    ensures inside { OnOk result (All (IsInside end end) pairs.old.items → All (IsInside end end) pairs.new.items) }
    ensures each { OnOk result ((b : ℕ) → begin ≤ b → b < end → HasPair pairs.new.items first b) }
{
    'seconds: for second in begin..end {
        pairs.push(Pair { first, second })?;
    }
    Ok(())
}

/// Learns that classes that share a symbol may meet, which a look at the table tells.
fn see_table(labels: &Labels)
    ensures { IsTable labels.now }
{
    let _ = labels.meet(0, 0);
}
