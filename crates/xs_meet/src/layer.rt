ghost use Rattle.std.specs.Prelude.{◌≡◌, ◌<◌, [], OnOk};
ghost use Rattle.std.specs.List.{All};
ghost use Rattle.xs_meet.specs.Searches.{step as step_of, Fits, Extends, Among, Meets, Joins, IsFor};
ghost use Rattle.xs_meet.specs.Sharing.{AreKnown};

use crate::reached_pair::ReachedPair;
use crate::sharing::Shared;
use std::alloc::Global;
use xs_auto::{Call, Edge, Edges, Net, Pairs};
use xs_class::Memory;

/// The pairs of states of two nets that a search has found, in the order in which it found them,
/// and the map in which they are marked.
///
/// The first net has `height` states, and the second `width`. The first `seeds` steps come from
/// another layer, or from none.
#[derive(Debug, Drop)]
pub struct Layer {
    pub steps: Vec<ReachedPair>,
    pub seeds: usize,
    pub map: u32,
    pub height: u32,
    pub width: u32,
}

impl Layer {
    /// A layer with no steps.
    pub fn new(alloc: Global, map: u32, first: &Net, second: &Net) -> Self
        ensures steps { result.steps.items ≡ [] }
        ensures map { result.map ≡ map }
        ensures nets { IsFor first.now second.now result }
    {
        Layer {
            steps: Vec::new(alloc),
            seeds: 0,
            map,
            height: first.len(),
            width: second.len(),
        }
    }

    /// Adds a step, unless its pair is marked already.
    #[inline(always)]
    pub fn visit(&mut self, pairs: &mut Pairs, step: ReachedPair) -> Result<(), Memory>
        requires fits { Fits self.old pairs.old }
        requires first { step.first < self.old.height }
        requires second { step.second < self.old.width }
        ensures cells { pairs.new.cells ≡ pairs.old.cells }
        ensures fits { OnOk result (Fits self.new pairs.new) }
        ensures ok { OnOk result (Extends (λ s. s ≡ step) self.old self.new) }
    {
        let cell = step.first as u64 * self.width as u64 + step.second as u64;
        if pairs.mark(self.map, cell) {
            self.steps.push(step)?;
        }
        Ok(())
    }

    /// Visits the pairs of each of these first states with one second state.
    pub fn visit_firsts(
        &mut self,
        pairs: &mut Pairs,
        firsts: &[u32],
        second: u32,
        from: usize,
    ) -> Result<(), Memory>
        requires fits { Fits self.old pairs.old }
        requires first { All (λ a. a < self.old.height) firsts.now }
        requires second { second < self.old.width }
        ensures cells { pairs.new.cells ≡ pairs.old.cells }
        ensures fits { OnOk result (Fits self.new pairs.new) }
        ensures ok { OnOk result (Extends (Among firsts.now (λ a s. s ≡ step_of a second from)) self.old self.new) }
    {
        'firsts: for first in firsts {
            self.visit(
                pairs,
                ReachedPair {
                    first: *first,
                    second,
                    from,
                },
            )?;
        }
        Ok(())
    }

    /// Visits the pairs of one first state with each of these second states.
    pub fn visit_seconds(
        &mut self,
        pairs: &mut Pairs,
        first: u32,
        seconds: &[u32],
        from: usize,
    ) -> Result<(), Memory>
        requires fits { Fits self.old pairs.old }
        requires first { first < self.old.height }
        requires second { All (λ b. b < self.old.width) seconds.now }
        ensures cells { pairs.new.cells ≡ pairs.old.cells }
        ensures fits { OnOk result (Fits self.new pairs.new) }
        ensures ok { OnOk result (Extends (Among seconds.now (λ b s. s ≡ step_of first b from)) self.old self.new) }
    {
        'seconds: for second in seconds {
            self.visit(
                pairs,
                ReachedPair {
                    first,
                    second: *second,
                    from,
                },
            )?;
        }
        Ok(())
    }

    /// Visits the pairs of targets of one edge and each other edge that reads a symbol of it.
    fn visit_ends(
        &mut self,
        pairs: &mut Pairs,
        edge: &Edge<'_>,
        others: &Edges<'_>,
        from: usize,
    ) -> Result<(), Memory>
        requires fits { Fits self.old pairs.old }
        requires first { edge.now.to < self.old.height }
        requires second { All (λ f. f.to < self.old.width) others.now }
        ensures cells { pairs.new.cells ≡ pairs.old.cells }
        ensures fits { OnOk result (Fits self.new pairs.new) }
        ensures ok { OnOk result (Extends (Among others.now (λ f. Meets edge.now f from)) self.old self.new) }
    {
        'others: for place in 0..others.len() {
            let other = others.edge(place);
            if edge.first_common(&other).is_some() {
                let first = edge.to();
                let second = other.to();
                let step = ReachedPair {
                    first,
                    second,
                    from,
                };
                self.visit(pairs, step)?;
            }
        }
        Ok(())
    }

    /// Visits the pairs of targets of each two edges that read a common symbol.
    #[inline(always)]
    pub fn visit_boths(
        &mut self,
        pairs: &mut Pairs,
        edges: &Edges<'_>,
        others: &Edges<'_>,
        from: usize,
    ) -> Result<(), Memory>
        requires fits { Fits self.old pairs.old }
        requires first { All (λ e. e.to < self.old.height) edges.now }
        requires second { All (λ f. f.to < self.old.width) others.now }
        ensures cells { pairs.new.cells ≡ pairs.old.cells }
        ensures fits { OnOk result (Fits self.new pairs.new) }
        ensures ok { OnOk result (Extends (Among edges.now (λ e. Among others.now (λ f. Meets e f from))) self.old self.new) }
    {
        'edges: for place in 0..edges.len() {
            let edge = edges.edge(place);
            self.visit_ends(pairs, &edge, others, from)?;
        }
        Ok(())
    }
    /// Visits the pairs of targets of one call and each other call over a group that shares a word
    /// with its group.
    fn visit_partners(
        &mut self,
        pairs: &mut Pairs,
        shared: &Shared,
        call: Call,
        others: &[Call],
        from: usize,
    ) -> Result<(), Memory>
        requires fits { Fits self.old pairs.old }
        requires first { call.to < self.old.height }
        requires second { All (λ k. k.to < self.old.width) others.now }
        ensures cells { pairs.new.cells ≡ pairs.old.cells }
        ensures fits { OnOk result (Fits self.new pairs.new) }
        ensures ok { OnOk result (Extends (Among others.now (λ k. Joins (AreKnown shared.now) call k from)) self.old self.new) }
    {
        'others: for other in others {
            if shared.has(call.group, other.group) {
                let step = ReachedPair {
                    first: call.to,
                    second: other.to,
                    from,
                };
                self.visit(pairs, step)?;
            }
        }
        Ok(())
    }

    /// Visits the pairs of targets of each two calls over groups that share a word.
    #[inline(always)]
    pub fn visit_calls(
        &mut self,
        pairs: &mut Pairs,
        shared: &Shared,
        calls: &[Call],
        others: &[Call],
        from: usize,
    ) -> Result<(), Memory>
        requires fits { Fits self.old pairs.old }
        requires first { All (λ h. h.to < self.old.height) calls.now }
        requires second { All (λ k. k.to < self.old.width) others.now }
        ensures cells { pairs.new.cells ≡ pairs.old.cells }
        ensures fits { OnOk result (Fits self.new pairs.new) }
        ensures ok { OnOk result (Extends (Among calls.now (λ h. Among others.now (λ k. Joins (AreKnown shared.now) h k from))) self.old self.new) }
    {
        'calls: for call in calls {
            self.visit_partners(pairs, shared, *call, others, from)?;
        }
        Ok(())
    }
}
