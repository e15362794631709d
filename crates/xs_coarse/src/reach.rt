ghost use Rattle.std.specs.Prelude.{◌≡◌, ◌<◌, true, IfOk, OnOk};
ghost use Rattle.std.specs.List.{All};
ghost use Rattle.xs_coarse.specs.Arcs.{Slips, Steps, Goes, Joins, HasAll, IsClosedWithin, IsFor};
ghost use Rattle.xs_coarse.specs.declared.arc.Arc.{Arc as AnyArc};
ghost use Rattle.xs_coarse.specs.Found.{Fits, IsInside, IsMore};
ghost use Rattle.xs_coarse.specs.Sets.{IsShut};

use crate::found::Found;
use crate::pair::Pair;
use crate::{Arc, Coarse, Labels};
use xs_class::Memory;

impl Found {
    /// Visits the targets of an arc and of each other arc with which it may read a common word.
    fn visit_partners(&mut self, labels: &Labels, arc: Arc, others: &[Arc]) -> Result<(), Memory>
        requires { Fits self.old }
        ensures more { IsMore self.old self.new }
        ensures ok { OnOk result (All (Joins labels.now self.new arc) others.now) }
    {
        if arc.label == 0 {
            return Ok(());
        }
        self.visit_each(
            others,
            |x: Arc| labels
                .meet(arc.label, x.label)
                .then_some(Pair::new(arc.to, x.to)),
        )?;
        Ok(())
    }

    /// Visits the targets of each two arcs that may read a common word.
    fn visit_boths(&mut self, labels: &Labels, arcs: &[Arc], others: &[Arc]) -> Result<(), Memory>
        requires { Fits self.old }
        ensures more { IsMore self.old self.new }
        ensures ok { OnOk result (All (λ (x : AnyArc). All (Joins labels.now self.new x) others.now) arcs.now) }
    {
        'arcs: for arc in arcs {
            self.visit_partners(labels, *arc, others)?;
        }
        Ok(())
    }

    /// Visits the pairs to which an arc of either net that reads nothing leads from a pair.
    fn slip(&mut self, first: &Coarse, second: &Coarse, at: Pair) -> Result<(), Memory>
        requires fits { Fits self.old }
        requires at { IsInside first.now.states second.now.states at }
        ensures more { IsMore self.old self.new }
        ensures ok { OnOk result (HasAll (Slips first.now second.now) at.first at.second self.new) }
    {
        self.visit_each(
            first.row(at.first),
            |x: Arc| (x.label == 0).then_some(Pair::new(x.to, at.second)),
        )?;
        self.visit_each(
            second.row(at.second),
            |x: Arc| (x.label == 0).then_some(Pair::new(at.first, x.to)),
        )?;
        Ok(())
    }

    /// Visits the pairs to which arcs of both nets that may read a common word lead from a pair.
    pub fn step(
        &mut self,
        labels: &Labels,
        first: &Coarse,
        second: &Coarse,
        at: Pair,
    ) -> Result<(), Memory>
        requires fits { Fits self.old }
        requires at { IsInside first.now.states second.now.states at }
        ensures more { IsMore self.old self.new }
        ensures ok { OnOk result (HasAll (Steps labels.now first.now second.now) at.first at.second self.new) }
    {
        self.visit_boths(labels, first.row(at.first), second.row(at.second))?;
        Ok(())
    }

    /// Adds all pairs to which the pairs lead. Answers false as soon as it comes to the goal.
    pub fn close(
        &mut self,
        labels: &Labels,
        first: &Coarse,
        second: &Coarse,
        goal: Pair,
    ) -> Result<bool, Memory>
        requires nets { IsFor first.now second.now self.old }
        requires fits { Fits self.old }
        ensures more { IsMore self.old self.new }
        ensures ok { IfOk result (λ closed. closed ≡ true → IsShut (Goes labels.now first.now second.now) goal self.new.height self.new.width self.new.pairs.items) }
    {
        'places: for place in 0..usize::MAX {
            if place >= self.pairs.len() {
                return Ok(true);
            }
            let at = self.pairs[place];
            if at == goal {
                return Ok(false);
            }
            self.slip(first, second, at)?;
            self.step(labels, first, second, at)?;
        }
        Ok(false)
    }

    /// Adds all pairs to which the pairs lead by arcs that read nothing.
    pub fn close_slips(&mut self, first: &Coarse, second: &Coarse) -> Result<bool, Memory>
        requires nets { IsFor first.now second.now self.old }
        requires fits { Fits self.old }
        ensures more { IsMore self.old self.new }
        ensures ok { IfOk result (λ closed. closed ≡ true → IsClosedWithin (Slips first.now second.now) self.new.height self.new.width self.new.pairs.items) }
    {
        'places: for place in 0..usize::MAX {
            if place >= self.pairs.len() {
                return Ok(true);
            }
            let at = self.pairs[place];
            self.slip(first, second, at)?;
        }
        Ok(false)
    }
}
