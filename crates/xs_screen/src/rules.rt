ghost use Rattle.std.specs.Prelude.{◌≡◌, ◌<◌, true, length, IfOk, IfSome};
ghost use Rattle.xs_gram.specs.{spread, IsBuilt};
ghost use Rattle.xs_loose.specs.{IsPart, part_items, AreNumbersBefore};
ghost use Rattle.xs_screen.specs.Screens.{IsScreen, IsWholeCover, AreEndsApart, ShareNone, whole_part};

use crate::Screen;
use crate::groups::are_apart;
use crate::kept::{held, tail_of};
use std::alloc::Global;
use xs_class::Memory;
use xs_coarse::{Labels, Search, Tail};
use xs_coarse_laws::closed_sets_show_none;
use xs_coarse_net::Cover;
use xs_gram::Gram;
use xs_loose::Part;
use xs_regex::Numbers;

impl Screen {
    /// Whether it is seen that no word is loose for both rules. False says nothing.
    ///
    /// Looks at the ends of their covers first, after their last nonterminals. Takes time linear in
    /// the pairs of states that are reached, and for each rule once, or again where its cover is
    /// not kept, time n log n of its cover.
    pub fn are_apart(
        &mut self,
        alloc: Global,
        g: &Gram,
        groups: &Numbers,
        rule: u32,
        rule2: u32,
    ) -> Result<bool, Memory>
        requires built { IsBuilt g.now }
        requires groups { AreNumbersBefore g.now (length g.now.rules) groups.now }
        requires screen { IsScreen g.now self.old }
        requires rule { rule < length g.now.rules }
        requires rule2 { rule2 < length g.now.rules }
        ensures screen { IsScreen g.now self.new }
        ensures apart { IfOk result (λ b. b ≡ true → ShareNone g.now rule rule2) }
    {
        self.prepare(alloc, g, groups, rule)?;
        self.prepare(alloc, g, groups, rule2)?;
        let Some(one) = &self.kept.tails[rule as usize] else {
            return Ok(false);
        };
        let Some(other) = &self.kept.tails[rule2 as usize] else {
            return Ok(false);
        };
        closed_sets_show_none();
        let told = told_by_ends(&self.labels, &mut self.search, one, other)?;
        if let Some(apart) = told {
            return Ok(apart);
        }
        self.are_covers_apart(alloc, g, groups, rule, rule2)
    }

    /// Sees that the end of a rule's cover is kept, and the cover where there is room for it,
    /// unless the cover would be too large, or has no end to be looked at.
    fn prepare(
        &mut self,
        alloc: Global,
        g: &Gram,
        groups: &Numbers,
        rule: u32,
    ) -> Result<(), Memory>
        requires built { IsBuilt g.now }
        requires groups { AreNumbersBefore g.now (length g.now.rules) groups.now }
        requires screen { IsScreen g.now self.old }
        requires rule { rule < length g.now.rules }
        ensures { IsScreen g.now self.new }
    {
        if self.kept.tails[rule as usize].is_some() {
            return Ok(());
        }
        let part = whole(g, rule);
        let Some(cover) = self.covers.cover(alloc, g, &self.labels, groups, &part)? else {
            return Ok(());
        };
        let Some(tail) = tail_of(alloc, g, rule, &cover)? else {
            return Ok(());
        };
        self.kept.keep(rule, tail, cover);
        Ok(())
    }

    /// Whether it is seen that no word is loose for both rules by their covers, which are made
    /// where they are not kept.
    fn are_covers_apart(
        &mut self,
        alloc: Global,
        g: &Gram,
        groups: &Numbers,
        rule: u32,
        rule2: u32,
    ) -> Result<bool, Memory>
        requires built { IsBuilt g.now }
        requires groups { AreNumbersBefore g.now (length g.now.rules) groups.now }
        requires screen { IsScreen g.now self.old }
        requires rule { rule < length g.now.rules }
        requires rule2 { rule2 < length g.now.rules }
        ensures screen { IsScreen g.now self.new }
        ensures apart { IfOk result (λ b. b ≡ true → ShareNone g.now rule rule2) }
    {
        let one = self.missing(alloc, g, groups, rule)?;
        let other = self.missing(alloc, g, groups, rule2)?;
        let Some(first) = held(&self.kept.covers, rule, &one) else {
            return Ok(false);
        };
        let Some(second) = held(&self.kept.covers, rule2, &other) else {
            return Ok(false);
        };
        closed_sets_show_none();
        let apart = are_apart(&self.labels, &mut self.search, first, second)?;
        Ok(apart)
    }

    /// The cover of a rule, where none is kept, or none where it would be too large.
    fn missing(
        &mut self,
        alloc: Global,
        g: &Gram,
        groups: &Numbers,
        rule: u32,
    ) -> Result<Option<Cover>, Memory>
        requires built { IsBuilt g.now }
        requires groups { AreNumbersBefore g.now (length g.now.rules) groups.now }
        requires screen { IsScreen g.now self.old }
        requires rule { rule < length g.now.rules }
        ensures labels { self.new.labels ≡ self.old.labels }
        ensures screen { IsScreen g.now self.new }
        ensures cover { IfOk result (λ o. IfSome o (IsWholeCover g.now self.new.labels rule)) }
    {
        if self.kept.covers[rule as usize].is_some() {
            return Ok(None);
        }
        let part = whole(g, rule);
        let cover = self.covers.cover(alloc, g, &self.labels, groups, &part)?;
        Ok(cover)
    }
}

/// What the ends of two covers tell: whether it is seen that no word is accepted by both, or none
/// where what stands before the ends may tell more.
fn told_by_ends(
    labels: &Labels,
    search: &mut Search,
    one: &Tail,
    other: &Tail,
) -> Result<Option<bool>, Memory>
    ensures { IfOk result (λ o. IfSome o (λ b. b ≡ true → AreEndsApart labels.now one.now other.now)) }
{
    if is_bare(one) || is_bare(other) {
        return Ok(None);
    }
    if search.ends_apart(labels, one, other)? {
        return Ok(Some(true));
    }
    if one.has_front || other.has_front {
        return Ok(None);
    }
    Ok(Some(false))
}

/// Whether an end is open and has nothing after its gate, so that each word may end there.
fn is_bare(tail: &Tail) -> bool {
    tail.has_front && tail.last == 0
}

/// The part with all spread items of a rule.
pub fn whole(g: &Gram, rule: u32) -> Part
    requires { rule < length g.now.rules }
    ensures is { result ≡ whole_part g.now rule }
    ensures part { IsPart g.now result }
    ensures items { part_items g.now result ≡ spread g.now rule }
{
    Part {
        rule,
        start: 0,
        end: g.spread(rule).len() as u32,
    }
}
