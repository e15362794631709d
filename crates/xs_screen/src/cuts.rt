ghost use Rattle.std.specs.Prelude.{◌≡◌, ◌<◌, ◌⊎◌, true, false, set, length, IfOk, OnOk, IfSome};
ghost use Rattle.std.specs.List.{Contains};
ghost use Rattle.xs_gram.specs.{IsBuilt};
ghost use Rattle.xs_loose.specs.{IsPart, AreNumbersBefore};
ghost use Rattle.xs_coarse.specs.{AreClear, AreDoubles, MayCall, view};
ghost use Rattle.xs_coarse_net.specs.{IsCoverOf};
ghost use Rattle.xs_screen.specs.Screens.{IsScreen, AreDoubts, OverlapNowhere, whole_part};

use crate::Screen;
use crate::fixed::{are_any, clear_doubt, fixed_doubts};
use crate::places::{follows_non, is_cut_of};
use crate::rules::whole;
use std::alloc::Global;
use xs_class::Memory;
use xs_coarse::{Doubles, Labels, Search};
use xs_coarse_laws::closed_sets_show_none;
use xs_coarse_net::{Cover, Outer};
use xs_gram::{Gram, cuts_are_one};
use xs_loose::Part;
use xs_regex::Numbers;

/// The most states of an end of a front, or of a rest, that are looked at without what stands
/// before.
const LONGEST_END: u32 = 64;

impl Screen {
    /// Says in the list, for each place of a rule's spread items, whether its cut is in doubt: of
    /// the others it is seen that front and rest do not overlap.
    ///
    /// Where the cover of the rule is kept, it is looked at and let go: ask for its pairs first.
    pub fn doubts(
        &mut self,
        alloc: Global,
        g: &Gram,
        groups: &Numbers,
        rule: u32,
        doubts: &mut Vec<bool>,
    ) -> Result<(), Memory>
        requires built { IsBuilt g.now }
        requires groups { AreNumbersBefore g.now (length g.now.rules) groups.now }
        requires screen { IsScreen g.now self.old }
        requires rule { rule < length g.now.rules }
        ensures screen { IsScreen g.now self.new }
        ensures doubts { OnOk result (AreDoubts g.now rule doubts.new.items) }
    {
        fixed_doubts(g, rule, doubts)?;
        if !are_any(doubts) {
            return Ok(());
        }
        let part = whole(g, rule);
        self.clear_part(alloc, g, groups, &part, doubts)?;
        'items: for place in 0..part.end {
            let Some(partner) = g.partner(rule, place) else {
                continue;
            };
            let inside = Part {
                rule,
                start: place + 1,
                end: partner,
            };
            self.clear_part(alloc, g, groups, &inside, doubts)?;
        }
        Ok(())
    }

    /// Takes away the doubt of those cuts of a part at which it is seen that nothing overlaps.
    fn clear_part(
        &mut self,
        alloc: Global,
        g: &Gram,
        groups: &Numbers,
        part: &Part,
        doubts: &mut Vec<bool>,
    ) -> Result<(), Memory>
        requires built { IsBuilt g.now }
        requires groups { AreNumbersBefore g.now (length g.now.rules) groups.now }
        requires screen { IsScreen g.now self.old }
        requires part { IsPart g.now part.now }
        requires doubts { AreDoubts g.now part.now.rule doubts.old.items }
        ensures screen { IsScreen g.now self.new }
        ensures doubts { AreDoubts g.now part.now.rule doubts.new.items }
    {
        clear_edge(g, part, part.start, doubts);
        clear_edge(g, part, part.end, doubts);
        if part.end - part.start < 2 {
            return Ok(());
        }
        let Some(cover) = self.cover_of(alloc, g, groups, part)? else {
            return Ok(());
        };
        self.clear_cuts(g, part, &cover, None, doubts)?;
        self.clear_by_layers(g, part, &cover, doubts)?;
        Ok(())
    }

    /// The cover of a part, or none where it would be too large: the one that is kept, which is
    /// taken out, or else one that is made.
    fn cover_of(
        &mut self,
        alloc: Global,
        g: &Gram,
        groups: &Numbers,
        part: &Part,
    ) -> Result<Option<Cover>, Memory>
        requires built { IsBuilt g.now }
        requires groups { AreNumbersBefore g.now (length g.now.rules) groups.now }
        requires screen { IsScreen g.now self.old }
        requires part { IsPart g.now part.now }
        ensures labels { self.new.labels ≡ self.old.labels }
        ensures screen { IsScreen g.now self.new }
        ensures cover { IfOk result (λ o. IfSome o (IsCoverOf g.now self.new.labels part.now)) }
    {
        if let Some(cover) = self.take_cover(g, part) {
            return Ok(Some(cover));
        }
        let cover = self.covers.cover(alloc, g, &self.labels, groups, part)?;
        Ok(cover)
    }

    /// Takes out the cover that is kept of a part: only those of whole rules are.
    fn take_cover(&mut self, g: &Gram, part: &Part) -> Option<Cover>
        requires screen { IsScreen g.now self.old }
        requires part { IsPart g.now part.now }
        ensures labels { self.new.labels ≡ self.old.labels }
        ensures screen { IsScreen g.now self.new }
        ensures cover { IfSome result (IsCoverOf g.now self.new.labels part.now) }
    {
        if is_whole(g, part) {
            return self.kept.take(part.rule);
        }
        None
    }

    /// Takes away the doubt of those cuts of a part at which the whole front and the rest show that
    /// nothing overlaps.
    fn clear_by_layers(
        &mut self,
        g: &Gram,
        part: &Part,
        cover: &Cover,
        doubts: &mut Vec<bool>,
    ) -> Result<(), Memory>
        requires built { IsBuilt g.now }
        requires screen { IsScreen g.now self.old }
        requires part { IsPart g.now part.now }
        requires cover { IsCoverOf g.now self.old.labels part.now cover.now }
        requires doubts { AreDoubts g.now part.now.rule doubts.old.items }
        ensures screen { IsScreen g.now self.new }
        ensures doubts { AreDoubts g.now part.now.rule doubts.new.items }
    {
        let Some(top) = last_doubted(doubts, part, cover) else {
            return Ok(());
        };
        let Some(doubles) = self.search.doubles(&self.labels, &cover.net, top)? else {
            return Ok(());
        };
        self.clear_cuts(g, part, cover, Some(&doubles), doubts)?;
        Ok(())
    }

    /// Takes away the doubt of those cuts of a part that are still in doubt, and at which the rest
    /// and the front show that nothing overlaps: the whole front, where the doubles of its net are
    /// there, or else its end, after its last nonterminal.
    fn clear_cuts(
        &mut self,
        g: &Gram,
        part: &Part,
        cover: &Cover,
        doubles: Option<&Doubles>,
        doubts: &mut Vec<bool>,
    ) -> Result<(), Memory>
        requires built { IsBuilt g.now }
        requires screen { IsScreen g.now self.old }
        requires part { IsPart g.now part.now }
        requires cover { IsCoverOf g.now self.old.labels part.now cover.now }
        requires doubles { IfSome doubles (λ d. AreDoubles self.old.labels cover.now.net d.now.top d.now.pairs.items) }
        requires doubts { AreDoubts g.now part.now.rule doubts.old.items }
        ensures labels { self.new.labels ≡ self.old.labels }
        ensures screen { IsScreen g.now self.new }
        ensures doubts { AreDoubts g.now part.now.rule doubts.new.items }
    {
        let mut gate = 0;
        'places: for index in 0..cover.places.len() {
            let outer = cover.places[index];
            if follows_non(g, part.rule, cover, index) {
                gate = outer.state;
            }
            if !is_doubted(doubts, outer.place) {
                continue;
            }
            if !self.is_clear(g, part, cover, doubles, gate, outer)? {
                continue;
            }
            clear_doubt(doubts, outer.place);
        }
        Ok(())
    }

    /// Whether it is seen at a place of a part that nothing overlaps.
    fn is_clear(
        &mut self,
        g: &Gram,
        part: &Part,
        cover: &Cover,
        doubles: Option<&Doubles>,
        gate: u32,
        outer: Outer,
    ) -> Result<bool, Memory>
        requires built { IsBuilt g.now }
        requires screen { IsScreen g.now self.old }
        requires part { IsPart g.now part.now }
        requires cover { IsCoverOf g.now self.old.labels part.now cover.now }
        requires doubles { IfSome doubles (λ d. AreDoubles self.old.labels cover.now.net d.now.top d.now.pairs.items) }
        requires outer { Contains cover.now.places.items outer }
        ensures labels { self.new.labels ≡ self.old.labels }
        ensures screen { IsScreen g.now self.new }
        ensures clear { IfOk result (λ b. b ≡ true → OverlapNowhere g.now part.now.rule outer.place) }
    {
        if !is_inner(part, cover, outer) || !is_cut_of(g, part, outer.place) {
            return Ok(false);
        }
        cuts_are_one();
        closed_sets_show_none();
        let clear = is_seen_clear(
            &self.labels,
            &mut self.search,
            cover,
            doubles,
            gate,
            outer.state,
        )?;
        Ok(clear)
    }
}

/// Whether closed sets show at a state of a cover that nothing overlaps there: by the rest and the
/// whole front, where the doubles of the net are there, or else by the rest and the front from a
/// gate on, if both are short.
fn is_seen_clear(
    labels: &Labels,
    search: &mut Search,
    cover: &Cover,
    doubles: Option<&Doubles>,
    gate: u32,
    here: u32,
) -> Result<bool, Memory>
    requires doubles { IfSome doubles (λ d. AreDoubles labels.now cover.now.net d.now.top d.now.pairs.items) }
    requires here { here < cover.now.net.states }
    ensures { IfOk result (λ b. b ≡ true → AreClear (MayCall labels.now) (view labels.now cover.now.net 0 here) (view labels.now cover.now.net here cover.now.last)) }
{
    if let Some(doubles) = doubles {
        return search.clear(labels, &cover.net, doubles, here, cover.last);
    }
    let rest = cover.net.len() - here;
    if rest > LONGEST_END || here.saturating_sub(gate) > LONGEST_END {
        return Ok(false);
    }
    search.clear_ends(labels, &cover.net, gate, here, cover.last)
}

/// Whether a part has all spread items of its rule.
fn is_whole(g: &Gram, part: &Part) -> bool
    requires { IsPart g.now part.now }
    ensures { result ≡ true → part.now ≡ whole_part g.now part.now.rule }
{
    *part == whole(g, part.rule)
}

/// Whether an outer place stands inside a part, and its state in the net of the part's cover.
fn is_inner(part: &Part, cover: &Cover, outer: Outer) -> bool
    ensures { result ≡ true → outer.state < cover.now.net.states }
{
    outer.place > part.start && outer.place < part.end && outer.state < cover.net.len()
}

/// The state of the last place inside a part that is still in doubt.
fn last_doubted(doubts: &[bool], part: &Part, cover: &Cover) -> Option<u32>
    ensures { IfSome result (λ top. top < cover.now.net.states) }
{
    let mut last = None;
    'places: for outer in &cover.places {
        if is_inner(part, cover, *outer) && is_doubted(doubts, outer.place) {
            last = Some(outer.state);
        }
    }
    last
}

/// Whether a cut is in doubt.
fn is_doubted(doubts: &[bool], cut: u32) -> bool {
    match doubts.get(cut as usize) {
        Some(doubt) => *doubt,
        None => true,
    }
}

/// Takes away the doubt of the cut at the start or the end of a part, where it is one of the part:
/// its front or its rest is empty, and has no other word than the empty one.
fn clear_edge(g: &Gram, part: &Part, edge: u32, doubts: &mut Vec<bool>)
    requires built { IsBuilt g.now }
    requires part { IsPart g.now part.now }
    requires edge { (edge ≡ part.now.start) ⊎ (edge ≡ part.now.end) }
    requires doubts { AreDoubts g.now part.now.rule doubts.old.items }
    ensures { AreDoubts g.now part.now.rule doubts.new.items }
{
    if is_cut_of(g, part, edge) {
        cuts_are_one();
        clear_doubt(doubts, edge);
    }
}
