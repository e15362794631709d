ghost use Rattle.std.specs.Prelude.{◌≡◌, ◌<◌, ◌∷◌, [], suc, true, length, flat_map, map, codes, OnOk};
ghost use Rattle.xs_auto.specs.{group_at};
ghost use Rattle.xs_gram.specs.{spread};
ghost use Rattle.xs_meet.specs.{Marked};
ghost use Rattle.xs_closed.specs.{marked};
ghost use Rattle.xs_cert_lines.specs.{spaced};
ghost use Rattle.xs_cert_laws.specs.{for_groups, for_rules, for_cut, AreContents, AreRuleNets, AreCutNets, between, rule_heads, cut_heads};
ghost use Rattle.xs_cert.specs.Heads.{is_open, is_of_one};
ghost use Rattle.xs_cert.specs.Kept.{AreNetsOf};
ghost use Rattle.xs_cert.specs.Sides.{open_heads, side_heads};
ghost use Rattle.xs_cert.specs.Writing.{IsSource, AddsApart, AddsBlock, AddsBlocks, MeetNowhere, OverlapNowhere};
ghost use Rattle.xs_searches.specs.{IsSite, IsRuleNet};

use crate::heads::{group_partners, rule_partners};
use crate::kept::KeptNets;
use std::alloc::Global;
use xs_auto::{Nest, Net};
use xs_cert_lines::{write_pair, write_rows};
use xs_class::{Bytes, Memory};
use xs_closed::{
    CutSets, PairSet, least_apart, least_clear, least_sets_are_right, reached_shows, rows_are_marks,
};
use xs_searches::Site;

/// A grammar that is accepted, as it is written: its nest, and which two groups share a word.
#[derive(Clone, Copy)]
pub struct Source<'g> {
    pub site: Site<'g>,
    pub nest: &'g Nest,
    pub related: &'g PairSet,
}

/// What was written of a certificate, and the sets of the block that is being written.
#[derive(Drop)]
pub struct Writer {
    pub alloc: Global,
    pub out: Bytes,
    pub set: PairSet,
    pub sets: CutSets,
}

impl Writer {
    /// Nothing yet.
    pub fn new(alloc: Global) -> Writer
        ensures { result.out ≡ [] }
    {
        Writer {
            alloc,
            out: Bytes::new(alloc),
            set: PairSet::new(alloc),
            sets: CutSets {
                fronts: PairSet::new(alloc),
                pauses: PairSet::new(alloc),
                middles: PairSet::new(alloc),
                rests: PairSet::new(alloc),
            },
        }
    }

    /// Appends the blocks of a grammar that is accepted.
    pub fn write_blocks(&mut self, source: Source<'_>) -> Result<(), Memory>
        requires source { IsSource source.site.g.now source.nest.now source.related.now }
        requires site { IsSite source.site }
        ensures { OnOk result (AddsBlocks source.entry.site.g.now source.entry.nest.now (Marked (marked source.entry.related.now)) (side_heads source.entry.site.g.now source.entry.nest.now (marked source.entry.related.now)) self.old.out self.new.out) }
    {
        let mut partners = Vec::new(self.alloc);
        self.write_all_groups(source, &mut partners)?;
        self.write_all_rules(source, &mut partners)?;
        self.write_all_cuts(source)
    }

    /// Appends a line, and the least set of two nets, of which no search finds a word.
    fn write_apart(
        &mut self,
        related: &PairSet,
        text: &[u8],
        first: u32,
        second: u32,
        m: &Net,
        n: &Net,
    ) -> Result<(), Memory>
        requires { MeetNowhere (Marked (marked related.now)) m.now n.now }
        ensures { OnOk result (AddsApart (Marked (marked related.now)) m.now n.now (spaced text.now (first ∷ second ∷ [])) self.old.out self.new.out) }
    {
        least_sets_are_right();
        rows_are_marks();
        least_apart(self.alloc, related, m, n, &mut self.set)?;
        write_pair(&mut self.out, text, first, second)?;
        write_rows(&mut self.out, &self.set)
    }

    /// Appends the block of two groups of one fence that share no word.
    fn write_groups(&mut self, source: Source<'_>, group: u32, other: u32) -> Result<(), Memory>
        requires source { IsSource source.site.g.now source.nest.now source.related.now }
        requires group { group < length source.nest.now }
        requires other { other < length source.nest.now }
        requires apart { is_open source.nest.now (marked source.related.now) group other ≡ true }
        ensures { OnOk result (AddsBlock source.entry.site.g.now source.entry.nest.now (Marked (marked source.entry.related.now)) (for_groups group other) self.old.out self.new.out) }
    {
        reached_shows();
        let m = source.nest.content(group);
        let n = source.nest.content(other);
        self.write_apart(source.related, b"group", group, other, m, n)
    }

    /// Appends the block of two rules of one nonterminal, by the net of the first.
    fn write_rules(
        &mut self,
        source: Source<'_>,
        nets: &mut KeptNets,
        rule: u32,
        net: &Net,
        other: u32,
    ) -> Result<(), Memory>
        requires source { IsSource source.site.g.now source.nest.now source.related.now }
        requires site { IsSite source.site }
        requires order { rule < other }
        requires other { other < length source.site.g.now.rules }
        requires net { IsRuleNet source.site.g.now rule net.now }
        requires one { is_of_one source.site.g.now rule other ≡ true }
        requires nets { AreNetsOf source.site.g.now nets.old.nets.items }
        ensures nets { AreNetsOf source.entry.site.g.now nets.new.nets.items }
        ensures adds { OnOk result (AddsBlock source.entry.site.g.now source.entry.nest.now (Marked (marked source.entry.related.now)) (for_rules rule other) self.old.out self.new.out) }
    {
        reached_shows();
        let other_net = nets.take(source.site, other)?;
        self.write_apart(source.related, b"rules", rule, other, net, &other_net)?;
        nets.put(other, other_net);
        Ok(())
    }

    /// Appends the block of a cut of a rule.
    fn write_cut(&mut self, source: Source<'_>, rule: u32, cut: u32) -> Result<(), Memory>
        requires source { IsSource source.site.g.now source.nest.now source.related.now }
        requires site { IsSite source.site }
        requires rule { rule < length source.site.g.now.rules }
        requires low { 0 < cut }
        requires high { cut < length (spread source.site.g.now rule) }
        ensures { OnOk result (AddsBlock source.entry.site.g.now source.entry.nest.now (Marked (marked source.entry.related.now)) (for_cut rule cut) self.old.out self.new.out) }
    {
        reached_shows();
        least_sets_are_right();
        rows_are_marks();
        let nets = source.site.cut_nets(rule, cut)?;
        least_clear(
            self.alloc,
            source.related,
            &nets.front,
            &nets.rest,
            &mut self.sets,
        )?;
        write_pair(&mut self.out, b"cut", rule, cut)?;
        self.out.extend(b"set 1\n")?;
        write_rows(&mut self.out, &self.sets.fronts)?;
        self.out.extend(b"set 0\n")?;
        write_rows(&mut self.out, &self.sets.pauses)?;
        self.out.extend(b"set 2\n")?;
        write_rows(&mut self.out, &self.sets.middles)?;
        self.out.extend(b"set 3\n")?;
        write_rows(&mut self.out, &self.sets.rests)
    }

    /// Appends the blocks of a group with those from it on.
    fn write_group_row(
        &mut self,
        source: Source<'_>,
        group: u32,
        partners: &mut Vec<u32>,
    ) -> Result<(), Memory>
        requires source { IsSource source.site.g.now source.nest.now source.related.now }
        requires group { group < length source.nest.now }
        ensures { OnOk result (AddsBlocks source.entry.site.g.now source.entry.nest.now (Marked (marked source.entry.related.now)) (open_heads source.entry.nest.now (marked source.entry.related.now) group) self.old.out self.new.out) }
    {
        group_partners(source.nest, source.related, group, partners)?;
        'others: for at in 0..partners.len() {
            self.write_groups(source, group, partners[at])?;
        }
        Ok(())
    }

    /// Appends the blocks of all groups.
    fn write_all_groups(
        &mut self,
        source: Source<'_>,
        partners: &mut Vec<u32>,
    ) -> Result<(), Memory>
        requires source { IsSource source.site.g.now source.nest.now source.related.now }
        ensures { OnOk result (AddsBlocks source.entry.site.g.now source.entry.nest.now (Marked (marked source.entry.related.now)) (flat_map (open_heads source.entry.nest.now (marked source.entry.related.now)) (between 0 (length source.entry.nest.now))) self.old.out self.new.out) }
    {
        'groups: for group in 0..source.nest.len() {
            self.write_group_row(source, group, partners)?;
        }
        Ok(())
    }

    /// Appends the blocks of a rule with those after it.
    fn write_rule_row(
        &mut self,
        source: Source<'_>,
        nets: &mut KeptNets,
        rule: u32,
        partners: &mut Vec<u32>,
    ) -> Result<(), Memory>
        requires source { IsSource source.site.g.now source.nest.now source.related.now }
        requires site { IsSite source.site }
        requires rule { rule < length source.site.g.now.rules }
        requires nets { AreNetsOf source.site.g.now nets.old.nets.items }
        ensures nets { AreNetsOf source.entry.site.g.now nets.new.nets.items }
        ensures adds { OnOk result (AddsBlocks source.entry.site.g.now source.entry.nest.now (Marked (marked source.entry.related.now)) (rule_heads source.entry.site.g.now rule) self.old.out self.new.out) }
    {
        rule_partners(source.site.g, rule, partners)?;
        if partners.is_empty() {
            return Ok(());
        }
        let net = nets.take(source.site, rule)?;
        'others: for at in 0..partners.len() {
            self.write_rules(source, nets, rule, &net, partners[at])?;
        }
        Ok(())
    }

    /// Appends the blocks of all rules.
    fn write_all_rules(&mut self, source: Source<'_>, partners: &mut Vec<u32>) -> Result<(), Memory>
        requires source { IsSource source.site.g.now source.nest.now source.related.now }
        requires site { IsSite source.site }
        ensures { OnOk result (AddsBlocks source.entry.site.g.now source.entry.nest.now (Marked (marked source.entry.related.now)) (flat_map (rule_heads source.entry.site.g.now) (between 0 (length source.entry.site.g.now.rules))) self.old.out self.new.out) }
    {
        let rules = source.site.g.rules();
        let mut nets = KeptNets::none(self.alloc, rules)?;
        'rules: for rule in 0..rules {
            self.write_rule_row(source, &mut nets, rule, partners)?;
        }
        Ok(())
    }

    /// Appends the blocks of the cuts of a rule.
    fn write_cut_row(&mut self, source: Source<'_>, rule: u32) -> Result<(), Memory>
        requires source { IsSource source.site.g.now source.nest.now source.related.now }
        requires site { IsSite source.site }
        requires rule { rule < length source.site.g.now.rules }
        ensures { OnOk result (AddsBlocks source.entry.site.g.now source.entry.nest.now (Marked (marked source.entry.related.now)) (cut_heads source.entry.site.g.now rule) self.old.out self.new.out) }
    {
        let count = source.site.g.spread(rule).len() as u32;
        'cuts: for cut in 1..count.max(1) {
            self.write_cut(source, rule, cut)?;
        }
        Ok(())
    }

    /// Appends the blocks of all cuts.
    fn write_all_cuts(&mut self, source: Source<'_>) -> Result<(), Memory>
        requires source { IsSource source.site.g.now source.nest.now source.related.now }
        requires site { IsSite source.site }
        ensures { OnOk result (AddsBlocks source.entry.site.g.now source.entry.nest.now (Marked (marked source.entry.related.now)) (flat_map (cut_heads source.entry.site.g.now) (between 0 (length source.entry.site.g.now.rules))) self.old.out self.new.out) }
    {
        'rules: for rule in 0..source.site.g.rules() {
            self.write_cut_row(source, rule)?;
        }
        Ok(())
    }
}
