ghost use Rattle.std.specs.Prelude.{◌≡◌, ◌∷◌, [], ◌<◌, ◌≤◌, length, IfOk};
ghost use Rattle.xs_auto.specs.{group_at};
ghost use Rattle.xs_gram.specs.{spread};
ghost use Rattle.xs_closed.specs.{marked};
ghost use Rattle.xs_cert_laws.specs.{AreRuleNets, for_groups, for_rules, for_cut, rule_heads, cut_heads};
ghost use Rattle.xs_searches.specs.{IsRuleNet};
ghost use Rattle.xs_cert.specs.Basis.{IsBasis, IsIn, AreReadBy};
ghost use Rattle.xs_cert.specs.Rows.{reading_of};
ghost use Rattle.xs_cert.specs.Sides.{open_heads, all_group_heads, all_rule_heads, all_cut_heads, side_heads};

use crate::basis::Basis;
use crate::heads::{group_partners, rule_partners};
use crate::place::{Place, Reading};
use crate::sets::{read_apart, read_clear};
use crate::titles::pair_title;
use xs_auto::Net;
use xs_class::Memory;
use xs_closed::{CutSets, PairSet};
use xs_gram::cuts_are_one;
use xs_loose::laid_in_one_way;

/// How far a block was read by its last rows, where only that many lines are good if none are
/// right.
fn reading_or(rows: Option<Reading>, lines: u64) -> Reading
    ensures { result ≡ reading_of lines rows }
{
    match rows {
        Some(reading) => reading,
        None => Reading::Broken { lines },
    }
}

impl<'c> Basis<'c> {
    /// Reads the block of two groups.
    fn group_block(
        &self,
        place: Place,
        first: u32,
        second: u32,
        set: &mut PairSet,
    ) -> Result<Reading, Memory>
        requires place { IsIn self.now place }
        requires first { first < length self.now.nest.now }
        requires second { second < length self.now.nest.now }
        ensures { IfOk result (AreReadBy self.now place (for_groups first second ∷ [])) }
    {
        let Some(start) = pair_title(self.bytes, place, b"group", first, second) else {
            return Ok(Reading::Broken { lines: place.lines });
        };
        let m = self.nest.content(first);
        let n = self.nest.content(second);
        let rows = read_apart(self.bytes, start, self.related, m, n, set)?;
        Ok(reading_or(rows, place.lines))
    }

    /// Reads the block of two rules with these nets.
    fn rule_block(
        &self,
        place: Place,
        first: u32,
        second: u32,
        m: &Net,
        n: &Net,
        set: &mut PairSet,
    ) -> Result<Reading, Memory>
        requires basis { IsBasis self.now }
        requires place { IsIn self.now place }
        requires nets { AreRuleNets self.now.site.g.now first second m.now n.now }
        ensures { IfOk result (AreReadBy self.now place (for_rules first second ∷ [])) }
    {
        laid_in_one_way();
        let Some(start) = pair_title(self.bytes, place, b"rules", first, second) else {
            return Ok(Reading::Broken { lines: place.lines });
        };
        let rows = read_apart(self.bytes, start, self.related, m, n, set)?;
        Ok(reading_or(rows, place.lines))
    }

    /// Reads the block of a cut of a rule.
    fn cut_block(
        &self,
        place: Place,
        rule: u32,
        cut: u32,
        sets: &mut CutSets,
    ) -> Result<Reading, Memory>
        requires basis { IsBasis self.now }
        requires place { IsIn self.now place }
        requires rule { rule < length self.now.site.g.now.rules }
        requires cut { cut < length (spread self.now.site.g.now rule) }
        ensures { IfOk result (AreReadBy self.now place (for_cut rule cut ∷ [])) }
    {
        cuts_are_one();
        laid_in_one_way();
        let Some(start) = pair_title(self.bytes, place, b"cut", rule, cut) else {
            return Ok(Reading::Broken { lines: place.lines });
        };
        let nets = self.site.cut_nets(rule, cut)?;
        let rows = read_clear(
            self.bytes,
            start,
            self.related,
            &nets.front,
            &nets.rest,
            sets,
        )?;
        Ok(reading_or(rows, place.lines))
    }

    /// Reads the blocks of a group with those from it on.
    fn group_row(
        &self,
        place: Place,
        first: u32,
        partners: &mut Vec<u32>,
        set: &mut PairSet,
    ) -> Result<Reading, Memory>
        requires place { IsIn self.now place }
        requires first { first < length self.now.nest.now }
        ensures { IfOk result (AreReadBy self.now place (open_heads self.now.nest.now (marked self.now.related.now) first)) }
    {
        group_partners(self.nest, self.related, first, partners)?;
        let mut at = place;
        'partners: for second in partners.iter() {
            match self.group_block(at, first, *second, set)? {
                Reading::Whole(next) => at = next,
                Reading::Broken { lines } => return Ok(Reading::Broken { lines }),
            }
        }
        Ok(Reading::Whole(at))
    }

    /// Reads the blocks of a rule with those after it.
    fn rule_row(
        &self,
        place: Place,
        first: u32,
        partners: &mut Vec<u32>,
        set: &mut PairSet,
    ) -> Result<Reading, Memory>
        requires basis { IsBasis self.now }
        requires place { IsIn self.now place }
        requires first { first < length self.now.site.g.now.rules }
        ensures { IfOk result (AreReadBy self.now place (rule_heads self.now.site.g.now first)) }
    {
        rule_partners(self.site.g, first, partners)?;
        if partners.is_empty() {
            return Ok(Reading::Whole(place));
        }
        let m = self.site.rule_net(first)?;
        let mut at = place;
        'partners: for second in partners.iter() {
            match self.rule_pair(at, first, *second, &m, set)? {
                Reading::Whole(next) => at = next,
                Reading::Broken { lines } => return Ok(Reading::Broken { lines }),
            }
        }
        Ok(Reading::Whole(at))
    }

    /// Reads the block of two rules, by the net of the first.
    fn rule_pair(
        &self,
        place: Place,
        first: u32,
        second: u32,
        m: &Net,
        set: &mut PairSet,
    ) -> Result<Reading, Memory>
        requires basis { IsBasis self.now }
        requires place { IsIn self.now place }
        requires second { second < length self.now.site.g.now.rules }
        requires net { IsRuleNet self.now.site.g.now first m.now }
        ensures { IfOk result (AreReadBy self.now place (for_rules first second ∷ [])) }
    {
        let n = self.site.rule_net(second)?;
        self.rule_block(place, first, second, m, &n, set)
    }

    /// Reads the blocks of the cuts of a rule.
    fn cut_row(&self, place: Place, rule: u32, sets: &mut CutSets) -> Result<Reading, Memory>
        requires basis { IsBasis self.now }
        requires place { IsIn self.now place }
        requires rule { rule < length self.now.site.g.now.rules }
        ensures { IfOk result (AreReadBy self.now place (cut_heads self.now.site.g.now rule)) }
    {
        let count = self.site.g.spread(rule).len() as u32;
        if count < 2 {
            return Ok(Reading::Whole(place));
        }
        let mut at = place;
        'cuts: for cut in 1..count {
            match self.cut_block(at, rule, cut, sets)? {
                Reading::Whole(next) => at = next,
                Reading::Broken { lines } => return Ok(Reading::Broken { lines }),
            }
        }
        Ok(Reading::Whole(at))
    }

    /// Reads the blocks of all groups.
    fn all_groups(&self, place: Place, set: &mut PairSet) -> Result<Reading, Memory>
        requires place { IsIn self.now place }
        ensures { IfOk result (AreReadBy self.now place (all_group_heads self.now.nest.now (marked self.now.related.now))) }
    {
        let mut partners = Vec::new(self.site.alloc);
        let mut at = place;
        'groups: for first in 0..self.nest.len() {
            match self.group_row(at, first, &mut partners, set)? {
                Reading::Whole(next) => at = next,
                Reading::Broken { lines } => return Ok(Reading::Broken { lines }),
            }
        }
        Ok(Reading::Whole(at))
    }

    /// Reads the blocks of all rules.
    fn all_rules(&self, place: Place, set: &mut PairSet) -> Result<Reading, Memory>
        requires basis { IsBasis self.now }
        requires place { IsIn self.now place }
        ensures { IfOk result (AreReadBy self.now place (all_rule_heads self.now.site.g.now)) }
    {
        let mut partners = Vec::new(self.site.alloc);
        let mut at = place;
        'rules: for first in 0..self.site.g.rules() {
            match self.rule_row(at, first, &mut partners, set)? {
                Reading::Whole(next) => at = next,
                Reading::Broken { lines } => return Ok(Reading::Broken { lines }),
            }
        }
        Ok(Reading::Whole(at))
    }

    /// Reads the blocks of all cuts.
    fn all_cuts(&self, place: Place) -> Result<Reading, Memory>
        requires basis { IsBasis self.now }
        requires place { IsIn self.now place }
        ensures { IfOk result (AreReadBy self.now place (all_cut_heads self.now.site.g.now)) }
    {
        let alloc = self.site.alloc;
        let mut sets = CutSets {
            fronts: PairSet::new(alloc),
            pauses: PairSet::new(alloc),
            middles: PairSet::new(alloc),
            rests: PairSet::new(alloc),
        };
        let mut at = place;
        'rules: for rule in 0..self.site.g.rules() {
            match self.cut_row(at, rule, &mut sets)? {
                Reading::Whole(next) => at = next,
                Reading::Broken { lines } => return Ok(Reading::Broken { lines }),
            }
        }
        Ok(Reading::Whole(at))
    }

    /// Reads all blocks of the side.
    pub fn blocks(&self, place: Place) -> Result<Reading, Memory>
        requires basis { IsBasis self.now }
        requires place { IsIn self.now place }
        ensures { IfOk result (AreReadBy self.now place (side_heads self.now.site.g.now self.now.nest.now (marked self.now.related.now))) }
    {
        let mut set = PairSet::new(self.site.alloc);
        let rules = match self.all_groups(place, &mut set)? {
            Reading::Whole(next) => next,
            Reading::Broken { lines } => return Ok(Reading::Broken { lines }),
        };
        let cuts = match self.all_rules(rules, &mut set)? {
            Reading::Whole(next) => next,
            Reading::Broken { lines } => return Ok(Reading::Broken { lines }),
        };
        self.all_cuts(cuts)
    }
}
