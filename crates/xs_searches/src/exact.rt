ghost use Rattle.std.specs.Prelude.{ℕ, ◌≡◌, ◌<◌, List, length, IfOk, IfSome, IfNone};
ghost use Rattle.xs_gram.specs.{spread, AreComponents, IsBuilt, IsHorizontal};
ghost use Rattle.xs_check_laws.specs.{IsLight};
ghost use Rattle.xs_loose.specs.{AreTables};
ghost use Rattle.xs_searches.specs.Searching.{AreBothLoose, OverlapsAt, IsExactFor};
ghost use Rattle.xs_searches.specs.Spaces.{IsSpace};

use crate::{Maps, SearchSpace};
use std::alloc::Global;
use xs_class::{Memory, Word};
use xs_gram::{Comps, Gram};
use xs_loose::Tables;
use xs_meet::Overlap;

/// The exact searches for suspects: what they share, and the maps that they mark.
#[derive(Drop)]
pub struct Exact<'g> {
    pub space: SearchSpace<'g>,
    pub maps: Maps,
}

impl<'g> Exact<'g> {
    /// The exact searches of a grammar whose rules are light, with the nest of its groups.
    pub fn of(
        alloc: Global,
        g: &'g Gram,
        comps: &'g Comps,
        tables: &'g Tables,
    ) -> Result<Exact<'g>, Memory>
        requires built { IsBuilt g.now }
        requires comps { AreComponents g.now comps.now }
        requires tables { AreTables g.now comps.now tables.now }
        requires light { IsLight g.now }
        ensures { IfOk result (IsExactFor g.now) }
    {
        let space = SearchSpace::of(alloc, g, comps, tables)?;
        let maps = Maps::new(alloc)?;
        Ok(Exact { space, maps })
    }

    /// A word that is loose for two rules, or none where there is none.
    pub fn shared_word(&mut self, rule: u32, rule2: u32) -> Result<Option<Word>, Memory>
        requires space { IsSpace self.old.space }
        requires rule { rule < length self.old.space.site.g.now.rules }
        requires rule2 { rule2 < length self.old.space.site.g.now.rules }
        ensures same { self.new.space ≡ self.old.space }
        ensures some { IfOk result (λ o. IfSome o (AreBothLoose self.old.space.site.g.now rule rule2)) }
        ensures none { IfOk result (λ o. IfNone o ((w : List ℕ) → AreBothLoose self.old.space.site.g.now rule rule2 w → ⊥)) }
    {
        let net = self.space.rule_net(rule)?;
        let net2 = self.space.rule_net(rule2)?;
        self.maps.meet(&self.space, &net, &net2)
    }

    /// Words by which the front and the rest of a rule overlap at a cut, or none where there are
    /// none.
    pub fn overlap_at(&mut self, rule: u32, cut: u32) -> Result<Option<Overlap>, Memory>
        requires space { IsSpace self.old.space }
        requires rule { rule < length self.old.space.site.g.now.rules }
        requires low { 0 < cut }
        requires high { cut < length (spread self.old.space.site.g.now rule) }
        ensures same { self.new.space ≡ self.old.space }
        ensures some { IfOk result (λ o. IfSome o (λ w. IsHorizontal self.old.space.site.g.now rule cut w.x w.a w.y)) }
        ensures none { IfOk result (λ o. IfNone o (OverlapsAt self.old.space.site.g.now rule cut → ⊥)) }
    {
        let nets = self.space.cut_nets(rule, cut)?;
        self.maps.overlap(&self.space, &nets.front, &nets.rest)
    }
}
