ghost use Rattle.std.specs.Prelude.{◌≡◌, ◌<◌, ◌≤◌, ℕ, length, IfOk, OnOk};
ghost use Rattle.xs_auto.specs.{states, group_at, IsFenced};
ghost use Rattle.xs_gram.specs.{AreComponents, IsBuilt};
ghost use Rattle.xs_check_laws.specs.{IsLight};
ghost use Rattle.xs_meet.specs.{IsSharedOf};
ghost use Rattle.xs_loose.specs.{IsNestOf, AreTables};
ghost use Rattle.xs_gram.specs.{spread};
ghost use Rattle.xs_searches.specs.Spaces.{IsSpace, AcceptsLoose, AreCutNets};

use crate::{CutNets, Site};
use std::alloc::Global;
use xs_auto::{Nest, Net, Pairs};
use xs_class::Memory;
use xs_gram::{Comps, Gram, cuts_are_one};
use xs_loose::{Tables, nests_are_fenced, nets_accept_loose, nets_are_tame};
use xs_meet::{Shared, shared};

/// A grammar whose rules are light, with what the searches for its suspects share: the nest of its
/// groups, and which two groups share a word.
#[derive(Drop)]
pub struct SearchSpace<'g> {
    pub site: Site<'g>,
    pub nest: Nest,
    pub shared: Shared,
}

impl<'g> SearchSpace<'g> {
    /// Computes the nest of a grammar whose rules are light, and which of its groups share a word.
    ///
    /// Takes time linear in the pairs of states of each two groups that have one fence, times the
    /// rounds in which some are found to share a word.
    pub fn of(
        alloc: Global,
        g: &'g Gram,
        comps: &'g Comps,
        tables: &'g Tables,
    ) -> Result<SearchSpace<'g>, Memory>
        requires built { IsBuilt g.now }
        requires comps { AreComponents g.now comps.now }
        requires tables { AreTables g.now comps.now tables.now }
        requires light { IsLight g.now }
        ensures space { IfOk result IsSpace }
        ensures grammar { IfOk result (λ s. s.site.g.now ≡ g.now) }
    {
        let site = Site {
            alloc,
            g,
            comps,
            tables,
        };
        let nest = site.nest()?;
        let shared = shared_groups(alloc, g, &nest)?;
        Ok(SearchSpace { site, nest, shared })
    }

    /// A net for all spread items of a rule.
    pub fn rule_net(&self, rule: u32) -> Result<Net, Memory>
        requires space { IsSpace self.now }
        requires rule { rule < length self.now.site.g.now.rules }
        ensures { IfOk result (AcceptsLoose self.now.site.g.now self.now.nest (spread self.now.site.g.now rule)) }
    {
        nets_accept_loose();
        nets_are_tame();
        self.site.rule_net(rule)
    }

    /// Nets for the front and the rest of a cut of a rule's spread items.
    pub fn cut_nets(&self, rule: u32, place: u32) -> Result<CutNets, Memory>
        requires space { IsSpace self.now }
        requires rule { rule < length self.now.site.g.now.rules }
        requires place { place < length (spread self.now.site.g.now rule) }
        ensures { IfOk result (AreCutNets self.now.site.g.now self.now.nest rule place) }
    {
        nets_accept_loose();
        nets_are_tame();
        cuts_are_one();
        self.site.cut_nets(rule, place)
    }
}

/// Which two groups of a grammar's nest share a word.
fn shared_groups(alloc: Global, g: &Gram, nest: &Nest) -> Result<Shared, Memory>
    requires built { IsBuilt g.now }
    requires nest { IsNestOf g.now nest.now }
    ensures fenced { OnOk result (IsFenced nest.now) }
    ensures shared { IfOk result (IsSharedOf nest.now) }
{
    nests_are_fenced();
    let most = most_states(nest) as u64;
    let mut pairs = Pairs::with_room(alloc, most * most)?;
    shared(alloc, nest, &mut pairs)
}

/// The greatest number of states of a group's content.
fn most_states(nest: &Nest) -> u32
    ensures { (h : ℕ) → h < length nest.now → states (group_at nest.now h).content ≤ result }
{
    let mut most = 0;
    'groups: for group in 0..nest.len() {
        most = nest.states(group).max(most);
    }
    most
}
