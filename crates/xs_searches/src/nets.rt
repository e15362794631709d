ghost use Rattle.std.specs.Prelude.{◌≡◌, ◌<◌, length, IfOk};
ghost use Rattle.xs_gram.specs.{spread, AreComponents, IsBuilt};
ghost use Rattle.xs_check_laws.specs.{IsLight};
ghost use Rattle.xs_loose.specs.{IsNetOf, IsNestOf, IsPart, part_items, AreLight, AreTables};
ghost use Rattle.xs_searches.specs.Spaces.{IsSite, IsRuleNet, AreNumbered};

use std::alloc::Global;
use xs_auto::{Nest, Net};
use xs_class::Memory;
use xs_gram::{Comps, Gram};
use xs_loose::{LooseFault, Part, Tables, nest_by, net_by};
use xs_screen::whole;

/// Nets for the front and the rest of a cut.
#[derive(Debug, Drop)]
pub struct CutNets {
    pub front: Net,
    pub rest: Net,
}

/// A grammar whose rules are light, with its components and tables, by which its nets are made.
#[derive(Clone, Copy)]
pub struct Site<'g> {
    pub alloc: Global,
    pub g: &'g Gram,
    pub comps: &'g Comps,
    pub tables: &'g Tables,
}

impl<'g> Site<'g> {
    /// The nest of the groups.
    pub fn nest(&self) -> Result<Nest, Memory>
        requires { IsSite self.now }
        ensures { IfOk result (IsNestOf self.now.g.now) }
    {
        match nest_by(self.alloc, self.g, self.comps, self.tables) {
            Ok(nest) => Ok(nest),
            Err(LooseFault::Memory) => Err(Memory),
            Err(LooseFault::Heavy { .. }) => unreachable!(),
        }
    }

    /// The net of a part whose items are light.
    fn net(&self, part: Part) -> Result<Net, Memory>
        requires site { IsSite self.now }
        requires part { IsPart self.now.g.now part }
        requires light { AreLight self.now.g.now (part_items self.now.g.now part) }
        ensures { IfOk result (IsNetOf self.now.g.now part) }
    {
        match net_by(self.alloc, self.g, self.comps, self.tables, &part) {
            Ok(net) => Ok(net),
            Err(LooseFault::Memory) => Err(Memory),
            Err(LooseFault::Heavy { .. }) => unreachable!(),
        }
    }

    /// The net of all spread items of a rule.
    pub fn rule_net(&self, rule: u32) -> Result<Net, Memory>
        requires site { IsSite self.now }
        requires rule { rule < length self.now.g.now.rules }
        ensures { IfOk result (IsRuleNet self.now.g.now rule) }
    {
        let part = whole(self.g, rule);
        self.net(part)
    }

    /// The nets of the front and the rest of a cut of a rule's spread items.
    pub fn cut_nets(&self, rule: u32, place: u32) -> Result<CutNets, Memory>
        requires site { IsSite self.now }
        requires rule { rule < length self.now.g.now.rules }
        requires place { place < length (spread self.now.g.now rule) }
        ensures { IfOk result (AreNumbered self.now.g.now rule place) }
    {
        let cut = self.g.cut(rule, place);
        let before = Part {
            rule,
            start: cut.start,
            end: place,
        };
        let after = Part {
            rule,
            start: place,
            end: cut.end,
        };
        let front = self.net(before)?;
        let rest = self.net(after)?;
        Ok(CutNets { front, rest })
    }
}
