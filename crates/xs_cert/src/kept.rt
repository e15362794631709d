ghost use Rattle.std.specs.Prelude.{◌≡◌, ◌<◌, ◌⊎◌, Some, None, slice_get, set, length, IfOk, IfSome};
ghost use Rattle.xs_searches.specs.{IsRuleNet, IsSite};
ghost use Rattle.xs_cert.specs.Kept.{AreNetsOf, HasNone};

use std::alloc::Global;
use xs_auto::Net;
use xs_class::Memory;
use xs_searches::Site;

/// How many states the nets that are kept may have together.
const MOST_KEPT: u32 = 1 << 18;

/// Nets of rules by the numbers of the rules, as far as there is room for them; and how many states
/// of nets may still be kept.
#[derive(Drop)]
pub struct KeptNets {
    pub nets: Vec<Option<Net>>,
    pub room: u32,
}

impl KeptNets {
    /// None yet, of that many rules.
    pub fn none(alloc: Global, rules: u32) -> Result<KeptNets, Memory>
        ensures { IfOk result (λ k. HasNone k.nets.items) }
    {
        let mut nets = Vec::with_capacity(alloc, rules as usize)?;
        'rules: for _ in 0..rules {
            nets.push(None)?;
        }
        Ok(KeptNets {
            nets,
            room: MOST_KEPT,
        })
    }

    /// The net of a rule: the one that is kept, which is taken out, or else one that is made.
    pub fn take(&mut self, site: Site<'_>, rule: u32) -> Result<Net, Memory>
        requires site { IsSite site }
        requires rule { rule < length site.g.now.rules }
        requires kept { AreNetsOf site.g.now self.old.nets.items }
        ensures kept { AreNetsOf site.entry.g.now self.new.nets.items }
        ensures net { IfOk result (IsRuleNet site.entry.g.now rule) }
    {
        if let Some(net) = self.take_out(rule) {
            return Ok(net);
        }
        site.rule_net(rule)
    }

    /// Takes out the net that is kept of a rule, if one is.
    fn take_out(&mut self, rule: u32) -> Option<Net>
        ensures nets { (self.new.nets.items ≡ self.old.nets.items) ⊎ (self.new.nets.items ≡ set self.old.nets.items rule None) }
        ensures net { IfSome result (λ n. slice_get self.old.nets.items rule ≡ Some (Some n)) }
    {
        let place = rule as usize;
        if place >= self.nets.len() {
            return None;
        }
        let taken = self.nets[place].take();
        if let Some(net) = &taken {
            self.room = self.room.saturating_add(net.len());
        }
        taken
    }

    /// Keeps the net of a rule, where there is room for it.
    pub fn put(&mut self, rule: u32, net: Net)
        ensures { (self.new.nets.items ≡ self.old.nets.items) ⊎ (self.new.nets.items ≡ set self.old.nets.items rule (Some net)) }
    {
        let place = rule as usize;
        let states = net.len();
        if place < self.nets.len() && states <= self.room {
            self.room -= states;
            self.nets[place] = Some(net);
        }
    }
}
