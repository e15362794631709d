ghost use Rattle.std.specs.Prelude.{◌≡◌, ◌<◌, ◌≤◌, length, IfOk};
ghost use Rattle.std.specs.List.{All};
ghost use Rattle.xs_gram.specs.{AreComponents, IsBuilt};
ghost use Rattle.xs_loose.specs.Components.{AreListed, AreRuleKeys, AreComponentsOf};

use std::alloc::Global;
use xs_class::{Memory, empty_lists};
use xs_gram::{Comps, Gram};
use xs_regex::Numbers;

/// The nonterminals and the rules of each component, by its number, in ascending order.
#[derive(Debug, Drop)]
pub struct Components {
    pub members: Vec<Numbers>,
    pub rules: Vec<Numbers>,
}

impl Components {
    /// The lists of the components of a grammar, in time linear in its nonterminals and rules.
    pub fn of(alloc: Global, g: &Gram, comps: &Comps) -> Result<Components, Memory>
        requires built { IsBuilt g.now }
        requires comps { AreComponents g.now comps.now }
        ensures { IfOk result (AreComponentsOf g.now comps.now) }
    {
        let count = bound(comps.as_slice());
        let keys = rule_keys(alloc, g, comps)?;
        let members = listed(alloc, comps.as_slice(), g.nons(), count)?;
        let rules = listed(alloc, &keys, g.rules(), count)?;
        Ok(Components { members, rules })
    }
}

/// The component of each rule's nonterminal.
fn rule_keys(alloc: Global, g: &Gram, comps: &Comps) -> Result<Vec<u32>, Memory>
    requires built { IsBuilt g.now }
    requires comps { AreComponents g.now comps.now }
    ensures { IfOk result (λ keys. AreRuleKeys g.now comps.now (length g.now.rules) keys.items) }
{
    let mut keys = Vec::with_capacity(alloc, g.rules() as usize)?;
    'rules: for rule in 0..g.rules() {
        let key = *comps.at(g.non_of(rule) as usize);
        keys.push(key)?;
    }
    Ok(keys)
}

/// A number above all keys.
fn bound(keys: &[u32]) -> usize
    ensures { All (λ k. k < result) keys.now }
{
    let mut bound = 0;
    'keys: for key in keys {
        bound = above(bound, *key);
    }
    bound
}

/// A number above the key that is not below the bound.
fn above(bound: usize, key: u32) -> usize
    ensures bound { bound ≤ result }
    ensures key { key < result }
{
    if (key as usize) < bound {
        bound
    } else {
        key as usize + 1
    }
}

/// For each key the places at which it stands, in ascending order.
fn listed(alloc: Global, keys: &[u32], end: u32, count: usize) -> Result<Vec<Numbers>, Memory>
    requires end { length keys.now ≡ end }
    requires below { All (λ k. k < count) keys.now }
    ensures counted { IfOk result (λ lists. length lists.items ≡ count) }
    ensures lists { IfOk result (λ lists. AreListed keys.now end lists.items) }
{
    let mut lists: Vec<Numbers> = empty_lists(alloc, count)?;
    'keys: for place in 0..end {
        let list = &mut lists[keys[place as usize] as usize];
        list.push(place)?;
    }
    Ok(lists)
}
