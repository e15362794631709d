ghost use Rattle.std.specs.Prelude.{◌≡◌, ℕ, ◌+◌, ◌-◌, ◌<◌, ◌^◌, length, take, slice_index_or, IfOk};
ghost use Rattle.xs_gram.specs.{spread, AreComponents, IsBuilt};
ghost use Rattle.xs_loose.specs.Groups.{groups_before, lefts};
ghost use Rattle.xs_loose.specs.Tables.{AreRanks, AreNumbersBefore, AreTables};

use crate::components::Components;
use crate::weighing::Weights;
use std::alloc::Global;
use xs_class::Memory;
use xs_gram::{Comps, Gram};
use xs_regex::Numbers;

/// What is computed once of a grammar for the nets of its stretches: the weights of components; for
/// each nonterminal how many members of its component are below it; the members and the rules of
/// each component; and for each rule how many groups the rules before it have.
#[derive(Debug, Drop)]
pub struct Tables {
    pub weights: Weights,
    pub ranks: Numbers,
    pub lists: Components,
    pub groups: Numbers,
}

impl Tables {
    /// The tables of a grammar, in time linear in its nonterminals, its rules and their spread
    /// items.
    pub fn of(alloc: Global, g: &Gram, comps: &Comps) -> Result<Tables, Memory>
        requires built { IsBuilt g.now }
        requires comps { AreComponents g.now comps.now }
        ensures { IfOk result (AreTables g.now comps.now) }
    {
        let lists = Components::of(alloc, g, comps)?;
        let weights = lists.weights(alloc, g, comps)?;
        let ranks = ranks(alloc, g, comps, lists.members.len())?;
        let groups = groups(alloc, g)?;
        Ok(Tables {
            weights,
            ranks,
            lists,
            groups,
        })
    }
}

/// For each nonterminal how many members of its component are below it, by the number of
/// components.
fn ranks(alloc: Global, g: &Gram, comps: &Comps, count: usize) -> Result<Numbers, Memory>
    requires comps { AreComponents g.now comps.now }
    requires below { (n : ℕ) → n < g.now.nons → slice_index_or comps.now n 0 < count }
    ensures { IfOk result (AreRanks g.now g.now.nons) }
{
    let mut counts = vec![in alloc; 0u32; count]?;
    let mut ranks = Vec::with_capacity(alloc, g.nons() as usize)?;
    'nons: for non in 0..g.nons() {
        let component = *comps.at(non as usize) as usize;
        let rank = counts[component];
        ranks.push(rank)?;
        counts[component] = rank + 1;
    }
    Ok(Numbers::from_vec(ranks))
}

/// For each rule how many groups the rules before it have.
fn groups(alloc: Global, g: &Gram) -> Result<Numbers, Memory>
    requires { IsBuilt g.now }
    ensures { IfOk result (AreNumbersBefore g.now (length g.now.rules)) }
{
    let mut groups = Vec::with_capacity(alloc, g.rules() as usize)?;
    let mut number = 0;
    'rules: for rule in 0..g.rules() {
        groups.push(number)?;
        number = after_rule(g, rule, number);
    }
    Ok(Numbers::from_vec(groups))
}

/// The number of the first group after a rule, by that of its first one.
fn after_rule(g: &Gram, rule: u32, number: u32) -> u32
    requires built { IsBuilt g.now }
    requires rule { rule < length g.now.rules }
    requires number { number ≡ groups_before g.now rule }
    ensures { result ≡ groups_before g.now (rule + 1) }
{
    let mut number = number;
    'items: for place in 0..g.spread(rule).len() as u32 {
        number = after_place(g, rule, place, number);
    }
    number
}

/// The number of the first group after a spread item's place, by that of the first one from there
/// on.
pub fn after_place(g: &Gram, rule: u32, place: u32, number: u32) -> u32
    requires rule { rule < length g.now.rules }
    requires place { place < length (spread g.now rule) }
    requires number { number ≡ groups_before g.now rule + lefts g.now.fences (take place (spread g.now rule)) }
    requires low { number < 2 ^ 32 - 1 }
    ensures { result ≡ groups_before g.now rule + lefts g.now.fences (take (place + 1) (spread g.now rule)) }
{
    match g.partner(rule, place) {
        Some(_) => number + 1,
        None => number,
    }
}
