ghost use Rattle.std.specs.Prelude.{◌≡◌, ◌<◌, length, drop, IfOk};
ghost use Rattle.xs_gram.specs.{spread, IsLevel, AreComponents, IsBuilt};
ghost use Rattle.xs_order.specs.Graphs.{AreByRule};
ghost use Rattle.xs_order.specs.Outer.{AreOuterNons, IsPast};

use crate::graphs::graph_of;
use crate::rules::add_non;
use std::alloc::Global;
use xs_class::Memory;
use xs_gram::{Comps, GItem, Gram};
use xs_graph::Targets;

/// The components of the nonterminals: a number for each, the same for two exactly where each can
/// be reached from the other through the outer items of rules, and none greater than that of a
/// nonterminal with a rule among whose outer items it stands.
///
/// Takes time and memory linear in the items of the rules.
pub fn components(alloc: Global, g: &Gram) -> Result<Comps, Memory>
    requires { IsBuilt g.now }
    ensures { IfOk result (AreComponents g.now) }
{
    let targets = uses(alloc, g)?;
    let graph = graph_of(alloc, g, &targets)?;
    let comps = xs_graph::components(alloc, &graph)?;
    Ok(comps)
}

/// For each rule the nonterminals among its outer items.
fn uses(alloc: Global, g: &Gram) -> Result<Vec<Targets>, Memory>
    ensures { IfOk result (λ lists. AreByRule (λ p list. AreOuterNons g.now.fences (spread g.now p) list) (length g.now.rules) lists.items) }
{
    let mut lists = Vec::with_capacity(alloc, g.rules() as usize)?;
    'rules: for rule in 0..g.rules() {
        let list = outer_nons(alloc, g, rule)?;
        lists.push(list)?;
    }
    Ok(lists)
}

/// The nonterminals among the outer items of a rule.
fn outer_nons(alloc: Global, g: &Gram, rule: u32) -> Result<Targets, Memory>
    requires { rule < length g.now.rules }
    ensures { IfOk result (AreOuterNons g.now.fences (spread g.now rule)) }
{
    let items = g.spread(rule);
    let mut nons = Targets::new(alloc);
    let mut next = 0;
    'items: for place in 0..items.len() {
        if place < next {
            continue;
        }
        next = add_outer(g, rule, items, place, &mut nons)?;
    }
    Ok(nons)
}

/// Adds the nonterminal of an outer item, if it is one, and gives the place after the item, or after
/// the group that begins there.
fn add_outer(
    g: &Gram,
    rule: u32,
    items: &[GItem],
    place: usize,
    nons: &mut Targets,
) -> Result<usize, Memory>
    requires rule { rule < length g.now.rules }
    requires items { items.now ≡ spread g.now rule }
    requires place { place < length items.now }
    requires level { IsLevel g.now.fences (drop place items.now) }
    ensures { IfOk result (λ next. IsPast g.now.fences items.now place next nons.old nons.new) }
{
    let _spread = g.spread(rule);
    match g.partner(rule, place as u32) {
        Some(partner) => Ok(partner as usize + 1),
        None => {
            add_non(nons, &items[place])?;
            Ok(place + 1)
        }
    }
}
