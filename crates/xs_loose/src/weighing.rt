ghost use Rattle.std.specs.Prelude.{◌≡◌, ℕ, ◌+◌, ◌<◌, ◌≤◌, List, length, slice_get, slice_index_or, Some, IfOk};
ghost use Rattle.std.specs.List.{All, Contains};
ghost use Rattle.xs_gram.specs.declared.parts.GItem.{GItem as Item};
ghost use Rattle.xs_gram.specs.{NamesAreThere, spread, AreComponents, IsBuilt};
ghost use Rattle.xs_check_laws.specs.{cap, capped, ItemWeighs, BodyWeighs, ComponentWeighs, PartWeighs};
ghost use Rattle.xs_loose.specs.Components.{IsListOf, IsNonOf, IsRuleIn, AreComponentsOf};
ghost use Rattle.xs_loose.specs.Parts.{IsPart, part_items};
ghost use Rattle.xs_loose.specs.Steps.{StandsAt, StandsLast, PartStep, BodyStep};
ghost use Rattle.xs_loose.specs.Weighing.{AreWeights, AreWeightsBefore, HasWeight, IsUnder, Counts};

use crate::Part;
use crate::components::Components;
use crate::members::member_of;
use std::alloc::Global;
use xs_class::{Listed, Memory};
use xs_gram::{Comps, GItem, Gram};

/// For each nonterminal of a grammar the weight of its component.
pub type Weights = Listed<u64>;

/// The weights of all components of a grammar, each computed once: in time linear in the grammar,
/// where the components have numbers below that of the nonterminals.
pub fn weights(alloc: Global, g: &Gram, comps: &Comps) -> Result<Weights, Memory>
    requires built { IsBuilt g.now }
    requires comps { AreComponents g.now comps.now }
    ensures { IfOk result (AreWeights g.now) }
{
    let lists = Components::of(alloc, g, comps)?;
    lists.weights(alloc, g, comps)
}

impl Components {
    /// The weights of all components of the grammar that they are of.
    pub fn weights(&self, alloc: Global, g: &Gram, comps: &Comps) -> Result<Weights, Memory>
        requires built { IsBuilt g.now }
        requires comps { AreComponents g.now comps.now }
        requires lists { AreComponentsOf g.now comps.now self.now }
        ensures { IfOk result (AreWeights g.now) }
    {
        let mut weights = vec![in alloc; 0u64; g.nons() as usize]?;
        'components: for component in 0..self.members.len() {
            let members = self.members[component].as_slice();
            let rules = self.rules[component].as_slice();
            let weight = component_weight(g, comps, component, members, rules, &weights);
            set_each(&mut weights, members, weight);
        }
        Ok(Weights::from_vec(weights))
    }
}

/// The weight of a stretch, without memory: in time linear in its outer items and groups, by the
/// weights of all components.
pub fn weight_by(g: &Gram, weights: &Weights, part: &Part) -> u64
    requires built { IsBuilt g.now }
    requires weights { AreWeights g.now weights.now }
    requires part { IsPart g.now part.now }
    ensures { PartWeighs g.now (part_items g.now part.now) result }
{
    let weights = weights.as_slice();
    let mut sum = 0;
    let mut place = part.start;
    'items: while place < part.end {
        let (count, after) = part_step(g, weights, part.rule, place);
        sum = capped(count.saturating_add(sum));
        place = after;
    }
    sum
}

/// The weight of a stretch, where one alone is wanted: in time linear in the grammar.
pub fn weight_of(alloc: Global, g: &Gram, comps: &Comps, part: &Part) -> Result<u64, Memory>
    requires built { IsBuilt g.now }
    requires comps { AreComponents g.now comps.now }
    requires part { IsPart g.now part.now }
    ensures { IfOk result (PartWeighs g.now (part_items g.now part.now)) }
{
    let weights = weights(alloc, g, comps)?;
    Ok(weight_by(g, &weights, part))
}

/// The greatest sum that counts: every greater one counts as this.
pub const CAP: u64 = 1_000_000;

/// A sum as it counts.
fn capped(sum: u64) -> u64
    ensures { result ≡ capped sum }
{
    sum.min(CAP)
}

/// What the outer item or the group at a place weighs, and the place after it.
fn part_step(g: &Gram, weights: &[u64], rule: u32, place: u32) -> (u64, u32)
    requires built { IsBuilt g.now }
    requires weights { AreWeights g.now weights.now }
    requires rule { rule < length g.now.rules }
    requires place { place < length (spread g.now rule) }
    ensures { (rest : List Item) → StandsAt g.now rule place rest → PartStep g.now place rest result.1 result.0 }
{
    let item = &g.spread(rule)[place as usize];
    match g.partner(rule, place) {
        Some(partner) => (2, partner + 1),
        None => (item_weight(g, item, weights), place + 1),
    }
}

/// The weight of an item.
fn item_weight(g: &Gram, item: &GItem, weights: &[u64]) -> u64
    requires built { IsBuilt g.now }
    requires there { NamesAreThere g.now item.now }
    requires counted { length weights.now ≡ g.now.nons }
    requires weight { HasWeight g.now weights.now item.now }
    ensures { ItemWeighs g.now item.now result }
{
    match item {
        GItem::Fixed(word) => word.len() as u64,
        GItem::Term { term, .. } => g.term(*term).classes.len() as u64 + 1,
        GItem::Non { non, .. } => weights[*non as usize],
        GItem::Skip { skip } => g.skip(*skip).classes.len() as u64 + 1,
    }
}

/// The weight of a component, by those of the components before it.
fn component_weight(
    g: &Gram,
    comps: &Comps,
    component: usize,
    members: &[u32],
    rules: &[u32],
    weights: &[u64],
) -> u64
    requires built { IsBuilt g.now }
    requires comps { AreComponents g.now comps.now }
    requires members { IsListOf (IsNonOf g.now comps.now component) members.now }
    requires rules { IsListOf (IsRuleIn g.now comps.now component) rules.now }
    requires before { AreWeightsBefore g.now comps.now component weights.now }
    ensures { (c : ℕ) → IsNonOf g.now comps.now component c → ComponentWeighs g.now c result }
{
    let mut sum = 0;
    'rules: for rule in rules {
        let body = body_weight(g, comps, component, *rule, weights);
        sum = capped(sum + body + 1);
    }
    capped((members.len() as u64).saturating_mul(2).saturating_add(sum))
}

/// The weight of the outer items and groups of a rule in its component.
fn body_weight(g: &Gram, comps: &Comps, component: usize, rule: u32, weights: &[u64]) -> u64
    requires built { IsBuilt g.now }
    requires comps { AreComponents g.now comps.now }
    requires rule { IsRuleIn g.now comps.now component rule }
    requires before { AreWeightsBefore g.now comps.now component weights.now }
    ensures few { result ≤ cap }
    ensures weighs { (c : ℕ) → IsNonOf g.now comps.now component c → BodyWeighs g.now c (spread g.now rule) result }
{
    let end = g.spread(rule).len() as u32;
    let mut sum = 0;
    let mut next = 0;
    'items: for place in 0..end {
        if place < next {
            continue;
        }
        let (count, after) = body_step(g, comps, component, rule, place, weights);
        sum = capped(count.saturating_add(sum));
        next = after;
    }
    sum
}

/// What the outer item or the group at a place of a rule counts in the rule's component, and the
/// place after it.
fn body_step(
    g: &Gram,
    comps: &Comps,
    component: usize,
    rule: u32,
    place: u32,
    weights: &[u64],
) -> (u64, u32)
    requires built { IsBuilt g.now }
    requires comps { AreComponents g.now comps.now }
    requires rule { IsRuleIn g.now comps.now component rule }
    requires place { place < length (spread g.now rule) }
    requires before { AreWeightsBefore g.now comps.now component weights.now }
    requires stands { (rest : List Item) × StandsLast g.now rule place rest }
    ensures { (rest : List Item) → StandsLast g.now rule place rest → BodyStep g.now comps.now component place rest result.1 result.0 }
{
    let item = &g.spread(rule)[place as usize];
    match g.partner(rule, place) {
        Some(partner) => (2, partner + 1),
        None => (item_count(g, comps, component, item, weights), place + 1),
    }
}

/// What an item counts in a component.
fn item_count(g: &Gram, comps: &Comps, component: usize, item: &GItem, weights: &[u64]) -> u64
    requires built { IsBuilt g.now }
    requires comps { AreComponents g.now comps.now }
    requires there { NamesAreThere g.now item.now }
    requires under { IsUnder comps.now component item.now }
    requires before { AreWeightsBefore g.now comps.now component weights.now }
    ensures { (c : ℕ) → IsNonOf g.now comps.now component c → Counts g.now c item.now result }
{
    match member_of(comps, component, item) {
        Some(_) => 1,
        None => item_weight(g, item, weights),
    }
}

/// Gives each of these nonterminals the weight.
fn set_each(weights: &mut [u64], nons: &[u32], weight: u64)
    requires { All (λ n. n < length weights.old) nons.now }
    ensures length { length weights.new ≡ length weights.old }
    ensures set { (n : ℕ) → Contains nons.now n → slice_index_or weights.new n 0 ≡ weight }
    ensures kept { (n : ℕ) → (Contains nons.now n → ⊥) → slice_index_or weights.new n 0 ≡ slice_index_or weights.old n 0 }
{
    'nons: for non in nons {
        weights[*non as usize] = weight;
    }
}
