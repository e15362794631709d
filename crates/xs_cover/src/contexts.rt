ghost use Rattle.std.specs.Prelude.{◌≡◌, ◌+◌, ℕ, ◌<◌, ◌≤◌, true, false, length, IfOk, OnOk};
ghost use Rattle.xs_gram.specs.declared.parts.GItem.{GItem};
ghost use Rattle.xs_gram.specs.{ItemAt, IsSound};
ghost use Rattle.xs_gram.specs.Grammar.{Grammar};
ghost use Rattle.xs_pair.specs.{IsSoundPair};
ghost use Rattle.xs_cover.specs.Steps.{IsStep, AreContexts, IsPassed, HasGrown, IsPassing, IsPassedItem, IsItemOf};
ghost use Rattle.xs_cover.specs.Tables.{at, IsLowered};

use crate::prices::{MOST, Prices, number_at, sum_of};
use std::alloc::Global;
use xs_class::{Memory, Side};
use xs_gram::{GItem, Gram};
use xs_pair::Two;

/// What stands around a nonterminal that is not reached.
const FAR: u64 = MOST + 1;

/// What stands around nonterminals in the trees of the start, as far as it is known: what it costs,
/// and the place of the step that leads there.
#[derive(Drop)]
pub struct Contexts {
    pub arounds: Vec<u64>,
    pub places: Vec<u64>,
    pub steps: Vec<Step>,
}

/// A step from the nonterminal of an earlier step, its parent, to the one at a slot of a rule of
/// it, and what stands around that one costs.
#[derive(Clone, Copy)]
pub struct Step {
    pub non: u32,
    pub rule: u32,
    pub slot: u32,
    pub parent: u64,
    pub cost: u64,
}

/// A rule of the nonterminal to which a step leads: what stands around it, and what the rule costs.
#[derive(Clone, Copy)]
struct Passing {
    rule: u32,
    parent: u64,
    around: u64,
    cost: u64,
}

impl Contexts {
    /// Nothing stands around the start.
    pub fn new(alloc: Global, g: &Gram, prices: &Prices) -> Result<Contexts, Memory>
        requires { IsSound g.now }
        ensures { IfOk result (λ c. (h : Grammar) → AreContexts g.now h prices.now c) }
    {
        let count = g.nons() as usize;
        let start = g.start();
        let mut arounds = vec![in alloc; FAR; count]?;
        arounds[start as usize] = 0;
        let places = vec![in alloc; 0; count]?;
        let mut steps = Vec::new(alloc);
        steps.push(Step {
            non: start,
            rule: 0,
            slot: 0,
            parent: 0,
            cost: 0,
        })?;
        Ok(Contexts {
            arounds,
            places,
            steps,
        })
    }

    /// Takes a step where it is to less than what stood around its nonterminal; false where it is
    /// not.
    fn lower(&mut self, two: &Two, prices: &Prices, step: Step) -> Result<bool, Memory>
        requires contexts { AreContexts two.now.text two.now.xml prices.now self.old }
        requires non { step.non < two.now.text.nons }
        requires cost { step.cost ≤ 1000000000 }
        requires step { IsStep two.now.text two.now.xml prices.now self.old.steps.items (length self.old.steps.items) step }
        ensures contexts { OnOk result (AreContexts two.now.text two.now.xml prices.now self.new) }
        ensures grown { OnOk result (HasGrown self.old.steps.items self.new.steps.items) }
        ensures lowered { IfOk result (λ b. IsLowered b self.old.arounds.items self.new.arounds.items) }
        ensures low { IfOk result (λ b. b ≡ false → at self.old.arounds.items step.non ≤ step.cost) }
    {
        let non = step.non as usize;
        if self.arounds[non] <= step.cost {
            return Ok(false);
        }
        let place = self.steps.len() as u64;
        self.steps.push(step)?;
        self.arounds[non] = step.cost;
        self.places[non] = place;
        Ok(true)
    }

    /// Takes the step to the nonterminal of an item, if it is one.
    fn pass_item(
        &mut self,
        two: &Two,
        prices: &Prices,
        from: Passing,
        item: &GItem,
    ) -> Result<bool, Memory>
        requires sound { IsSoundPair two.now }
        requires contexts { AreContexts two.now.text two.now.xml prices.now self.old }
        requires passing { IsPassing two.now.text two.now.xml prices.now self.old.steps.items from }
        requires item { IsItemOf two.now.text from.rule item.now }
        ensures contexts { OnOk result (AreContexts two.now.text two.now.xml prices.now self.new) }
        ensures grown { OnOk result (HasGrown self.old.steps.items self.new.steps.items) }
        ensures lowered { IfOk result (λ b. IsLowered b self.old.arounds.items self.new.arounds.items) }
        ensures passed { IfOk result (λ b. b ≡ false → IsPassedItem prices.now self.old.arounds.items from item.now) }
    {
        match item {
            GItem::Fixed(_) | GItem::Term { .. } | GItem::Skip { .. } => Ok(false),
            GItem::Non { non, slot } => {
                let rest = from.cost.saturating_sub(number_at(&prices.nons, *non));
                let step = Step {
                    non: *non,
                    rule: from.rule,
                    slot: *slot,
                    parent: from.parent,
                    cost: sum_of(from.around, rest),
                };
                let lowered = self.lower(two, prices, step)?;
                Ok(lowered)
            }
        }
    }

    /// Takes the steps to the nonterminals of a rule's items.
    fn pass_items(&mut self, two: &Two, prices: &Prices, from: Passing) -> Result<bool, Memory>
        requires sound { IsSoundPair two.now }
        requires contexts { AreContexts two.now.text two.now.xml prices.now self.old }
        requires passing { IsPassing two.now.text two.now.xml prices.now self.old.steps.items from }
        ensures contexts { OnOk result (AreContexts two.now.text two.now.xml prices.now self.new) }
        ensures lowered { IfOk result (λ b. IsLowered b self.old.arounds.items self.new.arounds.items) }
        ensures passed { IfOk result (λ b. b ≡ false → (n : ℕ) (item : GItem) → ItemAt two.now.text from.rule n item → IsPassedItem prices.now self.old.arounds.items from item) }
    {
        let mut lowered = false;
        'items: for item in two.gram(Side::Text).items(from.rule) {
            lowered |= self.pass_item(two, prices, from, item)?;
        }
        Ok(lowered)
    }

    /// Takes the steps from a rule's nonterminal, where it is reached, to those of the rule's items.
    pub fn pass(&mut self, two: &Two, prices: &Prices, rule: u32) -> Result<bool, Memory>
        requires sound { IsSoundPair two.now }
        requires contexts { AreContexts two.now.text two.now.xml prices.now self.old }
        requires rule { rule < length two.now.text.rules }
        ensures contexts { OnOk result (AreContexts two.now.text two.now.xml prices.now self.new) }
        ensures lowered { IfOk result (λ b. IsLowered b self.old.arounds.items self.new.arounds.items) }
        ensures passed { IfOk result (λ b. b ≡ false → IsPassed two.now.text two.now.xml prices.now self.old.arounds.items rule) }
    {
        let non = two.gram(Side::Text).non_of(rule);
        let around = number_at(&self.arounds, non);
        if around > MOST {
            return Ok(false);
        }
        let from = Passing {
            rule,
            parent: self.places[non as usize],
            around,
            cost: prices.rule_cost(two, rule),
        };
        let lowered = self.pass_items(two, prices, from)?;
        Ok(lowered)
    }

    /// Looks at all rules once; false where nothing is lowered.
    fn sweep(&mut self, two: &Two, prices: &Prices) -> Result<bool, Memory>
        requires sound { IsSoundPair two.now }
        requires contexts { AreContexts two.now.text two.now.xml prices.now self.old }
        ensures contexts { OnOk result (AreContexts two.now.text two.now.xml prices.now self.new) }
        ensures lowered { IfOk result (λ b. IsLowered b self.old.arounds.items self.new.arounds.items) }
        ensures passed { IfOk result (λ b. b ≡ false → (p : ℕ) → p < length two.now.text.rules → IsPassed two.now.text two.now.xml prices.now self.new.arounds.items p) }
    {
        let mut lowered = false;
        'rules: for rule in 0..two.gram(Side::Text).rules() {
            lowered |= self.pass(two, prices, rule)?;
        }
        Ok(lowered)
    }

    /// Takes steps until none leads to less than what is known.
    pub fn settle(&mut self, two: &Two, prices: &Prices) -> Result<(), Memory>
        requires sound { IsSoundPair two.now }
        requires contexts { AreContexts two.now.text two.now.xml prices.now self.old }
        ensures contexts { OnOk result (AreContexts two.now.text two.now.xml prices.now self.new) }
        ensures passed { OnOk result ((p : ℕ) → p < length two.now.text.rules → IsPassed two.now.text two.now.xml prices.now self.new.arounds.items p) }
    {
        'sweeps: while self.sweep(two, prices)? {}
        Ok(())
    }
}
