ghost use Rattle.std.specs.Prelude.{◌<◌, length, OnOk};
ghost use Rattle.xs_pair.specs.{IsSoundPair};
ghost use Rattle.xs_cover.specs.Steps.{AreContexts};

use crate::contexts::Contexts;
use crate::prices::{MOST, Prices, number_at};
use crate::rows::{note, row_at, row_length};
use std::alloc::Global;
use std::collections::BinaryHeap;
use xs_class::{Listed, Memory, Side, empty_lists};
use xs_gram::{GItem, Gram};
use xs_pair::Two;

/// Nonterminals by what is left of the bound on costs when what stands around them is taken off:
/// the nearest comes first.
type Reached = BinaryHeap<(u64, u32)>;

/// For each nonterminal its rules.
fn rules_by_non(alloc: Global, g: &Gram) -> Result<Vec<Listed<u32>>, Memory> {
    let mut rows = empty_lists(alloc, g.nons() as usize)?;
    'rules: for rule in 0..g.rules() {
        note(&mut rows, g.non_of(rule), rule)?;
    }
    Ok(rows)
}

/// Sets a nonterminal's flag; false where it was set.
fn set_flag(flags: &mut Vec<bool>, non: u32) -> bool {
    if (non as usize) < flags.len() {
        let flag = flags[non as usize];
        flags[non as usize] = true;
        !flag
    } else {
        false
    }
}

/// Adds the nonterminals among a rule's items.
fn push_items(two: &Two, rule: u32, arounds: &[u64], reached: &mut Reached) -> Result<(), Memory>
    requires { rule < length two.now.text.rules }
{
    'items: for item in two.gram(Side::Text).items(rule) {
        if let GItem::Non { non, .. } = item {
            let left = MOST.saturating_sub(number_at(arounds, *non));
            reached.push((left, *non))?;
        }
    }
    Ok(())
}

/// Takes the steps from a nonterminal by each of its rules.
fn pass_all(
    two: &Two,
    prices: &Prices,
    contexts: &mut Contexts,
    rules: &[Listed<u32>],
    non: u32,
    reached: &mut Reached,
) -> Result<(), Memory>
    requires sound { IsSoundPair two.now }
    requires contexts { AreContexts two.now.text two.now.xml prices.now contexts.old }
    ensures { OnOk result (AreContexts two.now.text two.now.xml prices.now contexts.new) }
{
    'rules: for place in 0..row_length(rules, non) {
        let rule = row_at(rules, non, place);
        if two.gram(Side::Text).rules() <= rule {
            continue;
        }
        if contexts.pass(two, prices, rule)? {
            push_items(two, rule, &contexts.arounds, reached)?;
        }
    }
    Ok(())
}

/// Takes steps from nonterminals in ascending order of what stands around them, by Dijkstra's
/// algorithm. In time n log n in the rules and their items.
///
/// Nothing rests on the order but the time: what this leaves to do `Contexts::settle` does.
pub fn step_in_order(
    alloc: Global,
    two: &Two,
    prices: &Prices,
    contexts: &mut Contexts,
) -> Result<(), Memory>
    requires sound { IsSoundPair two.now }
    requires contexts { AreContexts two.now.text two.now.xml prices.now contexts.old }
    ensures { OnOk result (AreContexts two.now.text two.now.xml prices.now contexts.new) }
{
    let g = two.gram(Side::Text);
    let rules = rules_by_non(alloc, g)?;
    let mut done = vec![in alloc; false; g.nons() as usize]?;
    let mut reached = BinaryHeap::new(alloc);
    reached.push((MOST, g.start()))?;
    'nons: for _ in 0..usize::MAX {
        let Some((_, non)) = reached.pop() else {
            return Ok(());
        };
        if !set_flag(&mut done, non) {
            continue;
        }
        pass_all(two, prices, contexts, &rules, non, &mut reached)?;
    }
    Ok(())
}
