ghost use Rattle.std.specs.Prelude.{◌≡◌, ◌<◌, ◌+◌, List, Some, length, All, slice_get, IfOk};
ghost use Rattle.xs_gram.specs.{spelling, items};
ghost use Rattle.xs_gram.specs.Common.{Common};
ghost use Rattle.xs_gram.specs.Grammar.{Grammar};
ghost use Rattle.xs_tree.specs.{capped, TreePart, tree_of, trees_of};
ghost use Rattle.xs_text_out.specs.Printed.{AreLengths, print_length, slot_word};
ghost use Rattle.xs_text_out.specs.Shares.{AreShares, slots_length};

use crate::items::kid_at;
use crate::shares::Shares;
use std::alloc::Global;
use xs_class::Memory;
use xs_gram::Gram;
use xs_tree::{Part, Tree};

/// The length of what stands at a slot.
fn slot_length(kids: &[u64], slot: u32, lengths: &[u64]) -> u64
    requires { All (λ kid. kid < length lengths.now) kids.now }
    ensures { (g : Grammar) (trees : List Common) → AreLengths g trees lengths.now → result ≡ capped (length (slot_word g trees kids.now slot)) }
{
    match kid_at(kids, slot) {
        None => 0,
        Some(kid) => lengths[kid as usize],
    }
}

/// The length of what is printed at the slots, and of what is printed beside.
fn children_length(slots: &[u32], kids: &[u64], lengths: &[u64], beside: u64) -> u64
    requires { All (λ kid. kid < length lengths.now) kids.now }
    ensures { (g : Grammar) (trees : List Common) → AreLengths g trees lengths.now → result ≡ capped (beside + slots_length (slot_word g trees kids.now) slots.now) }
{
    let mut length = beside;
    'slots: for slot in slots {
        length = length.saturating_add(slot_length(kids, *slot, lengths));
    }
    length
}

/// The length of what a node prints.
fn node_length(g: &Gram, shares: &Shares, production: u32, kids: &[u64], lengths: &[u64]) -> u64
    requires shares { AreShares g.now shares.now }
    requires kids { All (λ kid. kid < length lengths.now) kids.now }
    ensures { (trees : List Common) → AreLengths g.now trees lengths.now → result ≡ capped (length (spelling g.now (items g.now production) (slot_word g.now trees kids.now))) }
{
    if g.rules() <= production {
        return 0;
    }
    let own = shares.owns[production as usize];
    children_length(shares.slots.list(production as usize), kids, lengths, own)
}

/// The length of what a part prints, where those of the parts before it are given.
fn part_length(g: &Gram, shares: &Shares, t: &Tree, part: u64, lengths: &[u64]) -> u64
    requires shares { AreShares g.now shares.now }
    requires part { part < length t.now.parts }
    requires before { length lengths.now ≡ part }
    ensures { (trees : List Common) (found : TreePart) → slice_get t.now.parts part ≡ Some found → AreLengths g.now trees lengths.now → result ≡ print_length g.now (tree_of trees found) }
{
    match t.part(part) {
        Part::Leaf(word) => word.len() as u64,
        Part::Node { production, kids } => node_length(g, shares, production, kids, lengths),
    }
}

/// The lengths of what the parts print, each as far as 64 bits can count, in time linear in the
/// parts and their children.
pub fn lengths_of(alloc: Global, g: &Gram, shares: &Shares, t: &Tree) -> Result<Vec<u64>, Memory>
    requires { AreShares g.now shares.now }
    ensures { IfOk result (λ lengths. AreLengths g.now (trees_of t.now.parts) lengths.items) }
{
    let count = t.len();
    let mut lengths = Vec::with_capacity(alloc, count as usize)?;
    'parts: for part in 0..count {
        let length = part_length(g, shares, t, part, &lengths);
        lengths.push(length)?;
    }
    Ok(lengths)
}
