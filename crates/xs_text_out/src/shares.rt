ghost use Rattle.std.specs.Prelude.{◌≡◌, ◌++◌, ◌∷◌, [], IfOk};
ghost use Rattle.xs_gram.specs.{NamesAreThere, slots};
ghost use Rattle.xs_tree.specs.{capped};
ghost use Rattle.xs_text_out.specs.Printed.{AreThere};
ghost use Rattle.xs_text_out.specs.Shares.{own_length, own_lengths, AreShares};

use crate::items::items_of;
use std::alloc::Global;
use xs_class::Memory;
use xs_flat::FlatLists;
use xs_gram::{GItem, Gram};

/// How many symbols each production prints by itself, and the slots of its items in order.
#[derive(Drop)]
pub struct Shares {
    pub owns: Vec<u64>,
    pub slots: FlatLists<u32>,
}

/// The length of what an item prints by itself: nothing, where it has a slot.
fn own_length(g: &Gram, item: &GItem) -> u64
    requires { NamesAreThere g.now item.now }
    ensures { result ≡ capped (own_length g.now item.now) }
{
    match item {
        GItem::Fixed(word) => word.len() as u64,
        GItem::Term { .. } => 0,
        GItem::Non { .. } => 0,
        GItem::Skip { skip } => g.normal(*skip).len() as u64,
    }
}

/// The length of what the items print by themselves.
fn own_lengths(g: &Gram, items: &[GItem]) -> u64
    requires { AreThere g.now items.now }
    ensures { result ≡ capped (own_lengths g.now items.now) }
{
    let mut length: u64 = 0;
    'items: for item in items {
        length = length.saturating_add(own_length(g, item));
    }
    length
}

/// Appends the slot of an item, if it has one.
fn push_slot(list: &mut Vec<u32>, item: &GItem) -> Result<(), Memory>
    ensures { IfOk result (λ _. list.new.items ≡ list.old.items ++ slots (item.now ∷ [])) }
{
    match item {
        GItem::Fixed(_) => Ok(()),
        GItem::Skip { .. } => Ok(()),
        GItem::Term { slot, .. } => {
            list.push(*slot)?;
            Ok(())
        }
        GItem::Non { slot, .. } => {
            list.push(*slot)?;
            Ok(())
        }
    }
}

/// Appends the slots of the items.
fn push_slots(list: &mut Vec<u32>, items: &[GItem]) -> Result<(), Memory>
    ensures { IfOk result (λ _. list.new.items ≡ list.old.items ++ slots items.now) }
{
    'items: for item in items {
        push_slot(list, item)?;
    }
    Ok(())
}

/// The shares of all productions of a grammar, in time linear in their items.
pub fn shares_of(alloc: Global, g: &Gram) -> Result<Shares, Memory>
    ensures { IfOk result (AreShares g.now) }
{
    let mut list = Vec::new(alloc);
    let mut owns = Vec::with_capacity(alloc, g.rules() as usize)?;
    let mut slots = FlatLists::new(alloc);
    'rules: for rule in 0..g.rules() {
        let items = items_of(g, rule);
        owns.push(own_lengths(g, items))?;
        list.clear();
        push_slots(&mut list, items)?;
        slots.push(&list)?;
    }
    Ok(Shares { owns, slots })
}
