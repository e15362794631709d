ghost use Rattle.std.specs.Prelude.{◌≡◌, ◌≤◌, length, IfOk};
ghost use Rattle.std.specs.List.{All};
ghost use Rattle.xs_gram.specs.{NamesAreThere, items};
ghost use Rattle.xs_order.specs.Graphs.{is_nullable, IsFirstFull, AreLeading, AreByRule};

use crate::rules::{add_non, nons_of};
use std::alloc::Global;
use xs_class::Memory;
use xs_clauses::Flags;
use xs_gram::{GItem, Gram};
use xs_graph::Targets;

/// For each rule the nonterminals among its items all of whose other items are nullable.
pub fn all_leading(alloc: Global, g: &Gram, nulls: &Flags) -> Result<Vec<Targets>, Memory>
    requires { length nulls.now ≡ g.now.nons }
    ensures { IfOk result (λ lists. AreByRule (λ p list. AreLeading g.now nulls.now (items g.now p) list) (length g.now.rules) lists.items) }
{
    let mut lists = Vec::with_capacity(alloc, g.rules() as usize)?;
    'rules: for rule in 0..g.rules() {
        let list = leading(alloc, g, nulls, g.items(rule))?;
        lists.push(list)?;
    }
    Ok(lists)
}

/// The nonterminals among items all of whose other items are nullable, in time linear in the items.
fn leading(alloc: Global, g: &Gram, nulls: &Flags, items: &[GItem]) -> Result<Targets, Memory>
    requires flags { length nulls.now ≡ g.now.nons }
    requires names { All (NamesAreThere g.now) items.now }
    ensures { IfOk result (AreLeading g.now nulls.now items.now) }
{
    let first = first_full(g, nulls, items, 0);
    if first >= items.len() {
        let all = nons_of(alloc, items)?;
        return Ok(all);
    }
    let mut targets = Targets::new(alloc);
    if first_full(g, nulls, items, first + 1) < items.len() {
        return Ok(targets);
    }
    add_non(&mut targets, &items[first])?;
    Ok(targets)
}

/// The place of the first item from `from` on that is not nullable, or the number of items.
fn first_full(g: &Gram, nulls: &Flags, items: &[GItem], from: usize) -> usize
    requires flags { length nulls.now ≡ g.now.nons }
    requires names { All (NamesAreThere g.now) items.now }
    requires from { from ≤ length items.now }
    ensures { IsFirstFull g.now nulls.now items.now from result }
{
    'places: for place in from..items.len() {
        if !is_nullable(g, nulls, &items[place]) {
            return place;
        }
    }
    items.len()
}

/// Whether an item is nullable, by the flags of the nonterminals.
fn is_nullable(g: &Gram, nulls: &Flags, item: &GItem) -> bool
    requires flags { length nulls.now ≡ g.now.nons }
    requires names { NamesAreThere g.now item.now }
    ensures { result ≡ is_nullable g.now nulls.now item.now }
{
    match item {
        GItem::Fixed(_) => false,
        GItem::Term { term, .. } => g.term(*term).nullable,
        GItem::Non { non, .. } => *nulls.at(*non as usize),
        GItem::Skip { skip } => g.skip(*skip).nullable,
    }
}
