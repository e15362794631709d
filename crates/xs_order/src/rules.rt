ghost use Rattle.std.specs.Prelude.{◌≡◌, ◌+◌, ◌<◌, [], ◌∷◌, ◌++◌, length, IfOk, OnOk};
ghost use Rattle.xs_gram.specs.{items, IsBuilt, IsInRange};
ghost use Rattle.xs_order.specs.Leaves.{IsFor};
ghost use Rattle.xs_order.specs.Rules.{nons_of, AreClauses, AreMadeFlags};

use crate::leaves::Leaves;
use std::alloc::Global;
use xs_class::Memory;
use xs_clauses::{Clause, Flags, Premises, made};
use xs_gram::{GItem, Gram};

/// The nonterminals that have derivations with good leaves alone: a flag for each.
pub fn made_nons(alloc: Global, g: &Gram, leaves: &Leaves) -> Result<Flags, Memory>
    requires built { IsBuilt g.now }
    requires leaves { IsFor g.now leaves.now }
    ensures { IfOk result (AreMadeFlags g.now leaves.now) }
{
    let clauses = clauses_of(alloc, g, leaves)?;
    let flags = made(alloc, g.nons(), &clauses)?;
    Ok(flags)
}

/// The rules all of whose items are good, as clauses.
fn clauses_of(alloc: Global, g: &Gram, leaves: &Leaves) -> Result<Vec<Clause>, Memory>
    requires built { IsBuilt g.now }
    requires leaves { IsFor g.now leaves.now }
    ensures { IfOk result (λ clauses. AreClauses g.now leaves.now (length g.now.rules) clauses.items) }
{
    let mut clauses = Vec::new(alloc);
    'rules: for rule in 0..g.rules() {
        add_rule(alloc, &mut clauses, g, leaves, rule)?;
    }
    Ok(clauses)
}

/// Adds the clause of a rule, if all its items are good.
fn add_rule(
    alloc: Global,
    clauses: &mut Vec<Clause>,
    g: &Gram,
    leaves: &Leaves,
    rule: u32,
) -> Result<(), Memory>
    requires range { IsInRange g.now }
    requires leaves { IsFor g.now leaves.now }
    requires rule { rule < length g.now.rules }
    requires before { AreClauses g.now leaves.now rule clauses.old.items }
    ensures { OnOk result (AreClauses g.now leaves.now (rule + 1) clauses.new.items) }
{
    let items = g.items(rule);
    if !leaves.all_good(items) {
        return Ok(());
    }
    let premises = nons_of(alloc, items)?;
    let head = g.non_of(rule);
    clauses.push(Clause { head, premises })?;
    Ok(())
}

/// The nonterminals among items, in order.
pub fn nons_of(alloc: Global, items: &[GItem]) -> Result<Premises, Memory>
    ensures { IfOk result (λ nons. nons ≡ nons_of items.now) }
{
    let mut nons = Premises::new(alloc);
    'items: for item in items {
        add_non(&mut nons, item)?;
    }
    Ok(nons)
}

/// Adds the item's nonterminal, if it is one.
pub fn add_non(nons: &mut Premises, item: &GItem) -> Result<(), Memory>
    ensures { OnOk result (nons.new ≡ nons.old ++ nons_of (item.now ∷ [])) }
{
    match item {
        GItem::Non { non, .. } => {
            nons.push(*non)?;
            Ok(())
        }
        _ => Ok(()),
    }
}
