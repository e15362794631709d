ghost use Rattle.std.specs.Prelude.{ℕ, IfOk, IfErr};
ghost use Rattle.xs_gram.specs.{IsBuilt, DerivesItself};
ghost use Rattle.xs_order.specs.Order.{AreRanks, IsLoop};

use crate::graphs::graph_of;
use crate::leading::all_leading;
use crate::{OrderFault, Ranks, nullable};
use std::alloc::Global;
use xs_gram::Gram;
use xs_graph::first_cyclic;

/// A rank for each nonterminal, greater than those of the nonterminals to which it leads: those in
/// a rule of it all of whose other items are nullable.
///
/// Fails with `Loop` exactly where some nonterminal derives itself alone, and gives the least such
/// one. Takes time and memory linear in the items of the rules.
pub fn unit_order(alloc: Global, g: &Gram) -> Result<Ranks, OrderFault>
    requires { IsBuilt g.now }
    ensures ranks { IfOk result (AreRanks g.now) }
    ensures straight { IfOk result (λ _. (n : ℕ) → DerivesItself g.now n → ⊥) }
    ensures fault { IfErr result (IsLoop g.now) }
{
    let nulls = nullable(alloc, g)?;
    let targets = all_leading(alloc, g, &nulls)?;
    let graph = graph_of(alloc, g, &targets)?;
    let ranks = xs_graph::components(alloc, &graph)?;
    match first_cyclic(&graph, &ranks) {
        Some(non) => Err(OrderFault::Loop { non }),
        None => Ok(ranks),
    }
}
