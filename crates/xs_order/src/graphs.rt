ghost use Rattle.std.specs.Prelude.{◌≡◌, ◌<◌, ◌^◌, [], ◌++◌, length, IfOk, OnOk};
ghost use Rattle.xs_gram.specs.{IsInRange};
ghost use Rattle.xs_order.specs.Graphs.{AreByRule, IsGraphTo};

use std::alloc::Global;
use xs_class::Memory;
use xs_gram::Gram;
use xs_graph::{Graph, Targets};

/// The graph of the nonterminals in which edges lead from each rule's nonterminal to the rule's
/// targets.
pub fn graph_of(alloc: Global, g: &Gram, targets: &[Targets]) -> Result<Graph, Memory>
    requires range { IsInRange g.now }
    requires rules { length targets.now ≡ length g.now.rules }
    ensures graph { IfOk result (IsGraphTo g.now targets.now (length g.now.rules)) }
    ensures few { IfOk result (λ graph. length graph < 2 ^ 32) }
{
    let mut rows = no_edges(alloc, g.nons())?;
    'rules: for rule in 0..g.rules() {
        let non = g.non_of(rule);
        let row = &mut rows[non as usize];
        extend(row, targets[rule as usize].as_slice())?;
    }
    Ok(Graph::from_vec(rows))
}

/// A row without targets for each node.
fn no_edges(alloc: Global, nodes: u32) -> Result<Vec<Targets>, Memory>
    ensures blank { IfOk result (λ rows. AreByRule (λ _ row. row ≡ []) nodes rows.items) }
    ensures few { IfOk result (λ rows. length rows.items < 2 ^ 32) }
{
    let mut rows = Vec::with_capacity(alloc, nodes as usize)?;
    'rows: for _ in 0..nodes {
        rows.push(Targets::new(alloc))?;
    }
    Ok(rows)
}

/// Appends the targets to a row.
fn extend(row: &mut Targets, targets: &[u32]) -> Result<(), Memory>
    ensures { OnOk result (row.new ≡ row.old ++ targets.now) }
{
    'targets: for target in targets {
        row.push(*target)?;
    }
    Ok(())
}
