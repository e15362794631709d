ghost use Rattle.std.specs.Prelude.{IsTrue};
ghost use Rattle.xs_gram.specs.{Derivation, Derives, IsBuilt};
ghost use Rattle.xs_parse_table.specs.Nodes.{IsNode, IsRoot};
ghost use Rattle.xs_parse_table.specs.Validators.{IsReady};
ghost use Rattle.xs_parse_table.specs.Tables.{IsTreeOf};

use crate::item::item_end;
use crate::{Node, ParseTable, Validator};
use xs_class::Sym;
use xs_gram::Gram;

/// Whether node v of a table is right by itself: its items, one after another, go from its beginning
/// up to its end.
fn is_node(
    validator: &Validator,
    g: &Gram,
    doc: &[Sym],
    atoms: &[u16],
    table: &ParseTable,
    v: u32,
    node: Node,
) -> bool
    requires built { IsBuilt g.now }
    requires ready { IsReady g.now validator.now doc.now atoms.now }
    ensures { IsTrue result → IsNode g.now doc.now table.now.nodes.items table.now.parts.items v node }
{
    if g.rules() <= node.production || doc.len() < node.to as usize {
        return false;
    }
    let items = g.items(node.production);
    let begin = node.parts as usize;
    let nodes = table.nodes.as_slice();
    let parts = table.parts.as_slice();
    if parts.len() < begin + items.len() {
        return false;
    }
    let mut at = node.from;
    'items: for (dot, item) in items.iter().enumerate() {
        let part = parts[begin + dot];
        let Some(end) = item_end(validator, g, doc, atoms, nodes, v, item, at, part) else {
            return false;
        };
        at = end;
    }
    at == node.to
}

/// Whether the last node is of a rule of the start, and goes over the whole document.
fn is_root(g: &Gram, doc: &[Sym], node: Node) -> bool
    ensures { IsTrue result → IsRoot g.now doc.now node }
{
    node.production < g.rules()
        && g.non_of(node.production) == g.start()
        && node.from == 0
        && node.to as usize == doc.len()
}

/// Whether the table means a derivation of the document; where the answer is no it still may.
pub fn derives(
    validator: &Validator,
    g: &Gram,
    doc: &[Sym],
    atoms: &[u16],
    table: &ParseTable,
) -> bool
    requires built { IsBuilt g.now }
    requires ready { IsReady g.now validator.now doc.now atoms.now }
    ensures { IsTrue result → ((d : Derivation) × IsTreeOf table.now doc.now d × Derives g.now doc.now d) }
{
    let nodes = table.nodes.as_slice();
    if nodes.is_empty() {
        return false;
    }
    if !is_root(g, doc, nodes[nodes.len() - 1]) {
        return false;
    }
    'nodes: for (v, node) in nodes.iter().enumerate() {
        let Ok(number) = u32::try_from(v) else {
            return false;
        };
        if !is_node(validator, g, doc, atoms, table, number, *node) {
            return false;
        }
    }
    true
}
