ghost use Rattle.std.specs.Prelude.{◌≡◌, ◌<◌, length, IsTrue, IfOk, IfSome};
ghost use Rattle.xs_gram.specs.{strip, Derivation, items, slots, Derives, IsBuilt};
ghost use Rattle.xs_parse_table.specs.{IsTreeOf};
ghost use Rattle.xs_tree.specs.{trees_of, common_of};
ghost use Rattle.xs_turn.specs.Tables.{AreSlotCounts, AreNodeTrees, AreNodeKids, IsNodeTree, Grows, IsLeafPlaced, IsNodePlaced, IsPlaced};

use std::alloc::Global;
use xs_class::{Memory, Sym};
use xs_gram::{GItem, Gram, slot_count};
use xs_parse_table::{Node, ParseTable};
use xs_tree::{Builder, Tree};

/// The number of slots of each production, counted once a grammar.
fn slot_counts(alloc: Global, g: &Gram) -> Result<Vec<usize>, Memory>
    ensures { IfOk result (λ counts. AreSlotCounts g.now counts.items) }
{
    let mut counts = Vec::with_capacity(alloc, g.rules() as usize)?;
    'rules: for rule in 0..g.rules() {
        counts.push(slot_count(g.items(rule)))?;
    }
    Ok(counts)
}

/// Puts a new leaf with the word between two places at a slot; false where there are no such places
/// or no such slot.
#[inline(always)]
fn place_leaf(
    doc: &[Sym],
    slot: u32,
    at: u32,
    to: u32,
    builder: &mut Builder,
    kids: &mut Vec<u64>,
) -> Result<bool, Memory>
    ensures { IfOk result (λ placed. IsTrue placed → IsLeafPlaced doc.now slot at to (trees_of builder.old) kids.old.items (trees_of builder.new) kids.new.items) }
{
    if to < at || doc.len() < to as usize || kids.len() <= slot as usize {
        return Ok(false);
    }
    let number = builder.leaf(&doc[at as usize..to as usize])?;
    kids[slot as usize] = number;
    Ok(true)
}

/// Puts the number of an earlier node's tree at a slot; the answer is where the node ends.
#[inline(always)]
fn place_node(
    nodes: &[Node],
    numbers: &[u64],
    slot: u32,
    part: u32,
    kids: &mut Vec<u64>,
) -> Option<u32>
    ensures { IfSome result (IsNodePlaced nodes.now numbers.now slot part kids.old.items kids.new.items) }
{
    let place = part as usize;
    if numbers.len() <= place || nodes.len() <= place || kids.len() <= slot as usize {
        return None;
    }
    kids[slot as usize] = numbers[place];
    Some(nodes[place].to)
}

/// Puts the number of an item's tree at its slot, if it has one; the answer is where the item ends,
/// None where its part is not right.
#[inline(always)]
fn place(
    doc: &[Sym],
    nodes: &[Node],
    numbers: &[u64],
    item: &GItem,
    at: u32,
    part: u32,
    builder: &mut Builder,
    kids: &mut Vec<u64>,
) -> Result<Option<u32>, Memory>
    ensures { IfOk result (λ end. IfSome end (IsPlaced doc.now nodes.now numbers.now item.now at part (trees_of builder.old) kids.old.items (trees_of builder.new) kids.new.items)) }
{
    match item {
        GItem::Fixed(_) | GItem::Skip { .. } => Ok(Some(part)),
        GItem::Term { slot, .. } => {
            if place_leaf(doc, *slot, at, part, builder, kids)? {
                Ok(Some(part))
            } else {
                Ok(None)
            }
        }
        GItem::Non { slot, .. } => Ok(place_node(nodes, numbers, *slot, part, kids)),
    }
}

/// Puts the numbers of the trees of a node's children at their slots, with a new leaf for each word
/// of a terminal; false where a part is not right.
#[inline(always)]
fn place_all(
    g: &Gram,
    doc: &[Sym],
    table: &ParseTable,
    node: Node,
    numbers: &[u64],
    builder: &mut Builder,
    kids: &mut Vec<u64>,
) -> Result<bool, Memory>
    requires built { IsBuilt g.now }
    requires rule { node.production < length g.now.rules }
    requires long { length kids.old.items ≡ length (slots (items g.now node.production)) }
    requires earlier { AreNodeTrees g.now doc.now table.now (trees_of builder.old) numbers.now }
    ensures grows { IfOk result (λ placed. IsTrue placed → Grows (trees_of builder.old) (trees_of builder.new)) }
    ensures long { IfOk result (λ placed. IsTrue placed → length kids.new.items ≡ length kids.old.items) }
    ensures kids { IfOk result (λ placed. IsTrue placed → AreNodeKids g.now doc.now table.now (trees_of builder.new) kids.new.items node) }
{
    let items = g.items(node.production);
    let begin = node.parts as usize;
    let nodes = table.nodes.as_slice();
    let parts = table.parts.as_slice();
    if parts.len() < begin + items.len() {
        return Ok(false);
    }
    let mut at = node.from;
    'items: for (dot, item) in items.iter().enumerate() {
        let part = parts[begin + dot];
        let Some(end) = place(doc, nodes, numbers, item, at, part, builder, kids)? else {
            return Ok(false);
        };
        at = end;
    }
    Ok(true)
}

/// Gives the list this length, which it mostly has.
#[inline(always)]
fn set_length(kids: &mut Vec<u64>, count: usize) -> Result<(), Memory>
    ensures { IfOk result (λ _. length kids.new.items ≡ count) }
{
    if kids.len() != count {
        kids.resize(count, 0)?;
    }
    Ok(())
}

/// The number of a node's tree, a new part, where those of the nodes before it are given; None
/// where a part of the node is not right.
#[inline(always)]
fn add_node(
    g: &Gram,
    doc: &[Sym],
    table: &ParseTable,
    counts: &[usize],
    node: Node,
    numbers: &[u64],
    builder: &mut Builder,
    kids: &mut Vec<u64>,
) -> Result<Option<u64>, Memory>
    requires built { IsBuilt g.now }
    requires counts { AreSlotCounts g.now counts.now }
    requires earlier { AreNodeTrees g.now doc.now table.now (trees_of builder.old) numbers.now }
    ensures grows { IfOk result (λ number. IfSome number (λ _. Grows (trees_of builder.old) (trees_of builder.new))) }
    ensures made { IfOk result (λ number. IfSome number (IsNodeTree g.now doc.now table.now (trees_of builder.new) node)) }
{
    let production = node.production as usize;
    if counts.len() <= production {
        return Ok(None);
    }
    set_length(kids, counts[production])?;
    if !place_all(g, doc, table, node, numbers, builder, kids)? {
        return Ok(None);
    }
    let number = builder.node(node.production, kids)?;
    Ok(Some(number))
}

/// The numbers of the trees of all nodes, in their order; None where a node is not right.
fn number_nodes(
    alloc: Global,
    g: &Gram,
    doc: &[Sym],
    table: &ParseTable,
    counts: &[usize],
    builder: &mut Builder,
) -> Result<Option<Vec<u64>>, Memory>
    requires built { IsBuilt g.now }
    requires counts { AreSlotCounts g.now counts.now }
    ensures long { IfOk result (λ o. IfSome o (λ numbers. length numbers.items ≡ length table.now.nodes.items)) }
    ensures numbered { IfOk result (λ o. IfSome o (λ numbers. AreNodeTrees g.now doc.now table.now (trees_of builder.new) numbers.items)) }
{
    let nodes = table.nodes.as_slice();
    let mut numbers = Vec::with_capacity(alloc, nodes.len())?;
    let mut kids = Vec::new(alloc);
    'nodes: for node in nodes {
        let Some(number) = add_node(g, doc, table, counts, *node, &numbers, builder, &mut kids)?
        else {
            return Ok(None);
        };
        numbers.push(number)?;
    }
    Ok(Some(numbers))
}

/// The common tree of the derivation that a table means, or None where some node of the table is
/// not right. In time linear in the table and the words of its terminals.
pub fn tree_of(
    alloc: Global,
    g: &Gram,
    doc: &[Sym],
    table: &ParseTable,
) -> Result<Option<Tree>, Memory>
    requires { IsBuilt g.now }
    ensures { IfOk result (λ o. IfSome o (λ tree. (d : Derivation) → IsTreeOf table.now doc.now d → Derives g.now doc.now d → common_of tree ≡ strip g.now d)) }
{
    let parts = table.parts.len();
    let rows = parts.saturating_add(1);
    let mut builder = Builder::with_capacity(alloc, rows, parts, doc.len())?;
    let counts = slot_counts(alloc, g)?;
    let Some(numbers) = number_nodes(alloc, g, doc, table, &counts, &mut builder)? else {
        return Ok(None);
    };
    let list = numbers.as_slice();
    let count = list.len();
    if count == 0 {
        return Ok(None);
    }
    Ok(Some(builder.finish(list[count - 1])))
}
