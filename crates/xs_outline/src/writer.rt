ghost use Rattle.std.specs.Prelude.{◌≡◌, ◌<◌, ◌≤◌, ◌+◌, ◌*◌, ◌∷◌, ◌++◌, [], ℕ, suc, true, codes, length, encode_utf8_all, slice_get, None, Some, IfOk, OnOk, MatchOption};
ghost use Rattle.std.specs.Str.{all_scalars, chars};
ghost use Rattle.xs_gram.specs.{word, made, TreeFits};
ghost use Rattle.xs_gram.specs.Common.{Common};
ghost use Rattle.xs_tree.specs.{IsFlat, common_at, common_of, production_of, word_of};
ghost use Rattle.xs_outline.specs.Lines.{Entry, production, leaf_word, line, line_text, number_text};
ghost use Rattle.xs_outline.specs.Order.{outline_of};
ghost use Rattle.xs_outline.specs.Shapes.{HasSlotNames};
ghost use Rattle.xs_outline.specs.Walk.{AreOpen, AreOrders, CanWrite, IsNode, pending, rest_text, task_at, tree_text};

use crate::order::{Slots, orders};
use crate::page::{push_decimal, push_quoted};
use std::alloc::Global;
use xs_class::{Bytes, Memory, Sym, Text};
use xs_pair::Two;
use xs_tree::Tree;

/// A node that the walk is in, and how many of its children are written.
#[derive(Clone, Copy)]
pub struct Task {
    pub part: u64,
    pub dot: usize,
}

/// A child that is to be written next: the name of its slot, its part, and how many children of its
/// parent are written with it.
#[derive(Clone, Copy)]
struct Child<'t> {
    name: &'t str,
    part: u64,
    count: usize,
}

/// Appends the beginning of a line.
fn push_head(page: &mut Text, depth: usize, name: &str) -> Result<(), Memory>
    ensures { OnOk result (page.new ≡ page.old ++ (number_text depth ++ 32 ∷ (chars name.now ++ 32 ∷ []))) }
{
    push_decimal(page, depth as u64)?;
    page.push(' ')?;
    page.push_str(name)?;
    page.push(' ')
}

/// Appends the line of a leaf.
fn push_leaf(page: &mut Text, depth: usize, name: &str, word: &[Sym]) -> Result<(), Memory>
    requires { all_scalars word.now ≡ true }
    ensures { OnOk result (page.new ≡ page.old ++ line_text (line depth (chars name.now) (leaf_word word.now))) }
{
    push_head(page, depth, name)?;
    push_quoted(page, word)?;
    page.push('\n')
}

/// Appends the line of a node.
fn push_node(page: &mut Text, depth: usize, name: &str, rule: u32) -> Result<(), Memory>
    ensures { OnOk result (page.new ≡ page.old ++ line_text (line depth (chars name.now) (production rule))) }
{
    push_head(page, depth, name)?;
    push_decimal(page, u64::from(rule) + 1)?;
    page.push('\n')
}

/// The production of a part that is a node.
fn rule_of(tree: &Tree, part: u64) -> u32
    requires part { part < length tree.now.parts }
    requires node { None ≡ word_of (slice_get tree.now.parts part) }
    ensures { Some result ≡ production_of (slice_get tree.now.parts part) }
{
    match tree.production(part) {
        Some(rule) => rule,
        None => unreachable!(),
    }
}

/// One more node is open.
fn enter(part: u64, dot: usize, tasks: &mut Vec<Task>) -> Result<(), Memory>
    ensures { OnOk result (tasks.new.items ≡ tasks.old.items ++ task_at part dot ∷ []) }
{
    tasks.push(Task { part, dot })?;
    Ok(())
}

/// Writes the line of a part that is a leaf.
fn push_leaf_part(
    two: &Two,
    tree: &Tree,
    child: Child<'_>,
    word: &[Sym],
    tasks: &[Task],
    page: &mut Text,
) -> Result<(), Memory>
    requires flat { IsFlat tree.now }
    requires part { child.part < length tree.now.parts }
    requires word { Some word.now ≡ word_of (slice_get tree.now.parts child.part) }
    requires can { CanWrite two.now (common_at tree.now child.part) }
    ensures longer { OnOk result (length page.old < length page.new) }
    ensures writes { OnOk result (page.new ++ pending two.now tree.now 0 tasks.now ≡ page.old ++ (tree_text two.now (length tasks.now) (chars child.entry.name.now) (common_at tree.now child.entry.part) ++ pending two.now tree.now 0 tasks.now)) }
{
    push_leaf(page, tasks.len(), child.name, word)
}

/// Writes the line of a part that is a node, and enters it.
fn push_node_part(
    two: &Two,
    tree: &Tree,
    child: Child<'_>,
    tasks: &mut Vec<Task>,
    page: &mut Text,
) -> Result<(), Memory>
    requires flat { IsFlat tree.now }
    requires part { child.part < length tree.now.parts }
    requires node { None ≡ word_of (slice_get tree.now.parts child.part) }
    requires can { CanWrite two.now (common_at tree.now child.part) }
    requires inside { AreOpen two.now tree.now tasks.old.items }
    ensures longer { OnOk result (length page.old < length page.new) }
    ensures fewer { OnOk result (length tasks.new.items ≤ length tasks.old.items + 1) }
    ensures inside { OnOk result (AreOpen two.now tree.now tasks.new.items) }
    ensures writes { OnOk result (page.new ++ pending two.now tree.now 0 tasks.new.items ≡ page.old ++ (tree_text two.now (length tasks.old.items) (chars child.entry.name.now) (common_at tree.now child.entry.part) ++ pending two.now tree.now 0 tasks.old.items)) }
{
    let rule = rule_of(tree, child.part);
    push_node(page, tasks.len(), child.name, rule)?;
    enter(child.part, 0, tasks)
}

/// Writes the line of a part, and enters it where it is a node.
fn push_part(
    two: &Two,
    tree: &Tree,
    child: Child<'_>,
    tasks: &mut Vec<Task>,
    page: &mut Text,
) -> Result<(), Memory>
    requires flat { IsFlat tree.now }
    requires part { child.part < length tree.now.parts }
    requires can { CanWrite two.now (common_at tree.now child.part) }
    requires inside { AreOpen two.now tree.now tasks.old.items }
    ensures longer { OnOk result (length page.old < length page.new) }
    ensures fewer { OnOk result (length tasks.new.items ≤ length tasks.old.items + 1) }
    ensures inside { OnOk result (AreOpen two.now tree.now tasks.new.items) }
    ensures writes { OnOk result (page.new ++ pending two.now tree.now 0 tasks.new.items ≡ page.old ++ (tree_text two.now (length tasks.old.items) (chars child.entry.name.now) (common_at tree.now child.entry.part) ++ pending two.now tree.now 0 tasks.old.items)) }
{
    match tree.word(child.part) {
        Some(word) => push_leaf_part(two, tree, child, word, tasks, page),
        None => push_node_part(two, tree, child, tasks, page),
    }
}

/// The child of a node that is to be written after that many others, if there is one.
fn child_at<'t>(
    two: &'t Two,
    tree: &Tree,
    orders: &[Slots],
    part: u64,
    dot: usize,
) -> Option<Child<'t>>
    requires names { HasSlotNames two.now }
    requires flat { IsFlat tree.now }
    requires orders { AreOrders two.now orders.now }
    requires part { part < length tree.now.parts }
    requires node { IsNode two.now (common_at tree.now part) }
    ensures { MatchOption result ((depth : ℕ) → rest_text two.now depth dot (common_at tree.now part) ≡ [])
        (λ child. (child.part < length tree.now.parts) × (child.count ≡ dot + 1) × CanWrite two.now (common_at tree.now child.part)
        × ((depth : ℕ) → rest_text two.now depth dot (common_at tree.now part) ≡ tree_text two.now depth (chars child.name.now) (common_at tree.now child.part) ++ rest_text two.now depth (dot + 1) (common_at tree.now part))) }
{
    two.see();
    let rule = rule_of(tree, part);
    let order = orders[rule as usize].as_slice();
    if dot < order.len() {
        let slot = order[dot];
        let name = two.slot_name(rule, slot);
        let kid = tree.kid(part, slot);
        Some(Child {
            name,
            part: kid,
            count: dot + 1,
        })
    } else {
        None
    }
}

/// Writes the next child of a node, or leaves the node where no child is left.
fn perform(
    two: &Two,
    tree: &Tree,
    orders: &[Slots],
    task: Task,
    tasks: &mut Vec<Task>,
    page: &mut Text,
) -> Result<(), Memory>
    requires names { HasSlotNames two.now }
    requires flat { IsFlat tree.now }
    requires orders { AreOrders two.now orders.now }
    requires part { task.part < length tree.now.parts }
    requires node { IsNode two.now (common_at tree.now task.part) }
    requires inside { AreOpen two.now tree.now tasks.old.items }
    ensures falls { OnOk result (2 * length page.old + length tasks.new.items ≤ 2 * length page.new + length tasks.old.items) }
    ensures inside { OnOk result (AreOpen two.now tree.now tasks.new.items) }
    ensures writes { OnOk result (page.new ++ pending two.now tree.now 0 tasks.new.items ≡ page.old ++ (rest_text two.now (suc (length tasks.old.items)) task.dot (common_at tree.now task.part) ++ pending two.now tree.now 0 tasks.old.items)) }
{
    let Task { part, dot } = task;
    let Some(child) = child_at(two, tree, orders, part, dot) else {
        return Ok(());
    };
    enter(part, child.count, tasks)?;
    push_part(two, tree, child, tasks, page)
}

/// Writes the tree's outline to a page.
fn write(alloc: Global, two: &Two, tree: &Tree, page: &mut Text) -> Result<(), Memory>
    requires names { HasSlotNames two.now }
    requires empty { page.old ≡ [] }
    requires fits { TreeFits two.now.text two.now.text.start (common_of tree.now) }
    ensures { OnOk result (page.new ≡ outline_of two.now (common_of tree.now)) }
{
    let orders = orders(alloc, two)?;
    let mut tasks = Vec::new(alloc);
    let root = Child {
        name: "tree",
        part: tree.root(),
        count: 0,
    };
    push_part(two, tree, root, &mut tasks, page)?;
    'tasks: while let Some(task) = tasks.pop() {
        perform(two, tree, &orders, task, &mut tasks, page)?;
    }
    Ok(())
}

/// The outline of a tree: children in ascending order of the bytes of their names, every line
/// ended, words as `write_sheet` writes quoted strings. In time linear in the tree and the outline,
/// after the slots of each production were put in order, by insertion.
pub fn write_outline(alloc: Global, two: &Two, tree: &Tree) -> Result<Bytes, Memory>
    requires fits { TreeFits two.now.text two.now.text.start (common_of tree.now) }
    ensures { IfOk result (λ bytes. bytes ≡ encode_utf8_all (outline_of two.now (common_of tree.now))) }
{
    two.see();
    let mut page = Text::new(alloc);
    write(alloc, two, tree, &mut page)?;
    Bytes::of(alloc, page.as_str().as_bytes())
}
