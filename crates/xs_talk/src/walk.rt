ghost use Rattle.std.specs.Prelude.{◌≡◌, ◌<◌, ◌≤◌, ◌++◌, Some, length, slice_range, IfOk, OnOk, suc, codes, decimal};
ghost use Rattle.xs_talk.specs.Words.{quoted};
ghost use Rattle.xs_talk.specs.Derivations.{slot_text, slot_begin};
ghost use Rattle.xs_talk.specs.Slots.{HasSlot, IsNamed};
ghost use Rattle.xs_talk.specs.Walk.{IsSpelt, IsLineOf, label as label_of, IsOpened, CanWrite, IsWritten, HasKid, IsKidWritten, CanDo, IsDone};

use crate::words::{push_decimal, push_quoted, push_three};
use std::alloc::Global;
use xs_class::{Bytes, Memory, Side, Word};
use xs_gram::GItem;
use xs_listing::{Spelt, SpeltPart};
use xs_pair::Two;

/// A node that the walk is in: its production, and its items and kids that are still to be written.
#[derive(Clone, Copy)]
pub struct Task<'t> {
    pub rule: u32,
    pub items: &'t [GItem],
    pub kids: &'t [u64],
}

/// One more node is open.
fn open<'t>(
    rule: u32,
    items: &'t [GItem],
    kids: &'t [u64],
    tasks: &mut Vec<Task<'t>>,
) -> Result<(), Memory>
    ensures { OnOk result (IsOpened rule items.now kids.now tasks.old.items tasks.new.items) }
{
    tasks.push(Task { rule, items, kids })?;
    Ok(())
}

/// The name of a slot of a production, as bytes.
fn slot_bytes(two: &Two, rule: u32, slot: u32) -> &[u8]
    requires { HasSlot two.now rule slot }
    ensures { result.now ≡ slot_text two.now rule slot }
{
    two.slot_name(rule, slot).as_bytes()
}

/// Appends the name of a slot, with what stands around it.
fn push_slot(two: &Two, rule: u32, slot: u32, out: &mut Bytes) -> Result<(), Memory>
    requires { HasSlot two.now rule slot }
    ensures { OnOk result (out.new ≡ out.old ++ slot_begin two.now rule slot) }
{
    push_three(out, b" ", slot_bytes(two, rule, slot), b":")?;
    Ok(())
}

/// Appends what stands before the part of an item.
fn push_label(two: &Two, rule: u32, item: &GItem, out: &mut Bytes) -> Result<(), Memory>
    requires { IsNamed two.now rule item.now }
    ensures { OnOk result (out.new ≡ out.old ++ label_of two.now rule item.now) }
{
    match item {
        GItem::Fixed(_) => Ok(()),
        GItem::Term { slot, .. } | GItem::Non { slot, .. } => push_slot(two, rule, *slot, out),
        GItem::Skip { .. } => {
            out.extend(b" ~")?;
            Ok(())
        }
    }
}

/// Appends how a node of a production begins.
fn push_begin(rule: u32, out: &mut Bytes) -> Result<(), Memory>
    ensures { OnOk result (out.new ≡ out.old ++ (codes "(" ++ decimal (suc rule))) }
{
    out.push(b'(')?;
    push_decimal(out, u64::from(rule) + 1)?;
    Ok(())
}

/// Appends the word of a stretch of the document.
fn push_stretch(
    alloc: Global,
    two: &Two,
    doc: &Word,
    start: u32,
    end: u32,
    out: &mut Bytes,
) -> Result<(), Memory>
    requires start { start ≤ end }
    requires end { end ≤ length doc.now }
    ensures { OnOk result (out.new ≡ out.old ++ quoted two.now.names (slice_range doc.now start end)) }
{
    let stretch = &doc.as_slice()[start as usize..end as usize];
    let word = Word::of(alloc, stretch)?;
    push_quoted(alloc, out, two.names(), &word)?;
    Ok(())
}

/// Writes a part: of a node the beginning, and the node is open.
fn push_part<'t>(
    alloc: Global,
    two: &'t Two,
    doc: &Word,
    part: &'t SpeltPart,
    tasks: &mut Vec<Task<'t>>,
    out: &mut Bytes,
) -> Result<(), Memory>
    requires { CanWrite two.now doc.now (Some part.now) }
    ensures { OnOk result (IsWritten two.now doc.now (Some part.now) tasks.old.items out.old tasks.new.items out.new) }
{
    match part {
        SpeltPart::Node { production, kids } => {
            push_begin(*production, out)?;
            let items = two.gram(Side::Text).items(*production);
            open(*production, items, kids.as_slice(), tasks)
        }
        SpeltPart::Leaf { start, end } | SpeltPart::Skip { start, end } => {
            push_stretch(alloc, two, doc, *start, *end, out)
        }
    }
}

/// Writes the first kid of a node, which the item is of, after its label.
fn push_kid<'t>(
    alloc: Global,
    two: &'t Two,
    tree: &'t Spelt,
    doc: &Word,
    item: &GItem,
    rest: Task<'t>,
    tasks: &mut Vec<Task<'t>>,
    out: &mut Bytes,
) -> Result<(), Memory>
    requires { HasKid two.now doc.now tree.now rest.rule item.now rest.kids.now }
    ensures { OnOk result (IsKidWritten two.now doc.now tree.now rest.entry.rule item.now rest.entry.items.now rest.entry.kids.now tasks.old.items out.old tasks.new.items out.new) }
{
    let [kid, kids @ ..] = rest.kids else {
        unreachable!()
    };
    open(rest.rule, rest.items, kids, tasks)?;
    push_label(two, rest.rule, item, out)?;
    let part = tree.at(*kid as usize);
    push_part(alloc, two, doc, part, tasks, out)
}

/// Writes the next item of a node, or closes the node where no item is left.
fn perform<'t>(
    alloc: Global,
    two: &'t Two,
    tree: &'t Spelt,
    doc: &Word,
    task: Task<'t>,
    tasks: &mut Vec<Task<'t>>,
    out: &mut Bytes,
) -> Result<(), Memory>
    requires { CanDo two.now doc.now tree.now task.rule task.items.now task.kids.now }
    ensures { OnOk result (IsDone two.now doc.now tree.now task.entry.rule task.entry.items.now task.entry.kids.now tasks.old.items out.old tasks.new.items out.new) }
{
    let Task { rule, items, kids } = task;
    let [item, items @ ..] = items else {
        out.push(b')')?;
        return Ok(());
    };
    match item {
        GItem::Fixed(_) => open(rule, items, kids, tasks),
        GItem::Term { .. } | GItem::Non { .. } | GItem::Skip { .. } => {
            let rest = Task { rule, items, kids };
            push_kid(alloc, two, tree, doc, item, rest, tasks, out)
        }
    }
}

/// The line of a derivation that is written flat, with the line feed that ends it.
///
/// A node is its production, counted from 1, and its parts in round brackets: a named part after
/// the name of its slot, an ignorable after a tilde, words between quotes. In time linear in the
/// line and in the items of the nodes.
pub fn tree_line(alloc: Global, two: &Two, tree: &Spelt, doc: &Word) -> Result<Bytes, Memory>
    requires spelt { IsSpelt two.now doc.now tree.now }
    ensures { IfOk result (IsLineOf two.now doc.now tree.now) }
{
    two.see();
    let mut out = Bytes::new(alloc);
    let mut tasks = Vec::new(alloc);
    let root = tree.at(tree.len() - 1);
    push_part(alloc, two, doc, root, &mut tasks, &mut out)?;
    'tasks: while let Some(task) = tasks.pop() {
        perform(alloc, two, tree, doc, task, &mut tasks, &mut out)?;
    }
    out.push(b'\n')?;
    Ok(out)
}
