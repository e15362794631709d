ghost use Rattle.std.specs.Prelude.{◌≡◌, ℕ, ◌<◌, ◌≤◌, ◌++◌, length, take, drop, IfOk, OnOk};
ghost use Rattle.xs_forest_laws.specs.declared.span.What.TheVariants.{Front};
ghost use Rattle.xs_listing.specs.declared.spelt.SpeltPart.TheVariants.{Node};
ghost use Rattle.xs_forest.specs.{IsEarlier};
ghost use Rattle.xs_forest_laws.specs.{Unfolding, read, count_of, At};
ghost use Rattle.xs_listing.specs.Writing.{child_task, last_task, IsVisited, Added, IsWordWritten, IsDone, AreWritten, IsSource, HasChild, CanVisit, CanDo};

use crate::count::{Chosen, choose};
use crate::rows::{alts_at, end_of, label_at};
use crate::{Kids, SpeltPart};
use std::alloc::Global;
use xs_class::{Memory, Word};
use xs_forest::Forest;
use xs_forest_laws::{SpanKey, What};
use xs_gram::{GItem, Gram};

/// The forest of a document, with the number of unfoldings of each row up to a cap.
#[derive(Drop)]
pub(crate) struct Source<'s, 'b> {
    pub g: &'s Gram,
    pub doc: &'s Word,
    pub forest: &'s Forest<'b, SpanKey>,
    pub counts: &'s [u64],
    pub cap: u64,
}

/// What is still to be written of a derivation.
#[derive(Clone, Copy)]
pub(crate) enum Task {
    /// An unfolding of a row, by its number.
    Visit {
        row: u64,
        number: u64,
    },
    /// An item of a rule whose word is a stretch of the document.
    Word {
        rule: u32,
        dot: u32,
        start: u32,
        end: u32,
    },
    /// A node of a rule whose kids are all places from this one on.
    Close {
        rule: u32,
        from: u64,
    },
}

/// The parts that are written, and the places of those that are no kids yet.
#[derive(Drop)]
pub(crate) struct Written {
    pub parts: Vec<SpeltPart>,
    pub places: Vec<u64>,
}

/// A new last part, which is no kid yet.
#[inline(always)]
fn add(written: &mut Written, part: SpeltPart) -> Result<(), Memory>
    ensures { OnOk result (Added written.old.parts.items written.old.places.items part written.new.parts.items written.new.places.items) }
{
    let place = written.parts.len() as u64;
    written.parts.push(part)?;
    written.places.push(place)?;
    Ok(())
}

/// Writes the word of an item.
fn write_word(item: &GItem, start: u32, end: u32, written: &mut Written) -> Result<(), Memory>
    ensures { OnOk result (IsWordWritten item.now start end written.old.parts.items written.old.places.items written.new.parts.items written.new.places.items) }
{
    match item {
        GItem::Fixed(_) | GItem::Non { .. } => Ok(()),
        GItem::Term { .. } => add(written, SpeltPart::Leaf { start, end }),
        GItem::Skip { .. } => add(written, SpeltPart::Skip { start, end }),
    }
}

/// Writes a node of a rule whose kids are all places from one on.
fn write_node(alloc: Global, rule: u32, from: u64, written: &mut Written) -> Result<(), Memory>
    requires { from ≤ length written.old.places.items }
    ensures { OnOk result (Added written.old.parts.items (take from written.old.places.items) (Node rule (drop from written.old.places.items)) written.new.parts.items written.new.places.items) }
{
    let kids = Kids::of(alloc, &written.places[from as usize..])?;
    written.places.truncate(from as usize);
    add(
        written,
        SpeltPart::Node {
            production: rule,
            kids,
        },
    )
}

/// An unfolding of a child is to be written next.
fn push_child(child: Option<u64>, number: u64, tasks: &mut Vec<Task>) -> Result<(), Memory>
    ensures { OnOk result (tasks.new.items ≡ tasks.old.items ++ child_task child number) }
{
    match child {
        None => Ok(()),
        Some(row) => {
            tasks.push(Task::Visit { row, number })?;
            Ok(())
        }
    }
}

/// An unfolding of a child is all that is to be written.
pub(crate) fn first_tasks(
    alloc: Global,
    child: Option<u64>,
    number: u64,
) -> Result<Vec<Task>, Memory>
    ensures { IfOk result (λ tasks. tasks.items ≡ child_task child number) }
{
    let mut tasks = Vec::new(alloc);
    push_child(child, number, &mut tasks)?;
    Ok(tasks)
}

/// What is to be written after the left child.
fn task_after(forest: &Forest<'_, SpanKey>, label: SpanKey, chosen: Chosen, from: u64) -> Task
    requires left { IsEarlier chosen.alt.left (length forest.now) }
    requires dotted { (p d : ℕ) → label.what ≡ Front p d → 0 < d }
    ensures { result ≡ last_task forest.now label.what label chosen from }
{
    match label.what {
        What::Whole(_) => Task::Close {
            rule: chosen.alt.rule,
            from,
        },
        What::Front { rule, dot } => match chosen.alt.right {
            Some(row) => Task::Visit {
                row,
                number: chosen.right,
            },
            None => Task::Word {
                rule,
                dot: dot - 1,
                start: end_of(forest, label.start, chosen.alt.left),
                end: label.end,
            },
        },
    }
}

/// An unfolding of a row is taken apart.
#[inline(always)]
pub(crate) fn visit(
    source: &Source<'_, '_>,
    row: u64,
    number: u64,
    from: u64,
    tasks: &mut Vec<Task>,
) -> Result<(), Memory>
    requires source { IsSource source.now }
    requires visit { CanVisit source.now row number }
    ensures { OnOk result (IsVisited source.now.forest.now source.now.cap source.now.counts.now row number from tasks.old.items tasks.new.items) }
{
    let alts = alts_at(source.forest, row);
    let label = label_at(source.forest, row);
    let chosen = choose(source.counts, alts, source.cap, number);
    tasks.push(task_after(source.forest, label, chosen, from))?;
    push_child(chosen.alt.left, chosen.left, tasks)?;
    Ok(())
}

/// One task is done.
fn perform(
    alloc: Global,
    source: &Source<'_, '_>,
    task: Task,
    tasks: &mut Vec<Task>,
    written: &mut Written,
) -> Result<(), Memory>
    requires source { IsSource source.now }
    requires can { CanDo source.now task (length written.old.places.items) }
    ensures { OnOk result (IsDone source.now.g.now source.now.forest.now source.now.cap source.now.counts.now task tasks.old.items written.old.parts.items written.old.places.items tasks.new.items written.new.parts.items written.new.places.items) }
{
    match task {
        Task::Visit { row, number } => {
            let from = written.places.len() as u64;
            visit(source, row, number, from, tasks)
        }
        Task::Word {
            rule,
            dot,
            start,
            end,
        } => {
            let item = &source.g.items(rule)[dot as usize];
            write_word(item, start, end, written)
        }
        Task::Close { rule, from } => write_node(alloc, rule, from, written),
    }
}

/// The parts of a front's unfolding, by its number, with room for that many and the node that they
/// are under, in time linear in the parts and the rows that it has.
pub(crate) fn write_front(
    alloc: Global,
    source: &Source<'_, '_>,
    front: Option<u64>,
    number: u64,
    room: u64,
) -> Result<Written, Memory>
    requires source { IsSource source.now }
    requires front { HasChild source.now front }
    requires within { number < count_of source.now.counts.now front }
    ensures { IfOk result (λ written. (u : Unfolding) → At source.now.forest.now source.now.cap source.now.counts.now front number u → AreWritten source.now.doc.now (read source.now.g.now source.now.doc.now source.now.forest.now front u) written.parts.items written.places.items) }
{
    let parts = Vec::with_capacity(alloc, (room as usize).saturating_add(1))?;
    let mut written = Written {
        parts,
        places: Vec::new(alloc),
    };
    let mut tasks = first_tasks(alloc, front, number)?;
    'tasks: while let Some(task) = tasks.pop() {
        perform(alloc, source, task, &mut tasks, &mut written)?;
    }
    Ok(written)
}
