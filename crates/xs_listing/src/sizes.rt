ghost use Rattle.std.specs.Prelude.{◌≡◌, ℕ, ◌<◌, ◌≤◌, ◌++◌, ◌∷◌, [], length, All, IfOk, OnOk};
ghost use Rattle.xs_gram.specs.{items};
ghost use Rattle.xs_forest.specs.{IsEarlier};
ghost use Rattle.xs_forest_laws.specs.declared.span.What.TheVariants.{Front};
ghost use Rattle.xs_forest_laws.specs.{IsRight, Unfolding, read, count_of, At};
ghost use Rattle.xs_tree.specs.{capped};
ghost use Rattle.xs_listing.specs.Sizes.{spelt_count, word_count, size_at, last_count, IsSize, AreSizes};
ghost use Rattle.xs_listing.specs.Writing.{IsSource, HasChild, CanDo, work_left};
ghost use Rattle.xs_listing.specs.Owed.{IsCountedOff};

use crate::rows::{alts_at, label_at};
use crate::write::{Source, Task, first_tasks, visit};
use std::alloc::Global;
use xs_class::{Memory, Word};
use xs_forest::{Alt, Forest};
use xs_forest_laws::{SpanKey, What};
use xs_gram::{GItem, Gram};

/// How many parts an item's word is.
fn word_size(item: &GItem) -> u64
    ensures { result ≡ word_count item.now }
{
    match item {
        GItem::Fixed(_) | GItem::Non { .. } => 0,
        GItem::Term { .. } | GItem::Skip { .. } => 1,
    }
}

/// How many parts a child's unfolding by first alternatives has.
fn child_size(sizes: &[u64], child: Option<u64>) -> u64
    requires { IsEarlier child (length sizes.now) }
    ensures { result ≡ size_at sizes.now child }
{
    match child {
        None => 0,
        Some(row) => sizes[row as usize],
    }
}

/// How many parts come after those of the left child.
fn last_size(g: &Gram, sizes: &[u64], what: What, alt: Alt) -> u64
    requires right { IsEarlier alt.right (length sizes.now) }
    requires dotted { (p d : ℕ) → what ≡ Front p d → (0 < d) × (d ≤ length (items g.now p)) }
    ensures { result ≡ last_count g.now sizes.now what alt }
{
    match what {
        What::Whole(_) => 1,
        What::Front { rule, dot } => match alt.right {
            Some(_) => child_size(sizes, alt.right),
            None => word_size(&g.items(rule)[dot as usize - 1]),
        },
    }
}

/// How many parts the unfolding of a row by first alternatives has, by the sizes of the rows before
/// it.
fn row_size(g: &Gram, doc: &Word, forest: &Forest<'_, SpanKey>, sizes: &[u64], row: u64) -> u64
    requires right { IsRight g.now doc.now forest.now }
    requires there { row < length forest.now }
    requires before { row ≤ length sizes.now }
    requires sizes { AreSizes g.now doc.now forest.now sizes.now }
    ensures { IsSize g.now doc.now forest.now row result }
{
    match alts_at(forest, row).first() {
        None => 0,
        Some(alt) => {
            let left = child_size(sizes, alt.left);
            let last = last_size(g, sizes, label_at(forest, row).what, *alt);
            left.saturating_add(last)
        }
    }
}

/// How many parts the unfolding of each row by first alternatives has, at most 2^64 less 1, in time
/// linear in the rows.
pub(crate) fn first_sizes(
    alloc: Global,
    g: &Gram,
    doc: &Word,
    forest: &Forest<'_, SpanKey>,
) -> Result<Vec<u64>, Memory>
    requires { IsRight g.now doc.now forest.now }
    ensures long { IfOk result (λ sizes. length sizes.items ≡ length forest.now) }
    ensures sizes { IfOk result (λ sizes. AreSizes g.now doc.now forest.now sizes.items) }
{
    let rows = forest.len();
    let mut sizes = Vec::with_capacity(alloc, rows as usize)?;
    'rows: for row in 0..rows {
        let size = row_size(g, doc, forest, &sizes, row);
        sizes.push(size)?;
    }
    Ok(sizes)
}

/// How many parts a task writes at once; what it leaves to be counted goes to the tasks.
fn count_task(
    source: &Source<'_, '_>,
    sizes: &[u64],
    task: Task,
    tasks: &mut Vec<Task>,
) -> Result<u64, Memory>
    requires source { IsSource source.now }
    requires sized { length sizes.now ≡ length source.now.forest.now }
    requires sizes { AreSizes source.now.g.now source.now.doc.now source.now.forest.now sizes.now }
    requires can { CanDo source.now task 0 }
    requires all { All (λ t. CanDo source.now t 0) tasks.old.items }
    ensures can { OnOk result (All (λ t. CanDo source.now t 0) tasks.new.items) }
    ensures counted { IfOk result (IsCountedOff source.now task tasks.old.items tasks.new.items) }
    ensures less { OnOk result (work_left tasks.new.items < work_left (tasks.old.items ++ task ∷ [])) }
{
    match task {
        Task::Visit { row, number: 0 } => Ok(sizes[row as usize]),
        Task::Visit { row, number } => {
            visit(source, row, number, 0, tasks)?;
            Ok(0)
        }
        Task::Word { rule, dot, .. } => Ok(word_size(&source.g.items(rule)[dot as usize])),
        Task::Close { .. } => Ok(1),
    }
}

/// How many parts an unfolding of a child has by its number, at most 2^64 less 1. Unfoldings by
/// first alternatives, whose sizes are given, are not walked through, so that the time is linear in the rows.
pub(crate) fn size_of(
    alloc: Global,
    source: &Source<'_, '_>,
    sizes: &[u64],
    child: Option<u64>,
    number: u64,
) -> Result<u64, Memory>
    requires source { IsSource source.now }
    requires sized { length sizes.now ≡ length source.now.forest.now }
    requires sizes { AreSizes source.now.g.now source.now.doc.now source.now.forest.now sizes.now }
    requires child { HasChild source.now child }
    requires within { number < count_of source.now.counts.now child }
    ensures { IfOk result (λ size. (u : Unfolding) → At source.now.forest.now source.now.cap source.now.counts.now child number u → size ≡ capped (spelt_count (read source.now.g.now source.now.doc.now source.now.forest.now child u))) }
{
    let mut size: u64 = 0;
    let mut tasks = first_tasks(alloc, child, number)?;
    'tasks: while let Some(task) = tasks.pop() {
        size = size.saturating_add(count_task(source, sizes, task, &mut tasks)?);
    }
    Ok(size)
}
