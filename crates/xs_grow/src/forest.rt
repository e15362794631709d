ghost use Rattle.std.specs.Prelude.{◌≡◌, ◌<◌, ◌+◌, ◌-◌, length, take, IfOk, OnOk};
ghost use Rattle.xs_chart.specs.{set_limit};
ghost use Rattle.xs_gram.specs.{IsBuilt, IsSound, InLang};
ghost use Rattle.xs_chart_laws.specs.{HasPlace, IsChartOf};
ghost use Rattle.xs_forest_laws.specs.{IsRow, IsGrown, IsForestOf, IsExact};
ghost use Rattle.xs_grow.specs.Lists.{HasAllOf};
ghost use Rattle.xs_grow.specs.Candidates.{WholeCandidate, FrontCandidate};
ghost use Rattle.xs_grow.specs.Making.{stands_at, IsSource, IsLabel};

use crate::calls::{calls_of, marks_of};
use crate::gather::{fronts, has_later, wholes};
use crate::rows::{Buffers, visit};
use crate::sorted::Sorted;
use crate::source::Source;
use bumpalo::Bump;
use std::alloc::Global;
use xs_chart::Chart;
use xs_class::{Memory, Word};
use xs_forest::Forest;
use xs_forest_laws::{Grown, SpanKey, What};
use xs_gram::Gram;

/// The marks of the rules that are finished in a document's chart.
fn wholes_of(
    alloc: Global,
    g: &Gram,
    chart: &Chart,
    doc: &Word,
) -> Result<Vec<(SpanKey, u32)>, Memory>
    requires built { IsBuilt g.now }
    requires chart { IsChartOf g.now doc.now chart.now.sets }
    ensures { IfOk result (λ marks. HasAllOf (WholeCandidate g.now (stands_at g.now doc.now)) marks.items) }
{
    let mut marks = Vec::new(alloc);
    wholes(g, chart, &mut marks)?;
    Ok(marks)
}

/// The marks of two or more first items of which the last is no fixed word. The chart is not read
/// for them where no rule has such items.
fn splits_of(
    alloc: Global,
    g: &Gram,
    chart: &Chart,
    doc: &Word,
    wholes: &[(SpanKey, u32)],
) -> Result<Vec<(SpanKey, u32)>, Memory>
    requires built { IsBuilt g.now }
    requires chart { IsChartOf g.now doc.now chart.now.sets }
    requires short { length doc.now < set_limit }
    requires wholes { HasAllOf (WholeCandidate g.now (stands_at g.now doc.now)) wholes.now }
    ensures { IfOk result (λ marks. HasAllOf (FrontCandidate g.now doc.now (stands_at g.now doc.now)) marks.items) }
{
    if !has_later(g) {
        return Ok(Vec::new(alloc));
    }
    let found = marks_of(alloc, wholes)?;
    let calls = calls_of(alloc, &found)?;
    let mut marks = Vec::new(alloc);
    fronts(alloc, g, chart, doc, &calls, &mut marks)?;
    Ok(marks)
}

/// Takes the last label off the stack, and gives back memory that a much longer stack had.
fn pop(stack: &mut Vec<SpanKey>)
    requires { 0 < length stack.old.items }
    ensures items { stack.new.items ≡ take (length stack.old.items - 1) stack.old.items }
    ensures long { length stack.new.items + 1 ≡ length stack.old.items }
{
    stack.truncate(stack.len() - 1);
    if stack.len() < stack.capacity() / 4 {
        stack.shrink_to(stack.len() * 2);
    }
}

/// Makes the row of the root and those that it needs, each after its children. The answer is the
/// number of the root's row.
///
/// A label is looked at when it comes last on the stack, and left there until its children have
/// rows. Just after it was put there as a child that is missing, no row is looked for.
fn grow_rows(
    alloc: Global,
    source: &Source<'_>,
    forest: &mut Forest<'_, SpanKey>,
    root: SpanKey,
) -> Result<u64, Memory>
    requires source { IsSource source.now }
    requires grown { IsGrown source.now.g.now source.now.doc.now (stands_at source.now.g.now source.now.doc.now) forest.old }
    requires root { IsLabel source.now.g.now source.now.doc.now root }
    ensures grown { OnOk result (IsGrown source.now.g.now source.now.doc.now (stands_at source.now.g.now source.now.doc.now) forest.new) }
    ensures row { IfOk result (λ row. IsRow forest.new row root.what root.start root.end) }
{
    let mut buffers = Buffers {
        numbers: Vec::new(alloc),
        alts: Vec::new(alloc),
    };
    let mut stack = Vec::new(alloc);
    stack.push(root)?;
    let mut is_new = false;
    'labels: loop {
        let key = stack[stack.len() - 1];
        let row = visit(source, forest, key, is_new, &mut buffers, &mut stack)?;
        is_new = row.is_none();
        if let Some(row) = row {
            pop(&mut stack);
            if stack.is_empty() {
                return Ok(row);
            }
        }
    }
}

/// What is read from a chart for a forest: the marks of which rows are made.
#[derive(Drop)]
struct Found {
    wholes: Sorted,
    splits: Sorted,
}

/// Reads the chart of a document.
fn find(alloc: Global, g: &Gram, chart: &Chart, doc: &Word) -> Result<Found, Memory>
    requires built { IsBuilt g.now }
    requires chart { IsChartOf g.now doc.now chart.now.sets }
    requires short { length doc.now < set_limit }
    ensures wholes { IfOk result (λ found. HasAllOf (WholeCandidate g.now (stands_at g.now doc.now)) found.wholes) }
    ensures splits { IfOk result (λ found. HasAllOf (FrontCandidate g.now doc.now (stands_at g.now doc.now)) found.splits) }
{
    let wholes = wholes_of(alloc, g, chart, doc)?;
    let splits = splits_of(alloc, g, chart, doc, &wholes)?;
    let wholes = Sorted::of(alloc, wholes)?;
    let splits = Sorted::of(alloc, splits)?;
    Ok(Found { wholes, splits })
}

/// The forest of a document by what was read from its chart.
fn grow_found<'b>(
    alloc: Global,
    bump: &'b Bump<Global>,
    g: &Gram,
    doc: &Word,
    found: &Found,
) -> Result<Grown<'b>, Memory>
    requires sound { IsSound g.now }
    requires in_language { InLang g.now doc.now }
    requires short { length doc.now < set_limit }
    requires wholes { HasAllOf (WholeCandidate g.now (stands_at g.now doc.now)) found.now.wholes }
    requires splits { HasAllOf (FrontCandidate g.now doc.now (stands_at g.now doc.now)) found.now.splits }
    ensures forest { IfOk result (λ grown. IsForestOf g.now doc.now grown.forest grown.root) }
    ensures exact { IfOk result (λ grown. IsExact g.now doc.now grown.forest grown.root) }
{
    let source = Source {
        g,
        doc,
        wholes: &found.wholes,
        splits: &found.splits,
    };
    let key = SpanKey {
        what: What::Whole(g.start()),
        start: 0,
        end: doc.len() as u32,
    };
    // A rule that is finished has a row of first items beside its own, unless it is empty.
    let rows = found.wholes.len().saturating_mul(2);
    let mut forest = Forest::with_capacity(alloc, bump, rows)?;
    let root = grow_rows(alloc, &source, &mut forest, key)?;
    Ok(Grown { forest, root })
}

/// The forest of a document of the grammar, from the document's chart, with its root: the
/// unfoldings of the root are exactly the derivations of the document, each once.
///
/// There is a row for each label that the root needs and no other: for the nonterminals over
/// stretches of the document with an alternative for each rule that is finished there, and for first
/// items of a rule over a stretch with one for each place where the last of them may begin. Rows
/// stand after those of their children, and places are counted from 0. The alternatives lie in the
/// arena. The sets of the chart may have their items in any order. The time is linear in the chart,
/// in the places where each item before a nonterminal, a terminal or an ignorable may end that is
/// not the first of its rule, by the steps of automata, and in the alternatives, but for the sorting
/// of what was found, n log n at most.
pub fn grow<'b>(
    alloc: Global,
    bump: &'b Bump<Global>,
    g: &Gram,
    chart: &Chart,
    doc: &Word,
) -> Result<Grown<'b>, Memory>
    requires sound { IsSound g.now }
    requires in_language { InLang g.now doc.now }
    requires chart { IsChartOf g.now doc.now chart.now.sets }
    requires short { length doc.now < set_limit }
    ensures forest { IfOk result (λ grown. IsForestOf g.now doc.now grown.forest grown.root) }
    ensures exact { IfOk result (λ grown. IsExact g.now doc.now grown.forest grown.root) }
{
    let found = find(alloc, g, chart, doc)?;
    let grown = grow_found(alloc, bump, g, doc, &found)?;
    Ok(grown)
}

/// The same forest, from a chart that nobody needs after it: its memory is given back before rows are
/// made.
pub fn grow_last<'b>(
    alloc: Global,
    bump: &'b Bump<Global>,
    g: &Gram,
    chart: Chart,
    doc: &Word,
) -> Result<Grown<'b>, Memory>
    requires sound { IsSound g.now }
    requires in_language { InLang g.now doc.now }
    requires chart { IsChartOf g.now doc.now chart.sets }
    requires short { length doc.now < set_limit }
    ensures forest { IfOk result (λ grown. IsForestOf g.now doc.now grown.forest grown.root) }
    ensures exact { IfOk result (λ grown. IsExact g.now doc.now grown.forest grown.root) }
{
    let found = find(alloc, g, &chart, doc)?;
    drop(chart);
    let grown = grow_found(alloc, bump, g, doc, &found)?;
    Ok(grown)
}
