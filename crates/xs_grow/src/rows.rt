ghost use Rattle.std.specs.Prelude.{◌≡◌, ◌<◌, ◌++◌, ◌∷◌, [], ℕ, zero, suc, true, None, Some, length, Contains, IfOk, OnOk, MatchOption};
ghost use Rattle.xs_forest.specs.{HasLabel};
ghost use Rattle.xs_forest_laws.specs.{IsRow, item_of, IsGrown};
ghost use Rattle.xs_grow.specs.Making.{stands_at, IsSource, IsLabel, IsNumberOf, AreNumbersOf, IsRowOf, front_label, item_label, IsMade, AreMade, Misses, HasNoRow, IsVisited};

use crate::numbers::numbers_of;
use crate::source::Source;
use xs_class::Memory;
use xs_forest::{AddFault, Alt, Forest};
use xs_forest_laws::{SpanKey, What};
use xs_gram::{GItem, Gram};

/// The row of a label, if there is one, which is missing where it has no row.
#[inline(always)]
fn child(
    source: &Source<'_>,
    forest: &Forest<'_, SpanKey>,
    label: Option<SpanKey>,
    missing: &mut Vec<SpanKey>,
) -> Result<Option<u64>, Memory>
    requires { MatchOption label (Unit {0}) (IsLabel source.now.g.now source.now.doc.now) }
    ensures { IfOk result (λ row. Misses source.now.g.now source.now.doc.now forest.now (IsRowOf forest.now label row) missing.old.items missing.new.items) }
{
    let Some(key) = label else {
        return Ok(None);
    };
    match forest.find(key) {
        Some(row) => Ok(Some(row)),
        None => {
            missing.push(key)?;
            Ok(None)
        }
    }
}

/// The label of the first `dot` items of a rule over a stretch, none where there are none.
fn front_label(rule: u32, dot: u32, start: u32, end: u32) -> Option<SpanKey>
    ensures { result ≡ front_label rule dot start end }
{
    if dot == 0 {
        return None;
    }
    Some(SpanKey {
        what: What::Front { rule, dot },
        start,
        end,
    })
}

/// The label of an item over a stretch, none where it is no nonterminal.
fn item_label(item: &GItem, start: u32, end: u32) -> Option<SpanKey>
    ensures { result ≡ item_label item.now start end }
{
    match item {
        GItem::Fixed(_) | GItem::Term { .. } | GItem::Skip { .. } => None,
        GItem::Non { non, .. } => Some(SpanKey {
            what: What::Whole(*non),
            start,
            end,
        }),
    }
}

/// The alternative that a number of the label stands for, with the rows of its children; labels of
/// children that have no row go to those that are missing.
fn alternative(
    source: &Source<'_>,
    forest: &Forest<'_, SpanKey>,
    key: SpanKey,
    number: u32,
    missing: &mut Vec<SpanKey>,
) -> Result<Alt, Memory>
    requires source { IsSource source.now }
    requires number { IsNumberOf source.now.g.now source.now.doc.now (stands_at source.now.g.now source.now.doc.now) key.what key.start key.end number }
    ensures { IfOk result (λ alt. Misses source.now.g.now source.now.doc.now forest.now (IsMade source.now.g.now forest.now key.what key.start key.end number alt) missing.old.items missing.new.items) }
{
    match key.what {
        What::Whole(_) => {
            let dot = source.g.items(number).len() as u32;
            let label = front_label(number, dot, key.start, key.end);
            let left = child(source, forest, label, missing)?;
            Ok(Alt {
                rule: number,
                left,
                right: None,
            })
        }
        What::Front { rule, dot } => {
            let before = dot - 1;
            let item = &source.g.items(rule)[before as usize];
            let front = front_label(rule, before, key.start, number);
            let left = child(source, forest, front, missing)?;
            let last = item_label(item, number, key.end);
            let right = child(source, forest, last, missing)?;
            Ok(Alt { rule, left, right })
        }
    }
}

/// Puts the alternatives that the numbers of the label stand for in place of others.
fn alternatives(
    source: &Source<'_>,
    forest: &Forest<'_, SpanKey>,
    key: SpanKey,
    numbers: &[u32],
    alts: &mut Vec<Alt>,
    missing: &mut Vec<SpanKey>,
) -> Result<(), Memory>
    requires source { IsSource source.now }
    requires numbers { AreNumbersOf source.now.g.now source.now.doc.now key numbers.now }
    ensures { OnOk result (Misses source.now.g.now source.now.doc.now forest.now (AreMade source.now.g.now forest.now key numbers.now alts.new.items) missing.old.items missing.new.items) }
{
    alts.clear();
    'numbers: for number in numbers {
        let alt = alternative(source, forest, key, *number, missing)?;
        alts.push(alt)?;
    }
    Ok(())
}

/// Adds the row of a label that has none, by its numbers and the alternatives that they stand for.
fn add(
    source: &Source<'_>,
    forest: &mut Forest<'_, SpanKey>,
    key: SpanKey,
    numbers: &[u32],
    alts: &[Alt],
) -> Result<u64, Memory>
    requires source { IsSource source.now }
    requires grown { IsGrown source.now.g.now source.now.doc.now (stands_at source.now.g.now source.now.doc.now) forest.old }
    requires label { IsLabel source.now.g.now source.now.doc.now key }
    requires rowless { HasNoRow forest.old key }
    requires numbers { AreNumbersOf source.now.g.now source.now.doc.now key numbers.now }
    requires made { AreMade source.now.g.now forest.old key numbers.now alts.now }
    ensures grown { OnOk result (IsGrown source.now.g.now source.now.doc.now (stands_at source.now.g.now source.now.doc.now) forest.new) }
    ensures row { IfOk result (λ row. IsRow forest.new row key.what key.start key.end) }
    ensures last { IfOk result (λ row. row ≡ length forest.old) }
{
    match forest.add_row(key, alts) {
        Ok(row) => Ok(row),
        Err(AddFault::Repeated { .. }) => unreachable!(),
        Err(AddFault::Memory) => Err(Memory),
    }
}

/// Two buffers of one row's making, used for all.
#[derive(Drop)]
pub(crate) struct Buffers {
    pub numbers: Vec<u32>,
    pub alts: Vec<Alt>,
}

/// The row of a label, which is made if its children have rows; where some have none it is no row,
/// and their labels go to those that are missing. A new label has no row, so none is looked for.
pub(crate) fn visit(
    source: &Source<'_>,
    forest: &mut Forest<'_, SpanKey>,
    key: SpanKey,
    is_new: bool,
    buffers: &mut Buffers,
    missing: &mut Vec<SpanKey>,
) -> Result<Option<u64>, Memory>
    requires source { IsSource source.now }
    requires grown { IsGrown source.now.g.now source.now.doc.now (stands_at source.now.g.now source.now.doc.now) forest.old }
    requires label { IsLabel source.now.g.now source.now.doc.now key }
    requires rowless { is_new ≡ true → HasNoRow forest.old key }
    ensures grown { OnOk result (IsGrown source.now.g.now source.now.doc.now (stands_at source.now.g.now source.now.doc.now) forest.new) }
    ensures visited { IfOk result (IsVisited source.now.g.now source.now.doc.now key is_new forest.old forest.new missing.old.items missing.new.items) }
{
    if !is_new {
        if let Some(row) = forest.find(key) {
            return Ok(Some(row));
        }
    }
    numbers_of(source, key, &mut buffers.numbers)?;
    let before = missing.len();
    alternatives(
        source,
        forest,
        key,
        &buffers.numbers,
        &mut buffers.alts,
        missing,
    )?;
    if missing.len() > before {
        return Ok(None);
    }
    let row = add(source, forest, key, &buffers.numbers, &buffers.alts)?;
    Ok(Some(row))
}
