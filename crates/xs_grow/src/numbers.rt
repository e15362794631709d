ghost use Rattle.std.specs.Prelude.{◌≡◌, List, ℕ, length, OnOk, MatchOption};
ghost use Rattle.xs_gram.specs.declared.parts.GItem.TheVariants.{Fixed};
ghost use Rattle.xs_forest_laws.specs.declared.span.What.TheVariants.{Front};
ghost use Rattle.xs_grow.specs.Candidates.{IsSearched};
ghost use Rattle.xs_grow.specs.Making.{IsSource, IsLabel, AreNumbersOf};

use crate::source::Source;
use xs_class::Memory;
use xs_forest_laws::{SpanKey, What};
use xs_gram::GItem;

/// How long a fixed word is.
fn fixed_length(item: &GItem) -> Option<usize>
    ensures { MatchOption result (IsSearched item.now) (λ n. (v : List ℕ) × (item.now ≡ Fixed v) × (n ≡ length v)) }
{
    match item {
        GItem::Fixed(word) => Some(word.len()),
        GItem::Term { .. } | GItem::Skip { .. } | GItem::Non { .. } => None,
    }
}

/// Puts the places where the last of first items may begin in place of other numbers: where there
/// is but one item it begins where the stretch does, and a fixed word as far before the end as it is
/// long.
fn splits_of(
    source: &Source<'_>,
    key: SpanKey,
    rule: u32,
    dot: u32,
    numbers: &mut Vec<u32>,
) -> Result<(), Memory>
    requires source { IsSource source.now }
    requires label { IsLabel source.now.g.now source.now.doc.now key }
    requires front { key.what ≡ Front rule dot }
    ensures { OnOk result (AreNumbersOf source.now.g.now source.now.doc.now key numbers.new.items) }
{
    numbers.clear();
    if dot == 1 {
        numbers.push(key.start)?;
        return Ok(());
    }
    let item = &source.g.items(rule)[dot as usize - 1];
    match fixed_length(item) {
        Some(length) => {
            numbers.push((key.end as usize - length) as u32)?;
            Ok(())
        }
        None => {
            source.splits.numbers(key, numbers)?;
            Ok(())
        }
    }
}

/// Puts the numbers that stand for the alternatives of a label in place of others, in time linear
/// in them.
pub(crate) fn numbers_of(
    source: &Source<'_>,
    key: SpanKey,
    numbers: &mut Vec<u32>,
) -> Result<(), Memory>
    requires source { IsSource source.now }
    requires label { IsLabel source.now.g.now source.now.doc.now key }
    ensures { OnOk result (AreNumbersOf source.now.g.now source.now.doc.now key numbers.new.items) }
{
    match key.what {
        What::Whole(_) => {
            numbers.clear();
            source.wholes.numbers(key, numbers)?;
            Ok(())
        }
        What::Front { rule, dot } => splits_of(source, key, rule, dot, numbers),
    }
}
