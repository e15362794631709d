ghost use Rattle.std.specs.Prelude.{◌≡◌, ◌<◌, Some, length, slice_get, IfOk};
ghost use Rattle.xs_gram.specs.Grammar.{Grammar};
ghost use Rattle.xs_pair.specs.{IsSoundPair};
ghost use Rattle.xs_cover.specs.Kept.{AreTables, AreCoversOf, sizes_of};
ghost use Rattle.xs_cover.specs.Sizes.{IsLeastSize};

use crate::Pick;
use crate::contexts::Contexts;
use crate::downwards::step_in_order;
use crate::leaves::Leaves;
use crate::picks::Picks;
use crate::prices::{MOST, Prices, number_at, sum_of};
use bumpalo::Bump;
use std::alloc::Global;
use xs_class::{Memory, Side, Word};
use xs_forest::Forest;
use xs_pair::Two;

/// For each production of a sheet the least size of a document pair that uses it, and what such
/// pairs are made of. The rows of its forest lie in an arena.
#[derive(Drop)]
pub struct Covers<'b> {
    pub(crate) alloc: Global,
    pub(crate) tables: Tables<'b>,
    pub(crate) sizes: Vec<Option<u64>>,
}

/// What terminals and nonterminals cost, the least words of terminals, the forest of the least trees
/// of nonterminals, and what stands around these.
#[derive(Drop)]
pub(crate) struct Tables<'b> {
    pub prices: Prices,
    pub words: Vec<Word>,
    pub forest: Forest<'b, Pick>,
    pub contexts: Contexts,
}

/// Costs that no rule and no step lowers.
fn tables_of<'b>(alloc: Global, bump: &'b Bump<Global>, two: &Two) -> Result<Tables<'b>, Memory>
    requires { IsSoundPair two.now }
    ensures { IfOk result (AreTables two.now) }
{
    let Leaves { words, costs } = Leaves::of(alloc, two)?;
    let Picks { prices, forest, .. } = Picks::of(alloc, bump, two, costs)?;
    let mut contexts = Contexts::new(alloc, two.gram(Side::Text), &prices)?;
    step_in_order(alloc, two, &prices, &mut contexts)?;
    contexts.settle(two, &prices)?;
    Ok(Tables {
        prices,
        words,
        forest,
        contexts,
    })
}

/// The least size of a tree that shows the production: what stands around its nonterminal, and what
/// the production costs.
fn size_of(two: &Two, tables: &Tables<'_>, rule: u32) -> Option<u64>
    requires sound { IsSoundPair two.now }
    requires complete { AreTables two.now tables.now }
    requires rule { rule < length two.now.text.rules }
    ensures { IsLeastSize two.now.text two.now.xml rule result }
{
    let non = two.gram(Side::Text).non_of(rule);
    let around = number_at(&tables.contexts.arounds, non);
    if around > MOST {
        return None;
    }
    Some(sum_of(around, tables.prices.rule_cost(two, rule)))
}

/// Smallest documents for each production of a sheet, over the arena.
///
/// What a nonterminal costs is the size of its least tree, by Knuth, A generalization of Dijkstra's
/// algorithm, 1977; what stands around a nonterminal, from the start on, is found by Dijkstra's
/// algorithm itself. In time n log n in the grammars.
pub fn cover<'b>(alloc: Global, bump: &'b Bump<Global>, two: &Two) -> Result<Covers<'b>, Memory>
    requires { IsSoundPair two.now }
    ensures { IfOk result (AreCoversOf two.now) }
{
    let tables = tables_of(alloc, bump, two)?;
    let count = two.gram(Side::Text).rules();
    let mut sizes = Vec::with_capacity(alloc, count as usize)?;
    'rules: for rule in 0..count {
        sizes.push(size_of(two, &tables, rule))?;
    }
    Ok(Covers {
        alloc,
        tables,
        sizes,
    })
}

impl Covers<'_> {
    /// The least size of a tree that fits the start and uses the production: the number of symbols
    /// of its words on both sides, at most 1,000,000,000. None where there is no such tree.
    pub fn size(&self, rule: u32) -> Option<u64>
        requires { rule < length (sizes_of self.now) }
        ensures { slice_get (sizes_of self.now) rule ≡ Some result }
    {
        self.sizes[rule as usize]
    }
}
