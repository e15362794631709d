ghost use Rattle.std.specs.Prelude.{◌≡◌, ◌+◌, ◌<◌, length, IfOk, OnOk};
ghost use Rattle.xs_forest.specs.Rows.{AreBelow, AreOnce};
ghost use Rattle.xs_gram.specs.{items};
ghost use Rattle.xs_pair.specs.{IsSoundPair};
ghost use Rattle.xs_tree.specs.{trees_of};
ghost use Rattle.xs_cover.specs.Kept.{AreTables, HaveRead, IsReadIn};
ghost use Rattle.xs_cover.specs.Prices.{AreKids};

use crate::Pick;
use crate::covers::Tables;
use crate::leaves::leaf_parts;
use std::alloc::Global;
use xs_class::{Memory, Side};
use xs_gram::{GItem, slot_count};
use xs_pair::Two;
use xs_tree::Builder;

/// Puts the numbers of trees at the slots of a rule's items, where the first trees are those of the
/// terminals, and the numbers of those of the nonterminals are given.
pub fn place_kids(two: &Two, rule: u32, numbers: &[u64], kids: &mut Vec<u64>) -> Result<(), Memory>
    requires sound { IsSoundPair two.now }
    requires rule { rule < length two.now.text.rules }
    requires numbers { length numbers.now ≡ two.now.text.nons }
    ensures { OnOk result (AreKids numbers.now (items two.now.text rule) kids.new.items) }
{
    let items = two.gram(Side::Text).items(rule);
    kids.resize(slot_count(items), 0)?;
    'items: for item in items {
        match item {
            GItem::Fixed(_) | GItem::Skip { .. } => (),
            GItem::Term { term, slot } => kids[*slot as usize] = *term as u64,
            GItem::Non { non, slot } => kids[*slot as usize] = numbers[*non as usize],
        }
    }
    Ok(())
}

/// Least trees of nonterminals: their parts, and the number of each nonterminal's.
#[derive(Drop)]
pub struct Trees {
    pub builder: Builder,
    pub numbers: Vec<u64>,
}

impl Trees {
    /// Adds the tree of a row, if the row is of a nonterminal.
    fn read(
        &mut self,
        two: &Two,
        tables: &Tables<'_>,
        at: u64,
        kids: &mut Vec<u64>,
    ) -> Result<(), Memory>
        requires sound { IsSoundPair two.now }
        requires tables { AreTables two.now tables.now }
        requires below { AreBelow tables.now.forest }
        requires once { AreOnce tables.now.forest }
        requires row { at < length tables.now.forest }
        requires read { IsReadIn two.now tables.now self.old at }
        ensures { OnOk result (IsReadIn two.now tables.now self.new (at + 1)) }
    {
        let row = tables.forest.row(at);
        match row.label {
            Pick::Front { .. } => Ok(()),
            Pick::Whole(non) => {
                let rule = row.alts[0].rule;
                place_kids(two, rule, &self.numbers, kids)?;
                let number = self.builder.node(rule, kids)?;
                self.numbers[non as usize] = number;
                Ok(())
            }
        }
    }

    /// The trees of the forest's rows.
    pub fn of(alloc: Global, two: &Two, tables: &Tables<'_>) -> Result<Trees, Memory>
        requires sound { IsSoundPair two.now }
        requires tables { AreTables two.now tables.now }
        ensures { IfOk result (λ t. HaveRead two.now tables.now t.numbers.items (trees_of t.builder)) }
    {
        let count = two.gram(Side::Text).nons() as usize;
        let mut trees = Trees {
            builder: leaf_parts(alloc, &tables.words)?,
            numbers: vec![in alloc; 0; count]?,
        };
        let mut kids = Vec::new(alloc);
        'rows: for at in 0..tables.forest.len() {
            trees.read(two, tables, at, &mut kids)?;
        }
        Ok(trees)
    }
}
