ghost use Rattle.std.specs.Prelude.{◌<◌, length, IfOk, IfSome, IfNone};
ghost use Rattle.xs_pair.specs.{IsSoundPair};
ghost use Rattle.xs_tree.specs.{common_of};
ghost use Rattle.xs_cover.specs.Kept.{AreCoversOf, IsShort};
ghost use Rattle.xs_cover.specs.Sizes.{IsLeastTree, IsTooLong};

use crate::Covers;
use crate::trees::{Trees, place_kids};
use xs_class::{Memory, Side};
use xs_pair::Two;
use xs_tree::Tree;

/// Trees of more symbols are not made.
const LONGEST: u64 = 4_096;

impl Covers<'_> {
    /// A smallest tree of a production, which has one that is not too long: a node of the
    /// production, and around it one for each step that leads there, up to the start.
    fn shown(&self, two: &Two, rule: u32) -> Result<Tree, Memory>
        requires sound { IsSoundPair two.now }
        requires covers { AreCoversOf two.now self.now }
        requires rule { rule < length two.now.text.rules }
        requires short { IsShort two.now.text two.now.xml rule }
        ensures { IfOk result (λ t. IsLeastTree two.now.text two.now.xml rule (common_of t)) }
    {
        let tables = &self.tables;
        let Trees {
            mut builder,
            numbers,
        } = Trees::of(self.alloc, two, tables)?;
        let mut kids = Vec::new(self.alloc);
        place_kids(two, rule, &numbers, &mut kids)?;
        let mut number = builder.node(rule, &kids)?;
        let mut place = tables.contexts.places[two.gram(Side::Text).non_of(rule) as usize];
        'steps: while place > 0 {
            let step = tables.contexts.steps[place as usize];
            place_kids(two, step.rule, &numbers, &mut kids)?;
            kids[step.slot as usize] = number;
            number = builder.node(step.rule, &kids)?;
            place = step.parent;
        }
        Ok(builder.finish(number))
    }

    /// A smallest tree that fits the start and uses the production, of the grammars that are
    /// covered.
    ///
    /// None exactly where there is no such tree, or where the smallest have more than 4,096 symbols
    /// on both sides together. In time linear in the grammars.
    pub fn tree(&self, two: &Two, rule: u32) -> Result<Option<Tree>, Memory>
        requires sound { IsSoundPair two.now }
        requires covers { AreCoversOf two.now self.now }
        requires rule { rule < length two.now.text.rules }
        ensures some { IfOk result (λ o. IfSome o (λ t. IsLeastTree two.now.text two.now.xml rule (common_of t))) }
        ensures none { IfOk result (λ o. IfNone o (IsTooLong two.now.text two.now.xml rule)) }
    {
        let Some(size) = self.size(rule) else {
            return Ok(None);
        };
        if size > LONGEST {
            return Ok(None);
        }
        let tree = self.shown(two, rule)?;
        Ok(Some(tree))
    }
}
