ghost use Rattle.std.specs.Prelude.{◌≡◌, ◌+◌, ◌≤◌, length, map, IfOk};
ghost use Rattle.xs_gram.specs.Common.{word};
ghost use Rattle.xs_pair.specs.{IsSoundPair};
ghost use Rattle.xs_tree.specs.{trees_of};
ghost use Rattle.xs_cover.specs.Leaves.{AreLeaves};

use crate::words::least_word;
use std::alloc::Global;
use xs_class::{Memory, Side, Word};
use xs_pair::Two;
use xs_tree::Builder;

/// Least words of terminals, and what terminals cost.
#[derive(Drop)]
pub struct Leaves {
    pub words: Vec<Word>,
    pub costs: Vec<u64>,
}

/// What a leaf costs: its word stands once on each side.
fn term_cost(word: &Word) -> u64
    requires { length word.now ≤ 512 }
    ensures { result ≡ length word.now + length word.now }
{
    let length = word.len() as u64;
    length + length
}

impl Leaves {
    /// A least word of each terminal.
    pub fn of(alloc: Global, two: &Two) -> Result<Leaves, Memory>
        requires { IsSoundPair two.now }
        ensures { IfOk result (λ l. AreLeaves two.now.text l.words.items l.costs.items) }
    {
        let g = two.gram(Side::Text);
        let mut words = Vec::with_capacity(alloc, g.terms() as usize)?;
        let mut costs = Vec::with_capacity(alloc, g.terms() as usize)?;
        'terms: for term in 0..g.terms() {
            let word = least_word(alloc, g.term(term))?;
            costs.push(term_cost(&word))?;
            words.push(word)?;
        }
        Ok(Leaves { words, costs })
    }
}

/// Leaves with these words, the first parts of a tree.
pub fn leaf_parts(alloc: Global, words: &[Word]) -> Result<Builder, Memory>
    ensures { IfOk result (λ builder. trees_of builder ≡ map word words.now) }
{
    let mut builder = Builder::new(alloc)?;
    'words: for word in words {
        builder.leaf(word.as_slice())?;
    }
    Ok(builder)
}
