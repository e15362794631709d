ghost use Rattle.std.specs.Prelude.{◌≡◌, ◌+◌, ◌<◌, List, length, map, All, IfOk};
ghost use Rattle.xs_gram.specs.Common.{Common};
ghost use Rattle.xs_tree.specs.Flat.{IsAfter, common_of, tree_of};
ghost use Rattle.xs_tree.specs.Lent.{lent};
ghost use Rattle.xs_tree.specs.Counts.{capped, capped_count, picked_sum};

use crate::table::number_at;
use crate::{Part, Tree};
use std::alloc::Global;
use xs_class::Memory;

/// One more than the sum of the children's counts.
fn node_count(kids: &[u64], counts: &[u64]) -> u64
    requires { All (λ kid. kid < length counts.now) kids.now }
    ensures { result ≡ capped (1 + picked_sum counts.now kids.now) }
{
    let mut count: u64 = 1;
    'kids: for kid in kids {
        count = count.saturating_add(counts[*kid as usize]);
    }
    count
}

fn part_count(part: Part<'_>, counts: &[u64]) -> u64
    requires { IsAfter (lent part) (length counts.now) }
    ensures { (trees : List Common) → counts.now ≡ map capped_count trees → result ≡ capped_count (tree_of trees (lent part.entry)) }
{
    match part {
        Part::Leaf(_) => 1,
        Part::Node { kids, .. } => node_count(kids, counts),
    }
}

/// The number of nodes and leaves of the common tree, a part that is shared counted each time;
/// above 2^64 less 1 that number. In time linear in the flat tree.
pub fn parts_of(alloc: Global, tree: &Tree) -> Result<u64, Memory>
    ensures { IfOk result (λ count. count ≡ capped_count (common_of tree.now)) }
{
    let parts = tree.parts();
    let mut counts = Vec::with_capacity(alloc, parts.len())?;
    'parts: for i in 0..parts.len() {
        let count = part_count(parts.part(i), &counts);
        counts.push(count)?;
    }
    Ok(number_at(&counts, tree.root()))
}
