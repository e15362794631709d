ghost use Rattle.std.specs.Prelude.{◌≡◌, ◌<◌, ℕ, List, length, IfOk};
ghost use Rattle.xs_gram.specs.Grammar.{Grammar};
ghost use Rattle.xs_forest.specs.{IsEarlier, AreBelow};
ghost use Rattle.xs_forest_laws.specs.{IsRight};
ghost use Rattle.xs_listing.specs.Marks.{IsReady, IsMarked, AreMarked, with_mark, pass};

use crate::rows::alts_at;
use std::alloc::Global;
use xs_class::Memory;
use xs_forest::Forest;
use xs_forest_laws::SpanKey;

/// Marks a child.
fn mark(child: Option<u64>, marks: &mut [bool])
    requires { IsEarlier child (length marks.old) }
    ensures { marks.new ≡ with_mark child marks.old }
{
    match child {
        None => (),
        Some(row) => marks[row as usize] = true,
    }
}

/// Marks the children of a marked row's first alternative.
fn mark_children(forest: &Forest<'_, SpanKey>, row: u64, marks: &mut [bool])
    requires there { row < length forest.now }
    requires marks { row < length marks.old }
    requires below { AreBelow forest.now }
    ensures { marks.new ≡ pass forest.now row marks.old }
{
    if marks[row as usize] {
        match alts_at(forest, row).first() {
            None => (),
            Some(alt) => {
                mark(alt.left, marks);
                mark(alt.right, marks);
            }
        }
    }
}

/// Which rows the root's unfolding by first alternatives has, in time linear in the rows up to the
/// root.
pub(crate) fn mark_rows(
    alloc: Global,
    forest: &Forest<'_, SpanKey>,
    root: u64,
) -> Result<Vec<bool>, Memory>
    requires { root < length forest.now }
    ensures long { IfOk result (λ marks. length marks.items ≡ length forest.now) }
    ensures root { IfOk result (λ marks. IsMarked marks.items root) }
    ensures marked { IfOk result (λ marks. (g : Grammar) (w : List ℕ) → IsRight g w forest.now → IsReady w forest.now root → AreMarked w forest.now marks.items 0) }
{
    let rows = forest.len();
    let mut marks = vec![in alloc; false; rows as usize]?;
    marks[root as usize] = true;
    let mut row = rows;
    'rows: while row > 0 {
        row -= 1;
        mark_children(forest, row, &mut marks);
    }
    Ok(marks)
}
