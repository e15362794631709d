ghost use Rattle.std.specs.Prelude.{IfOk, IfErr};
ghost use Rattle.xs_gram.specs.{TreeFits, IsSound};
ghost use Rattle.xs_tree.specs.{common_of};
ghost use Rattle.xs_outline.specs.Outline.{IsOutline};
ghost use Rattle.xs_outline.specs.Refusal.{IsRefusal};

use crate::OutlineFault;
use crate::reader::Reader;
use crate::slot_table::tables;
use std::alloc::Global;
use xs_class::Word;
use xs_pair::Two;
use xs_regex::Matcher;
use xs_tree::Tree;

/// The tree of an outline.
///
/// `OutlineBad` comes exactly where the characters are an outline of no tree. Lines end in LF, and
/// that of the last may be left out; children may come in any order, and words be quoted in any
/// spelling that a sheet allows. The time is linear in the outline and the tree, in expectation,
/// but for that of matching each word with its terminal.
pub fn read_outline(alloc: Global, two: &Two, doc: &Word) -> Result<Tree, OutlineFault>
    requires sound { IsSound two.now.text }
    ensures tree { IfOk result (λ tree. IsOutline two.now doc.now (common_of tree)) }
    ensures fits { IfOk result (λ tree. TreeFits two.now.text two.now.text.start (common_of tree)) }
    ensures bad { IfErr result (IsRefusal two.now doc.now) }
{
    two.see();
    let tables = tables(alloc, two)?;
    let mut reader = Reader::new(alloc)?;
    let mut matcher = Matcher::new(alloc);
    let mut rest = doc.as_slice();
    let mut number: u64 = 0;
    'lines: while !rest.is_empty() {
        let Some(more) = reader.read(alloc, &mut matcher, two, &tables, number, rest)? else {
            return Err(OutlineFault::OutlineBad { line: number + 1 });
        };
        number += 1;
        rest = more;
    }
    match reader.root {
        Some(root) => Ok(reader.parts.finish(root)),
        None => Err(OutlineFault::OutlineBad { line: number + 1 }),
    }
}
