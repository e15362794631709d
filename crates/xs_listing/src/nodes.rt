ghost use Rattle.std.specs.Prelude.{◌≡◌, ◌<◌, length, IfOk, OnOk};
ghost use Rattle.xs_gram.specs.{IsBuilt};
ghost use Rattle.xs_forest_laws.specs.{IsRight};
ghost use Rattle.xs_listing.specs.Marks.{IsMarked, AreMarked};
ghost use Rattle.xs_listing.specs.Making.{IsWhole, IsMade, AreMade, CanMake, Extends};

use crate::kids::kids_of;
use crate::rows::{first_alt, label_at};
use std::alloc::Global;
use xs_class::{Memory, Word};
use xs_forest::Forest;
use xs_forest_laws::{SpanKey, What};
use xs_gram::Gram;
use xs_tree::Builder;

/// A new node for a row of a nonterminal, whose kids are put in place of others.
fn add_node(
    g: &Gram,
    doc: &Word,
    forest: &Forest<'_, SpanKey>,
    numbers: &[u64],
    row: u64,
    builder: &mut Builder,
    kids: &mut Vec<u64>,
) -> Result<u64, Memory>
    requires there { row < length forest.now }
    requires built { IsBuilt g.now }
    requires right { IsRight g.now doc.now forest.now }
    requires can { CanMake g.now doc.now forest.now builder.old numbers.now row }
    ensures extends { OnOk result (Extends builder.old builder.new) }
    ensures made { IfOk result (IsMade g.now doc.now forest.now builder.new row) }
{
    let alt = first_alt(forest, row);
    kids_of(g, doc, forest, numbers, alt, builder, kids)?;
    let number = builder.node(alt.rule, kids)?;
    Ok(number)
}

/// The part of the next row, a new node where the row is marked and one of a nonterminal, and else
/// 0.
fn number_row(
    g: &Gram,
    doc: &Word,
    forest: &Forest<'_, SpanKey>,
    marks: &[bool],
    numbers: &[u64],
    builder: &mut Builder,
    kids: &mut Vec<u64>,
) -> Result<u64, Memory>
    requires there { length numbers.now < length forest.now }
    requires long { length marks.now ≡ length forest.now }
    requires built { IsBuilt g.now }
    requires right { IsRight g.now doc.now forest.now }
    requires marked { AreMarked doc.now forest.now marks.now 0 }
    requires made { AreMade g.now doc.now forest.now marks.now builder.old numbers.now }
    ensures extends { OnOk result (Extends builder.old builder.new) }
    ensures made { IfOk result (λ number. IsMarked marks.now (length numbers.now) → IsWhole forest.now (length numbers.now) → IsMade g.now doc.now forest.now builder.new (length numbers.now) number) }
{
    let row = numbers.len();
    if !marks[row] {
        return Ok(0);
    }
    match label_at(forest, row as u64).what {
        What::Front { .. } => Ok(0),
        What::Whole(_) => {
            let number = add_node(g, doc, forest, numbers, row as u64, builder, kids)?;
            Ok(number)
        }
    }
}

/// For each marked row of a nonterminal a part with the tree of its unfolding by first
/// alternatives, in time linear in the marked rows and the words of their terminals.
pub(crate) fn number_rows(
    alloc: Global,
    g: &Gram,
    doc: &Word,
    forest: &Forest<'_, SpanKey>,
    marks: &[bool],
    builder: &mut Builder,
) -> Result<Vec<u64>, Memory>
    requires long { length marks.now ≡ length forest.now }
    requires built { IsBuilt g.now }
    requires right { IsRight g.now doc.now forest.now }
    requires marked { AreMarked doc.now forest.now marks.now 0 }
    ensures long { IfOk result (λ numbers. length numbers.items ≡ length forest.now) }
    ensures made { IfOk result (λ numbers. AreMade g.now doc.now forest.now marks.now builder.new numbers.items) }
{
    let mut numbers = Vec::with_capacity(alloc, marks.len())?;
    let mut kids = Vec::new(alloc);
    'rows: for _ in 0..marks.len() {
        let number = number_row(g, doc, forest, marks, &numbers, builder, &mut kids)?;
        numbers.push(number)?;
    }
    Ok(numbers)
}
