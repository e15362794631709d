ghost use Rattle.std.specs.Prelude.{◌≡◌, ◌↔◌, map, IsTrue, IfOk, OnOk};
ghost use Rattle.xs_tree.specs.Flat.{AreRising, common_of, trees_of};
ghost use Rattle.xs_tree.specs.Tables.{AreNumbered, Extends, IsTable, part_of};

use crate::Tree;
use crate::parts::Parts;
use crate::table::{Shape, number_at, number_of, shape_of};
use indexmap::IndexSet;
use std::alloc::Global;
use xs_class::Memory;

/// The numbers of the parts' trees in the table, which takes up those that it has not.
fn numbers_of(
    alloc: Global,
    shapes: &mut IndexSet<Shape>,
    parts: &Parts,
) -> Result<Vec<u64>, Memory>
    requires table { IsTable (map part_of shapes.old.keys) }
    requires rising { AreRising parts.now }
    ensures numbered { IfOk result (λ numbers. AreNumbered (map part_of shapes.new.keys) (trees_of parts.now) numbers.items) }
    ensures extends { OnOk result (Extends (map part_of shapes.old.keys) (map part_of shapes.new.keys)) }
    ensures table { OnOk result (IsTable (map part_of shapes.new.keys)) }
{
    let mut numbers = Vec::with_capacity(alloc, parts.len())?;
    'parts: for i in 0..parts.len() {
        let shape = shape_of(alloc, &numbers, parts.part(i))?;
        let number = number_of(shapes, shape)?;
        numbers.push(number)?;
    }
    Ok(numbers)
}

/// Whether both mean one common tree, in time linear in the flat trees: equal parts of either have
/// one number in a table that both share.
pub fn same(alloc: Global, a: &Tree, b: &Tree) -> Result<bool, Memory>
    ensures { IfOk result (λ same. IsTrue same ↔ (common_of a.now ≡ common_of b.now)) }
{
    let mut shapes = IndexSet::new(alloc);
    let of_a = numbers_of(alloc, &mut shapes, a.parts())?;
    let of_b = numbers_of(alloc, &mut shapes, b.parts())?;
    let one = number_at(&of_a, a.root());
    let other = number_at(&of_b, b.root());
    Ok(one == other)
}
