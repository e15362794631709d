ghost use Rattle.std.specs.Prelude.{◌≡◌, ◌<◌, Some, length, map, All, slice_get, slice_index, IfOk, OnOk};
ghost use Rattle.xs_tree.specs.Flat.{IsAfter};
ghost use Rattle.xs_tree.specs.Lent.{lent};
ghost use Rattle.xs_tree.specs.Tables.{AreDifferent, IsGrown, picked, part_of, renumbered};

use crate::Part;
use indexmap::IndexSet;
use std::alloc::Global;
use xs_class::{Memory, Sym};

/// What distinguishes a part from others where equal children have equal numbers.
#[derive(PartialEq, Eq, Hash, Drop)]
pub enum Shape {
    Word(Vec<Sym>),
    Made { production: u32, kids: Vec<u64> },
}

/// The number at a place.
pub fn number_at(numbers: &[u64], place: u64) -> u64
    requires { place < length numbers.now }
    ensures { result ≡ slice_index numbers.now place }
{
    numbers[place as usize]
}

/// The numbers at these places.
fn numbers_at(alloc: Global, numbers: &[u64], places: &[u64]) -> Result<Vec<u64>, Memory>
    requires { All (λ place. place < length numbers.now) places.now }
    ensures { IfOk result (λ list. list.items ≡ picked numbers.now places.now) }
{
    let mut list = Vec::with_capacity(alloc, places.len())?;
    'places: for place in places {
        list.push(numbers[*place as usize])?;
    }
    Ok(list)
}

/// The shape of a part, where the numbers of the parts before it are given.
pub fn shape_of(alloc: Global, numbers: &[u64], part: Part<'_>) -> Result<Shape, Memory>
    requires { IsAfter (lent part) (length numbers.now) }
    ensures { IfOk result (λ shape. part_of shape ≡ renumbered numbers.now (lent part.entry)) }
{
    match part {
        Part::Leaf(word) => Ok(Shape::Word(Vec::from_slice(alloc, word)?)),
        Part::Node { production, kids } => {
            let kids = numbers_at(alloc, numbers, kids)?;
            Ok(Shape::Made { production, kids })
        }
    }
}

/// The number of a shape: its place in the table, where it stands last unless it was there.
pub fn number_of(shapes: &mut IndexSet<Shape>, shape: Shape) -> Result<u64, Memory>
    ensures stored { IfOk result (λ number. slice_get (map part_of shapes.new.keys) number ≡ Some (part_of shape)) }
    ensures grown { OnOk result (IsGrown (map part_of shapes.old.keys) (part_of shape) (map part_of shapes.new.keys)) }
    ensures different { OnOk result (AreDifferent (map part_of shapes.new.keys)) }
{
    let (number, _) = shapes.insert_full(shape)?;
    Ok(number as u64)
}
