ghost use Rattle.std.specs.Prelude.{◌≡◌, ◌++◌, None, IfOk};
ghost use Rattle.std.specs.List.Sorted.{IsNonDecreasingBy};
ghost use Rattle.xs_atoms.specs.Turns.{range_turns, class_turns, AreClasses, AreTurnsOf};

use crate::distinct::Distinct;
use crate::fault::AtomsFault;
use std::alloc::Global;
use xs_class::Memory;

/// A symbol at which a class begins or ends, or without a class one before which symbols are kept
/// apart.
#[derive(Clone, Copy, Debug)]
pub struct Turn {
    pub place: u64,
    pub class: Option<u32>,
}

/// The symbols at which the classes begin and end, and those about each of the fixed symbols, in
/// ascending order.
pub fn turns_of(
    alloc: Global,
    distinct: &Distinct,
    fixed: &[(u32, u32)],
) -> Result<Vec<Turn>, AtomsFault>
    ensures turns { IfOk result (λ turns. AreTurnsOf distinct.now fixed.now turns.items) }
    ensures sorted { IfOk result (λ turns. IsNonDecreasingBy (λ t. t.place) turns.items) }
{
    let mut turns = Vec::new(alloc);
    push_turns(&mut turns, None, fixed)?;
    push_classes(&mut turns, distinct)?;
    turns.sort_unstable_by_key(|turn| turn.place);
    Ok(turns)
}

/// Appends the turns of the classes.
fn push_classes(turns: &mut Vec<Turn>, distinct: &Distinct) -> Result<(), AtomsFault>
    ensures turns { IfOk result (λ _. turns.new.items ≡ turns.old.items ++ class_turns 0 distinct.now) }
    ensures formed { IfOk result (λ _. AreClasses distinct.now) }
{
    let Ok(count) = u32::try_from(distinct.len()) else {
        return Err(AtomsFault::TooMany);
    };
    'classes: for number in 0..count {
        push_turns(turns, Some(number), distinct.at(number))?;
    }
    Ok(())
}

/// Appends the beginnings of the ranges, and the symbols after their ends.
fn push_turns(
    turns: &mut Vec<Turn>,
    class: Option<u32>,
    ranges: &[(u32, u32)],
) -> Result<(), Memory>
    ensures { IfOk result (λ _. turns.new.items ≡ turns.old.items ++ range_turns class ranges.now) }
{
    'spans: for range in ranges {
        turns.push(Turn {
            place: u64::from(range.0),
            class,
        })?;
        turns.push(Turn {
            place: u64::from(range.1) + 1,
            class,
        })?;
    }
    Ok(())
}
