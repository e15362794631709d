ghost use Rattle.std.specs.Prelude.{◌≡◌, ◌<◌, ◌↔◌, List, ℕ, map, IfOk, IsTrue};
ghost use Rattle.xs_pair.specs.Directories.{IsDistinct};
ghost use Rattle.xs_pair.specs.Marks as M;
ghost use Rattle.xs_pair.specs.Rules.{IsNotOnce, HasTwoNames};
ghost use Rattle.xs_pair.specs.Weights.{marks_weight};

use crate::{Directory, Mark};
use std::alloc::Global;
use xs_class::{Memory, Text};
use xs_sheet::Item;

/// The slots of a side in order, each with the name of its unit.
fn slots_of<'m>(alloc: Global, marks: &'m [Mark]) -> Result<Vec<(&'m Text, &'m Text)>, Memory>
    ensures { IfOk result (λ v. M.shown v.items ≡ M.slots_of marks.now) }
{
    let mut slots = Vec::new(alloc);
    'marks: for mark in marks {
        match mark {
            Mark::Value(Item::Named { name, slot }) | Mark::Content(Item::Named { name, slot }) => {
                slots.push((slot, name))?;
            }
            _ => {}
        }
    }
    Ok(slots)
}

/// The names of the slots of a side, in order.
fn slot_names(alloc: Global, marks: &[Mark]) -> Result<Vec<Text>, Memory>
    ensures { IfOk result (λ v. v.items ≡ M.slot_names marks.now) }
{
    let mut names = Vec::new(alloc);
    'marks: for mark in marks {
        match mark {
            Mark::Value(Item::Named { slot, .. }) | Mark::Content(Item::Named { slot, .. }) => {
                let name = slot.copy()?;
                names.push(name)?;
            }
            _ => {}
        }
    }
    Ok(names)
}

/// A directory of the slots of a side, in order.
pub fn slot_directory(alloc: Global, marks: &[Mark]) -> Result<Directory, Memory>
    requires { marks_weight marks.now < 65536 }
    ensures { IfOk result (λ d. d ≡ M.slot_names marks.now) }
{
    let names = slot_names(alloc, marks)?;
    Directory::of(alloc, names)
}

/// Whether some slot does not stand exactly once on either side.
pub fn is_not_once(left: &Directory, right: &Directory) -> bool
    ensures { IsTrue result ↔ IsNotOnce left.now right.now }
{
    if !left.is_distinct() {
        return true;
    }
    if !right.is_distinct() {
        return true;
    }
    if !left.has_all(right.as_slice()) {
        return true;
    }
    !right.has_all(left.as_slice())
}

fn is_same(one: &Text, other: &Text) -> bool
    ensures { IsTrue result ↔ (one.now ≡ other.now) }
{
    one.as_str() == other.as_str()
}

/// Whether the slots of a side are these, in this order.
fn are_slots(names: &[Text], marks: &[Mark]) -> bool
    ensures { IsTrue result ↔ (M.slot_names marks.now ≡ names.now) }
{
    let mut rest = names;
    'marks: for mark in marks {
        match mark {
            Mark::Value(Item::Named { slot, .. }) | Mark::Content(Item::Named { slot, .. }) => {
                let Some((first, others)) = rest.split_first() else {
                    return false;
                };
                if !is_same(slot, first) {
                    return false;
                }
                rest = others;
            }
            _ => {}
        }
    }
    rest.is_empty()
}

/// Whether the slots of the right side are those of the left one in their order, each once.
pub fn are_once_in_order(left: &Directory, right: &[Mark]) -> bool
    ensures { IsTrue result ↔ (IsDistinct left.now × (M.slot_names right.now ≡ left.now)) }
{
    left.is_distinct() && are_slots(left.as_slice(), right)
}

/// Whether a slot has another name of a unit on the right side, where it stands once on the left
/// side.
fn names_differ(slots: &Directory, left: &[(&Text, &Text)], right: &[(&Text, &Text)]) -> bool
    requires slots { slots.now ≡ map (λ (s : List ℕ × List ℕ). s.0) (M.shown left.now) }
    requires distinct { IsDistinct slots.now }
    ensures { IsTrue result ↔ HasTwoNames (M.shown left.now) (M.shown right.now) }
{
    'slots: for slot in right {
        if let Some(place) = slots.place(slot.0.as_str()) {
            if !is_same(left[place as usize].1, slot.1) {
                return true;
            }
        }
    }
    false
}

/// Whether a slot has two names of units on the two sides, where it stands once on the left side.
pub fn has_two_names(
    alloc: Global,
    slots: &Directory,
    left: &[Mark],
    right: &[Mark],
) -> Result<bool, Memory>
    requires slots { slots.now ≡ M.slot_names left.now }
    requires distinct { IsDistinct slots.now }
    ensures { IfOk result (λ b. IsTrue b ↔ HasTwoNames (M.slots_of left.now) (M.slots_of right.now)) }
{
    let left_slots = slots_of(alloc, left)?;
    let right_slots = slots_of(alloc, right)?;
    Ok(names_differ(slots, &left_slots, &right_slots))
}
