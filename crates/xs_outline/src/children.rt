ghost use Rattle.std.specs.Prelude.{◌≡◌, ◌<◌, ℕ, Some, length, slice_get, IsSome, OnOk};
ghost use Rattle.xs_outline.specs.Reader.{child_at, with_child};

use std::collections::HashMap;
use xs_class::Memory;

/// The parts that are children of nodes, by the node's number and the slot.
pub type Children = HashMap<(u64, usize), u64>;

/// The child of a node at a slot, if it has one.
pub fn child(children: &Children, node: u64, slot: usize) -> Option<u64>
    ensures { result ≡ child_at children.now node slot }
{
    children.get(&(node, slot)).copied()
}

/// A node has a child at a slot from now on.
pub fn put(children: &mut Children, node: u64, slot: usize, part: u64) -> Result<(), Memory>
    ensures here { OnOk result (child_at children.new node slot ≡ Some part) }
    ensures others { OnOk result ((n s : ℕ) → (n ≡ node → s ≡ slot → ⊥) → child_at children.new n s ≡ child_at children.old n s) }
{
    children.insert((node, slot), part)?;
    Ok(())
}

/// The child of a node at a slot, where the one at `last` is given.
#[tactic(auto, unfolding(crate::specs::Reader::with_child))]
fn kid(children: &Children, node: u64, slot: usize, last: usize, part: u64) -> Option<u64>
    ensures { result ≡ with_child (child_at children.now node) last part slot }
{
    if slot == last {
        Some(part)
    } else {
        child(children, node, slot)
    }
}

/// Makes a list that of the children of a node at that many slots, where the one at `last` is given.
pub fn gather(
    children: &Children,
    node: u64,
    count: usize,
    last: usize,
    part: u64,
    kids: &mut Vec<u64>,
) -> Result<(), Memory>
    requires { (s : ℕ) → s < count → IsSome (with_child (child_at children.now node) last part s) }
    ensures length { OnOk result (length kids.new.items ≡ count) }
    ensures kids { OnOk result ((s : ℕ) → s < count → slice_get kids.new.items s ≡ with_child (child_at children.now node) last part s) }
{
    kids.clear();
    kids.reserve(count)?;
    'slots: for slot in 0..count {
        match kid(children, node, slot, last, part) {
            Some(kid) => kids.push(kid)?,
            None => unreachable!(),
        }
    }
    Ok(())
}
