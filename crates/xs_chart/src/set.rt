ghost use Rattle.std.specs.Prelude.{◌≡◌, ◌↔◌, ℕ, [], ◌∷◌, ◌++◌, List, take, map, if◌then◌else◌, Contains, IsTrue, IfOk, OnOk, OnErr};
ghost use Rattle.xs_chart.specs.declared.item.Item.{Item as AnyItem};
ghost use Rattle.xs_chart.specs.Charted.{number_of, item_from, items_from};
ghost use Rattle.xs_chart.specs.Advancing.{HasMore, IsAfter, AreThere};
ghost use Rattle.xs_chart.specs.Different.{AreDifferent};

use crate::{Item, Waiter};
use indexmap::IndexSet;
use std::alloc::Global;
use xs_class::Memory;

/// For how many items a set keeps its memory where it has few of them.
const FEW: usize = 32;

/// Whether the set has the item; in constant expected time.
#[inline(always)]
pub(crate) fn has(set: &IndexSet<Item>, item: Item) -> bool
    ensures { IsTrue result ↔ Contains set.now.keys item }
{
    set.contains(&item)
}

/// Puts the item last, unless it is there; true exactly where it was not there.
#[inline(always)]
pub(crate) fn add(set: &mut IndexSet<Item>, item: Item) -> Result<bool, Memory>
    ensures added { IfOk result (λ added. IsTrue added ↔ (Contains set.old.keys item → ⊥)) }
    ensures items { IfOk result (λ added. set.new.keys ≡ (if added then set.old.keys ++ item ∷ [] else set.old.keys)) }
    ensures different { AreDifferent set.new.keys }
    ensures err { OnErr result (set.new.keys ≡ set.old.keys) }
{
    let added = set.insert(item)?;
    Ok(added)
}

/// Removes the items after the first ones, where there was no memory for all that were to be added.
#[inline(always)]
fn or_removed(
    set: &mut IndexSet<Item>,
    first: usize,
    added: Result<(), Memory>,
) -> Result<(), Memory>
    ensures is { result ≡ added }
    ensures ok { OnOk added (set.new.keys ≡ set.old.keys) }
    ensures err { OnErr added (set.new.keys ≡ take first set.old.keys) }
{
    if added.is_err() {
        set.truncate(first);
    }
    added
}

/// Puts items of these states last, all with one origin, as far as there is memory.
#[inline(always)]
fn add_states(set: &mut IndexSet<Item>, states: &[u32], origin: u32) -> Result<(), Memory>
    requires states { AreDifferent states.now }
    requires absent { (state : ℕ) → Contains states.now state → Contains set.old.keys (item_from origin state) → ⊥ }
    requires different { AreDifferent set.old.keys }
    ensures items { OnOk result (set.new.keys ≡ set.old.keys ++ items_from origin states.now) }
    ensures different { AreDifferent set.new.keys }
    ensures kept { (more : List AnyItem) × (set.new.keys ≡ set.old.keys ++ more) }
{
    'states: for state in states {
        add(
            set,
            Item {
                state: *state,
                origin,
            },
        )?;
    }
    Ok(())
}

/// Puts items of these states last, all with one origin; no state stands twice, and none of the items
/// is there.
#[inline(always)]
pub(crate) fn append_all(
    set: &mut IndexSet<Item>,
    states: &[u32],
    origin: u32,
) -> Result<(), Memory>
    requires states { AreDifferent states.now }
    requires absent { (state : ℕ) → Contains states.now state → Contains set.old.keys (item_from origin state) → ⊥ }
    requires different { AreDifferent set.old.keys }
    ensures items { OnOk result (set.new.keys ≡ set.old.keys ++ items_from origin states.now) }
    ensures different { AreDifferent set.new.keys }
    ensures err { OnErr result (set.new.keys ≡ set.old.keys) }
{
    let first = set.len();
    let added = add_states(set, states, origin);
    or_removed(set, first, added)
}

/// Puts last, each unless it is there, what is after the items of these entries, as far as there is
/// memory.
#[inline(always)]
fn add_each_after(
    set: &mut IndexSet<Item>,
    items: &[Item],
    waits: &[Waiter],
    next: &[u32],
) -> Result<(), Memory>
    requires there { AreThere next.now items.now (map number_of waits.now) }
    requires different { AreDifferent set.old.keys }
    ensures more { OnOk result (HasMore (IsAfter next.now items.now (map number_of waits.now)) set.old.keys set.new.keys) }
    ensures different { AreDifferent set.new.keys }
    ensures kept { (more : List AnyItem) × (set.new.keys ≡ set.old.keys ++ more) }
{
    'waiters: for waiter in waits {
        let item = items[waiter.number as usize];
        add(
            set,
            Item {
                state: next[item.state as usize],
                origin: item.origin,
            },
        )?;
    }
    Ok(())
}

/// Puts last, each unless it is there, what is after the items of these entries: the items of the
/// states after theirs, with their origins.
#[inline(always)]
pub(crate) fn add_after(
    set: &mut IndexSet<Item>,
    items: &[Item],
    waits: &[Waiter],
    next: &[u32],
) -> Result<(), Memory>
    requires there { AreThere next.now items.now (map number_of waits.now) }
    requires different { AreDifferent set.old.keys }
    ensures more { OnOk result (HasMore (IsAfter next.now items.now (map number_of waits.now)) set.old.keys set.new.keys) }
    ensures different { AreDifferent set.new.keys }
    ensures err { OnErr result (set.new.keys ≡ set.old.keys) }
{
    let first = set.len();
    let added = add_each_after(set, items, waits, next);
    or_removed(set, first, added)
}

/// Removes all items. The memory is kept, unless the set was far larger once than it was now: so a
/// large set makes no later one slow.
#[inline(always)]
pub(crate) fn empty(alloc: Global, set: &mut IndexSet<Item>)
    ensures { set.new.keys ≡ [] }
{
    if set.capacity() / 16 > set.len().saturating_add(FEW) {
        *set = IndexSet::new(alloc);
    } else {
        set.clear();
    }
}

/// Puts these items in the set, in place of what it has.
pub(crate) fn refill(set: &mut IndexSet<Item>, items: &[Item]) -> Result<(), Memory>
    requires { AreDifferent items.now }
    ensures items { OnOk result (set.new.keys ≡ items.now) }
    ensures different { AreDifferent set.new.keys }
{
    set.clear();
    'items: for item in items {
        add(set, *item)?;
    }
    Ok(())
}
