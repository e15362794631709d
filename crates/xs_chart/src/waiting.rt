ghost use Rattle.std.specs.Prelude.{◌≡◌, ◌≢◌, ◌<◌, ◌≤◌, ◌+◌, ◌++◌, ℕ, Some, true, [], ◌∷◌, map, length, All, slice_get, slice_index_or, slice_range, IfOk, OnOk, OnErr};
ghost use Rattle.std.specs.List.Sorted.{IsNonDecreasingBy};
ghost use Rattle.xs_chart.specs.Charted.{waiting_for, number_of, non_of, grouped};
ghost use Rattle.xs_chart.specs.Kept.{IsGrouped, IsNone, IsFinding, no_set, found_count};
ghost use Rattle.xs_chart.specs.declared.waiting.Waiter.{Waiter as AnyWaiter};

use crate::Item;
use std::alloc::Global;
use xs_class::Memory;
use xs_flat::FlatLists;

/// An entry of a waiting list: the nonterminal, and the number of an item of the set.
#[derive(Clone, Copy, Debug)]
pub struct Waiter {
    pub non: u32,
    pub number: u64,
}

/// The waiting list of a nonterminal in a finished set: where its entries stand.
#[derive(Clone, Copy, Debug)]
pub struct Waiting {
    pub set: u32,
    pub non: u32,
    pub from: usize,
    pub count: usize,
}

/// How many stretches that were found are kept.
const FOUND: usize = 64;

/// The number of no set.
const NO_SET: u32 = u32::MAX;

/// No stretch was found.
const NONE: Waiting = Waiting {
    set: NO_SET,
    non: 0,
    from: 0,
    count: 0,
};

/// Groups the entries by their nonterminals; those of one stay in their order.
fn group(waits: &mut Vec<Waiter>) -> Result<(), Memory>
    ensures grouped { OnOk result (waits.new.items ≡ grouped waits.old.items) }
    ensures rising { OnOk result (IsGrouped waits.new.items) }
    ensures err { OnErr result (waits.new.items ≡ waits.old.items) }
{
    waits.sort_by_key(|waiter| waiter.non)?;
    Ok(())
}

/// Keeps a set that is finished: its items, and the entries of its waiting lists grouped. These are then
/// grouped in the list too.
#[inline(always)]
pub(crate) fn keep(
    items: &mut FlatLists<Item>,
    waits: &mut FlatLists<Waiter>,
    last: &[Item],
    waiting: &mut Vec<Waiter>,
) -> Result<(), Memory>
    ensures items { OnOk result (items.new ≡ items.old ++ last.now ∷ []) }
    ensures waits { OnOk result (waits.new ≡ waits.old ++ grouped waiting.old.items ∷ []) }
    ensures rising { OnOk result (IsGrouped (grouped waiting.old.items)) }
    ensures same { grouped waiting.new.items ≡ grouped waiting.old.items }
    ensures err { OnErr result (items.new ≡ items.old) }
    ensures waits_err { OnErr result (waits.new ≡ waits.old) }
{
    group(waiting)?;
    waits.push(waiting)?;
    match items.push(last) {
        Ok(()) => Ok(()),
        Err(memory) => {
            waits.truncate(waits.len() - 1);
            Err(memory)
        }
    }
}

/// How many of the entries wait for the nonterminal.
pub(crate) fn count(waits: &[Waiter], non: u32) -> usize
    ensures { result ≡ length (waiting_for waits.now non) }
{
    let mut count = 0;
    'entries: for waiter in waits {
        if waiter.non == non {
            count += 1;
        }
    }
    count
}

/// The number of entry n of those that wait for the nonterminal.
pub(crate) fn nth(waits: &[Waiter], non: u32, n: u64) -> u64
    requires { n < length (waiting_for waits.now non) }
    ensures { slice_get (waiting_for waits.now non) n ≡ Some result }
{
    let mut left = n;
    'entries: for waiter in waits {
        if waiter.non == non {
            if left == 0 {
                return waiter.number;
            }
            left -= 1;
        }
    }
    unreachable!()
}

/// Where the entries of a nonterminal end that stand from one on; there may be none.
#[inline(always)]
fn group_end(waits: &[Waiter], from: usize, non: u32) -> usize
    requires { from ≤ length waits.now }
    ensures within { result ≤ length waits.now }
    ensures from { from ≤ result }
    ensures same { (k : ℕ) (d : AnyWaiter) → from ≤ k → k < result → non_of (slice_index_or waits.now k d) ≡ non }
    ensures other { (d : AnyWaiter) → result < length waits.now → non_of (slice_index_or waits.now result d) ≢ non }
{
    'entries: for end in from..waits.len() {
        if waits[end].non != non {
            return end;
        }
    }
    waits.len()
}

/// Where the entries of a nonterminal begin among those that are grouped, and how many there are.
#[inline(always)]
pub(crate) fn find(waits: &[Waiter], non: u32) -> (usize, usize)
    requires { IsNonDecreasingBy non_of waits.now }
    ensures within { result.0 + result.1 ≤ length waits.now }
    ensures is { waiting_for waits.now non ≡ map number_of (slice_range waits.now result.0 (result.0 + result.1)) }
{
    let from = waits.partition_point(|waiter| waiter.non < non);
    let end = group_end(waits, from, non);
    (from, end - from)
}

/// A list of stretches none of which was found yet.
pub(crate) fn none_found(alloc: Global) -> Result<Vec<Waiting>, Memory>
    ensures long { IfOk result (λ found. length found.items ≡ found_count) }
    ensures none { IfOk result (λ found. All IsNone found.items) }
{
    Ok(vec![in alloc; NONE; FOUND]?)
}

/// Forgets what was found; takes no memory.
pub(crate) fn forget(found: &mut Vec<Waiting>)
    ensures long { length found.new.items ≡ length found.old.items }
    ensures none { All IsNone found.new.items }
{
    found.fill(NONE);
}

/// Where it is kept what was found.
#[inline(always)]
fn place_of(set: u32, non: u32) -> usize
    ensures { result < found_count }
{
    (set as usize + non as usize * 5) & (FOUND - 1)
}

/// Where the entries of a nonterminal begin in a finished set, and how many there are; what was found
/// for a set and a nonterminal is kept until another one takes its place.
#[inline(always)]
pub(crate) fn find_again(
    found: &mut Vec<Waiting>,
    waits: &FlatLists<Waiter>,
    set: u32,
    non: u32,
) -> (usize, usize)
    requires finding { IsFinding true waits.now found.old.items }
    requires set { set < length waits.now }
    requires few { length waits.now < no_set }
    requires grouped { All IsGrouped waits.now }
    ensures finding { IsFinding true waits.now found.new.items }
    ensures within { result.0 + result.1 ≤ length (slice_index_or waits.now set []) }
    ensures is { waiting_for (slice_index_or waits.now set []) non ≡ map number_of (slice_range (slice_index_or waits.now set []) result.0 (result.0 + result.1)) }
{
    let place = place_of(set, non);
    let known = found[place];
    if known.set == set && known.non == non {
        return (known.from, known.count);
    }
    let (from, count) = find(waits.list(set as usize), non);
    found[place] = Waiting {
        set,
        non,
        from,
        count,
    };
    (from, count)
}
