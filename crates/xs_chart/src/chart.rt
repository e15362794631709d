ghost use Rattle.std.specs.Prelude.{◌≡◌, ◌<◌, ◌≤◌, ◌↔◌, ◌≢◌, suc, ℕ, [], ◌∷◌, ◌++◌, length, true, false, slice_get, if◌then◌else◌, Contains, IsTrue, IfOk, OnOk, OnErr, List};
ghost use Rattle.xs_chart.specs.declared.item.Item.{Item as AnyItem};
ghost use Rattle.xs_chart.specs.Charted.{set_limit, grouped};
ghost use Rattle.xs_chart.specs.Advancing.{AreThere, Advanced};
ghost use Rattle.xs_chart.specs.Different.{AreDifferent};
ghost use Rattle.xs_chart.specs.Kept.{opened, seen, IsKept, StaysFound};

use crate::set::{add, add_after, append_all, empty, has, refill};
use crate::waiting::{count, find, find_again, forget, keep, none_found, nth};
use crate::{Item, Waiter, Waiting};
use indexmap::IndexSet;
use std::alloc::Global;
use std::marker::Model;
use xs_class::Memory;
use xs_flat::FlatLists;

/// The sets that a chart keeps, with their waiting lists: those that are finished, and the last one
/// where it is open.
#[derive(Drop)]
struct Kept {
    alloc: Global,
    items: FlatLists<Item>,
    waits: FlatLists<Waiter>,
    last: IndexSet<Item>,
    waiting: Vec<Waiter>,
    is_open: bool,
}

/// A list of sets, each a list of different items, with the waiting lists of each.
///
/// Sets, and the places in a set, are numbered from 0.
///
/// Where waiting lists were found that were asked for last is kept, until a set is removed: so a list
/// that many items are completed by is searched for once.
#[derive(Drop)]
pub struct Chart {
    kept: Kept,
    found: Vec<Waiting>,
}

impl Model for Chart {
    ghost use Rattle.xs_chart.specs.Charted.{Charted};
    ghost use Rattle.xs_chart.specs.Kept.{seen, IsCharted};

    ghost Value = { Charted };

    ghost view = { λ c. seen c.kept.is_open c.kept.items c.kept.last.keys c.kept.waits c.kept.waiting.items };

    ghost invariant = { λ c. IsCharted c.kept.is_open c.kept.items c.kept.last.keys c.kept.waits c.found.items };
}

impl Kept {
    /// Opens the last set again, where the sets after it were removed.
    #[inline(always)]
    fn reopen(&mut self) -> Result<(), Memory>
        requires kept { IsKept self.old.is_open self.old.items self.old.last.keys self.old.waits }
        requires some { 0 < length (opened self.old.is_open self.old.items self.old.last.keys) }
        ensures open { OnOk result (self.new.is_open ≡ true) }
        ensures same { seen self.new.is_open self.new.items self.new.last.keys self.new.waits self.new.waiting.items ≡ seen self.old.is_open self.old.items self.old.last.keys self.old.waits self.old.waiting.items }
        ensures kept { IsKept self.new.is_open self.new.items self.new.last.keys self.new.waits }
        ensures found { StaysFound self.old.is_open self.old.waits self.new.is_open self.new.waits }
    {
        if self.is_open {
            return Ok(());
        }
        self.open_last()?;
        Ok(())
    }

    /// Makes the last finished set the open one.
    #[cold]
    #[inline(never)]
    fn open_last(&mut self) -> Result<(), Memory>
        requires kept { IsKept self.old.is_open self.old.items self.old.last.keys self.old.waits }
        requires closed { self.old.is_open ≡ false }
        requires some { 0 < length (opened self.old.is_open self.old.items self.old.last.keys) }
        ensures open { OnOk result (self.new.is_open ≡ true) }
        ensures same { seen self.new.is_open self.new.items self.new.last.keys self.new.waits self.new.waiting.items ≡ seen self.old.is_open self.old.items self.old.last.keys self.old.waits self.old.waiting.items }
        ensures kept { IsKept self.new.is_open self.new.items self.new.last.keys self.new.waits }
        ensures found { StaysFound self.old.is_open self.old.waits self.new.is_open self.new.waits }
    {
        let set = self.items.len() - 1;
        refill(&mut self.last, self.items.list(set))?;
        self.waiting.clear();
        self.waiting.extend_from_slice(self.waits.list(set))?;
        self.items.truncate(set);
        self.waits.truncate(set);
        self.is_open = true;
        Ok(())
    }
}

/// Finishes the last set if it is open; its items and its waiting lists stand in the chart as they did.
#[inline(always)]
fn finish(
    is_open: bool,
    items: &mut FlatLists<Item>,
    waits: &mut FlatLists<Waiter>,
    last: &[Item],
    waiting: &mut Vec<Waiter>,
) -> Result<(), Memory>
    requires kept { IsKept is_open items.old last.now waits.old }
    requires few { length (opened is_open items.old last.now) < set_limit }
    ensures items { OnOk result (items.new ≡ opened is_open items.old last.now) }
    ensures waits { OnOk result (waits.new ≡ opened is_open waits.old (grouped waiting.old.items)) }
    ensures kept { OnOk result ((next : List AnyItem) → AreDifferent next → IsKept true items.new next waits.new) }
    ensures found { OnOk result (StaysFound is_open waits.old true waits.new) }
    ensures same { grouped waiting.new.items ≡ grouped waiting.old.items }
    ensures err { OnErr result (items.new ≡ items.old) }
    ensures waits_err { OnErr result (waits.new ≡ waits.old) }
{
    if is_open {
        keep(items, waits, last, waiting)?;
    }
    Ok(())
}

impl Chart {
    ghost use Rattle.xs_chart.specs.Charted.{items_of, last_set, waiting_of, with_item, with_items, item_from, items_from, first_sets, before_last};

    /// The chart without sets.
    pub fn new(alloc: Global) -> Result<Self, Memory>
        ensures sets { IfOk result (λ chart. chart.sets ≡ []) }
        ensures waits { IfOk result (λ chart. chart.waits ≡ []) }
    {
        let kept = Kept {
            alloc,
            items: FlatLists::new(alloc),
            waits: FlatLists::new(alloc),
            last: IndexSet::new(alloc),
            waiting: Vec::new(alloc),
            is_open: false,
        };
        Ok(Chart {
            kept,
            found: none_found(alloc)?,
        })
    }

    /// A new last set, which is empty and in which nothing waits. Nothing is added to the one before
    /// it any more.
    #[inline(always)]
    pub fn push_set(&mut self) -> Result<(), Memory>
        requires { length self.old.sets < set_limit }
        ensures sets { OnOk result (self.new.sets ≡ self.old.sets ++ [] ∷ []) }
        ensures waiting { (set non : ℕ) → set ≢ length self.old.sets → waiting_of self.new set non ≡ waiting_of self.old set non }
        ensures last { OnOk result ((non : ℕ) → waiting_of self.new (length self.old.sets) non ≡ []) }
        ensures before { first_sets (length self.old.sets) self.new ≡ self.old }
        ensures err { OnErr result (self.new ≡ self.old) }
    {
        finish(
            self.kept.is_open,
            &mut self.kept.items,
            &mut self.kept.waits,
            self.kept.last.as_slice(),
            &mut self.kept.waiting,
        )?;
        empty(self.kept.alloc, &mut self.kept.last);
        self.kept.waiting.clear();
        self.kept.is_open = true;
        Ok(())
    }

    /// A new last set with the items and the waiting lists of the one before it.
    #[inline(always)]
    pub fn repeat_set(&mut self) -> Result<(), Memory>
        requires few { length self.old.sets < set_limit }
        requires some { 0 < length self.old.sets }
        ensures sets { OnOk result (self.new.sets ≡ self.old.sets ++ items_of self.old (last_set self.old) ∷ []) }
        ensures waiting { (set non : ℕ) → set ≢ length self.old.sets → waiting_of self.new set non ≡ waiting_of self.old set non }
        ensures last { OnOk result ((non : ℕ) → waiting_of self.new (length self.old.sets) non ≡ waiting_of self.old (last_set self.old) non) }
        ensures before { first_sets (length self.old.sets) self.new ≡ self.old }
        ensures err { OnErr result (self.new ≡ self.old) }
    {
        self.kept.reopen()?;
        finish(
            self.kept.is_open,
            &mut self.kept.items,
            &mut self.kept.waits,
            self.kept.last.as_slice(),
            &mut self.kept.waiting,
        )?;
        Ok(())
    }

    /// Puts the item last in the last set, unless it is there; true exactly where it was not there.
    #[inline(always)]
    pub fn add(&mut self, item: Item) -> Result<bool, Memory>
        requires { 0 < length self.old.sets }
        ensures added { IfOk result (λ added. IsTrue added ↔ (Contains (items_of self.old (last_set self.old)) item → ⊥)) }
        ensures last { IfOk result (λ added. self.new ≡ (if added then with_item self.old item else self.old)) }
        ensures before { before_last self.new ≡ before_last self.old }
        ensures err { OnErr result (self.new ≡ self.old) }
    {
        self.kept.reopen()?;
        let added = add(&mut self.kept.last, item)?;
        Ok(added)
    }

    /// Puts items of these states last in the last set, all with one origin; no state stands twice, and
    /// none of the items is there.
    #[inline(always)]
    pub fn append_all(&mut self, states: &[u32], origin: u32) -> Result<(), Memory>
        requires some { 0 < length self.old.sets }
        requires different { AreDifferent states.now }
        requires absent { (state : ℕ) → Contains states.now state → Contains (items_of self.old (last_set self.old)) (item_from origin state) → ⊥ }
        ensures last { OnOk result (self.new ≡ with_items self.old (items_from origin states.now)) }
        ensures before { before_last self.new ≡ before_last self.old }
        ensures err { OnErr result (self.new ≡ self.old) }
    {
        self.kept.reopen()?;
        append_all(&mut self.kept.last, states, origin)?;
        Ok(())
    }

    /// Puts last in the last set, each unless it is there, what is after the items that wait for the
    /// nonterminal in an earlier set: the items of the states after theirs, by `next`, with their
    /// origins.
    #[inline(always)]
    pub fn advance(&mut self, from: u32, non: u32, next: &[u32]) -> Result<(), Memory>
        requires from { suc from < length self.old.sets }
        requires there { AreThere next.now (items_of self.old from) (waiting_of self.old from non) }
        ensures advanced { OnOk result (Advanced next.now from non self.old self.new) }
        ensures waits { self.new.waits ≡ self.old.waits }
        ensures before { before_last self.new ≡ before_last self.old }
        ensures err { OnErr result (self.new ≡ self.old) }
    {
        self.kept.reopen()?;
        let (first, count) = find_again(&mut self.found, &self.kept.waits, from, non);
        let waits = self.kept.waits.list(from as usize);
        add_after(
            &mut self.kept.last,
            self.kept.items.list(from as usize),
            &waits[first..first + count],
            next,
        )?;
        Ok(())
    }

    /// The items of a set, in the order in which they were added.
    #[inline(always)]
    pub fn items(&self, set: u32) -> &[Item]
        requires { set < length self.now.sets }
        ensures { result.now ≡ items_of self.now set }
    {
        if set as usize == self.kept.items.len() {
            self.kept.last.as_slice()
        } else {
            self.kept.items.list(set as usize)
        }
    }

    /// Whether the set has the item: in constant expected time where it is the last one and later ones
    /// were not removed, and in time linear in the set else.
    pub fn has(&self, set: u32, item: Item) -> bool
        requires { set < length self.now.sets }
        ensures { IsTrue result ↔ Contains (items_of self.now set) item }
    {
        if set as usize == self.kept.items.len() {
            has(&self.kept.last, item)
        } else {
            self.items(set).contains(&item)
        }
    }

    /// The item at place k of the set.
    #[inline(always)]
    pub fn item(&self, set: u32, k: u64) -> Item
        requires { k < length (items_of self.now set) }
        ensures { slice_get (items_of self.now set) k ≡ Some result }
    {
        self.items(set)[k as usize]
    }

    /// The number of the set's items.
    #[inline(always)]
    pub fn len(&self, set: u32) -> u64
        requires { set < length self.now.sets }
        ensures { result ≡ length (items_of self.now set) }
    {
        self.items(set).len() as u64
    }

    /// The number of sets, each of which has different items.
    pub fn sets(&self) -> u32
        ensures len { result ≡ length self.now.sets }
        ensures different { (set : ℕ) → AreDifferent (items_of self.now set) }
    {
        let finished = self.kept.items.len() as u32;
        if self.kept.is_open {
            finished + 1
        } else {
            finished
        }
    }

    /// Puts the number k of an item of the last set last in the nonterminal's waiting list there.
    #[inline(always)]
    pub fn wait(&mut self, non: u32, k: u64) -> Result<(), Memory>
        requires { k < length (items_of self.old (last_set self.old)) }
        ensures sets { OnOk result (self.new.sets ≡ self.old.sets) }
        ensures there { OnOk result (waiting_of self.new (last_set self.old) non ≡ waiting_of self.old (last_set self.old) non ++ k ∷ []) }
        ensures others { OnOk result ((other : ℕ) → other ≢ non → waiting_of self.new (last_set self.old) other ≡ waiting_of self.old (last_set self.old) other) }
        ensures earlier { OnOk result ((set other : ℕ) → set ≢ last_set self.old → waiting_of self.new set other ≡ waiting_of self.old set other) }
        ensures before { before_last self.new ≡ before_last self.old }
        ensures err { OnErr result (self.new ≡ self.old) }
    {
        self.kept.reopen()?;
        self.kept.waiting.push(Waiter { non, number: k })?;
        Ok(())
    }

    /// Keeps the first sets, with their waiting lists; takes no memory.
    pub fn truncate(&mut self, sets: u32)
        requires { sets ≤ length self.old.sets }
        ensures { self.new ≡ first_sets sets self.old }
    {
        let count = sets as usize;
        if count <= self.kept.items.len() {
            self.kept.items.truncate(count);
            self.kept.waits.truncate(count);
            forget(&mut self.found);
            self.kept.is_open = false;
        }
    }

    /// The length of the nonterminal's waiting list in the set: in time linear in it and logarithmic in
    /// the entries of the set's lists, or linear in these where the set is the last one.
    pub fn waiting(&self, set: u32, non: u32) -> u64
        requires { set < length self.now.sets }
        ensures { result ≡ length (waiting_of self.now set non) }
    {
        if set as usize == self.kept.items.len() {
            return count(&self.kept.waiting, non) as u64;
        }
        let (_, count) = find(self.kept.waits.list(set as usize), non);
        count as u64
    }

    /// Entry n of the nonterminal's waiting list in the set: a number of an item of the set. In the time
    /// that `waiting` takes.
    pub fn waiter(&self, set: u32, non: u32, n: u64) -> u64
        requires { n < length (waiting_of self.now set non) }
        ensures { slice_get (waiting_of self.now set non) n ≡ Some result }
    {
        if set as usize == self.kept.items.len() {
            return nth(&self.kept.waiting, non, n);
        }
        let waits = self.kept.waits.list(set as usize);
        let (first, _) = find(waits, non);
        waits[first + n as usize].number
    }
}
