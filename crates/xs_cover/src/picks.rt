ghost use Rattle.std.specs.Prelude.{◌≡◌, ◌⊎◌, ◌+◌, ℕ, ◌<◌, ◌≤◌, List, [], length, replicate, slice_get, IfOk, OnOk, IfSome, IfNone};
ghost use Rattle.std.specs.BinaryHeap.{IsHeap, heap_items};
ghost use Rattle.xs_forest.specs.{IsEarlier};
ghost use Rattle.xs_gram.specs.declared.parts.GItem.{GItem};
ghost use Rattle.xs_gram.specs.declared.parts.GItem.TheVariants.{Non};
ghost use Rattle.xs_gram.specs.{ItemAt, items, rule_of};
ghost use Rattle.xs_pair.specs.{IsSoundPair};
ghost use Rattle.xs_cover.specs.declared.picks.Waiter.{Waiter};
ghost use Rattle.xs_cover.specs.declared.pick.Pick.TheVariants.{Whole, Front};
ghost use Rattle.xs_cover.specs.Costs.{rule_cost};
ghost use Rattle.xs_cover.specs.Leaves.{AreLeaves};
ghost use Rattle.xs_cover.specs.Picks.{ArePicks, HasPassedIn, HasRow, HaveGrown, IsAdded, HaveRows, HaveSome, IsDear, IsDearest, IsFirst, IsKnownItem, IsLeft, IsNext, IsRight, IsSetIn, IsSetOrWaits, IsWaiter, by_left, waiters_at};
ghost use Rattle.xs_cover.specs.Prices.{IsClosed, costs_in};
ghost use Rattle.xs_cover.specs.Tables.{at};

use crate::Pick;
use crate::leaves::Leaves;
use crate::prices::{MOST, Prices, number_at};
use bumpalo::Bump;
use std::alloc::Global;
use std::collections::BinaryHeap;
use xs_class::{Listed, Memory, Side, empty_lists};
use xs_forest::{AddFault, Alt, Forest};
use xs_gram::GItem;
use xs_pair::Two;

/// Rules by what is left of the bound on costs when theirs is taken off: the cheapest comes first.
type Ready = BinaryHeap<(u64, u32)>;

/// A rule that waits at one of its items for the nonterminal there.
#[derive(Clone, Copy)]
pub struct Waiter {
    pub rule: u32,
    pub dot: u32,
}

/// The row of a rule's first `dot` items, which no items have not.
fn front_row(forest: &Forest<'_, Pick>, rule: u32, dot: u32) -> Option<u64>
    requires { 0 < dot → HasRow forest.now (Front rule dot) }
    ensures { IsLeft forest.now rule dot result }
{
    if dot == 0 {
        return None;
    }
    forest.find(Pick::Front { rule, dot })
}

/// The row of an item that is a nonterminal.
fn item_row(forest: &Forest<'_, Pick>, item: &GItem) -> Option<u64>
    requires { (n s : ℕ) → item.now ≡ Non n s → HasRow forest.now (Whole n) }
    ensures { IsRight forest.now item.now result }
{
    match item {
        GItem::Fixed(_) | GItem::Term { .. } | GItem::Skip { .. } => None,
        GItem::Non { non, .. } => forest.find(Pick::Whole(*non)),
    }
}

/// Adds a row with one alternative, unless a row has the label.
fn add(forest: &mut Forest<'_, Pick>, label: Pick, alt: Alt) -> Result<(), Memory>
    requires left { IsEarlier alt.left (length forest.old) }
    requires right { IsEarlier alt.right (length forest.old) }
    ensures { OnOk result (IsAdded forest.old label alt forest.new) }
{
    match forest.add_row(label, &[alt]) {
        Ok(_) => Ok(()),
        Err(AddFault::Repeated { .. }) => Ok(()),
        Err(AddFault::Memory) => Err(Memory),
    }
}

/// Takes the entry that comes first out of a heap.
fn next(ready: &mut Ready) -> Option<(u64, u32)>
    requires { IsHeap by_left (heap_items ready.old) }
    ensures none { IfNone result (heap_items ready.old ≡ []) }
    ensures same { IfNone result (heap_items ready.new ≡ heap_items ready.old) }
    ensures some { IfSome result (λ e. IsNext (heap_items ready.old) e (heap_items ready.new)) }
{
    ready.pop()
}

/// A forest of least trees while it is made: what nonterminals cost, where each that costs less than
/// the bound has its row; the rules that wait for nonterminals; and those that wait for none.
#[derive(Drop)]
pub struct Picks<'b> {
    pub prices: Prices,
    pub forest: Forest<'b, Pick>,
    waiting: Vec<Listed<Waiter>>,
    ready: Ready,
}

impl<'b> Picks<'b> {
    /// No nonterminal has a row.
    fn new(
        alloc: Global,
        bump: &'b Bump<Global>,
        two: &Two,
        terms: Vec<u64>,
    ) -> Result<Picks<'b>, Memory>
        ensures prices { IfOk result (λ s. s.prices.terms.items ≡ terms.items) }
        ensures none { IfOk result (λ s. (n : ℕ) → n < two.now.text.nons → at s.prices.nons.items n ≡ 1000000000) }
        ensures full { IfOk result (λ s. s.prices.nons.items ≡ replicate two.now.text.nons 1000000000) }
        ensures forest { IfOk result (λ s. s.forest ≡ []) }
        ensures lists { IfOk result (λ s. length s.waiting.items ≡ two.now.text.nons) }
        ensures waiting { IfOk result (λ s. (n : ℕ) → waiters_at s.waiting.items n ≡ []) }
        ensures ready { IfOk result (λ s. heap_items s.ready ≡ []) }
        ensures ordered { IfOk result (λ s. IsHeap by_left (heap_items s.ready)) }
    {
        let count = two.gram(Side::Text).nons() as usize;
        let nons = vec![in alloc; MOST; count]?;
        Ok(Picks {
            prices: Prices { terms, nons },
            forest: Forest::new(alloc, bump)?,
            waiting: empty_lists(alloc, count)?,
            ready: BinaryHeap::new(alloc),
        })
    }

    /// The nonterminal that the item is, if it has no row.
    fn missing(&self, item: &GItem) -> Option<u32>
        ensures some { IfSome result (λ n. ((s : ℕ) × (item.now ≡ Non n s)) × (1000000000 ≤ at self.now.prices.nons.items n)) }
        ensures none { IfNone result (IsKnownItem self.now.prices.nons.items item.now) }
    {
        match item {
            GItem::Fixed(_) | GItem::Term { .. } | GItem::Skip { .. } => None,
            GItem::Non { non, .. } => {
                if number_at(&self.prices.nons, *non) < MOST {
                    None
                } else {
                    Some(*non)
                }
            }
        }
    }

    /// Lets a rule wait for a nonterminal.
    fn wait(&mut self, two: &Two, non: u32, waiter: Waiter) -> Result<(), Memory>
        requires picks { ArePicks two.now.text two.now.xml self.old }
        requires non { non < two.now.text.nons }
        requires waiter { IsWaiter two.now.text self.old.prices.nons.items self.old.forest non waiter }
        ensures picks { OnOk result (ArePicks two.now.text two.now.xml self.new) }
        ensures grown { OnOk result (HaveGrown self.old self.new) }
        ensures there { OnOk result ((k : ℕ) × (slice_get (waiters_at self.new.waiting.items non) k ≡ Some waiter)) }
    {
        let list = &mut self.waiting[non as usize];
        list.push(waiter)?;
        Ok(())
    }

    /// Adds the row of a rule's items up to one that is known.
    fn add_front(&mut self, two: &Two, rule: u32, dot: u32, item: &GItem) -> Result<(), Memory>
        requires sound { IsSoundPair two.now }
        requires picks { ArePicks two.now.text two.now.xml self.old }
        requires past { HasPassedIn two.now.text self.old rule dot }
        requires item { ItemAt two.now.text rule dot item.now }
        requires known { IsKnownItem self.old.prices.nons.items item.now }
        ensures picks { OnOk result (ArePicks two.now.text two.now.xml self.new) }
        ensures grown { OnOk result (HaveGrown self.old self.new) }
        ensures past { OnOk result (HasPassedIn two.now.text self.new rule (dot + 1)) }
    {
        let alt = Alt {
            rule,
            left: front_row(&self.forest, rule, dot),
            right: item_row(&self.forest, item),
        };
        let label = Pick::Front { rule, dot: dot + 1 };
        add(&mut self.forest, label, alt)
    }

    /// Adds a rule whose items are all known to those that are ready, if it costs less than the
    /// bound.
    fn add_ready(&mut self, two: &Two, rule: u32) -> Result<(), Memory>
        requires picks { ArePicks two.now.text two.now.xml self.old }
        requires rule { rule < length two.now.text.rules }
        requires past { HasPassedIn two.now.text self.old rule (length (items two.now.text rule)) }
        requires dear { IsDear two.now.text two.now.xml self.old rule }
        ensures picks { OnOk result (ArePicks two.now.text two.now.xml self.new) }
        ensures grown { OnOk result (HaveGrown self.old self.new) }
        ensures set { OnOk result (IsSetIn two.now.text two.now.xml self.new rule) }
    {
        let cost = self.prices.rule_cost(two, rule);
        if cost < MOST {
            self.ready.push((MOST - cost, rule))?;
        }
        Ok(())
    }

    /// Passes over the items of a rule from one on, up to a nonterminal that has no row yet, for
    /// which the rule then waits.
    fn pass(&mut self, two: &Two, rule: u32, from: u32) -> Result<(), Memory>
        requires sound { IsSoundPair two.now }
        requires picks { ArePicks two.now.text two.now.xml self.old }
        requires rule { rule < length two.now.text.rules }
        requires past { HasPassedIn two.now.text self.old rule from }
        requires dear { IsDear two.now.text two.now.xml self.old rule }
        ensures picks { OnOk result (ArePicks two.now.text two.now.xml self.new) }
        ensures grown { OnOk result (HaveGrown self.old self.new) }
        ensures set { OnOk result (IsSetIn two.now.text two.now.xml self.new rule) }
    {
        let all = two.gram(Side::Text).items(rule);
        let count = all.len() as u32;
        'items: for dot in from..count {
            let item = &all[dot as usize];
            if let Some(non) = self.missing(item) {
                self.wait(two, non, Waiter { rule, dot })?;
                return Ok(());
            }
            self.add_front(two, rule, dot, item)?;
        }
        self.add_ready(two, rule)
    }

    /// Passes over the first items of all rules.
    fn begin(&mut self, two: &Two) -> Result<(), Memory>
        requires sound { IsSoundPair two.now }
        requires picks { ArePicks two.now.text two.now.xml self.old }
        requires none { (n : ℕ) → n < two.now.text.nons → at self.old.prices.nons.items n ≡ 1000000000 }
        ensures picks { OnOk result (ArePicks two.now.text two.now.xml self.new) }
        ensures prices { OnOk result (self.new.prices ≡ self.old.prices) }
        ensures set { OnOk result ((r : ℕ) → r < length two.now.text.rules → IsSetIn two.now.text two.now.xml self.new r) }
    {
        'rules: for rule in 0..two.gram(Side::Text).rules() {
            self.pass(two, rule, 0)?;
        }
        Ok(())
    }

    /// Passes on the rules that wait for a nonterminal, which has its row now, and than which none
    /// that has one costs more.
    fn release(&mut self, two: &Two, non: u32) -> Result<(), Memory>
        requires sound { IsSoundPair two.now }
        requires picks { ArePicks two.now.text two.now.xml self.old }
        requires non { non < two.now.text.nons }
        requires dearest { IsDearest two.now.text self.old non }
        requires set { (r : ℕ) → r < length two.now.text.rules → IsSetOrWaits two.now.text two.now.xml self.old non r }
        ensures picks { OnOk result (ArePicks two.now.text two.now.xml self.new) }
        ensures prices { OnOk result (self.new.prices ≡ self.old.prices) }
        ensures set { OnOk result ((r : ℕ) → r < length two.now.text.rules → IsSetIn two.now.text two.now.xml self.new r) }
    {
        let count = self.waiting[non as usize].len();
        'waiters: for place in 0..count {
            let waiter = *self.waiting[non as usize].at(place);
            self.pass(two, waiter.rule, waiter.dot)?;
        }
        Ok(())
    }

    /// Adds the row of a nonterminal by a rule of it that none costs less than, and sets its cost.
    fn add_whole(&mut self, two: &Two, left: u64, rule: u32) -> Result<(), Memory>
        requires sound { IsSoundPair two.now }
        requires picks { ArePicks two.now.text two.now.xml self.old }
        requires first { IsFirst two.now.text two.now.xml self.old left rule }
        requires dearer { 1000000000 < at self.old.prices.nons.items (rule_of two.now.text rule).non + left }
        requires set { (r : ℕ) → r < length two.now.text.rules → IsSetIn two.now.text two.now.xml self.old r ⊎ (r ≡ rule) }
        ensures picks { OnOk result (ArePicks two.now.text two.now.xml self.new) }
        ensures terms { OnOk result (self.new.prices.terms.items ≡ self.old.prices.terms.items) }
        ensures dearest { OnOk result (IsDearest two.now.text self.new (rule_of two.now.text rule).non) }
        ensures set { OnOk result ((r : ℕ) → r < length two.now.text.rules → IsSetOrWaits two.now.text two.now.xml self.new (rule_of two.now.text rule).non r) }
    {
        let g = two.gram(Side::Text);
        let non = g.non_of(rule);
        let alt = Alt {
            rule,
            left: front_row(&self.forest, rule, g.items(rule).len() as u32),
            right: None,
        };
        add(&mut self.forest, Pick::Whole(non), alt)?;
        self.prices.nons[non as usize] = MOST - left;
        Ok(())
    }

    /// Makes the row of the nonterminal of a rule that is ready, and than which none that is ready
    /// costs less, unless it has its row.
    fn make(&mut self, two: &Two, left: u64, rule: u32) -> Result<(), Memory>
        requires sound { IsSoundPair two.now }
        requires picks { ArePicks two.now.text two.now.xml self.old }
        requires first { IsFirst two.now.text two.now.xml self.old left rule }
        requires set { (r : ℕ) → r < length two.now.text.rules → IsSetIn two.now.text two.now.xml self.old r ⊎ (r ≡ rule) }
        ensures picks { OnOk result (ArePicks two.now.text two.now.xml self.new) }
        ensures terms { OnOk result (self.new.prices.terms.items ≡ self.old.prices.terms.items) }
        ensures set { OnOk result ((r : ℕ) → r < length two.now.text.rules → IsSetIn two.now.text two.now.xml self.new r) }
    {
        let non = two.gram(Side::Text).non_of(rule);
        if number_at(&self.prices.nons, non) <= MOST - left {
            return Ok(());
        }
        self.add_whole(two, left, rule)?;
        self.release(two, non)
    }

    /// Makes rows until no rule is ready, which is long before 2^64 entries have come off the heap.
    fn settle(&mut self, two: &Two) -> Result<(), Memory>
        requires sound { IsSoundPair two.now }
        requires picks { ArePicks two.now.text two.now.xml self.old }
        requires set { (r : ℕ) → r < length two.now.text.rules → IsSetIn two.now.text two.now.xml self.old r }
        ensures picks { OnOk result (ArePicks two.now.text two.now.xml self.new) }
        ensures terms { OnOk result (self.new.prices.terms.items ≡ self.old.prices.terms.items) }
        ensures closed { OnOk result ((r : ℕ) → r < length two.now.text.rules → IsClosed two.now.text two.now.xml self.new.prices r) }
    {
        'entries: for _ in 0..u64::MAX {
            let Some((left, rule)) = next(&mut self.ready) else {
                return Ok(());
            };
            self.make(two, left, rule)?;
        }
        Err(Memory)
    }

    /// The forest of least trees of all nonterminals that cost less than the bound.
    ///
    /// Rules become ready in ascending order of what they cost, so that the first row of a
    /// nonterminal is by its cheapest rule, as by Knuth's generalization of Dijkstra's algorithm. In
    /// time n log n in the rules and their items.
    pub fn of(
        alloc: Global,
        bump: &'b Bump<Global>,
        two: &Two,
        terms: Vec<u64>,
    ) -> Result<Picks<'b>, Memory>
        requires sound { IsSoundPair two.now }
        requires terms { (words : List (List ℕ)) × AreLeaves two.now.text words terms.items }
        ensures terms { IfOk result (λ s. s.prices.terms.items ≡ terms.items) }
        ensures some { IfOk result (λ s. HaveSome two.now.text two.now.xml s.prices.terms.items s.prices.nons.items) }
        ensures rows { IfOk result (λ s. HaveRows two.now.text two.now.xml s.prices.terms.items s.prices.nons.items s.forest) }
        ensures closed { IfOk result (λ s. (r : ℕ) → r < length two.now.text.rules → IsClosed two.now.text two.now.xml s.prices r) }
    {
        let mut picks = Picks::new(alloc, bump, two, terms)?;
        picks.begin(two)?;
        picks.settle(two)?;
        Ok(picks)
    }
}
