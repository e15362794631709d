ghost use Rattle.std.specs.Prelude.{◌≡◌, ◌<◌, ◌≤◌, ◌+◌, ◌↔◌, ◌^◌, suc, ℕ, false, [], ◌∷◌, ◌++◌, length, take, true, ◌⊎◌, slice_index_or, Contains, IsTrue, IfOk, OnErr};
ghost use Rattle.xs_class.specs.{Has};
ghost use Rattle.xs_chart.specs.{set_limit, items_of, item_from};
ghost use Rattle.xs_gram.specs.{InLang, IsFront, IsSound};
ghost use Rattle.xs_gram.specs.Grammar.{Grammar};
ghost use Rattle.xs_earley.specs.Facts.{HasAtoms};
ghost use Rattle.xs_earley.specs.Running.{IsRunOf};

use crate::begun::Begun;
use crate::called::Called;
use crate::facts::Facts;
use crate::following::following;
use crate::stage::{first_set, goes_on, next_set};
use std::alloc::Global;
use std::marker::Model;
use xs_chart::{Chart, Item};
use xs_class::{Class, Memory, Sym};
use xs_flat::FlatLists;
use xs_gram::Gram;

/// A recogniser that reads a document symbol by symbol, and can go back.
///
/// Contracts see it as the word so far, its chart, and what it keeps beside them. It is of one
/// grammar, the one with which it began; `IsRunOf` says what then holds at every moment.
///
/// A long stretch of symbols of one atom, such as the letters of a paragraph, comes soon to sets that
/// are the same. From then on the run is `steady`: a symbol of that atom repeats the last set, and
/// nothing is gathered for it.
#[derive(Drop)]
pub struct Run {
    facts: Facts,
    word: Vec<Sym>,
    chart: Chart,
    begun: FlatLists<Begun>,
    called: Called,
    due: Vec<Item>,
    fresh: Vec<Begun>,
    atom: u16,
    steady: bool,
}

impl Model for Run {
    ghost use Rattle.std.specs.Prelude.{length};
    ghost use Rattle.xs_earley.specs.Running.{Running};

    ghost Value = { Running };

    ghost view = { λ r. record { word = r.word.items; chart = r.chart; begun = r.begun; facts = r.facts; marks = length r.called; atom = r.atom; steady = r.steady } };
}

/// Whether set `at` has the item of one of these states from the front of the document.
fn has_any(chart: &Chart, at: u32, states: &[u32]) -> bool
    requires at { at < length chart.now.sets }
    ensures { IsTrue result ↔ ((state : ℕ) × Contains states.now state × Contains (items_of chart.now at) (item_from 0 state)) }
{
    'states: for state in states {
        if chart.has(
            at,
            Item {
                state: *state,
                origin: 0,
            },
        ) {
            return true;
        }
    }
    false
}

/// Whether the two lists have the same items in one order.
#[inline(always)]
fn are_same(items: &[Item], others: &[Item]) -> bool
    ensures { IsTrue result ↔ (items.now ≡ others.now) }
{
    items == others
}

/// Whether no word is begun in either list.
#[inline(always)]
fn are_unbegun(begun: &[Begun], fresh: &[Begun]) -> bool
    ensures { IsTrue result ↔ ((begun.now ≡ []) × (fresh.now ≡ [])) }
{
    begun.is_empty() && fresh.is_empty()
}

/// Whether the grammar has atoms, set `at` and the one after it are the same, and no word is begun in
/// either.
#[inline(always)]
fn is_repeated(
    facts: &Facts,
    chart: &Chart,
    begun: &FlatLists<Begun>,
    fresh: &[Begun],
    at: u32,
) -> bool
    requires there { suc at < length chart.now.sets }
    requires row { at < length begun.now }
    requires few { at + 1 < 2 ^ 32 }
    ensures { IsTrue result ↔ (HasAtoms facts.now × (slice_index_or begun.now at [] ≡ []) × (fresh.now ≡ []) × (items_of chart.now (suc at) ≡ items_of chart.now at)) }
{
    if !are_unbegun(begun.list(at as usize), fresh) {
        return false;
    }
    match &facts.atoms {
        Some(_) => are_same(chart.items(at + 1), chart.items(at)),
        None => false,
    }
}

/// Whether it is known that a symbol of this atom repeats the last set.
#[inline(always)]
fn repeats_last(steady: bool, atom: u16, last: u16) -> bool
    ensures { IsTrue result ↔ ((steady ≡ true) × (atom ≡ last)) }
{
    steady && atom == last
}

/// Whether it is known from now on: where it was known before, or where set `at` and the one after it
/// came to be the same; that is looked at only after two symbols that are alike.
#[inline(always)]
fn stays_steady(
    repeats: bool,
    is_alike: bool,
    facts: &Facts,
    chart: &Chart,
    begun: &FlatLists<Begun>,
    fresh: &[Begun],
    at: u32,
) -> bool
    requires there { suc at < length chart.now.sets }
    requires row { at < length begun.now }
    requires few { at + 1 < 2 ^ 32 }
    ensures { IsTrue result ↔ (IsTrue repeats ⊎ (IsTrue is_alike × HasAtoms facts.now × (slice_index_or begun.now at [] ≡ []) × (fresh.now ≡ []) × (items_of chart.now (suc at) ≡ items_of chart.now at))) }
{
    if repeats {
        return true;
    }
    is_alike && is_repeated(facts, chart, begun, fresh, at)
}

impl Run {
    /// A run of a grammar over the empty word. In time linear in the grammar, beyond what the first
    /// set leads to.
    pub fn begin(alloc: Global, g: &Gram) -> Result<Run, Memory>
        requires sound { IsSound g.now }
        ensures run { IfOk result (IsRunOf g.now) }
        ensures word { IfOk result (λ run. run.word ≡ []) }
    {
        let facts = Facts::of(alloc, g)?;
        let mut called = Called::new(alloc, g.nons() as usize)?;
        let mut chart = Chart::new(alloc)?;
        first_set(&mut chart, &mut called, g, &facts)?;
        let mut begun = FlatLists::new(alloc);
        begun.push(&[])?;
        Ok(Run {
            facts,
            word: Vec::new(alloc),
            chart,
            begun,
            called,
            due: Vec::new(alloc),
            fresh: Vec::new(alloc),
            atom: 0,
            steady: false,
        })
    }

    /// Reads one symbol more; true exactly where the word so far, followed by the symbol, begins a
    /// word of the language. Where it does not, and after `Memory`, the run is unchanged. In time linear
    /// in what the last set and the new one lead to.
    pub fn step(&mut self, g: &Gram, symbol: Sym) -> Result<bool, Memory>
        requires run { IsRunOf g.now self.old }
        requires more { length self.old.word + 1 < set_limit }
        ensures next { IfOk result (λ next. IsTrue next ↔ IsFront g.now (self.old.word ++ symbol ∷ [])) }
        ensures run { IsRunOf g.now self.new }
        ensures word { IfOk result (λ next. IsTrue next → self.new.word ≡ self.old.word ++ symbol ∷ []) }
        ensures unchanged { IfOk result (λ next. next ≡ false → self.new ≡ self.old) }
        ensures err { OnErr result (self.new ≡ self.old) }
    {
        let atom = self.facts.atom(symbol);
        let repeats = repeats_last(self.steady, atom, self.atom);
        if !goes_on(
            &mut self.due,
            &mut self.fresh,
            g,
            &self.facts,
            &self.word,
            &self.chart,
            &self.begun,
            symbol,
            atom,
            repeats,
        )? {
            return Ok(false);
        }
        let length = self.word.len();
        let read = next_set(
            &mut self.word,
            &mut self.chart,
            &mut self.begun,
            &mut self.called,
            g,
            &self.facts,
            symbol,
            &self.due,
            &self.fresh,
            repeats,
        );
        match read {
            Ok(()) => {
                self.steady = stays_steady(
                    repeats,
                    atom == self.atom,
                    &self.facts,
                    &self.chart,
                    &self.begun,
                    &self.fresh,
                    length as u32,
                );
                self.atom = atom;
                Ok(true)
            }
            Err(memory) => {
                self.word.truncate(length);
                self.chart.truncate(length as u32 + 1);
                self.begun.truncate(length + 1);
                Err(memory)
            }
        }
    }

    /// Goes back to the first symbols; takes no memory.
    pub fn back(&mut self, len: u32)
        requires run { (g : Grammar) × IsRunOf g self.old }
        requires len { len ≤ length self.old.word }
        ensures word { self.new.word ≡ take len self.old.word }
        ensures run { (g : Grammar) → IsRunOf g self.old → IsRunOf g self.new }
    {
        self.steady = false;
        self.word.truncate(len as usize);
        self.chart.truncate(len + 1);
        self.begun.truncate(len as usize + 1);
    }

    /// The symbols by which the first `at` symbols of the word so far go on to begin a word of the
    /// language. In time n log n of the ranges of the classes by which their set goes on.
    pub fn next(&self, alloc: Global, g: &Gram, at: u32) -> Result<Class, Memory>
        requires run { IsRunOf g.now self.now }
        requires at { at ≤ length self.now.word }
        ensures { IfOk result (λ class. (s : ℕ) → Has class s ↔ IsFront g.now (take at self.now.word ++ s ∷ [])) }
    {
        let class = following(
            alloc,
            g,
            &self.facts,
            &self.word,
            &self.chart,
            &self.begun,
            at,
        )?;
        Ok(class)
    }

    /// The number of symbols so far.
    pub fn len(&self) -> usize
        ensures { result ≡ length self.now.word }
    {
        self.word.len()
    }

    /// Whether the word so far is of the language; takes no memory. In constant expected time for each
    /// rule of the start, and after `back` in time linear in the last set for each.
    pub fn whole(&self) -> bool
        requires run { (g : Grammar) × IsRunOf g self.now }
        ensures { (g : Grammar) → IsRunOf g self.now → IsTrue result ↔ InLang g self.now.word }
    {
        has_any(&self.chart, self.word.len() as u32, &self.facts.ends)
    }

    /// The chart of the word so far.
    pub fn chart(&self) -> &Chart
        ensures { result.now ≡ self.now.chart }
    {
        &self.chart
    }

    /// The chart of the word so far, of which nothing else is kept.
    pub fn into_chart(self) -> Chart
        ensures { result ≡ self.chart }
    {
        self.chart
    }
}
