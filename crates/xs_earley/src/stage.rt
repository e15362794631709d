ghost use Rattle.std.specs.Prelude.{◌≡◌, ◌≢◌, ◌<◌, ◌+◌, ◌↔◌, suc, ℕ, [], ◌∷◌, ◌++◌, length, false, if◌then◌else◌, slice_index_or, IsTrue, IfOk, OnOk};
ghost use Rattle.xs_chart.specs.{set_limit, items_of, waiting_of, last_set, first_sets};
ghost use Rattle.xs_gram.specs.{IsFront, IsSound};
ghost use Rattle.xs_chart_laws.specs.{IsChartOf, HasWaiters};
ghost use Rattle.xs_earley.specs.Arriving.{gathered, item_due, item_begun, more_due, more_begun, AreBegun};
ghost use Rattle.xs_earley.specs.Facts.{AreFacts, IsAtom};
ghost use Rattle.xs_earley.specs.Running.{unsteady, IsSteady, IsRunOf};
ghost use Rattle.xs_earley.specs.Stages.{AreDue, KeepsFirst};

use crate::adding::put_all;
use crate::arrive::{arrive_all, read_all};
use crate::begun::Begun;
use crate::called::Called;
use crate::facts::Facts;
use crate::settle::close;
use crate::steps::predict;
use xs_chart::{Chart, Item};
use xs_class::{Memory, Sym};
use xs_flat::FlatLists;
use xs_gram::Gram;

/// Fills the chart's first set, of the empty document.
pub fn first_set(
    chart: &mut Chart,
    called: &mut Called,
    g: &Gram,
    facts: &Facts,
) -> Result<(), Memory>
    requires sound { IsSound g.now }
    requires facts { AreFacts g.now facts.now }
    requires marks { length called.old ≡ g.now.nons }
    requires unmarked { (k : ℕ) → slice_index_or called.old k false ≡ false }
    requires sets { chart.old.sets ≡ [] }
    requires waits { chart.old.waits ≡ [] }
    ensures chart { IfOk result (λ _. IsChartOf g.now [] chart.new.sets) }
    ensures waiters { IfOk result (λ _. HasWaiters g.now chart.new) }
    ensures marks { length called.new ≡ length called.old }
{
    chart.push_set()?;
    predict(chart, called, g, facts, 0, g.start())?;
    close(chart, called, g, facts, &[], 0)?;
    let _different = chart.sets();
    Ok(())
}

/// Gathers what the last set and its begun words lead to by a symbol.
fn gather(
    due: &mut Vec<Item>,
    fresh: &mut Vec<Begun>,
    g: &Gram,
    facts: &Facts,
    word: &[Sym],
    chart: &Chart,
    begun: &FlatLists<Begun>,
    symbol: Sym,
    atom: u16,
) -> Result<(), Memory>
    requires run { IsRunOf g.now (unsteady word.now chart.now begun.now facts.now g.now.nons) }
    requires atom { IsAtom facts.now symbol atom }
    ensures due { IfOk result (λ _. AreDue g.now word.now symbol chart.now.sets due.new.items) }
    ensures fresh { IfOk result (λ _. AreBegun g.now (word.now ++ symbol ∷ []) chart.now.sets (suc (length word.now)) fresh.new.items) }
    ensures due_is { IfOk result (λ _. due.new.items ≡ gathered (item_due g.now facts.now symbol) (items_of chart.now (length word.now)) ++ gathered (more_due facts.now symbol) (slice_index_or begun.now (length word.now) [])) }
    ensures fresh_is { IfOk result (λ _. fresh.new.items ≡ gathered (item_begun facts.now symbol) (items_of chart.now (length word.now)) ++ gathered (more_begun facts.now symbol) (slice_index_or begun.now (length word.now) [])) }
{
    due.clear();
    fresh.clear();
    let last = word.len();
    arrive_all(due, fresh, g, facts, symbol, atom, chart.items(last as u32))?;
    read_all(due, fresh, facts, symbol, begun.list(last))?;
    Ok(())
}

/// Whether neither an item nor a begun word was gathered.
#[inline(always)]
fn is_nothing(due: &[Item], fresh: &[Begun]) -> bool
    ensures { IsTrue result ↔ ((due.now ≡ []) × (fresh.now ≡ [])) }
{
    due.is_empty() && fresh.is_empty()
}

/// Whether a word of the language begins with the word so far and the symbol. What the symbol leads to
/// is gathered for that, unless it is known that it repeats the last set; then no word is begun.
pub fn goes_on(
    due: &mut Vec<Item>,
    fresh: &mut Vec<Begun>,
    g: &Gram,
    facts: &Facts,
    word: &[Sym],
    chart: &Chart,
    begun: &FlatLists<Begun>,
    symbol: Sym,
    atom: u16,
    repeats: bool,
) -> Result<bool, Memory>
    requires run { IsRunOf g.now (unsteady word.now chart.now begun.now facts.now g.now.nons) }
    requires atom { IsAtom facts.now symbol atom }
    requires steady { IsTrue repeats → IsSteady g.now atom word.now chart.now begun.now facts.now }
    ensures next { IfOk result (λ next. IsTrue next ↔ IsFront g.now (word.now ++ symbol ∷ [])) }
    ensures fresh { IfOk result (λ _. AreBegun g.now (word.now ++ symbol ∷ []) chart.now.sets (suc (length word.now)) fresh.new.items) }
    ensures none { IfOk result (λ _. IsTrue repeats → fresh.new.items ≡ []) }
    ensures due { IfOk result (λ _. repeats ≡ false → AreDue g.now word.now symbol chart.now.sets due.new.items) }
    ensures due_is { IfOk result (λ _. repeats ≡ false → due.new.items ≡ gathered (item_due g.now facts.now symbol) (items_of chart.now (length word.now)) ++ gathered (more_due facts.now symbol) (slice_index_or begun.now (length word.now) [])) }
    ensures fresh_is { IfOk result (λ _. repeats ≡ false → fresh.new.items ≡ gathered (item_begun facts.now symbol) (items_of chart.now (length word.now)) ++ gathered (more_begun facts.now symbol) (slice_index_or begun.now (length word.now) [])) }
{
    if repeats {
        fresh.clear();
        return Ok(true);
    }
    gather(due, fresh, g, facts, word, chart, begun, symbol, atom)?;
    Ok(!is_nothing(due, fresh))
}

/// Opens the next set: with what the last one has where that is repeated, else an empty one.
#[inline(always)]
fn open_set(chart: &mut Chart, repeats: bool) -> Result<(), Memory>
    requires few { length chart.old.sets < set_limit }
    requires some { IsTrue repeats → 0 < length chart.old.sets }
    ensures sets { OnOk result (chart.new.sets ≡ chart.old.sets ++ (if repeats then items_of chart.old (last_set chart.old) else []) ∷ []) }
    ensures waiting { (set non : ℕ) → set ≢ length chart.old.sets → waiting_of chart.new set non ≡ waiting_of chart.old set non }
    ensures last { OnOk result ((non : ℕ) → waiting_of chart.new (length chart.old.sets) non ≡ (if repeats then waiting_of chart.old (last_set chart.old) non else [])) }
    ensures before { first_sets (length chart.old.sets) chart.new ≡ chart.old }
{
    if repeats {
        chart.repeat_set()?;
        return Ok(());
    }
    chart.push_set()?;
    Ok(())
}

/// Fills the next set: with the last set once more where the symbol repeats it, else with what is due,
/// and all that it leads to there.
pub fn next_set(
    word: &mut Vec<Sym>,
    chart: &mut Chart,
    begun: &mut FlatLists<Begun>,
    called: &mut Called,
    g: &Gram,
    facts: &Facts,
    symbol: Sym,
    due: &[Item],
    fresh: &[Begun],
    repeats: bool,
) -> Result<(), Memory>
    requires run { IsRunOf g.now (unsteady word.old.items chart.old begun.old facts.now (length called.old)) }
    requires more { length word.old.items + 1 < set_limit }
    requires steady { IsTrue repeats → (atom : ℕ) × IsAtom facts.now symbol atom × IsSteady g.now atom word.old.items chart.old begun.old facts.now }
    requires none { IsTrue repeats → fresh.now ≡ [] }
    requires due { repeats ≡ false → AreDue g.now word.old.items symbol chart.old.sets due.now }
    requires fresh { AreBegun g.now (word.old.items ++ symbol ∷ []) chart.old.sets (suc (length word.old.items)) fresh.now }
    requires front { IsFront g.now (word.old.items ++ symbol ∷ []) }
    ensures run { IfOk result (λ _. IsRunOf g.now (unsteady word.new.items chart.new begun.new facts.now (length called.new))) }
    ensures word { IfOk result (λ _. word.new.items ≡ word.old.items ++ symbol ∷ []) }
    ensures begun { IfOk result (λ _. begun.new ≡ begun.old ++ fresh.now ∷ []) }
    ensures steady { IfOk result (λ _. IsTrue repeats → (atom : ℕ) → IsAtom facts.now symbol atom → IsSteady g.now atom word.old.items chart.old begun.old facts.now → IsSteady g.now atom word.new.items chart.new begun.new facts.now) }
    ensures marks { length called.new ≡ length called.old }
    ensures kept { KeepsFirst word.old.items word.new.items begun.old begun.new chart.old chart.new }
{
    open_set(chart, repeats)?;
    word.push(symbol)?;
    begun.push(fresh)?;
    if repeats {
        return Ok(());
    }
    let at = word.len() as u32;
    put_all(chart, at, due)?;
    called.clear();
    close(chart, called, g, facts, word, at)?;
    let _different = chart.sets();
    Ok(())
}
