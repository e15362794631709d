ghost use Rattle.std.specs.Prelude.{◌≡◌, suc, ℕ, List, length, IfOk, Contains};
ghost use Rattle.xs_chart.specs.declared.item.Item.{Item as AnyItem};
ghost use Rattle.xs_chart.specs.{items_of, before_last};
ghost use Rattle.xs_gram.specs.declared.places.Place.{Place};
ghost use Rattle.xs_gram.specs.Grammar.{Grammar};
ghost use Rattle.xs_chart_laws.specs.{IsNumber};
ghost use Rattle.xs_earley.specs.Adding.{Puts, Adds, Is, Passes};
ghost use Rattle.xs_earley.specs.Facts.{IsRow};

use crate::rows::Row;
use xs_chart::{Chart, Item};
use xs_class::Memory;

/// Adds the item of a state and an origin to the last set, unless it is there.
#[inline(always)]
fn put(chart: &mut Chart, at: u32, state: u32, origin: u32) -> Result<(), Memory>
    requires last { length chart.old.sets ≡ suc at }
    ensures adds { IfOk result (λ _. (g : Grammar) (c : Place) → IsNumber g state c → Adds g at (Is c origin) chart.old.sets chart.new.sets) }
    ensures waits { chart.new.waits ≡ chart.old.waits }
    ensures before { before_last chart.new ≡ before_last chart.old }
{
    chart.add(Item { state, origin })?;
    Ok(())
}

/// Adds the items to the last set, each unless it is there.
pub fn put_all(chart: &mut Chart, at: u32, items: &[Item]) -> Result<(), Memory>
    requires last { length chart.old.sets ≡ suc at }
    ensures puts { IfOk result (λ _. Puts at (Contains items.now) chart.old.sets chart.new.sets) }
    ensures there { IfOk result (λ _. (item : AnyItem) → Contains items.now item → Contains (items_of chart.new at) item) }
    ensures waits { chart.new.waits ≡ chart.old.waits }
    ensures before { before_last chart.new ≡ before_last chart.old }
{
    'items: for item in items {
        chart.add(*item)?;
    }
    Ok(())
}

/// Adds the item after the place of a row to the last set, where the place may be passed over.
#[inline(always)]
pub fn pass(chart: &mut Chart, at: u32, row: Row, origin: u32) -> Result<(), Memory>
    requires last { length chart.old.sets ≡ suc at }
    ensures adds { IfOk result (λ _. (g : Grammar) (letters : List ℕ) (c : Place) → IsRow g letters c row → Adds g at (Passes g c origin) chart.old.sets chart.new.sets) }
    ensures waits { chart.new.waits ≡ chart.old.waits }
    ensures before { before_last chart.new ≡ before_last chart.old }
{
    if !row.passes {
        return Ok(());
    }
    put(chart, at, row.next, origin)?;
    Ok(())
}
