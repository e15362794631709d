ghost use Rattle.std.specs.Prelude.{◌≡◌, ◌<◌, true, false, set, length, OnOk};
ghost use Rattle.xs_screen.specs.Fixed.{IsFixed};
ghost use Rattle.xs_screen.specs.Screens.{AreDoubts};

use xs_class::Memory;
use xs_gram::{GItem, Gram};

/// Says in the list, for each place of a rule's spread items, whether its cut is in doubt without a
/// look at any net: it is not where all items before it, or all after it, are fixed words, since the
/// front or the rest has one loose word then. In time linear in the rule.
pub fn fixed_doubts(g: &Gram, rule: u32, doubts: &mut Vec<bool>) -> Result<(), Memory>
    requires { rule < length g.now.rules }
    ensures { OnOk result (AreDoubts g.now rule doubts.new.items) }
{
    doubts.clear();
    doubts.resize(g.spread(rule).len() + 1, true)?;
    clear_fronts(g, rule, doubts);
    clear_rests(g, rule, doubts);
    Ok(())
}

/// Takes away the doubt of those cuts before which all items are fixed words.
fn clear_fronts(g: &Gram, rule: u32, doubts: &mut Vec<bool>)
    requires rule { rule < length g.now.rules }
    requires doubts { AreDoubts g.now rule doubts.old.items }
    ensures { AreDoubts g.now rule doubts.new.items }
{
    let items = g.spread(rule);
    'places: for place in 0..items.len() as u32 {
        clear_doubt(doubts, place);
        if !is_fixed(&items[place as usize]) {
            return;
        }
    }
}

/// Takes away the doubt of those cuts after which all items are fixed words.
fn clear_rests(g: &Gram, rule: u32, doubts: &mut Vec<bool>)
    requires rule { rule < length g.now.rules }
    requires doubts { AreDoubts g.now rule doubts.old.items }
    ensures { AreDoubts g.now rule doubts.new.items }
{
    let items = g.spread(rule);
    let mut place = items.len() as u32;
    clear_doubt(doubts, place);
    'places: while place > 0 {
        place -= 1;
        if !is_fixed(&items[place as usize]) {
            return;
        }
        clear_doubt(doubts, place);
    }
}

/// Whether an item is a fixed word.
fn is_fixed(item: &GItem) -> bool
    ensures { result ≡ true → IsFixed item.now }
{
    match item {
        GItem::Fixed(_) => true,
        GItem::Term { .. } | GItem::Non { .. } | GItem::Skip { .. } => false,
    }
}

/// Takes away the doubt of a cut.
pub fn clear_doubt(doubts: &mut Vec<bool>, cut: u32)
    ensures { doubts.new.items ≡ set doubts.old.items cut false }
{
    if (cut as usize) < doubts.len() {
        doubts[cut as usize] = false;
    }
}

/// Whether any cut is in doubt.
pub fn are_any(doubts: &[bool]) -> bool {
    doubts.iter().any(|doubt| *doubt)
}
