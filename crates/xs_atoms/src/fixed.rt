ghost use Rattle.std.specs.Prelude.{◌≡◌, ◌++◌, ◌∷◌, [], IfOk};
ghost use Rattle.xs_atoms.specs.Fixed.{word_ranges, items_ranges, rules_ranges};

use std::alloc::Global;
use xs_class::{Memory, Sym};
use xs_gram::{GItem, Gram};

/// The symbols of the fixed words of a grammar, each as a range.
pub fn fixed_ranges(alloc: Global, g: &Gram) -> Result<Vec<(u32, u32)>, Memory>
    ensures { IfOk result (λ ranges. ranges.items ≡ rules_ranges g.now.rules) }
{
    let mut ranges = Vec::new(alloc);
    'rules: for rule in 0..g.rules() {
        push_items(&mut ranges, g.items(rule))?;
    }
    Ok(ranges)
}

/// Appends the symbols of fixed words among the items.
fn push_items(ranges: &mut Vec<(u32, u32)>, items: &[GItem]) -> Result<(), Memory>
    ensures { IfOk result (λ _. ranges.new.items ≡ ranges.old.items ++ items_ranges items.now) }
{
    'items: for item in items {
        push_item(ranges, item)?;
    }
    Ok(())
}

/// Appends the symbols of an item that is a fixed word.
fn push_item(ranges: &mut Vec<(u32, u32)>, item: &GItem) -> Result<(), Memory>
    ensures { IfOk result (λ _. ranges.new.items ≡ ranges.old.items ++ items_ranges (item.now ∷ [])) }
{
    match item {
        GItem::Fixed(word) => push_symbols(ranges, word.as_slice()),
        GItem::Term { .. } | GItem::Non { .. } | GItem::Skip { .. } => Ok(()),
    }
}

/// Appends the symbols.
fn push_symbols(ranges: &mut Vec<(u32, u32)>, symbols: &[Sym]) -> Result<(), Memory>
    ensures { IfOk result (λ _. ranges.new.items ≡ ranges.old.items ++ word_ranges symbols.now) }
{
    'symbols: for symbol in symbols {
        ranges.push((symbol.number(), symbol.number()))?;
    }
    Ok(())
}
