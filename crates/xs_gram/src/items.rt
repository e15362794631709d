ghost use Rattle.std.specs.Prelude.{◌≡◌, ◌++◌, ◌∷◌, ℕ, [], length, OnErr, OnOk};
ghost use Rattle.xs_gram.specs.declared.parts.GItem.TheVariants as G;
ghost use Rattle.xs_gram.specs.Grammar.{slots};

use crate::GItem;
use std::alloc::Global;
use xs_class::{Memory, Sym, Word};

/// Appends a fixed word of one symbol, or the items stay as they were.
pub fn push_symbol(alloc: Global, symbol: Sym, items: &mut Vec<GItem>) -> Result<(), Memory>
    ensures ok { OnOk result (items.new.items ≡ items.old.items ++ G.Fixed (symbol ∷ []) ∷ []) }
    ensures err { OnErr result (items.new.items ≡ items.old.items) }
{
    let mut word = Word::new(alloc);
    word.push(symbol)?;
    items.push(GItem::Fixed(word))?;
    Ok(())
}

/// The symbol of an item that is a fixed word of one symbol, as each fence among spread items is.
pub fn fence_symbol(item: &GItem) -> Sym
    requires { (s : ℕ) × (item.now ≡ G.Fixed (s ∷ [])) }
    ensures { item.now ≡ G.Fixed (result ∷ []) }
{
    match item {
        GItem::Fixed(word) => word.at(0),
        _ => unreachable!(),
    }
}

/// The number of slots of the items, in time linear in them.
pub fn slot_count(items: &[GItem]) -> usize
    ensures { result ≡ length (slots items.now) }
{
    let mut count = 0;
    'items: for item in items {
        match item {
            GItem::Fixed(_) | GItem::Skip { .. } => (),
            GItem::Term { .. } | GItem::Non { .. } => count += 1,
        }
    }
    count
}
