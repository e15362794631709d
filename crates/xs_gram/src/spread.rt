ghost use Rattle.std.specs.Prelude.{◌≡◌, ◌<◌, ◌^◌, ◌++◌, ◌∷◌, ℕ, List, [], length, reverse, IfOk, OnOk};
ghost use Rattle.xs_gram.specs.declared.parts.GItem.{GItem as Item};
ghost use Rattle.xs_gram.specs.Fences.{is_left, is_right, is_fence, after_word, split_word, spread_items, spread};
ghost use Rattle.xs_gram.specs.Spreading.{opens, closes, waiting_from, partner_from, partners, AreSpreads, ArePartners};

use crate::body::Body;
use crate::items::push_symbol;
use crate::{GItem, GItems, Partners};
use std::alloc::Global;
use std::mem;
use xs_class::{Memory, Sym, Word};

/// Whether the symbol is a left one of the fences.
fn is_left(fences: &[(Sym, Sym)], symbol: Sym) -> bool
    ensures { result ≡ is_left fences.now symbol }
{
    'fences: for fence in fences {
        if fence.0 == symbol {
            return true;
        }
    }
    false
}

/// Whether the symbol is a right one of the fences.
fn is_right(fences: &[(Sym, Sym)], symbol: Sym) -> bool
    ensures { result ≡ is_right fences.now symbol }
{
    'fences: for fence in fences {
        if fence.1 == symbol {
            return true;
        }
    }
    false
}

/// Whether the symbol stands in a fence.
fn is_fence(fences: &[(Sym, Sym)], symbol: Sym) -> bool
    ensures { result ≡ is_fence fences.now symbol }
{
    is_left(fences, symbol) || is_right(fences, symbol)
}

/// Appends the word, if it is not empty, and leaves the empty word.
fn push_word(alloc: Global, word: &mut Word, out: &mut Vec<GItem>) -> Result<(), Memory>
    ensures { OnOk result ((word.new ≡ []) × (out.new.items ≡ out.old.items ++ after_word word.old [])) }
{
    if !word.is_empty() {
        let whole = mem::replace(word, Word::new(alloc));
        out.push(GItem::Fixed(whole))?;
    }
    Ok(())
}

/// Goes on by a symbol after a stretch of a word in which no fence symbol stands.
fn push_next(
    alloc: Global,
    fences: &[(Sym, Sym)],
    symbol: Sym,
    before: &mut Word,
    out: &mut Vec<GItem>,
) -> Result<(), Memory>
    ensures { OnOk result ((rest : List ℕ) → out.new.items ++ split_word fences.now before.new rest [] ≡ out.old.items ++ split_word fences.now before.old (symbol ∷ rest) []) }
{
    if is_fence(fences, symbol) {
        push_word(alloc, before, out)?;
        push_symbol(alloc, symbol, out)?;
    } else {
        before.push(symbol)?;
    }
    Ok(())
}

/// Appends the fixed words into which a word is split.
fn push_split(
    alloc: Global,
    fences: &[(Sym, Sym)],
    word: &Word,
    out: &mut Vec<GItem>,
) -> Result<(), Memory>
    ensures { OnOk result (out.new.items ≡ out.old.items ++ split_word fences.now [] word.now []) }
{
    let mut before = Word::new(alloc);
    'symbols: for symbol in word.as_slice() {
        push_next(alloc, fences, *symbol, &mut before, out)?;
    }
    push_word(alloc, &mut before, out)?;
    Ok(())
}

/// Appends an item, split if it is a fixed word.
fn push_spread(
    alloc: Global,
    fences: &[(Sym, Sym)],
    item: &GItem,
    out: &mut Vec<GItem>,
) -> Result<(), Memory>
    ensures { OnOk result ((rest : List Item) → out.new.items ++ spread_items fences.now rest ≡ out.old.items ++ spread_items fences.now (item.now ∷ rest)) }
{
    match item {
        GItem::Fixed(word) => push_split(alloc, fences, word, out)?,
        GItem::Term { term, slot } => out.push(GItem::Term {
            term: *term,
            slot: *slot,
        })?,
        GItem::Non { non, slot } => out.push(GItem::Non {
            non: *non,
            slot: *slot,
        })?,
        GItem::Skip { skip } => out.push(GItem::Skip { skip: *skip })?,
    }
    Ok(())
}

/// The items with each fixed word split at fence symbols.
fn spread_of(alloc: Global, fences: &[(Sym, Sym)], items: &[GItem]) -> Result<GItems, Memory>
    ensures { IfOk result (λ spread. spread ≡ spread_items fences.now items.now) }
{
    let mut out = Vec::with_capacity(alloc, items.len())?;
    'items: for item in items {
        push_spread(alloc, fences, item, &mut out)?;
    }
    Ok(GItems::from_vec(out))
}

/// Whether the item is a left fence.
fn opens(fences: &[(Sym, Sym)], item: &GItem) -> bool
    ensures { result ≡ opens fences.now item.now }
{
    match item {
        GItem::Fixed(word) => word.len() == 1 && is_left(fences, word.at(0)),
        GItem::Term { .. } | GItem::Non { .. } | GItem::Skip { .. } => false,
    }
}

/// Whether the item is a right fence.
fn closes(fences: &[(Sym, Sym)], item: &GItem) -> bool
    ensures { result ≡ closes fences.now item.now }
{
    match item {
        GItem::Fixed(word) => word.len() == 1 && is_right(fences, word.at(0)),
        GItem::Term { .. } | GItem::Non { .. } | GItem::Skip { .. } => false,
    }
}

/// The partner of an item, if it is a left fence, where `later` has the right fences after it that
/// close nothing so far, the last of them first.
fn partner_of(
    fences: &[(Sym, Sym)],
    place: u32,
    item: &GItem,
    later: &mut Vec<u32>,
) -> Result<Option<u32>, Memory>
    ensures later { OnOk result (reverse later.new.items ≡ waiting_from fences.now place item.now (reverse later.old.items)) }
    ensures partner { IfOk result (λ partner. partner ≡ partner_from fences.now item.now (reverse later.old.items)) }
{
    if closes(fences, item) {
        later.push(place)?;
        return Ok(None);
    }
    if !opens(fences, item) {
        return Ok(None);
    }
    Ok(later.pop())
}

/// For each of the items its partner, if it is a left fence.
fn partners_of(alloc: Global, fences: &[(Sym, Sym)], items: &[GItem]) -> Result<Partners, Memory>
    requires { length items.now < 2 ^ 32 }
    ensures { IfOk result (λ list. list ≡ partners fences.now 0 items.now) }
{
    let count = items.len();
    let mut later = Vec::new(alloc);
    let mut found = Vec::with_capacity(alloc, count)?;
    'items: for done in 0..count {
        let place = count - 1 - done;
        let partner = partner_of(fences, place as u32, &items[place], &mut later)?;
        found.push(partner)?;
    }
    found.reverse();
    Ok(Partners::from_vec(found))
}

impl Body {
    /// The spread items of each rule.
    pub fn spreads(&self, alloc: Global) -> Result<Vec<GItems>, Memory>
        ensures { IfOk result (λ spreads. AreSpreads self.now (length self.now.rules) spreads.items) }
    {
        let mut spreads = Vec::with_capacity(alloc, self.rules.len())?;
        'rules: for rule in &self.rules {
            let items = spread_of(alloc, &self.fences, rule.items.as_slice())?;
            spreads.push(items)?;
        }
        Ok(spreads)
    }

    /// For each rule the partners of its spread items.
    pub fn partners(&self, alloc: Global, spreads: &[GItems]) -> Result<Vec<Partners>, Memory>
        requires spread { AreSpreads self.now (length self.now.rules) spreads.now }
        requires short { (p : ℕ) → length (spread self.now p) < 2 ^ 32 }
        ensures { IfOk result (λ lists. ArePartners self.now (length self.now.rules) lists.items) }
    {
        let mut lists = Vec::with_capacity(alloc, spreads.len())?;
        'rules: for items in spreads {
            let list = partners_of(alloc, &self.fences, items.as_slice())?;
            lists.push(list)?;
        }
        Ok(lists)
    }
}
