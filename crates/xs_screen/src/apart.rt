ghost use Rattle.std.specs.Prelude.{◌≡◌, ◌-◌, ◌<◌, true, length, slice_get, Some, IfSome};
ghost use Rattle.xs_gram.specs.declared.parts.GItem.TheVariants.{Fixed as FixedItem};
ghost use Rattle.xs_screen.specs.Fixed.{BeginApart, EndApart, AreWordsAt};
ghost use Rattle.xs_screen.specs.Screens.{ShareNone};

use xs_class::{Sym, Word};
use xs_gram::{GItem, Gram};

/// Whether the fixed words with which two rules begin, or those with which they end, show that no word
/// is loose for both. False says nothing. In time linear in those words.
pub fn are_fixed_apart(g: &Gram, rule: u32, rule2: u32) -> bool
    requires rule { rule < length g.now.rules }
    requires rule2 { rule2 < length g.now.rules }
    ensures { result ≡ true → ShareNone g.now rule rule2 }
{
    let one = g.spread(rule);
    let other = g.spread(rule2);
    if are_begun_apart(one, other) {
        return true;
    }
    are_ended_apart(one, other)
}

/// Whether the fixed words with which items begin are such that no word begins with both.
fn are_begun_apart(one: &[GItem], other: &[GItem]) -> bool
    ensures { result ≡ true → AreWordsAt BeginApart one.now 0 other.now 0 }
{
    let Some(word) = word_at(one, 0) else {
        return false;
    };
    let Some(word2) = word_at(other, 0) else {
        return false;
    };
    begin_apart(word.as_slice(), word2.as_slice())
}

/// Whether the fixed words with which items end are such that no word ends with both.
fn are_ended_apart(one: &[GItem], other: &[GItem]) -> bool
    ensures { result ≡ true → AreWordsAt EndApart one.now (length one.now - 1) other.now (length other.now - 1) }
{
    let Some(word) = word_at(one, one.len().saturating_sub(1)) else {
        return false;
    };
    let Some(word2) = word_at(other, other.len().saturating_sub(1)) else {
        return false;
    };
    end_apart(word.as_slice(), word2.as_slice())
}

/// The fixed word that stands at a place of items, if one does.
fn word_at(items: &[GItem], place: usize) -> Option<&Word>
    ensures { IfSome result (λ w. slice_get items.now place ≡ Some (FixedItem w.now)) }
{
    match items.get(place) {
        Some(GItem::Fixed(word)) => Some(word),
        _ => None,
    }
}

/// Whether two words differ at a place that is as far from their beginnings.
fn begin_apart(one: &[Sym], other: &[Sym]) -> bool
    ensures { result ≡ true → BeginApart one.now other.now }
{
    'places: for place in 0..one.len().min(other.len()) {
        if one[place].number() != other[place].number() {
            return true;
        }
    }
    false
}

/// Whether two words differ at a place that is as far from their ends.
fn end_apart(one: &[Sym], other: &[Sym]) -> bool
    ensures { result ≡ true → EndApart one.now other.now }
{
    'places: for done in 0..one.len().min(other.len()) {
        let symbol = one[one.len() - 1 - done];
        let symbol2 = other[other.len() - 1 - done];
        if symbol.number() != symbol2.number() {
            return true;
        }
    }
    false
}
