ghost use Rattle.std.specs.Prelude.{◌≡◌, ◌↔◌, ◌<◌, ◌≤◌, ℕ, ◌++◌, ◌+◌, None, length, map, OnOk, IsTrue, MatchBool};
ghost use Rattle.xs_gram.specs.{items, all_places, IsPlace};
ghost use Rattle.xs_chart_laws.specs.{set_at};
ghost use Rattle.xs_forest_laws.specs.{key_at};
ghost use Rattle.xs_grow.specs.Lists.{Appends};
ghost use Rattle.xs_grow.specs.Candidates.{CanEnd, WholeAt, FrontFrom, InSet, InSets, IsLater, HasPlaces};

use crate::call::Call;
use crate::ends::ends_of;
use crate::marks::Marks;
use std::alloc::Global;
use xs_chart::{Chart, Item};
use xs_class::{Memory, Word};
use xs_forest_laws::{SpanKey, What};
use xs_gram::{GItem, Gram, Place};

/// Whether the place stands at the end of its rule.
fn is_end(g: &Gram, place: Place) -> bool
    requires { IsPlace g.now place }
    ensures { IsTrue result ↔ ((place.inside ≡ None) × (place.dot ≡ length (items g.now place.rule))) }
{
    place.inside.is_none() && place.dot as usize == g.items(place.rule).len()
}

/// Adds the candidate of an item that stands at the end of its rule.
fn whole_at(
    g: &Gram,
    set: u32,
    item: Item,
    candidates: &mut Vec<(SpanKey, u32)>,
) -> Result<(), Memory>
    requires { item.state < length (all_places g.now) }
    ensures { OnOk result (Appends (WholeAt g.now set item) candidates.old.items candidates.new.items) }
{
    let place = g.place(item.state);
    if is_end(g, place) {
        let key = SpanKey {
            what: What::Whole(g.non_of(place.rule)),
            start: item.origin,
            end: set,
        };
        candidates.push((key, place.rule))?;
    }
    Ok(())
}

/// Adds the candidates of the rules that are finished in the set.
fn wholes_in(
    g: &Gram,
    chart: &Chart,
    set: u32,
    candidates: &mut Vec<(SpanKey, u32)>,
) -> Result<(), Memory>
    requires set { set < length chart.now.sets }
    requires places { HasPlaces g.now chart.now.sets }
    ensures { OnOk result (Appends (InSet (WholeAt g.now) chart.now.sets set (length (set_at chart.now.sets set))) candidates.old.items candidates.new.items) }
{
    'items: for k in 0..chart.len(set) {
        whole_at(g, set, chart.item(set, k), candidates)?;
    }
    Ok(())
}

/// Adds the candidates of the rules that are finished: a label for each stretch of a nonterminal,
/// with the rule.
pub(crate) fn wholes(
    g: &Gram,
    chart: &Chart,
    candidates: &mut Vec<(SpanKey, u32)>,
) -> Result<(), Memory>
    requires places { HasPlaces g.now chart.now.sets }
    ensures { OnOk result (Appends (InSets (WholeAt g.now) chart.now.sets (length chart.now.sets)) candidates.old.items candidates.new.items) }
{
    'sets: for set in 0..chart.sets() {
        wholes_in(g, chart, set, candidates)?;
    }
    Ok(())
}

/// Adds a candidate of the place for each of the ends.
fn push_ends(
    what: What,
    start: u32,
    place: u32,
    ends: &[u32],
    candidates: &mut Vec<(SpanKey, u32)>,
) -> Result<(), Memory>
    ensures { OnOk result (candidates.new.items ≡ candidates.old.items ++ map (λ end. (key_at what start end, place)) ends.now) }
{
    'ends: for end in ends {
        let key = SpanKey {
            what,
            start,
            end: *end,
        };
        candidates.push((key, place))?;
    }
    Ok(())
}

/// Whether the item at a place of a rule is not its first one, and no fixed word.
fn is_later(items: &[GItem], dot: usize) -> bool
    ensures { MatchBool result (IsLater items.now dot) (IsLater items.now dot → ⊥) }
{
    if dot == 0 || dot >= items.len() {
        return false;
    }
    match &items[dot] {
        GItem::Fixed(_) => false,
        GItem::Term { .. } | GItem::Skip { .. } | GItem::Non { .. } => true,
    }
}

/// Whether the rule has a later item, no fixed word.
fn any_later(items: &[GItem]) -> bool
    ensures { MatchBool result (Unit {0}) ((n : ℕ) → IsLater items.now n → ⊥) }
{
    'dots: for dot in 0..items.len() {
        if is_later(items, dot) {
            return true;
        }
    }
    false
}

/// Whether a rule has a later item, no fixed word.
pub(crate) fn has_later(g: &Gram) -> bool
    ensures { MatchBool result (Unit {0}) ((p n : ℕ) → p < length g.now.rules → IsLater (items g.now p) n → ⊥) }
{
    'rules: for rule in 0..g.rules() {
        if any_later(g.items(rule)) {
            return true;
        }
    }
    false
}

/// Adds the candidates of an item that stands before a later item of its rule, no fixed word: one
/// for each place where that may end.
fn fronts_at(
    alloc: Global,
    g: &Gram,
    doc: &Word,
    calls: &Marks<Call>,
    set: u32,
    item: Item,
    candidates: &mut Vec<(SpanKey, u32)>,
) -> Result<(), Memory>
    requires ends { CanEnd g.now doc.now calls.now }
    requires within { set ≤ length doc.now }
    requires place { item.state < length (all_places g.now) }
    ensures { OnOk result (Appends (FrontFrom g.now doc.now calls.now set item) candidates.old.items candidates.new.items) }
{
    let place = g.place(item.state);
    let items = g.items(place.rule);
    match place.inside {
        Some(_) => Ok(()),
        None => {
            if !is_later(items, place.dot as usize) {
                return Ok(());
            }
            let ends = ends_of(alloc, g, doc, calls, &items[place.dot as usize], set)?;
            let what = What::Front {
                rule: place.rule,
                dot: place.dot + 1,
            };
            push_ends(what, item.origin, set, &ends, candidates)?;
            Ok(())
        }
    }
}

/// Adds the candidates of the items of the set that stand before a later item of their rule.
fn fronts_in(
    alloc: Global,
    g: &Gram,
    chart: &Chart,
    doc: &Word,
    calls: &Marks<Call>,
    set: u32,
    candidates: &mut Vec<(SpanKey, u32)>,
) -> Result<(), Memory>
    requires ends { CanEnd g.now doc.now calls.now }
    requires within { set ≤ length doc.now }
    requires set { set < length chart.now.sets }
    requires places { HasPlaces g.now chart.now.sets }
    ensures { OnOk result (Appends (InSet (FrontFrom g.now doc.now calls.now) chart.now.sets set (length (set_at chart.now.sets set))) candidates.old.items candidates.new.items) }
{
    'items: for k in 0..chart.len(set) {
        fronts_at(alloc, g, doc, calls, set, chart.item(set, k), candidates)?;
    }
    Ok(())
}

/// Adds the candidates of two or more first items of which the last is no fixed word: a label for
/// each stretch of them, with a place where the last of them may begin.
pub(crate) fn fronts(
    alloc: Global,
    g: &Gram,
    chart: &Chart,
    doc: &Word,
    calls: &Marks<Call>,
    candidates: &mut Vec<(SpanKey, u32)>,
) -> Result<(), Memory>
    requires ends { CanEnd g.now doc.now calls.now }
    requires counted { length chart.now.sets ≤ length doc.now + 1 }
    requires places { HasPlaces g.now chart.now.sets }
    ensures { OnOk result (Appends (InSets (FrontFrom g.now doc.now calls.now) chart.now.sets (length chart.now.sets)) candidates.old.items candidates.new.items) }
{
    'sets: for set in 0..chart.sets() {
        fronts_in(alloc, g, chart, doc, calls, set, candidates)?;
    }
    Ok(())
}
