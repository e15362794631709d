ghost use Rattle.std.specs.Prelude.{◌≡◌, ◌<◌, ◌≤◌, ◌+◌, ◌↔◌, ◌^◌, ℕ, [], ◌∷◌, ◌++◌, length, take, slice_get, Contains, IfOk};
ghost use Rattle.xs_class.specs.{Has};
ghost use Rattle.xs_chart.specs.declared.item.Item.{Item as AnyItem};
ghost use Rattle.xs_gram.specs.{IsFront, all_places, IsBuilt};
ghost use Rattle.xs_gram.specs.Grammar.{Grammar};
ghost use Rattle.xs_earley.specs.declared.begun.Begun.{Begun as AnyBegun};
ghost use Rattle.xs_earley.specs.Arriving.{gathered};
ghost use Rattle.xs_earley.specs.Facts.{AreFacts};
ghost use Rattle.xs_earley.specs.Following.{class_at, lex_next, letter_next, item_next, more_next};
ghost use Rattle.xs_earley.specs.Running.{unsteady, IsRunOf};

use crate::arrive::next_positions;
use crate::begun::Begun;
use crate::facts::Facts;
use crate::rows::Stand;
use std::alloc::Global;
use xs_chart::{Chart, Item};
use xs_class::{Class, Memory, Sym};
use xs_flat::FlatLists;
use xs_gram::Gram;
use xs_regex::Position;

/// Ranges of symbols, whose ends belong to them.
type Ranges = Vec<(u32, u32)>;

/// Appends the ranges of a position's class.
fn add_class(ranges: &mut Ranges, automaton: &Position, position: u32) -> Result<(), Memory>
    ensures { IfOk result (λ _. ranges.new.items ≡ ranges.old.items ++ class_at automaton.now position) }
{
    match automaton.classes.as_slice().get(position as usize) {
        Some(class) => {
            ranges.extend_from_slice(class.ranges())?;
            Ok(())
        }
        None => Ok(()),
    }
}

/// Appends the ranges by which the automaton goes on from a state.
fn add_classes(
    ranges: &mut Ranges,
    automaton: &Position,
    state: u32,
    base: u32,
) -> Result<(), Memory>
    ensures { IfOk result (λ _. ranges.new.items ≡ ranges.old.items ++ lex_next automaton.now state base) }
{
    let positions = next_positions(automaton, state, base);
    'positions: for position in positions {
        add_class(ranges, automaton, *position)?;
    }
    Ok(())
}

/// Appends the symbol at a place of the list, where there is one.
fn add_letter(ranges: &mut Ranges, letters: &[Sym], place: usize) -> Result<(), Memory>
    ensures { IfOk result (λ _. ranges.new.items ≡ ranges.old.items ++ letter_next (slice_get letters.now place)) }
{
    match letters.get(place) {
        Some(letter) => {
            let number = letter.number();
            ranges.push((number, number))?;
            Ok(())
        }
        None => Ok(()),
    }
}

/// Appends the ranges by which an item goes on.
fn add_item(ranges: &mut Ranges, g: &Gram, facts: &Facts, item: Item) -> Result<(), Memory>
    requires built { IsBuilt g.now }
    requires facts { AreFacts g.now facts.now }
    requires state { item.state < length (all_places g.now) }
    ensures { IfOk result (λ _. ranges.new.items ≡ ranges.old.items ++ item_next g.now facts.now item) }
{
    let row = facts.row(item.state);
    match row.stand {
        Stand::AtEnd(_) => Ok(()),
        Stand::AtNon(_) => Ok(()),
        Stand::AtWord(from, _) => {
            add_letter(ranges, &facts.letters, from)?;
            Ok(())
        }
        Stand::AtTerm(term) => {
            add_classes(ranges, g.term(term), item.state, row.base)?;
            Ok(())
        }
        Stand::AtSkip(skip) => {
            add_classes(ranges, g.skip(skip), item.state, row.base)?;
            Ok(())
        }
    }
}

/// Appends the ranges by which the items go on.
fn add_items(ranges: &mut Ranges, g: &Gram, facts: &Facts, items: &[Item]) -> Result<(), Memory>
    requires built { IsBuilt g.now }
    requires facts { AreFacts g.now facts.now }
    requires states { (item : AnyItem) → Contains items.now item → item.state < length (all_places g.now) }
    ensures { IfOk result (λ _. ranges.new.items ≡ ranges.old.items ++ gathered (item_next g.now facts.now) items.now) }
{
    'items: for item in items {
        add_item(ranges, g, facts, *item)?;
    }
    Ok(())
}

/// Appends the symbol by which a begun word goes on.
fn add_rest(ranges: &mut Ranges, facts: &Facts, begun: Begun) -> Result<(), Memory>
    requires facts { (g : Grammar) × AreFacts g facts.now }
    requires state { begun.state < length facts.now.rows.items }
    ensures { IfOk result (λ _. ranges.new.items ≡ ranges.old.items ++ more_next facts.now begun) }
{
    let row = facts.row(begun.state);
    match row.stand {
        Stand::AtEnd(_) => Ok(()),
        Stand::AtNon(_) => Ok(()),
        Stand::AtWord(from, _) => {
            add_letter(ranges, &facts.letters, from + begun.count as usize)?;
            Ok(())
        }
        Stand::AtTerm(_) => Ok(()),
        Stand::AtSkip(_) => Ok(()),
    }
}

/// Appends the symbols by which the begun words go on.
fn add_rests(ranges: &mut Ranges, facts: &Facts, begun: &[Begun]) -> Result<(), Memory>
    requires facts { (g : Grammar) × AreFacts g facts.now }
    requires states { (b : AnyBegun) → Contains begun.now b → b.state < length facts.now.rows.items }
    ensures { IfOk result (λ _. ranges.new.items ≡ ranges.old.items ++ gathered (more_next facts.now) begun.now) }
{
    'begun: for one in begun {
        add_rest(ranges, facts, *one)?;
    }
    Ok(())
}

/// The symbols by which the first `at` symbols of a run's word go on, by the items of their set and
/// the fixed words that are begun there.
pub fn following(
    alloc: Global,
    g: &Gram,
    facts: &Facts,
    word: &[Sym],
    chart: &Chart,
    begun: &FlatLists<Begun>,
    at: u32,
) -> Result<Class, Memory>
    requires run { IsRunOf g.now (unsteady word.now chart.now begun.now facts.now g.now.nons) }
    requires at { at ≤ length word.now }
    ensures { IfOk result (λ class. (s : ℕ) → Has class s ↔ IsFront g.now (take at word.now ++ s ∷ [])) }
{
    let _word = word;
    let mut ranges = Vec::new(alloc);
    add_items(&mut ranges, g, facts, chart.items(at))?;
    add_rests(&mut ranges, facts, begun.list(at as usize))?;
    let class = Class::from_ranges(alloc, &ranges)?;
    Ok(class)
}
