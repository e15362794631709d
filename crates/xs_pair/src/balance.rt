ghost use Rattle.std.specs.Prelude.{◌≡◌, ◌↔◌, ◌++◌, [], IfOk, OnOk, IsTrue, None, Some, reverse, if◌then◌else◌};
ghost use Rattle.xs_gram.specs.Fences as G;
ghost use Rattle.xs_pair.specs.Balance as B;
ghost use Rattle.xs_pair.specs.Fences as F;
ghost use Rattle.xs_pair.specs.Units as U;
ghost use Rattle.xs_pair.specs.Verdict.{IsFirstLine, IsLineWhere};

use crate::fences::push_letters;
use crate::least::with_line;
use crate::unit_line;
use std::alloc::Global;
use xs_class::Memory;
use xs_sheet::{Item, Unit};

/// The right character of the first pair with this left one.
fn right_of(pairs: &[(char, char)], letter: char) -> Option<char>
    ensures { result ≡ B.right_of pairs.now letter }
{
    'pairs: for pair in pairs {
        if pair.0 == letter {
            return Some(pair.1);
        }
    }
    None
}

/// Whether the character is the right one of a pair.
fn is_right(pairs: &[(char, char)], letter: char) -> bool
    ensures { result ≡ G.is_right pairs.now letter }
{
    'pairs: for pair in pairs {
        if pair.1 == letter {
            return true;
        }
    }
    false
}

/// Takes the innermost right character that is awaited, the last of these; whether it is this one.
fn close(awaited: &mut Vec<char>, letter: char) -> bool
    ensures { B.closed (reverse awaited.old.items) letter ≡ (if result then Some (reverse awaited.new.items) else None) }
{
    match awaited.pop() {
        Some(right) => right == letter,
        None => false,
    }
}

/// Goes on by one more character; whether it fits what is awaited.
fn step(pairs: &[(char, char)], awaited: &mut Vec<char>, letter: char) -> Result<bool, Memory>
    ensures { IfOk result (λ fits. B.step pairs.now (reverse awaited.old.items) letter ≡ (if fits then Some (reverse awaited.new.items) else None)) }
{
    if let Some(right) = right_of(pairs, letter) {
        awaited.push(right)?;
        return Ok(true);
    }
    if is_right(pairs, letter) {
        return Ok(close(awaited, letter));
    }
    Ok(true)
}

/// Whether the word closes all that it opens, and nothing else.
fn closes(alloc: Global, pairs: &[(char, char)], letters: &[char]) -> Result<bool, Memory>
    ensures { IfOk result (λ b. b ≡ B.closes pairs.now letters.now []) }
{
    let mut awaited = Vec::new(alloc);
    'letters: for letter in letters {
        if !step(pairs, &mut awaited, *letter)? {
            return Ok(false);
        }
    }
    Ok(awaited.is_empty())
}

fn push_item(alloc: Global, item: &Item, out: &mut Vec<char>) -> Result<(), Memory>
    ensures { OnOk result (out.new.items ≡ out.old.items ++ F.item_letters item.now) }
{
    match item {
        Item::Fixed(text) => push_letters(alloc, text, out),
        Item::Named { .. } | Item::Skip { .. } => Ok(()),
    }
}

/// Appends the characters of the strings of a text side, in order.
pub fn push_side(alloc: Global, items: &[Item], out: &mut Vec<char>) -> Result<(), Memory>
    ensures { OnOk result (out.new.items ≡ out.old.items ++ F.side_letters items.now) }
{
    'items: for item in items {
        push_item(alloc, item, out)?;
    }
    Ok(())
}

/// Whether the fence characters of a production's text side are not balanced.
fn is_open(alloc: Global, pairs: &[(char, char)], unit: &Unit) -> Result<bool, Memory>
    requires { B.AreApart pairs.now }
    ensures { IfOk result (λ b. IsTrue b ↔ F.IsOpen pairs.now unit.now) }
{
    match unit {
        Unit::Production { left, .. } => {
            let mut letters = Vec::new(alloc);
            push_side(alloc, left.as_slice(), &mut letters)?;
            let closes = closes(alloc, pairs, &letters)?;
            Ok(!closes)
        }
        Unit::Terminal { .. } | Unit::Ignorable { .. } | Unit::Fence { .. } => Ok(false),
    }
}

/// The least line of a production whose text side is not balanced.
pub fn least_open(
    alloc: Global,
    pairs: &[(char, char)],
    units: &[Unit],
) -> Result<Option<u32>, Memory>
    requires { B.AreApart pairs.now }
    ensures { IfOk result (IsFirstLine (IsLineWhere (λ k u. F.IsOpen pairs.now u) U.unit_line units.now)) }
{
    if pairs.is_empty() {
        return Ok(None);
    }
    let mut least = None;
    'units: for unit in units {
        let fails = is_open(alloc, pairs, unit)?;
        least = with_line(least, unit_line(unit), fails);
    }
    Ok(least)
}
