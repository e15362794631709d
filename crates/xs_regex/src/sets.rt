ghost use Rattle.std.specs.Prelude.{◌≡◌, ◌↔◌, ◌++◌, ℕ, length, IfOk, OnOk, if◌then◌else◌};
ghost use Rattle.xs_class.specs.{Has, HaveSame, IsClass, set_named, HasMembersOf, IsChar, char_table};
ghost use Rattle.xs_regex.specs.Characters.{known, known_item, items_at, sorted, bracket_at, one_at, one_set, set_at};
ghost use Rattle.xs_regex.specs.Characters as spec;
ghost use Rattle.xs_regex.specs.Meaning.{IsOfItem, IsOfItems, IsClassOf};
ghost use Rattle.xs_regex.specs.Pieces.{item_of};
ghost use Rattle.xs_regex.specs.Reported.{IsReported, Adds};

use crate::RegexFault;
use crate::characters::{Piece, item, next, one};
use std::alloc::Global;
use xs_class::{Class, Memory, NameFault, Text};

/// The class that a name stands for.
fn class_named(alloc: Global, letters: &[char]) -> Result<Class, RegexFault>
    ensures { IsReported (set_named letters.now) (λ set class. HasMembersOf class set) result }
{
    let text = text_of(alloc, letters)?;
    match Class::named(alloc, text.as_str()) {
        Ok(class) => Ok(class),
        Err(NameFault::NoSuchClass) => Err(RegexFault::BadRegex),
        Err(NameFault::Memory) => Err(RegexFault::Memory),
    }
}

/// The text of the characters.
fn text_of(alloc: Global, letters: &[char]) -> Result<Text, Memory>
    ensures { IfOk result (λ t. t ≡ letters.now) }
{
    let mut text = Text::new(alloc);
    for c in letters {
        text.push(*c)?;
    }
    Ok(text)
}

/// Adds the ranges.
fn extend(into: &mut Vec<(u32, u32)>, ranges: &[(u32, u32)]) -> Result<(), Memory>
    ensures items { OnOk result (into.new.items ≡ into.old.items ++ ranges.now) }
{
    into.extend_from_slice(ranges)?;
    Ok(())
}

/// Adds the characters of an item.
fn add(alloc: Global, piece: Piece, into: &mut Vec<(u32, u32)>) -> Result<(), RegexFault>
    ensures { IsReported (known (item_of piece.entry)) (λ a x. Adds into.old.items into.new.items (IsOfItem a)) result }
{
    match piece {
        Piece::Span(low, high) => {
            extend(into, &[(low, high)])?;
            Ok(())
        }
        Piece::Named(letters) => match class_named(alloc, letters) {
            Ok(class) => {
                extend(into, class.ranges())?;
                Ok(())
            }
            Err(fault) => Err(fault),
        },
    }
}

/// Adds the characters of the items up to a closing bracket, and gives what is left after it.
fn items<'a>(
    alloc: Global,
    steps: usize,
    cs: &'a [char],
    into: &mut Vec<(u32, u32)>,
) -> Result<&'a [char], RegexFault>
    ensures { IsReported (items_at steps cs.now) (λ a x. (a.1 ≡ x.now) × Adds into.old.items into.new.items (IsOfItems a.0)) result }
{
    let mut here = cs;
    let mut bound = steps;
    'items: while bound > 0 {
        bound -= 1;
        let Some((piece, left)) = item(here) else {
            return Err(RegexFault::BadRegex);
        };
        match add(alloc, piece, into) {
            Ok(()) => {}
            Err(fault) => return Err(fault),
        }
        let Some((c, rest)) = next(left) else {
            return Err(RegexFault::BadRegex);
        };
        if c == ']' {
            return Ok(rest);
        }
        here = left;
    }
    Err(RegexFault::BadRegex)
}

/// All characters of XML.
fn characters(alloc: Global) -> Result<Class, Memory>
    ensures { IfOk result (λ c. HaveSame c char_table) }
{
    Class::from_ranges(
        alloc,
        &[
            (0x9, 0x9),
            (0xA, 0xA),
            (0xD, 0xD),
            (0x20, 0xD7FF),
            (0xE000, 0xFFFD),
            (0x10000, 0x10FFFF),
        ],
    )
}

/// The characters of XML that are in the ranges.
fn among(alloc: Global, ranges: &[(u32, u32)]) -> Result<Class, Memory>
    ensures sorted { IfOk result IsClass }
    ensures members { IfOk result (λ c. (s : ℕ) → Has c s ↔ (IsChar s × Has ranges.now s)) }
{
    let all = characters(alloc)?;
    let some = Class::from_ranges(alloc, ranges)?;
    let class = all.meet(&some)?;
    class.ranges();
    Ok(class)
}

/// The characters of XML that are not in the ranges.
fn apart(alloc: Global, ranges: &[(u32, u32)]) -> Result<Class, Memory>
    ensures sorted { IfOk result IsClass }
    ensures members { IfOk result (λ c. (s : ℕ) → Has c s ↔ (IsChar s × (¬ (Has ranges.now s)))) }
{
    let all = characters(alloc)?;
    let some = Class::from_ranges(alloc, ranges)?;
    let class = all.without(&some)?;
    class.ranges();
    Ok(class)
}

/// The characters of the items up to a closing bracket, or those of none of them, and what is left
/// after it.
fn of_items(alloc: Global, none: bool, cs: &[char]) -> Result<(Class, &[char]), RegexFault>
    ensures { IsReported (sorted (if none then spec.none_of else spec.some_of) (items_at (length cs.now) cs.now)) (λ a x. (a.1 ≡ x.1.now) × IsClassOf a.0 x.0) result }
{
    let mut ranges = Vec::new(alloc);
    match items(alloc, cs.len(), cs, &mut ranges) {
        Ok(left) => {
            if none {
                return Ok((apart(alloc, &ranges)?, left));
            }
            Ok((among(alloc, &ranges)?, left))
        }
        Err(fault) => Err(fault),
    }
}

/// The characters of one item outside brackets, and what is left.
fn single(alloc: Global, cs: &[char]) -> Result<(Class, &[char]), RegexFault>
    ensures { IsReported (one_set (known_item (one_at cs.now))) (λ a x. (a.1 ≡ x.1.now) × IsClassOf a.0 x.0) result }
{
    let Some((piece, left)) = one(cs) else {
        return Err(RegexFault::BadRegex);
    };
    let mut ranges = Vec::new(alloc);
    match add(alloc, piece, &mut ranges) {
        Ok(()) => {
            let class = among(alloc, &ranges)?;
            Ok((class, left))
        }
        Err(fault) => Err(fault),
    }
}

/// A set of characters, and what is left after it.
pub fn set(alloc: Global, cs: &[char]) -> Result<(Class, &[char]), RegexFault>
    ensures { IsReported (set_at cs.now) (λ a x. (a.1 ≡ x.1.now) × IsClassOf a.0 x.0) result }
{
    let Some((c, rest)) = next(cs) else {
        return Err(RegexFault::BadRegex);
    };
    if c == '[' {
        return bracket(alloc, rest);
    }
    if c == '.' {
        let class = apart(alloc, &[])?;
        return Ok((class, rest));
    }
    single(alloc, cs)
}

/// A set of characters after its opening bracket, and what is left after it.
fn bracket(alloc: Global, cs: &[char]) -> Result<(Class, &[char]), RegexFault>
    ensures { IsReported (bracket_at cs.now) (λ a x. (a.1 ≡ x.1.now) × IsClassOf a.0 x.0) result }
{
    let Some((c, rest)) = next(cs) else {
        return Err(RegexFault::BadRegex);
    };
    if c == '^' {
        of_items(alloc, true, rest)
    } else {
        of_items(alloc, false, cs)
    }
}
