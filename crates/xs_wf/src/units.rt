ghost use Rattle.std.specs.Prelude.{◌≡◌, ◌↔◌, false, IsTrue, IfOk};
ghost use Rattle.xs_regex.specs.{HasMember, HasMembers};
ghost use Rattle.xs_sheet.specs.{HasRegex};
ghost use Rattle.xs_pair.specs.{SomeOf};
ghost use Rattle.xs_wf.specs.Units.{IsStrange, HasStrange, IsStrangeItem, IsStrangeMark, IsStrangeRule, IsEmptyUnit, IsStrangeUnit, IsUnmatchedUnit, IsFullUnit, IsMatchedUnit};

use std::alloc::Global;
use xs_class::{Class, Memory, Text, is_char, letters, word_of};
use xs_pair::{Mark, Rule};
use xs_regex::{Regex, matches};
use xs_sheet::{Item, Unit};

fn has_member(class: &Class) -> bool
    ensures { IsTrue result ↔ HasMember class.now }
{
    match class.least() {
        Some(_) => true,
        None => false,
    }
}

/// Whether each class in the regex has a member. It calls itself for what is nested, and goes along
/// the parts of a sequence or of a choice in a loop.
fn has_members(regex: &Regex) -> bool
    ensures { IsTrue result ↔ HasMembers regex.now }
{
    let mut rest = regex;
    'parts: loop {
        match rest {
            Regex::Empty => return true,
            Regex::Set(class) => return has_member(class),
            Regex::Then(first, next) => {
                if !has_members(first) {
                    return false;
                }
                rest = next;
            }
            Regex::Or(one, other) => {
                if !has_members(one) {
                    return false;
                }
                rest = other;
            }
            Regex::Star(inner) => rest = inner,
            Regex::Times(inner, _, _) => rest = inner,
        }
    }
}

/// Whether the regex of a terminal or of an ignorable has a class without member.
pub fn is_empty_unit(unit: &Unit) -> bool
    requires { HasRegex unit.now }
    ensures ill { IsTrue result ↔ IsEmptyUnit unit.now }
    ensures fine { result ≡ false → IsFullUnit unit.now }
{
    match unit {
        Unit::Terminal { regex, .. } => !has_members(regex),
        Unit::Ignorable { regex, .. } => !has_members(regex),
        Unit::Production { .. } | Unit::Fence { .. } => false,
    }
}

fn is_strange(letter: char) -> bool
    ensures { IsTrue result ↔ IsStrange letter }
{
    !is_char(letter as u32)
}

/// Whether the text holds a character that XML does not have.
fn has_strange(alloc: Global, text: &Text) -> Result<bool, Memory>
    ensures { IfOk result (λ b. IsTrue b ↔ HasStrange text.now) }
{
    let letters = letters(alloc, text.as_str())?;
    'letters: for letter in &letters {
        if is_strange(*letter) {
            return Ok(true);
        }
    }
    Ok(false)
}

fn is_strange_item(alloc: Global, item: &Item) -> Result<bool, Memory>
    ensures { IfOk result (λ b. IsTrue b ↔ IsStrangeItem item.now) }
{
    match item {
        Item::Fixed(text) => has_strange(alloc, text),
        Item::Named { .. } => Ok(false),
        Item::Skip { .. } => Ok(false),
    }
}

fn is_strange_mark(alloc: Global, mark: &Mark) -> Result<bool, Memory>
    ensures { IfOk result (λ b. IsTrue b ↔ IsStrangeMark mark.now) }
{
    match mark {
        Mark::Value(item) => is_strange_item(alloc, item),
        Mark::Content(item) => is_strange_item(alloc, item),
        Mark::Opening { .. } | Mark::Attribute(_) => Ok(false),
        Mark::AttributeEnd | Mark::Closing(_) => Ok(false),
    }
}

fn some_strange(alloc: Global, marks: &[Mark]) -> Result<bool, Memory>
    ensures { IfOk result (λ b. IsTrue b ↔ SomeOf IsStrangeMark marks.now) }
{
    'marks: for mark in marks {
        if is_strange_mark(alloc, mark)? {
            return Ok(true);
        }
    }
    Ok(false)
}

/// Whether a string on either side of a production holds a character that XML does not have.
pub fn is_strange_rule(alloc: Global, rule: &Rule) -> Result<bool, Memory>
    ensures { IfOk result (λ b. IsTrue b ↔ IsStrangeRule rule.now) }
{
    let on_left = some_strange(alloc, rule.left.as_slice())?;
    let on_right = some_strange(alloc, rule.right.as_slice())?;
    Ok(on_left || on_right)
}

/// Whether the normal spelling of an ignorable holds a character that XML does not have.
pub fn is_strange_unit(alloc: Global, unit: &Unit) -> Result<bool, Memory>
    ensures { IfOk result (λ b. IsTrue b ↔ IsStrangeUnit unit.now) }
{
    match unit {
        Unit::Ignorable { normal, .. } => has_strange(alloc, normal),
        Unit::Terminal { .. } => Ok(false),
        Unit::Production { .. } | Unit::Fence { .. } => Ok(false),
    }
}

/// Whether the regex of an ignorable does not match its normal spelling.
pub fn is_unmatched_unit(alloc: Global, unit: &Unit) -> Result<bool, Memory>
    requires { HasRegex unit.now }
    ensures ill { IfOk result (λ b. IsTrue b ↔ IsUnmatchedUnit unit.now) }
    ensures fine { IfOk result (λ b. b ≡ false → IsMatchedUnit unit.now) }
{
    match unit {
        Unit::Ignorable { regex, normal, .. } => {
            let word = word_of(alloc, normal)?;
            let fits = matches(alloc, regex, &word)?;
            Ok(!fits)
        }
        Unit::Terminal { .. } => Ok(false),
        Unit::Production { .. } | Unit::Fence { .. } => Ok(false),
    }
}
