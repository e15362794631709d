ghost use Rattle.std.specs.Prelude.{◌≡◌, ◌↔◌, IfOk, IsTrue};
ghost use Rattle.xs_class.specs.{Has};
ghost use Rattle.xs_sheet.specs.{HasRegex, HaveRegexes};
ghost use Rattle.xs_pair.specs.Fences as F;
ghost use Rattle.xs_pair.specs.Rules.{SomeOf};
ghost use Rattle.xs_pair.specs.Units as U;
ghost use Rattle.xs_pair.specs.Verdict.{IsFirstLine, IsLineWhere};

use crate::least::with_line;
use crate::unit_line;
use xs_class::{Class, Sym};
use xs_regex::Regex;
use xs_sheet::Unit;

/// Whether the class has the character.
fn has(class: &Class, letter: char) -> bool
    ensures { IsTrue result ↔ Has class.now letter }
{
    class.has(Sym::of_char(letter))
}

/// Whether the class has one of the characters.
fn has_one(class: &Class, letters: &[char]) -> bool
    ensures { IsTrue result ↔ SomeOf (Has class.now) letters.now }
{
    'letters: for letter in letters {
        if has(class, *letter) {
            return true;
        }
    }
    false
}

/// Whether a class of the regex has one of the characters. It calls itself for what is nested, and
/// goes along the parts of a sequence or of a choice in a loop.
fn has_some_of(letters: &[char], regex: &Regex) -> bool
    ensures { IsTrue result ↔ F.HasSomeOf letters.now regex.now }
{
    let mut rest = regex;
    'parts: loop {
        match rest {
            Regex::Empty => return false,
            Regex::Set(class) => return has_one(class, letters),
            Regex::Then(first, next) => {
                if has_some_of(letters, first) {
                    return true;
                }
                rest = next;
            }
            Regex::Or(one, other) => {
                if has_some_of(letters, one) {
                    return true;
                }
                rest = other;
            }
            Regex::Star(inner) => rest = inner,
            Regex::Times(inner, _, _) => rest = inner,
        }
    }
}

/// Whether a class of the regex of a terminal or of an ignorable has a fence character.
fn is_inside(letters: &[char], unit: &Unit) -> bool
    requires { HasRegex unit.now }
    ensures { IsTrue result ↔ F.IsInside letters.now unit.now }
{
    match unit {
        Unit::Terminal { regex, .. } => has_some_of(letters, regex),
        Unit::Ignorable { regex, .. } => has_some_of(letters, regex),
        Unit::Production { .. } => false,
        Unit::Fence { .. } => false,
    }
}

/// The least line of a terminal or an ignorable whose regex has a fence character in a class.
pub fn least_inside(letters: &[char], units: &[Unit]) -> Option<u32>
    requires { HaveRegexes units.now }
    ensures { IsFirstLine (IsLineWhere (λ k u. F.IsInside letters.now u) U.unit_line units.now) result }
{
    let mut least = None;
    'units: for unit in units {
        let fails = is_inside(letters, unit);
        least = with_line(least, unit_line(unit), fails);
    }
    least
}
