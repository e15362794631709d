ghost use Rattle.std.specs.Prelude.{◌≡◌, ◌++◌, IfOk, OnOk};
ghost use Rattle.xs_sheet.specs.{HaveRegexes, IsReadable};
ghost use Rattle.xs_pair.specs.Upgrades as U;
ghost use Rattle.xs_pair.specs.Upgrades.{IsTried, AreTried, AreUpgraded, IsUpgrade, brackets};
ghost use Rattle.xs_pair.specs.Weights.{IsOfBytes};

use crate::balance::push_side;
use crate::copying::copied_units;
use crate::fence_rules::ill_of;
use crate::fences::is_one_of;
use std::alloc::Global;
use xs_class::{Memory, Text};
use xs_sheet::{Sheet, Unit, Units};

/// Appends the characters of the strings of a production's text side.
fn push_left(alloc: Global, unit: &Unit, out: &mut Vec<char>) -> Result<(), Memory>
    ensures { OnOk result (out.new.items ≡ out.old.items ++ U.left_letters unit.now) }
{
    match unit {
        Unit::Production { left, .. } => push_side(alloc, left.as_slice(), out),
        Unit::Terminal { .. } | Unit::Ignorable { .. } | Unit::Fence { .. } => Ok(()),
    }
}

/// The characters of the strings of all text sides, in order.
fn text_letters(alloc: Global, units: &[Unit]) -> Result<Vec<char>, Memory>
    ensures { IfOk result (λ v. v.items ≡ U.text_letters units.now) }
{
    let mut letters = Vec::new(alloc);
    'units: for unit in units {
        push_left(alloc, unit, &mut letters)?;
    }
    Ok(letters)
}

/// Whether one of the two characters stands in a text side.
fn is_there(alloc: Global, units: &[Unit], pair: (char, char)) -> Result<bool, Memory>
    ensures { IfOk result (λ b. b ≡ U.is_there units.now pair) }
{
    let letters = text_letters(alloc, units)?;
    Ok(is_one_of(&letters, pair.0) || is_one_of(&letters, pair.1))
}

/// The fence of a pair.
fn fence_of(alloc: Global, pair: (char, char), line: u32) -> Result<Unit, Memory>
    ensures { IfOk result (λ u. u ≡ U.fence_of line pair) }
{
    let mut left = Text::new(alloc);
    left.push(pair.0)?;
    let mut right = Text::new(alloc);
    right.push(pair.1)?;
    Ok(Unit::Fence { left, right, line })
}

/// Tries a pair: its fence is added where one of its characters stands in a text side, unless a rule
/// on fences then fails.
fn try_pair(
    alloc: Global,
    units: &mut Vec<Unit>,
    pair: (char, char),
    line: u32,
) -> Result<(), Memory>
    requires { HaveRegexes units.old.items }
    ensures tried { OnOk result (IsTried line pair units.old.items units.new.items) }
    ensures regexes { OnOk result (HaveRegexes units.new.items) }
{
    if !is_there(alloc, units, pair)? {
        return Ok(());
    }
    let fence = fence_of(alloc, pair, line)?;
    units.push(fence)?;
    let ill = ill_of(alloc, units)?;
    match ill {
        None => Ok(()),
        Some(_) => {
            units.pop();
            Ok(())
        }
    }
}

/// Tries the four pairs of brackets, one after the other.
fn try_brackets(alloc: Global, units: &mut Vec<Unit>, line: u32) -> Result<(), Memory>
    requires { HaveRegexes units.old.items }
    ensures tried { OnOk result (AreTried line brackets units.old.items units.new.items) }
{
    try_pair(alloc, units, ('(', ')'), line)?;
    try_pair(alloc, units, ('[', ']'), line)?;
    try_pair(alloc, units, ('{', '}'), line)?;
    try_pair(alloc, units, ('<', '>'), line)
}

/// The units, and the fences that the sheet can have after them.
fn fenced_units(alloc: Global, sheet: &Sheet) -> Result<Vec<Unit>, Memory>
    requires { HaveRegexes sheet.now.units }
    ensures { IfOk result (λ v. AreUpgraded sheet.now v.items) }
{
    let mut units = copied_units(alloc, sheet.units.as_slice())?;
    if sheet.version == 2 {
        return Ok(units);
    }
    try_brackets(alloc, &mut units, sheet.start_line)?;
    Ok(units)
}

/// The upgrade of a sheet to version 2: the same sheet, with the fences that it can have.
///
/// A sheet of version 2 is itself. One of version 1 becomes one of version 2 with its units in order
/// and fences after them: the pairs `( )`, `[ ]`, `{ }` and `< >` are tried in this order, and one is
/// added where one of its characters stands in a text side and the three rules on fences hold of the
/// sheet with it and the pairs added before. Each has the line of the start. The sheet is one that
/// some bytes, at most 65,536 of them, spell; the upgrade can be written, and may then be longer.
/// Takes time and memory linear in the sheet and in its regexes.
pub fn upgrade(alloc: Global, sheet: &Sheet) -> Result<Sheet, Memory>
    requires { IsOfBytes sheet.now }
    ensures upgrade { IfOk result (IsUpgrade sheet.now) }
    ensures readable { IfOk result IsReadable }
{
    let start = sheet.start.copy()?;
    let units = fenced_units(alloc, sheet)?;
    Ok(Sheet {
        version: 2,
        start,
        start_line: sheet.start_line,
        units: Units::from_vec(units),
    })
}
