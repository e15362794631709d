ghost use Rattle.std.specs.Prelude.{ℕ, IfOk};
ghost use Rattle.xs_sheet.specs.{HaveRegexes};
ghost use Rattle.xs_pair.specs.declared.ill.IllRule.TheVariants as R;
ghost use Rattle.xs_pair.specs.Fences.{FenceFails, IsFenceIll};

use crate::balance::least_open;
use crate::fences::{fence_letters, fence_pairs, least_used};
use crate::inside::least_inside;
use crate::{Ill, IllRule};
use std::alloc::Global;
use xs_class::Memory;
use xs_sheet::{Sheet, Unit};

/// The first that fails, where only the last of the three rules on fences may.
fn ill_of_open(alloc: Global, units: &[Unit]) -> Result<Option<Ill>, Memory>
    requires used { (line : ℕ) → FenceFails units.now R.FenceChar line → ⊥ }
    requires inside { (line : ℕ) → FenceFails units.now R.FenceInside line → ⊥ }
    ensures { IfOk result (IsFenceIll units.now) }
{
    let pairs = fence_pairs(alloc, units)?;
    let least = least_open(alloc, &pairs, units)?;
    match least {
        Some(line) => Ok(Some(Ill {
            rule: IllRule::FenceOpen,
            line,
        })),
        None => Ok(None),
    }
}

/// The first that fails, where the first of the three rules on fences does not.
fn ill_of_inside(alloc: Global, units: &[Unit]) -> Result<Option<Ill>, Memory>
    requires regexes { HaveRegexes units.now }
    requires used { (line : ℕ) → FenceFails units.now R.FenceChar line → ⊥ }
    ensures { IfOk result (IsFenceIll units.now) }
{
    let letters = fence_letters(alloc, units)?;
    let least = least_inside(&letters, units);
    match least {
        Some(line) => Ok(Some(Ill {
            rule: IllRule::FenceInside,
            line,
        })),
        None => ill_of_open(alloc, units),
    }
}

/// The first of the three rules on fences that fails of the units, or None.
pub fn ill_of(alloc: Global, units: &[Unit]) -> Result<Option<Ill>, Memory>
    requires { HaveRegexes units.now }
    ensures { IfOk result (IsFenceIll units.now) }
{
    let least = least_used(alloc, units)?;
    match least {
        Some(line) => Ok(Some(Ill {
            rule: IllRule::FenceChar,
            line,
        })),
        None => ill_of_inside(alloc, units),
    }
}

/// The first of the three rules on fences that fails, with the least line at which it does, or None
/// where none of them fails.
///
/// The regular expressions of the sheet are those of its patterns. Takes time and memory linear in
/// the sheet, but for a factor of the number of fences.
pub fn fence_ill(alloc: Global, sheet: &Sheet) -> Result<Option<Ill>, Memory>
    requires { HaveRegexes sheet.now.units }
    ensures { IfOk result (IsFenceIll sheet.now.units) }
{
    ill_of(alloc, sheet.units.as_slice())
}
