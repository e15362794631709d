ghost use Rattle.std.specs.Prelude.{◌≡◌, ◌+◌, ◌<◌, None, IfOk, OnOk, IfErr};
ghost use Rattle.xs_sheet.specs.{HaveRegexes};
ghost use Rattle.xs_pair.specs.declared.ill.IllRule.TheVariants as R;
ghost use Rattle.xs_pair.specs.{IsPairOf, IsSoundPair, IsFirstLine, NoneBefore, order, IsOfBytes};
ghost use Rattle.xs_wf.specs.Passing.{AreGrammarsOf, Gives, AllGive};
ghost use Rattle.xs_wf.specs.Rules.{Fails, IsWell, IsRefusal};

use crate::{least_loop, least_not_char, least_unit, least_unproductive};
use std::alloc::Global;
use xs_class::Memory;
use xs_pair::{Ill, IllRule, PairFault, Two, both, fence_ill, rules_of};
use xs_sheet::Sheet;

/// Why a sheet is not well formed.
#[derive(Clone, Copy, Debug, PartialEq, Eq)]
pub enum WfFault {
    /// One of the fifteen rules fails: the first that does, with the least line at which it does.
    Ill(Ill),
    /// Memory ran out.
    Memory,
}

impl From<Memory> for WfFault {
    ghost use Rattle.std.specs.Prelude.{◌≡◌};
    ghost use Rattle.xs_wf.specs.declared.well.WfFault.TheVariants as fault;

    ghost from_gives = { λ _ e. e ≡ fault.Memory };

    fn from(_: Memory) -> Self {
        WfFault::Memory
    }
}

impl From<PairFault> for WfFault {
    ghost use Rattle.std.specs.Prelude.{◌≡◌};
    ghost use Rattle.xs_wf.specs.Passing.{fault_of};

    ghost from_gives = { λ fault e. e ≡ fault_of fault };

    fn from(fault: PairFault) -> Self {
        match fault {
            PairFault::Ill(ill) => WfFault::Ill(ill),
            PairFault::Memory => WfFault::Memory,
        }
    }
}

/// The least line at which the rule on characters fails.
fn least_character(alloc: Global, sheet: &Sheet) -> Result<Option<u32>, Memory>
    requires { HaveRegexes sheet.now.units }
    ensures { IfOk result (IsFirstLine (Fails sheet.now R.NotChar)) }
{
    let units = sheet.units.as_slice();
    let rules = rules_of(alloc, units)?;
    least_not_char(alloc, units, &rules)
}

/// The least line at which the rule fails, one of those before the rules on fences.
fn least(alloc: Global, sheet: &Sheet, two: &Two, rule: IllRule) -> Result<Option<u32>, Memory>
    requires grammars { AreGrammarsOf sheet.now two.now }
    requires early { order rule < 12 }
    ensures first { IfOk result (IsFirstLine (Fails sheet.now rule)) }
    ensures gives { IfOk result (λ least. least ≡ None → Gives sheet.now two.now rule) }
{
    match rule {
        IllRule::Twice => Ok(None),
        IllRule::Undefined => Ok(None),
        IllRule::NoStart => Ok(None),
        IllRule::NameOnce => Ok(None),
        IllRule::Kind => Ok(None),
        IllRule::AttrTwice => Ok(None),
        IllRule::RootShape => Ok(None),
        IllRule::EmptyClass => least_unit(alloc, IllRule::EmptyClass, sheet.units.as_slice()),
        IllRule::NotChar => least_character(alloc, sheet),
        IllRule::Normal => least_unit(alloc, IllRule::Normal, sheet.units.as_slice()),
        IllRule::Unproductive => least_unproductive(alloc, two),
        IllRule::Loop => least_loop(alloc, two),
        IllRule::FenceChar => unreachable!(),
        IllRule::FenceInside => unreachable!(),
        IllRule::FenceOpen => unreachable!(),
    }
}

/// Goes on where the rule fails nowhere.
fn pass(alloc: Global, sheet: &Sheet, two: &Two, rule: IllRule) -> Result<(), WfFault>
    requires grammars { AreGrammarsOf sheet.now two.now }
    requires early { order rule < 12 }
    requires before { NoneBefore (Fails sheet.now) (order rule) }
    ensures ok { OnOk result (NoneBefore (Fails sheet.now) (order rule + 1)) }
    ensures gives { OnOk result (Gives sheet.now two.now rule) }
    ensures ill { IfErr result (IsRefusal sheet.now) }
{
    let least = least(alloc, sheet, two, rule)?;
    match least {
        None => Ok(()),
        Some(line) => Err(WfFault::Ill(Ill { rule, line })),
    }
}

/// Refuses the first of the rules on fences that fails, where no rule before them does.
fn pass_fences(alloc: Global, sheet: &Sheet) -> Result<(), WfFault>
    requires regexes { HaveRegexes sheet.now.units }
    requires before { NoneBefore (Fails sheet.now) 12 }
    ensures well { OnOk result (IsWell sheet.now) }
    ensures ill { IfErr result (IsRefusal sheet.now) }
{
    let first = fence_ill(alloc, sheet)?;
    match first {
        None => Ok(()),
        Some(ill) => Err(WfFault::Ill(ill)),
    }
}

/// Refuses the first of the rules after the first seven that fails, at the least line at which it
/// does.
fn check(alloc: Global, sheet: &Sheet, two: &Two) -> Result<(), WfFault>
    requires { AreGrammarsOf sheet.now two.now }
    ensures well { OnOk result (IsWell sheet.now) }
    ensures gives { OnOk result (AllGive sheet.now two.now) }
    ensures ill { IfErr result (IsRefusal sheet.now) }
{
    pass(alloc, sheet, two, IllRule::EmptyClass)?;
    pass(alloc, sheet, two, IllRule::NotChar)?;
    pass(alloc, sheet, two, IllRule::Normal)?;
    pass(alloc, sheet, two, IllRule::Unproductive)?;
    pass(alloc, sheet, two, IllRule::Loop)?;
    pass_fences(alloc, sheet)?;
    Ok(())
}

/// The two grammars of a well-formed sheet.
///
/// `Ill` comes exactly where one of the fifteen rules fails: the first that does, with the least
/// line at which it does. The sheet is one that some bytes, at most 65,536 of them, spell. Takes
/// time and memory linear in the sheet, but for the order of its names and the search of its
/// regexes.
pub fn well_formed(alloc: Global, sheet: &Sheet) -> Result<Two, WfFault>
    requires { IsOfBytes sheet.now }
    ensures pair { IfOk result (IsPairOf sheet.now) }
    ensures sound { IfOk result IsSoundPair }
    ensures well { IfOk result (λ _. IsWell sheet.now) }
    ensures ill { IfErr result (IsRefusal sheet.now) }
{
    let two = both(alloc, sheet)?;
    check(alloc, sheet, &two)?;
    Ok(two)
}
