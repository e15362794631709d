//! Laws of sheets: bytes spell one sheet and one pair of grammars, up to what no definition sees.
//!
//! A regular expression is read of a pattern, and two readings may differ in how they hold it; they
//! have one size, one shape and the same classes, and match the same words. Sheets, grammars and
//! pairs of grammars are alike where they differ in that alone. The laws: bytes that spell two
//! sheets spell sheets that are alike, two pairs of grammars of the same bytes are alike, and
//! grammars that are alike have the same derivations, trees, prints, words, viable prefixes, weights
//! and suspects, and are accepted alike. A sheet that is refused is refused in one way.
//!
//! The upgrade of a well-formed sheet to version 2 is well formed, has the same derivations, and is
//! accepted where the sheet is, unless a rule of it is too heavy. This holds of each sheet that, lines
//! aside, some bytes have, also where its upgrade is longer than a sheet may be that is read. A rule
//! may become heavier: a component that fences part is counted at each of its occurrences.
//!
//! The statements stand in specs/. Each function here is a law, and does nothing when it runs.
#![tactic(auto)]

ghost use Rattle.xs_sheet_laws.specs.Meanings.{AlikeMeanTheSame, AlikeAreCheckedAlike};
ghost use Rattle.xs_sheet_laws.specs.Refusals.{BrokenOnce, IllOnce, HeavyOnce, SuspectOnce};
ghost use Rattle.xs_sheet_laws.specs.Laws.{OneSheet, AlikeSheetsMeanTheSame, OnePair, OnePairOfBytes, AlikePairsMeanTheSame};
ghost use Rattle.xs_sheet_laws.specs.Upgrading.{UpgradeIsWell, UpgradeKeepsDerivations, UpgradeStaysAccepted};

use xs_check_laws::{accepted_stays_accepted, weights_are_exact};

/// Two sheets of the same bytes are alike.
pub fn one_sheet()
    ensures { OneSheet }
{}

/// Sheets that are alike are well formed alike, or fail the same rule first, and have the same pairs
/// of grammars.
pub fn alike_sheets_mean_the_same()
    ensures { AlikeSheetsMeanTheSame }
{}

/// Two pairs of grammars of one sheet are alike, and so are two of the same bytes.
pub fn one_pair()
    ensures sheet { OnePair }
    ensures bytes { OnePairOfBytes }
{}

/// Pairs of grammars that are alike have the same names, and mean the same on either side.
pub fn alike_pairs_mean_the_same()
    ensures { AlikePairsMeanTheSame }
{}

/// Grammars that are alike have the same derivations, trees, words and suspects.
pub fn alike_mean_the_same()
    ensures { AlikeMeanTheSame }
{}

/// Pairs of grammars that are alike are accepted alike, and refused alike.
pub fn alike_are_checked_alike()
    ensures { AlikeAreCheckedAlike }
{}

/// A sheet is refused in one way: bytes are broken at one place, one rule fails first and at one line,
/// the first heavy rule has one weight, and the first suspect stands at one site.
pub fn refused_once()
    ensures broken { BrokenOnce }
    ensures ill { IllOnce }
    ensures heavy { HeavyOnce }
    ensures suspect { SuspectOnce }
{
    weights_are_exact();
}

/// The upgrade of a well-formed sheet is well formed.
pub fn upgrade_is_well()
    ensures { UpgradeIsWell }
{
    alike_sheets_mean_the_same();
}

/// A sheet and its upgrade have the same flat items, and so the same derivations.
pub fn upgrade_keeps_derivations()
    ensures { UpgradeKeepsDerivations }
{
    alike_sheets_mean_the_same();
    one_pair();
    alike_pairs_mean_the_same();
}

/// The upgrade of an accepted sheet is accepted, unless a rule of it is too heavy.
pub fn upgrade_stays_accepted()
    ensures { UpgradeStaysAccepted }
{
    alike_sheets_mean_the_same();
    one_pair();
    alike_pairs_mean_the_same();
    alike_mean_the_same();
    alike_are_checked_alike();
    accepted_stays_accepted();
}
