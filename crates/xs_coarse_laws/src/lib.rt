//! Laws of coarse nets: a net that covers a stretch accepts at least its loose words, and where a
//! closed set of pairs of states shows that two of them share no word, or do not overlap, there is no
//! suspect.
//!
//! A loose word is spelt by recursion on how it is loose, step by step: each step of a walk through
//! the places of a nonterminal is a path of the net that covers the grammar, also into a lower
//! component, so nothing but the loose word itself is gone through.
#![tactic(auto)]

ghost use Rattle.xs_coarse_laws.specs.Laws.{CoversAcceptLoose, CoverNestsAreFenced, ApartSharesNone, ClearOverlapsNot};

/// A net that covers a stretch accepts at least its loose words.
pub fn covers_accept_loose()
    ensures { CoversAcceptLoose }
{}

/// A nest that covers the groups of a grammar may be searched.
pub fn cover_nests_are_fenced()
    ensures { CoverNestsAreFenced }
{}

/// Closed sets over covers show that there is no suspect.
pub fn closed_sets_show_none()
    ensures apart { ApartSharesNone }
    ensures clear { ClearOverlapsNot }
{}
