ghost use Rattle.std.specs.Prelude.{ℕ, ◌≡◌, ◌<◌, true, List, length, IfOk, OnOk, IfSome, IfNone};
ghost use Rattle.xs_gram.specs.{spread, AreComponents, IsBuilt, IsHorizontal};
ghost use Rattle.xs_check_laws.specs.{IsLight};
ghost use Rattle.xs_loose.specs.{AreTables};
ghost use Rattle.xs_screen.specs.{ShareNone, AreDoubts, IsScreen};
ghost use Rattle.xs_searches.specs.Searching.{AreBothLoose, OverlapsAt, IsExactFor};

use crate::exact::Exact;
use std::alloc::Global;
use std::marker::Model;
use xs_class::{Memory, Word};
use xs_gram::{Comps, Gram};
use xs_loose::Tables;
use xs_meet::Overlap;
use xs_screen::{Screen, are_any, are_fixed_apart, fixed_doubts};

/// The searches for suspects of a grammar whose rules are light, which contracts see as the grammar.
///
/// A screen sees of most pairs of rules and of most cuts that they have no suspect; an exact search
/// decides of the others, and alone finds words. The screen is made when it is first needed, and so is
/// what the exact searches share.
#[derive(Drop)]
pub struct Searches<'g> {
    alloc: Global,
    g: &'g Gram,
    comps: &'g Comps,
    tables: &'g Tables,
    is_unscreened: bool,
    screen: Option<Screen>,
    exact: Option<Exact<'g>>,
}

impl<'g> Model for Searches<'g> {
    ghost use Rattle.xs_gram.specs.Grammar.{Grammar};
    ghost use Rattle.xs_regex.specs.contracts.regex.Regex as e;
    ghost use Rattle.std.specs.Coded.{codes};
    ghost use Rattle.xs_searches.specs.Searching.{IsReady};

    ghost Value = { Grammar };

    ghost coded = { Prim.hlevel (codes, e.the_row.coded) };

    ghost view = { λ s. s.g.now };

    ghost invariant = { λ s. IsReady s.g.now s.comps.now s.tables.now s.screen s.exact };
}

impl<'g> Searches<'g> {
    /// The searches for suspects of a grammar whose rules are light, with a screen where its coarse nets
    /// are not too large.
    pub fn of(
        alloc: Global,
        g: &'g Gram,
        comps: &'g Comps,
        tables: &'g Tables,
    ) -> Result<Searches<'g>, Memory>
        requires built { IsBuilt g.now }
        requires comps { AreComponents g.now comps.now }
        requires tables { AreTables g.now comps.now tables.now }
        requires light { IsLight g.now }
        ensures { IfOk result (λ s. s ≡ g.now) }
    {
        let mut searches = Searches::exact(alloc, g, comps, tables)?;
        searches.is_unscreened = true;
        Ok(searches)
    }

    /// The same without a screen: an exact search decides where fixed words show nothing.
    pub fn exact(
        alloc: Global,
        g: &'g Gram,
        comps: &'g Comps,
        tables: &'g Tables,
    ) -> Result<Searches<'g>, Memory>
        requires built { IsBuilt g.now }
        requires comps { AreComponents g.now comps.now }
        requires tables { AreTables g.now comps.now tables.now }
        requires light { IsLight g.now }
        ensures { IfOk result (λ s. s ≡ g.now) }
    {
        Ok(Searches {
            alloc,
            g,
            comps,
            tables,
            is_unscreened: false,
            screen: None,
            exact: None,
        })
    }

    /// The grammar.
    pub fn grammar(&self) -> &'g Gram
        ensures same { result.now ≡ self.now }
        ensures built { IsBuilt self.now }
    {
        self.g
    }

    /// The allocator.
    pub fn alloc(&self) -> Global {
        self.alloc
    }

    /// A word that is loose for two rules, or none where there is none.
    pub fn shared_word(&mut self, rule: u32, rule2: u32) -> Result<Option<Word>, Memory>
        requires rule { rule < length self.old.rules }
        requires rule2 { rule2 < length self.old.rules }
        ensures same { self.new ≡ self.old }
        ensures some { IfOk result (λ o. IfSome o (AreBothLoose self.old rule rule2)) }
        ensures none { IfOk result (λ o. IfNone o ((w : List ℕ) → AreBothLoose self.old rule rule2 w → ⊥)) }
    {
        if self.are_seen_apart(rule, rule2)? {
            return Ok(None);
        }
        let mut exact = self.take_exact()?;
        let word = exact.shared_word(rule, rule2)?;
        self.exact = Some(exact);
        Ok(word)
    }

    /// Whether it is seen that no word is loose for both rules, by the fixed words at their ends, or by
    /// the screen.
    fn are_seen_apart(&mut self, rule: u32, rule2: u32) -> Result<bool, Memory>
        requires rule { rule < length self.old.rules }
        requires rule2 { rule2 < length self.old.rules }
        ensures same { self.new ≡ self.old }
        ensures apart { IfOk result (λ b. b ≡ true → ShareNone self.old rule rule2) }
    {
        if are_fixed_apart(self.g, rule, rule2) {
            return Ok(true);
        }
        match self.take_screen()? {
            None => Ok(false),
            Some(mut screen) => {
                let groups = &self.tables.groups;
                let apart = screen.are_apart(self.alloc, self.g, groups, rule, rule2)?;
                self.screen = Some(screen);
                Ok(apart)
            }
        }
    }

    /// Says in the list, for each place of a rule's spread items, whether its cut is in doubt, as
    /// those beyond the list are: at the others it is seen that front and rest do not overlap, by the
    /// screen or without it.
    pub fn doubts(&mut self, rule: u32, doubts: &mut Vec<bool>) -> Result<(), Memory>
        requires rule { rule < length self.old.rules }
        ensures same { self.new ≡ self.old }
        ensures doubts { OnOk result (AreDoubts self.old rule doubts.new.items) }
    {
        fixed_doubts(self.g, rule, doubts)?;
        if !are_any(doubts) {
            return Ok(());
        }
        match self.take_screen()? {
            None => Ok(()),
            Some(mut screen) => {
                screen.doubts(self.alloc, self.g, &self.tables.groups, rule, doubts)?;
                self.screen = Some(screen);
                Ok(())
            }
        }
    }

    /// The screen, taken out, and made where it was not yet; none where its coarse nets are too large.
    fn take_screen(&mut self) -> Result<Option<Screen>, Memory>
        ensures same { self.new ≡ self.old }
        ensures screen { IfOk result (λ o. IfSome o (IsScreen self.old)) }
    {
        if self.is_unscreened {
            self.is_unscreened = false;
            return Screen::of(self.alloc, self.g, &self.tables.groups);
        }
        Ok(self.screen.take())
    }

    /// Words by which the front and the rest of a rule overlap at a cut, or none where there are
    /// none, by an exact search.
    pub fn overlap_at(&mut self, rule: u32, cut: u32) -> Result<Option<Overlap>, Memory>
        requires rule { rule < length self.old.rules }
        requires low { 0 < cut }
        requires high { cut < length (spread self.old rule) }
        ensures same { self.new ≡ self.old }
        ensures some { IfOk result (λ o. IfSome o (λ w. IsHorizontal self.old rule cut w.x w.a w.y)) }
        ensures none { IfOk result (λ o. IfNone o (OverlapsAt self.old rule cut → ⊥)) }
    {
        let mut exact = self.take_exact()?;
        let found = exact.overlap_at(rule, cut)?;
        self.exact = Some(exact);
        Ok(found)
    }

    /// The exact searches, taken out, and made where there are none.
    fn take_exact(&mut self) -> Result<Exact<'g>, Memory>
        ensures same { self.new ≡ self.old }
        ensures exact { IfOk result (IsExactFor self.old) }
    {
        match self.exact.take() {
            Some(exact) => Ok(exact),
            None => Exact::of(self.alloc, self.g, self.comps, self.tables),
        }
    }
}
