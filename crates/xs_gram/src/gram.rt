ghost use Rattle.std.specs.Prelude.{◌≡◌, ◌↔◌, IfSome, ◌<◌, ◌≤◌, ◌+◌, ◌^◌, ℕ, Some, None, length, slice_get, IfOk};
ghost use Rattle.xs_gram.specs.Grammar.{rule_of, term_of, skip_of, items, normal_word};
ghost use Rattle.xs_gram.specs.Building.{CanBuild, IsOf};
ghost use Rattle.xs_gram.specs.Fences.{spread, IsPartner, IsLeftFence};
ghost use Rattle.xs_gram.specs.Spreading.{partners};
ghost use Rattle.xs_gram.specs.Cuts.{CutsAt};
ghost use Rattle.xs_gram.specs.Sound.{IsInRange, IsSmall, IsProper, IsBuilt};
ghost use Rattle.xs_gram.specs.Places.{all_places, at_dot, IsPlace};

use crate::body::Body;
use crate::cutting::{Cut, round};
use crate::{GItem, GItems, GramParts, Ignorable, Partners, Place, RulePart, Terminal};
use std::alloc::Global;
use std::marker::Model;
use xs_class::{Memory, Sym, Word};
use xs_regex::{Numbers, Position};

/// A grammar: one side of a sheet, as contracts see it a record of its start, its number of
/// nonterminals, its rules, its terminals and its ignorables.
///
/// All numbers are from 0 on. The places of the grammar are numbered too: a rule, a number of items
/// before the place, and inside a terminal or an ignorable a position of its automaton.
#[derive(Debug, Drop)]
pub struct Gram {
    start: u32,
    nons: u32,
    rules: Vec<RulePart>,
    terms: Vec<Terminal>,
    skips: Vec<Ignorable>,
    fences: Vec<(Sym, Sym)>,
    places: Vec<Place>,
    starts: Vec<Numbers>,
    spreads: Vec<GItems>,
    partners: Vec<Partners>,
}

impl Model for Gram {
    ghost use Rattle.xs_gram.specs.Grammar.{Grammar};
    ghost use Rattle.xs_gram.specs.Places.{IsKept};
    ghost use Rattle.xs_regex.specs.contracts.regex.Regex as e;
    ghost use Rattle.std.specs.Coded.{codes};

    ghost Value = { Grammar };

    ghost coded = { Prim.hlevel (codes, e.the_row.coded) };

    ghost view = { λ g. record { start = g.start; nons = g.nons; rules = g.rules.items; terms = g.terms.items; skips = g.skips.items; fences = g.fences.items } };

    ghost invariant = { λ g. IsKept (record { start = g.start; nons = g.nons; rules = g.rules.items; terms = g.terms.items; skips = g.skips.items; fences = g.fences.items }) g.places.items g.starts.items g.spreads.items g.partners.items };
}

impl Gram {
    /// The grammar of these parts, in time in all at most linear in its items, its places and the
    /// cubes of the sizes of its regexes.
    pub fn build(alloc: Global, parts: GramParts) -> Result<Gram, Memory>
        requires { CanBuild parts }
        ensures parts { IfOk result (IsOf parts) }
        ensures built { IfOk result IsBuilt }
    {
        let body = Body::of_parts(alloc, parts)?;
        let mut places = Vec::new(alloc);
        let starts = body.push_rules(alloc, &mut places)?;
        let spreads = body.spreads(alloc)?;
        let partners = body.partners(alloc, &spreads)?;
        Ok(Gram {
            start: body.start,
            nons: body.nons,
            rules: body.rules,
            terms: body.terms,
            skips: body.skips,
            fences: body.fences,
            places,
            starts,
            spreads,
            partners,
        })
    }

    /// The number of the start nonterminal.
    pub fn start(&self) -> u32
        ensures { result ≡ self.now.start }
    {
        self.start
    }

    /// The number of nonterminals.
    pub fn nons(&self) -> u32
        ensures { result ≡ self.now.nons }
    {
        self.nons
    }

    /// The number of terminals.
    pub fn terms(&self) -> u32
        ensures { result ≡ length self.now.terms }
    {
        self.terms.len() as u32
    }

    /// The number of ignorables.
    pub fn skips(&self) -> u32
        ensures { result ≡ length self.now.skips }
    {
        self.skips.len() as u32
    }

    /// The number of rules.
    pub fn rules(&self) -> u32
        ensures { result ≡ length self.now.rules }
    {
        self.rules.len() as u32
    }

    /// The position automaton of a terminal.
    pub fn term(&self, term: u32) -> &Position
        requires { term < length self.now.terms }
        ensures { result.now ≡ (term_of self.now term).automaton }
    {
        &self.terms[term as usize].automaton
    }

    /// The position automaton of an ignorable.
    pub fn skip(&self, skip: u32) -> &Position
        requires { skip < length self.now.skips }
        ensures { result.now ≡ (skip_of self.now skip).automaton }
    {
        &self.skips[skip as usize].automaton
    }

    /// The normal spelling of an ignorable.
    pub fn normal(&self, skip: u32) -> &Word
        requires { skip < length self.now.skips }
        ensures { result.now ≡ normal_word self.now skip }
    {
        &self.skips[skip as usize].normal
    }

    /// The nonterminal of a rule.
    pub fn non_of(&self, rule: u32) -> u32
        requires { rule < length self.now.rules }
        ensures { result ≡ (rule_of self.now rule).non }
    {
        self.rules[rule as usize].non
    }

    /// The fences: pairs of a left and a right symbol.
    pub fn fences(&self) -> &[(Sym, Sym)]
        ensures { result.now ≡ self.now.fences }
    {
        &self.fences
    }

    /// The items of a rule, and that all numbers that items name are there.
    pub fn items(&self, rule: u32) -> &[GItem]
        requires { rule < length self.now.rules }
        ensures items { result.now ≡ items self.now rule }
        ensures range { IsInRange self.now }
        ensures small { IsSmall self.now }
    {
        self.rules[rule as usize].items.as_slice()
    }

    /// The items of a rule in which each fixed word is split at fence symbols: each fence symbol is a
    /// fixed word by itself, and the stretches between stay whole.
    pub fn spread(&self, rule: u32) -> &[GItem]
        requires { rule < length self.now.rules }
        ensures items { result.now ≡ spread self.now rule }
        ensures proper { IsProper self.now }
        ensures short { length (spread self.now rule) < 2 ^ 32 }
    {
        self.spreads[rule as usize].as_slice()
    }

    /// The partners of a rule's spread items, as they are kept.
    fn partners_of(&self, rule: u32) -> &[Option<u32>]
        requires { rule < length self.now.rules }
        ensures list { result.now ≡ partners self.now.fences 0 (spread self.now rule) }
        ensures proper { IsProper self.now }
    {
        self.partners[rule as usize].as_slice()
    }

    /// The number of the right fence that closes a left fence of a rule's spread items, in constant
    /// time, and `None` exactly where spread item `k` is no left fence.
    pub fn partner(&self, rule: u32, k: u32) -> Option<u32>
        requires rule { rule < length self.now.rules }
        requires item { k < length (spread self.now rule) }
        ensures some { IfSome result (IsPartner self.now.fences (spread self.now rule) k) }
        ensures none { (result ≡ None) ↔ ¬ IsLeftFence self.now.fences (spread self.now rule) k }
    {
        self.partners_of(rule)[k as usize]
    }

    /// Where the front of a cut begins and where its rest ends, in time linear in `c`: after the left
    /// fence and at the right fence of the group round the cut, or at the two ends of the rule where
    /// there is none.
    pub fn cut(&self, rule: u32, c: u32) -> Cut
        requires rule { rule < length self.now.rules }
        requires within { c ≤ length (spread self.now rule) }
        ensures { CutsAt self.now.fences (spread self.now rule) c result.start result.end }
    {
        let end = self.spread(rule).len() as u32;
        match round(self.partners_of(rule), c) {
            Some((left, right)) => Cut {
                start: left + 1,
                end: right,
            },
            None => Cut { start: 0, end },
        }
    }

    /// The number of places.
    pub fn places(&self) -> u32
        ensures { result ≡ length (all_places self.now) }
    {
        self.places.len() as u32
    }

    /// The place of this number, as the list has it.
    fn listed(&self, k: u32) -> Place
        requires { k < length (all_places self.now) }
        ensures { slice_get (all_places self.now) k ≡ Some result }
    {
        self.places[k as usize]
    }

    /// The place of this number, in constant time.
    pub fn place(&self, k: u32) -> Place
        requires { k < length (all_places self.now) }
        ensures listed { slice_get (all_places self.now) k ≡ Some result }
        ensures is { IsPlace self.now result }
    {
        self.listed(k)
    }

    /// The number of the place before an item, or at a rule's end.
    fn start_of(&self, rule: u32, dot: u32) -> u32
        requires rule { rule < length self.now.rules }
        requires dot { dot ≤ length (items self.now rule) }
        ensures place { slice_get (all_places self.now) result ≡ Some (at_dot rule dot) }
        ensures few { length (all_places self.now) < 2 ^ 32 }
    {
        self.starts[rule as usize].as_slice()[dot as usize]
    }

    /// The number of this place, in constant time.
    pub fn number(&self, place: Place) -> u32
        requires { IsPlace self.now place }
        ensures found { slice_get (all_places self.now) result ≡ Some place }
        ensures once { (k : ℕ) → slice_get (all_places self.now) k ≡ Some place → k ≡ result }
    {
        let start = self.start_of(place.rule, place.dot);
        match place.inside {
            None => start,
            Some(position) => start + 1 + position,
        }
    }
}
