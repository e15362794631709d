ghost use Rattle.std.specs.Prelude.{◌≡◌, ◌<◌, ◌+◌, ◌^◌, ◌++◌, ◌∷◌, [], suc, Some, length, IfOk};
ghost use Rattle.xs_gram.specs.Building.{EachOf, NamesAreThere, AreRowStarts, AreStarts, IsReady, CanBuild, IsOf};
ghost use Rattle.xs_gram.specs.Grammar.{items};
ghost use Rattle.xs_gram.specs.Places.{at_dot, positions_of, insides, rule_places, all_places};

use crate::automata::{ignorables, terminals};
use crate::{GItem, GramParts, Ignorable, Place, RulePart, Terminal};
use std::alloc::Global;
use std::marker::Model;
use xs_class::{Memory, Sym};
use xs_regex::Numbers;

/// The parts of a grammar, without the list of its places.
#[derive(Debug, Drop)]
pub struct Body {
    pub start: u32,
    pub nons: u32,
    pub rules: Vec<RulePart>,
    pub terms: Vec<Terminal>,
    pub skips: Vec<Ignorable>,
    pub fences: Vec<(Sym, Sym)>,
}

impl Model for Body {
    ghost use Rattle.xs_gram.specs.Grammar.{Grammar};
    ghost use Rattle.xs_regex.specs.contracts.regex.Regex as e;
    ghost use Rattle.std.specs.Coded.{codes};

    ghost Value = { Grammar };

    ghost coded = { Prim.hlevel (codes, e.the_row.coded) };

    ghost view = { λ b. record { start = b.start; nons = b.nons; rules = b.rules.items; terms = b.terms.items; skips = b.skips.items; fences = b.fences.items } };
}

impl Body {
    /// The grammar of these parts.
    pub fn of_parts(alloc: Global, parts: GramParts) -> Result<Body, Memory>
        requires { CanBuild parts }
        ensures parts { IfOk result (IsOf parts) }
        ensures ready { IfOk result IsReady }
    {
        let terms = terminals(alloc, parts.terms.into_vec())?;
        let skips = ignorables(alloc, parts.skips.into_vec())?;
        Ok(Body {
            start: parts.start,
            nons: parts.nons,
            rules: parts.rules.into_vec(),
            terms,
            skips,
            fences: parts.fences.into_vec(),
        })
    }

    /// How many positions an item has.
    fn positions(&self, item: &GItem) -> usize
        requires { NamesAreThere self.now item.now }
        ensures { result ≡ positions_of self.now item.now }
    {
        match item {
            GItem::Fixed(_) | GItem::Non { .. } => 0,
            GItem::Term { term, .. } => self.terms[*term as usize].automaton.classes.len(),
            GItem::Skip { skip } => self.skips[*skip as usize].automaton.classes.len(),
        }
    }

    /// Appends the place before an item, and those inside it.
    fn push_item(
        &self,
        rule: u32,
        dot: u32,
        item: &GItem,
        places: &mut Vec<Place>,
    ) -> Result<(), Memory>
        requires there { NamesAreThere self.now item.now }
        requires few { positions_of self.now item.now < 2 ^ 32 }
        ensures { IfOk result (λ _. places.new.items ≡ places.old.items ++ at_dot rule dot ∷ insides rule dot 0 (positions_of self.now item.now)) }
    {
        places.push(Place {
            rule,
            dot,
            inside: None,
        })?;
        push_insides(places, rule, dot, self.positions(item))
    }

    /// Appends the places of a rule, and gives where those of each item, and of the rule's end,
    /// begin.
    fn push_rule(
        &self,
        alloc: Global,
        rule: u32,
        items: &[GItem],
        places: &mut Vec<Place>,
    ) -> Result<Numbers, Memory>
        requires there { EachOf (NamesAreThere self.now) items.now }
        requires few { length (places.old.items ++ rule_places self.now rule 0 items.now) < 2 ^ 32 }
        ensures places { IfOk result (λ _. places.new.items ≡ places.old.items ++ rule_places self.now rule 0 items.now) }
        ensures starts { IfOk result (λ row. AreRowStarts places.new.items rule (suc (length items.now)) row) }
    {
        let mut row = Vec::with_capacity(alloc, items.len() + 1)?;
        'items: for (dot, item) in items.iter().enumerate() {
            row.push(places.len() as u32)?;
            self.push_item(rule, dot as u32, item, places)?;
        }
        row.push(places.len() as u32)?;
        places.push(Place {
            rule,
            dot: items.len() as u32,
            inside: None,
        })?;
        Ok(Numbers::from_vec(row))
    }

    /// Appends all places to no places, and gives where those before each rule's items, and at its
    /// end, stand.
    pub fn push_rules(&self, alloc: Global, places: &mut Vec<Place>) -> Result<Vec<Numbers>, Memory>
        requires empty { places.old.items ≡ [] }
        requires ready { IsReady self.now }
        ensures places { IfOk result (λ _. places.new.items ≡ all_places self.now) }
        ensures starts { IfOk result (λ starts. AreStarts self.now places.new.items (length self.now.rules) starts.items) }
    {
        let mut starts = Vec::with_capacity(alloc, self.rules.len())?;
        'rules: for (number, rule) in self.rules.iter().enumerate() {
            let row = self.push_rule(alloc, number as u32, rule.items.as_slice(), places)?;
            starts.push(row)?;
        }
        Ok(starts)
    }
}

/// Appends the places inside an item.
fn push_insides(places: &mut Vec<Place>, rule: u32, dot: u32, count: usize) -> Result<(), Memory>
    requires { count < 2 ^ 32 }
    ensures { IfOk result (λ _. places.new.items ≡ places.old.items ++ insides rule dot 0 count) }
{
    'positions: for k in 0..count {
        places.push(Place {
            rule,
            dot,
            inside: Some(k as u32),
        })?;
    }
    Ok(())
}
