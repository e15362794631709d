ghost use Rattle.std.specs.Prelude.{◌≡◌, ℕ, suc, ◌+◌, ◌<◌, ◌≤◌, ◌∷◌, [], List, length, Some, IfOk, OnOk};
ghost use Rattle.xs_auto.specs.{states};
ghost use Rattle.xs_gram.specs.declared.parts.GItem.{GItem as Item};
ghost use Rattle.xs_gram.specs.declared.parts.GItem.TheVariants.{Non as NonItem};
ghost use Rattle.xs_regex.specs.{IsWellFormed};
ghost use Rattle.xs_gram.specs.{NamesAreThere, spread, IsPlain, AreOne};
ghost use Rattle.xs_check_laws.specs.{Members, heaviest};
ghost use Rattle.xs_loose.specs.Arcs.{Arc, call as call_arc, pass as pass_arc, word_arcs, after_word, automaton_arcs, after_automaton};
ghost use Rattle.xs_loose.specs.Groups.{group_number};
ghost use Rattle.xs_loose.specs.Growth.{NetGrows};
ghost use Rattle.xs_loose.specs.Laying.{entry_state, exit_state};
ghost use Rattle.xs_loose.specs.Parts.{IsPart, part_items};
ghost use Rattle.xs_loose.specs.Steps.{StandsAt};
ghost use Rattle.xs_loose.specs.Walking.{AreNamed, Lays, IsHome, HasItemRoom, HasRoom, IsItemLaid, IsOnward, IsStepped, AreAllLaid};
ghost use Rattle.xs_loose.specs.Work.{IsSite};

use crate::Part;
use crate::blocks::{lay_automaton, lay_word};
use crate::growth::{call, pass};
use crate::members::member_of;
use crate::site::{Home, Laid, Next, Site, Spot, Task, Walk};
use crate::tables::after_place;
use std::alloc::Global;
use xs_auto::Draft;
use xs_class::{Memory, Sym};
use xs_gram::GItem;
use xs_regex::Position;

impl Walk<'_, '_> {
    /// Lays the outer items and groups of a part one after another, and gives the spot after them.
    pub fn lay_items(&self, into: &mut Laid, part: Part, spot: Spot) -> Result<Spot, Memory>
        requires site { IsSite self.now.site.now }
        requires few { states into.old.net ≤ suc heaviest }
        requires before { spot.before < states into.old.net }
        requires home { IsHome self.now.site.now.g.now (states into.old.net) self.now.home }
        requires part { IsPart self.now.site.now.g.now part }
        requires room { HasRoom self.now.site.now.g.now (states into.old.net) self.now.home part.rule part.start (part_items self.now.site.now.g.now part) spot }
        ensures { IfOk result (AreAllLaid self.now.site.now.g.now self.now.site.now.tables.now.weights self.now.home part.rule part.start (part_items self.now.site.now.g.now part) spot into.old.net into.old.tasks.items into.new.net into.new.tasks.items) }
    {
        let mut number = *self.site.tables.groups.at(part.rule as usize);
        let mut next = Next {
            spot,
            place: part.start,
        };
        'items: for place in 0..part.end {
            let here = number;
            number = after_place(self.site.g, part.rule, place, number);
            if place < next.place {
                continue;
            }
            next = self.lay_next(into, part.rule, place, here, next.spot)?;
        }
        Ok(next.spot)
    }

    /// Lays the outer item or the group at a place of a rule, whose number is given, and says where
    /// to go on.
    fn lay_next(
        &self,
        into: &mut Laid,
        rule: u32,
        place: u32,
        number: u32,
        spot: Spot,
    ) -> Result<Next, Memory>
        requires site { IsSite self.now.site.now }
        requires few { states into.old.net ≤ suc heaviest }
        requires before { spot.before < states into.old.net }
        requires home { IsHome self.now.site.now.g.now (states into.old.net) self.now.home }
        requires rule { rule < length self.now.site.now.g.now.rules }
        requires place { place < length (spread self.now.site.now.g.now rule) }
        requires number { number ≡ group_number self.now.site.now.g.now rule place }
        requires room { (items : List Item) × StandsAt self.now.site.now.g.now rule place items × HasRoom self.now.site.now.g.now (states into.old.net) self.now.home rule place items spot }
        ensures low { IfOk result (λ t. t.spot.before < states into.old.net) }
        ensures stepped { IfOk result (λ t. (items : List Item) (all : List Arc) (after end : ℕ) → StandsAt self.now.site.now.g.now rule place items → Lays self.now.site.now.g.now self.now.home rule place items spot all after end → IsStepped self.now.site.now.g.now self.now.site.now.tables.now.weights self.now.home rule place items spot all after end into.old.net into.old.tasks.items into.new.net into.new.tasks.items t) }
    {
        let item = &self.site.g.spread(rule)[place as usize];
        match self.site.g.partner(rule, place) {
            Some(partner) => Ok(Next {
                spot: lay_group(&mut into.net, number, spot)?,
                place: partner + 1,
            }),
            None => Ok(Next {
                spot: self.lay_outer(into, item, spot)?,
                place: place + 1,
            }),
        }
    }

    /// Lays an outer item, in the component of its home if it has one.
    fn lay_outer(&self, into: &mut Laid, item: &GItem, spot: Spot) -> Result<Spot, Memory>
        requires site { IsSite self.now.site.now }
        requires few { states into.old.net ≤ suc heaviest }
        requires before { spot.before < states into.old.net }
        requires home { IsHome self.now.site.now.g.now (states into.old.net) self.now.home }
        requires there { NamesAreThere self.now.site.now.g.now item.now }
        requires plain { IsPlain self.now.site.now.g.now.fences item.now }
        requires room { (p k : ℕ) × (later : List Item) × AreNamed self.now.site.now.g.now later × HasRoom self.now.site.now.g.now (states into.old.net) self.now.home p k (item.now ∷ later) spot }
        ensures low { IfOk result (λ t. t.before < states into.old.net) }
        ensures onward { IfOk result (λ t. (p k : ℕ) (later : List Item) (all : List Arc) (after end : ℕ) → Lays self.now.site.now.g.now self.now.home p k (item.now ∷ later) spot all after end → IsOnward self.now.site.now.g.now self.now.site.now.tables.now.weights self.now.home p later spot all after end into.old.net into.old.tasks.items into.new.net into.new.tasks.items (suc k) t) }
    {
        match self.home {
            Some(home) => self.site.lay_in(into, home, item, spot),
            None => self.site.lay_item(into, item, spot),
        }
    }
}

impl Site<'_> {
    /// Lays an outer item of a rule in the component of its home.
    fn lay_in(&self, into: &mut Laid, home: Home, item: &GItem, spot: Spot) -> Result<Spot, Memory>
        requires site { IsSite self.now }
        requires few { states into.old.net ≤ suc heaviest }
        requires before { spot.before < states into.old.net }
        requires home { IsHome self.now.g.now (states into.old.net) (Some home) }
        requires there { NamesAreThere self.now.g.now item.now }
        requires plain { IsPlain self.now.g.now.fences item.now }
        requires room { (p k : ℕ) × (later : List Item) × AreNamed self.now.g.now later × HasRoom self.now.g.now (states into.old.net) (Some home) p k (item.now ∷ later) spot }
        ensures low { IfOk result (λ t. t.before < states into.old.net) }
        ensures onward { IfOk result (λ t. (p k : ℕ) (later : List Item) (all : List Arc) (after end : ℕ) → Lays self.now.g.now (Some home) p k (item.now ∷ later) spot all after end → IsOnward self.now.g.now self.now.tables.now.weights (Some home) p later spot all after end into.old.net into.old.tasks.items into.new.net into.new.tasks.items (suc k) t) }
    {
        let component = *self.comps.at(home.non as usize) as usize;
        match member_of(self.comps, component, item) {
            Some(member) => lay_member(&mut into.net, self.entry_of(home, member), spot),
            None => self.lay_item(into, item, spot),
        }
    }

    /// The entry of a member of the component of its home, which is before the exit.
    pub fn entry_of(&self, home: Home, member: u32) -> u32
        requires site { IsSite self.now }
        requires there { member < self.now.g.now.nons }
        requires member { AreOne self.now.g.now home.non member }
        requires home { IsHome self.now.g.now (suc heaviest) (Some home) }
        ensures entry { (j : ℕ) → Members self.now.g.now home.non member j → result ≡ entry_state home.first j }
        ensures exit { (bound : ℕ) → IsHome self.now.g.now bound (Some home) → suc result < bound }
    {
        let rank = *self.tables.ranks.at(member as usize);
        home.first + 2 * rank
    }

    /// Lays an item whole; a nonterminal's component is left to a task.
    fn lay_item(&self, into: &mut Laid, item: &GItem, spot: Spot) -> Result<Spot, Memory>
        requires site { IsSite self.now }
        requires few { states into.old.net ≤ suc heaviest }
        requires before { spot.before < states into.old.net }
        requires there { NamesAreThere self.now.g.now item.now }
        requires room { HasItemRoom self.now.g.now (states into.old.net) item.now spot }
        ensures { IfOk result (λ t. IsItemLaid self.now.g.now self.now.tables.now.weights item.now spot into.old.net into.old.tasks.items into.new.net into.new.tasks.items t) }
    {
        match item {
            GItem::Fixed(word) => lay_fixed(&mut into.net, self.alloc, word.as_slice(), spot),
            GItem::Term { term, .. } => lay_regular(&mut into.net, self.g.term(*term), spot),
            GItem::Skip { skip } => lay_regular(&mut into.net, self.g.skip(*skip), spot),
            GItem::Non { non, .. } => self.leave(into, *non, spot),
        }
    }

    /// Leads to the entry of a nonterminal, and leaves its component to a task.
    fn leave(&self, into: &mut Laid, non: u32, spot: Spot) -> Result<Spot, Memory>
        requires site { IsSite self.now }
        requires few { states into.old.net ≤ suc heaviest }
        requires before { spot.before < states into.old.net }
        requires there { non < self.now.g.now.nons }
        requires room { (slot : ℕ) × HasItemRoom self.now.g.now (states into.old.net) (NonItem non slot) spot }
        ensures { IfOk result (λ t. (slot : ℕ) → IsItemLaid self.now.g.now self.now.tables.now.weights (NonItem non slot) spot into.old.net into.old.tasks.items into.new.net into.new.tasks.items t) }
    {
        let rank = *self.tables.ranks.at(non as usize);
        let weight = *self.tables.weights.at(non as usize) as u32;
        let entry = spot.at + 2 * rank;
        pass(&mut into.net, spot.before, entry)?;
        into.tasks.push(Task { non, at: spot.at })?;
        Ok(Spot {
            before: entry + 1,
            at: spot.at + weight,
        })
    }
}

/// Lays a group: a state after its call, and one after an empty move from there.
fn lay_group(net: &mut Draft, number: u32, spot: Spot) -> Result<Spot, Memory>
    requires before { spot.before < states net.old }
    requires room { suc spot.at < states net.old }
    requires few { states net.old ≤ suc heaviest }
    ensures before { IfOk result (λ t. t.before ≡ suc spot.at) }
    ensures at { IfOk result (λ t. t.at ≡ suc (suc spot.at)) }
    ensures grows { OnOk result (NetGrows (call_arc spot.before number spot.at ∷ pass_arc spot.at (suc spot.at) ∷ []) net.old net.new) }
{
    call(net, spot.before, number, spot.at)?;
    pass(net, spot.at, spot.at + 1)?;
    Ok(Spot {
        before: spot.at + 1,
        at: spot.at + 2,
    })
}

/// Lays a member of the component of its home, whose entry is given: one state, which is after it.
fn lay_member(net: &mut Draft, entry: u32, spot: Spot) -> Result<Spot, Memory>
    requires few { states net.old ≤ suc heaviest }
    requires before { spot.before < states net.old }
    requires at { spot.at < states net.old }
    requires exit { suc entry < states net.old }
    ensures before { IfOk result (λ t. t.before ≡ spot.at) }
    ensures at { IfOk result (λ t. t.at ≡ suc spot.at) }
    ensures grows { OnOk result (NetGrows (pass_arc spot.before entry ∷ pass_arc (suc entry) spot.at ∷ []) net.old net.new) }
{
    pass(net, spot.before, entry)?;
    pass(net, entry + 1, spot.at)?;
    Ok(Spot {
        before: spot.at,
        at: spot.at + 1,
    })
}

/// Lays a fixed word.
fn lay_fixed(net: &mut Draft, alloc: Global, word: &[Sym], spot: Spot) -> Result<Spot, Memory>
    requires before { spot.before < states net.old }
    requires room { spot.at + length word.now ≤ states net.old }
    requires few { states net.old ≤ suc heaviest }
    ensures before { IfOk result (λ t. t.before ≡ after_word word.now spot.before spot.at) }
    ensures at { IfOk result (λ t. t.at ≡ spot.at + length word.now) }
    ensures grows { OnOk result (NetGrows (word_arcs word.now spot.before spot.at) net.old net.new) }
{
    let before = lay_word(net, alloc, word, spot.before, spot.at)?;
    Ok(Spot {
        before,
        at: spot.at + word.len() as u32,
    })
}

/// Lays an automaton.
fn lay_regular(net: &mut Draft, automaton: &Position, spot: Spot) -> Result<Spot, Memory>
    requires formed { IsWellFormed automaton.now }
    requires few { states net.old ≤ suc heaviest }
    requires before { spot.before < states net.old }
    requires room { after_automaton automaton.now spot.at < states net.old }
    ensures before { IfOk result (λ t. t.before ≡ after_automaton automaton.now spot.at) }
    ensures at { IfOk result (λ t. t.at ≡ suc t.before) }
    ensures grows { OnOk result (NetGrows (automaton_arcs automaton.now spot.before spot.at) net.old net.new) }
{
    let before = lay_automaton(net, automaton, spot.before, spot.at)?;
    Ok(Spot {
        before,
        at: before + 1,
    })
}
