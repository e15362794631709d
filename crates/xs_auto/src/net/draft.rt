ghost use Rattle.std.specs.Prelude.{◌≡◌, ◌<◌, ◌-◌, ◌^◌, [], OnOk, OnErr, IfOk, IsTrue, Some, None};
ghost use Rattle.xs_auto.specs.Layout.{HasNumber, KeepsNumbers};
ghost use Rattle.xs_auto.specs.Nets.{states, AddsState, AddsEdge, AddsMove, AddsCall, SetsFinal};

use super::Net;
use crate::Call;
use crate::edge::EdgeRow;
use crate::grouped::{Leaving, grouped};
use std::alloc::Global;
use std::marker::Model;
use xs_class::{Class, Memory};

/// Whether that is the class of the number.
fn is_at(classes: &[Class], number: usize, class: &Class) -> bool
    ensures { IsTrue result → HasNumber classes.now number class.now }
{
    match classes.get(number) {
        None => false,
        Some(known) => known.ranges() == class.ranges(),
    }
}

/// The number of a class: the known one, if that is its number, or else that of a new last class.
fn number_of(classes: &mut Vec<Class>, known: usize, class: &Class) -> Result<usize, Memory>
    ensures kept { KeepsNumbers classes.old.items classes.new.items }
    ensures number { IfOk result (λ k. HasNumber classes.new.items k class.now) }
{
    if is_at(classes, known, class) {
        return Ok(known);
    }
    let number = classes.len();
    let copy = class.copy()?;
    classes.push(copy)?;
    Ok(number)
}

/// A net that is being built: its states, and what leads from them in the order in which it was
/// added.
///
/// An edge names its class by a number; it is that of the last edge to the same state where both
/// have one class.
#[derive(Debug, Drop)]
pub struct Draft {
    start: Option<u32>,
    finals: Vec<bool>,
    entered: Vec<usize>,
    classes: Vec<Class>,
    edges: Vec<Leaving<EdgeRow>>,
    moves: Vec<Leaving<u32>>,
    calls: Vec<Leaving<Call>>,
}

impl Model for Draft {
    ghost use Rattle.std.specs.Prelude.{length};
    ghost use Rattle.xs_auto.specs.Nets.{Graph};
    ghost use Rattle.xs_auto.specs.Layout.{draft_of, IsDrafted};

    ghost Value = { Graph };

    ghost view = { λ d. draft_of d.start d.finals.items d.classes.items d.edges.items d.moves.items d.calls.items };

    ghost invariant = { λ d. IsDrafted (length d.finals.items) d.start d.entered.items d.classes.items d.edges.items d.moves.items d.calls.items };
}

impl Draft {
    /// A net without states.
    pub fn new(alloc: Global) -> Result<Draft, Memory>
        ensures { IfOk result (λ n. n ≡ record { start = None; nodes = [] }) }
    {
        Ok(Draft {
            start: None,
            finals: Vec::new(alloc),
            entered: Vec::new(alloc),
            classes: Vec::new(alloc),
            edges: Vec::new(alloc),
            moves: Vec::new(alloc),
            calls: Vec::new(alloc),
        })
    }

    /// Adds a state that is not final and leads nowhere, and gives its number.
    pub fn state(&mut self) -> Result<u32, Memory>
        requires { states self.old < 2 ^ 32 - 1 }
        ensures number { IfOk result (λ a. a ≡ states self.old) }
        ensures ok { OnOk result (AddsState self.old self.new) }
        ensures err { OnErr result (self.new ≡ self.old) }
    {
        let number = self.finals.len() as u32;
        self.entered.reserve(1)?;
        self.finals.push(false)?;
        self.entered.push_reserved(0);
        Ok(number)
    }

    /// The number of states.
    pub fn len(&self) -> u32
        ensures { result ≡ states self.now }
    {
        self.finals.len() as u32
    }

    /// Adds an edge from a to b that reads the symbols of the class.
    pub fn edge(&mut self, a: u32, class: &Class, b: u32) -> Result<(), Memory>
        requires from { a < states self.old }
        requires to { b < states self.old }
        ensures ok { OnOk result (AddsEdge self.old self.new a (record { class = class.now; to = b })) }
        ensures err { OnErr result (self.new ≡ self.old) }
    {
        let known = self.entered[b as usize];
        let number = number_of(&mut self.classes, known, class)?;
        self.entered[b as usize] = number;
        let row = EdgeRow {
            class: number,
            to: b,
        };
        self.edges.push(Leaving { from: a, arc: row })?;
        Ok(())
    }

    /// Adds an empty move from a to b.
    pub fn pass(&mut self, a: u32, b: u32) -> Result<(), Memory>
        requires from { a < states self.old }
        requires to { b < states self.old }
        ensures ok { OnOk result (AddsMove self.old self.new a b) }
        ensures err { OnErr result (self.new ≡ self.old) }
    {
        self.moves.push(Leaving { from: a, arc: b })?;
        Ok(())
    }

    /// Adds a call of a group, which leads from a to b.
    pub fn call(&mut self, a: u32, group: u32, b: u32) -> Result<(), Memory>
        requires from { a < states self.old }
        requires to { b < states self.old }
        ensures ok { OnOk result (AddsCall self.old self.new a (record { group = group; to = b })) }
        ensures err { OnErr result (self.new ≡ self.old) }
    {
        let call = Call { group, to: b };
        self.calls.push(Leaving { from: a, arc: call })?;
        Ok(())
    }

    /// Makes a the state to begin from, in place of any that was set before.
    pub fn set_start(&mut self, a: u32)
        requires { a < states self.old }
        ensures { self.new ≡ record self.old { start = Some a } }
    {
        self.start = Some(a);
    }

    /// Makes a final.
    pub fn set_final(&mut self, a: u32) -> Result<(), Memory>
        requires { a < states self.old }
        ensures ok { OnOk result (SetsFinal self.old self.new a) }
        ensures err { OnErr result (self.new ≡ self.old) }
    {
        self.finals[a as usize] = true;
        Ok(())
    }

    /// The net, in time linear in its states and what leads from them.
    pub fn finish(self) -> Result<Net, Memory>
        ensures { IfOk result (λ n. n ≡ self) }
    {
        let alloc = *self.finals.allocator();
        let states = self.finals.len();
        let no_edge = EdgeRow { class: 0, to: 0 };
        let no_call = Call { group: 0, to: 0 };
        let edges = grouped(alloc, states, &self.edges, no_edge)?;
        let moves = grouped(alloc, states, &self.moves, 0)?;
        let calls = grouped(alloc, states, &self.calls, no_call)?;
        Ok(Net {
            start: self.start,
            finals: self.finals,
            classes: self.classes,
            edges,
            moves,
            calls,
        })
    }
}
