ghost use Rattle.std.specs.Prelude.{◌≡◌, ◌<◌, ◌≤◌, ℕ, [], length, IfOk, OnOk};
ghost use Rattle.std.specs.List.{All, Contains};
ghost use Rattle.xs_clauses.specs.Made.{AreBelow};
ghost use Rattle.xs_clauses.specs.Search.{AreUses, IsFit, IsMarked, Grows, IsSettled, IsFirstUnset, IsClosed};

use crate::Clause;
use std::alloc::Global;
use xs_class::{Listed, Memory};

/// A search for what clauses make: the flags of the numbers that are made, those numbers in the
/// order in which they were found, and for each clause how many of its premises in front are made.
#[derive(Drop)]
pub struct Search {
    pub flags: Vec<bool>,
    pub found: Vec<u32>,
    pub dots: Vec<usize>,
}

impl Search {
    /// A search that has found nothing.
    pub fn new(alloc: Global, count: u32, clauses: &[Clause]) -> Result<Search, Memory>
        ensures fits { IfOk result (IsFit clauses.now) }
        ensures count { IfOk result (λ s. length s.flags.items ≡ count) }
    {
        let flags = vec![in alloc; false; count as usize]?;
        let dots = vec![in alloc; 0; clauses.len()]?;
        Ok(Search {
            flags,
            found: Vec::new(alloc),
            dots,
        })
    }

    /// Finds all that the clauses make.
    pub fn run(&mut self, clauses: &[Clause], uses: &[Listed<usize>]) -> Result<(), Memory>
        requires below { AreBelow (length self.old.flags.items) clauses.now }
        requires fits { IsFit clauses.now self.old }
        requires uses { AreUses (length self.old.flags.items) clauses.now uses.now }
        ensures fits { OnOk result (IsFit clauses.now self.new) }
        ensures count { OnOk result (length self.new.flags.items ≡ length self.old.flags.items) }
        ensures closed { OnOk result (IsClosed clauses.now self.new.flags.items) }
    {
        self.begin(clauses)?;
        self.close(clauses, uses)?;
        Ok(())
    }

    /// Moves the dot of each clause.
    fn begin(&mut self, clauses: &[Clause]) -> Result<(), Memory>
        requires below { AreBelow (length self.old.flags.items) clauses.now }
        requires fits { IsFit clauses.now self.old }
        ensures fits { OnOk result (IsFit clauses.now self.new) }
        ensures grows { OnOk result (Grows self.old self.new) }
        ensures settled { OnOk result ((k : ℕ) → k < length clauses.now → IsSettled clauses.now self.new.flags.items self.old.found.items k) }
    {
        'clauses: for place in 0..clauses.len() {
            self.advance(clauses, place)?;
        }
        Ok(())
    }

    /// Goes through the found numbers, and moves the dots of the clauses that have them as
    /// premises.
    fn close(&mut self, clauses: &[Clause], uses: &[Listed<usize>]) -> Result<(), Memory>
        requires below { AreBelow (length self.old.flags.items) clauses.now }
        requires fits { IsFit clauses.now self.old }
        requires uses { AreUses (length self.old.flags.items) clauses.now uses.now }
        requires settled { (k : ℕ) → k < length clauses.now → IsSettled clauses.now self.old.flags.items [] k }
        ensures fits { OnOk result (IsFit clauses.now self.new) }
        ensures count { OnOk result (length self.new.flags.items ≡ length self.old.flags.items) }
        ensures closed { OnOk result (IsClosed clauses.now self.new.flags.items) }
    {
        'places: for place in 0..usize::MAX {
            if place >= self.found.len() {
                return Ok(());
            }
            let number = self.found[place];
            self.advance_all(clauses, uses[number as usize].as_slice())?;
        }
        Ok(())
    }

    /// Moves the dots of the clauses at these places.
    fn advance_all(&mut self, clauses: &[Clause], places: &[usize]) -> Result<(), Memory>
        requires below { AreBelow (length self.old.flags.items) clauses.now }
        requires fits { IsFit clauses.now self.old }
        requires places { All (λ k. k < length clauses.now) places.now }
        ensures fits { OnOk result (IsFit clauses.now self.new) }
        ensures grows { OnOk result (Grows self.old self.new) }
        ensures settled { OnOk result ((k : ℕ) → Contains places.now k → IsSettled clauses.now self.new.flags.items self.old.found.items k) }
    {
        'places: for place in places {
            self.advance(clauses, *place)?;
        }
        Ok(())
    }

    /// Moves a clause's dot to its first premise that is not made, and marks its head where there
    /// is none.
    fn advance(&mut self, clauses: &[Clause], place: usize) -> Result<(), Memory>
        requires below { AreBelow (length self.old.flags.items) clauses.now }
        requires fits { IsFit clauses.now self.old }
        requires place { place < length clauses.now }
        ensures fits { OnOk result (IsFit clauses.now self.new) }
        ensures grows { OnOk result (Grows self.old self.new) }
        ensures settled { OnOk result (IsSettled clauses.now self.new.flags.items self.old.found.items place) }
    {
        let clause = &clauses[place];
        let premises = clause.premises.as_slice();
        let dot = first_unset(premises, self.dots[place], &self.flags);
        self.dots[place] = dot;
        if dot < premises.len() {
            return Ok(());
        }
        self.mark(clause.head)?;
        Ok(())
    }

    /// Sets a number's flag, and adds it to what is found unless it was set.
    fn mark(&mut self, number: u32) -> Result<(), Memory>
        requires { number < length self.old.flags.items }
        ensures { OnOk result (IsMarked self.old self.new number) }
    {
        if !self.flags[number as usize] {
            self.flags[number as usize] = true;
            self.found.push(number)?;
        }
        Ok(())
    }
}

/// The place of the first premise from `from` on whose flag is not set, or the number of premises.
fn first_unset(premises: &[u32], from: usize, flags: &[bool]) -> usize
    requires from { from ≤ length premises.now }
    requires below { All (λ n. n < length flags.now) premises.now }
    ensures { IsFirstUnset premises.now from flags.now result }
{
    'places: for place in from..premises.len() {
        if !flags[premises[place] as usize] {
            return place;
        }
    }
    premises.len()
}
