ghost use Rattle.std.specs.Prelude.{◌≡◌, ◌≤◌, ◌⊎◌, ◌↔◌, ℕ, length, IsTrue, IfOk, OnErr, Contains};
ghost use Rattle.xs_regex.specs.Automaton.{Accepts, IsBelow, IsWellFormed};
ghost use Rattle.xs_regex.specs.Marked.{Marked, AreEntered, AreNext};
ghost use Rattle.xs_regex.specs.Matches.{Matches};
ghost use Rattle.xs_regex.specs.Size.{size};

use crate::{Position, Regex, positions};
use std::alloc::Global;
use std::marker::Model;
use xs_class::{Memory, Sym, Word};

/// Whether the regex, of size at most 512, matches the word.
///
/// It makes the regex's automaton, and then takes time at most the product of the word's length
/// and the square of the size.
pub fn matches(alloc: Global, r: &Regex, word: &Word) -> Result<bool, Memory>
    requires { size r.now ≤ 512 }
    ensures { IfOk result (λ b. IsTrue b ↔ Matches r.now word.now) }
{
    let p = positions(alloc, r)?;
    let mut matcher = Matcher::new(alloc);
    matcher.accepts(&p, word.as_slice())
}

/// A run of an automaton over a word, symbol by symbol: flags for the positions that it has reached
/// and for those that may come next. Its memory serves one word after another, of any automata.
#[derive(Drop)]
pub struct Matcher {
    may: Vec<bool>,
    reached: Vec<bool>,
}

impl Model for Matcher {
    ghost Value = { Unit {0} };

    ghost view = { λ _. tt };
}

impl Matcher {
    /// A matcher without memory.
    pub fn new(alloc: Global) -> Self {
        Matcher {
            may: Vec::new(alloc),
            reached: Vec::new(alloc),
        }
    }

    /// Whether the automaton accepts the word, in time at most the product of the word's length and
    /// the square of the number of positions.
    ///
    /// `Memory` comes only where there is no memory for two flags for each position; what has been
    /// reserved for an automaton of as many positions is used again.
    pub fn accepts(&mut self, p: &Position, word: &[Sym]) -> Result<bool, Memory>
        requires { IsWellFormed p.now }
        ensures accepted { IfOk result (λ b. IsTrue b ↔ Accepts p.now word.now) }
        ensures err { OnErr result (self.new ≡ self.old) }
    {
        let count = p.classes.len();
        self.may.resize(count, false)?;
        self.reached.resize(count, false)?;
        Ok(goes(p, word, &mut self.may, &mut self.reached))
    }
}

/// Whether the automaton accepts the word, by flags for the positions that may come next, and for
/// those that are reached.
fn goes(p: &Position, word: &[Sym], may: &mut [bool], reached: &mut [bool]) -> bool
    requires formed { IsWellFormed p.now }
    requires room { length may.old ≡ length p.now.classes }
    requires also { length reached.old ≡ length p.now.classes }
    ensures { IsTrue result ↔ Accepts p.now word.now }
{
    clear(may);
    clear(reached);
    mark(may, p.first.as_slice());
    'symbols: for symbol in word {
        enter(p, may, *symbol, reached);
        follow(p, reached, may);
    }
    ends(p, word.is_empty(), reached)
}

/// Whether the automaton may end where it has come.
fn ends(p: &Position, at_start: bool, reached: &[bool]) -> bool
    requires formed { IsWellFormed p.now }
    requires one_each { length reached.now ≡ length p.now.classes }
    ensures { IsTrue result ↔ ((IsTrue at_start × IsTrue p.now.nullable) ⊎ ((k : ℕ) × Contains p.now.last k × Marked reached.now k)) }
{
    (at_start && p.nullable) || some_marked(reached, p.last.as_slice())
}

/// Clears every flag.
fn clear(flags: &mut [bool])
    ensures { (k : ℕ) → ¬ (Marked flags.new k) }
{
    flags.fill(false);
}

/// Marks those positions that have the symbol among the ones that may come.
fn enter(p: &Position, may: &[bool], symbol: Sym, reached: &mut [bool])
    requires one_each { length may.now ≡ length p.now.classes }
    requires room { length reached.old ≡ length p.now.classes }
    ensures { AreEntered p.now may.now symbol reached.new }
{
    'classes: for k in 0..reached.len() {
        reached[k] = may[k] && p.classes.at(k).has(symbol);
    }
}

/// Marks those positions that follow the ones that were reached.
fn follow(p: &Position, reached: &[bool], may: &mut [bool])
    requires formed { IsWellFormed p.now }
    requires one_each { length reached.now ≡ length p.now.classes }
    requires room { length may.old ≡ length p.now.classes }
    ensures { AreNext p.now reached.now may.new }
{
    clear(may);
    'rows: for j in 0..reached.len() {
        if reached[j] {
            mark(may, p.follow.at(j).as_slice());
        }
    }
}

/// Sets the flags of the numbers.
fn mark(flags: &mut [bool], numbers: &[u32])
    requires { IsBelow numbers.now (length flags.old) }
    ensures { (k : ℕ) → Marked flags.new k ↔ (Marked flags.old k ⊎ Contains numbers.now k) }
{
    'numbers: for number in numbers {
        flags[*number as usize] = true;
    }
}

/// Whether the flag of one of the numbers is set.
pub fn some_marked(flags: &[bool], numbers: &[u32]) -> bool
    requires { IsBelow numbers.now (length flags.now) }
    ensures { IsTrue result ↔ ((k : ℕ) × Contains numbers.now k × Marked flags.now k) }
{
    'numbers: for number in numbers {
        if flags[*number as usize] {
            return true;
        }
    }
    false
}
