ghost use Rattle.std.specs.Prelude.{◌≡◌, ◌<◌, ◌≤◌, ◌+◌, ◌^◌, ◌∷◌, ◌++◌, ℕ, [], true, false, Some, length, slice_get, Contains, IfOk, OnOk, MatchOption};
ghost use Rattle.xs_regex.specs.{Accepts, HasAt, IsBelow, IsWellFormed};
ghost use Rattle.xs_cover.specs.Tables.{at, IsLowered};
ghost use Rattle.xs_cover.specs.Shortest.{HasSymbol, IsLowest, AreRests, IsSettled, IsShortest, HasShortWord};

use std::alloc::Global;
use xs_class::{Memory, Sym, Word};
use xs_regex::Position;

/// More symbols than a least word has: what stands at a position after which no end is known.
const FAR: u64 = 1_000;

/// One of the positions, at which the least number stands, or None where there is no position.
fn lowest(positions: &[u32], rests: &[u64]) -> Option<u32>
    requires { IsBelow positions.now (length rests.now) }
    ensures { MatchOption result (positions.now ≡ []) (IsLowest positions.now rests.now) }
{
    if positions.is_empty() {
        return None;
    }
    let mut least = positions[0];
    'positions: for position in positions {
        if rests[*position as usize] < rests[least as usize] {
            least = *position;
        }
    }
    Some(least)
}

/// The least symbol of a position's class, or None where it has no symbol.
fn symbol_at(automaton: &Position, position: u32) -> Option<Sym>
    requires { position < length automaton.now.classes }
    ensures { MatchOption result (HasSymbol automaton.now position → ⊥) (HasAt automaton.now position) }
{
    match automaton.classes.at(position as usize).least() {
        Some(symbol) => Some(symbol),
        None => None,
    }
}

/// Whether a position's class has a symbol.
fn has_symbol(automaton: &Position, position: u32) -> bool
    requires { position < length automaton.now.classes }
    ensures some { result ≡ true → HasSymbol automaton.now position }
    ensures none { result ≡ false → HasSymbol automaton.now position → ⊥ }
{
    match symbol_at(automaton, position) {
        Some(_) => true,
        None => false,
    }
}

/// The positions that follow a position.
fn followers(automaton: &Position, position: u32) -> &[u32]
    requires formed { IsWellFormed automaton.now }
    requires position { position < length automaton.now.classes }
    ensures { slice_get automaton.now.follow position ≡ Some result.now }
{
    automaton.follow.at(position as usize).as_slice()
}

/// What is known at first: nothing is to come after last positions. Positions whose classes have no
/// symbol are left out.
fn ends_of(alloc: Global, automaton: &Position) -> Result<Vec<u64>, Memory>
    requires { IsWellFormed automaton.now }
    ensures { IfOk result (λ rests. AreRests automaton.now rests.items) }
{
    let mut rests = vec![in alloc; FAR; automaton.classes.len()]?;
    'ends: for position in automaton.last.as_slice() {
        if !has_symbol(automaton, *position) {
            continue;
        }
        rests[*position as usize] = 0;
    }
    Ok(rests)
}

/// Lowers the number at a position to one more than at a position that follows; false where no
/// number is lowered.
fn lower(automaton: &Position, rests: &mut [u64], position: u32) -> bool
    requires formed { IsWellFormed automaton.now }
    requires rests { AreRests automaton.now rests.old }
    requires position { position < length automaton.now.classes }
    ensures rests { AreRests automaton.now rests.new }
    ensures lowered { IsLowered result rests.old rests.new }
    ensures settled { result ≡ false → IsSettled automaton.now rests.old position }
{
    if !has_symbol(automaton, position) {
        return false;
    }
    let place = position as usize;
    let Some(next) = lowest(followers(automaton, position), rests) else {
        return false;
    };
    let rest = rests[next as usize] + 1;
    if rests[place] <= rest {
        return false;
    }
    rests[place] = rest;
    true
}

/// Lowers the numbers at all positions once, from the last one on; false where none is lowered.
fn sweep(automaton: &Position, rests: &mut [u64]) -> bool
    requires few { length automaton.now.classes < 2 ^ 32 }
    requires formed { IsWellFormed automaton.now }
    requires rests { AreRests automaton.now rests.old }
    ensures rests { AreRests automaton.now rests.new }
    ensures lowered { IsLowered result rests.old rests.new }
    ensures settled { result ≡ false → (j : ℕ) → j < length automaton.now.classes → IsSettled automaton.now rests.old j }
{
    let count = rests.len() as u32;
    let mut lowered = false;
    'positions: for done in 0..count {
        lowered |= lower(automaton, rests, count - 1 - done);
    }
    lowered
}

/// Lowers numbers until none is too high.
fn settle(automaton: &Position, rests: &mut [u64])
    requires few { length automaton.now.classes < 2 ^ 32 }
    requires formed { IsWellFormed automaton.now }
    requires rests { AreRests automaton.now rests.old }
    ensures rests { AreRests automaton.now rests.new }
    ensures settled { (j : ℕ) → j < length automaton.now.classes → IsSettled automaton.now rests.new j }
{
    'sweeps: while sweep(automaton, rests) {}
}

/// How many symbols are to come at least after each position.
fn rests_of(alloc: Global, automaton: &Position) -> Result<Vec<u64>, Memory>
    requires few { length automaton.now.classes < 2 ^ 32 }
    requires formed { IsWellFormed automaton.now }
    ensures rests { IfOk result (λ rests. AreRests automaton.now rests.items) }
    ensures settled { IfOk result (λ rests. (j : ℕ) → j < length automaton.now.classes → IsSettled automaton.now rests.items j) }
{
    let mut rests = ends_of(alloc, automaton)?;
    settle(automaton, &mut rests);
    Ok(rests)
}

/// Appends a symbol of a position's class.
fn push_symbol(automaton: &Position, position: u32, word: &mut Word) -> Result<(), Memory>
    requires position { position < length automaton.now.classes }
    requires symbol { HasSymbol automaton.now position }
    ensures { OnOk result ((s : ℕ) × HasAt automaton.now position s × (word.new ≡ word.old ++ s ∷ [])) }
{
    match symbol_at(automaton, position) {
        Some(symbol) => {
            word.push(symbol)?;
            Ok(())
        }
        None => unreachable!(),
    }
}

/// The word of a shortest way from a first position to a last one.
fn word_from(alloc: Global, automaton: &Position, rests: &[u64], first: u32) -> Result<Word, Memory>
    requires formed { IsWellFormed automaton.now }
    requires rests { AreRests automaton.now rests.now }
    requires first { Contains automaton.now.first first }
    requires near { at rests.now first < 1000 }
    ensures accepted { IfOk result (λ w. Accepts automaton.now w) }
    ensures short { IfOk result (λ w. length w ≤ at rests.now first + 1) }
{
    let mut word = Word::new(alloc);
    push_symbol(automaton, first, &mut word)?;
    let mut position = first;
    'positions: while rests[position as usize] > 0 {
        let Some(next) = lowest(followers(automaton, position), rests) else {
            unreachable!()
        };
        push_symbol(automaton, next, &mut word)?;
        position = next;
    }
    Ok(word)
}

/// A shortest word that an automaton accepts.
///
/// Positions are looked through from the last one on until none has less to come than was known,
/// as by Bellman and Ford: a way to an end seldom goes back, so twice is nearly always enough. Each
/// time is linear in the steps of the automaton.
pub fn least_word(alloc: Global, automaton: &Position) -> Result<Word, Memory>
    requires few { length automaton.now.classes < 2 ^ 32 }
    requires formed { IsWellFormed automaton.now }
    requires some { HasShortWord automaton.now }
    ensures { IfOk result (IsShortest automaton.now) }
{
    if automaton.nullable {
        return Ok(Word::new(alloc));
    }
    let rests = rests_of(alloc, automaton)?;
    let known = rests.as_slice();
    let Some(first) = lowest(automaton.first.as_slice(), known) else {
        unreachable!()
    };
    let word = word_from(alloc, automaton, known, first)?;
    Ok(word)
}
