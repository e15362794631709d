ghost use Rattle.std.specs.Prelude.{◌≡◌, ◌+◌, ◌*◌, ◌≤◌, ◌++◌, ℕ, true, List, [], length, IfOk, IfSome};
ghost use Rattle.xs_regex.specs.Automaton.{Accepts, IsWellFormed, ClassesHaveMembers, EachEnds};
ghost use Rattle.xs_regex.specs.Matches.{joined as one_word, Each, Joined, Repeats, Matches};
ghost use Rattle.xs_regex.specs.Parts.{IsAutomaton, AreJoined, AreParts};
ghost use Rattle.xs_regex.specs.Size.{copies, times, size, sets, IsInOrder, IsBounded, HasMembers};
ghost use Rattle.xs_regex.specs.Links.{Shape, bare_of, joined_shape, once_or_more, at_most_once, as_often, shape, HasLinks};
ghost use Rattle.xs_regex.specs.declared.position.Position.{Position as AnyPosition};

use crate::compose::{either, maybe, nothing, round, sequence, single};
use crate::forms::Join;
use crate::repeat::repeated;
use crate::{Position, Regex};
use std::alloc::Global;
use xs_class::Memory;

/// The position automaton of a regex of size at most 512, in time at most cubic in the size.
///
/// Positions are numbered from 0 from left to right, one for each place of a class, the copies of
/// a repetition in order. It accepts exactly the words that the regex matches.
pub fn positions(alloc: Global, r: &Regex) -> Result<Position, Memory>
    requires { size r.now ≤ 512 }
    ensures size { IfOk result (λ p. length p.classes ≡ size r.now) }
    ensures classes { IfOk result (λ p. p.classes ≡ sets r.now) }
    ensures formed { IfOk result IsWellFormed }
    ensures sound { IfOk result (λ p. (w : List ℕ) → Accepts p w → Matches r.now w) }
    ensures complete { IfOk result (λ p. (w : List ℕ) → Matches r.now w → Accepts p w) }

    // Which positions are first and last, and which follow another, is as Glushkov has it.
    ensures links { IfOk result (HasLinks (shape r.now)) }

    // Where no class is empty, no position is a dead end.
    ensures members { IfOk result (λ p. HasMembers r.now → ClassesHaveMembers p) }
    ensures ends { IfOk result (λ p. IsBounded r.now → ClassesHaveMembers p → EachEnds p) }
{
    let p = built(alloc, r)?;
    Ok(p)
}

/// The automaton of a regex.
///
/// It calls itself for what is nested, and goes along the parts of a sequence or of a choice in a
/// loop, so the depth of the stack is that of the parentheses. The functions are kept apart, since
/// a frame that holds no automaton is small.
#[cycle(built)]
#[inline(never)]
fn built(alloc: Global, r: &Regex) -> Result<Position, Memory>
    requires { size r.now ≤ 512 }
    ensures automaton { IfOk result (IsAutomaton (Matches r.now) (sets r.now) (IsBounded r.now)) }
    ensures links { IfOk result (HasLinks (shape r.now)) }
{
    match r {
        Regex::Empty => no_symbol(alloc),
        Regex::Set(class) => single(alloc, class),
        Regex::Then(a, b) => joined(alloc, Join::Turn, a, b),
        Regex::Or(a, b) => joined(alloc, Join::Choice, a, b),
        Regex::Star(a) => any_number(alloc, a),
        Regex::Times(a, least, most) => counted(alloc, a, *least, *most),
    }
}

/// The empty word.
#[inline(never)]
fn no_symbol(alloc: Global) -> Result<Position, Memory>
    ensures automaton { IfOk result (IsAutomaton (λ (w : List ℕ). w ≡ []) [] (Unit {0})) }
    ensures links { IfOk result (HasLinks (bare_of true)) }
{
    Ok(nothing(alloc, true))
}

/// The two parts of a regex that is joined so.
fn parts_of(join: Join, r: &Regex) -> Option<(&Regex, &Regex)>
    ensures { IfSome result (λ p. AreParts join r.now p.0.now p.1.now) }
{
    match (join, r) {
        (Join::Turn, Regex::Then(a, b)) => Some((a, b)),
        (Join::Choice, Regex::Or(a, b)) => Some((a, b)),
        _ => None,
    }
}

/// Two regexes, joined, whose right parts are passed one after another.
#[cycle(built)]
#[inline(never)]
fn joined(alloc: Global, join: Join, a: &Regex, b: &Regex) -> Result<Position, Memory>
    requires { size a.now + size b.now ≤ 512 }
    ensures automaton { IfOk result (IsAutomaton (Joined join (Matches a.now) (Matches b.now)) (sets a.now ++ sets b.now) (IsBounded a.now × IsBounded b.now)) }
    ensures links { IfOk result (HasLinks (joined_shape join (shape a.now) (shape b.now))) }
{
    let mut all = built(alloc, a)?;
    let mut rest = b;
    'parts: while let Some((part, next)) = parts_of(join, rest) {
        add(alloc, join, &mut all, part)?;
        rest = next;
    }
    add(alloc, join, &mut all, rest)?;
    Ok(all)
}

/// Joins the automaton of a part to that of the parts before it.
#[cycle(built)]
#[inline(never)]
fn add(alloc: Global, join: Join, all: &mut Position, part: &Regex) -> Result<(), Memory>
    requires formed { IsWellFormed all.old }
    requires small { length all.old.classes + size part.now ≤ 512 }
    ensures part { IfOk result (λ _. (next : AnyPosition) × IsAutomaton (Matches part.now) (sets part.now) (IsBounded part.now) next × AreJoined join all.old next all.new) }
    ensures links { IfOk result (λ _. (s : Shape) → HasLinks s all.old → HasLinks (joined_shape join s (shape part.now)) all.new) }
{
    let mut next = built(alloc, part)?;
    match join {
        Join::Turn => sequence(alloc, all, &mut next),
        Join::Choice => either(alloc, all, &mut next),
    }
}

/// A regex any number of times.
#[cycle(built)]
#[inline(never)]
fn any_number(alloc: Global, a: &Regex) -> Result<Position, Memory>
    requires { size a.now ≤ 512 }
    ensures automaton { IfOk result (IsAutomaton (λ w. (ws : List (List ℕ)) × (w ≡ one_word ws) × Each (Matches a.now) ws) (sets a.now) (IsBounded a.now)) }
    ensures links { IfOk result (HasLinks (at_most_once (once_or_more (shape a.now)))) }
{
    let mut p = built(alloc, a)?;
    round(alloc, &mut p)?;
    Ok(maybe(p))
}

/// A regex as often as the counts allow.
#[cycle(built)]
#[inline(never)]
fn counted(alloc: Global, a: &Regex, least: u32, most: Option<u32>) -> Result<Position, Memory>
    requires { copies least most * size a.now ≤ 512 }
    ensures automaton { IfOk result (IsAutomaton (Repeats (Matches a.now) least most) (times (copies least most) (sets a.now)) (IsInOrder least most × IsBounded a.now)) }
    ensures links { IfOk result (HasLinks (as_often least most (shape a.now))) }
{
    if let Some(0) = most {
        return Ok(nothing(alloc, least == 0));
    }
    let p = built(alloc, a)?;
    repeated(alloc, &p, least, most)
}
