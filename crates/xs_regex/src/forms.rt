ghost use Rattle.std.specs.Prelude.{◌≡◌, ◌∷◌, [], ◌++◌, List, IfOk, OnOk};
ghost use Rattle.xs_regex.specs.Meaning.{Means, MeanEach, leaning, tree_of};
ghost use Rattle.xs_regex.specs.Pattern as pattern;
ghost use Rattle.xs_regex.specs.Pattern.{Tree};

use crate::Regex;
use std::alloc::Global;
use xs_class::Memory;

/// How regexes are joined: one after another, or as a choice.
#[derive(Clone, Copy)]
pub enum Join {
    Turn,
    Choice,
}

/// Two regexes, joined.
fn joined(alloc: Global, join: Join, a: Regex, b: Regex) -> Result<Regex, Memory>
    ensures { IfOk result (λ r. (t u : Tree) → Means t a → Means u b → Means (tree_of join t u) r) }
{
    let first = Box::new(alloc, a)?;
    let second = Box::new(alloc, b)?;
    match join {
        Join::Turn => Ok(Regex::Then(first, second)),
        Join::Choice => Ok(Regex::Or(first, second)),
    }
}

/// Adds a part after the others.
pub fn push(front: &mut Vec<Regex>, part: Regex) -> Result<(), Memory>
    ensures items { OnOk result (front.new.items ≡ front.old.items ++ part ∷ []) }
{
    front.push(part)?;
    Ok(())
}

/// The regexes and the last, joined from the right.
pub fn all_joined(
    alloc: Global,
    join: Join,
    front: Vec<Regex>,
    last: Regex,
) -> Result<Regex, Memory>
    ensures { IfOk result (λ r. (ts : List Tree) (t : Tree) → MeanEach ts front.items → Means t last → Means (leaning (tree_of join) ts t) r) }
{
    let mut left = front;
    let mut whole = last;
    'parts: while let Some(part) = left.pop() {
        whole = joined(alloc, join, part, whole)?;
    }
    Ok(whole)
}

/// A regex any number of times.
pub fn any(alloc: Global, a: Regex) -> Result<Regex, Memory>
    ensures { IfOk result (λ r. (t : Tree) → Means t a → Means (pattern.any t) r) }
{
    let inner = Box::new(alloc, a)?;
    Ok(Regex::Star(inner))
}

/// A regex as often as the counts allow.
pub fn times(alloc: Global, a: Regex, least: u32, most: Option<u32>) -> Result<Regex, Memory>
    ensures { IfOk result (λ r. (t : Tree) → Means t a → Means (pattern.times t least most) r) }
{
    let inner = Box::new(alloc, a)?;
    Ok(Regex::Times(inner, least, most))
}
