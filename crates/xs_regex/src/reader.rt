ghost use Rattle.std.specs.Prelude.{◌≡◌};
ghost use Rattle.std.specs.Option.{option_map};
ghost use Rattle.xs_regex.specs.Characters.{set_at};
ghost use Rattle.xs_regex.specs.Meaning.{Means, Reads};
ghost use Rattle.xs_regex.specs.Pattern.{Tree};
ghost use Rattle.xs_regex.specs.Scan as scan;
ghost use Rattle.xs_regex.specs.Scan.{count_after, class_of, closed, regex_at, pieces_at, atom_at};
ghost use Rattle.xs_regex.specs.Reported.{IsReported};

use crate::characters::{counts, next};
use crate::forms::{Join, all_joined, any, push, times};
use crate::sets::set;
use crate::{Regex, RegexFault};
use std::alloc::Global;

/// Sequences with bars between them, and what is left after them.
///
/// It takes at most as many steps as are given, and goes into parentheses at most to that depth.
#[cycle(reader)]
pub fn regex(
    alloc: Global,
    steps: usize,
    depth: u32,
    cs: &[char],
) -> Result<(Regex, &[char]), RegexFault>
    ensures { IsReported (regex_at steps depth cs.now) Reads result }
{
    let mut front = Vec::new(alloc);
    let mut here = cs;
    let mut bound = steps;
    'sequences: while bound > 0 {
        bound -= 1;
        match sequence(alloc, bound, depth, here) {
            Ok((part, left)) => {
                let Some(rest) = after_bar(left) else {
                    let whole = all_joined(alloc, Join::Choice, front, part)?;
                    return Ok((whole, left));
                };
                push(&mut front, part)?;
                here = rest;
            }
            Err(fault) => return Err(fault),
        }
    }
    Err(RegexFault::BadRegex)
}

/// What stands after a bar, where one is here.
fn after_bar(cs: &[char]) -> Option<&[char]>
    ensures { option_map (λ r. r.now) result ≡ scan.after_bar cs.now }
{
    let (c, rest) = next(cs)?;
    if c == '|' { Some(rest) } else { None }
}

/// Whether a sequence ends here.
fn ends(cs: &[char]) -> bool
    ensures { result ≡ scan.stops cs.now }
{
    let Some((c, _)) = next(cs) else {
        return true;
    };
    c == '|' || c == ')'
}

/// Pieces one after another, or none, and what is left after them.
#[cycle(reader)]
fn sequence(
    alloc: Global,
    steps: usize,
    depth: u32,
    cs: &[char],
) -> Result<(Regex, &[char]), RegexFault>
    ensures { IsReported (scan.sequence_at steps depth cs.now) Reads result }
{
    if ends(cs) {
        return Ok((Regex::Empty, cs));
    }
    pieces(alloc, steps, depth, cs)
}

/// One piece or more, one after another, and what is left after them.
#[cycle(reader)]
fn pieces(
    alloc: Global,
    steps: usize,
    depth: u32,
    cs: &[char],
) -> Result<(Regex, &[char]), RegexFault>
    ensures { IsReported (pieces_at steps depth cs.now) Reads result }
{
    let mut front = Vec::new(alloc);
    let mut here = cs;
    let mut bound = steps;
    'pieces: while bound > 0 {
        bound -= 1;
        match piece(alloc, bound, depth, here) {
            Ok((part, left)) => {
                if ends(left) {
                    let whole = all_joined(alloc, Join::Turn, front, part)?;
                    return Ok((whole, left));
                }
                push(&mut front, part)?;
                here = left;
            }
            Err(fault) => return Err(fault),
        }
    }
    Err(RegexFault::BadRegex)
}

/// An atom with its count.
#[cycle(reader)]
fn piece(
    alloc: Global,
    steps: usize,
    depth: u32,
    cs: &[char],
) -> Result<(Regex, &[char]), RegexFault>
    ensures { IsReported (scan.counted (atom_at steps depth cs.now)) Reads result }
{
    match atom(alloc, steps, depth, cs) {
        Ok((inner, left)) => counted(alloc, inner, left),
        Err(fault) => Err(fault),
    }
}

/// A regex with the count that stands here, if one does, and what is left after it.
fn counted(alloc: Global, inner: Regex, cs: &[char]) -> Result<(Regex, &[char]), RegexFault>
    ensures { (t : Tree) → Means t inner → IsReported (count_after t cs.now) Reads result }
{
    let Some((c, rest)) = next(cs) else {
        return Ok((inner, cs));
    };
    if c == '*' {
        let whole = any(alloc, inner)?;
        Ok((whole, rest))
    } else if c == '+' {
        let whole = times(alloc, inner, 1, None)?;
        Ok((whole, rest))
    } else if c == '?' {
        let whole = times(alloc, inner, 0, Some(1))?;
        Ok((whole, rest))
    } else if c == '{' {
        let Some(((least, most), left)) = counts(rest) else {
            return Err(RegexFault::BadRegex);
        };
        let whole = times(alloc, inner, least, most)?;
        Ok((whole, left))
    } else {
        Ok((inner, cs))
    }
}

/// A class or a regex in parentheses, and what is left after it.
#[cycle(reader)]
fn atom(
    alloc: Global,
    steps: usize,
    depth: u32,
    cs: &[char],
) -> Result<(Regex, &[char]), RegexFault>
    ensures { IsReported (atom_at steps depth cs.now) Reads result }
{
    if steps == 0 {
        return Err(RegexFault::BadRegex);
    }
    let Some((c, rest)) = next(cs) else {
        return Err(RegexFault::BadRegex);
    };
    if depth == 0 {
        return class(alloc, cs);
    }
    if c == '(' {
        return group(alloc, steps - 1, depth - 1, rest);
    }
    class(alloc, cs)
}

/// A regex and a closing parenthesis.
#[cycle(reader)]
fn group(
    alloc: Global,
    steps: usize,
    depth: u32,
    cs: &[char],
) -> Result<(Regex, &[char]), RegexFault>
    ensures { IsReported (closed (regex_at steps depth cs.now)) Reads result }
{
    match regex(alloc, steps, depth, cs) {
        Ok((inner, left)) => {
            let Some((c, rest)) = next(left) else {
                return Err(RegexFault::BadRegex);
            };
            if c == ')' {
                Ok((inner, rest))
            } else {
                Err(RegexFault::BadRegex)
            }
        }
        Err(fault) => Err(fault),
    }
}

/// A class, and what is left after it.
fn class(alloc: Global, cs: &[char]) -> Result<(Regex, &[char]), RegexFault>
    ensures { IsReported (class_of (set_at cs.now)) Reads result }
{
    match set(alloc, cs) {
        Ok((class, left)) => Ok((Regex::Set(class), left)),
        Err(fault) => Err(fault),
    }
}
