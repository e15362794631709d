ghost use Rattle.std.specs.Prelude.{IfOk};
ghost use Rattle.xs_gram.specs.Sound.{IsAutomaton};
ghost use Rattle.xs_gram.specs.Building.{EachOf, IsFit, AreTerminals, AreIgnorables};

use crate::{Ignorable, SkipPart, Terminal};
use std::alloc::Global;
use xs_class::Memory;
use xs_regex::{Position, Regex, positions};

/// The automaton of a regex.
#[tactic(auto, unfolding(xs_regex::specs::Links::IsGlushkov))]
fn automaton_of(alloc: Global, regex: &Regex) -> Result<Position, Memory>
    requires { IsFit regex.now }
    ensures { IfOk result (IsAutomaton regex.now) }
{
    let automaton = positions(alloc, regex)?;
    Ok(automaton)
}

/// The terminals of these regexes, each with its automaton.
pub fn terminals(alloc: Global, regexes: Vec<Regex>) -> Result<Vec<Terminal>, Memory>
    requires { EachOf IsFit regexes.items }
    ensures { IfOk result (λ terms. AreTerminals regexes.items terms.items) }
{
    let mut terms = Vec::with_capacity(alloc, regexes.len())?;
    'regexes: for regex in regexes {
        let automaton = automaton_of(alloc, &regex)?;
        terms.push(Terminal { regex, automaton })?;
    }
    Ok(terms)
}

/// The ignorables of these parts, each with its automaton.
pub fn ignorables(alloc: Global, parts: Vec<SkipPart>) -> Result<Vec<Ignorable>, Memory>
    requires { EachOf (λ k. IsFit k.regex) parts.items }
    ensures { IfOk result (λ skips. AreIgnorables parts.items skips.items) }
{
    let mut skips = Vec::with_capacity(alloc, parts.len())?;
    'parts: for part in parts {
        let SkipPart { regex, normal } = part;
        let automaton = automaton_of(alloc, &regex)?;
        skips.push(Ignorable {
            regex,
            automaton,
            normal,
        })?;
    }
    Ok(skips)
}
