ghost use Rattle.std.specs.Prelude.{◌≡◌, ℕ, ◌<◌, ◌↔◌, ◌^◌, List, length, IsTrue, IfOk};
ghost use Rattle.xs_clauses.specs.{AreFlags};
ghost use Rattle.xs_gram.specs.{IsBuilt};
ghost use Rattle.xs_regex.specs.{Accepts, IsWellFormed};
ghost use Rattle.xs_order.specs.Wanted.{IsWanted, HasWanted, AreWith, count_of, is_any};

use crate::leaves::Leaves;
use crate::words::has_word;
use std::alloc::Global;
use xs_class::Memory;
use xs_gram::Gram;
use xs_regex::Position;

/// Which words of leaves are wanted: the empty one, or any.
#[derive(Clone, Copy)]
pub enum Wanted {
    EmptyWord,
    AnyWord,
}

impl Wanted {
    /// Whether any word is.
    fn is_any(self) -> bool
        ensures { result ≡ is_any self }
    {
        match self {
            Wanted::EmptyWord => false,
            Wanted::AnyWord => true,
        }
    }
}

/// The kinds of leaves that have automata.
#[derive(Clone, Copy)]
enum Kind {
    Terminals,
    Ignorables,
}

/// The leaves that have a wanted word, in time linear in the steps of the automata.
pub fn leaves_with(alloc: Global, g: &Gram, wanted: Wanted) -> Result<Leaves, Memory>
    requires { IsBuilt g.now }
    ensures { IfOk result (AreWith g.now wanted) }
{
    let terms = flags_of(alloc, g, Kind::Terminals, wanted)?;
    let skips = flags_of(alloc, g, Kind::Ignorables, wanted)?;
    Ok(Leaves {
        fixed: wanted.is_any(),
        terms,
        skips,
    })
}

/// For each leaf of the kind whether it has a wanted word.
fn flags_of(alloc: Global, g: &Gram, kind: Kind, wanted: Wanted) -> Result<Vec<bool>, Memory>
    requires { IsBuilt g.now }
    ensures { IfOk result (λ flags. AreFlags (HasWanted g.now kind wanted) (count_of g.now kind) flags.items) }
{
    let count = count_of(g, kind);
    let mut flags = Vec::with_capacity(alloc, count as usize)?;
    'leaves: for leaf in 0..count {
        let has = has_wanted(alloc, g, kind, leaf, wanted)?;
        flags.push(has)?;
    }
    Ok(flags)
}

/// How many leaves of the kind there are.
fn count_of(g: &Gram, kind: Kind) -> u32
    ensures { result ≡ count_of g.now kind }
{
    match kind {
        Kind::Terminals => g.terms(),
        Kind::Ignorables => g.skips(),
    }
}

/// Whether the leaf of this kind and number has a wanted word.
fn has_wanted(
    alloc: Global,
    g: &Gram,
    kind: Kind,
    leaf: u32,
    wanted: Wanted,
) -> Result<bool, Memory>
    requires built { IsBuilt g.now }
    requires leaf { leaf < count_of g.now kind }
    ensures { IfOk result (λ b. IsTrue b ↔ HasWanted g.now kind wanted leaf) }
{
    let has = match kind {
        Kind::Terminals => accepts(alloc, g.term(leaf), wanted)?,
        Kind::Ignorables => accepts(alloc, g.skip(leaf), wanted)?,
    };
    Ok(has)
}

/// Whether an automaton accepts a wanted word.
fn accepts(alloc: Global, automaton: &Position, wanted: Wanted) -> Result<bool, Memory>
    requires formed { IsWellFormed automaton.now }
    requires few { length automaton.now.classes < 2 ^ 32 }
    ensures { IfOk result (λ b. IsTrue b ↔ ((w : List ℕ) × Accepts automaton.now w × IsWanted wanted w)) }
{
    match wanted {
        Wanted::EmptyWord => Ok(automaton.nullable),
        Wanted::AnyWord => {
            let has = has_word(alloc, automaton)?;
            Ok(has)
        }
    }
}
