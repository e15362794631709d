use xs_class::Sym;
use xs_coarse::Coarse;

/// The net that covers all rules of a grammar, whose arcs back from the exit of a nonterminal tell into
/// a rule of which nonterminal they lead; as a net too, which nonterminals the rules of each use; and
/// the net between the names of its states, where states have one name from which the same leads on.
#[derive(Debug, Drop)]
pub struct Whole {
    pub net: Coarse,
    pub uses: Coarse,
    pub names: Vec<u32>,
    pub merged: Coarse,
}

/// An outer place of a stretch, and its state in the stretch's cover.
#[derive(Clone, Copy, Debug, PartialEq, Eq)]
pub struct Outer {
    pub place: u32,
    pub state: u32,
}

/// A net that accepts at least the loose words of a stretch, from state 0 to its last state, and the
/// states of the stretch's outer places, in ascending order.
#[derive(Debug, Drop)]
pub struct Cover {
    pub net: Coarse,
    pub places: Vec<Outer>,
    pub last: u32,
}

/// A net for each terminal and each ignorable of a grammar, by their numbers: each of its words leads
/// from state 0 to the last state.
#[derive(Debug, Drop)]
pub struct Leaves {
    pub terms: Vec<Coarse>,
    pub skips: Vec<Coarse>,
}

/// A group: the two symbols of its fence, and the cover of what is inside.
#[derive(Debug, Drop)]
pub struct Content {
    pub left: Sym,
    pub right: Sym,
    pub cover: Cover,
}

/// The net that covers all rules of a grammar, the nets of its terminals and ignorables, the fragments
/// that were made, by nonterminal, and the contents of the grammar's groups, by their numbers.
#[derive(Debug, Drop)]
pub struct Covers {
    pub whole: Whole,
    pub leaves: Leaves,
    pub kept: Vec<Option<Coarse>>,
    pub contents: Vec<Content>,
}
