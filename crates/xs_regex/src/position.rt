use xs_class::{Class, Listed};

/// The classes of an automaton, by position.
pub type Classes = Listed<Class>;

/// Positions of an automaton.
pub type Numbers = Listed<u32>;

/// For each position of an automaton, the positions that may follow it.
pub type Follows = Listed<Numbers>;

/// A position automaton: its states are the places of classes in a regex, from left to right.
///
/// A word begins at a position of `first`, goes on to positions that follow, and ends at one of
/// `last`; each of its symbols is in its position's class. `nullable` says that the empty word is
/// accepted.
#[derive(Debug, Drop)]
pub struct Position {
    pub classes: Classes,
    pub first: Numbers,
    pub last: Numbers,
    pub follow: Follows,
    pub nullable: bool,
}
