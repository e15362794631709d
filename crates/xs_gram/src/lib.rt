//! Context-free grammars: one side of a sheet as rules of items, and what its words, derivations,
//! common trees, prints and chart items are.
//!
//! The two sides of a sheet are dual grammars, as in Brabrand, Møller and Schwartzbach, Dual syntax
//! for XML languages: their rules have the same numbers, and a derivation by either has a common
//! tree. A place is a dotted rule: a rule, a number of items before its dot, and inside a terminal
//! or an ignorable a position of its automaton. `Gram::build` gives the grammar of parts that a
//! grammar can be built of, with the automaton of each regex and the list of its places.
//!
//! The definitions stand in specs/, in the order Grammar, Derivations, Common, Languages, Chart,
//! Building; Loose and Suspects are those of the check. Two laws tie them: what is printed of a
//! derivation's tree is its yield in normal form, and what is printed of a tree has that tree.
#![tactic(auto)]

mod automata;
mod body;
mod components;
mod cutting;
mod gram;
mod items;
mod laws;
mod parts;
mod places;
mod spread;
mod suspect;

pub use components::Comps;
pub use cutting::Cut;
pub use gram::Gram;
pub use items::{fence_symbol, push_symbol, slot_count};
pub use laws::{cuts_are_one, printed_has_tree, prints_normal};
pub use parts::{
    Fences, GItem, GItems, GramParts, Ignorable, Partners, Regexes, RulePart, Rules, SkipPart,
    Skips, Terminal,
};
pub use places::Place;
pub use suspect::Suspect;
