//! The regular over-approximation of level stretches of rules (loose words), where groups are
//! called and returned from exactly: nets of stretches with the number of each state fixed, the
//! nest of a grammar's groups, and the weights that bound them.
//!
//! A part is a level stretch of a rule's spread items. Its net has a state before its first item,
//! and for each outer item or group a block of as many states as it weighs, the last of which is
//! after it, or the exit of a nonterminal's component. So a net has one state more than its stretch
//! weighs. Each group of the grammar has a number, by which nets call it.
//!
//! What is computed once of a grammar is in its `Tables`. By them `net_by` makes the net of a part that
//! weighs at most 8,192, and `nest_by` the nest of all groups, each with the net of the stretch inside.
//! The component of a nonterminal is left to a list of tasks, so no function calls itself.
//!
//! Over the nest of a grammar's groups, the net of a stretch accepts exactly its loose words. Each loose
//! word is spelt by a path: by recursion on how the word is loose, beside how the items are laid. What
//! a path reads is loose: by induction on the length of words, which groups shorten, and for one length
//! by recursion on how the items are laid, where the states of a component fall into cells, one for
//! each place.
#![tactic(auto)]

mod blocks;
mod components;
mod fault;
mod growth;
mod laws;
mod laying;
mod members;
mod nest;
mod net;
mod part;
mod site;
mod tables;
mod tasks;
mod weighing;

pub use fault::LooseFault;
pub use laws::{laid_in_one_way, nests_are_fenced, nets_accept_loose, nets_are_tame};
pub use nest::{nest_by, nest_of};
pub use net::{HEAVIEST, net_by, net_of};
pub use part::{Fenced, Part};
pub use tables::Tables;
pub use weighing::{CAP, Weights, weight_by, weight_of, weights};
