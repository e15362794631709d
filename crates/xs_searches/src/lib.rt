//! Grammars whose rules are light, and what searches for suspects in them share.
//!
//! A pass over the rules finds the first that weighs too much, as a whole or by the inside of one of
//! its groups. Where there is none, each rule has a net, and so has the front and the rest of each
//! cut. Searches over two nets go by the nest of the grammar's groups, and are lent maps that grow
//! where the nets need more room.
#![tactic(auto)]

mod exact;
mod fault;
mod maps;
mod nets;
mod searches;
mod space;
mod weights;

pub use fault::CheckFault;
pub use maps::Maps;
pub use nets::{CutNets, Site};
pub use searches::Searches;
pub use space::SearchSpace;
pub use weights::light;
