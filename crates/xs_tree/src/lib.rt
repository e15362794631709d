//! Common trees kept flat: a list of parts, the children of each before it.
//!
//! A part is a leaf with a word, or a node with a production and a child for each slot. All
//! children stand in one list, and the symbols of all leaves in another, so that no part has an
//! allocation of its own. Parts can be shared, so a flat tree may mean a common tree that no memory
//! holds; all that is asked of one here takes time linear in the parts and their words, and no
//! recursion.
#![tactic(auto)]

mod builder;
mod compare;
mod count;
mod part;
mod parts;
mod table;
mod tree;

pub use builder::Builder;
pub use compare::same;
pub use count::parts_of;
pub use part::Part;
pub use tree::Tree;
