mod draft;

ghost use Rattle.std.specs.Prelude.{◌≡◌, ◌<◌, IfSome};
ghost use Rattle.std.specs.List.{All};
ghost use Rattle.xs_auto.specs.Nets.{states, final_at, edges_of, moves_of, calls_of};

use crate::Call;
use crate::edge::{EdgeRow, Edges};
pub use draft::Draft;
use std::marker::Model;
use xs_class::Class;
use xs_flat::FlatLists;

/// States that are numbered from 0, with a start, final states, edges by classes, empty moves, and
/// calls of groups.
///
/// Each state that is named in a net is one of its states. What a call reads is said by a nest of
/// groups; by itself a net goes nowhere by its calls. A net is made of a draft.
#[derive(Debug, Drop)]
pub struct Net {
    start: Option<u32>,
    finals: Vec<bool>,
    classes: Vec<Class>,
    edges: FlatLists<EdgeRow>,
    moves: FlatLists<u32>,
    calls: FlatLists<Call>,
}

impl Model for Net {
    ghost use Rattle.xs_auto.specs.Nets.{Graph};
    ghost use Rattle.xs_auto.specs.Layout.{graph_of, edge_lists, IsLaidOut};

    ghost Value = { Graph };

    ghost view = { λ n. graph_of n.start n.finals.items (edge_lists n.classes.items n.edges) n.moves n.calls };

    ghost invariant = { λ n. IsLaidOut n.start n.finals.items n.classes.items n.edges n.moves n.calls };
}

impl Net {
    /// The number of states.
    pub fn len(&self) -> u32
        ensures { result ≡ states self.now }
    {
        self.finals.len() as u32
    }

    /// The state to begin from, or none where none was set.
    pub fn start(&self) -> Option<u32>
        ensures value { result ≡ self.now.start }
        ensures exists { IfSome result (λ a. a < states self.now) }
    {
        self.start
    }

    pub fn is_final(&self, a: u32) -> bool
        requires { a < states self.now }
        ensures { result ≡ final_at self.now a }
    {
        self.finals[a as usize]
    }

    /// The edges of a state, in the order in which they were added.
    pub fn edges(&self, a: u32) -> Edges<'_>
        requires { a < states self.now }
        ensures value { result ≡ edges_of self.now a }
        ensures exist { All (λ e. e.to < states self.now) result }
    {
        Edges::of(&self.classes, self.edges.list(a as usize))
    }

    /// The targets of a state's empty moves, in the order in which they were added.
    pub fn moves(&self, a: u32) -> &[u32]
        requires { a < states self.now }
        ensures value { result.now ≡ moves_of self.now a }
        ensures exist { All (λ b. b < states self.now) result.now }
    {
        self.moves.list(a as usize)
    }

    /// The calls that lead from a state, in the order in which they were added.
    pub fn calls(&self, a: u32) -> &[Call]
        requires { a < states self.now }
        ensures value { result.now ≡ calls_of self.now a }
        ensures exist { All (λ k. k.to < states self.now) result.now }
    {
        self.calls.list(a as usize)
    }
}
