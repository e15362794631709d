ghost use Rattle.std.specs.Prelude.{◌≡◌, ◌≢◌, ◌+◌, ◌<◌, ◌≤◌, ◌^◌, [], length, IfOk, IfSome, IfNone, OnOk};
ghost use Rattle.std.specs.List.{All};
ghost use Rattle.xs_graph.specs.Graphs.{IsGraph};
ghost use Rattle.xs_graph.specs.States.{state_of, visit_of, with_frame, opened, merged, closed_from, followed, IsState, IsStep, KeepsSeen};

use crate::Graph;
use crate::frame::Frame;
use crate::visit::{Visit, close_all};
use std::alloc::Global;
use xs_class::Memory;

/// A search through a graph along its edges, and the components that it has found.
#[derive(Drop)]
pub struct Search {
    /// What is known of each node.
    pub visits: Vec<Visit>,
    /// The nodes that were reached and have no component yet, in the order in which they were
    /// reached.
    pub waiting: Vec<u32>,
    /// The nodes whose edges are being walked, each reached from the one before it.
    pub path: Vec<Frame>,
    /// The number of components that were found.
    pub count: u32,
}

impl Search {
    /// A search that has reached no node of a graph.
    pub fn new(alloc: Global, graph: &Graph) -> Result<Self, Memory>
        ensures state { IfOk result (λ s. IsState graph.now (state_of s)) }
        ensures idle { IfOk result (λ s. s.path.items ≡ []) }
    {
        let visits = vec![in alloc; Visit::Unseen; graph.len()]?;
        Ok(Search {
            visits,
            waiting: Vec::new(alloc),
            path: Vec::new(alloc),
            count: 0,
        })
    }

    /// Takes out the innermost frame.
    fn take_frame(&mut self) -> Option<Frame>
        ensures some { IfSome result (λ f. state_of self.old ≡ with_frame f (state_of self.new)) }
        ensures none { IfNone result (self.new.path.items ≡ []) }
        ensures same { IfNone result (state_of self.old ≡ state_of self.new) }
    {
        self.path.pop()
    }

    /// Puts a frame inside all others.
    fn put_frame(&mut self, frame: Frame) -> Result<(), Memory>
        ensures { OnOk result (state_of self.new ≡ with_frame frame (state_of self.old)) }
    {
        self.path.push(frame)?;
        Ok(())
    }

    /// Lets a node wait, and puts a frame for it inside all others.
    fn open(&mut self, node: u32) -> Result<(), Memory>
        requires { node < length self.old.visits.items }
        ensures { OnOk result (state_of self.new ≡ opened node (state_of self.old)) }
    {
        let place = self.waiting.len();
        self.visits[node as usize] = Visit::Open(place);
        self.waiting.push(node)?;
        self.put_frame(Frame {
            node,
            place,
            least: place,
            next: 0,
        })?;
        Ok(())
    }

    /// Goes on along an edge of a frame that was taken out and has passed the edge.
    fn follow(&mut self, frame: Frame, target: u32) -> Result<(), Memory>
        requires { target < length self.old.visits.items }
        ensures { OnOk result (state_of self.new ≡ followed frame target (state_of self.old)) }
    {
        match self.visits[target as usize] {
            Visit::Unseen => {
                self.put_frame(frame)?;
                self.open(target)?;
            }
            Visit::Open(place) => {
                self.put_frame(Frame {
                    least: frame.least.min(place),
                    ..frame
                })?;
            }
            Visit::Closed(_) => {
                self.put_frame(frame)?;
            }
        }
        Ok(())
    }

    /// Counts what was reached through a frame that was taken out as reached through the frame
    /// around it.
    fn merge(&mut self, least: usize)
        ensures { state_of self.new ≡ merged least (state_of self.old) }
    {
        match self.path.last_mut() {
            Some(frame) => frame.least = frame.least.min(least),
            None => {}
        }
    }

    /// Makes a component of the nodes that wait from a place on.
    fn close(&mut self, place: usize)
        requires place { place ≤ length self.old.waiting.items }
        requires nodes { All (λ a. a < length self.old.visits.items) self.old.waiting.items }
        requires room { self.old.count + 1 < 2 ^ 32 }
        ensures { state_of self.new ≡ closed_from place (state_of self.old) }
    {
        close_all(&mut self.visits, &self.waiting[place..], self.count);
        self.waiting.truncate(place);
        self.count += 1;
    }

    /// Goes on along the next edge of a frame that was taken out, or ends the frame where there is
    /// none.
    fn step(&mut self, graph: &Graph, frame: Frame) -> Result<(), Memory>
        requires targets { IsGraph graph.now }
        requires few { length graph.now < 2 ^ 32 }
        requires state { IsState graph.now (with_frame frame (state_of self.old)) }
        ensures { OnOk result (IsStep graph.now (with_frame frame (state_of self.old)) (state_of self.new)) }
    {
        let targets = graph.at(frame.node as usize);
        if frame.next < targets.len() {
            let target = *targets.at(frame.next);
            self.follow(
                Frame {
                    next: frame.next + 1,
                    ..frame
                },
                target,
            )?;
        } else if frame.least < frame.place {
            self.merge(frame.least);
        } else {
            self.close(frame.place);
        }
        Ok(())
    }

    /// Walks all edges that are left.
    fn run(&mut self, graph: &Graph) -> Result<(), Memory>
        requires targets { IsGraph graph.now }
        requires few { length graph.now < 2 ^ 32 }
        requires state { IsState graph.now (state_of self.old) }
        ensures state { OnOk result (IsState graph.now (state_of self.new)) }
        ensures idle { OnOk result (self.new.path.items ≡ []) }
        ensures seen { OnOk result (KeepsSeen self.old.visits.items self.new.visits.items) }
    {
        'frames: while let Some(frame) = self.take_frame() {
            self.step(graph, frame)?;
        }
        Ok(())
    }

    /// Finds the components of all that a node reaches, unless it was reached before.
    pub fn visit(&mut self, graph: &Graph, node: u32) -> Result<(), Memory>
        requires targets { IsGraph graph.now }
        requires few { length graph.now < 2 ^ 32 }
        requires node { node < length graph.now }
        requires state { IsState graph.now (state_of self.old) }
        requires idle { self.old.path.items ≡ [] }
        ensures state { OnOk result (IsState graph.now (state_of self.new)) }
        ensures idle { OnOk result (self.new.path.items ≡ []) }
        ensures here { OnOk result (visit_of self.new.visits.items node ≢ Visit.Unseen) }
        ensures seen { OnOk result (KeepsSeen self.old.visits.items self.new.visits.items) }
    {
        match self.visits[node as usize] {
            Visit::Unseen => {
                self.open(node)?;
                self.run(graph)?;
                Ok(())
            }
            Visit::Open(_) => Ok(()),
            Visit::Closed(_) => Ok(()),
        }
    }
}
