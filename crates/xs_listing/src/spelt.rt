ghost use Rattle.std.specs.Prelude.{◌≡◌, ◌<◌, ◌++◌, ◌∷◌, [], length, slice_get, IfOk, OnOk, OnErr};

use smallvec::SmallVec;
use std::alloc::Global;
use std::marker::Model;
use xs_class::{Listed, Memory};

/// The places of a node's kids in the list of parts. One or two take no memory of their own.
#[derive(Debug, Drop)]
pub struct Kids {
    all: SmallVec<u64, 2>,
}

impl Model for Kids {
    ghost use Rattle.std.specs.Prelude.{List, ℕ};

    ghost Value = { List ℕ };

    ghost view = { λ k. k.all.items };
}

impl Kids {
    /// The empty list, without memory.
    pub fn new(alloc: Global) -> Self
        ensures { result ≡ [] }
    {
        Kids {
            all: SmallVec::new(alloc),
        }
    }

    /// The kids at these places.
    pub(crate) fn of(alloc: Global, places: &[u64]) -> Result<Self, Memory>
        ensures { IfOk result (λ kids. kids ≡ places.now) }
    {
        let all = SmallVec::from_slice(alloc, places)?;
        Ok(Kids { all })
    }

    /// Appends a place, or leaves the list as it was.
    pub fn push(&mut self, place: u64) -> Result<(), Memory>
        ensures ok { OnOk result (self.new ≡ self.old ++ place ∷ []) }
        ensures err { OnErr result (self.new ≡ self.old) }
    {
        self.all.push(place)?;
        Ok(())
    }

    /// The places in order.
    pub fn as_slice(&self) -> &[u64]
        ensures { result.now ≡ self.now }
    {
        self.all.as_slice()
    }

    /// The number of kids.
    pub fn len(&self) -> usize
        ensures { result ≡ length self.now }
    {
        self.all.len()
    }

    /// The place of a kid, by its number from 0 on.
    pub fn at(&self, kid: usize) -> u64
        requires { kid < length self.now }
        ensures { slice_get self.now kid ≡ Some result }
    {
        self.all.as_slice()[kid]
    }
}

/// A part of a derivation that is written flat; stretches of the document are given by their first
/// place and the place after them, counted from 0.
#[derive(Debug, Drop)]
pub enum SpeltPart {
    /// A production with the places of its kids, one for each item that is no fixed word, in the
    /// order of the items.
    Node { production: u32, kids: Kids },
    /// The word of a terminal.
    Leaf { start: u32, end: u32 },
    /// The word of an ignorable.
    Skip { start: u32, end: u32 },
}

/// A derivation written flat: its parts, each after its kids, and the root last.
pub type Spelt = Listed<SpeltPart>;

/// A list of derivations.
pub type Spelts = Listed<Spelt>;

/// Different derivations of a document, and whether there are more of them.
#[derive(Debug, Drop)]
pub struct Listing {
    pub trees: Spelts,
    pub more: bool,
}
