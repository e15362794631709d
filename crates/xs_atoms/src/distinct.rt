ghost use Rattle.std.specs.Prelude.{◌≡◌, ◌∷◌, ◌<◌, [], Some, length, slice_get, IfOk};
ghost use Rattle.xs_atoms.specs.Classed.{StayAll};
ghost use Rattle.xs_atoms.specs.Interned.{lists_of, IsGrown};
ghost use Rattle.xs_atoms.specs.Turns.{AreClasses};

use crate::fault::AtomsFault;
use indexmap::IndexSet;
use std::alloc::Global;
use std::marker::Model;
use xs_class::{Class, Memory};

/// Classes, each once, by their numbers.
///
/// Contracts see the list of their ranges.
#[derive(Drop)]
pub struct Distinct {
    ranges: IndexSet<Vec<(u32, u32)>>,
}

impl Model for Distinct {
    ghost use Rattle.std.specs.Prelude.{List, ℕ};
    ghost use Rattle.xs_atoms.specs.Turns.{AreClasses};
    ghost use Rattle.xs_atoms.specs.Interned.{lists_of};

    ghost Value = { List (List (ℕ × ℕ)) };

    ghost view = { λ d. lists_of d.ranges.keys };

    ghost invariant = { λ d. AreClasses (lists_of d.ranges.keys) };
}

impl Distinct {
    /// One class.
    pub fn one(alloc: Global, class: &Class) -> Result<Self, Memory>
        ensures { IfOk result (λ d. d ≡ class.now ∷ []) }
    {
        let mut ranges = IndexSet::new(alloc);
        ranges.insert(Vec::from_slice(alloc, class.ranges())?)?;
        Ok(Distinct { ranges })
    }

    /// How many classes there are.
    pub fn len(&self) -> usize
        ensures length { result ≡ length self.now }
        ensures formed { AreClasses self.now }
    {
        self.ranges.len()
    }

    /// The ranges of the class of this number.
    pub fn at(&self, number: u32) -> &[(u32, u32)]
        requires { number < length self.now }
        ensures { slice_get self.now number ≡ Some result.now }
    {
        &self.ranges.as_slice()[number as usize]
    }

    /// The number of a class, which is appended where it is not there.
    pub fn number(&mut self, class: &Class) -> Result<u32, AtomsFault>
        ensures stay { IfOk result (λ _. StayAll self.old self.new) }
        ensures there { IfOk result (λ n. slice_get self.new n ≡ Some class.now) }
    {
        let place = place_of(&mut self.ranges, class.ranges())?;
        u32::try_from(place).map_err(|_| AtomsFault::TooMany)
    }
}

/// The place of a list in a set, where it stands last unless it was there.
fn place_of(set: &mut IndexSet<Vec<(u32, u32)>>, list: &[(u32, u32)]) -> Result<usize, Memory>
    ensures grown { IsGrown (lists_of set.old.keys) list.now (lists_of set.new.keys) }
    ensures there { IfOk result (λ n. slice_get (lists_of set.new.keys) n ≡ Some list.now) }
{
    match set.get_index_of(list) {
        Some(place) => Ok(place),
        None => {
            let owned = Vec::from_slice(*set.allocator(), list)?;
            let (place, _) = set.insert_full(owned)?;
            Ok(place)
        }
    }
}
