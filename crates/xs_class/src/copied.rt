ghost use Rattle.std.specs.Prelude.{◌≡◌, ◌<◌, ◌↔◌, [], ◌∷◌, ◌++◌, length, slice_get, IsTrue, OnOk, OnErr, IfOk};

use crate::{Memory, Sym};
use std::alloc::Global;
use std::marker::Model;

/// A list of elements that are copied, which contracts see as the list of them.
#[derive(Debug, Drop)]
pub struct Copied<T: Copy> {
    all: Vec<T>,
}

/// A list of bytes, which contracts see as the list of their numbers.
pub type Bytes = Copied<u8>;

/// A list of symbols, which contracts see as the list of their numbers.
pub type Word = Copied<Sym>;

impl<T: Copy> Model for Copied<T> {
    ghost use Rattle.std.specs.Prelude.{List};

    ghost Value = { List T };

    ghost view = { λ l. l.all.items };
}

impl<T: Copy> Copied<T> {
    /// The empty list, without memory.
    pub fn new(alloc: Global) -> Self
        ensures { result ≡ [] }
    {
        Copied {
            all: Vec::new(alloc),
        }
    }

    /// The list of these elements.
    pub fn of(alloc: Global, elements: &[T]) -> Result<Self, Memory>
        ensures { IfOk result (λ l. l ≡ elements.now) }
    {
        let mut list = Copied::new(alloc);
        list.extend(elements)?;
        Ok(list)
    }

    /// The same list once more.
    pub fn copy(&self) -> Result<Self, Memory>
        ensures { IfOk result (λ l. l ≡ self.now) }
    {
        Ok(Copied {
            all: Vec::from_slice(*self.all.allocator(), &self.all)?,
        })
    }

    /// Appends an element, or leaves the list as it was.
    pub fn push(&mut self, element: T) -> Result<(), Memory>
        ensures ok { OnOk result (self.new ≡ self.old ++ element ∷ []) }
        ensures err { OnErr result (self.new ≡ self.old) }
    {
        self.all.push(element)?;
        Ok(())
    }

    /// Appends all the elements, or none.
    pub fn extend(&mut self, piece: &[T]) -> Result<(), Memory>
        ensures ok { OnOk result (self.new ≡ self.old ++ piece.now) }
        ensures err { OnErr result (self.new ≡ self.old) }
    {
        self.all.extend_from_slice(piece)?;
        Ok(())
    }

    /// The elements in order.
    pub fn as_slice(&self) -> &[T]
        ensures { result.now ≡ self.now }
    {
        &self.all
    }

    /// The number of elements.
    pub fn len(&self) -> usize
        ensures { result ≡ length self.now }
    {
        self.all.len()
    }

    /// Whether there is no element.
    pub fn is_empty(&self) -> bool
        ensures { IsTrue result ↔ (self.now ≡ []) }
    {
        self.all.is_empty()
    }

    /// The element at a place, counted from 0.
    pub fn at(&self, place: usize) -> T
        requires { place < length self.now }
        ensures { slice_get self.now place ≡ Some result }
    {
        self.all[place]
    }

    /// The list of a vector's elements, without memory.
    pub fn from_vec(all: Vec<T>) -> Self
        ensures { result ≡ all.items }
    {
        Copied { all }
    }

    /// The vector of the elements, without memory.
    pub fn into_vec(self) -> Vec<T>
        ensures { result.items ≡ self }
    {
        self.all
    }
}
