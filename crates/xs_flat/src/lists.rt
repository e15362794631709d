ghost use Rattle.std.specs.Prelude.{◌≡◌, ◌<◌, ◌≤◌, [], ◌∷◌, ◌++◌, length, take, slice_get, slice_index_or, slice_range, OnOk, OnErr};
ghost use Rattle.xs_flat.specs.Flat.{begin_of, lists_from, Rise};

use std::alloc::Global;
use std::marker::Model;
use xs_class::Memory;

/// Where list k begins, by where each list ends.
fn begin_of(ends: &[usize], k: usize) -> usize
    requires { k ≤ length ends.now }
    ensures { result ≡ begin_of 0 ends.now k }
{
    if k == 0 { 0 } else { ends[k - 1] }
}

/// The stretch between two places.
fn stretch<T>(all: &[T], from: usize, end: usize) -> &[T]
    requires from { from ≤ end }
    requires end { end ≤ length all.now }
    ensures { result.now ≡ slice_range all.now from end }
{
    &all[from..end]
}

/// Appends the elements, or all stays as it was; no elements cost no copy.
#[inline(always)]
fn append<T: Copy>(all: &mut Vec<T>, list: &[T]) -> Result<(), Memory>
    ensures ok { OnOk result (all.new.items ≡ all.old.items ++ list.now) }
    ensures err { OnErr result (all.new.items ≡ all.old.items) }
{
    if list.is_empty() {
        return Ok(());
    }
    all.extend_from_slice(list)?;
    Ok(())
}

/// A list of lists of any elements, which contracts see as the list of them.
#[derive(Debug, Drop)]
pub struct FlatLists<T> {
    all: Vec<T>,
    ends: Vec<usize>,
}

impl<T> Model for FlatLists<T> {
    ghost use Rattle.std.specs.Prelude.{List, length};
    ghost use Rattle.xs_flat.specs.Flat.{lists_from, Rise};

    ghost Value = { List (List T) };

    ghost view = { λ l. lists_from l.all.items 0 l.ends.items };

    ghost invariant = { λ l. Rise 0 l.ends.items (length l.all.items) };
}

impl<T> FlatLists<T> {
    /// No list yet, without memory.
    pub fn new(alloc: Global) -> Self
        ensures { result ≡ [] }
    {
        FlatLists {
            all: Vec::new(alloc),
            ends: Vec::new(alloc),
        }
    }

    /// The lists of these elements, each of which ends before the element of its number here.
    pub fn from_ends(all: Vec<T>, ends: Vec<usize>) -> Self
        requires { Rise 0 ends.items (length all.items) }
        ensures { result ≡ lists_from all.items 0 ends.items }
    {
        FlatLists { all, ends }
    }

    /// The number of lists.
    pub fn len(&self) -> usize
        ensures { result ≡ length self.now }
    {
        self.ends.len()
    }

    /// List k, counted from 0.
    pub fn list(&self, k: usize) -> &[T]
        requires { k < length self.now }
        ensures { result.now ≡ slice_index_or self.now k [] }
    {
        let begin = begin_of(&self.ends, k);
        stretch(&self.all, begin, self.ends[k])
    }
}

impl<T: Copy> FlatLists<T> {
    /// A new last list of these elements, or all stays as it was.
    #[inline(always)]
    pub fn push(&mut self, list: &[T]) -> Result<(), Memory>
        ensures ok { OnOk result (self.new ≡ self.old ++ list.now ∷ []) }
        ensures err { OnErr result (self.new ≡ self.old) }
    {
        self.ends.reserve(1)?;
        append(&mut self.all, list)?;
        self.ends.push_reserved(self.all.len());
        Ok(())
    }
}

impl<T: Drop> FlatLists<T> {
    /// Keeps the first lists.
    pub fn truncate(&mut self, lists: usize)
        requires { lists ≤ length self.old }
        ensures { self.new ≡ take lists self.old }
    {
        let begin = begin_of(&self.ends, lists);
        self.all.truncate(begin);
        self.ends.truncate(lists);
    }
}
