ghost use Rattle.std.specs.Prelude.{◌≡◌, ◌<◌, ◌++◌, ◌∷◌, [], ℕ, length, Some, slice_get, Contains, IfOk, OnOk, MatchBool};
ghost use Rattle.xs_grow.specs.Lists.{AreOnce, Appends};
ghost use Rattle.xs_grow.specs.Marked.{IsFirst, IsAgain, IsLatest};

use indexmap::IndexMap;
use std::alloc::Global;
use std::marker::Model;
use xs_class::Memory;
use xs_forest::Label;

/// Labels with numbers, in which the numbers of a label are found: by its last mark, and by the
/// mark before each one that has the same label.
#[derive(Drop)]
pub struct Marks<L: Label> {
    marks: Vec<(L, u32)>,
    befores: Vec<Option<usize>>,
    lasts: IndexMap<L, usize>,
}

impl<L: Label> Model for Marks<L> {
    ghost use Rattle.std.specs.Prelude.{List, ℕ};
    ghost use Rattle.std.specs.Map.{lookup};
    ghost use Rattle.xs_grow.specs.Marked.{AreLinked};

    ghost Value = { List (L × ℕ) };

    ghost view = { λ m. m.marks.items };

    ghost invariant = { λ m. AreLinked (λ label. lookup (L.eq label) m.lasts.entries) m.marks.items m.befores.items };
}

impl<L: Label> Marks<L> {
    /// No mark.
    pub(crate) fn new(alloc: Global) -> Self
        ensures { result ≡ [] }
    {
        Marks {
            marks: Vec::new(alloc),
            befores: Vec::new(alloc),
            lasts: IndexMap::new(alloc),
        }
    }

    /// The number of marks.
    pub(crate) fn len(&self) -> usize
        ensures { result ≡ length self.now }
    {
        self.marks.len()
    }

    /// A new last mark.
    pub(crate) fn push(&mut self, label: L, number: u32) -> Result<(), Memory>
        ensures { OnOk result (self.new ≡ self.old ++ (label, number) ∷ []) }
    {
        self.marks.reserve(1)?;
        self.befores.reserve(1)?;
        let before = self.lasts.insert(label, self.marks.len())?;
        self.marks.push_reserved((label, number));
        self.befores.push_reserved(before);
        Ok(())
    }

    /// The mark at a place.
    pub(crate) fn at(&self, k: usize) -> (L, u32)
        requires { k < length self.now }
        ensures { slice_get self.now k ≡ Some (result.0, result.1) }
    {
        let mark = &self.marks[k];
        (mark.0, mark.1)
    }

    /// The last mark of the label.
    fn last(&self, label: L) -> Option<usize>
        ensures { IsLatest self.now (length self.now) label result }
    {
        self.lasts.get(&label).copied()
    }

    /// The last mark before place k of the label, which the mark there has.
    fn earlier(&self, label: L, k: usize) -> Option<usize>
        requires { (n : ℕ) × (slice_get self.now k ≡ Some (label, n)) }
        ensures { IsLatest self.now k label result }
    {
        self.befores[k]
    }

    /// Whether no mark before place k has the label, which the mark there has.
    pub(crate) fn is_first(&self, label: L, k: usize) -> bool
        requires { (n : ℕ) × (slice_get self.now k ≡ Some (label, n)) }
        ensures { MatchBool result (IsFirst self.now k label) (IsAgain self.now k label) }
    {
        match self.earlier(label, k) {
            None => true,
            Some(_) => false,
        }
    }

    /// Appends the numbers of a label, in time linear in them.
    pub(crate) fn numbers(&self, label: L, out: &mut Vec<u32>) -> Result<(), Memory>
        requires { AreOnce self.now }
        ensures { OnOk result (Appends (λ n. Contains self.now (label, n)) out.old.items out.new.items) }
    {
        let mut place = self.last(label);
        'places: while let Some(k) = place {
            out.push(self.marks[k].1)?;
            place = self.earlier(label, k);
        }
        Ok(())
    }
}
