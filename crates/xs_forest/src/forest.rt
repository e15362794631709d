ghost use Rattle.std.specs.Prelude.{◌≡◌, ◌↔◌, ◌<◌, ℕ, [], ◌∷◌, ◌++◌, length, slice_get, IfOk, OnOk, OnErr, MatchOption};

use crate::{AddFault, Alt, Label, Row};
use bumpalo::Bump;
use indexmap::IndexMap;
use std::alloc::{AllocError, Global};
use std::marker::Model;
use xs_class::Memory;

/// The slice's alternatives, copied into the arena.
fn kept<'b>(bump: &'b Bump<Global>, alts: &[Alt]) -> Result<&'b [Alt], AllocError>
    ensures { IfOk result (λ kept. kept.now ≡ alts.now) }
{
    let kept = bump.try_alloc_slice_copy(alts)?;
    Ok(kept)
}

/// A list of rows with different labels, whose alternatives lie in an arena.
#[derive(Drop)]
pub struct Forest<'b, L: Label> {
    bump: &'b Bump<Global>,
    rows: IndexMap<L, &'b [Alt]>,
}

impl<'b, L: Label> Model for Forest<'b, L> {
    ghost use Rattle.xs_forest.specs.Rows.{Rows, rows_of, AreBelow};

    ghost Value = { Rows L };

    ghost view = { λ f. rows_of f.rows.entries };

    ghost invariant = { λ f. AreBelow (rows_of f.rows.entries) };
}

impl<'b, L: Label> Forest<'b, L> {
    ghost use Rattle.xs_forest.specs.Rows.{AreBelow, AreEarlier, AreOnce, HasLabel};

    /// The forest without rows, over the arena.
    pub fn new(alloc: Global, bump: &'b Bump<Global>) -> Result<Self, Memory>
        ensures { IfOk result (λ forest. forest ≡ []) }
    {
        Ok(Forest {
            bump,
            rows: IndexMap::new(alloc),
        })
    }

    /// The forest without rows, over the arena, with room for that many rows.
    pub fn with_capacity(alloc: Global, bump: &'b Bump<Global>, rows: usize) -> Result<Self, Memory>
        ensures { IfOk result (λ forest. forest ≡ []) }
    {
        let rows = IndexMap::with_capacity(alloc, rows)?;
        Ok(Forest { bump, rows })
    }

    /// The number of the last row, where that has the label.
    fn last(&self, label: L) -> Option<u64>
        ensures { MatchOption result (Unit {0}) (λ at. HasLabel self.now at label) }
    {
        let (last, _) = self.rows.last()?;
        if *last == label {
            Some(self.rows.len() as u64 - 1)
        } else {
            None
        }
    }

    /// The number of the row that has the label, or None where no row has it. The last row, which
    /// is asked for most, is found without its hash.
    ///
    /// It takes constant expected time. The hash has no secret seed, so labels that are chosen for it
    /// can make this linear in the rows, here and in `add_row`.
    pub fn find(&self, label: L) -> Option<u64>
        ensures found { MatchOption result ((at : ℕ) → HasLabel self.now at label → ⊥) (λ at. HasLabel self.now at label) }
    {
        if let Some(last) = self.last(label) {
            return Some(last);
        }
        let at = self.rows.get_index_of(&label)?;
        Some(at as u64)
    }

    /// A new last row, in expected time linear in its alternatives; the answer is its number.
    ///
    /// The answer is `Repeated` exactly where a row has this label.
    pub fn add_row(&mut self, label: L, alts: &[Alt]) -> Result<u64, AddFault>
        requires { AreEarlier alts.now (length self.old) }
        ensures number { IfOk result (λ number. number ≡ length self.old) }
        ensures added { OnOk result (self.new ≡ self.old ++ (label, alts.now) ∷ []) }
        ensures repeated { (at : ℕ) → (result ≡ Err (AddFault.Repeated at)) ↔ HasLabel self.old at label }
        ensures err { OnErr result (self.new ≡ self.old) }
    {
        if let Some(at) = self.rows.get_index_of(&label) {
            return Err(AddFault::Repeated { at: at as u64 });
        }
        let alts = kept(self.bump, alts)?;
        let number = self.rows.len() as u64;
        self.rows.insert(label, alts)?;
        Ok(number)
    }

    /// The row of a number.
    pub fn row(&self, i: u64) -> Row<'b, L>
        requires { i < length self.now }
        ensures { slice_get self.now i ≡ Some (result.label, result.alts.now) }
    {
        let (label, alts) = self.rows.get_index(i as usize).unwrap();
        Row {
            label: *label,
            alts: *alts,
        }
    }

    /// The number of rows, which have different labels and only earlier rows as children.
    pub fn len(&self) -> u64
        ensures len { result ≡ length self.now }
        ensures once { AreOnce self.now }
        ensures below { AreBelow self.now }
    {
        self.rows.len() as u64
    }
}
