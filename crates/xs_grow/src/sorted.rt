ghost use Rattle.std.specs.Prelude.{◌≡◌, ◌<◌, ◌≤◌, ℕ, true, false, Some, length, slice_get, Contains, IsPermutation, IfOk, OnOk, MatchBool};
ghost use Rattle.std.specs.Ordering.{is_lt};
ghost use Rattle.xs_grow.specs.Lists.{AreOnce, Appends};
ghost use Rattle.xs_grow.specs.Sorted.{compare, first_of, AreInOrder, AreFirsts, IsFilled};

use std::alloc::Global;
use std::cmp::Ordering;
use std::marker::Model;
use xs_class::Memory;
use xs_forest_laws::SpanKey;

/// Marks in the order of the places where their labels end, and then of those where they begin. For
/// each place it is kept how many marks end before it; a label's numbers are found by halving those
/// that end where it does.
#[derive(Drop)]
pub struct Sorted {
    marks: Vec<(SpanKey, u32)>,
    firsts: Vec<usize>,
}

impl Model for Sorted {
    ghost use Rattle.std.specs.Prelude.{List, ℕ, length};
    ghost use Rattle.xs_forest_laws.specs.declared.span.SpanKey.{SpanKey as AnyKey};
    ghost use Rattle.xs_grow.specs.Sorted.{AreInOrder, AreFirsts};

    ghost Value = { List (AnyKey × ℕ) };

    ghost view = { λ s. s.marks.items };

    ghost invariant = { λ s. AreInOrder s.marks.items × AreFirsts s.marks.items (length s.marks.items) s.firsts.items };
}

/// How two labels compare by where they end, and then by where they begin.
fn compare(one: SpanKey, other: SpanKey) -> Ordering
    ensures { result ≡ compare one other }
{
    one.end.cmp(&other.end).then(one.start.cmp(&other.start))
}

/// Whether a label ends before another one, or ends where that does and begins before it.
fn comes_before(one: SpanKey, other: SpanKey) -> bool
    ensures { result ≡ is_lt (compare one other) }
{
    compare(one, other) == Ordering::Less
}

/// Whether both are one label.
fn is_same(one: SpanKey, other: SpanKey) -> bool
    ensures { MatchBool result (one ≡ other) (one ≡ other → ⊥) }
{
    one == other
}

/// Puts the marks in order.
fn sort(marks: &mut Vec<(SpanKey, u32)>)
    ensures moved { IsPermutation marks.old.items marks.new.items }
    ensures sorted { AreInOrder marks.new.items }
{
    marks.sort_unstable_by(|one, other| compare(one.0, other.0));
}

/// How many marks come before the label.
fn before(marks: &[(SpanKey, u32)], label: SpanKey) -> usize
    requires { AreInOrder marks.now }
    ensures within { result ≤ length marks.now }
    ensures before { (k n : ℕ) → k < result → slice_get marks.now k ≡ Some (label, n) → ⊥ }
{
    marks.partition_point(|mark| comes_before(mark.0, label))
}

/// The places up to where a mark ends get the number of the marks before it, but for those that
/// have one.
fn fill(firsts: &mut Vec<usize>, end: u32, k: usize) -> Result<(), Memory>
    ensures { OnOk result (IsFilled firsts.old.items end k firsts.new.items) }
{
    let long = end as usize + 1;
    if firsts.len() < long {
        firsts.resize(long, k)?;
    }
    Ok(())
}

/// How many marks end before each place, up to the last one where a mark ends.
fn firsts_of(alloc: Global, marks: &[(SpanKey, u32)]) -> Result<Vec<usize>, Memory>
    ensures { IfOk result (λ firsts. AreFirsts marks.now (length marks.now) firsts.items) }
{
    let mut firsts = Vec::new(alloc);
    'marks: for k in 0..marks.len() {
        fill(&mut firsts, marks[k].0.end, k)?;
    }
    Ok(firsts)
}

/// How many marks end before the place, where there are `all`.
fn first_of(firsts: &[usize], end: usize, all: usize) -> usize
    ensures { result ≡ first_of firsts.now end all }
{
    firsts.get(end).copied().unwrap_or(all)
}

impl Sorted {
    /// These marks.
    pub(crate) fn of(alloc: Global, mut marks: Vec<(SpanKey, u32)>) -> Result<Self, Memory>
        ensures { IfOk result (λ sorted. IsPermutation marks.items sorted) }
    {
        sort(&mut marks);
        let firsts = firsts_of(alloc, &marks)?;
        Ok(Sorted { marks, firsts })
    }

    /// How many marks come before the label, at most.
    fn place(&self, label: SpanKey) -> usize
        ensures { (k n : ℕ) → k < result → slice_get self.now k ≡ Some (label, n) → ⊥ }
    {
        let end = label.end as usize;
        let first = first_of(&self.firsts, end, self.marks.len());
        let next = first_of(&self.firsts, end + 1, self.marks.len());
        first + before(&self.marks[first..next], label)
    }

    /// The number of marks.
    pub(crate) fn len(&self) -> usize
        ensures { result ≡ length self.now }
    {
        self.marks.len()
    }

    /// Appends the numbers of a label, in time linear in the marks of its stretch but for the
    /// halving.
    pub(crate) fn numbers(&self, label: SpanKey, out: &mut Vec<u32>) -> Result<(), Memory>
        requires { AreOnce self.now }
        ensures { OnOk result (Appends (λ n. Contains self.now (label, n)) out.old.items out.new.items) }
    {
        'marks: for k in self.place(label)..self.marks.len() {
            let (other, number) = self.marks[k];
            if comes_before(label, other) {
                return Ok(());
            }
            if is_same(other, label) {
                out.push(number)?;
            }
        }
        Ok(())
    }
}
