ghost use Rattle.std.specs.Prelude.{◌≡◌, ℕ, ◌<◌, List, length, IfOk};
ghost use Rattle.xs_gram.specs.Grammar.{Grammar};
ghost use Rattle.xs_forest.specs.{IsEarlier, AreEarlier};
ghost use Rattle.xs_forest_laws.specs.{IsRight, count_of, alt_count, alts_count, IsCounted, IsChosen};

use crate::rows::alts_at;
use std::alloc::Global;
use xs_class::Memory;
use xs_forest::{Alt, Forest};
use xs_forest_laws::SpanKey;

/// How many unfoldings a child has: one where there is no child.
pub(crate) fn child_count(counts: &[u64], child: Option<u64>) -> u64
    requires { IsEarlier child (length counts.now) }
    ensures { result ≡ count_of counts.now child }
{
    match child {
        None => 1,
        Some(row) => counts[row as usize],
    }
}

/// How many unfoldings an alternative has, and no more than the cap.
fn one_count(counts: &[u64], alt: Alt, cap: u64) -> u64
    requires left { IsEarlier alt.left (length counts.now) }
    requires right { IsEarlier alt.right (length counts.now) }
    ensures { result ≡ alt_count cap counts.now alt }
{
    let left = child_count(counts, alt.left);
    let right = child_count(counts, alt.right);
    left.saturating_mul(right).min(cap)
}

/// How many unfoldings the alternatives have, and no more than the cap.
fn all_count(counts: &[u64], alts: &[Alt], cap: u64) -> u64
    requires { AreEarlier alts.now (length counts.now) }
    ensures { result ≡ alts_count cap counts.now alts.now }
{
    let mut total: u64 = 0;
    'alts: for alt in alts {
        total = total.saturating_add(one_count(counts, *alt, cap)).min(cap);
    }
    total
}

/// How many unfoldings each row has, and no more than the cap, in time linear in the alternatives.
pub(crate) fn count_rows(
    alloc: Global,
    forest: &Forest<'_, SpanKey>,
    cap: u64,
) -> Result<Vec<u64>, Memory>
    ensures long { IfOk result (λ counts. length counts.items ≡ length forest.now) }
    ensures counted { IfOk result (λ counts. (g : Grammar) (w : List ℕ) → IsRight g w forest.now → IsCounted forest.now cap counts.items) }
{
    let rows = forest.len();
    let mut counts = Vec::with_capacity(alloc, rows as usize)?;
    'rows: for row in 0..rows {
        let count = all_count(&counts, alts_at(forest, row), cap);
        counts.push(count)?;
    }
    Ok(counts)
}

/// An alternative, and the numbers of its children's unfoldings.
#[derive(Clone, Copy)]
pub(crate) struct Chosen {
    pub alt: Alt,
    pub left: u64,
    pub right: u64,
}

/// The alternative in which an unfolding lies, in time linear in the alternatives.
pub(crate) fn choose(counts: &[u64], alts: &[Alt], cap: u64, number: u64) -> Chosen
    requires earlier { AreEarlier alts.now (length counts.now) }
    requires within { number < alts_count cap counts.now alts.now }
    ensures { (n : ℕ) × IsChosen cap counts.now alts.now number n result.left result.right result.alt }
{
    let mut rest = number;
    'alts: for alt in alts {
        let count = one_count(counts, *alt, cap);
        if rest < count {
            let width = child_count(counts, alt.right);
            return Chosen {
                alt: *alt,
                left: rest / width,
                right: rest % width,
            };
        }
        rest -= count;
    }
    unreachable!()
}
