ghost use Rattle.std.specs.Prelude.{ℕ, ◌≤◌, IfSome, IfNone};
ghost use Rattle.xs_class.specs.{Has};

use xs_class::{Class, Sym};

/// The least symbol of two classes, by one walk over the ranges of both.
pub fn first_common(a: &Class, b: &Class) -> Option<Sym>
    ensures first { IfSome result (Has a.now) }
    ensures second { IfSome result (Has b.now) }
    ensures least { IfSome result (λ x. (s : ℕ) → Has a.now s → Has b.now s → x ≤ s) }
    ensures none { IfNone result ((s : ℕ) → Has a.now s → Has b.now s → ⊥) }
{
    let left = a.ranges();
    let right = b.ranges();
    let mut i = 0;
    let mut j = 0;
    'merge: while i < left.len() && j < right.len() {
        let low = left[i].0.max(right[j].0);
        if low <= left[i].1.min(right[j].1) {
            return Some(Sym(low));
        }
        if left[i].1 <= right[j].1 {
            i += 1;
        } else {
            j += 1;
        }
    }
    None
}
