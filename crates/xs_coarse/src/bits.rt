ghost use Rattle.std.specs.Prelude.{◌≡◌, ℕ, suc, ◌+◌, ◌*◌, ◌<◌, [], true, false, length, slice_index_or, IfOk, IfSome};
ghost use Rattle.xs_class.specs.{Has};
ghost use Rattle.xs_coarse.specs.Labels.{IsCell};

use std::alloc::Global;
use xs_auto::first_common;
use xs_class::{Class, Memory, Sym};

/// For each two labels, by rows, whether they may read a common word.
pub fn bits_of(
    alloc: Global,
    classes: &[Class],
    lefts: &[u32],
    width: usize,
) -> Result<Vec<bool>, Memory>
    requires { width < 65536 }
    ensures cells { IfOk result (λ bits. length bits.items ≡ width * width) }
    ensures each { IfOk result (λ bits. (l k : ℕ) → l < width → k < width → IsCell classes.now lefts.now l k (slice_index_or bits.items (l * width + k) false)) }
{
    let count = width * width;
    let mut bits = Vec::with_capacity(alloc, count)?;
    'cells: for place in 0..count {
        bits.push(bit_of(classes, lefts, place / width, place % width))?;
    }
    Ok(bits)
}

/// Whether two labels may read a common word.
fn bit_of(classes: &[Class], lefts: &[u32], l: usize, k: usize) -> bool
    ensures { IsCell classes.now lefts.now l k result }
{
    if l == 0 || k == 0 {
        return false;
    }
    let count = classes.len();
    if l <= count && k <= count {
        return do_share(classes, l - 1, k - 1);
    }
    if l <= count || k <= count {
        return false;
    }
    are_alike(lefts, l - 1 - count, k - 1 - count)
}

/// Whether both groups have the same left fence symbol.
fn are_alike(lefts: &[u32], h: usize, i: usize) -> bool
    ensures { h < length lefts.now → i < length lefts.now → slice_index_or lefts.now h 0 ≡ slice_index_or lefts.now i 0 → result ≡ true }
{
    h < lefts.len() && i < lefts.len() && lefts[h] == lefts[i]
}

/// Whether the classes at two places share a symbol.
fn do_share(classes: &[Class], c: usize, d: usize) -> bool
    ensures { (s : ℕ) → Has (slice_index_or classes.now c []) s → Has (slice_index_or classes.now d []) s → result ≡ true }
{
    c < classes.len() && d < classes.len() && share(&classes[c], &classes[d])
}

/// Whether two classes share a symbol. A class of one symbol is searched for in the other.
fn share(a: &Class, b: &Class) -> bool
    ensures { (s : ℕ) → Has a.now s → Has b.now s → result ≡ true }
{
    match only_symbol(a) {
        Some(s) => b.has(s),
        None => match only_symbol(b) {
            Some(s) => a.has(s),
            None => first_common(a, b).is_some(),
        },
    }
}

/// The symbol of a class that has no other.
fn only_symbol(class: &Class) -> Option<Sym>
    ensures { IfSome result (λ x. (s : ℕ) → Has class.now s → s ≡ x) }
{
    match class.ranges() {
        [range] => {
            if range.0 == range.1 {
                Some(Sym(range.0))
            } else {
                None
            }
        }
        _ => None,
    }
}
