ghost use Rattle.std.specs.Prelude.{◌↔◌, ◌<◌, ◌≤◌, ◌+◌, ℕ, length, IfOk, IsTrue};
ghost use Rattle.xs_chart.specs.{set_limit};
ghost use Rattle.xs_gram.specs.{ItemAt};
ghost use Rattle.xs_chart_laws.specs.{Reads};
ghost use Rattle.xs_grow.specs.Lists.{HasAllOf};
ghost use Rattle.xs_grow.specs.Candidates.{CanEnd, EndsAt};

use crate::call::Call;
use crate::marks::Marks;
use crate::runs::ends_from;
use std::alloc::Global;
use xs_class::{Memory, Word};
use xs_gram::{GItem, Gram};

/// Whether the word stands at the place of the document.
fn reads(doc: &Word, at: usize, word: &Word) -> bool
    requires { at ≤ length doc.now }
    ensures { IsTrue result ↔ Reads doc.now at word.now (at + length word.now) }
{
    if word.len() > doc.len() - at {
        return false;
    }
    'symbols: for k in 0..word.len() {
        if doc.at(at + k) != word.at(k) {
            return false;
        }
    }
    true
}

/// The place where a fixed word ends that begins at a place of the document, if it stands there.
fn fixed_end(alloc: Global, doc: &Word, at: u32, word: &Word) -> Result<Vec<u32>, Memory>
    requires short { length doc.now < set_limit }
    requires within { at ≤ length doc.now }
    ensures { IfOk result (λ ends. HasAllOf (Reads doc.now at word.now) ends.items) }
{
    let mut ends = Vec::new(alloc);
    if reads(doc, at as usize, word) {
        ends.push((at as usize + word.len()) as u32)?;
    }
    Ok(ends)
}

/// The places where the item may end that begins at a place of the document, each once.
pub(crate) fn ends_of(
    alloc: Global,
    g: &Gram,
    doc: &Word,
    calls: &Marks<Call>,
    item: &GItem,
    at: u32,
) -> Result<Vec<u32>, Memory>
    requires ends { CanEnd g.now doc.now calls.now }
    requires item { (p : ℕ) × (n : ℕ) × ItemAt g.now p n item.now }
    requires within { at ≤ length doc.now }
    ensures { IfOk result (λ ends. HasAllOf (EndsAt g.now doc.now calls.now item.now at) ends.items) }
{
    match item {
        GItem::Fixed(word) => {
            let ends = fixed_end(alloc, doc, at, word)?;
            Ok(ends)
        }
        GItem::Term { term, .. } => {
            let ends = ends_from(alloc, g.term(*term), doc, at)?;
            Ok(ends)
        }
        GItem::Skip { skip } => {
            let ends = ends_from(alloc, g.skip(*skip), doc, at)?;
            Ok(ends)
        }
        GItem::Non { non, .. } => {
            let call = Call {
                non: *non,
                start: at,
            };
            let mut ends = Vec::new(alloc);
            calls.numbers(call, &mut ends)?;
            Ok(ends)
        }
    }
}
