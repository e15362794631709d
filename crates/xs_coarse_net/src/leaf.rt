ghost use Rattle.std.specs.Prelude.{◌≡◌, ℕ, ◌+◌, ◌<◌, ◌≤◌, ◌^◌, List, false, true, length, OnOk};
ghost use Rattle.xs_gram.specs.declared.parts.GItem.TheVariants.{Fixed as FixedItem};
ghost use Rattle.xs_gram.specs.{is_fence, IsPlain};
ghost use Rattle.xs_coarse.specs.{Table, HasArc};
ghost use Rattle.xs_coarse_net.specs.Going.{Goes, Grows, LabelReads};
ghost use Rattle.xs_coarse_net.specs.Placing.{inner_state};
ghost use Rattle.xs_coarse_net.specs.Sites.{IsSite};
ghost use Rattle.xs_coarse_net.specs.Stretches.{last_state};

use crate::draft::{Draft, MOST};
use crate::labelled::symbol_label;
use crate::site::Site;
use xs_class::Sym;
use xs_coarse::{Coarse, Stop};
use xs_gram::GItem;

/// How many states between its ends an item takes that is no nonterminal, as far as they can be counted.
pub(crate) fn states_inside(site: &Site<'_>, item: &GItem) -> u32 {
    match item {
        GItem::Fixed(word) => (word.len().min(MOST as usize) as u32).saturating_sub(1),
        GItem::Term { term, .. } => inner_states(site.leaves.terms.get(*term as usize)),
        GItem::Skip { skip } => inner_states(site.leaves.skips.get(*skip as usize)),
        GItem::Non { .. } => 0,
    }
}

/// How many states a net has between its first and its last one, if there is a net.
fn inner_states(net: Option<&Coarse>) -> u32 {
    match net {
        Some(net) => net.len().saturating_sub(2),
        None => 0,
    }
}

/// A fixed word, by a state between each two symbols.
pub(crate) fn lay_word(
    draft: &mut Draft,
    site: &Site<'_>,
    word: &[Sym],
    from: u32,
    to: u32,
) -> Result<(), Stop>
    requires site { IsSite site.now }
    requires some { 0 < length word.now }
    ensures grows { OnOk result (Grows draft.old draft.new) }
    ensures goes { OnOk result (IsPlain site.now.g.now.fences (FixedItem word.now) → Goes site.now.labels.now draft.new from word.now to) }
{
    let mut at = from;
    'symbols: for (place, symbol) in word.iter().enumerate() {
        let next = draft.state_or(place + 1 == word.len(), to)?;
        lay_symbol(draft, site, *symbol, at, next)?;
        at = next;
    }
    Ok(())
}

/// An arc by a symbol, unless it is a fence.
fn lay_symbol(
    draft: &mut Draft,
    site: &Site<'_>,
    symbol: Sym,
    from: u32,
    to: u32,
) -> Result<(), Stop>
    requires site { IsSite site.now }
    ensures grows { OnOk result (Grows draft.old draft.new) }
    ensures reads { OnOk result (is_fence site.now.g.now.fences symbol ≡ false → (label : ℕ) × HasArc draft.new from label to × LabelReads site.now.labels.now label symbol) }
{
    match symbol_label(site, symbol) {
        Some(label) => {
            draft.add(from, label, to)?;
            Ok(())
        }
        None => {
            if is_fence_symbol(site.g.fences(), symbol) {
                Ok(())
            } else {
                Err(Stop::Unfit)
            }
        }
    }
}

/// Whether a symbol is one of the fences.
fn is_fence_symbol(fences: &[(Sym, Sym)], symbol: Sym) -> bool
    ensures { result ≡ true → is_fence fences.now symbol ≡ true }
{
    'fences: for fence in fences {
        if fence.0.number() == symbol.number() {
            return true;
        }
        if fence.1.number() == symbol.number() {
            return true;
        }
    }
    false
}

/// Leads from a state to another as a net does from its first to its last state.
pub(crate) fn lay_net(draft: &mut Draft, net: &Coarse, from: u32, to: u32) -> Result<(), Stop>
    ensures grows { OnOk result (Grows draft.old draft.new) }
    ensures goes { OnOk result ((t : Table) (w : List ℕ) → Goes t net.now 0 w (last_state net.now) → Goes t draft.new from w to) }
{
    let last = net.len() - 1;
    if last == 0 {
        return Err(Stop::Unfit);
    }
    let base = draft.take(last - 1)?;
    'arcs: for x in net.arcs() {
        let start = state_for(x.from, last, base, from, to);
        let end = state_for(x.to, last, base, from, to);
        draft.add(start, x.label, end)?;
    }
    Ok(())
}

/// The state for one of a net that is laid from a state to another: its first and its last state are
/// those, and the others follow each other from a number on.
fn state_for(state: u32, last: u32, base: u32, from: u32, to: u32) -> u32
    requires within { state ≤ last }
    requires small { base + last ≤ 2 ^ 32 }
    ensures { result ≡ inner_state last base from to state }
{
    if state == 0 {
        return from;
    }
    if state == last {
        return to;
    }
    base + (state - 1)
}
