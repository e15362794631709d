ghost use Rattle.std.specs.Prelude.{◌≡◌, true, ℕ, suc, ◌+◌, ◌<◌, ◌≤◌, ◌^◌, length, take, IfOk, OnOk};
ghost use Rattle.xs_gram.specs.{rule_of, NamesAreThere, spread};
ghost use Rattle.xs_loose.specs.{group_number, groups_before, lefts};
ghost use Rattle.xs_coarse.specs.{HasArc};
ghost use Rattle.xs_coarse_net.specs.Going.{Grows};
ghost use Rattle.xs_coarse_net.specs.Sites.{IsSite};
ghost use Rattle.xs_coarse_net.specs.Whole.{entry_state, exit_state, rule_base, place_state, return_label, ItemLaid, PlaceLaid, RuleLaid, IsEnclosed};

use crate::draft::{Draft, MOST};
use crate::labelled::label_of_group;
use crate::leaf::{lay_net, lay_word};
use crate::leaves::leaf_at;
use crate::site::Site;
use xs_coarse::Stop;
use xs_gram::{GItem, cuts_are_one};

/// The least label of an arc back from the exit of a nonterminal; the number of the nonterminal into
/// whose rule it leads is added to it.
pub(crate) const RETURNS: u32 = 65536;

/// Lays the outer items and groups of a rule, whose places begin at a number.
pub(crate) fn lay_rule(draft: &mut Draft, site: &Site<'_>, rule: u32, base: u32) -> Result<(), Stop>
    requires site { IsSite site.now }
    requires rule { rule < length site.now.g.now.rules }
    requires base { base ≡ rule_base site.now.g.now rule }
    ensures grows { OnOk result (Grows draft.old draft.new) }
    ensures laid { OnOk result (RuleLaid site.now.g.now site.now.labels.now draft.new rule) }
{
    let end = site.g.spread(rule).len() as u32;
    let mut number = *site.groups.at(rule as usize);
    'places: for place in 0..end {
        let here = number;
        number = number_after(site, rule, place, here)?;
        lay_place(draft, site, rule, base, place, here)?;
    }
    lay_ends(draft, site, rule, end)?;
    Ok(())
}

/// Leads from the entry to the exit, if a rule has no items.
fn lay_ends(draft: &mut Draft, site: &Site<'_>, rule: u32, end: u32) -> Result<(), Stop>
    requires rule { rule < length site.now.g.now.rules }
    ensures grows { OnOk result (Grows draft.old draft.new) }
    ensures passes { OnOk result (end ≡ 0 → HasArc draft.new (entry_state (rule_of site.now.g.now rule).non) 0 (exit_state (rule_of site.now.g.now rule).non)) }
{
    if end == 0 {
        let (entry, exit) = states_of(site.g.non_of(rule))?;
        draft.add(entry, 0, exit)?;
    }
    Ok(())
}

/// The states of a nonterminal's entry and exit.
pub(crate) fn states_of(non: u32) -> Result<(u32, u32), Stop>
    ensures entry { IfOk result (λ s. s.0 ≡ entry_state non) }
    ensures exit { IfOk result (λ s. s.1 ≡ exit_state non) }
{
    if non > MOST {
        return Err(Stop::Unfit);
    }
    Ok((2 * non, 2 * non + 1))
}

/// The number of the first group after a spread item's place, by that of the first one from there on.
pub(crate) fn number_after(site: &Site<'_>, rule: u32, place: u32, number: u32) -> Result<u32, Stop>
    requires rule { rule < length site.now.g.now.rules }
    requires place { place < length (spread site.now.g.now rule) }
    requires number { number ≡ groups_before site.now.g.now rule + lefts site.now.g.now.fences (take place (spread site.now.g.now rule)) }
    ensures { IfOk result (λ n. n ≡ groups_before site.now.g.now rule + lefts site.now.g.now.fences (take (place + 1) (spread site.now.g.now rule))) }
{
    match site.g.partner(rule, place) {
        Some(_) => {
            if number == u32::MAX {
                return Err(Stop::Unfit);
            }
            Ok(number + 1)
        }
        None => Ok(number),
    }
}

/// The state of a place of a rule.
fn state_at(site: &Site<'_>, rule: u32, base: u32, place: u32) -> Result<u32, Stop>
    requires rule { rule < length site.now.g.now.rules }
    requires base { base ≡ rule_base site.now.g.now rule }
    ensures { IfOk result (λ s. s ≡ place_state site.now.g.now rule place) }
{
    let (entry, exit) = states_of(site.g.non_of(rule))?;
    if place == 0 {
        return Ok(entry);
    }
    if place as usize == site.g.spread(rule).len() {
        return Ok(exit);
    }
    if base > MOST || place > MOST {
        return Err(Stop::Unfit);
    }
    Ok(base + place)
}

/// Whether a place of a rule is inside a group.
fn is_enclosed(site: &Site<'_>, rule: u32, place: u32) -> bool
    requires site { IsSite site.now }
    requires rule { rule < length site.now.g.now.rules }
    requires place { place < length (spread site.now.g.now rule) }
    ensures { result ≡ true → IsEnclosed site.now.g.now rule place }
{
    if site.g.fences().is_empty() {
        return false;
    }
    cuts_are_one();
    let cut = site.g.cut(rule, place);
    if cut.start == 0 {
        return false;
    }
    true
}

/// Lays the outer item or the group at a place of a rule, unless that is inside a group.
fn lay_place(
    draft: &mut Draft,
    site: &Site<'_>,
    rule: u32,
    base: u32,
    place: u32,
    number: u32,
) -> Result<(), Stop>
    requires site { IsSite site.now }
    requires rule { rule < length site.now.g.now.rules }
    requires base { base ≡ rule_base site.now.g.now rule }
    requires place { place < length (spread site.now.g.now rule) }
    requires number { number ≡ group_number site.now.g.now rule place }
    ensures grows { OnOk result (Grows draft.old draft.new) }
    ensures laid { OnOk result (PlaceLaid site.now.g.now site.now.labels.now draft.new rule place) }
{
    if is_enclosed(site, rule, place) {
        return Ok(());
    }
    let item = &site.g.spread(rule)[place as usize];
    let from = state_at(site, rule, base, place)?;
    match site.g.partner(rule, place) {
        Some(partner) => {
            let to = state_at(site, rule, base, partner + 1)?;
            draft.add(from, label_of_group(site, number), to)?;
            Ok(())
        }
        None => {
            let to = state_at(site, rule, base, place + 1)?;
            let own = site.g.non_of(rule);
            lay_item(draft, site, own, item, from, to)?;
            Ok(())
        }
    }
}

/// Leads from a state to another by an item of a rule of a nonterminal; by a nonterminal, to its entry
/// and back from its exit. A right fence leads nowhere.
fn lay_item(
    draft: &mut Draft,
    site: &Site<'_>,
    own: u32,
    item: &GItem,
    from: u32,
    to: u32,
) -> Result<(), Stop>
    requires site { IsSite site.now }
    requires there { NamesAreThere site.now.g.now item.now }
    ensures grows { OnOk result (Grows draft.old draft.new) }
    ensures laid { OnOk result (ItemLaid site.now.g.now site.now.labels.now draft.new own item.now from to) }
{
    match item {
        GItem::Fixed(word) => {
            lay_word(draft, site, word.as_slice(), from, to)?;
            Ok(())
        }
        GItem::Term { term, .. } => {
            lay_net(draft, leaf_at(&site.leaves.terms, *term)?, from, to)?;
            Ok(())
        }
        GItem::Skip { skip } => {
            lay_net(draft, leaf_at(&site.leaves.skips, *skip)?, from, to)?;
            Ok(())
        }
        GItem::Non { non, .. } => lay_call(draft, own, *non, from, to),
    }
}

/// Leads from a state to the entry of a nonterminal, and back from its exit to another state, into a
/// rule of a nonterminal.
fn lay_call(draft: &mut Draft, own: u32, non: u32, from: u32, to: u32) -> Result<(), Stop>
    ensures grows { OnOk result (Grows draft.old draft.new) }
    ensures enters { OnOk result (HasArc draft.new from 0 (entry_state non)) }
    ensures returns { OnOk result (HasArc draft.new (exit_state non) (return_label own) to) }
{
    if own > MOST {
        return Err(Stop::Unfit);
    }
    let (entry, exit) = states_of(non)?;
    draft.add(from, 0, entry)?;
    draft.add(exit, RETURNS + own, to)?;
    Ok(())
}
