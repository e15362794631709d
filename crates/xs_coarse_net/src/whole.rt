ghost use Rattle.std.specs.Prelude.{◌≡◌, ◌+◌, ◌*◌, ◌<◌, length, IfOk, OnOk};
ghost use Rattle.std.specs.List.{Contains};
ghost use Rattle.xs_gram.specs.{spread};
ghost use Rattle.xs_coarse.specs.declared.arc.Arc.{Arc as AnyArc};
ghost use Rattle.xs_coarse_net.specs.Reaching.{AreUses, IsUsed};
ghost use Rattle.xs_coarse_net.specs.Sites.{IsSite};
ghost use Rattle.xs_coarse_net.specs.Whole.{rule_base, IsWhole};

use crate::Whole;
use crate::draft::{Draft, MOST, net_of};
use crate::leaf::states_inside;
use crate::merge::{names_of, renamed};
use crate::rule::{RETURNS, lay_rule};
use crate::site::Site;
use std::alloc::Global;
use xs_class::Memory;
use xs_coarse::{Arc, Coarse, Stop};

/// The net of a whole grammar, in time n log n of its spread items and automata.
pub(crate) fn whole_net(alloc: Global, site: &Site<'_>) -> Result<Whole, Stop>
    requires { IsSite site.now }
    ensures { IfOk result (IsWhole site.now.g.now site.now.labels.now) }
{
    if site.g.nons() > MOST {
        return Err(Stop::Unfit);
    }
    let first = 2 * site.g.nons();
    let (places, states) = counts(site, first)?;
    let mut draft = Draft::new(alloc, states, places);
    let mut base = first;
    'rules: for rule in 0..site.g.rules() {
        lay_rule(&mut draft, site, rule, base)?;
        base = base_after(site, rule, base)?;
    }
    let net = draft.into_net(alloc)?;
    let uses = uses_of(alloc, site.g.nons(), &net)?;
    let names = names_of(alloc, &net)?;
    let merged = renamed(alloc, &net, &names)?;
    let _states = net.len();
    Ok(Whole {
        net,
        uses,
        names,
        merged,
    })
}

/// Which nonterminals the rules of each use, by the arcs back into them.
fn uses_of(alloc: Global, nons: u32, net: &Coarse) -> Result<Coarse, Stop>
    ensures { IfOk result (AreUses net.now) }
{
    let mut arcs = Vec::new(alloc);
    'arcs: for x in net.arcs() {
        push_use(&mut arcs, *x)?;
    }
    let uses = net_of(alloc, nons, arcs)?;
    Ok(uses)
}

/// Adds what an arc shows of which nonterminal a rule uses, if it leads back into a rule.
fn push_use(arcs: &mut Vec<Arc>, x: Arc) -> Result<(), Memory>
    ensures others { OnOk result ((y : AnyArc) → Contains arcs.old.items y → Contains arcs.new.items y) }
    ensures here { OnOk result (IsUsed arcs.new.items x) }
{
    if x.label >= RETURNS {
        arcs.push(Arc {
            from: x.label - RETURNS,
            label: 0,
            to: x.from / 2,
        })?;
    }
    Ok(())
}

/// Where the places of the next rule begin.
fn base_after(site: &Site<'_>, rule: u32, base: u32) -> Result<u32, Stop>
    requires { rule < length site.now.g.now.rules }
    ensures { IfOk result (λ b. b ≡ base + length (spread site.now.g.now rule)) }
{
    let count = site.g.spread(rule).len();
    if base > MOST || count > MOST as usize {
        return Err(Stop::Unfit);
    }
    Ok(base + count as u32)
}

/// The number after the last state of a place, and after the last state of all, as far as they can be
/// counted.
fn counts(site: &Site<'_>, first: u32) -> Result<(u32, u32), Stop>
    requires { IsSite site.now }
{
    let mut places = first;
    let mut inside: u32 = 0;
    'rules: for rule in 0..site.g.rules() {
        places = base_after(site, rule, places)?;
        inside = inside.saturating_add(inside_rule(site, rule));
    }
    Ok((places, places.saturating_add(inside)))
}

/// How many states the items of a rule take between their ends.
fn inside_rule(site: &Site<'_>, rule: u32) -> u32
    requires site { IsSite site.now }
    requires rule { rule < length site.now.g.now.rules }
{
    let mut inside: u32 = 0;
    let items = site.g.spread(rule);
    'places: for place in 0..items.len() {
        let item = &items[place];
        inside = inside.saturating_add(states_inside(site, item));
    }
    inside
}
