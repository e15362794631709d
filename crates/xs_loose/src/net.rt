ghost use Rattle.std.specs.Prelude.{◌≡◌, suc, ◌<◌, ◌≤◌, IfOk, IfErr, Some};
ghost use Rattle.xs_auto.specs.{states};
ghost use Rattle.xs_gram.specs.{AreComponents, IsBuilt};
ghost use Rattle.xs_check_laws.specs.{heaviest, PartWeighs};
ghost use Rattle.xs_loose.specs.Laws.{AcceptsLooseWords, IsSearchable};
ghost use Rattle.xs_loose.specs.Making.{IsBlank};
ghost use Rattle.xs_loose.specs.Nets.{IsNetOf, HasItsWeight};
ghost use Rattle.xs_loose.specs.Parts.{IsPart, part_items, IsCause};
ghost use Rattle.xs_loose.specs.Tables.{AreTables};
ghost use Rattle.xs_loose.specs.Work.{IsSite};

use crate::site::{Laid, Site, Spot, Walk};
use crate::weighing::weight_by;
use crate::{LooseFault, Part, Tables};
use std::alloc::Global;
use xs_auto::{Draft, Net};
use xs_class::Memory;
use xs_gram::{Comps, Gram};

/// What a part that has a net weighs at most.
pub const HEAVIEST: u64 = 8_192;

/// The net of a part, where one alone is wanted: it has one state more than the part weighs, and
/// exactly the arcs of the part's items and groups. Over the nest that `nest_of` gives it accepts
/// exactly the loose words of the part, and it may be searched.
///
/// Fails with `Heavy` exactly where the part weighs more than 8,192.
pub fn net_of(alloc: Global, g: &Gram, comps: &Comps, part: &Part) -> Result<Net, LooseFault>
    requires built { IsBuilt g.now }
    requires comps { AreComponents g.now comps.now }
    requires part { IsPart g.now part.now }
    ensures net { IfOk result (IsNetOf g.now part.now) }
    ensures weight { IfOk result (HasItsWeight g.now (part_items g.now part.now)) }
    ensures loose { IfOk result (AcceptsLooseWords g.now (part_items g.now part.now)) }
    ensures tame { IfOk result (IsSearchable g.now) }
    ensures fault { IfErr result (IsCause g.now (part_items g.now part.now)) }
{
    let tables = Tables::of(alloc, g, comps)?;
    net_by(alloc, g, comps, &tables, part)
}

/// The same, by the tables of the grammar: in time linear in the part's items, the net and the rules
/// that it has.
pub fn net_by(
    alloc: Global,
    g: &Gram,
    comps: &Comps,
    tables: &Tables,
    part: &Part,
) -> Result<Net, LooseFault>
    requires built { IsBuilt g.now }
    requires comps { AreComponents g.now comps.now }
    requires tables { AreTables g.now comps.now tables.now }
    requires part { IsPart g.now part.now }
    ensures net { IfOk result (IsNetOf g.now part.now) }
    ensures weight { IfOk result (HasItsWeight g.now (part_items g.now part.now)) }
    ensures fault { IfErr result (IsCause g.now (part_items g.now part.now)) }
{
    let weight = weight_by(g, &tables.weights, part);
    if weight > HEAVIEST {
        return Err(LooseFault::Heavy { weight });
    }
    let site = Site {
        alloc,
        g,
        comps,
        tables,
    };
    let net = light_net(&site, *part, weight as u32)?;
    Ok(net)
}

/// The net of a light part, by its weight.
fn light_net(site: &Site<'_>, part: Part, weight: u32) -> Result<Net, Memory>
    requires site { IsSite site.now }
    requires part { IsPart site.now.g.now part }
    requires weighs { PartWeighs site.now.g.now (part_items site.now.g.now part) weight }
    requires light { weight ≤ heaviest }
    ensures net { IfOk result (IsNetOf site.now.g.now part) }
    ensures states { IfOk result (λ n. states n ≡ suc weight) }
{
    let net = blank(site.alloc, weight + 1)?;
    let tasks = Vec::new(site.alloc);
    let mut laid = Laid { net, tasks };
    let walk = Walk { site, home: None };
    let first = Spot { before: 0, at: 1 };
    let last = walk.lay_items(&mut laid, part, first)?;
    site.lay_tasks(&mut laid)?;
    laid.net.set_final(last.before)?;
    let done = laid.net.finish()?;
    Ok(done)
}

/// A draft of that many states, the first of which is the start; none is final or leads anywhere.
fn blank(alloc: Global, count: u32) -> Result<Draft, Memory>
    requires some { 0 < count }
    requires few { count ≤ suc heaviest }
    ensures start { IfOk result (λ n. n.start ≡ Some 0) }
    ensures blank { IfOk result (IsBlank count) }
{
    let mut net = Draft::new(alloc)?;
    'states: for _ in 0..count {
        net.state()?;
    }
    net.set_start(0);
    Ok(net)
}
