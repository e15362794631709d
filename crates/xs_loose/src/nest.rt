ghost use Rattle.std.specs.Prelude.{◌+◌, ◌<◌, length, IfOk, IfErr, OnOk};
ghost use Rattle.xs_auto.specs.{IsFenced};
ghost use Rattle.xs_gram.specs.{spread, AreComponents, IsBuilt};
ghost use Rattle.xs_loose.specs.Nesting.{IsNestBefore};
ghost use Rattle.xs_loose.specs.Nets.{IsNestOf, IsNestCause};
ghost use Rattle.xs_loose.specs.Tables.{AreTables};
ghost use Rattle.xs_loose.specs.Work.{IsSite};

use crate::net::net_by;
use crate::site::Site;
use crate::{Fenced, LooseFault, Tables};
use std::alloc::Global;
use xs_auto::Nest;
use xs_gram::{Comps, Gram};

/// The nest of a grammar's groups, each with the net of the stretch inside; by rule, and in a rule by
/// the place of the left fence, as their numbers go.
///
/// It may be searched, as the net of each part may over it. The fault is that of the first group
/// whose inside is too heavy.
pub fn nest_of(alloc: Global, g: &Gram, comps: &Comps) -> Result<Nest, LooseFault>
    requires built { IsBuilt g.now }
    requires comps { AreComponents g.now comps.now }
    ensures nest { IfOk result (IsNestOf g.now) }
    ensures fenced { IfOk result IsFenced }
    ensures fault { IfErr result (IsNestCause g.now) }
{
    let tables = Tables::of(alloc, g, comps)?;
    nest_by(alloc, g, comps, &tables)
}

/// The same, by the tables of the grammar.
pub fn nest_by(alloc: Global, g: &Gram, comps: &Comps, tables: &Tables) -> Result<Nest, LooseFault>
    requires built { IsBuilt g.now }
    requires comps { AreComponents g.now comps.now }
    requires tables { AreTables g.now comps.now tables.now }
    ensures nest { IfOk result (IsNestOf g.now) }
    ensures fault { IfErr result (IsNestCause g.now) }
{
    let site = Site {
        alloc,
        g,
        comps,
        tables,
    };
    let mut nest = Nest::new(alloc)?;
    'rules: for rule in 0..g.rules() {
        add_groups(&mut nest, &site, rule)?;
    }
    Ok(nest)
}

/// Adds the groups of a rule.
fn add_groups(nest: &mut Nest, site: &Site<'_>, rule: u32) -> Result<(), LooseFault>
    requires site { IsSite site.now }
    requires rule { rule < length site.now.g.now.rules }
    requires nest { IsNestBefore site.now.g.now rule 0 nest.old }
    ensures nest { OnOk result (IsNestBefore site.now.g.now (rule + 1) 0 nest.new) }
    ensures fault { IfErr result (IsNestCause site.now.g.now) }
{
    'items: for place in 0..site.g.spread(rule).len() as u32 {
        add_group(nest, site, rule, place)?;
    }
    Ok(())
}

/// Adds the group whose left fence is a rule's spread item, if it is one.
fn add_group(nest: &mut Nest, site: &Site<'_>, rule: u32, place: u32) -> Result<(), LooseFault>
    requires site { IsSite site.now }
    requires rule { rule < length site.now.g.now.rules }
    requires place { place < length (spread site.now.g.now rule) }
    requires nest { IsNestBefore site.now.g.now rule place nest.old }
    ensures nest { OnOk result (IsNestBefore site.now.g.now rule (place + 1) nest.new) }
    ensures fault { IfErr result (IsNestCause site.now.g.now) }
{
    let Some(fenced) = Fenced::at(site.g, rule, place) else {
        return Ok(());
    };
    let content = net_by(site.alloc, site.g, site.comps, site.tables, &fenced.inside)?;
    nest.group(fenced.left, fenced.right, content)?;
    Ok(())
}
