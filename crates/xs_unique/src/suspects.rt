ghost use Rattle.std.specs.Prelude.{IfErr, OnOk};
ghost use Rattle.xs_gram.specs.{AreComponents, IsBuilt};
ghost use Rattle.xs_check_laws.specs.{IsLight, HasNoSuspect};
ghost use Rattle.xs_loose.specs.{AreTables};
ghost use Rattle.xs_unique.specs.Reasons.{IsUnclear};

use crate::AcceptFault;
use std::alloc::Global;
use xs_class::Side;
use xs_gram::{Comps, Gram, Suspect};
use xs_horiz::{Horiz, first_horizontal};
use xs_loose::Tables;
use xs_searches::Searches;
use xs_vert::{Vert, first_vertical};

/// Makes sure that the grammar of a side, whose rules are light, has no suspect.
///
/// Fails with its first suspect, vertical ones before horizontal ones.
pub fn clear(
    alloc: Global,
    side: Side,
    g: &Gram,
    comps: &Comps,
    tables: &Tables,
) -> Result<(), AcceptFault>
    requires built { IsBuilt g.now }
    requires comps { AreComponents g.now comps.now }
    requires tables { AreTables g.now comps.now tables.now }
    requires light { IsLight g.now }
    ensures clear { OnOk result (HasNoSuspect g.now) }
    ensures fault { IfErr result (IsUnclear side g.now) }
{
    let mut searches = Searches::of(alloc, g, comps, tables)?;
    search(side, &mut searches)
}

/// Makes sure that the grammar of the searches has no suspect.
fn search(side: Side, searches: &mut Searches<'_>) -> Result<(), AcceptFault>
    ensures clear { OnOk result (HasNoSuspect searches.old) }
    ensures fault { IfErr result (IsUnclear side searches.old) }
{
    let found = first_vertical(searches)?;
    if let Some(Vert { rule, rule2, word }) = found {
        return Err(AcceptFault::Suspect(Suspect::Vertical {
            side,
            rule,
            rule2,
            word,
        }));
    }
    let found = first_horizontal(searches)?;
    if let Some(Horiz { rule, cut, x, a, y }) = found {
        return Err(AcceptFault::Suspect(Suspect::Horizontal {
            side,
            rule,
            cut,
            x,
            a,
            y,
        }));
    }
    Ok(())
}
