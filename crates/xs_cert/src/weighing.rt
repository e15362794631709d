ghost use Rattle.std.specs.Prelude.{OnOk, IfErr};
ghost use Rattle.xs_gram.specs.{IsBuilt, IsSound};
ghost use Rattle.xs_check_laws.specs.{IsLight};
ghost use Rattle.xs_searches.specs.{IsCause};
ghost use Rattle.xs_cert.specs.Reasons.{IsWeighty};

use std::alloc::Global;
use xs_class::Side;
use xs_gram::Gram;
use xs_loose::Tables;
use xs_order::components;
use xs_pair::Two;
use xs_searches::{CheckFault, light};

/// Makes sure that no rule of the two grammars of a sheet weighs more than 8,192.
///
/// Fails with `Heavy` exactly where one does, with the weight of the first, text rules before XML
/// rules.
pub fn weigh(alloc: Global, two: &Two) -> Result<(), CheckFault>
    requires text { IsSound two.now.text }
    requires xml { IsSound two.now.xml }
    ensures light_text { OnOk result (IsLight two.now.text) }
    ensures light_xml { OnOk result (IsLight two.now.xml) }
    ensures fault { IfErr result (IsWeighty two.now) }
{
    weigh_text(alloc, two)?;
    weigh_xml(alloc, two)?;
    Ok(())
}

/// Makes sure that no rule of the text side weighs more than 8,192.
fn weigh_text(alloc: Global, two: &Two) -> Result<(), CheckFault>
    requires { IsBuilt two.now.text }
    ensures light { OnOk result (IsLight two.now.text) }
    ensures fault { IfErr result (IsWeighty two.now) }
{
    weigh_side(alloc, two.gram(Side::Text))
}

/// Makes sure that no rule of the XML side does, where none of the text side does.
fn weigh_xml(alloc: Global, two: &Two) -> Result<(), CheckFault>
    requires built { IsBuilt two.now.xml }
    requires text { IsLight two.now.text }
    ensures light { OnOk result (IsLight two.now.xml) }
    ensures fault { IfErr result (IsWeighty two.now) }
{
    weigh_side(alloc, two.gram(Side::Xml))
}

/// Makes sure that no rule of a grammar weighs more than 8,192.
fn weigh_side(alloc: Global, g: &Gram) -> Result<(), CheckFault>
    requires { IsBuilt g.now }
    ensures light { OnOk result (IsLight g.now) }
    ensures fault { IfErr result (IsCause g.now) }
{
    let comps = components(alloc, g)?;
    let tables = Tables::of(alloc, g, &comps)?;
    light(g, &tables.weights)
}
