ghost use Rattle.std.specs.Prelude.{◌≡◌, IfOk, IfErr, OnOk};
ghost use Rattle.xs_gram.specs.{IsUnique, IsBuilt, IsSound};
ghost use Rattle.xs_check_laws.specs.{IsAccepted};
ghost use Rattle.xs_unique.specs.Reasons.{IsReason};

use crate::suspects::clear;
use crate::{AcceptFault, Accepted};
use std::alloc::Global;
use xs_check_laws::accepted_is_unique;
use xs_class::Side;
use xs_gram::Gram;
use xs_loose::Tables;
use xs_order::components;
use xs_pair::Two;
use xs_searches::light;

/// Accepts the two grammars of a sheet where no rule weighs more than 8,192 and there is no
/// suspect.
///
/// Fails with `Heavy` exactly where a rule weighs more, with the weight of the first such rule,
/// text rules before XML rules. Fails with `Suspect` exactly where no rule does and there is a
/// suspect: the first, in the order text vertical, text horizontal, XML vertical, XML horizontal.
pub fn accept<'t>(alloc: Global, two: &'t Two) -> Result<Accepted<'t>, AcceptFault>
    requires text { IsSound two.now.text }
    requires xml { IsSound two.now.xml }
    ensures two { IfOk result (λ a. a ≡ two.now) }
    ensures accepted { OnOk result (IsAccepted two.now.text two.now.xml) }
    ensures unique_text { OnOk result (IsUnique two.now.text) }
    ensures unique_xml { OnOk result (IsUnique two.now.xml) }
    ensures reason { IfErr result (IsReason two.now.text two.now.xml) }
{
    check(alloc, two.gram(Side::Text), two.gram(Side::Xml))?;
    Ok(Accepted::of(two))
}

/// Makes sure that two grammars are accepted.
fn check(alloc: Global, text: &Gram, xml: &Gram) -> Result<(), AcceptFault>
    requires text { IsBuilt text.now }
    requires xml { IsBuilt xml.now }
    ensures accepted { OnOk result (IsAccepted text.now xml.now) }
    ensures unique_text { OnOk result (IsUnique text.now) }
    ensures unique_xml { OnOk result (IsUnique xml.now) }
    ensures reason { IfErr result (IsReason text.now xml.now) }
{
    let text_comps = components(alloc, text)?;
    let xml_comps = components(alloc, xml)?;
    let text_tables = Tables::of(alloc, text, &text_comps)?;
    let xml_tables = Tables::of(alloc, xml, &xml_comps)?;
    light(text, &text_tables.weights)?;
    light(xml, &xml_tables.weights)?;
    clear(alloc, Side::Text, text, &text_comps, &text_tables)?;
    clear(alloc, Side::Xml, xml, &xml_comps, &xml_tables)?;
    accepted_is_unique();
    Ok(())
}
