ghost use Rattle.std.specs.Prelude.{◌≡◌, IfOk, OnOk, IfErr};
ghost use Rattle.xs_gram.specs.{IsUnique, IsBuilt, IsSound};
ghost use Rattle.xs_check_laws.specs.{IsAccepted, IsLight, HasNoSuspect};
ghost use Rattle.xs_unique.specs.{IsReason};
ghost use Rattle.xs_cert_laws.specs.{IsProof};
ghost use Rattle.xs_cert.specs.Writing.{AddsHalf, IsWritten};

use crate::relating::{relate, write_shares};
use crate::writer::{Source, Writer};
use std::alloc::Global;
use xs_class::{Bytes, Memory, Side};
use xs_closed::PairSet;
use xs_gram::Gram;
use xs_loose::Tables;
use xs_order::components;
use xs_pair::Two;
use xs_searches::SearchSpace;
use xs_unique::{AcceptFault, accept};

/// Why there is no certificate of two grammars: they are not accepted, or want of memory.
pub type ProveFault = AcceptFault;

/// Writes the certificate of the two grammars of a sheet, where they are accepted: exactly the
/// groups that share a word, and the least sets.
///
/// Fails as `xs_unique::accept` does: with `Heavy` exactly where a rule weighs more than 8,192, with `Suspect`
/// exactly where none does and there is a suspect.
///
/// Takes the time of the search, and time linear in the pairs of the sets times what leads from
/// them; memory for the certificate, the nets of a grammar's groups, nets of rules of some 262,144
/// states, and the nets and sets of one block.
pub fn prove(alloc: Global, two: &Two) -> Result<Bytes, ProveFault>
    requires text { IsSound two.now.text }
    requires xml { IsSound two.now.xml }
    ensures accepted { OnOk result (IsAccepted two.now.text two.now.xml) }
    ensures unique_text { OnOk result (IsUnique two.now.text) }
    ensures unique_xml { OnOk result (IsUnique two.now.xml) }
    ensures proof { IfOk result (IsProof two.now) }
    ensures reason { IfErr result (IsReason two.now.text two.now.xml) }
{
    accept(alloc, two)?;
    let certificate = written(alloc, two.gram(Side::Text), two.gram(Side::Xml))?;
    Ok(certificate)
}

/// The certificate of two grammars that are accepted.
fn written(alloc: Global, text: &Gram, xml: &Gram) -> Result<Bytes, Memory>
    requires text { IsBuilt text.now }
    requires xml { IsBuilt xml.now }
    requires accepted { IsAccepted text.now xml.now }
    ensures { IfOk result (IsWritten text.now xml.now) }
{
    let mut writer = Writer::new(alloc);
    writer.out.extend(b"xsugar-cert-1\nside text\n")?;
    write_half(alloc, text, &mut writer)?;
    writer.out.extend(b"side xml\n")?;
    write_half(alloc, xml, &mut writer)?;
    writer.out.extend(b"end\n")?;
    Ok(writer.out)
}

/// Appends the half of a grammar that is accepted.
fn write_half(alloc: Global, g: &Gram, writer: &mut Writer) -> Result<(), Memory>
    requires built { IsBuilt g.now }
    requires light { IsLight g.now }
    requires clear { HasNoSuspect g.now }
    ensures { OnOk result (AddsHalf g.now writer.old.out writer.new.out) }
{
    let comps = components(alloc, g)?;
    let tables = Tables::of(alloc, g, &comps)?;
    let space = SearchSpace::of(alloc, g, &comps, &tables)?;
    let mut related = PairSet::new(alloc);
    relate(&space.nest, &space.shared, &mut related)?;
    write_shares(&mut writer.out, &related, space.nest.len())?;
    writer.write_blocks(Source {
        site: space.site,
        nest: &space.nest,
        related: &related,
    })
}
