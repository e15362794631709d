ghost use Rattle.std.specs.Prelude.{IfOk};
ghost use Rattle.xs_gram.specs.{IsBuilt};
ghost use Rattle.xs_pair.specs.{IsPair, IsSoundPair};
ghost use Rattle.xs_wf.specs.{HaveOrderedLines};

use std::alloc::Global;
use xs_class::Side;
use xs_pair::{PairFault, Two, both};
use xs_sheet::read_sheet;
use xs_wf::{WfFault, well_formed};

/// The two grammars of a sheet for which the first seven rules hold.
pub fn pair_of(alloc: Global, bytes: &[u8]) -> Result<Two, PairFault>
    ensures pair { IfOk result IsPair }
    ensures text { IfOk result (λ two. IsBuilt two.text) }
    ensures xml { IfOk result (λ two. IsBuilt two.xml) }
    ensures lines { IfOk result (λ two. HaveOrderedLines two.lines) }
{
    if bytes.len() > 65536 {
        return Err(PairFault::Memory);
    }
    match read_sheet(alloc, bytes) {
        Ok(sheet) => {
            let two = both(alloc, &sheet)?;
            Ok(two)
        }
        Err(_) => Err(PairFault::Memory),
    }
}

/// The two grammars of a well-formed sheet.
pub fn two_of(alloc: Global, bytes: &[u8]) -> Result<Two, WfFault>
    ensures pair { IfOk result IsPair }
    ensures sound { IfOk result IsSoundPair }
{
    if bytes.len() > 65536 {
        return Err(WfFault::Memory);
    }
    match read_sheet(alloc, bytes) {
        Ok(sheet) => well_formed(alloc, &sheet),
        Err(_) => Err(WfFault::Memory),
    }
}
