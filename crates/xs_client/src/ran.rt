ghost use Rattle.std.specs.Prelude.{IfOk, map, string_bytes};
ghost use Rattle.xs_client.specs.Runs.{IsRan};

use std::alloc::Global;
use xs_class::{Bytes, Memory, Text};
use xs_io::{MemSink, SureShelf, SureSource};
use xs_top::{Outcome, run};

/// How many bytes a sink takes in one call.
const STEP: usize = 4096;

/// A run over devices in memory: how it ended, and all that `out` took.
#[derive(Drop)]
pub struct Ran {
    pub outcome: Outcome,
    pub written: Bytes,
}

/// Two runs, one after the other.
#[derive(Drop)]
pub struct Two {
    pub first: Ran,
    pub second: Ran,
}

/// The run of these words, where the file `sheet` has the bytes of a sheet and the input those of a
/// document.
pub fn run_on(alloc: Global, words: &[String], sheet: &[u8], document: &[u8]) -> Result<Ran, Memory>
    ensures { IfOk result (λ r. IsRan (map string_bytes words.now) sheet.now document.now r.outcome r.written) }
{
    let mut shelf = SureShelf::new(alloc);
    let name = Text::of(alloc, "sheet")?;
    let sheet_bytes = Bytes::of(alloc, sheet)?;
    shelf.add(name, sheet_bytes)?;
    let document_bytes = Bytes::of(alloc, document)?;
    let mut input = SureSource::new(document_bytes);
    let mut out = MemSink::new(alloc, STEP, Vec::new(alloc));
    let mut notes = MemSink::new(alloc, STEP, Vec::new(alloc));
    let outcome = run(alloc, words, &mut shelf, &mut input, &mut out, &mut notes)?;
    let written = Bytes::of(alloc, out.taken())?;
    Ok(Ran { outcome, written })
}
