ghost use Rattle.std.specs.Prelude.{◌≡◌, IfOk, MatchOption, map, string_bytes};
ghost use Rattle.xs_c.specs.Runs.{IsRan, IsEnded, IsRunDone, said, HasNoText};

use crate::answer::{Answer, MEMORY, no_names, refuse, tell};
use std::alloc::Global;
use xs_class::{Bytes, Memory, Text};
use xs_io::{MemSink, SureShelf, SureSource};
use xs_talk::Outcome;
use xs_top::run;

/// How many bytes a sink takes in one call.
const STEP: usize = 65_536;

/// A word of a command, as C passes it.
#[repr(C)]
#[derive(Clone, Copy)]
pub struct Word {
    pub bytes: &'static [u8],
}

/// A run over devices in memory: how it ended, and all that it wrote and reported.
#[derive(Drop)]
struct Ran {
    outcome: Outcome,
    written: Bytes,
    noted: Bytes,
}

/// The words as texts, or None where one is no UTF-8.
fn texts(alloc: Global, words: &[Word]) -> Result<Option<Vec<String>>, Memory>
    ensures { IfOk result (λ o. MatchOption o (HasNoText (said words.now)) (λ all. map string_bytes all.items ≡ said words.now)) }
{
    let mut texts = Vec::with_capacity(alloc, words.len())?;
    'words: for word in words {
        let Ok(text) = str::from_utf8(word.bytes) else {
            return Ok(None);
        };
        texts.push(String::from_str(alloc, text)?)?;
    }
    Ok(Some(texts))
}

/// The run of these words, where the files `sheet` and `certificate` have these bytes and the input
/// those of a document.
fn run_on(
    alloc: Global,
    words: &[String],
    sheet: &[u8],
    certificate: &[u8],
    document: &[u8],
) -> Result<Ran, Memory>
    ensures { IfOk result (λ r. IsRan (map string_bytes words.now) sheet.now certificate.now document.now r.outcome r.written r.noted) }
{
    let mut shelf = SureShelf::new(alloc);
    let certificate_name = Text::of(alloc, "certificate")?;
    let certificate_bytes = Bytes::of(alloc, certificate)?;
    shelf.add(certificate_name, certificate_bytes)?;
    let sheet_name = Text::of(alloc, "sheet")?;
    let sheet_bytes = Bytes::of(alloc, sheet)?;
    shelf.add(sheet_name, sheet_bytes)?;
    let mut out = MemSink::new(alloc, STEP, Vec::new(alloc));
    let mut notes = MemSink::new(alloc, STEP, Vec::new(alloc));
    let document_bytes = Bytes::of(alloc, document)?;
    let mut input = SureSource::new(document_bytes);
    let outcome = run(alloc, words, &mut shelf, &mut input, &mut out, &mut notes)?;
    let written = Bytes::of(alloc, out.taken())?;
    let noted = Bytes::of(alloc, notes.taken())?;
    Ok(Ran {
        outcome,
        written,
        noted,
    })
}

/// Tells C how a run ended, by what it wrote or what it reported. A sink in memory fails only where
/// memory runs out.
fn ended(ran: Ran, answer: &mut Answer) -> u32
    ensures { IsEnded ran.outcome ran.written ran.noted answer.old answer.new result }
{
    match ran.outcome {
        Outcome::Done => tell(answer, &Outcome::Done, ran.written),
        Outcome::WriteFault { .. } | Outcome::NoteFault { .. } => MEMORY,
        outcome => tell(answer, &outcome, ran.noted),
    }
}

/// Runs a command as the program does, over bytes in memory: a word that names a file is `sheet` or
/// `certificate`, and the document is the input.
#[unsafe(no_mangle)]
pub extern "C" fn xsugar_run(
    alloc: Global,
    words: &[Word],
    sheet: &[u8],
    certificate: &[u8],
    document: &[u8],
    answer: &mut Answer,
) -> u32
    ensures { IsRunDone (said words.now) sheet.now certificate.now document.now answer.old answer.new result }
{
    let Ok(none) = no_names(alloc) else {
        return MEMORY;
    };
    match texts(alloc, words) {
        Ok(Some(texts)) => match run_on(alloc, &texts, sheet, certificate, document) {
            Ok(ran) => ended(ran, answer),
            Err(_) => MEMORY,
        },
        Ok(None) => refuse(alloc, &Outcome::Usage, &none, answer),
        Err(_) => MEMORY,
    }
}
