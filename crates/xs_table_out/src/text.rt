ghost use Rattle.std.specs.Prelude.{◌≡◌, ◌==◌, ℕ, List, slice_get, encode_utf8_all, IfOk, IfSome, IsTrue};
ghost use Rattle.xs_chars.specs.{has_mark, text_bytes};
ghost use Rattle.xs_gram.specs.{Derivation, Derives, IsBuilt, print, strip};
ghost use Rattle.xs_parse_table.specs.{IsTreeOf};
ghost use Rattle.xs_table_out.specs.Steps.{AreSteps};
ghost use Rattle.xs_table_out.specs.Encoded.{AreEncoded};

use crate::append::append;
use crate::printing::Printing;
use crate::steps::Steps;
use crate::stretch::stretch;
use crate::walk::write_table;
use crate::writer::Writer;
use std::alloc::Global;
use xs_chars::append_utf8;
use xs_class::{Bytes, Memory, Sym};

/// The UTF-8 of a byte order mark.
const MARK: [u8; 3] = [0xEF, 0xBB, 0xBF];

/// Where the UTF-8 of a text begins and ends.
#[derive(Clone, Copy)]
pub struct Encoding {
    pub begin: usize,
    pub end: usize,
}

/// The UTF-8 of the texts of all steps, by the numbers of these.
#[derive(Drop)]
pub struct Encodings {
    pub all: Vec<Encoding>,
    pub bytes: Vec<u8>,
}

/// The UTF-8 of the texts of steps; None where a symbol of one is no character.
fn encode_all(alloc: Global, steps: &Steps) -> Result<Option<Encodings>, Memory>
    ensures { IfOk result (λ o. IfSome o (AreEncoded steps.now)) }
{
    let mut all = Vec::with_capacity(alloc, steps.all.len())?;
    let mut bytes = Vec::new(alloc);
    'steps: for step in &steps.all {
        let Some(word) = stretch(&steps.text, step.begin, step.end) else {
            return Ok(None);
        };
        let begin = bytes.len();
        if !append_utf8(&mut bytes, word)? {
            return Ok(None);
        }
        let end = bytes.len();
        all.push(Encoding { begin, end })?;
    }
    Ok(Some(Encodings { all, bytes }))
}

/// Where the UTF-8 of the text of the step of a number begins and ends.
#[inline(always)]
fn encoding_at(all: &[Encoding], number: usize) -> Option<Encoding>
    ensures { result ≡ slice_get all.now number }
{
    all.get(number).copied()
}

/// A text document on the way.
#[derive(Drop)]
struct TextBytes<'s> {
    steps: &'s Steps,
    encodings: &'s Encodings,
    bytes: Vec<u8>,
    ghost encoded: { AreEncoded steps.now encodings.now },
}

impl Writer for TextBytes<'_> {
    ghost use Rattle.std.specs.Prelude.{◌++◌, encode_utf8_all};
    ghost use Rattle.xs_table_out.specs.Steps.{text_at};

    ghost whole = { λ out rest. out.bytes.items ++ encode_utf8_all rest };

    ghost text = { λ out. text_at out.steps.now };

    #[inline(always)]
    fn put_text(&mut self, number: usize) -> Result<bool, Memory> {
        let Some(encoding) = encoding_at(&self.encodings.all, number) else {
            return Ok(false);
        };
        let Some(text) = stretch(&self.encodings.bytes, encoding.begin, encoding.end) else {
            return Ok(false);
        };
        append(&mut self.bytes, text)?;
        Ok(true)
    }

    #[inline(always)]
    fn put_word(&mut self, word: &[Sym]) -> Result<bool, Memory> {
        let done = append_utf8(&mut self.bytes, word)?;
        Ok(done)
    }
}

/// Whether bytes begin with the UTF-8 of a byte order mark.
fn begins_with_mark(bytes: &[u8]) -> bool
    ensures { (word : List ℕ) → bytes.now ≡ encode_utf8_all word → result ≡ has_mark word }
{
    bytes.starts_with(&MARK)
}

/// The UTF-8 of a text, with one byte order mark more where it begins with one.
fn marked(alloc: Global, bytes: Vec<u8>) -> Result<Vec<u8>, Memory>
    ensures { IfOk result (λ all. (word : List ℕ) → bytes.items ≡ encode_utf8_all word → all.items ≡ text_bytes word) }
{
    if !begins_with_mark(&bytes) {
        return Ok(bytes);
    }
    let mut all = Vec::with_capacity(alloc, bytes.len().saturating_add(MARK.len()))?;
    all.extend_from_slice(&MARK)?;
    all.extend_from_slice(&bytes)?;
    Ok(all)
}

/// The text document of what is printed; None where a part of the table is not right, or where a
/// symbol is no character. In time linear in the nodes and the word.
pub fn text_of_table(alloc: Global, printing: &Printing) -> Result<Option<Bytes>, Memory>
    requires built { IsBuilt printing.now.from.now }
    requires steps { AreSteps printing.now.from.now printing.now.to.now printing.now.steps.now }
    ensures { IfOk result (λ o. IfSome o (λ bytes. (d : Derivation)
        → IsTreeOf printing.now.table.now printing.now.doc.now d → Derives printing.now.from.now printing.now.doc.now d
        → bytes ≡ text_bytes (print printing.now.to.now (strip printing.now.from.now d)))) }
{
    let steps = printing.steps;
    let Some(encodings) = encode_all(alloc, steps)? else {
        return Ok(None);
    };
    let bytes = Vec::with_capacity(alloc, printing.doc.len())?;
    let mut out = TextBytes {
        steps,
        encodings: &encodings,
        bytes,
    };
    if !write_table(alloc, printing, &mut out)? {
        return Ok(None);
    }
    Ok(Some(Bytes::from_vec(marked(alloc, out.bytes)?)))
}
