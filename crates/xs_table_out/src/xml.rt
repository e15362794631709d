ghost use Rattle.std.specs.Prelude.{◌≡◌, slice_get, IfOk, IfSome, string_bytes};
ghost use Rattle.std.specs.Option.{option_map};
ghost use Rattle.xs_gram.specs.{Derivation, Derives, IsBuilt, print, strip};
ghost use Rattle.xs_parse_table.specs.{IsTreeOf};
ghost use Rattle.xs_xml_out.specs.{AreKnown, xml_bytes};
ghost use Rattle.xs_table_out.specs.Steps.{AreSteps};
ghost use Rattle.xs_table_out.specs.Spelt.{cell_in, AreSpelt, GoesOn, IsCell, IsSpelt};

use crate::append::append;
use crate::printing::Printing;
use crate::steps::Steps;
use crate::stretch::stretch;
use crate::walk::write_table;
use crate::writer::Writer;
use std::alloc::Global;
use xs_class::{Bytes, Memory, Names, Sym};
use xs_xml_out::{Mode, Tags, are_known, put_characters, put_stretch};

/// Where what is written for a text begins and ends, and the mode after it.
#[derive(Clone, Copy)]
pub struct Cell {
    pub begin: usize,
    pub end: usize,
    pub after: Mode,
}

/// What is written for a text, by the mode in which it begins.
#[derive(Clone, Copy)]
pub struct Spelt {
    pub content: Cell,
    pub tag: Cell,
    pub value: Cell,
}

/// What is written for the texts of all steps, by the numbers of these.
#[derive(Drop)]
pub struct Spellings {
    pub tags: Tags,
    pub all: Vec<Spelt>,
    pub text: String,
}

/// Appends what is written for a text from a mode on.
fn cell_of(tags: &Tags, mode: Mode, word: &[Sym], text: &mut String) -> Result<Cell, Memory>
    requires { AreKnown tags.now word.now }
    ensures cell { IfOk result (IsCell tags.now mode word.now (string_bytes text.new)) }
    ensures on { IfOk result (λ _. GoesOn (string_bytes text.old) (string_bytes text.new)) }
{
    let begin = text.len();
    let after = put_stretch(tags, mode, word, text)?;
    let end = text.len();
    Ok(Cell { begin, end, after })
}

/// Appends what is written for a text, in each mode.
fn spell(tags: &Tags, word: &[Sym], text: &mut String) -> Result<Spelt, Memory>
    requires { AreKnown tags.now word.now }
    ensures spelt { IfOk result (IsSpelt tags.now word.now (string_bytes text.new)) }
    ensures on { IfOk result (λ _. GoesOn (string_bytes text.old) (string_bytes text.new)) }
{
    let content = cell_of(tags, Mode::Content, word, text)?;
    let tag = cell_of(tags, Mode::Tag, word, text)?;
    let value = cell_of(tags, Mode::Value, word, text)?;
    Ok(Spelt {
        content,
        tag,
        value,
    })
}

/// What is written for the texts of steps; None where a symbol of one cannot be written.
fn spell_all(alloc: Global, names: &Names, steps: &Steps) -> Result<Option<Spellings>, Memory>
    ensures names { IfOk result (λ o. IfSome o (λ s. s.tags ≡ names.now)) }
    ensures spelt { IfOk result (λ o. IfSome o (AreSpelt steps.now)) }
{
    let tags = Tags::of(alloc, names)?;
    let mut all = Vec::with_capacity(alloc, steps.all.len())?;
    let mut text = String::new(alloc);
    'steps: for step in &steps.all {
        let Some(word) = stretch(&steps.text, step.begin, step.end) else {
            return Ok(None);
        };
        if !are_known(&tags, word) {
            return Ok(None);
        }
        all.push(spell(&tags, word, &mut text)?)?;
    }
    Ok(Some(Spellings { tags, all, text }))
}

/// What is written for a text that begins in a mode.
#[inline(always)]
fn cell_in(spelt: Spelt, mode: Mode) -> Cell
    ensures { result ≡ cell_in spelt mode }
{
    match mode {
        Mode::Content => spelt.content,
        Mode::Tag => spelt.tag,
        Mode::Value => spelt.value,
    }
}

/// What is written for the text of the step of a number, if it begins in a mode.
#[inline(always)]
fn cell_at(all: &[Spelt], number: usize, mode: Mode) -> Option<Cell>
    ensures { result ≡ option_map (λ s. cell_in s mode) (slice_get all.now number) }
{
    let spelt = all.get(number).copied()?;
    Some(cell_in(spelt, mode))
}

/// An XML document on the way: its bytes, and where the next symbol stands.
#[derive(Drop)]
struct XmlBytes<'s> {
    steps: &'s Steps,
    spellings: &'s Spellings,
    mode: Mode,
    bytes: Vec<u8>,
    ghost spelt: { AreSpelt steps.now spellings.now },
}

impl Writer for XmlBytes<'_> {
    ghost use Rattle.std.specs.Prelude.{◌++◌};
    ghost use Rattle.xs_xml_out.specs.{rest_bytes};
    ghost use Rattle.xs_table_out.specs.Steps.{text_at};

    ghost whole = { λ out rest. out.bytes.items ++ rest_bytes out.spellings.now.tags out.mode rest };

    ghost text = { λ out. text_at out.steps.now };

    #[inline(always)]
    fn put_text(&mut self, number: usize) -> Result<bool, Memory> {
        let Some(cell) = cell_at(&self.spellings.all, number, self.mode) else {
            return Ok(false);
        };
        let Some(text) = stretch(self.spellings.text.as_bytes(), cell.begin, cell.end) else {
            return Ok(false);
        };
        append(&mut self.bytes, text)?;
        self.mode = cell.after;
        Ok(true)
    }

    #[inline(always)]
    fn put_word(&mut self, word: &[Sym]) -> Result<bool, Memory> {
        let Some(after) = put_characters(&mut self.bytes, self.mode, word)? else {
            return Ok(false);
        };
        self.mode = after;
        Ok(true)
    }
}

/// The XML document of what is printed; None where a part of the table is not right, or where a
/// symbol cannot be written. In time linear in the nodes, the word, the names and the document.
pub fn xml_of_table(
    alloc: Global,
    names: &Names,
    printing: &Printing,
) -> Result<Option<Bytes>, Memory>
    requires built { IsBuilt printing.now.from.now }
    requires steps { AreSteps printing.now.from.now printing.now.to.now printing.now.steps.now }
    ensures { IfOk result (λ o. IfSome o (λ bytes. (d : Derivation)
        → IsTreeOf printing.now.table.now printing.now.doc.now d → Derives printing.now.from.now printing.now.doc.now d
        → bytes ≡ xml_bytes names.now (print printing.now.to.now (strip printing.now.from.now d)))) }
{
    let steps = printing.steps;
    let Some(spellings) = spell_all(alloc, names, steps)? else {
        return Ok(None);
    };
    let bytes = Vec::with_capacity(alloc, printing.doc.len().saturating_mul(2))?;
    let mut out = XmlBytes {
        steps,
        spellings: &spellings,
        mode: Mode::Content,
        bytes,
    };
    if !write_table(alloc, printing, &mut out)? {
        return Ok(None);
    }
    let mut bytes = out.bytes;
    bytes.push(b'\n')?;
    Ok(Some(Bytes::from_vec(bytes)))
}
