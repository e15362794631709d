ghost use Rattle.std.specs.Prelude.{◌≡◌, ◌<◌, [], length, IfOk, IfErr};
ghost use Rattle.xs_class.specs.declared.side.Side.TheVariants as S;
ghost use Rattle.xs_class.specs.{IsOrdered};
ghost use Rattle.xs_xml_out.specs.{AreNames};
ghost use Rattle.xs_table_out.specs.{document_bytes};
ghost use Rattle.xs_top.specs.Documents.{IsDocument, IsNoText, IsNoDocument, CanWrite, AreReadBack};
ghost use Rattle.xs_chars.specs.declared.form.Form.TheVariants.{AsIs};
ghost use Rattle.xs_top.specs.Stops.{StopsBy};

use crate::stop::Stop;
use std::alloc::Global;
use xs_chars::{Form, read_text, text_is_read_back, write_text};
use xs_class::{Bytes, Memory, Names, Side, Word};
use xs_form::read_xml;
use xs_xml_out::{write_xml, xml_is_read_back};

/// The characters of the bytes in a form.
pub fn characters_of(alloc: Global, form: Form, bytes: &[u8]) -> Result<Word, Stop>
    ensures text { IfOk result (λ w. IsDocument S.Text form [] bytes.now w) }
    ensures short { IfOk result (λ w. length w < 4294967295) }
    ensures stop { IfErr result (StopsBy (IsNoText bytes.now)) }
{
    let word = read_text(alloc, bytes, form)?;
    Ok(word)
}

/// The symbols of XML, as it is.
fn symbols_of(alloc: Global, names: &Names, bytes: &[u8]) -> Result<Word, Stop>
    ensures xml { IfOk result (λ w. IsDocument S.Xml AsIs names.now bytes.now w) }
    ensures short { IfOk result (λ w. length w < 4294967295) }
    ensures stop { IfErr result (StopsBy (IsNoDocument names.now S.Xml bytes.now)) }
{
    let characters = characters_of(alloc, Form::AsIs, bytes)?;
    let word = read_xml(alloc, names, &characters)?;
    Ok(word)
}

/// The word of a document.
pub fn read_document(
    alloc: Global,
    side: Side,
    form: Form,
    names: &Names,
    bytes: &[u8],
) -> Result<Word, Stop>
    ensures document { IfOk result (IsDocument side form names.now bytes.now) }
    ensures short { IfOk result (λ w. length w < 4294967295) }
    ensures stop { IfErr result (StopsBy (IsNoDocument names.now side bytes.now)) }
{
    match side {
        Side::Text => characters_of(alloc, form, bytes),
        Side::Xml => symbols_of(alloc, names, bytes),
    }
}

/// Names are in order.
fn ordered(names: &Names)
    ensures { IsOrdered names.now }
{
    let _count = names.len();
}

/// What is written for a word, over these names, reads as that word.
pub fn documents_are_read_back(names: &Names)
    ensures { AreReadBack names.now }
{
    text_is_read_back();
    xml_is_read_back();
    ordered(names);
}

/// The bytes of a document, which read as the word.
pub fn write_document(
    alloc: Global,
    side: Side,
    names: &Names,
    word: &Word,
) -> Result<Bytes, Memory>
    requires names { AreNames names.now }
    requires word { CanWrite names.now side word.now }
    ensures bytes { IfOk result (λ bytes. bytes ≡ document_bytes side names.now word.now) }
    ensures reads { IfOk result (λ bytes. IsDocument side AsIs names.now bytes word.now) }
{
    documents_are_read_back(names);
    match side {
        Side::Text => {
            let bytes = write_text(alloc, word)?;
            Ok(bytes)
        }
        Side::Xml => {
            let bytes = write_xml(alloc, names, word)?;
            Ok(bytes)
        }
    }
}
