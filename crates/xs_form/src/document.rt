ghost use Rattle.std.specs.Prelude.{◌≡◌, ◌+◌, ◌≤◌, length, IfOk, IfErr};
ghost use Rattle.xs_xml_laws.specs.Reads.{Reads};
ghost use Rattle.xs_form.specs.Fault.{IsFault, IsAt};

use crate::pieces::event_at;
use crate::reader::Reader;
use std::alloc::Global;
use xs_class::{Memory, Names, Sym, Word};

/// Why a document has no symbols.
#[derive(Clone, Copy, Debug, PartialEq, Eq)]
pub enum XmlFault {
    /// The document is no XML of the profile. The pieces before `at`, in characters from 0, are the
    /// longest legal beginning.
    NotXml { at: u64 },
    /// Want of memory.
    Memory,
}

impl From<Memory> for XmlFault {
    ghost use Rattle.std.specs.Prelude.{◌≡◌};
    ghost use Rattle.xs_form.specs.declared.document.XmlFault.TheVariants as fault;

    ghost from_gives = { λ _ e. e ≡ fault.Memory };

    fn from(_: Memory) -> Self {
        XmlFault::Memory
    }
}

/// The fault at the text's beginning, in a document that ends with the text.
fn broken(doc: &[Sym], text: &[Sym]) -> XmlFault
    requires { length text.now ≤ length doc.now }
    ensures { IsAt result (length doc.now) (length text.now) }
{
    XmlFault::NotXml {
        at: (doc.len() - text.len()) as u64,
    }
}

/// The symbols of an XML document, by the list of names.
///
/// The document is a list of characters from which one mark U+FEFF at the very front has been taken
/// away already: a U+FEFF that stands there is no XML. Places are counted in characters of this
/// list, CR LF as two. A symbol that is no character is no XML either.
///
/// An element gives its opening, its attributes in ascending order of the UTF-8 bytes of their
/// names, its content and its closing, as XML 1.0, fifth edition, reads them without a document
/// type. A name that the list does not have gives `STRANGE`. The symbols are no more than the
/// characters. The pieces of a document and the rules for their lists are those of `xs_xml_laws`.
///
/// Fails with `NotXml` exactly where no list of pieces is a reading of the document; then `at` is
/// the greatest total length of a legal list of pieces that begins the document. The time is linear
/// in the document, but for sorting the attributes of each tag and looking up each name.
pub fn read_xml(alloc: Global, names: &Names, doc: &Word) -> Result<Word, XmlFault>
    ensures read { IfOk result (λ w. Reads names.now doc.now w) }
    ensures short { IfOk result (λ w. length w ≤ length doc.now) }
    ensures fault { IfErr result (λ e. IsFault names.now doc.now e) }
{
    let whole = doc.as_slice();
    let mut reader = Reader::with_room(alloc, whole.len())?;
    let mut rest = whole;
    'pieces: while !rest.is_empty() {
        if let Some((run, more)) = reader.run_at(rest) {
            reader.text(run)?;
            rest = more;
            continue;
        }
        match event_at(alloc, rest)? {
            None => return Err(broken(whole, rest)),
            Some((event, more)) => {
                if !reader.take(alloc, names, event)? {
                    return Err(broken(whole, rest));
                }
                rest = more;
            }
        }
    }
    match reader.finish() {
        Some(word) => Ok(word),
        None => Err(broken(whole, rest)),
    }
}
