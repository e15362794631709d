ghost use Rattle.std.specs.Prelude.{◌≡◌, ◌≤◌, ◌+◌, ◌++◌, [], List, ℕ, length, IfOk, IfErr, OnOk, OnErr};
ghost use Rattle.xs_gram.specs.{IsSound};
ghost use Rattle.xs_edit.specs.Edits.{edited, CanEdit};
ghost use Rattle.xs_script.specs.Drafts.{IsRefused};
ghost use Rattle.xs_script.specs.Playing.{IsPutAnswer, IsTreeAnswer, IsNextAnswer, Answers};

use crate::answering::{next, push_number, tree};
use crate::request::Request;
use std::alloc::Global;
use std::marker::Model;
use std::mem;
use xs_class::{Bytes, Memory, Sym, Word};
use xs_edit::{EditFault, Session};
use xs_pair::Two;

/// How many symbols a document may have.
const DOCUMENT_LIMIT: usize = 1_048_576;

/// The document of a script, and a session that reads it when it is asked about.
///
/// An edit changes the document alone, and `same` is how many of its first symbols are certainly those
/// of the session's document. The line of the derivation is kept until the next edit. Contracts see
/// the grammars, the document and that of the session.
#[derive(Drop)]
pub struct Draft<'t> {
    alloc: Global,
    two: &'t Two,
    session: Session<'t>,
    doc: Vec<Sym>,
    same: usize,
    line: Option<Bytes>,
}

impl<'t> Model for Draft<'t> {
    ghost use Rattle.xs_regex.specs.contracts.regex.Regex as e;
    ghost use Rattle.std.specs.Coded.{codes};
    ghost use Rattle.std.specs.Prelude.{◌≡◌};
    ghost use Rattle.xs_script.specs.Drafts.{Drafting, IsDraft};

    ghost Value = { Drafting };

    ghost coded = { Prim.hlevel (codes, e.the_row.coded) };

    ghost view = { λ d. record { pair = d.two.now; document = d.doc.items; read = d.session.document } };

    ghost invariant = { λ d. IsDraft d.two.now d.session d.doc.items d.same d.line };
}

/// Replaces `cut` symbols of the document from place `at` on, or leaves it as it was.
fn splice(doc: &mut Vec<Sym>, at: u32, cut: u32, put: &[Sym]) -> Result<(), Memory>
    requires { at + cut ≤ length doc.old.items }
    ensures ok { OnOk result (doc.new.items ≡ edited doc.old.items at cut put.now) }
    ensures err { OnErr result (doc.new.items ≡ doc.old.items) }
{
    let start = at as usize;
    doc.splice(start..start + cut as usize, put.iter().copied())?;
    Ok(())
}

impl<'t> Draft<'t> {
    /// A draft of the empty document.
    pub fn begin(alloc: Global, two: &'t Two) -> Result<Draft<'t>, Memory>
        requires text { IsSound two.now.text }
        requires xml { IsSound two.now.xml }
        ensures pair { IfOk result (λ draft. draft.pair ≡ two.now) }
        ensures document { IfOk result (λ draft. draft.document ≡ []) }
    {
        Ok(Draft {
            alloc,
            two,
            session: Session::begin(alloc, two)?,
            doc: Vec::new(alloc),
            same: 0,
            line: None,
        })
    }

    /// The number of the document's symbols.
    fn len(&self) -> usize
        ensures { result ≡ length self.now.document }
    {
        self.doc.len()
    }

    /// Replaces `cut` symbols of the document from place `at` on, or leaves it as it was. In time
    /// linear in what comes after the place.
    fn edit(&mut self, at: u32, cut: u32, put: &[Sym]) -> Result<(), EditFault>
        ensures document { OnOk result (self.new.document ≡ edited self.old.document at cut put.now) }
        ensures can { OnOk result (CanEdit self.old.document at cut put.now) }
        ensures fault { IfErr result (IsRefused self.old.document at cut put.now) }
        ensures unchanged { OnErr result (self.new ≡ self.old) }
        ensures pair { self.new.pair ≡ self.old.pair }
    {
        let length = self.doc.len();
        if length < at as usize + cut as usize {
            return Err(EditFault::Outside);
        }
        if put.len() > DOCUMENT_LIMIT || length - cut as usize + put.len() > DOCUMENT_LIMIT {
            return Err(EditFault::Long);
        }
        splice(&mut self.doc, at, cut, put)?;
        self.same = self.same.min(at as usize);
        self.line = None;
        Ok(())
    }

    /// Makes the session's document that of the draft, from the first place on where they may
    /// differ.
    fn catch_up(&mut self) -> Result<(), Memory>
        ensures read { OnOk result (self.new.read ≡ self.new.document) }
        ensures document { self.new.document ≡ self.old.document }
        ensures pair { self.new.pair ≡ self.old.pair }
    {
        let same = mem::replace(&mut self.same, 0);
        let cut = self.session.document().len() - same;
        let put = Word::of(self.alloc, &self.doc[same..])?;
        match self.session.edit(same as u32, cut as u32, &put) {
            Ok(()) => self.same = self.doc.len(),
            Err(EditFault::Outside | EditFault::Long) => unreachable!(),
            Err(EditFault::Memory) => return Err(Memory),
        }
        Ok(())
    }

    /// The line of a derivation of the document, or how far it can be read: the one that is kept, or a
    /// new one.
    fn told(&mut self) -> Result<Bytes, Memory>
        ensures answer { IfOk result (IsTreeAnswer self.old.pair self.old.document) }
        ensures document { self.new.document ≡ self.old.document }
        ensures pair { self.new.pair ≡ self.old.pair }
    {
        if let Some(line) = self.line.take() {
            return Ok(line);
        }
        self.catch_up()?;
        tree(self.alloc, self.two, &mut self.session)
    }

    /// Appends the line of a derivation of the document, or how far it can be read.
    fn tree(&mut self, out: &mut Bytes) -> Result<(), Memory>
        ensures answer { OnOk result ((line : List ℕ) × IsTreeAnswer self.old.pair self.old.document line × (out.new ≡ out.old ++ line)) }
        ensures document { self.new.document ≡ self.old.document }
        ensures pair { self.new.pair ≡ self.old.pair }
    {
        let line = self.told()?;
        out.extend(line.as_slice())?;
        self.line = Some(line);
        Ok(())
    }

    /// Appends the line of the symbols that may come after a prefix.
    fn next(&mut self, at: u32, out: &mut Bytes) -> Result<(), Memory>
        ensures answer { OnOk result ((line : List ℕ) × IsNextAnswer self.old.pair self.old.document at line × (out.new ≡ out.old ++ line)) }
        ensures document { self.new.document ≡ self.old.document }
        ensures pair { self.new.pair ≡ self.old.pair }
    {
        self.catch_up()?;
        next(self.alloc, self.two, &self.session, at, out)
    }

    /// Edits the document, and appends the line that says how that went.
    fn put(&mut self, at: u32, cut: u32, put: &Word, out: &mut Bytes) -> Result<(), Memory>
        ensures answer { OnOk result ((line : List ℕ) × IsPutAnswer self.old.document at cut put.now line self.new.document × (out.new ≡ out.old ++ line)) }
        ensures pair { self.new.pair ≡ self.old.pair }
    {
        match self.edit(at, cut, put.as_slice()) {
            Ok(()) => push_number(out, b"ok ", self.len() as u64)?,
            Err(EditFault::Outside) => out.extend(b"no outside\n")?,
            Err(EditFault::Long) => out.extend(b"no long\n")?,
            Err(EditFault::Memory) => return Err(Memory),
        }
        Ok(())
    }

    /// Does what is asked for, and appends the line that answers it.
    pub fn answer(&mut self, request: &Request, out: &mut Bytes) -> Result<(), Memory>
        ensures answer { OnOk result ((line : List ℕ) × Answers self.old.pair self.old.document request.now line self.new.document × (out.new ≡ out.old ++ line)) }
        ensures pair { self.new.pair ≡ self.old.pair }
    {
        match request {
            Request::Put {
                at,
                cut,
                put: symbols,
            } => self.put(*at, *cut, symbols, out),
            Request::Tree => self.tree(out),
            Request::Next { at } => self.next(*at, out),
        }
    }
}
