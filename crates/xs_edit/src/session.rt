ghost use Rattle.std.specs.Prelude.{◌≡◌, [], IfOk, IfErr, OnOk};
ghost use Rattle.xs_gram.specs.{IsViable, IsSound};
ghost use Rattle.xs_edit.specs.Edits.{edited, CanEdit, IsUndone};
ghost use Rattle.xs_edit.specs.Sessions.{IsTreeOf, IsNext};

use crate::EditFault;
use crate::changing::change;
use crate::derivation::{derivation, renew};
use bumpalo::Bump;
use std::alloc::Global;
use std::marker::Model;
use std::mem;
use xs_class::{Class, Memory, Side, Word};
use xs_earley::Run;
use xs_listing::Spelt;
use xs_pair::Two;

/// How many symbols a document may have.
const DOCUMENT_LIMIT: usize = 1_048_576;

/// A document of the text side of two grammars that is edited.
///
/// Contracts see the grammars and the document. Beside the document a run of the recogniser is kept,
/// which has read its longest viable prefix, and the arena in which forests are grown, whose memory is
/// used again.
#[derive(Drop)]
pub struct Session<'t> {
    alloc: Global,
    two: &'t Two,
    doc: Word,
    run: Run,
    arena: Bump<Global>,
}

impl<'t> Model for Session<'t> {
    ghost use Rattle.xs_regex.specs.contracts.regex.Regex as e;
    ghost use Rattle.std.specs.Coded.{codes};
    ghost use Rattle.xs_edit.specs.Sessions.{Editing, IsKept};

    ghost Value = { Editing };

    ghost coded = { Prim.hlevel (codes, e.the_row.coded) };

    ghost view = { λ s. record { pair = s.two.now; document = s.doc } };

    ghost invariant = { λ s. IsKept s.two.now s.doc s.run };
}

impl<'t> Session<'t> {
    /// A session over the empty document. In time linear in the grammar, beyond what the first set
    /// of its chart leads to.
    pub fn begin(alloc: Global, two: &'t Two) -> Result<Session<'t>, Memory>
        requires text { IsSound two.now.text }
        requires xml { IsSound two.now.xml }
        ensures pair { IfOk result (λ session. session.pair ≡ two.now) }
        ensures document { IfOk result (λ session. session.document ≡ []) }
    {
        let run = Run::begin(alloc, two.gram(Side::Text))?;
        Ok(Session {
            alloc,
            two,
            doc: Word::new(alloc),
            run,
            arena: Bump::new(alloc),
        })
    }

    /// The document.
    pub fn document(&self) -> &Word
        ensures { result.now ≡ self.now.document }
    {
        &self.doc
    }

    /// Replaces `cut` symbols of the document, from place `at` on, counted from 0.
    ///
    /// `Outside` comes exactly where they are not all there, and else `Long` exactly where the
    /// document would have more than 1,048,576 symbols; then the session is as it was. After
    /// `Memory` the document is empty. In time linear in what the sets from the place on lead to;
    /// those before it are kept.
    pub fn edit(&mut self, at: u32, cut: u32, put: &Word) -> Result<(), EditFault>
        ensures document { OnOk result (self.new.document ≡ edited self.old.document at cut put.now) }
        ensures can { OnOk result (CanEdit self.old.document at cut put.now) }
        ensures fault { IfErr result (IsUndone self.old.document at cut put.now self.new.document) }
        ensures pair { self.new.pair ≡ self.old.pair }
    {
        let length = self.doc.len();
        let end = at as usize + cut as usize;
        if length < end {
            return Err(EditFault::Outside);
        }
        if put.len() > DOCUMENT_LIMIT || length - cut as usize + put.len() > DOCUMENT_LIMIT {
            return Err(EditFault::Long);
        }
        let g = self.two.gram(Side::Text);
        let doc = mem::replace(&mut self.doc, Word::new(self.alloc));
        match change(self.alloc, &mut self.run, g, doc, at, cut, put.as_slice()) {
            Ok(new) => {
                self.doc = new;
                Ok(())
            }
            Err(_) => {
                self.run.back(0);
                Err(EditFault::Memory)
            }
        }
    }

    /// The greatest number of leading symbols of the document that begin some document of the
    /// language.
    pub fn viable(&self) -> u64
        ensures { IsViable self.now.pair.text self.now.document result }
    {
        self.run.len() as u64
    }

    /// A derivation of the document; None exactly where it is foreign. In time linear in the chart
    /// and the forest that is grown from it.
    pub fn tree(&mut self) -> Result<Option<Spelt>, Memory>
        ensures tree { IfOk result (IsTreeOf self.old.pair.text self.old.document) }
        ensures unchanged { self.new ≡ self.old }
    {
        let g = self.two.gram(Side::Text);
        let tree = derivation(self.alloc, &self.arena, g, &self.run, &self.doc);
        renew(self.alloc, &mut self.arena);
        tree
    }

    /// The symbols that may come after the first `at` symbols of the document; None exactly where
    /// `at` exceeds `viable`. In time n log n of the ranges of the classes by which their set goes
    /// on.
    pub fn next(&self, at: u32) -> Result<Option<Class>, Memory>
        ensures { IfOk result (IsNext self.now.pair.text self.now.document at) }
    {
        if at as usize > self.run.len() {
            return Ok(None);
        }
        let class = self.run.next(self.alloc, self.two.gram(Side::Text), at)?;
        Ok(Some(class))
    }
}
