ghost use Rattle.std.specs.Prelude.{◌≡◌, slice_get, IfOk, IfSome};
ghost use Rattle.xs_gram.specs.{Derivation, Derives, IsBuilt, print, strip};
ghost use Rattle.xs_parse_table.specs.{IsTreeOf};

use crate::append::append;
use crate::layout::steps_of;
use crate::printing::Printing;
use crate::steps::{Step, Steps};
use crate::stretch::stretch;
use crate::walk::write_table;
use crate::writer::Writer;
use std::alloc::Global;
use xs_class::{Memory, Sym, Word};
use xs_gram::Gram;
use xs_parse_table::ParseTable;
use xs_text_out::pieces_of;

/// The step of this number.
#[inline(always)]
fn step_at(all: &[Step], number: usize) -> Option<Step>
    ensures { result ≡ slice_get all.now number }
{
    all.get(number).copied()
}

/// A word that is written as symbols.
#[derive(Drop)]
struct Symbols<'s> {
    steps: &'s Steps,
    all: Vec<Sym>,
}

impl Writer for Symbols<'_> {
    ghost use Rattle.std.specs.Prelude.{◌++◌};
    ghost use Rattle.xs_table_out.specs.Steps.{text_at};

    ghost whole = { λ out rest. out.all.items ++ rest };

    ghost text = { λ out. text_at out.steps.now };

    #[inline(always)]
    fn put_text(&mut self, number: usize) -> Result<bool, Memory> {
        let Some(step) = step_at(&self.steps.all, number) else {
            return Ok(true);
        };
        let Some(text) = stretch(&self.steps.text, step.begin, step.end) else {
            return Ok(false);
        };
        append(&mut self.all, text)?;
        Ok(true)
    }

    #[inline(always)]
    fn put_word(&mut self, word: &[Sym]) -> Result<bool, Memory> {
        append(&mut self.all, word)?;
        Ok(true)
    }
}

/// The word, by the grammar `to`, of the tree of the derivation that a table means of a document of
/// the grammar `from`; None where a part of the table is not right. In time linear in the squares of
/// the productions' items, the nodes and the word.
pub fn print_table(
    alloc: Global,
    from: &Gram,
    to: &Gram,
    doc: &[Sym],
    table: &ParseTable,
) -> Result<Option<Word>, Memory>
    requires { IsBuilt from.now }
    ensures { IfOk result (λ o. IfSome o (λ word. (d : Derivation) → IsTreeOf table.now doc.now d → Derives from.now doc.now d
        → word ≡ print to.now (strip from.now d))) }
{
    let steps = steps_of(alloc, from, to, pieces_of(alloc, to)?)?;
    let all = Vec::with_capacity(alloc, doc.len().saturating_mul(2))?;
    let mut out = Symbols { steps: &steps, all };
    let printed = Printing {
        from,
        to,
        steps: &steps,
        doc,
        table,
    };
    if write_table(alloc, &printed, &mut out)? {
        Ok(Some(Word::from_vec(out.all)))
    } else {
        Ok(None)
    }
}
