ghost use Rattle.std.specs.Prelude.{◌≡◌, IfOk};
ghost use Rattle.xs_gram.specs.{print};
ghost use Rattle.xs_tree.specs.{common_of};
ghost use Rattle.xs_text_out.specs.Printers.{IsPrinterOf};

use crate::lengths::lengths_of;
use crate::pieces::{Pieces, pieces_of};
use crate::shares::{Shares, shares_of};
use crate::walk::walk;
use std::alloc::Global;
use xs_class::{Memory, Word};
use xs_gram::Gram;
use xs_tree::Tree;

/// What the productions of a grammar print, made once for any number of trees.
#[derive(Drop)]
pub struct Printer {
    shares: Shares,
    pieces: Pieces,
}

impl Printer {
    /// The printer of a grammar, in time linear in its items and the text that they print.
    pub fn new(alloc: Global, g: &Gram) -> Result<Printer, Memory>
        ensures { IfOk result (IsPrinterOf g.now) }
    {
        Ok(Printer {
            shares: shares_of(alloc, g)?,
            pieces: pieces_of(alloc, g)?,
        })
    }

    /// The word of the common tree on the side of the printer's grammar, each ignorable in its normal
    /// spelling; a part that is shared is printed each time.
    ///
    /// The parts' lengths are counted, and then all room is reserved at once: where the word is
    /// longer than any list can be, that is refused, and nothing is written. In time linear in the
    /// flat tree and, where the tree fits the grammar and no nonterminal derives itself alone, in the
    /// word.
    pub fn print(&self, alloc: Global, g: &Gram, t: &Tree) -> Result<Word, Memory>
        requires { IsPrinterOf g.now self.now }
        ensures { IfOk result (λ word. word ≡ print g.now (common_of t.now)) }
    {
        let lengths = lengths_of(alloc, g, &self.shares, t)?;
        let length = lengths[t.root() as usize];
        let symbols = Vec::with_capacity(alloc, length as usize)?;
        let tasks = Vec::with_capacity(alloc, lengths.len())?;
        let word = walk(g, &self.pieces, t, &lengths, tasks, symbols);
        Ok(Word::from_vec(word))
    }
}

/// The word of one common tree, as `Printer::print` gives it, in time linear in the grammar too.
pub fn print_syms(alloc: Global, g: &Gram, t: &Tree) -> Result<Word, Memory>
    ensures { IfOk result (λ word. word ≡ print g.now (common_of t.now)) }
{
    let printer = Printer::new(alloc, g)?;
    printer.print(alloc, g, t)
}
