ghost use Rattle.std.specs.Prelude.{◌≡◌, ◌<◌, true, length, IfOk, IfErr};
ghost use Rattle.xs_gram.specs.{IsSound};
ghost use Rattle.xs_turn.specs.Turned.{IsTranslated, IsRefusal, other_side};

use crate::TurnFault;
use crate::guess::guessed_word;
use crate::turning::turn;
use bumpalo::Bump;
use std::alloc::Global;
use xs_class::{Side, Word};
use xs_pair::Two;
use xs_text_out::print_syms;

/// Whether these are two sides.
fn is_other(from: Side, to: Side) -> bool
    ensures { result ≡ true → other_side from ≡ to }
{
    match from {
        Side::Text => match to {
            Side::Text => false,
            Side::Xml => true,
        },
        Side::Xml => match to {
            Side::Text => true,
            Side::Xml => false,
        },
    }
}

/// A translation by turning the document, which alone says that the document is foreign.
pub fn turned_to(
    alloc: Global,
    two: &Two,
    doc: &Word,
    from: Side,
    to: Side,
) -> Result<Word, TurnFault>
    requires short { length doc.now < 4294967295 }
    requires text { IsSound two.now.text }
    requires xml { IsSound two.now.xml }
    ensures translated { IfOk result (IsTranslated two.now from to doc.now) }
    ensures foreign { IfErr result (IsRefusal two.now from doc.now) }
{
    let bump = Bump::new(alloc);
    let turned = turn(alloc, &bump, two, from, doc)?;
    if is_other(from, to) {
        return Ok(turned.word);
    }
    let word = print_syms(alloc, two.gram(to), &turned.tree)?;
    Ok(word)
}

/// Translates a document of one side into the word of a side, the other or the same, that has the
/// same tree. The word is printed straight from a guess that was checked, without a tree, and where
/// there is none the document is turned.
///
/// `Foreign` is answered exactly where the document has no derivation, with the greatest number of
/// its leading symbols that begin some document of its side. Where the two grammars have the same
/// trees and the same start, the tree fits on either side. The time is mostly linear in the two
/// words; where no guess passes the check, it is that of the exact reader.
pub fn translate(
    alloc: Global,
    two: &Two,
    from: Side,
    to: Side,
    doc: &Word,
) -> Result<Word, TurnFault>
    requires text { IsSound two.now.text }
    requires xml { IsSound two.now.xml }
    requires short { length doc.now < 4294967295 }
    ensures translated { IfOk result (IsTranslated two.now from to doc.now) }
    ensures foreign { IfErr result (IsRefusal two.now from doc.now) }
{
    match guessed_word(alloc, two.gram(from), two.gram(to), doc)? {
        Some(word) => Ok(word),
        None => turned_to(alloc, two, doc, from, to),
    }
}
