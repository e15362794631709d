ghost use Rattle.std.specs.Prelude.{◌<◌, length, IfOk, IfErr};
ghost use Rattle.xs_gram.specs.{IsSound};
ghost use Rattle.xs_turn.specs.Turned.{IsRefusal, IsRewritten};

use crate::TurnFault;
use crate::guess::guessed_document;
use crate::translating::turned_to;
use std::alloc::Global;
use xs_class::{Bytes, Side, Word};
use xs_pair::Two;

/// A translated document: its bytes, or its word, which is still to be written.
#[derive(Drop)]
pub enum Rewritten {
    Written(Bytes),
    Print(Word),
}

/// Translates a document of one side into that of a side, the other or the same, that has the same
/// tree. Its bytes are written straight from a guess that was checked; where there is none, the
/// document is turned, and its word is given.
///
/// `Foreign`, when the tree fits on either side, and the time are as with `translate`.
pub fn rewrite(
    alloc: Global,
    two: &Two,
    from: Side,
    to: Side,
    doc: &Word,
) -> Result<Rewritten, TurnFault>
    requires text { IsSound two.now.text }
    requires xml { IsSound two.now.xml }
    requires short { length doc.now < 4294967295 }
    ensures rewritten { IfOk result (IsRewritten two.now from to doc.now) }
    ensures foreign { IfErr result (IsRefusal two.now from doc.now) }
{
    match guessed_document(alloc, to, two.names(), two.gram(from), two.gram(to), doc)? {
        Some(bytes) => Ok(Rewritten::Written(bytes)),
        None => {
            let word = turned_to(alloc, two, doc, from, to)?;
            Ok(Rewritten::Print(word))
        }
    }
}
