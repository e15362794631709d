// A derivation of a document, by a forest that is grown in an arena.
ghost use Rattle.std.specs.Prelude.{◌≤◌, length, IfOk};
ghost use Rattle.xs_edit.specs.Edits.{document_limit};
ghost use Rattle.xs_edit.specs.Sessions.{IsFollowing, IsTreeOf};

use bumpalo::Bump;
use std::alloc::Global;
use xs_class::{Memory, Word};
use xs_earley::Run;
use xs_gram::Gram;
use xs_grow::grow;
use xs_listing::{Spelt, list_trees};

/// A derivation of the document that the run follows, or None where it is foreign. What lies in the
/// arena is of no more use after it.
pub fn derivation(
    alloc: Global,
    arena: &Bump<Global>,
    g: &Gram,
    run: &Run,
    doc: &Word,
) -> Result<Option<Spelt>, Memory>
    requires following { IsFollowing g.now doc.now run.now }
    requires short { length doc.now ≤ document_limit }
    ensures { IfOk result (IsTreeOf g.now doc.now) }
{
    if run.len() < doc.len() || !run.whole() {
        return Ok(None);
    }
    let grown = grow(alloc, arena, g, run.chart(), doc)?;
    let listing = list_trees(alloc, &grown, g, doc, 1)?;
    let mut trees = listing.trees.into_vec();
    Ok(trees.pop())
}

/// Makes the arena free for what comes next; one that cannot be reset is replaced.
pub fn renew(alloc: Global, arena: &mut Bump<Global>) {
    if arena.reset().is_err() {
        *arena = Bump::new(alloc);
    }
}
