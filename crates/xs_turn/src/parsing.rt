ghost use Rattle.std.specs.Prelude.{◌≡◌, ◌<◌, length, IfOk, IfErr};
ghost use Rattle.xs_gram.specs.{HasTree, IsSound};
ghost use Rattle.xs_tree.specs.{common_of};
ghost use Rattle.xs_pair.specs.{HaveSameTrees, grammar_of};
ghost use Rattle.xs_turn.specs.Turned.{FitsBoth, IsRefusal};

use crate::TurnFault;
use crate::guess::guessed_tree;
use crate::turning::turn;
use bumpalo::Bump;
use std::alloc::Global;
use xs_class::{Side, Word};
use xs_pair::Two;
use xs_tree::Tree;

/// The tree by turning the document, which alone says that the document is foreign.
fn turned_tree(alloc: Global, two: &Two, doc: &Word, side: Side) -> Result<Tree, TurnFault>
    requires short { length doc.now < 4294967295 }
    requires text { IsSound two.now.text }
    requires xml { IsSound two.now.xml }
    ensures tree { IfOk result (λ tree. HasTree (grammar_of two.now side) doc.now (common_of tree)) }
    ensures fits { HaveSameTrees two.now.text two.now.xml → two.now.text.start ≡ two.now.xml.start
        → IfOk result (λ tree. FitsBoth two.now (common_of tree)) }
    ensures foreign { IfErr result (IsRefusal two.now side doc.now) }
{
    let bump = Bump::new(alloc);
    let turned = turn(alloc, &bump, two, side, doc)?;
    Ok(turned.tree)
}

/// The common tree of a derivation of a document of a side: that of a guess that was checked, and
/// where there is none by turning the document.
///
/// `Foreign`, when the tree fits on either side, and the time are as with `translate`.
pub fn parse(alloc: Global, two: &Two, side: Side, doc: &Word) -> Result<Tree, TurnFault>
    requires text { IsSound two.now.text }
    requires xml { IsSound two.now.xml }
    requires short { length doc.now < 4294967295 }
    ensures tree { IfOk result (λ tree. HasTree (grammar_of two.now side) doc.now (common_of tree)) }
    ensures fits { HaveSameTrees two.now.text two.now.xml → two.now.text.start ≡ two.now.xml.start
        → IfOk result (λ tree. FitsBoth two.now (common_of tree)) }
    ensures foreign { IfErr result (IsRefusal two.now side doc.now) }
{
    match guessed_tree(alloc, two.gram(side), doc)? {
        Some(tree) => Ok(tree),
        None => turned_tree(alloc, two, doc, side),
    }
}
