ghost use Rattle.std.specs.Prelude.{◌≡◌, ◌<◌, length, IfOk, IfErr};
ghost use Rattle.xs_forest_laws.specs.{IsForestOf, IsExact};
ghost use Rattle.xs_gram.specs.{InLang, IsSound, print};
ghost use Rattle.xs_tree.specs.{common_of};
ghost use Rattle.xs_pair.specs.{HaveSameTrees, grammar_of};
ghost use Rattle.xs_turn.specs.Stops.{IsStop};
ghost use Rattle.xs_turn.specs.Turned.{FitsBoth, IsRefusal, IsTreeIn, other_side};

use crate::TurnFault;
use bumpalo::Bump;
use std::alloc::Global;
use xs_class::{Side, Word};
use xs_earley::recognise;
use xs_forest_laws::Grown;
use xs_gram::Gram;
use xs_grow::grow_last;
use xs_listing::one_tree;
use xs_pair::Two;
use xs_text_out::print_syms;
use xs_tree::Tree;

/// A document that is turned: its forest, the common tree of one of the derivations in it, and that
/// tree printed on the other side.
#[derive(Drop)]
pub struct Turned<'b> {
    pub grown: Grown<'b>,
    pub tree: Tree,
    pub word: Word,
}

/// The forest of a document of a grammar.
fn grown<'b>(
    alloc: Global,
    bump: &'b Bump<Global>,
    g: &Gram,
    doc: &Word,
) -> Result<Grown<'b>, TurnFault>
    requires sound { IsSound g.now }
    requires short { length doc.now < 4294967295 }
    ensures language { IfOk result (λ _. InLang g.now doc.now) }
    ensures forest { IfOk result (λ grown. IsForestOf g.now doc.now grown.forest grown.root) }
    ensures exact { IfOk result (λ grown. IsExact g.now doc.now grown.forest grown.root) }
    ensures stop { IfErr result (IsStop g.now doc.now) }
{
    let chart = recognise(alloc, g, doc)?;
    let grown = grow_last(alloc, bump, g, chart, doc)?;
    Ok(grown)
}

/// The forest of a document of a side, in an arena: its unfoldings are exactly the derivations of
/// the document, each once.
///
/// `Foreign` is answered as by `turn`. A document without ambiguity takes time linear in its chart.
#[tactic(auto, using(crate::proofs::Sides::refusal_of))]
pub fn forest_of<'b>(
    alloc: Global,
    bump: &'b Bump<Global>,
    two: &Two,
    side: Side,
    doc: &Word,
) -> Result<Grown<'b>, TurnFault>
    requires text { IsSound two.now.text }
    requires xml { IsSound two.now.xml }
    requires short { length doc.now < 4294967295 }
    ensures forest { IfOk result (λ grown. IsForestOf (grammar_of two.now side) doc.now grown.forest grown.root) }
    ensures exact { IfOk result (λ grown. IsExact (grammar_of two.now side) doc.now grown.forest grown.root) }
    ensures foreign { IfErr result (IsRefusal two.now side doc.now) }
{
    let grown = grown(alloc, bump, two.gram(side), doc)?;
    Ok(grown)
}

/// The other side.
fn other(side: Side) -> Side
    ensures { result ≡ other_side side }
{
    match side {
        Side::Text => Side::Xml,
        Side::Xml => Side::Text,
    }
}

/// Turns a document of a side: its forest in an arena, whose unfoldings are exactly the derivations
/// of the document, each once; the common tree of one of these; and the word of the other side that
/// has this tree.
///
/// `Foreign` is answered exactly where the document has no derivation, with the greatest number of
/// its leading symbols that begin some document of its side. Where the two grammars have the same
/// trees and the same start, the tree fits on either side. A document without ambiguity takes time
/// linear in its chart and the two words.
#[tactic(auto, using(crate::proofs::Sides::refusal_of))]
pub fn turn<'b>(
    alloc: Global,
    bump: &'b Bump<Global>,
    two: &Two,
    side: Side,
    doc: &Word,
) -> Result<Turned<'b>, TurnFault>
    requires text { IsSound two.now.text }
    requires xml { IsSound two.now.xml }
    requires short { length doc.now < 4294967295 }
    ensures forest { IfOk result (λ t. IsForestOf (grammar_of two.now side) doc.now t.grown.forest t.grown.root) }
    ensures exact { IfOk result (λ t. IsExact (grammar_of two.now side) doc.now t.grown.forest t.grown.root) }
    ensures tree { IfOk result (λ t. IsTreeIn (grammar_of two.now side) doc.now t.grown.forest t.grown.root (common_of t.tree)) }
    ensures word { IfOk result (λ t. t.word ≡ print (grammar_of two.now (other_side side)) (common_of t.tree)) }
    ensures fits { HaveSameTrees two.now.text two.now.xml → two.now.text.start ≡ two.now.xml.start
        → IfOk result (λ t. FitsBoth two.now (common_of t.tree)) }
    ensures foreign { IfErr result (IsRefusal two.now side doc.now) }
{
    let g = two.gram(side);
    let grown = grown(alloc, bump, g, doc)?;
    let tree = one_tree(alloc, &grown, g, doc)?;
    let word = print_syms(alloc, two.gram(other(side)), &tree)?;
    Ok(Turned { grown, tree, word })
}
