ghost use Rattle.std.specs.Prelude.{IfOk, IfErr};
ghost use Rattle.xs_class.specs.declared.side.Side.TheVariants as S;
ghost use Rattle.xs_chars.specs.declared.form.Form.TheVariants.{AsIs};
ghost use Rattle.xs_gram.specs.Common.{Common};
ghost use Rattle.xs_tree.specs.{common_of};
ghost use Rattle.xs_pair.specs.{IsSoundPair};
ghost use Rattle.xs_writing_laws.specs.{CanBeWritten};
ghost use Rattle.xs_turn.specs.{FitsBoth};
ghost use Rattle.xs_top.specs.Answers.{IsTurnedInto, IsWrittenTree, IsUnread};
ghost use Rattle.xs_top.specs.Stops.{StopsBy};

use crate::documents::{documents_are_read_back, read_document, write_document};
use crate::stop::Stop;
use std::alloc::Global;
use xs_chars::Form;
use xs_class::{Bytes, Memory, Side};
use xs_gram::{printed_has_tree, prints_normal};
use xs_pair::Two;
use xs_text_out::print_syms;
use xs_tree::Tree;
use xs_turn::{Rewritten, parse, rewrite};

/// The document of a tree on side `to`.
pub fn written(alloc: Global, two: &Two, to: Side, tree: &Tree) -> Result<Bytes, Memory>
    requires sound { IsSoundPair two.now }
    requires writable { CanBeWritten two.now }
    requires fits { FitsBoth two.now (common_of tree.now) }
    ensures { IfOk result (IsWrittenTree two.now to (common_of tree.now)) }
{
    printed_has_tree();
    let word = print_syms(alloc, two.gram(to), tree)?;
    let bytes = write_document(alloc, to, two.names(), &word)?;
    Ok(bytes)
}

/// The document on side `to` that has the same tree as the document on side `from`. Where a guess of
/// its derivation passes the check, it is written straight from that: no tree is made, and no word.
pub fn turned_into(
    alloc: Global,
    two: &Two,
    from: Side,
    to: Side,
    form: Form,
    bytes: &[u8],
) -> Result<Bytes, Stop>
    requires sound { IsSoundPair two.now }
    requires writable { CanBeWritten two.now }
    ensures answer { IfOk result (λ document. (tree : Common)
        × IsTurnedInto two.now from to form bytes.now tree document) }
    ensures stop { IfErr result (StopsBy (IsUnread two.now from form bytes.now)) }
{
    prints_normal();
    printed_has_tree();
    documents_are_read_back(two.names());
    let doc = read_document(alloc, from, form, two.names(), bytes)?;
    match rewrite(alloc, two, from, to, &doc)? {
        Rewritten::Written(document) => Ok(document),
        Rewritten::Print(word) => {
            let document = write_document(alloc, to, two.names(), &word)?;
            Ok(document)
        }
    }
}

/// A text that was turned into XML: what is written for it, and its tree.
#[derive(Drop)]
pub struct TurnedText {
    pub xml: Bytes,
    pub tree: Tree,
}

/// The XML document that has the same tree as a text, as it is, and that tree.
pub fn turned_text(alloc: Global, two: &Two, text: &[u8]) -> Result<TurnedText, Stop>
    requires sound { IsSoundPair two.now }
    requires writable { CanBeWritten two.now }
    ensures answer { IfOk result (λ turned.
        IsTurnedInto two.now S.Text S.Xml AsIs text.now (common_of turned.tree) turned.xml) }
    ensures stop { IfErr result (StopsBy (IsUnread two.now S.Text AsIs text.now)) }
{
    prints_normal();
    let doc = read_document(alloc, Side::Text, Form::AsIs, two.names(), text)?;
    let tree = parse(alloc, two, Side::Text, &doc)?;
    let xml = written(alloc, two, Side::Xml, &tree)?;
    Ok(TurnedText { xml, tree })
}
