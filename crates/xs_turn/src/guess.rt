ghost use Rattle.std.specs.Prelude.{◌≡◌, IfOk, IfSome};
ghost use Rattle.xs_gram.specs.{Derivation, Derives, HasTree, IsBuilt, print, strip};
ghost use Rattle.xs_parse_table.specs.{IsTreeOf};
ghost use Rattle.xs_tree.specs.{common_of};
ghost use Rattle.xs_table_out.specs.{document_bytes};

use crate::table::tree_of;
use std::alloc::Global;
use xs_atoms::Atoms;
use xs_class::{Bytes, Memory, Names, Side, Word};
use xs_gram::Gram;
use xs_lr::{PADDING, read};
use xs_parse_table::{ParseTable, Validator};
use xs_table_out::{document_of_table, print_table};
use xs_tree::Tree;

/// A parse table that was guessed and that means a derivation of the document, or None where none
/// was guessed, or where the check did not find that it means one.
fn table_of(alloc: Global, g: &Gram, doc: &Word) -> Result<Option<ParseTable>, Memory>
    requires { IsBuilt g.now }
    ensures { IfOk result (λ o. IfSome o (λ table. (d : Derivation) × IsTreeOf table doc.now d × Derives g.now doc.now d)) }
{
    let Some(atoms) = Atoms::of(alloc, g)? else {
        return Ok(None);
    };
    let word = atoms.word(alloc, doc.as_slice(), PADDING)?;
    let Some(table) = read(alloc, g, &atoms, &word)? else {
        return Ok(None);
    };
    let validator = Validator::of(alloc, g, &atoms)?;
    if validator.validate(g, doc.as_slice(), &word, &table) {
        Ok(Some(table))
    } else {
        Ok(None)
    }
}

/// The tree of a derivation of the document that was guessed and checked, or None.
pub fn guessed_tree(alloc: Global, g: &Gram, doc: &Word) -> Result<Option<Tree>, Memory>
    requires { IsBuilt g.now }
    ensures { IfOk result (λ o. IfSome o (λ tree. HasTree g.now doc.now (common_of tree))) }
{
    let Some(table) = table_of(alloc, g, doc)? else {
        return Ok(None);
    };
    let tree = tree_of(alloc, g, doc.as_slice(), &table)?;
    Ok(tree)
}

/// The tree of a derivation of the document that was guessed and checked, printed by another grammar
/// or the same, or None. No tree is made.
pub fn guessed_word(
    alloc: Global,
    from: &Gram,
    to: &Gram,
    doc: &Word,
) -> Result<Option<Word>, Memory>
    requires { IsBuilt from.now }
    ensures { IfOk result (λ o. IfSome o (λ word. (d : Derivation) × Derives from.now doc.now d
        × (word ≡ print to.now (strip from.now d)))) }
{
    let Some(table) = table_of(alloc, from, doc)? else {
        return Ok(None);
    };
    let word = print_table(alloc, from, to, doc.as_slice(), &table)?;
    Ok(word)
}

/// The document, on a side whose grammar is `to`, of the tree of a derivation that was guessed and
/// checked, or None. Neither the tree nor its word is made.
pub fn guessed_document(
    alloc: Global,
    side: Side,
    names: &Names,
    from: &Gram,
    to: &Gram,
    doc: &Word,
) -> Result<Option<Bytes>, Memory>
    requires { IsBuilt from.now }
    ensures { IfOk result (λ o. IfSome o (λ bytes. (d : Derivation) × Derives from.now doc.now d
        × (bytes ≡ document_bytes side names.now (print to.now (strip from.now d))))) }
{
    let Some(table) = table_of(alloc, from, doc)? else {
        return Ok(None);
    };
    let bytes = document_of_table(alloc, side, names, from, to, doc.as_slice(), &table)?;
    Ok(bytes)
}
