ghost use Rattle.std.specs.Prelude.{◌≡◌, IfOk, IfSome};
ghost use Rattle.xs_gram.specs.{Derivation, Derives, IsBuilt, print, strip};
ghost use Rattle.xs_parse_table.specs.{IsTreeOf};
ghost use Rattle.xs_table_out.specs.Documents.{document_bytes};

use crate::layout::steps_of;
use crate::printing::Printing;
use crate::text::text_of_table;
use crate::xml::xml_of_table;
use std::alloc::Global;
use xs_class::{Bytes, Memory, Names, Side, Sym};
use xs_gram::Gram;
use xs_parse_table::ParseTable;
use xs_text_out::pieces_of;

/// The document, on a side whose grammar is `to`, of the tree of the derivation that a table means
/// of a document of the grammar `from`; None where a part of the table is not right, or where a
/// symbol cannot be written. In time linear in the squares of the productions' items, the nodes, the
/// names and the two documents.
pub fn document_of_table(
    alloc: Global,
    side: Side,
    names: &Names,
    from: &Gram,
    to: &Gram,
    doc: &[Sym],
    table: &ParseTable,
) -> Result<Option<Bytes>, Memory>
    requires { IsBuilt from.now }
    ensures { IfOk result (λ o. IfSome o (λ bytes. (d : Derivation) → IsTreeOf table.now doc.now d → Derives from.now doc.now d
        → bytes ≡ document_bytes side names.now (print to.now (strip from.now d)))) }
{
    let steps = steps_of(alloc, from, to, pieces_of(alloc, to)?)?;
    let printing = Printing {
        from,
        to,
        steps: &steps,
        doc,
        table,
    };
    match side {
        Side::Text => text_of_table(alloc, &printing),
        Side::Xml => xml_of_table(alloc, names, &printing),
    }
}
