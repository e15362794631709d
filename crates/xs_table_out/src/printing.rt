use crate::steps::Steps;
use xs_class::Sym;
use xs_gram::Gram;
use xs_parse_table::ParseTable;

/// What is printed: the tree of the derivation that a table means, of a document of the grammar
/// `from`, by the grammar `to`, as steps that are made of the two grammars.
#[derive(Clone, Copy)]
pub struct Printing<'p> {
    pub from: &'p Gram,
    pub to: &'p Gram,
    pub steps: &'p Steps,
    pub doc: &'p [Sym],
    pub table: &'p ParseTable,
}
