use crate::sorted::Sorted;
use xs_class::Word;
use xs_gram::Gram;

/// What rows are made of: the grammar, the document, and the marks of its chart, which are the
/// rules that are finished over each stretch of a nonterminal, and for first items of which the
/// last shows from neither side where it begins, the places where it may begin.
#[derive(Drop)]
pub struct Source<'s> {
    pub g: &'s Gram,
    pub doc: &'s Word,
    pub wholes: &'s Sorted,
    pub splits: &'s Sorted,
}
