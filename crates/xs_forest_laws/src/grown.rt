use crate::SpanKey;
use xs_forest::Forest;

/// The forest of a document, and the number of its root: the row of the start over the whole
/// document.
#[derive(Drop)]
pub struct Grown<'b> {
    pub forest: Forest<'b, SpanKey>,
    pub root: u64,
}
