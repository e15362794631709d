use crate::children::Child;
use xs_class::Sym;

/// Where the steps of a production begin and end among those of all productions.
#[derive(Clone, Copy)]
pub struct StepRow {
    pub begin: usize,
    pub end: usize,
}

/// A piece of what a production prints: a stretch of text, and then what stands at a slot.
#[derive(Clone, Copy)]
pub struct Step {
    pub begin: usize,
    pub end: usize,
    pub child: Child,
}

/// What all productions print of a table's nodes: the steps of each, and the text that they print by
/// themselves.
#[derive(Drop)]
pub struct Steps {
    pub rows: Vec<StepRow>,
    pub all: Vec<Step>,
    pub text: Vec<Sym>,
}
