use xs_class::{Side, Word};

/// What makes a grammar suspect of ambiguity.
#[derive(Debug, Drop)]
pub enum Suspect {
    /// Two rules of one nonterminal, and a word that is loose for both.
    Vertical {
        side: Side,
        rule: u32,
        rule2: u32,
        word: Word,
    },
    /// A cut of a rule: `x` and `x a` are loose for the items before it, `y` and `a y` for the
    /// rest, and `a` is not empty. The cut is the number of items before it.
    Horizontal {
        side: Side,
        rule: u32,
        cut: u32,
        x: Word,
        a: Word,
        y: Word,
    },
}
