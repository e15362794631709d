use xs_class::Sym;

/// A piece of a word that leads through two nets: a symbol, or all that is read by two calls over
/// groups that share a word, the one of the first net and the one of the second.
#[derive(Clone, Copy, Debug)]
pub enum Piece {
    Symbol(Sym),
    Groups(u32, u32),
}
