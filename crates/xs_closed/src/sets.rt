use crate::PairSet;

/// The four sets of a cut: pairs of states of its front that one word leads to; beside them, where
/// the first is final, states of the rest before anything is read; pairs of the front and the rest
/// after something was read; and pairs of states of the rest.
#[derive(Debug, Drop)]
pub struct CutSets {
    pub fronts: PairSet,
    pub pauses: PairSet,
    pub middles: PairSet,
    pub rests: PairSet,
}
