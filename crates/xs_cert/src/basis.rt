use xs_auto::Nest;
use xs_closed::PairSet;
use xs_searches::Site;

/// What the blocks of a side are read by: the bytes, the grammar, the nest of its groups, and which
/// of them are said to share a word.
#[derive(Clone, Copy)]
pub struct Basis<'c> {
    pub bytes: &'c [u8],
    pub site: Site<'c>,
    pub nest: &'c Nest,
    pub related: &'c PairSet,
}
