use crate::Leaves;
use xs_coarse::Labels;
use xs_gram::Gram;
use xs_regex::Numbers;

/// A grammar with its labels and the nets of its terminals and ignorables, and for each rule how many
/// groups the rules before it have.
#[derive(Clone, Copy)]
pub(crate) struct Site<'s> {
    pub g: &'s Gram,
    pub labels: &'s Labels,
    pub leaves: &'s Leaves,
    pub groups: &'s Numbers,
}
