use xs_class::Listed;

/// The components of a grammar: a number for each nonterminal, the same for two exactly where they
/// are mutually recursive or the same.
pub type Comps = Listed<u32>;
