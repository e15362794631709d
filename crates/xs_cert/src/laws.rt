ghost use Rattle.xs_cert.specs.Laws.{ProofPasses};

/// What `prove` wrote of two grammars passes `certify` for the same grammars: that can fail for want
/// of memory alone.
pub fn proof_passes()
    ensures { ProofPasses }
{}
