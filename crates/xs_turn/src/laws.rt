ghost use Rattle.xs_turn.specs.Laws.{StrippedFits};

/// The tree of a derivation of a nonterminal is a tree of that nonterminal.
pub fn stripped_fits()
    ensures { StrippedFits }
{}
