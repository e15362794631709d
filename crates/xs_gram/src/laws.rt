ghost use Rattle.xs_gram.specs.Laws.{PrintsNormal, PrintedHasTree};
ghost use Rattle.xs_gram.specs.Cuts.{CutsAreOne};

/// What is printed of a derivation's tree is its yield with each ignorable in its normal spelling.
pub fn prints_normal()
    ensures { PrintsNormal }
{}

/// What is printed of a tree has that tree.
pub fn printed_has_tree()
    ensures { PrintedHasTree }
{}

/// Each cut of a rule's spread items has one front and one rest.
pub fn cuts_are_one()
    ensures { CutsAreOne }
{}
