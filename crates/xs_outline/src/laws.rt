ghost use Rattle.xs_outline.specs.Laws.{HasOneTree, WrittenHasTree, WrittenIsOutline, LeadsToTree, BeginsTree};

/// An outline is of one tree.
pub fn one_tree()
    ensures { HasOneTree }
{}

/// The lines that are written of a tree are lines of it.
pub fn written_has_tree()
    ensures { WrittenHasTree }
{}

/// What is written of a tree is an outline of it, where the sheet was read.
pub fn written_is_outline()
    ensures { WrittenIsOutline }
{}

/// The lines of a tree are those that lead to it one by one.
pub fn leads_to_tree()
    ensures { LeadsToTree }
{}

/// The lines that begin those of some tree are those that may come one by one: with each of them
/// some more lead to a whole tree.
pub fn begins_tree()
    ensures { BeginsTree }
{}
