ghost use Rattle.xs_closed.specs.Laws.{RowsAreMarks, RowsAreOne};

/// The rows of a table are those of a set and have exactly the pairs that are marked, and a set has
/// its rows in one way.
pub fn rows_are_marks()
    ensures marks { RowsAreMarks }
    ensures one { RowsAreOne }
{}
