ghost use Rattle.xs_cert_lines.specs.Laws.{LinesAreOne, LinesGoOn, LinesAfterLines, SpacedIsLine, SetsAreLines, RowsBeginWithDigits, PairsAreOne};

/// Lines that stand one after another are read in one way: each ends at its first line feed, a
/// row's line begins with a digit, and two numbers after a text are no other two.
pub fn lines_are_read_once()
    ensures lines { LinesAreOne }
    ensures longer { LinesGoOn }
    ensures both { LinesAfterLines }
    ensures spaced { SpacedIsLine }
    ensures sets { SetsAreLines }
    ensures rows { RowsBeginWithDigits }
    ensures pairs { PairsAreOne }
{}
