ghost use Rattle.xs_chart_laws.specs.Laws.{ClosedIsComplete, StandingIsClosed, RecogniserCloses, ClosedIsChart, ChartHasStanding, WholeIsInLanguage, ReachedIsFront, FarthestIsViable};

/// Sets that are closed have all that stands.
pub fn closed_is_complete()
    ensures { ClosedIsComplete }
{}

/// What stands is closed.
pub fn standing_is_closed()
    ensures { StandingIsClosed }
{}

/// What a recogniser does closes the sets, where all in them stands.
pub fn recogniser_closes()
    ensures { RecogniserCloses }
{}

/// Sets that are closed and of which all stands, one more than the document has symbols and none
/// with an item twice, are its chart.
pub fn closed_is_chart()
    ensures { ClosedIsChart }
{}

/// A chart has exactly the items that stand.
pub fn chart_has_standing()
    ensures { ChartHasStanding }
{}

/// A document is of the language exactly where a whole rule of the start is read over it.
pub fn whole_is_in_language()
    ensures { WholeIsInLanguage }
{}

/// So many leading symbols begin a word of the language exactly where the document is read up to
/// there.
pub fn reached_is_front()
    ensures { ReachedIsFront }
{}

/// The last place up to which the document is read is the length of its longest viable prefix.
pub fn farthest_is_viable()
    ensures { FarthestIsViable }
{}
