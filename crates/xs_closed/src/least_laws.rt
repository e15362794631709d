ghost use Rattle.xs_closed.specs.Laws.{LeastIsApart, LeastIsClear, ReachedIsShared, ReachedIsOverlap};

/// What is reached is right where it has no pair of two final states, and within all that is right.
pub fn least_sets_are_right()
    ensures apart { LeastIsApart }
    ensures clear { LeastIsClear }
{}

/// Two final states that are reached show a word that both nets accept, or words that overlap,
/// where related groups share a word.
pub fn reached_shows()
    ensures shared { ReachedIsShared }
    ensures overlap { ReachedIsOverlap }
{}
