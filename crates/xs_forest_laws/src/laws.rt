ghost use Rattle.xs_forest_laws.specs.Laws.{UnfoldingFits, FittingIsUnfolded, ReadingIsOnce, RootIsExact, FirstUnfolds, GrownIsRight, AddedIsGrown, ChildrenComeFirst, GrownIsExact, NumberedIsListed};

/// Each unfolding of a row reads as parts for the items of its label that spell its stretch.
pub fn unfolding_fits()
    ensures { UnfoldingFits }
{}

/// All parts for the items of a row's label that spell its stretch are read from an unfolding of
/// it.
pub fn fitting_is_unfolded()
    ensures { FittingIsUnfolded }
{}

/// Two unfoldings of a row that read the same are the same.
pub fn reading_is_once()
    ensures { ReadingIsOnce }
{}

/// The unfoldings of the root are exactly the derivations of the document, each once.
pub fn root_is_exact()
    ensures { RootIsExact }
{}

/// Each row that has an unfolding has one by the first alternative of each row.
pub fn first_unfolds()
    ensures { FirstUnfolds }
{}

/// A forest that is grown by a document's chart is right.
pub fn grown_is_right()
    ensures { GrownIsRight }
{}

/// The forest without rows is grown, and a grown forest with one more row that fits it is grown.
pub fn added_is_grown()
    ensures { AddedIsGrown }
{}

/// Where rows are made in the order of their labels, the children of the next row are there.
pub fn children_come_first()
    ensures { ChildrenComeFirst }
{}

/// A grown forest with a row for each label of the chart has a root whose unfoldings are exactly
/// the derivations of the document.
pub fn grown_is_exact()
    ensures { GrownIsExact }
{}

/// Derivations that are read from the unfoldings of the root by their numbers are a listing.
pub fn numbered_is_listed()
    ensures { NumberedIsListed }
{}
