ghost use Rattle.xs_loose.specs.Laws.{LightIsLaid, IsLaidOnce, NestsAreFenced, NetsAcceptLoose, NetsAreTame};

/// A light stretch can be laid, in one way, and takes as many states as it weighs.
pub fn laid_in_one_way()
    ensures laid { LightIsLaid }
    ensures once { IsLaidOnce }
{}

/// The net of a stretch accepts exactly its loose words.
pub fn nets_accept_loose()
    ensures { NetsAcceptLoose }
{}

/// The nest of a grammar may be searched: no class in it has a fence symbol, and no symbol is in two
/// fences or on both sides of one.
pub fn nests_are_fenced()
    ensures { NestsAreFenced }
{}

/// The net of a stretch may be searched over that nest.
pub fn nets_are_tame()
    ensures { NetsAreTame }
{}
