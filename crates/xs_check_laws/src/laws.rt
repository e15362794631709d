ghost use Rattle.xs_check_laws.specs.Laws.{ComponentsAreDecided, WordsAreTheYield, YieldsAreLoose, NoSuspectIsUniqueAt, NoSuspectIsUnique, AcceptedIsUnique, PartWeighsOnce, RuleWeighsOnce};
ghost use Rattle.xs_check_laws.specs.MoreFences.{MoreFencesPartComponents, MoreFencesMakeFewerLoose, MoreFencesMakeFewerVertical, MoreFencesMakeNoHorizontal, MoreFencesMakeNoSuspect, AcceptedStaysAccepted};

/// It is decided of each two nonterminals of a built grammar whether they are of one component.
pub fn components_are_decided()
    ensures { ComponentsAreDecided }
{}

/// The words of the spread items of a derivation's rule, joined in order, are its yield.
pub fn words_are_the_yield()
    ensures { WordsAreTheYield }
{}

/// What each level stretch of a rule's spread items spells in a derivation is loose for it.
pub fn yields_are_loose()
    ensures { YieldsAreLoose }
{}

/// Without suspects a word has at most one derivation, from the start and from each nonterminal.
pub fn no_suspect_is_unique()
    ensures at { NoSuspectIsUniqueAt }
    ensures start { NoSuspectIsUnique }
{}

/// Where the two grammars of a sheet are accepted, each word of either has at most one derivation.
pub fn accepted_is_unique()
    ensures { AcceptedIsUnique }
{}

/// A level stretch has one weight, and so has a rule.
pub fn weights_are_exact()
    ensures part { PartWeighsOnce }
    ensures rule { RuleWeighsOnce }
{}

/// With more fences components are parted further, fewer words are loose for a rule, each vertical
/// suspect is one with fewer fences, and where there was no horizontal one there is none.
pub fn more_fences_make_fewer_suspects()
    ensures components { MoreFencesPartComponents }
    ensures loose { MoreFencesMakeFewerLoose }
    ensures vertical { MoreFencesMakeFewerVertical }
    ensures horizontal { MoreFencesMakeNoHorizontal }
    ensures neither { MoreFencesMakeNoSuspect }
{}

/// What is accepted stays accepted with more fences, where no rule is too heavy.
pub fn accepted_stays_accepted()
    ensures { AcceptedStaysAccepted }
{}
