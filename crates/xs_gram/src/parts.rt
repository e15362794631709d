use xs_class::{Listed, Sym, Word};
use xs_regex::{Position, Regex};

/// An item of a rule on one side: a fixed word, a terminal or a nonterminal with its slot, or an
/// ignorable, each by its number.
#[derive(Debug, Drop)]
pub enum GItem {
    Fixed(Word),
    Term { term: u32, slot: u32 },
    Non { non: u32, slot: u32 },
    Skip { skip: u32 },
}

/// The items of a rule, in order.
pub type GItems = Listed<GItem>;

/// For each spread item of a rule the number of the right fence that closes it, if it is a left one.
pub type Partners = Listed<Option<u32>>;

/// A rule: its nonterminal and its items.
#[derive(Debug, Drop)]
pub struct RulePart {
    pub non: u32,
    pub items: GItems,
}

/// An ignorable: its regex and its normal spelling.
#[derive(Debug, Drop)]
pub struct SkipPart {
    pub regex: Regex,
    pub normal: Word,
}

pub type Rules = Listed<RulePart>;

pub type Regexes = Listed<Regex>;

pub type Skips = Listed<SkipPart>;

/// Pairs of symbols, a left one and a right one, that enclose groups of a rule's items.
pub type Fences = Listed<(Sym, Sym)>;

/// What a grammar is built from.
#[derive(Debug, Drop)]
pub struct GramParts {
    pub start: u32,
    pub nons: u32,
    pub rules: Rules,
    pub terms: Regexes,
    pub skips: Skips,
    pub fences: Fences,
}

/// A terminal of a grammar: its regex, and the position automaton that accepts its words.
#[derive(Debug, Drop)]
pub struct Terminal {
    pub regex: Regex,
    pub automaton: Position,
}

/// An ignorable of a grammar: its regex, the position automaton that accepts its words, and its
/// normal spelling.
#[derive(Debug, Drop)]
pub struct Ignorable {
    pub regex: Regex,
    pub automaton: Position,
    pub normal: Word,
}
