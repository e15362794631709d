/// The fifteen rules of a well-formed sheet, in the order in which they are reported.
#[derive(Clone, Copy, Debug, PartialEq, Eq)]
pub enum IllRule {
    /// A terminal or an ignorable has the name of an earlier unit, or a production that of an
    /// earlier terminal or ignorable.
    Twice,
    /// An item names no unit.
    Undefined,
    /// The start names no production.
    NoStart,
    /// A slot of a production does not stand exactly once on either side.
    NameOnce,
    /// An item is of another kind than its form, its place or its slot on the other side asks for.
    Kind,
    /// An element has two attributes of one name.
    AttrTwice,
    /// The XML side of a production of the start is not exactly one element.
    RootShape,
    /// A class in a regular expression has no member.
    EmptyClass,
    /// A string or a normal spelling holds a character that XML does not have.
    NotChar,
    /// An ignorable does not match its normal spelling.
    Normal,
    /// A nonterminal derives no word.
    Unproductive,
    /// A nonterminal derives itself alone.
    Loop,
    /// The texts of a fence are not two different single characters, or one is a character of an
    /// earlier fence.
    FenceChar,
    /// A class in a regular expression has a fence character.
    FenceInside,
    /// The fence characters of a text side are not balanced.
    FenceOpen,
}

/// The first rule that fails, and the least line at which it does, counted from 1.
#[derive(Clone, Copy, Debug, PartialEq, Eq)]
pub struct Ill {
    pub rule: IllRule,
    pub line: u32,
}
