/// An entry of the stack: the row of the LR state after an item, the place of the document where the
/// item ends, and the item's part of a node.
#[derive(Clone, Copy)]
pub struct Entry {
    pub row: u32,
    pub end: u32,
    pub part: u32,
}

/// How far a document is read: the row of the state, the place of the document, and the number of
/// entries.
#[derive(Clone, Copy)]
pub struct Course {
    pub row: u32,
    pub at: u32,
    pub depth: u32,
}

/// Why reading stopped, with nothing done of the action at hand.
#[derive(Clone, Copy)]
pub enum Stop {
    /// The document is read.
    Accept,
    /// It is not of the language.
    Fail,
    /// The action or one of the lookahead states on the way to it is not known.
    Unknown,
    /// A goto is not known.
    Goto { row: u32, cell: u32 },
    /// There is more than one action.
    Fork,
    /// There is no room for an entry.
    Entries,
    /// There is no room for a node.
    Nodes,
    /// There is no room for a part.
    Parts,
    /// It took too many steps.
    Steps,
}

/// Where and why reading stopped.
#[derive(Clone, Copy)]
pub struct Halt {
    pub course: Course,
    pub stop: Stop,
}
