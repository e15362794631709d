use crate::{Attr, Item, Sheet, Unit, XItem};
use xs_class::Text;
use xs_regex::Regex;

/// The version, the start and the units so far.
#[derive(Drop)]
pub struct Head {
    pub version: u32,
    pub start: Text,
    pub start_line: u32,
    pub units: Vec<Unit>,
}

/// A unit that began with `terminal`, or where that is false with `ignorable`.
#[derive(Drop)]
pub struct Begun {
    pub head: Head,
    pub terminal: bool,
    pub line: u32,
}

/// A production whose XML side is being read.
#[derive(Drop)]
pub struct Draft {
    pub head: Head,
    pub name: Text,
    pub line: u32,
    pub left: Vec<Item>,
}

/// An element that has not ended, and what stands before it.
#[derive(Drop)]
pub struct Opened {
    pub tag: Text,
    pub attrs: Vec<Attr>,
    pub outer: Vec<XItem>,
}

/// The elements that have not ended, the innermost last, and the content of that one so far.
#[derive(Drop)]
pub struct Inside {
    pub draft: Draft,
    pub opens: Vec<Opened>,
    pub content: Vec<XItem>,
}

/// An element's first tag so far, and what stands before it.
#[derive(Drop)]
pub struct Tag {
    pub inside: Inside,
    pub name: Text,
    pub attrs: Vec<Attr>,
}

/// An attribute whose value is being read.
#[derive(Drop)]
pub struct Value {
    pub tag: Tag,
    pub name: Text,
    pub items: Vec<Item>,
}

/// Where an item may stand.
#[derive(Drop)]
pub enum Site {
    /// In a text side, whose items so far the production has.
    LeftSide(Draft),
    Content(Inside),
    Value(Value),
}

/// What the reader has come to outside the sides of a production.
#[derive(Drop)]
pub enum UnitState {
    /// At the front.
    Begin,
    /// After the word of this version.
    Versioned(u32),
    /// After the word `start`.
    Started {
        version: u32,
        line: u32,
    },
    /// Between units.
    Units(Head),
    /// After `terminal` or `ignorable`.
    Named(Begun),
    /// After the name.
    Equals(Begun, Text),
    /// After the `=`.
    Regular(Begun, Text),
    /// After an ignorable's pattern.
    Normal {
        head: Head,
        line: u32,
        name: Text,
        pattern: Text,
        regex: Regex,
    },
    /// After `fence`.
    LeftFence {
        head: Head,
        line: u32,
    },
    /// After a fence's first text.
    RightFence {
        head: Head,
        line: u32,
        left: Text,
    },
    /// After a production's name.
    Colon {
        head: Head,
        name: Text,
        line: u32,
    },
}

/// What the reader has come to at an item.
#[derive(Drop)]
pub enum ItemState {
    /// Where an item may stand.
    At(Site),
    /// After `[`.
    Square(Site),
    /// After the name in brackets.
    SquareName(Site, Text),
    /// After the slot in brackets.
    SquareSlot(Site, Text, Text),
}

/// What the reader has come to inside a tag.
#[derive(Drop)]
pub enum TagState {
    /// After `<`.
    Angle(Inside),
    /// After a tag's name and attributes.
    Attrs(Tag),
    /// After an attribute's name.
    AttrEquals(Tag, Text),
    /// After the `</` of an element whose content this is.
    Closing(Inside, Opened),
    /// After `</` and the tag.
    Closed(Inside, Opened),
}

/// What the reader has come to, which says what may follow.
#[derive(Drop)]
pub enum State {
    Unit(UnitState),
    Item(ItemState),
    Tag(TagState),
}

/// Where one more piece leads.
#[derive(Drop)]
pub enum Transition {
    Go(State),
    Finish(Sheet),
    Refuse,
}
