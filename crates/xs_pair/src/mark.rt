use xs_class::{Listed, Text};
use xs_sheet::Item;

/// A part of a side that is laid out flat.
#[derive(Debug, Drop)]
pub enum Mark {
    /// The opening of an element, with the names of its attributes as they are written.
    Opening { tag: Text, attributes: Listed<Text> },
    /// An attribute, whose value follows.
    Attribute(Text),
    /// The end of an attribute's value.
    AttributeEnd,
    /// The closing of an element.
    Closing(Text),
    /// An item of an attribute's value.
    Value(Item),
    /// An item outside attributes.
    Content(Item),
}

/// Marks in order.
pub type Marks = Listed<Mark>;
