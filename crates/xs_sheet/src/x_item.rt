use crate::{Item, Items};
use xs_class::{Listed, Text};

/// An attribute of an element: its name, and the items of its value.
#[derive(Debug, Drop)]
pub struct Attr {
    pub name: Text,
    pub value: Items,
}

/// Attributes as they are written.
pub type Attrs = Listed<Attr>;

/// Items of an XML side in order.
pub type XItems = Listed<XItem>;

/// An item of an XML side.
#[derive(Debug, Drop)]
pub enum XItem {
    /// Characters, a slot or an ignorable.
    Plain(Item),
    /// An element with its attributes and its content.
    Element {
        tag: Text,
        attrs: Attrs,
        content: XItems,
    },
}
