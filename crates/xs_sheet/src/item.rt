use xs_class::{Listed, Text};

/// An item of a text side, of an attribute's value, or of the content of an XML side.
#[derive(Debug, Drop)]
pub enum Item {
    /// These characters.
    Fixed(Text),
    /// The slot, which holds what the unit of this name gives.
    Named { name: Text, slot: Text },
    /// The ignorable of this name.
    Skip { name: Text },
}

/// Items in order.
pub type Items = Listed<Item>;
