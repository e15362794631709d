use xs_class::Listed;

/// The premises of a clause, in any order.
pub type Premises = Listed<u32>;

/// A flag for each number from 0 on.
pub type Flags = Listed<bool>;

/// A clause: its head is made where all its premises are.
#[derive(Debug, Drop)]
pub struct Clause {
    pub head: u32,
    pub premises: Premises,
}
