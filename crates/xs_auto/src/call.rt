/// A call of a group, which leads to a state.
#[derive(Clone, Copy, Debug)]
pub struct Call {
    pub group: u32,
    pub to: u32,
}
