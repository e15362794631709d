/// A fixed word that is being read: the state and the origin of the item before it, and how many of
/// its symbols were read.
#[derive(Clone, Copy, Debug)]
pub struct Begun {
    pub state: u32,
    pub origin: u32,
    pub count: u32,
}
