/// A place in a grammar: a rule, the number of its items before the place, and inside a terminal or
/// an ignorable the position of its automaton that was reached.
#[derive(Clone, Copy, Debug, PartialEq, Eq, Hash)]
pub struct Place {
    pub rule: u32,
    pub dot: u32,
    pub inside: Option<u32>,
}
