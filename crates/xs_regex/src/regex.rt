use xs_class::Class;

/// A regular expression over classes of symbols.
///
/// `Times` matches at least as many words of the inner regex as its first number, and at most as
/// many as its second, where there is one.
#[derive(Debug, Drop)]
pub enum Regex {
    Empty,
    Set(Class),
    Then(Box<Regex>, Box<Regex>),
    Or(Box<Regex>, Box<Regex>),
    Star(Box<Regex>),
    Times(Box<Regex>, u32, Option<u32>),
}
