/// What a token is.
#[derive(Clone, Copy, Debug, PartialEq, Eq)]
pub enum Kind {
    /// A name without a colon.
    Plain,
    /// Two plain names with a colon between them.
    Qual,
    /// Characters between quotation marks.
    Quoted,
    /// A regular expression between slashes.
    Pattern,
    /// `:`
    Colon,
    /// `=`
    Equals,
    /// `[`
    SquareIn,
    /// `]`
    SquareOut,
    /// `<`
    Angle,
    /// `</`
    AngleSlash,
    /// `>`
    AngleEnd,
    /// `/>`
    SlashEnd,
    /// The end of the file, of length 0.
    End,
    /// A place where no token can be read, of length 0.
    Bad,
}
