ghost use Rattle.std.specs.Prelude.{◌≡◌, ◌+◌, ◌≤◌};
ghost use Rattle.xs_lex.specs.Reading.{size_of, line_ends};

/// A place in a file: a number of bytes before it, and its line counted from 1.
#[derive(Clone, Copy)]
pub struct Location {
    pub at: u32,
    pub line: u32,
}

impl Location {
    /// The place after this text.
    pub fn past(self, text: &[char]) -> Location
        requires size { self.at + size_of text.now ≤ 65536 }
        requires lines { self.line + line_ends text.now ≤ 65537 }
        ensures at { result.at ≡ self.at + size_of text.now }
        ensures line { result.line ≡ self.line + line_ends text.now }
    {
        let mut at = self.at;
        let mut line = self.line;
        'text: for c in text {
            at += c.len_utf8() as u32;
            if *c == '\n' {
                line += 1;
            }
        }
        Location { at, line }
    }
}
