ghost use Rattle.xs_chars.specs.Laws.{IsReadBack, IsDecodedBack};

/// A word of characters, written as a text and read as it is, is that word.
pub fn text_is_read_back()
    ensures { IsReadBack }
{}

/// A word of characters, encoded and decoded, is that word.
pub fn encoded_is_decoded()
    ensures { IsDecodedBack }
{}
