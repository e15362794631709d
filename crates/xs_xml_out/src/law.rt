ghost use Rattle.xs_xml_out.specs.Laws.{IsReadBack, IsDecoded, WrittenIsUtf8, BeginsWithTag};

/// XML is read back: where the names are ordered Names of XML, the characters of what is written
/// for a balanced word read as that word, for every such word.
///
/// The bytes are UTF-8, decoding them gives these characters, and no mark U+FEFF stands before them.
pub fn xml_is_read_back()
    ensures read_back { IsReadBack }
    ensures decoded { IsDecoded }
    ensures utf8 { WrittenIsUtf8 }
    ensures begins { BeginsWithTag }
{}
