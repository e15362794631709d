ghost use Rattle.std.specs.Prelude.{◌≡◌, ◌↔◌, IsTrue};
ghost use Rattle.std.specs.Char.{IsScalar};
ghost use Rattle.xs_xml_out.specs.Spelling.{IsKnownSymbol, AreKnown};

use crate::kind::{SymbolKind, symbol_kind};
use crate::tags::Tags;
use xs_class::Sym;

/// Whether this is the number of a character.
fn is_character(code: u32) -> bool
    ensures { IsTrue result ↔ IsScalar code }
{
    char::from_u32(code).is_some()
}

/// Whether a symbol can be written: a character, or a mark of one of the names.
fn is_known(tags: &Tags, symbol: Sym) -> bool
    ensures { IsTrue result ↔ IsKnownSymbol tags.now symbol }
{
    match symbol_kind(symbol) {
        SymbolKind::Char(code) => is_character(code),
        SymbolKind::Opening(k) => tags.has(k),
        SymbolKind::Attribute(k) => tags.has(k),
        SymbolKind::Closing(k) => tags.has(k),
        SymbolKind::ValueEnd => true,
        SymbolKind::Strange => true,
    }
}

/// Whether each symbol can be written: a character, or a mark of one of the names.
pub fn are_known(tags: &Tags, symbols: &[Sym]) -> bool
    ensures { IsTrue result ↔ AreKnown tags.now symbols.now }
{
    'symbols: for symbol in symbols {
        if !is_known(tags, *symbol) {
            return false;
        }
    }
    true
}
