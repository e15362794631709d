ghost use Rattle.std.specs.Prelude.{◌≡◌};
ghost use Rattle.xs_xml_out.specs.Written.{symbol_kind};

use xs_class::{ATTR_END, STRANGE, Sym};

/// What a symbol is: a character by its code point, or a mark.
#[derive(Clone, Copy)]
pub enum SymbolKind {
    Char(u32),
    /// The end of an attribute's value.
    ValueEnd,
    /// In place of the marks of a name that is not in the list.
    Strange,
    Opening(u32),
    Attribute(u32),
    Closing(u32),
}

/// What the symbol is.
#[tactic(auto, unfolding(crate::specs::Written::symbol_kind))]
#[inline(always)]
pub fn symbol_kind(symbol: Sym) -> SymbolKind
    ensures { result ≡ symbol_kind symbol }
{
    if symbol < ATTR_END {
        return SymbolKind::Char(symbol.number());
    }
    if symbol == ATTR_END {
        return SymbolKind::ValueEnd;
    }
    if symbol == STRANGE {
        return SymbolKind::Strange;
    }
    let past = symbol.number() - Sym::opening(0).number();
    let k = past / 3;
    match past % 3 {
        0 => SymbolKind::Opening(k),
        1 => SymbolKind::Attribute(k),
        _ => SymbolKind::Closing(k),
    }
}
