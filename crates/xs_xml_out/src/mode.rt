ghost use Rattle.std.specs.Prelude.{◌≡◌};
ghost use Rattle.xs_xml_out.specs.Written.{next};

use crate::kind::SymbolKind;

/// Where a symbol stands: in content, in a start tag that is not ended yet, or in a value.
#[derive(Clone, Copy)]
pub enum Mode {
    Content,
    Tag,
    Value,
}

/// Where the symbol after this one stands.
pub fn after(mode: Mode, kind: SymbolKind) -> Mode
    ensures { result ≡ next mode kind }
{
    match (mode, kind) {
        (Mode::Value, SymbolKind::Char(_)) => Mode::Value,
        (_, SymbolKind::Char(_)) => Mode::Content,
        (_, SymbolKind::Opening(_)) => Mode::Tag,
        (_, SymbolKind::Attribute(_)) => Mode::Value,
        (_, SymbolKind::ValueEnd) => Mode::Tag,
        (_, SymbolKind::Closing(_)) => Mode::Content,
        (_, SymbolKind::Strange) => mode,
    }
}
