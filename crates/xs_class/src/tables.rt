ghost use Rattle.std.specs.Prelude.{◌↔◌, IsTrue};
ghost use Rattle.xs_class.specs.Tables.{IsChar, IsNameStart, IsNameChar};

/// Whether the number is a character of XML 1.0 (fifth edition, section 2.2).
pub fn is_char(c: u32) -> bool
    ensures { IsTrue result ↔ IsChar c }
{
    matches!(c, 0x9 | 0xA | 0xD | 0x20..=0xD7FF | 0xE000..=0xFFFD | 0x10000..=0x10FFFF)
}

/// Whether a name of XML 1.0 may begin with the character (fifth edition, section 2.3).
pub fn is_name_start(c: u32) -> bool
    ensures { IsTrue result ↔ IsNameStart c }
{
    matches!(
        c,
        0x3A | 0x41..=0x5A | 0x5F | 0x61..=0x7A | 0xC0..=0xD6 | 0xD8..=0xF6 | 0xF8..=0x2FF
            | 0x370..=0x37D | 0x37F..=0x1FFF | 0x200C..=0x200D | 0x2070..=0x218F | 0x2C00..=0x2FEF
            | 0x3001..=0xD7FF | 0xF900..=0xFDCF | 0xFDF0..=0xFFFD | 0x10000..=0xEFFFF
    )
}

/// Whether a name of XML 1.0 may hold the character (fifth edition, section 2.3).
pub fn is_name_char(c: u32) -> bool
    ensures { IsTrue result ↔ IsNameChar c }
{
    is_name_start(c)
        || matches!(c, 0x2D | 0x2E | 0x30..=0x39 | 0xB7 | 0x300..=0x36F | 0x203F..=0x2040)
}
