use xs_class::{Bytes, Memory, Side};

/// Appends the pieces.
pub fn push_all(sheet: &mut Bytes, pieces: &[&[u8]]) -> Result<(), Memory> {
    for piece in pieces {
        sheet.extend(piece)?;
    }
    Ok(())
}

/// Appends the item of a letter: `S`, `T` and `U` are the nonterminals s, t and u, `m`, `q`, `x`,
/// `y` and `z` terminals, each by this name, `k` and `l` ignorables, `w` is the fixed word of an a
/// and a b, and any other letter the fixed word of itself.
fn push_item(sheet: &mut Bytes, letter: u8, name: u8) -> Result<(), Memory> {
    match letter {
        b'S' => push_all(sheet, &[b"[s ", &[name], b"] "]),
        b'T' => push_all(sheet, &[b"[t ", &[name], b"] "]),
        b'U' => push_all(sheet, &[b"[u ", &[name], b"] "]),
        b'm' | b'q' | b'x' | b'y' | b'z' => push_all(
            sheet,
            &[b"[", &[letter], b" ", &[name], b"] "],
        ),
        b'k' | b'l' => push_all(sheet, &[b"[", &[letter], b"] "]),
        b'w' => sheet.extend(b"\"ab\" "),
        _ => push_all(sheet, &[b"\"", &[letter], b"\" "]),
    }
}

/// Appends the items of a rule, without ignorables if it is that of XML.
pub fn push_items(sheet: &mut Bytes, side: Side, letters: &[u8]) -> Result<(), Memory> {
    let mut name = b'a';
    for letter in letters {
        let is_left_out = side == Side::Xml && (*letter == b'k' || *letter == b'l');
        if !is_left_out {
            push_item(sheet, *letter, name)?;
        }
        name = name.wrapping_add(1);
    }
    Ok(())
}
