// The items of a line.
ghost use Rattle.std.specs.Prelude.{◌≡◌, ◌<◌, ◌++◌, OnOk};
ghost use Rattle.xs_leiden.specs.Made.{item as item_at, item_of, after_item, after_item_of, more_items, after_items, word as word_drawn, digit};
ghost use Rattle.xs_leiden.specs.Draws.{next};

use crate::draws::Draws;
use crate::words::word;
use xs_class::{Bytes, Memory};

/// Appends a word that is drawn, between these bytes.
fn push_word(text: &mut Bytes, draws: &mut Draws, before: &[u8], after: &[u8]) -> Result<(), Memory>
    ensures text { OnOk result (text.new ≡ text.old ++ (before.now ++ word_drawn draws.old.state ++ after.now)) }
    ensures state { OnOk result (draws.new.state ≡ next draws.old.state) }
{
    text.extend(before)?;
    let (plain, _) = word(draws.draw(8));
    text.extend(plain.as_bytes())?;
    text.extend(after)?;
    Ok(())
}

/// Appends a digit from 1 to 9 that is drawn, between these bytes.
fn push_digit(
    text: &mut Bytes,
    draws: &mut Draws,
    before: &[u8],
    after: &[u8],
) -> Result<(), Memory>
    ensures text { OnOk result (text.new ≡ text.old ++ (before.now ++ digit draws.old.state ++ after.now)) }
    ensures state { OnOk result (draws.new.state ≡ next draws.old.state) }
{
    text.extend(before)?;
    let number = draws.draw(9);
    text.push(b'1' + number as u8)?;
    text.extend(after)?;
    Ok(())
}

/// Appends a word that is drawn, with a dot below each letter.
fn push_dotted(text: &mut Bytes, draws: &mut Draws) -> Result<(), Memory>
    ensures text { OnOk result (text.new ≡ text.old ++ item_of 7 draws.old.state) }
    ensures state { OnOk result (draws.new.state ≡ next draws.old.state) }
{
    let (_, dotted) = word(draws.draw(8));
    text.extend(dotted.as_bytes())?;
    Ok(())
}

/// Appends a word with its ending expanded, both drawn.
fn push_expanded(text: &mut Bytes, draws: &mut Draws) -> Result<(), Memory>
    ensures text { OnOk result (text.new ≡ text.old ++ item_of 6 draws.old.state) }
    ensures state { OnOk result (draws.new.state ≡ next (next draws.old.state)) }
{
    push_word(text, draws, b"(", b"(")?;
    push_word(text, draws, b"", b"))")?;
    Ok(())
}

/// Appends an item of this kind.
fn push_kind(text: &mut Bytes, draws: &mut Draws, kind: u32) -> Result<(), Memory>
    ensures text { OnOk result (text.new ≡ text.old ++ item_of kind draws.old.state) }
    ensures state { OnOk result (draws.new.state ≡ after_item_of kind draws.old.state) }
{
    if kind < 3 {
        return push_word(text, draws, b"", b"");
    }
    match kind {
        3 => push_digit(text, draws, b"[.", b"]"),
        4 => push_digit(text, draws, b".", b""),
        5 => push_word(text, draws, b"[", b"]"),
        6 => push_expanded(text, draws),
        _ => push_dotted(text, draws),
    }
}

/// Appends an item, all of it drawn.
pub fn push_item(text: &mut Bytes, draws: &mut Draws) -> Result<(), Memory>
    ensures text { OnOk result (text.new ≡ text.old ++ item_at draws.old.state) }
    ensures state { OnOk result (draws.new.state ≡ after_item draws.old.state) }
{
    let kind = draws.draw(8);
    push_kind(text, draws, kind)?;
    Ok(())
}

/// Appends that many items, each after a space.
pub fn push_items(text: &mut Bytes, draws: &mut Draws, count: u32) -> Result<(), Memory>
    ensures text { OnOk result (text.new ≡ text.old ++ more_items count draws.old.state) }
    ensures state { OnOk result (draws.new.state ≡ after_items count draws.old.state) }
{
    'items: for _place in 0..count {
        text.push(b' ')?;
        push_item(text, draws)?;
    }
    Ok(())
}
