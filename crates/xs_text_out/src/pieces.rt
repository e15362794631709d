ghost use Rattle.std.specs.Prelude.{◌≡◌, ◌≤◌, ◌++◌, ◌∷◌, [], length, slice_get, slice_range, IfOk, OnOk};
ghost use Rattle.xs_gram.specs.{NamesAreThere};
ghost use Rattle.xs_text_out.specs.Pieces.{ArePieces, AreWithin, IsClosed, IsPut, IsRowPut, piece_to};
ghost use Rattle.xs_text_out.specs.Printed.{AreThere};

use crate::items::items_of;
use std::alloc::Global;
use xs_class::{Memory, Sym};
use xs_gram::{GItem, Gram};

/// Where the pieces of a production begin and end among those of all productions.
#[derive(Clone, Copy)]
pub struct Row {
    pub begin: usize,
    pub end: usize,
}

/// A part of what a production prints: a stretch of the text of all productions, and then what
/// stands at a slot, if the piece has one.
#[derive(Clone, Copy)]
pub struct Piece {
    pub begin: usize,
    pub end: usize,
    pub slot: Option<u32>,
}

/// What all productions print: the pieces of each, and the text that they print by themselves. Fixed
/// words and ignorables that stand next to one another are one stretch of it.
#[derive(Drop)]
pub struct Pieces {
    pub rows: Vec<Row>,
    pub all: Vec<Piece>,
    pub text: Vec<Sym>,
}

/// Puts a piece next for the text that no piece has yet, with this slot after it. The answer is
/// where the text ends.
fn end_piece(
    begin: usize,
    slot: Option<u32>,
    all: &mut Vec<Piece>,
    text: &[Sym],
) -> Result<usize, Memory>
    ensures end { IfOk result (λ end. end ≡ length text.now) }
    ensures put { OnOk result (all.new.items ≡ all.old.items ++ piece_to text.now begin slot ∷ []) }
{
    let end = text.len();
    all.push(Piece { begin, end, slot })?;
    Ok(end)
}

/// Puts an item next: its text, or a piece that ends with its slot. The answer is where the text
/// begins that no piece has yet.
fn push_item(
    g: &Gram,
    item: &GItem,
    begin: usize,
    all: &mut Vec<Piece>,
    text: &mut Vec<Sym>,
) -> Result<usize, Memory>
    requires there { NamesAreThere g.now item.now }
    requires starts { begin ≤ length text.old.items }
    requires within { AreWithin text.old.items all.old.items }
    ensures { IfOk result (λ next. IsPut g.now item.now begin next all.old.items text.old.items all.new.items text.new.items) }
{
    match item {
        GItem::Fixed(word) => {
            text.extend_from_slice(word.as_slice())?;
            Ok(begin)
        }
        GItem::Skip { skip } => {
            text.extend_from_slice(g.normal(*skip).as_slice())?;
            Ok(begin)
        }
        GItem::Term { slot, .. } => {
            let end = end_piece(begin, Some(*slot), all, text)?;
            Ok(end)
        }
        GItem::Non { slot, .. } => {
            let end = end_piece(begin, Some(*slot), all, text)?;
            Ok(end)
        }
    }
}

/// Puts a piece next for the text that no piece has yet, if there is some.
fn push_rest(begin: usize, all: &mut Vec<Piece>, text: &[Sym]) -> Result<(), Memory>
    requires starts { begin ≤ length text.now }
    requires within { AreWithin text.now all.old.items }
    ensures { IfOk result (λ _. IsClosed begin text.now all.old.items all.new.items) }
{
    if begin < text.len() {
        end_piece(begin, None, all, text)?;
    }
    Ok(())
}

/// Puts the pieces of items next, and their text.
fn push_row(
    g: &Gram,
    items: &[GItem],
    all: &mut Vec<Piece>,
    text: &mut Vec<Sym>,
) -> Result<(), Memory>
    requires there { AreThere g.now items.now }
    requires within { AreWithin text.old.items all.old.items }
    ensures { IfOk result (λ _. IsRowPut g.now items.now all.old.items text.old.items all.new.items text.new.items) }
{
    let mut begin = text.len();
    'items: for item in items {
        begin = push_item(g, item, begin, all, text)?;
    }
    push_rest(begin, all, text)?;
    Ok(())
}

/// What the productions of a grammar print, in time linear in their items and the text.
pub fn pieces_of(alloc: Global, g: &Gram) -> Result<Pieces, Memory>
    ensures { IfOk result (ArePieces g.now) }
{
    let mut rows = Vec::with_capacity(alloc, g.rules() as usize)?;
    let mut all = Vec::new(alloc);
    let mut text = Vec::new(alloc);
    'rules: for rule in 0..g.rules() {
        let begin = all.len();
        push_row(g, items_of(g, rule), &mut all, &mut text)?;
        let end = all.len();
        rows.push(Row { begin, end })?;
    }
    Ok(Pieces { rows, all, text })
}

/// The piece at a place, where there is one.
pub fn piece_at(all: &[Piece], place: usize) -> Option<Piece>
    ensures { result ≡ slice_get all.now place }
{
    all.get(place).copied()
}

/// The text of a piece.
pub fn text_of(text: &[Sym], piece: Piece) -> &[Sym]
    requires risen { piece.begin ≤ piece.end }
    requires within { piece.end ≤ length text.now }
    ensures { result.now ≡ slice_range text.now piece.begin piece.end }
{
    &text[piece.begin..piece.end]
}
