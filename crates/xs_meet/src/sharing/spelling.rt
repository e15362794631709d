ghost use Rattle.std.specs.Prelude.{◌<◌, ◌+◌, ◌↔◌, List, length, IsTrue, IfOk};
ghost use Rattle.std.specs.List.{All};
ghost use Rattle.xs_auto.specs.{Group};
ghost use Rattle.xs_meet.specs.Pieces.{Spells};
ghost use Rattle.xs_meet.specs.Sharing.{AreKnown, IsKnownBefore, IsSharing};
ghost use Rattle.xs_meet.specs.Spelling.{HasGroups, IsSymbol, IsUnfolded};
ghost use Rattle.xs_meet.specs.Traces.{IsRelated};

use crate::piece::Piece;
use crate::shared_groups::SharedGroups;
use crate::sharing::Shared;
use std::alloc::Global;
use xs_auto::Nest;
use xs_class::{Memory, Word};

impl Shared {
    /// A word that the pieces spell.
    ///
    /// Takes time linear in the number of groups that share words, times the word's length.
    pub(crate) fn spelt(
        &self,
        alloc: Global,
        nest: &Nest,
        pieces: Vec<Piece>,
    ) -> Result<Word, Memory>
        requires sharing { IsSharing nest.now self.now }
        requires related { All (IsRelated (AreKnown self.now)) pieces.items }
        ensures { IfOk result (Spells nest.now pieces.items) }
    {
        let mut spelling = pieces;
        let mut place = self.rows.len();
        'rows: while place > 0 {
            place -= 1;
            spelling = self.unfolded(alloc, nest, place, &spelling)?;
        }
        symbols_of(alloc, &spelling)
    }

    /// The pieces with those of a row in place of each that is of its two groups.
    fn unfolded(
        &self,
        alloc: Global,
        nest: &Nest,
        place: usize,
        pieces: &[Piece],
    ) -> Result<Vec<Piece>, Memory>
        requires sharing { IsSharing nest.now self.now }
        requires place { place < length self.now.rows }
        requires known { All (IsKnownBefore self.now.rows (place + 1)) pieces.now }
        ensures { IfOk result (λ ps. IsUnfolded nest.now self.now.rows place pieces.now ps.items) }
    {
        let row = self.rows[place];
        let (left, right) = nest.fence(row.first);
        let inside = &self.pieces[row.start..row.end];
        let mut all = Vec::new(alloc);
        'pieces: for piece in pieces {
            if is_of(row, *piece) {
                all.push(Piece::Symbol(left))?;
                all.extend_from_slice(inside)?;
                all.push(Piece::Symbol(right))?;
            } else {
                all.push(*piece)?;
            }
        }
        Ok(all)
    }
}

/// Whether the piece is of the row's two groups, in either order.
fn is_of(row: SharedGroups, piece: Piece) -> bool
    ensures { IsTrue result ↔ HasGroups row piece }
{
    match piece {
        Piece::Symbol(_) => false,
        Piece::Groups(g, h) => {
            (row.first == g && row.second == h) || (row.first == h && row.second == g)
        }
    }
}

/// The word of pieces that are all symbols.
fn symbols_of(alloc: Global, pieces: &[Piece]) -> Result<Word, Memory>
    requires { All IsSymbol pieces.now }
    ensures { IfOk result (λ w. (nest : List Group) → Spells nest pieces.now w) }
{
    let mut word = Word::new(alloc);
    'pieces: for piece in pieces {
        if let Piece::Symbol(symbol) = piece {
            word.push(*symbol)?;
        }
    }
    Ok(word)
}
