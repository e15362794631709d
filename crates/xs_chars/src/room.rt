// How much room a text takes, counted so that one reservation serves. No promise rests on it.

ghost use Rattle.std.specs.Prelude.{◌<◌};

use xs_class::Sym;

/// How many bytes are counted in one byte, which such a count fits.
const BYTES: usize = 128;

/// How many symbols are counted in 32 bits, which the count of their bytes fits.
const SYMBOLS: usize = 1_024;

/// How much the pieces take in all, of which each has at most that many elements.
fn room_of<T, F: Fn(&[T]) -> u32>(all: &[T], most: usize, piece_room: F) -> usize
    requires some { 0 < most }
    requires called { F.IsAlwaysCallable piece_room }
{
    let mut count = 0usize;
    'pieces: for piece in all.chunks(most) {
        count = count.saturating_add(piece_room(piece) as usize);
    }
    count
}

/// How many bytes of the piece begin a character.
fn begun_in(piece: &[u8]) -> u8 {
    let mut count = 0u8;
    'bytes: for byte in piece {
        count = count.wrapping_add((*byte & 0xC0 != 0x80) as u8);
    }
    count
}

/// How many characters the UTF-8 spells.
pub fn symbols_room(bytes: &[u8]) -> usize {
    room_of(bytes, BYTES, |piece| u32::from(begun_in(piece)))
}

/// How many bytes the symbols of the piece take in UTF-8.
fn bytes_in(piece: &[Sym]) -> u32 {
    let mut count = 0u32;
    'symbols: for symbol in piece {
        let c = symbol.number();
        let more = (c >= 0x80) as u32 + (c >= 0x800) as u32 + (c >= 0x10000) as u32;
        count = count.wrapping_add(1 + more);
    }
    count
}

/// How many bytes the symbols take in UTF-8.
pub fn bytes_room(symbols: &[Sym]) -> usize {
    room_of(symbols, SYMBOLS, bytes_in)
}
