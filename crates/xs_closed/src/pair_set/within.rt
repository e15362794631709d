ghost use Rattle.std.specs.Prelude.{◌≡◌, ◌↔◌, ℕ, ◌<◌, length, true, IsTrue, IfSome, IfNone};
ghost use Rattle.std.specs.Int.{bit_at};
ghost use Rattle.xs_closed.specs.Rows.{marked};
ghost use Rattle.xs_closed.specs.Words.{IsFirstLack};

use super::PairSet;
use super::words::word_of;

/// The lowest bit that is set in a word and not in another, if there is one.
fn first_lack(word: u64, other: u64) -> Option<u32>
    ensures some { IfSome result (IsFirstLack word other) }
    ensures none { IfNone result ((i : ℕ) → i < 64 → bit_at word i ≡ 1 → bit_at other i ≡ 1) }
{
    let lacking = word & !other;
    if lacking == 0 {
        return None;
    }
    Some(lacking.trailing_zeros())
}

impl PairSet {
    /// Whether a number has all partners that a number of another set, of the same width, has.
    ///
    /// Takes time linear in the words of a row.
    pub fn has_row(&self, c: u32, other: &PairSet, a: u32) -> bool
        requires row { c < length self.now.rows }
        requires other_row { a < length other.now.rows }
        requires wide { other.now.wide ≡ self.now.wide }
        ensures { IsTrue result ↔ ((b : ℕ) → marked other.now a b ≡ true → marked self.now c b ≡ true) }
    {
        let wide = self.wide as u64;
        let mut at = 0;
        'words: while at < wide {
            let place = (at / 64) as usize;
            let theirs = word_of(&other.words, other.step, a, place);
            let ours = word_of(&self.words, self.step, c, place);
            if let Some(bit) = first_lack(theirs, ours) {
                return at + bit as u64 >= wide;
            }
            at += 64;
        }
        true
    }
}
