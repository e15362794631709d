ghost use Rattle.std.specs.Prelude.{◌≡◌, ℕ, List, IsTrue, IfOk};
ghost use Rattle.xs_table_out.specs.Writing.{Writes};

use xs_class::{Memory, Sym};

/// What a word is written to, stretch by stretch. It knows the texts of all steps by their numbers.
pub trait Writer {
    /// All that it will have written once this word is written too.
    ghost whole: { Self → List ℕ → List ℕ };

    /// The text of the step of this number.
    ghost text: { Self → ℕ → List ℕ };

    /// Writes the text of a step next; false where it cannot be written.
    fn put_text(&mut self, number: usize) -> Result<bool, Memory>
        ensures put { IfOk result (λ done. IsTrue done → Writes (whole self.old) (whole self.new) (text self.old number)) }
        ensures same { text self.new ≡ text self.old };

    /// Writes a word next; false where it cannot be written.
    fn put_word(&mut self, word: &[Sym]) -> Result<bool, Memory>
        ensures put { IfOk result (λ done. IsTrue done → Writes (whole self.old) (whole self.new) word.now) }
        ensures same { text self.new ≡ text self.old };
}
