//! The top call: all that the program does, over the words and the devices that it is handed.
//!
//! `run` reads the sheet from the shelf and the document from the input, writes the answer to
//! `out`, and reports every other outcome to `notes` in one line. Its contract says, outcome by
//! outcome, when it comes, what was read and what was written. Of a translation it says the lens
//! laws: the answer is the document's tree printed, and is read back with that tree; and the tree
//! printed on the document's own side is the document, with each ignorable in its normal spelling.
#![tactic(auto)]

ghost use Rattle.std.specs.Prelude.{◌≡◌, map, string_bytes, IfOk, OnErr};
ghost use Rattle.xs_top.specs.Devices.{shelves_of, input_of, output_of, run_of};
ghost use Rattle.xs_top.specs.Ran.{Told, IsComplete, Reads};

mod answer;
mod asking;
mod certified;
mod checked;
mod covered;
mod documents;
mod laws;
mod listed;
mod notes;
mod outcome;
mod outlined;
mod played;
mod sheets;
mod stop;
mod turned;
mod written;

use crate::answer::answer_of;
use crate::asking::{Begun, begin};
use crate::notes::{no_names, tell};
use crate::written::written;
pub use answer::DOCUMENT_LIMIT;
pub use certified::CERTIFICATE_LIMIT;
pub use checked::checked as check;
pub use laws::{
    bytes_agree, certificates_decide, check_decides, one_answer, refuses_exactly,
    round_is_idempotent, translates_back,
};
pub use outcome::status;
pub use outlined::{made_of_outline, outlined as outline};
pub use played::played as play;
pub use sheets::{SHEET_LIMIT, writable_pair_of};
use std::alloc::Global;
pub use stop::Stop;
pub use turned::turned_into;
use xs_check_laws::weights_are_exact;
use xs_class::Memory;
use xs_io::{Shelf, Sink, Source};
pub use xs_talk::Outcome;
use xs_talk::room;
use xs_words::command_of;
use xs_xml_laws::one_word;

/// The run of these words.
///
/// A document of one side of a sheet is read from `input` and written to `out` as a document of the
/// other side, or of the same side, with the same tree; or the outline of its tree is written; or an
/// outline is read, and the document of its tree is written; or an edit script is read and played,
/// and its answers are written; or the derivations of a text are listed; or the sheet is checked; or
/// a smallest document pair is shown for each of its productions. The sheet is a file of the shelf,
/// or one that the program includes, which can be written too; of the first of these a text can be
/// made and turned. The upgrade of a sheet to version 2 can be written; and a certificate that a
/// sheet is accepted can be written, and a sheet checked by one. All memory is taken before the
/// first write.
pub fn run<S: Source, H: Shelf, K: Sink, N: Sink>(
    alloc: Global,
    words: &[String],
    shelf: &mut H,
    input: &mut S,
    out: &mut K,
    notes: &mut N,
) -> Result<Outcome, Memory>
    ensures told { IfOk result (Told (run_of (map string_bytes words.now)
        (shelves_of H.files H.faults H.name_faults shelf.old shelf.new) (input_of S.left S.faults input.old input.new)
        (output_of K.taken K.faults out.old out.new) (output_of N.taken N.faults notes.old notes.new))) }
    ensures complete { IfOk result (IsComplete (run_of (map string_bytes words.now)
        (shelves_of H.files H.faults H.name_faults shelf.old shelf.new) (input_of S.left S.faults input.old input.new)
        (output_of K.taken K.faults out.old out.new) (output_of N.taken N.faults notes.old notes.new))) }
    ensures reads { Reads (map string_bytes words.now) (input_of S.left S.faults input.old input.new) }
    ensures files { H.files shelf.new ≡ H.files shelf.old }
    ensures memory_out { OnErr result (out.new ≡ out.old) }
    ensures memory_notes { OnErr result (notes.new ≡ notes.old) }
{
    one_word();
    weights_are_exact();
    bytes_agree();
    let room = room(alloc)?;
    let none = no_names(alloc)?;
    let command = match command_of(words) {
        Some(command) => command,
        None => return tell(alloc, notes, &none, Outcome::Usage),
    };
    let (two, job) = match begin(alloc, shelf, command) {
        Ok(Begun::By { two, job }) => (two, job),
        Ok(Begun::Answer(answer)) => {
            return Ok(written(out, notes, &none, room, answer.as_slice()));
        }
        Err(Stop::Refused(outcome)) => return tell(alloc, notes, &none, outcome),
        Err(Stop::Memory) => return Err(Memory),
    };
    match answer_of(alloc, &two, job, input) {
        Ok(answer) => Ok(written(out, notes, &none, room, answer.as_slice())),
        Err(Stop::Refused(outcome)) => tell(alloc, notes, two.names(), outcome),
        Err(Stop::Memory) => Err(Memory),
    }
}
