// The document after an edit, and the run that follows it.
ghost use Rattle.std.specs.Prelude.{◌≡◌, ◌≤◌, ◌+◌, length, IfOk};
ghost use Rattle.xs_earley.specs.{IsRunOf};
ghost use Rattle.xs_edit.specs.Edits.{edited, document_limit};
ghost use Rattle.xs_edit.specs.Sessions.{HasRead, IsFollowing};

use std::alloc::Global;
use xs_class::{Memory, Sym, Word};
use xs_earley::Run;
use xs_gram::Gram;

/// The document with `cut` symbols from a place on replaced by others. In time linear in these and
/// in what comes after the place.
fn spliced(alloc: Global, doc: Word, at: usize, cut: usize, put: &[Sym]) -> Result<Word, Memory>
    requires { at + cut ≤ length doc }
    ensures { IfOk result (λ new. new ≡ edited doc at cut put.now) }
{
    let mut symbols = doc.into_vec();
    let rest = Vec::from_slice(alloc, &symbols[at + cut..])?;
    symbols.truncate(at);
    symbols.extend_from_slice(put)?;
    symbols.extend_from_slice(&rest)?;
    Ok(Word::from_vec(symbols))
}

/// Reads on in the document, as far as it can be read.
pub fn follow(run: &mut Run, g: &Gram, doc: &Word) -> Result<(), Memory>
    requires read { HasRead g.now doc.now run.old }
    requires short { length doc.now ≤ document_limit }
    ensures following { IfOk result (λ _. IsFollowing g.now doc.now run.new) }
    ensures run { IsRunOf g.now run.new }
{
    'symbols: for place in run.len()..doc.len() {
        if !run.step(g, doc.at(place))? {
            return Ok(());
        }
    }
    Ok(())
}

/// Edits the document; the run goes back to the place of the edit, where it has come that far, and
/// reads on from there.
pub fn change(
    alloc: Global,
    run: &mut Run,
    g: &Gram,
    doc: Word,
    at: u32,
    cut: u32,
    put: &[Sym],
) -> Result<Word, Memory>
    requires read { HasRead g.now doc run.old }
    requires inside { at + cut ≤ length doc }
    requires short { length (edited doc at cut put.now) ≤ document_limit }
    ensures edited { IfOk result (λ new. new ≡ edited doc at cut put.now) }
    ensures following { IfOk result (λ new. IsFollowing g.now new run.new) }
    ensures run { IsRunOf g.now run.new }
{
    let read = run.len() as u32;
    run.back(at.min(read));
    let new = spliced(alloc, doc, at as usize, cut as usize, put)?;
    follow(run, g, &new)?;
    Ok(new)
}
