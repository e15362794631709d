ghost use Rattle.std.specs.Prelude.{◌≡◌, ◌<◌, ◌++◌, ℕ, List, length, map, IfOk, OnOk};
ghost use Rattle.xs_gram.specs.{IsBuilt, items, spelling};
ghost use Rattle.xs_text_out.specs.Pieces.{ArePieces, pieces_word};
ghost use Rattle.xs_table_out.specs.Steps.{AreSteps, step_of};

use crate::children::{Child, child_at};
use crate::steps::{Step, StepRow, Steps};
use std::alloc::Global;
use xs_class::Memory;
use xs_gram::{GItem, Gram};
use xs_text_out::{Piece, Pieces};

/// A piece as a step of a production that is read by these items.
fn step_of(items: &[GItem], piece: Piece) -> Step
    requires { length items.now < 65536 }
    ensures { result ≡ step_of items.now piece }
{
    let child = match piece.slot {
        None => Child::Nothing,
        Some(slot) => child_at(items, slot),
    };
    Step {
        begin: piece.begin,
        end: piece.end,
        child,
    }
}

/// Puts pieces next as steps.
fn push_steps(items: &[GItem], pieces: &[Piece], all: &mut Vec<Step>) -> Result<(), Memory>
    requires { length items.now < 65536 }
    ensures { OnOk result (all.new.items ≡ all.old.items ++ map (step_of items.now) pieces.now) }
{
    'pieces: for piece in pieces {
        all.push(step_of(items, *piece))?;
    }
    Ok(())
}

/// The pieces of a production.
fn pieces_at<'p>(h: &Gram, pieces: &'p Pieces, production: u32) -> &'p [Piece]
    requires { ArePieces h.now pieces.now }
    ensures { (at : ℕ → List ℕ) → pieces_word pieces.now.text.items result.now at ≡ spelling h.now (items h.now production) at }
{
    match pieces.rows.get(production as usize) {
        None => &[],
        Some(row) => {
            if row.begin <= row.end {
                &pieces.all[row.begin..row.end]
            } else {
                &[]
            }
        }
    }
}

/// The steps of the productions that are read by one grammar and printed by the other, in time
/// linear in the squares of their items and in the text.
pub fn steps_of(alloc: Global, g: &Gram, h: &Gram, pieces: Pieces) -> Result<Steps, Memory>
    requires built { IsBuilt g.now }
    requires pieces { ArePieces h.now pieces }
    ensures { IfOk result (AreSteps g.now h.now) }
{
    let mut rows = Vec::with_capacity(alloc, g.rules() as usize)?;
    let mut all = Vec::with_capacity(alloc, pieces.all.len())?;
    'rules: for rule in 0..g.rules() {
        let begin = all.len();
        push_steps(g.items(rule), pieces_at(h, &pieces, rule), &mut all)?;
        let end = all.len();
        rows.push(StepRow { begin, end })?;
    }
    Ok(Steps {
        rows,
        all,
        text: pieces.text,
    })
}
