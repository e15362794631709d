ghost use Rattle.std.specs.Prelude.{◌≡◌, ◌<◌, ℕ, length, false, Some, slice_get, slice_index_or, Contains, IsTrue, IfOk};
ghost use Rattle.xs_atoms.specs.{atom_of, count_of, class_has};
ghost use Rattle.xs_gram.specs.{IsBuilt, all_places};
ghost use Rattle.xs_earley.specs.Facts.{AreFacts};
ghost use Rattle.xs_earley.specs.Arriving.{is_letter};
ghost use Rattle.xs_earley.specs.Masks.{has_bit as is_in, mask_of, AreClassMasks, IsMask, AreMasks};

use crate::arrive::{class_at, next_positions};
use crate::facts::Facts;
use crate::rows::Stand;
use std::alloc::Global;
use xs_atoms::Atoms;
use xs_class::{Memory, Sym};
use xs_gram::Gram;

/// Whether the mask has the bit of the atom.
#[inline(always)]
pub fn has_bit(mask: u64, atom: u16) -> bool
    ensures { result ≡ is_in mask atom }
{
    (mask >> (u64::from(atom) % 64)) & 1 == 1
}

/// The mask with the bit of an atom alone.
fn bit_of(atom: u16) -> u64
    ensures { IsTrue (is_in result atom) }
{
    1 << (u64::from(atom) % 64)
}

/// The bits of both masks.
fn joined(mask: u64, other: u64) -> u64
    ensures first { (atom : ℕ) → IsTrue (is_in mask atom) → IsTrue (is_in result atom) }
    ensures second { (atom : ℕ) → IsTrue (is_in other atom) → IsTrue (is_in result atom) }
{
    mask | other
}

/// The bit of an atom where the class has it.
fn atom_mask(atoms: &Atoms, class: u32, atom: u16) -> u64
    ensures { IsTrue (class_has atoms.now class atom) → IsTrue (is_in result atom) }
{
    if atoms.class_has(class, atom) {
        bit_of(atom)
    } else {
        0
    }
}

/// The bits of the atoms of a class.
fn class_mask(atoms: &Atoms, class: u32) -> u64
    ensures { (atom : ℕ) → atom < count_of atoms.now → IsTrue (class_has atoms.now class atom) → IsTrue (is_in result atom) }
{
    let mut mask = 0;
    'atoms: for atom in 0..atoms.count() {
        mask = joined(mask, atom_mask(atoms, class, atom as u16));
    }
    mask
}

/// The masks of all classes.
fn class_masks(alloc: Global, atoms: &Atoms) -> Result<Vec<u64>, Memory>
    ensures { IfOk result (λ masks. AreClassMasks atoms.now masks.items) }
{
    let mut masks = Vec::with_capacity(alloc, atoms.classes() as usize)?;
    'classes: for class in 0..atoms.classes() {
        masks.push(class_mask(atoms, class))?;
    }
    Ok(masks)
}

/// The mask of a class, all bits where there is none.
fn mask_at(masks: &[u64], class: u32) -> u64
    ensures { result ≡ mask_of masks.now class }
{
    match masks.get(class as usize) {
        Some(mask) => *mask,
        None => u64::MAX,
    }
}

/// The bits of the atoms of the classes at positions.
fn positions_mask(masks: &[u64], classes: &[u32], positions: &[u32]) -> u64
    ensures { (k atom : ℕ) → Contains positions.now k → IsTrue (is_in (mask_of masks.now (slice_index_or classes.now k 0)) atom) → IsTrue (is_in result atom) }
{
    let mut mask = 0;
    'positions: for position in positions {
        mask = joined(mask, mask_at(masks, class_at(classes, *position)));
    }
    mask
}

/// The bit of the atom of the symbol at a place of the list, none where there is none.
fn letter_mask(atoms: &Atoms, letters: &[Sym], place: usize) -> u64
    ensures { (s : ℕ) → is_in result (atom_of atoms.now s) ≡ false → is_letter (slice_get letters.now place) s ≡ false }
{
    match letters.get(place) {
        Some(letter) => bit_of(atoms.of_symbol(*letter)),
        None => 0,
    }
}

/// The mask of a state, by those of the classes.
fn state_mask(g: &Gram, facts: &Facts, atoms: &Atoms, masks: &[u64], state: u32) -> u64
    requires built { IsBuilt g.now }
    requires facts { AreFacts g.now facts.now }
    requires atoms { facts.now.atoms ≡ Some atoms.now }
    requires masks { AreClassMasks atoms.now masks.now }
    requires state { state < length (all_places g.now) }
    ensures { IsMask g.now facts.now state result }
{
    let row = facts.row(state);
    match row.stand {
        Stand::AtEnd(_) => 0,
        Stand::AtNon(_) => 0,
        Stand::AtWord(from, _) => letter_mask(atoms, &facts.letters, from),
        Stand::AtTerm(term) => {
            let positions = next_positions(g.term(term), state, row.base);
            positions_mask(masks, atoms.term_classes(term), positions)
        }
        Stand::AtSkip(skip) => {
            let positions = next_positions(g.skip(skip), state, row.base);
            positions_mask(masks, atoms.skip_classes(skip), positions)
        }
    }
}

/// The masks of all states, where the grammar has atoms.
fn state_masks(alloc: Global, g: &Gram, facts: &Facts, atoms: &Atoms) -> Result<Vec<u64>, Memory>
    requires built { IsBuilt g.now }
    requires facts { AreFacts g.now facts.now }
    requires atoms { facts.now.atoms ≡ Some atoms.now }
    ensures { IfOk result (λ masks. AreMasks g.now facts.now (length (all_places g.now)) masks.items) }
{
    let classes = class_masks(alloc, atoms)?;
    let mut masks = Vec::with_capacity(alloc, g.places() as usize)?;
    'states: for state in 0..g.places() {
        masks.push(state_mask(g, facts, atoms, &classes, state))?;
    }
    Ok(masks)
}

/// The masks of all states: of all bits where the grammar has no atoms.
pub fn masks_of(alloc: Global, g: &Gram, facts: &Facts) -> Result<Vec<u64>, Memory>
    requires built { IsBuilt g.now }
    requires facts { AreFacts g.now facts.now }
    ensures { IfOk result (λ masks. AreMasks g.now facts.now (length (all_places g.now)) masks.items) }
{
    match &facts.atoms {
        Some(atoms) => {
            let masks = state_masks(alloc, g, facts, atoms)?;
            Ok(masks)
        }
        None => {
            let masks = vec![in alloc; u64::MAX; g.places() as usize]?;
            Ok(masks)
        }
    }
}
