use crate::rule::RETURNS;
use std::alloc::Global;
use xs_class::Memory;
use xs_coarse::{Arc, Coarse};

/// A state, and a number that is made of its arcs.
#[derive(Clone, Copy, Debug)]
struct Signed {
    sign: u64,
    state: u32,
}

/// The names, where states have one name that have arcs of the same labels to states of the same
/// names: a guess by numbers that are made of them. In time n log n of the net.
pub(crate) fn twins(alloc: Global, net: &Coarse, mut names: Vec<u32>) -> Result<Vec<u32>, Memory> {
    let mut signed = signs_of(alloc, net, &names)?;
    signed.sort_unstable_by_key(|it| it.sign);
    name_twins(&mut names, &signed);
    follow_names(&mut names);
    Ok(names)
}

/// The signs of the states that have their own names.
fn signs_of(alloc: Global, net: &Coarse, names: &[u32]) -> Result<Vec<Signed>, Memory> {
    let mut signed = Vec::with_capacity(alloc, net.len() as usize)?;
    'states: for state in 0..net.len() {
        if name_or(names, state) != state {
            continue;
        }
        if let Some(sign) = sign_of(net.row(state), names) {
            signed.push(Signed { sign, state })?;
        }
    }
    Ok(signed)
}

/// The name of a state, or the state where it has none.
fn name_or(names: &[u32], state: u32) -> u32 {
    match names.get(state as usize) {
        Some(name) => *name,
        None => state,
    }
}

/// A number that is made of the labels of a state's arcs and the names of their targets, in
/// whatever order they stand; none where there is no arc, or one leads back into a rule, so that
/// exits keep their names.
fn sign_of(row: &[Arc], names: &[u32]) -> Option<u64> {
    if row.is_empty() {
        return None;
    }
    let mut sum: u64 = 0;
    'arcs: for x in row {
        if x.label >= RETURNS {
            return None;
        }
        sum = sum.wrapping_add(mixed(x.label, name_or(names, x.to)));
    }
    Some(sum)
}

/// A number that is made of a label and a name.
fn mixed(label: u32, name: u32) -> u64 {
    let first = (label as u64).wrapping_mul(0x9E37_79B9_7F4A_7C15);
    let both = (first ^ name as u64).wrapping_mul(0xBF58_476D_1CE4_E5B9);
    (both ^ (both >> 29)).wrapping_mul(0x94D0_49BB_1331_11EB)
}

/// Gives each state the name of the first one of its sign; the states stand by their signs.
fn name_twins(names: &mut Vec<u32>, signed: &[Signed]) {
    let mut first = Signed { sign: 0, state: 0 };
    'states: for (place, it) in signed.iter().enumerate() {
        if place == 0 || it.sign != first.sign {
            first = *it;
        }
        set_name(names, it.state as usize, first.state);
    }
}

/// Gives each state the name of the state that names it.
fn follow_names(names: &mut Vec<u32>) {
    'places: for place in 0..names.len() {
        if place < names.len() {
            let name = name_or(names, names[place]);
            set_name(names, place, name);
        }
    }
}

/// Gives a state a name.
fn set_name(names: &mut Vec<u32>, place: usize, name: u32) {
    if place < names.len() {
        names[place] = name;
    }
}
