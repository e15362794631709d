use xs_class::{Listed, Memory};

/// Appends a rule to the row of a nonterminal.
pub fn note(uses: &mut Vec<Listed<u32>>, non: u32, rule: u32) -> Result<(), Memory> {
    if (non as usize) < uses.len() {
        let row = &mut uses[non as usize];
        row.push(rule)?;
    }
    Ok(())
}

/// The number of rules in a nonterminal's row.
pub fn row_length(uses: &[Listed<u32>], non: u32) -> usize {
    match uses.get(non as usize) {
        Some(row) => row.len(),
        None => 0,
    }
}

/// The rule at a place of a nonterminal's row, and a number of no rule where there is none.
pub fn row_at(uses: &[Listed<u32>], non: u32, place: usize) -> u32 {
    match uses.get(non as usize) {
        Some(row) => row.as_slice().get(place).copied().unwrap_or(u32::MAX),
        None => u32::MAX,
    }
}
