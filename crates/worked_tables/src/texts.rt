//! Combinations as a text.
use plan_operators::{Combo, Combos};
use row_values::OutOfMemory;
use std::alloc::Global;

/// Adds the row numbers of a combination, joined by commas.
fn push_combo(alloc: Global, text: &mut String, combo: &Combo) -> Result<(), OutOfMemory> {
    for (place, row) in combo.as_slice().iter().enumerate() {
        if place != 0 {
            text.push(',')?;
        }
        text.push_str(&format!(in alloc; "{row}")?)?;
    }
    Ok(())
}

/// The row numbers of the combinations, as `0,0; 0,1`, in the order of FROM whatever order they have.
pub fn numbers(alloc: Global, combos: &Combos) -> Result<String, OutOfMemory> {
    let mut sorted = combos.as_slice().to_vec(alloc)?;
    sorted.sort_unstable_by(|a, b| a.as_slice().cmp(b.as_slice()));
    let mut text = String::new(alloc);
    for (i, combo) in sorted.iter().enumerate() {
        if i != 0 {
            text.push_str("; ")?;
        }
        push_combo(alloc, &mut text, combo)?;
    }
    Ok(text)
}
