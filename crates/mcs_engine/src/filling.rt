//! Vectors that are made long enough for an index.

use mcs_base::Memory;

/// Appends the value until the index exists.
pub fn fill<T: Copy>(values: &mut Vec<T>, index: usize, value: T) -> Result<(), Memory> {
    while values.len() <= index {
        if values.push(value).is_err() {
            return Err(Memory);
        }
    }
    Ok(())
}

/// Marks the number.
pub fn mark(marks: &mut Vec<bool>, number: usize) -> Result<(), Memory> {
    fill(marks, number, false)?;
    if let Some(here) = marks.get_mut(number) {
        *here = true;
    }
    Ok(())
}

/// Whether the number is marked.
pub fn is_marked(marks: &[bool], number: usize) -> bool {
    marks.get(number).copied().unwrap_or(false)
}
