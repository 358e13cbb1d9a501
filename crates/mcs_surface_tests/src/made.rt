//! Texts of rows with numbers.

use mcs_base::{Memory, Text};
use std::alloc::Global;

/// A row, and from and up to before which number it stands. Each `#` in it stands for the number,
/// and each `^` for the one before.
pub type Rows = (&'static str, u64, u64);

/// Appends the row for the number.
fn push_row(text: &mut Text, row: &str, number: u64) -> Result<(), Memory> {
    for byte in row.as_bytes() {
        let pushed = match *byte {
            b'#' => text.push_number(number),
            b'^' => text.push_number(number.saturating_sub(1)),
            byte => text.push(&[byte]),
        };
        pushed?;
    }
    Ok(())
}

/// Appends the row for each of its numbers.
fn push_rows(text: &mut Text, (row, first, end): Rows) -> Result<(), Memory> {
    for number in first..end {
        push_row(text, row, number)?;
    }
    Ok(())
}

/// The text of these rows.
pub fn text_of(alloc: Global, all: &[Rows]) -> Result<Text, Memory> {
    let mut text = Text::new(alloc);
    for rows in all {
        push_rows(&mut text, *rows)?;
    }
    Ok(text)
}
