//! A growing text.

use mcs_base::{Memory, Text};

/// Whether words and numbers that are added to the empty text are in decimal digits, also after it
/// was made empty.
fn is_decimal(text: &mut Text) -> Result<bool, Memory> {
    text.push(b"n = ")?;
    text.push_number(1204)?;
    let is_first = text.bytes() == b"n = 1204".as_slice();
    text.clear();
    text.push_number(0)?;
    text.push_number(u64::MAX)?;
    Ok(is_first && text.bytes() == b"018446744073709551615".as_slice())
}

#[test]
fn grows(rt: HostRuntime) {
    let mut text = Text::new(rt.alloc());
    assert!(rt; is_decimal(&mut text) == Ok(true));
}
