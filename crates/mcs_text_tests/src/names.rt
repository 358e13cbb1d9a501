//! Names.

use mcs_base::Memory;
use mcs_system::Name;
use std::alloc::Global;

/// Whether the bytes spell a name, which then has them, or spell none.
fn reads(alloc: Global, bytes: &[u8], spells: bool) -> Result<bool, Memory> {
    Ok(match Name::read(alloc, bytes)? {
        Some(name) => spells && name.bytes() == bytes,
        None => !spells,
    })
}

/// Bytes, and whether they spell a name; at last 64 and 65 letters.
static SPELLED: [(&str, bool); 7] = [
    ("", false),
    ("a", true),
    ("_9", true),
    ("9a", false),
    ("if", false),
    (
        "aaaaaaaaaaaaaaaaaaaaaaaaaaaaaaaaaaaaaaaaaaaaaaaaaaaaaaaaaaaaaaaa",
        true,
    ),
    (
        "aaaaaaaaaaaaaaaaaaaaaaaaaaaaaaaaaaaaaaaaaaaaaaaaaaaaaaaaaaaaaaaaa",
        false,
    ),
];

#[test]
fn reads_names(rt: HostRuntime) {
    for (text, spells) in &SPELLED {
        assert!(rt; reads(rt.alloc(), text.as_bytes(), *spells) == Ok(true));
    }
}
