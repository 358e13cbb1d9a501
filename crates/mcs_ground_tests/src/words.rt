//! Words and names, as a system text spells them.

use mcs_base::{is_letter, is_name, is_reserved, is_word, is_word_byte};

/// Whether the bytes are a word, a reserved one and a name as said.
fn is_told(bytes: &[u8], word: bool, reserved: bool, name: bool) -> bool {
    is_word(bytes) == word && is_reserved(bytes) == reserved && is_name(bytes) == name
}

#[test]
fn tells_names_from_words(rt: HostRuntime) {
    for (text, word, reserved, name) in [
        ("", false, false, false),
        ("9a", false, false, false),
        ("a-b", false, false, false),
        ("_x9", true, false, true),
        ("Know", true, false, true),
        ("know", true, true, false),
    ] {
        assert!(rt; is_told(text.as_bytes(), word, reserved, name));
    }
    assert!(rt;
        is_told(&[b'n'; 64], true, false, true) && is_told(&[b'n'; 65], true, false, false)
    );
}

#[test]
fn tells_letters_from_digits(rt: HostRuntime) {
    assert!(rt;
        is_letter(b'_')
            && !is_letter(b'9')
            && !is_letter(b'-')
            && is_word_byte(b'_')
            && is_word_byte(b'9')
            && !is_word_byte(b'-')
    );
}
