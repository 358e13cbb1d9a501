//! Prefixes of bytes.

ghost use Rattle.std.specs.Prelude.{◌≡◌, ◌<◌, length, IfSome};
ghost use Rattle.std.specs.Option.{option_copied};
ghost use Rattle.mcs_spelling.specs.Words.{after_prefix, place_of_byte};

/// What follows `front` in the bytes, or `None` exactly if they do not begin with it.
#[tactic(auto, unfolding(crate::specs::Words::after_prefix))]
pub fn strip<'b>(bytes: &'b [u8], front: &[u8]) -> Option<&'b [u8]>
    ensures { option_copied result ≡ after_prefix front.now bytes.now }
{
    bytes.strip_prefix(front)
}

/// The index of the first byte that is equal to `byte`.
pub fn find(bytes: &[u8], byte: u8) -> Option<usize>
    ensures value { result ≡ place_of_byte byte bytes.now }
    ensures bound { IfSome result (λ place. place < length bytes.now) }
{
    bytes.iter().position(|other| *other == byte)
}
