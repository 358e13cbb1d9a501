//! A growing text.

ghost use Rattle.std.specs.Prelude.{◌≡◌, List, ℕ, [], ◌++◌, take, OnOk, OnErr, decimal};

use crate::memory::Memory;
use itoa::Buffer;
use std::alloc::Global;
use std::marker::Model;

/// A growing text of bytes. It keeps the allocator with which it was made.
#[derive(Debug)]
pub struct Text {
    bytes: Vec<u8>,
}

impl Drop for Text {
    fn drop(self) {
        let Text { bytes: _ } = self;
    }
}

impl Model for Text {
    ghost use Rattle.std.specs.Prelude.{List, ℕ};

    ghost Value = { List ℕ };

    ghost view = { λ t. t.bytes.items };
}

impl Text {
    /// The empty text. No memory is needed.
    pub fn new(alloc: Global) -> Text
        ensures { result ≡ [] }
    {
        Text {
            bytes: Vec::new(alloc),
        }
    }

    /// An empty text with the same allocator. No memory is needed.
    pub fn empty_like(&self) -> Text
        ensures { result ≡ [] }
    {
        Text::new(*self.bytes.allocator())
    }

    /// Appends the bytes. If there is no memory for all of them, the text stays as it was.
    pub fn push(&mut self, bytes: &[u8]) -> Result<(), Memory>
        ensures ok { OnOk result (self.new ≡ self.old ++ bytes.now) }
        ensures err { OnErr result (self.new ≡ self.old) }
    {
        self.bytes.extend_from_slice(bytes)?;
        Ok(())
    }

    /// Appends the number in decimal digits. If there is no memory for all of them, the text stays
    /// as it was.
    pub fn push_number(&mut self, n: u64) -> Result<(), Memory>
        ensures ok { OnOk result (self.new ≡ self.old ++ decimal n) }
        ensures err { OnErr result (self.new ≡ self.old) }
    {
        self.push(Buffer::new().format(n).as_bytes())
    }

    /// The bytes so far.
    pub fn bytes(&self) -> &[u8]
        ensures { result.now ≡ self.now }
    {
        self.bytes.as_slice()
    }

    /// Removes what follows the first `len` bytes, if there are more. No memory is needed.
    pub fn cut(&mut self, len: usize)
        ensures { self.new ≡ take len self.old }
    {
        self.bytes.truncate(len);
    }

    /// Makes the text empty, but keeps its memory.
    pub fn clear(&mut self)
        ensures { self.new ≡ [] }
    {
        self.bytes.clear();
    }
}
