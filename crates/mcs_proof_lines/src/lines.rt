//! The lines of a text, one at a time.

ghost use Rattle.std.specs.Prelude.{◌≡◌, ◌+◌, ◌&&◌};
ghost use Rattle.std.specs.Option.{option_copied};
ghost use Rattle.mcs_spelling.specs.Lines.{is_empty, complete_lines, incomplete};
ghost use Rattle.mcs_proof_lines.specs.Walks.{advanced, next_line};

use mcs_spelling::find;
use std::marker::Model;

/// The lines of a text, each ended by a line feed, as a cursor at the next one: the bytes from
/// there on, and the place of the next line feed, if there is one. A call that takes several lines
/// and is refused, also for want of memory, may have taken some of them.
#[derive(Drop)]
pub struct Lines<'b> {
    left: &'b [u8],
    feed: Option<usize>,
    taken: u64,
}

impl<'b> Model for Lines<'b> {
    ghost use Rattle.std.specs.Prelude.{◌≡◌, ◌+◌, ◌<◌, ◌^◌, length};
    ghost use Rattle.mcs_spelling.specs.Lines.{complete_lines, incomplete};
    ghost use Rattle.mcs_spelling.specs.Words.{place_of_byte};
    ghost use Rattle.mcs_proof_lines.specs.Walks.{At};

    ghost Value = { At };

    ghost view = { λ l. record {
      taken = l.taken;
      rest = complete_lines l.left.now;
      tail = incomplete l.left.now;
    } };

    ghost invariant = { λ l. (l.taken + length l.left.now < 2 ^ 63)
        × (l.feed ≡ place_of_byte 10 l.left.now) };
}

impl<'b> Lines<'b> {
    /// The lines of the bytes, of which none was taken.
    pub fn new(bytes: &'b [u8]) -> Lines<'b>
        ensures { result
            ≡ record { taken = 0; rest = complete_lines bytes.now; tail = incomplete bytes.now } }
    {
        Lines {
            left: bytes,
            feed: find(bytes, b'\n'),
            taken: 0,
        }
    }

    /// The bytes from the next line on.
    pub fn left(&self) -> &'b [u8]
        ensures lines { complete_lines result.now ≡ self.now.rest }
        ensures tail { incomplete result.now ≡ self.now.tail }
    {
        self.left
    }

    /// The next line, if there is one.
    pub fn current(&self) -> Option<&'b [u8]>
        ensures { option_copied result ≡ next_line self.now }
    {
        match self.feed {
            Some(feed) => Some(&self.left[..feed]),
            None => None,
        }
    }

    /// The number of the next line, counted from 1.
    pub fn number(&self) -> u64
        ensures { result ≡ self.now.taken + 1 }
    {
        self.taken + 1
    }

    /// Whether nothing is left, not even bytes without a line feed.
    pub fn is_at_end(&self) -> bool
        ensures { result ≡ is_empty self.now.rest && is_empty self.now.tail }
    {
        self.left.is_empty()
    }

    /// Takes the next line.
    #[tactic(auto, unfolding(crate::specs::Walks::advanced))]
    pub fn advance(&mut self)
        ensures { self.new ≡ advanced self.old }
    {
        let Some(feed) = self.feed else {
            return;
        };
        self.left = &self.left[feed + 1..];
        self.feed = find(self.left, b'\n');
        self.taken += 1;
    }
}
