//! A sink that keeps the bytes that are written to it.

ghost use Rattle.std.specs.Prelude.{◌≡◌, ◌≤◌, ◌++◌, [], Some, None, length};
ghost use Rattle.mcs_check.specs.Collected.{met};

use crate::difference::common;
use mcs_base::Text;
use mcs_ports::{Failed, Sink};
use std::alloc::Global;
use std::marker::Model;

/// Takes each piece whole, and keeps no notes. As long as what is written is as expected, it keeps
/// the number of the bytes alone. A write fails only if there is no memory for its piece; this
/// counts as a fault.
#[derive(Drop)]
pub(crate) struct Collecting<'b> {
    expected: &'b [u8],
    /// How many of the bytes that are expected were written.
    same: usize,
    /// What was written after them.
    other: Text,
    faults: u64,
}

impl<'b> Model for Collecting<'b> {
    ghost use Rattle.std.specs.Prelude.{◌≤◌, ◌++◌, length, take};
    ghost use Rattle.mcs_check.specs.Collected.{Collected};

    ghost Value = { Collected };

    ghost view = { λ s. record {
      text = take s.same s.expected.now ++ s.other;
      faults = s.faults;
    } };

    ghost invariant = { λ s. s.same ≤ length s.expected.now };
}

/// How many of the bytes are the next ones that are expected, where `other` was written in their
/// place.
fn met(expected: &[u8], other: &[u8], bytes: &[u8]) -> usize
    ensures value { result ≡ met expected.now other.now bytes.now }
    ensures expected { result ≤ length expected.now }
    ensures bytes { result ≤ length bytes.now }
{
    if other.is_empty() {
        common(expected, bytes)
    } else {
        0
    }
}

impl<'b> Collecting<'b> {
    /// A sink to which nothing was written. These bytes are expected.
    pub(crate) fn new(alloc: Global, expected: &'b [u8]) -> Collecting<'b>
        ensures { result ≡ record { text = []; faults = 0 } }
    {
        Collecting {
            expected,
            same: 0,
            other: Text::new(alloc),
            faults: 0,
        }
    }

    /// The bytes that were written to it, in two pieces.
    pub(crate) fn pieces(&self) -> (&[u8], &[u8])
        ensures { self.now.text ≡ result.0.now ++ result.1.now }
    {
        (&self.expected[..self.same], self.other.bytes())
    }
}

impl<'b> Sink for Collecting<'b> {
    ghost device = { λ s. record { written = Some s.text; notes = None; faults = s.faults } };

    fn write(&mut self, bytes: &[u8]) -> Result<usize, Failed> {
        let met = met(&self.expected[self.same..], self.other.bytes(), bytes);
        match self.other.push(&bytes[met..]) {
            Ok(()) => {
                self.same += met;
                Ok(bytes.len())
            }
            Err(_) => {
                self.faults = self.faults.saturating_add(1);
                Err(Failed)
            }
        }
    }

    fn note(&mut self, _bytes: &[u8]) {}
}
