//! Reading a file whole, and writing a piece whole.

ghost use Rattle.std.specs.Prelude.{◌≡◌, ◌⊎◌, ℕ, ◌<◌, ◌≤◌, ◌+◌, [], List, Some, length, take, drop};
ghost use Rattle.std.specs.Prelude.{is_some, IsNone, IsSome, IfSome, IfOk, OnOk, OnErr, IsErrOf};
ghost use Rattle.mcs_ports.specs.Causes.{Rose, HasCause};
ghost use Rattle.mcs_ports.specs.Pieces.{TakesAtMost, appended};
ghost use Rattle.mcs_ports.specs.Shelves.{KeepsShelf};
ghost use Rattle.mcs_ports.specs.declared.whole.ReadAnswer.TheVariants.{Memory};

use crate::{Failed, Shelf, Sink};
use std::alloc::{AllocError, Global};
use std::error::Error;
use std::fmt;

/// Why a file was not read whole.
#[derive(Clone, Copy, Debug, PartialEq, Eq)]
pub enum ReadAnswer {
    /// The shelf failed. This includes a file that does not exist.
    Fault,
    /// The file is longer than the limit.
    TooLong,
    /// Memory ran out.
    Memory,
}

impl fmt::Display for ReadAnswer {
    fn fmt<W: fmt::Write>(&self, f: &mut fmt::Formatter<W>) -> fmt::Result {
        match self {
            ReadAnswer::Fault => write!(f, "a read failed"),
            ReadAnswer::TooLong => write!(f, "the file is too long"),
            ReadAnswer::Memory => write!(f, "out of memory"),
        }
    }
}

impl Error for ReadAnswer {}

impl From<AllocError> for ReadAnswer {
    ghost from_gives = { λ _ answer. answer ≡ Memory };

    fn from(_refused: AllocError) -> ReadAnswer {
        ReadAnswer::Memory
    }
}

// The greatest number of bytes that one read asks for.
const PIECE: usize = 4096;

/// Reads the file with this name whole, if it has at most `limit` bytes. The limit may be any
/// number.
///
/// `Fault` is returned only if the shelf's count of faults rose, as it does if the file does not
/// exist. For a file that exists its count of failures rose too. `TooLong` is returned only if the
/// file has more than `limit` bytes; one byte more than the limit is then read. For such a file
/// `Ok` is not returned. `Memory` is returned if memory ran out. In each case at most `limit + 1`
/// bytes are read.
pub fn read_whole<H: Shelf>(
    alloc: Global,
    shelf: &mut H,
    name: &str,
    limit: usize,
) -> Result<Vec<u8>, ReadAnswer>
    ensures later { H.faults shelf.old ≤ H.faults shelf.new }
    ensures failures_later { H.failures shelf.old ≤ H.failures shelf.new }
    ensures fault { IsErrOf result ReadAnswer.Fault
        → Rose (H.faults shelf.old) (H.faults shelf.new) }
    ensures within { IfOk result (λ bytes. length bytes.items ≤ limit) }
    ensures same_held { H.held shelf.new ≡ H.held shelf.old }
    ensures tells { is_some (H.left shelf.new) ≡ is_some (H.left shelf.old) }

    // If the shelf reports what it holds, the result is that of the file, and there is a cause if
    // it is refused.
    ensures whole { IfOk result (λ bytes. IfSome (H.held shelf.old)
        (λ files. files name.now ≡ Some bytes.items)) }
    ensures too_long { IsErrOf result ReadAnswer.TooLong → IfSome (H.held shelf.old)
        (λ files. (bytes : List ℕ) × (files name.now ≡ Some bytes) × (limit < length bytes)) }
    ensures stops { IsErrOf result ReadAnswer.TooLong → IfSome (H.held shelf.old)
        (λ files. IfSome (files name.now)
        (λ bytes. H.left shelf.new ≡ Some (drop (limit + 1) bytes))) }
    ensures taken { IfSome (H.held shelf.old)
        (λ files. IfSome (files name.now)
        (λ bytes. TakesAtMost (limit + 1) bytes (H.left shelf.new)
        ⊎ (IsErrOf result ReadAnswer.Fault × (H.left shelf.new ≡ Some [])))) }
    ensures missing { IfSome (H.held shelf.old)
        (λ files. IsNone (files name.now) → IsErrOf result ReadAnswer.Fault) }
    ensures failure { IfSome (H.held shelf.old)
        (λ files. IsSome (files name.now) → IsErrOf result ReadAnswer.Fault
        → Rose (H.failures shelf.old) (H.failures shelf.new)) }
    ensures at_end { OnOk result (IfSome (H.left shelf.new) (λ l. l ≡ [])) }
{
    if shelf.open(name).is_err() {
        return Err(ReadAnswer::Fault);
    }
    read_rest(alloc, shelf, limit)
}

// Reads what is left of the open file, if this is at most `limit` bytes.
fn read_rest<H: Shelf>(alloc: Global, shelf: &mut H, limit: usize) -> Result<Vec<u8>, ReadAnswer>
    ensures shelf { KeepsShelf H.held H.left H.faults H.failures shelf.old shelf.new }
    ensures fault { IsErrOf result ReadAnswer.Fault
        → Rose (H.faults shelf.old) (H.faults shelf.new) }
    ensures failure { IsErrOf result ReadAnswer.Fault
        → Rose (H.failures shelf.old) (H.failures shelf.new) }
    ensures within { IfOk result (λ bytes. length bytes.items ≤ limit) }
    ensures whole { IfOk result (λ bytes. IfSome (H.left shelf.old) (λ l. l ≡ bytes.items)) }
    ensures too_long { IsErrOf result ReadAnswer.TooLong
        → IfSome (H.left shelf.old) (λ l. limit < length l) }
    ensures stops { IsErrOf result ReadAnswer.TooLong
        → IfSome (H.left shelf.old) (λ l. H.left shelf.new ≡ Some (drop (limit + 1) l)) }
    ensures taken { IfSome (H.left shelf.old) (λ l. TakesAtMost (limit + 1) l (H.left shelf.new)) }
    ensures at_end { OnOk result (IfSome (H.left shelf.new) (λ l. l ≡ [])) }
{
    let mut bytes = Vec::new(alloc);
    let mut buffer = [0u8; PIECE];
    loop {
        let room = limit - bytes.len();
        let most = room.min(PIECE - 1) + 1;
        match shelf.read(&mut buffer[..most]) {
            Err(_) => return Err(ReadAnswer::Fault),
            Ok(0) => return Ok(bytes),
            Ok(count) if count > room => return Err(ReadAnswer::TooLong),
            Ok(count) => bytes.extend_from_slice(&buffer[..count])?,
        }
    }
}

/// Writes the piece whole. No memory is needed.
///
/// `Failed` is returned only if the sink's count of faults rose; then a prefix of the piece was
/// written. If the piece was written whole, no write failed, and the count is as before.
pub fn write_whole<K: Sink>(sink: &mut K, bytes: &[u8]) -> Result<(), Failed>
    ensures cause { HasCause (K.device sink.old).faults (K.device sink.new).faults result }
    ensures quiet { OnOk result ((K.device sink.new).faults ≡ (K.device sink.old).faults) }
    ensures written { OnOk result ((K.device sink.new).written
        ≡ appended (K.device sink.old).written bytes.now) }
    ensures prefix { OnErr result ((n : ℕ) × (n ≤ length bytes.now)
        × ((K.device sink.new).written ≡ appended (K.device sink.old).written (take n bytes.now))) }
    ensures notes { (K.device sink.new).notes ≡ (K.device sink.old).notes }
{
    let mut taken = 0;
    while taken < bytes.len() {
        taken += sink.write(&bytes[taken..])?;
    }
    Ok(())
}
