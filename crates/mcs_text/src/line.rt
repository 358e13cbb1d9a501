//! Lines, each written in one piece.

ghost use Rattle.mcs_text.specs.Writes.{Writes};

use crate::unwritten::Unwritten;
use mcs_base::Text;
use mcs_ports::{Sink, write_whole};

/// Writes the line in one piece.
pub fn write_line<K: Sink>(line: &Text, sink: &mut K) -> Result<(), Unwritten>
    ensures { Writes line.now (K.device sink.old) (K.device sink.new) result }
{
    match write_whole(sink, line.bytes()) {
        Ok(()) => Ok(()),
        Err(_) => Err(Unwritten::Fault),
    }
}
