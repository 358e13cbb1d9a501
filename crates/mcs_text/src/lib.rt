//! Building texts and writing them: separators between pieces, and lines that are written whole or
//! up to a prefix.
#![tactic(auto, using(crate::proofs::WriteLaws::writes))]

mod line;
mod separator;
mod unwritten;

pub use line::write_line;
pub use separator::push_separator;
pub use unwritten::Unwritten;
