//! Whether a letter was taken.

/// Whether a node took a letter or ignored it.
#[derive(Clone, Copy, Debug, PartialEq, Eq)]
pub enum Handled {
    Took,
    Ignored,
}
