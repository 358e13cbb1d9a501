//! How many keys the questions of a listing had.

/// How many different keys the oracles were asked since they were lent: those that were new, and
/// those whose answers were kept.
#[derive(Clone, Copy, Debug, PartialEq, Eq)]
pub struct Answers {
    pub new: u64,
    pub kept: u64,
}
