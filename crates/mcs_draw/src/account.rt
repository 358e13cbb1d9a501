//! What proofs know of a word and of its seats.

/// The account of a seat. It exists in proofs alone.
pub struct Account {
    /// What the seat may still draw.
    pub left: u64,
    /// What the seat has drawn.
    pub drawn: u64,
    /// The greatest total that a draw of the seat returned, or that it got by a join.
    pub top: u64,
}

/// A seat as the rule of its word sees it. It exists in proofs alone.
pub struct View {
    /// Whether the seat was joined to another one and is gone.
    pub away: bool,
    pub account: Account,
}

/// Where a word begins, and how much may be drawn from it.
#[derive(Drop)]
pub struct Terms {
    pub base: u64,
    pub room: u64,
}
