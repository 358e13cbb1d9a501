//! The events of a round.

/// Something that may happen in a round of letters. One that is not possible is skipped.
#[derive(Clone, Copy, Debug, PartialEq, Eq)]
pub enum Event {
    /// The node of this context begins the round.
    Begin(u32),
    /// The node of this context, which waits for its grant, is granted its total.
    Grant(u32),
    /// The letter that was put out as number so many, counted from 0, comes to its addressee.
    Deliver(u32),
}
