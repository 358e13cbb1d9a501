//! What proofs know of the ends of a wire.

use mcs_import::Plan;
use mcs_node::Letter;
use std::collections::LinkedList;

/// What an end of a wire knows. It exists in proofs alone.
pub struct View {
    /// How many inboxes it stands for: 1 if it takes letters, otherwise 0.
    pub reads: u32,
    /// The plan that each letter of the wire names.
    pub plan: Plan,
    /// How many addresses the wire has.
    pub addresses: u32,
    /// How many of them it stands for.
    pub parts: u32,
    /// The letters that it has sent, in order, and then those of each address that was joined into
    /// it.
    pub sent: LinkedList<Letter>,
    /// The letters that it has taken, in order.
    pub taken: LinkedList<Letter>,
}
