//! What a worker owns for a round.

use mcs_draw::Seat;
use mcs_node::Node;
use mcs_states::Oracle;
use mcs_wire::{Address, Inbox};

/// The nodes of a group, with what they send letters by and draw totals by.
#[derive(Drop)]
pub(crate) struct Team<O: Oracle> {
    // From the last context of the group to its first.
    pub nodes: Vec<Node<O>>,
    // For each group, in order, an address of its inbox.
    pub addresses: Vec<Address>,
    pub seat: Seat,
}

/// What a worker owns for a round: a team and its inbox.
#[derive(Drop)]
pub(crate) struct Load<O: Oracle> {
    pub team: Team<O>,
    pub inbox: Inbox,
    // Whether the nodes that need no letter were granted their needs.
    pub begun: bool,
    // How many letters the nodes still await.
    pub left: usize,
}
