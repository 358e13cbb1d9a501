//! A team grants its nodes their needs.

ghost use Rattle.std.specs.Prelude.{◌≡◌, ◌<◌, ◌≤◌, ℕ, vec_len};
ghost use Rattle.mcs_node.specs.Nodes.{IsNeed};
ghost use Rattle.mcs_crew.specs.Calls.{team_of};
ghost use Rattle.mcs_crew.specs.Teams.{CanServe, GoesOn, HasHadNone, IsServed};

use crate::load::Team;
use crate::sending::send_out;
use mcs_draw::{Draw, Seat};
use mcs_node::{Asker, Node};
use mcs_states::Oracle;
use std::alloc::Global;
use std::sync::Wait;

/// If the node waits for its grant, draws its need from the word, and grants it the total that
/// comes back.
fn grant_need<A: Asker>(
    alloc: Global,
    draw: &Draw,
    seat: &mut Seat,
    asker: &A,
    node: &mut Node<A::Of>,
)
    requires word { seat.old.word ≡ draw.now.word }
    requires asks { A.asks asker.now }
    requires room { (need : ℕ) → IsNeed node.old need → need ≤ seat.old.account.left }
    ensures word { seat.new.word ≡ seat.old.word }
    ensures served { IsServed node.old node.new seat.old.account seat.new.account }
{
    let Some(need) = node.needs() else {
        return;
    };
    let total = draw.draw(seat, need);
    node.grant(alloc, total, asker);
}

impl<O: Oracle> Team<O> {
    /// Grants the node at the place its need, if it waits for it, and sends what it puts out.
    pub fn serve<A: Asker<Of = O>, R: Wait>(
        &mut self,
        rt: &R,
        alloc: Global,
        draw: &Draw,
        asker: &A,
        place: usize,
    )
        requires place { place < vec_len self.old.nodes }
        requires word { self.old.seat.word ≡ draw.now.word }
        requires asks { A.asks asker.now }
        requires team { CanServe (team_of self.old) }
        ensures goes_on { GoesOn (team_of self.old) (team_of self.new) }
        ensures had { HasHadNone (team_of self.old) (team_of self.new) }
        ensures many { vec_len self.new.nodes ≡ vec_len self.old.nodes }
    {
        let node = &mut self.nodes[place];
        grant_need(alloc, draw, &mut self.seat, asker, node);
        send_out(rt, &mut self.addresses, node);
    }

    /// Does so with each node, so that those that need no letter go ahead.
    pub fn begin<A: Asker<Of = O>, R: Wait>(
        &mut self,
        rt: &R,
        alloc: Global,
        draw: &Draw,
        asker: &A,
    )
        requires word { self.old.seat.word ≡ draw.now.word }
        requires asks { A.asks asker.now }
        requires team { CanServe (team_of self.old) }
        ensures goes_on { GoesOn (team_of self.old) (team_of self.new) }
        ensures had { HasHadNone (team_of self.old) (team_of self.new) }
    {
        for place in 0..self.nodes.len() {
            self.serve(rt, alloc, draw, asker, place);
        }
    }
}
