//! A worker takes the letters that its nodes await, and hands each to its node.

ghost use Rattle.std.specs.Prelude.{◌≡◌, ◌+◌, ◌<◌, ◌⊎◌, IfSome, MatchBool, length, vec_len};
ghost use Rattle.mcs_crew.specs.Calls.{load_of, team_of};
ghost use Rattle.mcs_crew.specs.Loads.{CanWork, Worked};
ghost use Rattle.mcs_crew.specs.Teams.{CanTake, GoesOn, HasHadNone, HasHadOne};

use crate::load::{Load, Team};
use crate::sending::send_out;
use crate::workforce::Workforce;
use mcs_draw::Draw;
use mcs_node::{Asker, Letter};
use mcs_states::Oracle;
use std::alloc::Global;
use std::sync::Wait;

/// The place of a context's node among so many, which are those of its group, from the last to the
/// first.
fn place_of(context: u32, nodes: usize, groups: usize) -> Option<usize>
    requires { 0 < groups }
    ensures { IfSome result (λ place. place < nodes) }
{
    let before = context as usize / groups;
    nodes.checked_sub(before + 1)
}

impl<O: Oracle> Team<O> {
    /// Hands the letter to its node, grants this its need, if it waits for it then, and sends what
    /// it puts out. A letter that no node awaits is ignored.
    fn take_in<A: Asker<Of = O>, R: Wait>(
        &mut self,
        rt: &R,
        alloc: Global,
        draw: &Draw,
        asker: &A,
        letter: Letter,
    )
        requires word { self.old.seat.word ≡ draw.now.word }
        requires asks { A.asks asker.now }
        requires team { CanTake letter (team_of self.old) }
        ensures goes_on { GoesOn (team_of self.old) (team_of self.new) }
        ensures had { HasHadOne letter (team_of self.old) (team_of self.new)
            ⊎ HasHadNone (team_of self.old) (team_of self.new) }
    {
        let Some(place) = place_of(letter.to(), self.nodes.len(), self.addresses.len()) else {
            return;
        };
        self.hand_over(rt, alloc, place, letter);
        self.serve(rt, alloc, draw, asker, place);
    }

    /// Hands the letter to the node at the place, and sends what it puts out.
    fn hand_over<R: Wait>(&mut self, rt: &R, alloc: Global, place: usize, letter: Letter)
        requires place { place < vec_len self.old.nodes }
        requires team { CanTake letter (team_of self.old) }
        ensures goes_on { GoesOn (team_of self.old) (team_of self.new) }
        ensures had { HasHadOne letter (team_of self.old) (team_of self.new)
            ⊎ HasHadNone (team_of self.old) (team_of self.new) }
        ensures many { vec_len self.new.nodes ≡ vec_len self.old.nodes }
    {
        let node = &mut self.nodes[place];
        node.receive(alloc, letter);
        send_out(rt, &mut self.addresses, node);
    }
}

impl<O: Oracle> Load<O> {
    /// Works the load: grants the nodes that need no letter, then takes as many letters as the
    /// nodes await, and hands each to its node. It may wait for a letter; then, and once the load
    /// is worked off, its worker rests.
    pub fn work<A: Asker<Of = O>, R: Wait>(
        &mut self,
        rt: &R,
        alloc: Global,
        draw: &Draw,
        workforce: &Workforce,
        asker: &A,
    )
        requires word { self.old.team.seat.word ≡ draw.now.word }
        requires asks { A.asks asker.now }
        requires work { CanWork (load_of self.old) }
        ensures worked { Worked (load_of self.old) (load_of self.new) }
        ensures left { self.new.left ≡ 0 }
    {
        self.begin(rt, alloc, draw, asker);
        while self.left > 0 {
            workforce.rest();
            let letter = self.inbox.take(rt);
            workforce.go_on();
            self.left -= 1;
            self.team.take_in(rt, alloc, draw, asker, letter);
        }
        workforce.rest();
    }

    /// Grants the nodes that need no letter, and sends what they put out.
    fn begin<A: Asker<Of = O>, R: Wait>(&mut self, rt: &R, alloc: Global, draw: &Draw, asker: &A)
        requires word { self.old.team.seat.word ≡ draw.now.word }
        requires asks { A.asks asker.now }
        requires work { CanWork (load_of self.old) }
        ensures worked { Worked (load_of self.old) (load_of self.new) }
        ensures left { self.new.left ≡ self.old.left }
    {
        self.begun = true;
        self.team.begin(rt, alloc, draw, asker);
    }

    /// Does a part of the work without waiting for a letter: the begin, or the next letter if there
    /// is one. Returns whether it did anything.
    pub fn work_on<A: Asker<Of = O>, R: Wait>(
        &mut self,
        rt: &R,
        alloc: Global,
        draw: &Draw,
        asker: &A,
    ) -> bool
        requires word { self.old.team.seat.word ≡ draw.now.word }
        requires asks { A.asks asker.now }
        requires work { CanWork (load_of self.old) }
        ensures worked { Worked (load_of self.old) (load_of self.new) }
    {
        if !self.begun {
            self.begin(rt, alloc, draw, asker);
            return true;
        }
        if self.left == 0 {
            return false;
        }
        let Some(letter) = self.inbox.try_take(rt) else {
            return false;
        };
        self.left -= 1;
        self.team.take_in(rt, alloc, draw, asker, letter);
        true
    }

    /// Whether there is work left.
    pub fn is_busy(&self) -> bool {
        !self.begun || self.left > 0
    }
}
