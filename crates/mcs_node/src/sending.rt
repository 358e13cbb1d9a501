//! The letters that a node puts out.

ghost use Rattle.std.specs.Prelude.{ℕ, List, MatchOption};
ghost use Rattle.mcs_system.specs.Plain.{System};
ghost use Rattle.mcs_node.specs.Keeping.{HandsOutLast, HandsOutNone, MayHandOut};

use crate::letter::Letter;
use crate::round::{InRound, Stage};

/// The next letter of the context that was not handed out yet: to the last of the receivers for
/// which there is an envelope.
pub(crate) fn next_letter(receivers: &[u32], context: u32, round: &mut InRound) -> Option<Letter>
    requires { (m : System) × (supplies : List ℕ)
        × MayHandOut m context receivers.now supplies round.old }
    ensures { (m : System) (supplies : List ℕ)
        → MayHandOut m context receivers.now supplies round.old → MatchOption result
        (HandsOutNone m context receivers.now supplies round.old round.new)
        (HandsOutLast m context receivers.now supplies round.old round.new) }
{
    if round.envelopes.is_empty() {
        return None;
    }
    match &round.stage {
        Stage::Waits => None,
        Stage::Done { .. } => {
            let Some(plan) = round.envelopes.pop() else {
                unreachable!()
            };
            let Some(states) = round.copies.pop() else {
                unreachable!()
            };
            let to = receivers[round.envelopes.len()];
            Some(Letter::supply(plan, round.level, context, to, states))
        }
        Stage::Stopped { halt, .. } => {
            let halt = *halt;
            let Some(plan) = round.envelopes.pop() else {
                unreachable!()
            };
            let to = receivers[round.envelopes.len()];
            Some(Letter::stop(plan, round.level, context, to, halt))
        }
    }
}
