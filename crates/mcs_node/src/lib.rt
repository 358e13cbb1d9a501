//! One context in a round of questions: the letters that it has and puts out, what it is asked, and
//! how it stops. What rounds of letters come to is here too, as laws of plain data.
#![tactic(auto)]

mod answers;
mod asking;
mod content;
mod event;
mod handled;
mod known;
mod laws;
mod letter;
mod node;
mod receiving;
mod round;
mod sending;
mod shared;

pub use asking::{Asked, Asker, InTurn};
pub use content::Content;
pub use event::Event;
pub use handled::Handled;
pub use known::Known;
pub use laws::{
    calls_are_steps, done_rounds_are_alike, done_rounds_are_quiet, events_have_steps,
    quiet_rounds_are_done, replays_add_up, steps_keep_soundness, totals_count_questions,
    two_contexts_are_replayed, two_contexts_take_turns, unsound_is_refused,
};
pub use letter::Letter;
pub use node::Node;
