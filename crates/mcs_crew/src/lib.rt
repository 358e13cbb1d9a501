//! Rounds of questions that threads play: letters go through inboxes, and totals are drawn from the
//! budget word. Threads that wait help to ask.
#![tactic(auto)]

mod asker;
mod child;
mod crew;
mod dealing;
mod ending;
mod equipment;
mod laws;
mod load;
mod parts;
mod player;
mod playing;
mod returning;
mod sending;
mod serving;
mod taking;
mod trail;
mod wires;
mod workforce;

pub use laws::{none_is_ignored, one_letter_is_due};
pub use player::{Crew, CrewPlayer};
pub use playing::play_in_threads;
pub use trail::Trail;
