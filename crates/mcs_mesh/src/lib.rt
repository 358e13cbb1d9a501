//! The evaluation of a system: rounds of questions to its contexts, which a player plays, and one
//! final step. The player of this crate takes one context after the other on one thread.
#![tactic(auto)]

mod answering;
mod cheapest;
mod each;
mod evaluation;
mod found;
mod lasting;
mod letters;
mod making;
mod mesh;
mod nodes;
mod player;
mod replay;
mod supplies;
mod tables;
mod turns;

pub use answering::{repairs_of, states_of};
pub use each::EachLevel;
pub use evaluation::{Evaluation, Parts};
pub use making::nodes_of;
pub use mesh::Mesh;
pub use nodes::{NodeList, Nodes};
pub use player::{Played, Player, Round};
pub use replay::Replay;
pub use turns::{TurnPlayer, begin_all};
