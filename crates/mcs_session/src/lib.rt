//! Edit sessions: a system that is edited and listed again and again, with the answers of its
//! contexts kept between the listings.
#![tactic(auto)]

mod answers;
mod asked;
mod asker;
mod kept;
mod laws;
mod oracle;
mod places;
mod session;
mod spelled;
mod table;
mod words;

pub use answers::Answers;
pub use asker::Asker;
pub use laws::{key_texts_differ, same_keys_have_same_answers, worked_keys};
pub use oracle::KeptOracle;
pub use session::Session;
