//! The check of a report on a system, without any search: its certificates are checked step by
//! step, and its listing is compared with the one that follows from its answers alone.
#![tactic(auto)]

mod accepted;
mod certified;
mod cheapest;
mod checking;
mod collecting;
mod difference;
mod finding;
mod judging;
mod laws;
mod oracles;
mod relisting;

pub use accepted::Accepted;
pub use certified::CertifiedOracle;
pub use cheapest::cheapest_by;
pub use checking::{Checked, certify, check_report};
pub use finding::{Finding, Reason, finding_line};
pub use laws::{proved_listings_are_valid, valid_reports_fail_nothing};
