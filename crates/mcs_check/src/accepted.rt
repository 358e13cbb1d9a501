//! What is left of a valid report.

use crate::certified::CertifiedOracle;
use mcs_recall::Told;

/// What is left of a valid report: oracles, one for each context, in order, which hold its answers
/// and of which none was asked, and what they have told of the system.
#[derive(Drop)]
pub struct Accepted {
    pub(crate) oracles: Vec<CertifiedOracle>,
    pub(crate) told: Told,
}
