//! What a search for the cheapest diagnoses finds.

use mcs_diagnosis::Diagnosis;

/// The cheapest diagnoses of a system.
#[derive(Debug)]
pub struct Cheapest {
    /// The diagnoses that cost no more than any other, in the order of pairs.
    pub found: Vec<Diagnosis>,
    /// What each of them costs, or `None` exactly if there is no diagnosis.
    pub cost: Option<u64>,
    /// The number of questions of the last level that was taken.
    pub need: u64,
}

impl Drop for Cheapest {
    fn drop(self) {
        let Cheapest {
            found: _,
            cost: _,
            need: _,
        } = self;
    }
}
