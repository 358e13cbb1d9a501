//! What a knowledge base is asked.

use mcs_base::Active;
use mcs_classical::Given;

/// A question to a knowledge base: which of the beliefs it has, with those of the assumptions as
/// heads whose rules are in the set. A certificate is to show the answer if `certify` holds.
#[derive(Clone, Copy)]
pub(crate) struct Question<'a> {
    pub(crate) given: &'a Given<'a>,
    pub(crate) rules: Active,
    pub(crate) certify: bool,
}
