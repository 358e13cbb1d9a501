//! What is kept for a context between questions.

use mcs_classical::Consequences;
use mcs_default::TheoryBase;
use mcs_sat::ClauseBase;

/// What is kept for a context, by the kind of its knowledge base.
#[derive(Drop)]
pub(crate) enum Known {
    /// Clauses that mean the formulas, and what was found to follow from these with heads.
    Classical {
        clauses: ClauseBase,
        found: Consequences,
    },
    /// The clauses of the formulas, as certificates number them.
    Certified(ClauseBase),
    /// A default theory: the clauses of its facts, and what was found of it with heads.
    Theory(TheoryBase),
}
