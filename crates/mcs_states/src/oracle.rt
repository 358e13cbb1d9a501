//! Oracles: the trait of what answers questions to one context.

ghost use Rattle.std.specs.Prelude.{◌≡◌, IfOk, IfErr, OnOk, OnErr};
ghost use Rattle.mcs_sets.specs.Sets.{Within};
ghost use Rattle.mcs_system.specs.Imports.{rules_into};
ghost use Rattle.mcs_states.specs.Oracles.{OracleState, AreAnswers, after_asking, Lacks};
ghost use Rattle.mcs_states.specs.Oracles.{HasStopCause};

use crate::stop::OracleStop;
use mcs_base::{Active, Vars};
use std::alloc::Global;

/// Answers which projected belief sets a context of a system accepts with the heads of some of the
/// rules into it. An oracle keeps a journal of the questions asked; nothing else of it changes.
pub trait Oracle: Drop {
    /// The system and the context, the journal, the sets of rules for which there is an answer if
    /// the oracle can miss one, and the origin.
    ghost stands: { Self → OracleState };

    /// The projected belief sets that the context accepts with the heads of the rules in `active`:
    /// each once, in the order of states. These have to be rules into the context. After a stop the
    /// journal is as before. `Missing`, with this very set, is returned exactly if the oracle can
    /// miss answers and has none for it, unless `Memory` is returned in its place.
    fn ask(&mut self, alloc: Global, active: Active) -> Result<Vec<Vars>, OracleStop>
        requires { Within active (rules_into (stands self.old).system (stands self.old).context) }
        ensures answer { IfOk result (λ states. AreAnswers (stands self.old) active states.items) }
        ensures held { OnOk result (¬ Lacks (stands self.old) active) }
        ensures journal { OnOk result (stands self.new ≡ after_asking active (stands self.old)) }
        ensures stop { IfErr result (HasStopCause (stands self.old) active) }
        ensures unchanged { OnErr result (stands self.new ≡ stands self.old) };
}
