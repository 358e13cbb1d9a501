//! Askers: the trait of what solves the questions of a session.

ghost use Rattle.std.specs.Prelude.{◌≡◌, ◌++◌, ◌<◌, ◌∷◌, [], IfOk, List, OnErr, OnOk, length};
ghost use Rattle.std.specs.Arc.{arc_value};
ghost use Rattle.mcs_session.specs.Keys.{Key, key_of};
ghost use Rattle.mcs_session.specs.Sessions.{CanBeAsked, AreAnswersTo};

use mcs_base::{Active, Memory, Vars};
use mcs_system::System;
use std::alloc::Global;
use std::sync::Arc;

/// Solves questions to contexts of the systems of a session. It keeps a journal of the keys of
/// those that it has solved.
pub trait Asker: Drop {
    /// The journal.
    ghost journal: { Self → List Key };

    /// The projected belief sets that the context of the system accepts with the heads of the rules
    /// in `active`, each once, in the order of states: twice, one list to answer with and one to
    /// keep. The context has to be one of the system's, and the rules have to be rules into it. The
    /// journal grows by the key of the question. If memory runs out, it is as before.
    fn solve(
        &mut self,
        alloc: Global,
        system: &Arc<System>,
        context: u32,
        active: Active,
    ) -> Result<(Vec<Vars>, Vec<Vars>), Memory>
        requires { CanBeAsked (arc_value system.now) context active }
        ensures answer { IfOk result (λ r. AreAnswersTo (arc_value system.now) context active
            r.0.items) }
        ensures twice { IfOk result (λ r. r.1.items ≡ r.0.items) }
        ensures journal { OnOk result (journal self.new
            ≡ journal self.old ++ key_of (arc_value system.now) context active ∷ []) }
        ensures unchanged { OnErr result (journal self.new ≡ journal self.old) };
}
