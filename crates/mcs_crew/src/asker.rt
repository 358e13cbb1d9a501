//! An asker that asks through a closure, which is handed to it.

ghost use Rattle.std.specs.Prelude.{◌≡◌};

use mcs_base::Active;
use mcs_node::{Asked, Asker};
use mcs_states::Oracle;
use std::alloc::Global;
use std::marker::PhantomData;

/// Asks by a closure. It is made where the handle of threads is at hand, and where it is known that
/// oracles may go to other threads, and calls `ask_with_help`.
#[derive(Drop)]
pub(crate) struct CrewAsker<'a, O, F> {
    ask: &'a F,
    of: PhantomData<O>,
}

impl<'a, O, F> CrewAsker<'a, O, F> {
    /// Asks by the closure.
    pub fn new(ask: &'a F) -> CrewAsker<'a, O, F>
        ensures { result.ask.now ≡ ask.now }
    {
        CrewAsker {
            ask,
            of: PhantomData,
        }
    }
}

impl<'a, O: Oracle, F: Fn(u32, O, &[Active]) -> Asked<O>> Asker for CrewAsker<'a, O, F> {
    ghost use Rattle.mcs_crew.specs.Parts.{AsksAll};

    type Of = O;

    ghost asks = { λ a. AsksAll O.stands (λ asked. O.stands asked.oracle)
        (λ asked. asked.answers) F.pre F.post a.ask.now };

    fn ask_all(&self, _alloc: Global, context: u32, oracle: O, questions: &[Active]) -> Asked<O> {
        (self.ask)(context, oracle, questions)
    }
}
