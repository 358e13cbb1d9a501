//! The grammar as one that a reader reads.

ghost use Rattle.std.specs.Prelude.{◌≡◌};
ghost use Rattle.mcs_productions.specs.Productions.{grammar, root};
ghost use Rattle.mcs_productions.specs.Readable.{reads};

use crate::class::Class;
use crate::production::{Action, Production};
use mcs_syntax::Rules;

impl Rules<Class, Action> for Production {
    ghost grammar = { grammar };

    ghost root = { root };

    fn place(&self) -> usize {
        match self {
            Production::Text => 0,
            Production::Context => 17,
            Production::Item => 53,
            Production::ProgramRule => 68,
            Production::Body => 79,
            Production::Literal => 88,
            Production::Bridge => 92,
            Production::MarkedBridge => 97,
            Production::BridgeTail => 115,
            Production::Read => 132,
            Production::Place => 140,
            Production::Formula => 143,
            Production::Implication => 151,
            Production::Disjunction => 159,
            Production::Conjunction => 167,
            Production::Primary => 175,
        }
    }

    fn wanted(class: &Class) -> u32 {
        class.wanted().number()
    }

    fn depth() -> usize {
        9
    }

    ghost readable = { reads };
}
