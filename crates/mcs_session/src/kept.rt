//! Answers of one context that are kept.

ghost use Rattle.std.specs.Prelude.{◌≡◌, ◌<◌, ◌++◌, ◌∷◌, [], ℕ, List, IfOk, length};
ghost use Rattle.std.specs.Prelude.{OnOk, vec_capacity, vec_len};
ghost use Rattle.mcs_base.specs.Listings.{IsAmong};
ghost use Rattle.mcs_system.specs.Plain as plain;
ghost use Rattle.mcs_session.specs.Kept.{AreKept, HasMoreFormulas, HasPushed, HasRoom, IsSameKept};
ghost use Rattle.mcs_session.specs.Tables.{texts_in, AreWordsOf};

use crate::table::add;
use crate::words::Words;
use indexmap::IndexSet;
use mcs_base::{Memory, Vars};
use mcs_system::System;
use std::alloc::Global;

/// Answers of one context, each under the numbers of the parts of its key: at the place of these
/// numbers in their table. The parts are formulas, which have numbers by first occurrence.
#[derive(Drop)]
pub(crate) struct Kept {
    pub(crate) formulas: IndexSet<Vec<u32>>,
    pub(crate) numbers: IndexSet<Vec<u32>>,
    pub(crate) views: Vec<Vec<Vars>>,
}

/// Appends the value, for which there is room.
pub(crate) fn push_within<T: Drop>(values: &mut Vec<T>, value: T)
    requires { vec_len values.old < vec_capacity values.old }
    ensures { values.new.items ≡ values.old.items ++ value ∷ [] }
{
    match values.push(value) {
        Ok(()) => {}
        Err(_) => unreachable!(),
    }
}

impl Kept {
    /// No answers.
    pub(crate) fn new(alloc: Global) -> Kept
        ensures { (contexts : List plain.Context) (i : ℕ) → AreKept contexts i [] result }
    {
        Kept {
            formulas: IndexSet::new(alloc),
            numbers: IndexSet::new(alloc),
            views: Vec::new(alloc),
        }
    }

    /// The numbers of what the context of the system is asked. New formulas get numbers.
    pub(crate) fn words(
        &mut self,
        alloc: Global,
        system: &System,
        context: u32,
    ) -> Result<Words, Memory>
        requires { context < length system.now.contexts }
        ensures words { IfOk result
            (AreWordsOf (texts_in self.new.formulas.keys) system.now context) }
        ensures grown { HasMoreFormulas self.old self.new }
    {
        Words::of(alloc, &mut self.formulas, system, context)
    }

    /// Makes room for one more answer.
    pub(crate) fn reserve(&mut self) -> Result<(), Memory>
        ensures room { OnOk result (HasRoom self.new) }
        ensures same { IsSameKept self.old self.new }
    {
        self.numbers.reserve(1)?;
        self.views.reserve(1)?;
        Ok(())
    }

    /// Keeps the answer under these numbers, which are not there. There has to be room for it.
    pub(crate) fn push(&mut self, numbers: Vec<u32>, views: Vec<Vars>)
        requires room { HasRoom self.old }
        requires new { ¬ IsAmong numbers.items (texts_in self.old.numbers.keys) }
        ensures { HasPushed self.old numbers.items views.items self.new }
    {
        add(&mut self.numbers, numbers);
        push_within(&mut self.views, views);
    }
}
