//! The reader of the texts of a grammar.

ghost use Rattle.std.specs.Prelude.{◌≡◌, ◌<◌, ◌↔◌, IfOk, IsTrue, List, [], ℕ};
ghost use Rattle.mcs_syntax.specs.declared.part.Event.{Event};
ghost use Rattle.mcs_syntax.specs.Grammar.{Rule};
ghost use Rattle.mcs_syntax.specs.Reads.{Goes, IsEnded, IsRead, IsTaken};
ghost use Rattle.mcs_syntax.specs.Parts.{IsTable, rest};

use crate::front::Table;
use crate::part::{Event, Part, Rules};
use crate::step::{begin, go, may_go, step};
use mcs_base::Memory;
use std::alloc::Global;
use std::marker::Model;

/// A reader of the texts of a grammar, token by token. It is told the kinds of the tokens in turn
/// and tells the events: the class of each token, and the actions between them. An action is told
/// with the token before it where nothing but actions comes between; where a rule or a choice
/// begins with it, with the token after it or at the end.
///
/// The model is the list of the grammar's parts, and the places in it that are still to come, the
/// next one last.
#[derive(Drop)]
pub struct Reader<'t, C, A, N: Rules<C, A>> {
    table: Table<'t, C, A, N>,
    stack: Vec<usize>,
}

impl<'t, C, A, N: Rules<C, A>> Model for Reader<'t, C, A, N> {
    ghost use Rattle.std.specs.Prelude.{List, ℕ};
    ghost use Rattle.mcs_syntax.specs.declared.part.Part.{Part};
    ghost use Rattle.mcs_syntax.specs.Parts.{IsStack};

    ghost Value = { List (Part C A N) × List ℕ };

    ghost view = { λ r. (r.table, r.stack.items) };

    ghost invariant = { λ r. IsStack N.grammar r.table r.stack.items };
}

impl<'t, C: Copy, A: Copy, N: Rules<C, A>> Reader<'t, C, A, N> {
    /// A reader of the grammar with these parts. Until it is started, it reads the empty text
    /// alone.
    pub fn new(alloc: Global, parts: &'t [Part<C, A, N>]) -> Result<Reader<'t, C, A, N>, Memory>
        requires { IsTable N.grammar N.root parts.now }
        ensures { IfOk result (λ reader. reader ≡ (parts.now, [])) }
    {
        let table = Table::new(alloc, parts)?;
        let stack = Vec::new(alloc);
        Ok(Reader { table, stack })
    }

    /// Begins a text of the rule. What was still to come before is forgotten. The events of what
    /// stands before any token are added.
    pub fn start(&mut self, rule: &N, events: &mut Vec<Event<C, A>>) -> Result<(), Memory>
        ensures goes { IfOk result (λ _. Goes N.grammar (Rule rule.now) [] (rest self.new)
            events.old.items events.new.items) }
        ensures parts { self.new.0 ≡ self.old.0 }
    {
        self.stack.clear();
        match begin(&self.table, rule, &mut self.stack, events) {
            Ok(()) => Ok(()),
            Err(memory) => {
                self.stack.clear();
                Err(memory)
            }
        }
    }

    /// Takes the next token, of this kind (below 128), and adds its events. Returns `false` if no
    /// text goes on with it; then nothing has changed. If memory runs out, the reader has to be
    /// started anew.
    pub fn take(&mut self, kind: u32, events: &mut Vec<Event<C, A>>) -> Result<bool, Memory>
        requires { kind < 128 }
        ensures taken { IfOk result (λ taken. IsTaken N.grammar taken kind (rest self.old)
            (rest self.new) events.old.items events.new.items) }
        ensures parts { self.new.0 ≡ self.old.0 }
    {
        if !may_go(&self.table, &self.stack, Some(kind)) {
            return Ok(false);
        }
        match step(&self.table, kind, &mut self.stack, events) {
            Ok(()) => Ok(true),
            Err(memory) => {
                self.stack.clear();
                Err(memory)
            }
        }
    }

    /// Whether the text may end here.
    pub fn can_end(&self) -> bool
        ensures { IsTrue result ↔ ((xs : List (Event C A))
            × IsRead N.grammar (rest self.now) [] xs) }
    {
        may_go(&self.table, &self.stack, None)
    }

    /// Ends the text, and adds the events that come after its last token. Returns `false` if the
    /// text cannot end here; then nothing has changed.
    pub fn end(&mut self, events: &mut Vec<Event<C, A>>) -> Result<bool, Memory>
        ensures { IfOk result (λ ended. IsEnded N.grammar ended (rest self.old)
            (rest self.new) events.old.items events.new.items) }
    {
        if !may_go(&self.table, &self.stack, None) {
            return Ok(false);
        }
        match go(&self.table, None, &mut self.stack, events) {
            Ok(()) => {
                self.stack.clear();
                Ok(true)
            }
            Err(memory) => {
                self.stack.clear();
                Err(memory)
            }
        }
    }
}
