//! Entries into the symbol table, for tokens without a fault.

ghost use Rattle.std.specs.Prelude.{◌≡◌, ◌<◌, ◌++◌, List, [], ◌∷◌, IfOk, IsTrue, map};
ghost use Rattle.mcs_base.specs.Words.{is_name};
ghost use Rattle.mcs_sets.specs.Sets.{single, union};
ghost use Rattle.mcs_system.specs.Plain.{Name};
ghost use Rattle.mcs_grammar.specs.Entries as entries;
ghost use Rattle.mcs_grammar.specs.Entries.{Entry, Use};
ghost use Rattle.mcs_grammar.specs.Faults as faults;
ghost use Rattle.mcs_grammar.specs.Faults.{Has};
ghost use Rattle.mcs_account.specs.Images.{About, IsNaming, IsSpokenOf, named_read_of, role_uses};
ghost use Rattle.mcs_account.specs.Account.{when};
ghost use Rattle.mcs_faults.specs.Watching.{HaveNoFault, IsUseAllowed, IsEntryAsked};
ghost use Rattle.mcs_faults.specs.Watching.{IsUnseenContext, IsHeld, IsNumberOf};
ghost use Rattle.mcs_faults.specs.Watching.{IsWatch, names_seen};

use crate::names::Names;
use crate::watch::{ContextSeen, Said, Watch};
use mcs_account::{NamedRead, Role};
use mcs_base::{Memory, Vars};
use mcs_system::Name;
use std::alloc::Global;

/// A copy of the read.
fn copy_read(alloc: Global, read: &NamedRead) -> Result<NamedRead, Memory>
    ensures { IfOk result (λ r. named_read_of r ≡ named_read_of read.now) }
{
    Ok(NamedRead {
        context: read.context.copy(alloc)?,
        belief: read.belief.copy(alloc)?,
    })
}

/// The set with the number added, if it is below 64.
fn with_input(inputs: Vars, number: usize) -> Vars
    ensures { number < 64 → result ≡ union inputs (single number) }
{
    if number < 64 {
        return inputs.with(number as u32);
    }
    inputs
}

/// The entry of a context of which only the name was read.
fn fresh(alloc: Global, name: Name) -> ContextSeen
    ensures { IsUnseenContext result name }
{
    ContextSeen {
        name,
        is_program: false,
        rules: 0,
        items: 0,
        defaults: 0,
        atoms: Names::new(alloc),
        inputs: Vars::empty(),
    }
}

impl Watch {
    /// Records a token that has no fault.
    pub(crate) fn record(&mut self, alloc: Global, said: &Said) -> Result<(), Memory>
        ensures { (before : List Use) (m : Entry) (a : About)
            → IsEntryAsked self.old before m a said.now
            → ((f : faults.TextFault) → ¬ Has f before m)
            → IfOk result (λ _. IsWatch self.new (before ++ m.uses)) }
    {
        self.record_end(alloc, said)?;
        self.record_begin(said);
        self.record_role(alloc, said)
    }

    /// Records the token as the end of a read, if it is one.
    fn record_end(&mut self, alloc: Global, said: &Said) -> Result<(), Memory>
        ensures { (before : List Use) (m : Entry) (a : About)
            → IsEntryAsked self.old before m a said.now
            → ((f : faults.TextFault) → ¬ Has f before m)
            → IfOk result (λ _. IsWatch self.new (before
            ++ when said.now.uses.ends_read (entries.EndsRead a.subject.target a.subject.context
            a.belief))) }
    {
        if !said.uses.ends_read {
            return Ok(());
        }
        match said.read {
            Some(read) => self.record_read(alloc, said.subject.target, read),
            None => Ok(()),
        }
    }

    /// Records the token as the beginning of an item, if it is one.
    fn record_begin(&mut self, said: &Said)
        ensures { (before : List Use) (n : Name) → IsWatch self.old before
            → IsNumberOf (names_seen self.old) n said.now.subject.context
            → HaveNoFault before (when said.now.uses.begins_item (entries.BeginsItem n))
            → IsWatch self.new (before ++ when said.now.uses.begins_item (entries.BeginsItem n)) }
    {
        if said.uses.begins_item {
            self.count_item(said.subject.context);
        }
    }

    /// Records the role of the token.
    fn record_role(&mut self, alloc: Global, said: &Said) -> Result<(), Memory>
        ensures { (before : List Use) (a : About) → IsWatch self.old before
            → IsNumberOf (names_seen self.old) a.subject.context said.now.subject.context
            → (IsNaming said.now.uses.role → IsTrue (is_name said.now.token.now))
            → HaveNoFault before (role_uses a said.now.token.now said.now.uses.role)
            → IfOk result (λ _. IsWatch self.new (before
            ++ role_uses a said.now.token.now said.now.uses.role)) }
    {
        match said.uses.role {
            Role::BeginsContext => self.contexts_begun = self.contexts_begun.saturating_add(1),
            Role::BeginsBridge => self.bridges_begun = self.bridges_begun.saturating_add(1),
            Role::NamesContext => return self.name_context(alloc, said.token),
            Role::NamesBridge => return self.name_bridge(alloc, said.token),
            Role::SaysProgram => self.say_program(said.subject.context),
            Role::BeginsDefault => self.count_default(said.subject.context),
            Role::NamesTarget => self.count_rule(self.number_of(said.token)),
            Role::Atom { .. } => return self.add_atom(alloc, said.subject.context, said.token),
            Role::Nothing
            | Role::NamesSource
            | Role::Weighs
            | Role::Counted { .. }
            | Role::Opens { .. } => {}
        }
        Ok(())
    }

    /// Records a context with this name.
    fn name_context(&mut self, alloc: Global, token: &[u8]) -> Result<(), Memory>
        ensures { (before : List Use) → IsWatch self.old before → IsTrue (is_name token.now)
            → IsUseAllowed before (entries.NamesContext token.now)
            → IfOk result (λ _. IsWatch self.new (before ++ entries.NamesContext token.now ∷ [])) }
    {
        if let Some(name) = Name::read(alloc, token)? {
            self.contexts.push(fresh(alloc, name))?;
        }
        Ok(())
    }

    /// Records a bridge rule with this name.
    fn name_bridge(&mut self, alloc: Global, token: &[u8]) -> Result<(), Memory>
        ensures { (before : List Use) → IsWatch self.old before → IsTrue (is_name token.now)
            → IsUseAllowed before (entries.NamesBridge token.now)
            → IfOk result (λ _. IsWatch self.new (before ++ entries.NamesBridge token.now ∷ [])) }
    {
        self.bridges.add(alloc, token)?;
        Ok(())
    }

    /// Records that the context with this number is a program.
    fn say_program(&mut self, number: usize)
        ensures { (before : List Use) (n : Name) → IsWatch self.old before
            → IsNumberOf (names_seen self.old) n number → IsSpokenOf before (entries.SaysProgram n)
            → IsWatch self.new (before ++ entries.SaysProgram n ∷ []) }
    {
        if let Some(context) = self.contexts.get_mut(number) {
            context.is_program = true;
        }
    }

    /// Records one more item of the context with this number.
    fn count_item(&mut self, number: usize)
        ensures { (before : List Use) (n : Name) → IsWatch self.old before
            → IsNumberOf (names_seen self.old) n number → IsSpokenOf before (entries.BeginsItem n)
            → IsUseAllowed before (entries.BeginsItem n)
            → IsWatch self.new (before ++ entries.BeginsItem n ∷ []) }
    {
        if let Some(context) = self.contexts.get_mut(number) {
            context.items = context.items.saturating_add(1);
        }
    }

    /// Records one more default of the context with this number.
    fn count_default(&mut self, number: usize)
        ensures { (before : List Use) (n : Name) → IsWatch self.old before
            → IsNumberOf (names_seen self.old) n number
            → IsSpokenOf before (entries.BeginsDefault n)
            → IsUseAllowed before (entries.BeginsDefault n)
            → IsWatch self.new (before ++ entries.BeginsDefault n ∷ []) }
    {
        if let Some(context) = self.contexts.get_mut(number) {
            context.defaults = context.defaults.saturating_add(1);
        }
    }

    /// Records one more rule into the context with this number.
    fn count_rule(&mut self, number: usize)
        ensures { (before : List Use) (n : Name) → IsWatch self.old before
            → IsNumberOf (names_seen self.old) n number
            → IsUseAllowed before (entries.NamesTarget n)
            → IsWatch self.new (before ++ entries.NamesTarget n ∷ []) }
    {
        if let Some(context) = self.contexts.get_mut(number) {
            context.rules = context.rules.saturating_add(1);
        }
    }

    /// Records an atom of the context with this number, unless it is known.
    fn add_atom(&mut self, alloc: Global, number: usize, token: &[u8]) -> Result<(), Memory>
        ensures { (before : List Use) (n : Name) → IsWatch self.old before
            → IsNumberOf (names_seen self.old) n number → IsTrue (is_name token.now)
            → IsSpokenOf before (entries.AtomOf n token.now)
            → IsUseAllowed before (entries.AtomOf n token.now)
            → IfOk result (λ _. IsWatch self.new (before ++ entries.AtomOf n token.now ∷ [])) }
    {
        let Some(context) = self.contexts.get_mut(number) else {
            return Ok(());
        };
        if context.atoms.has(token) {
            return Ok(());
        }
        context.atoms.add(alloc, token)?;
        Ok(())
    }

    /// Records the end of a read, of a rule into the context with number `target`.
    fn record_read(&mut self, alloc: Global, target: usize, read: &NamedRead) -> Result<(), Memory>
        ensures { (before : List Use) (t : Name) → IsWatch self.old before
            → IsNumberOf (names_seen self.old) t target
            → let r = named_read_of read.now in IsSpokenOf before
            (entries.EndsRead t r.context r.belief)
            → IsUseAllowed before (entries.EndsRead t r.context r.belief)
            → IfOk result (λ _. IsWatch self.new (before
            ++ entries.EndsRead t r.context r.belief ∷ [])) }
    {
        let number = self.hold(alloc, read)?;
        if let Some(context) = self.contexts.get_mut(target) {
            context.inputs = with_input(context.inputs, number);
        }
        Ok(())
    }

    /// The index of the read among the variables. It is added to them if it is not among them.
    fn hold(&mut self, alloc: Global, read: &NamedRead) -> Result<usize, Memory>
        ensures held { IfOk result (λ number. IsHeld (map named_read_of self.old.variables.items)
            (map named_read_of self.new.variables.items) (named_read_of read.now) number) }
        ensures rest { self.new ≡ record self.old { variables = self.new.variables } }
    {
        let number = self.variable_number(Some(read));
        if number == self.variables.len() {
            self.variables.push(copy_read(alloc, read)?)?;
        }
        Ok(number)
    }
}
