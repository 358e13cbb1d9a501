//! The faults of the next token of a text.

ghost use Rattle.std.specs.Prelude.{◌≡◌, ◌<◌, ◌↔◌, List, Some, None, IsTrue, length, map};
ghost use Rattle.std.specs.Option.{option_copied};
ghost use Rattle.mcs_sets.specs.Sets.{has};
ghost use Rattle.mcs_grammar.specs.Entries.{Entry, Use};
ghost use Rattle.mcs_grammar.specs.Faults as faults;
ghost use Rattle.mcs_grammar.specs.Faults.{Has, ExceedsLimit};
ghost use Rattle.mcs_account.specs.Images.{About, named_read_of};
ghost use Rattle.mcs_faults.specs.Watching.{IsEntryAsked, IsNumberOf, IsLowestFault, AnswersTest};
ghost use Rattle.mcs_account.specs.declared.reader.NamedRead as code_read;
ghost use Rattle.mcs_faults.specs.declared.watch.Watch.{Watch};

use crate::fault::Fault;
use crate::watch::{Said, Watch};
use mcs_account::{NamedRead, Role, Uses, is_name_word, weight_of};
use mcs_base::Vars;
use mcs_system::{Limit, same_formula};

/// The limits, in the order in which they are tested.
const LIMITS: [Limit; 12] = [
    Limit::Contexts,
    Limit::Bridges,
    Limit::RulesPerContext,
    Limit::Variables,
    Limit::InputsPerContext,
    Limit::AtomsPerContext,
    Limit::DefaultsPerContext,
    Limit::ItemsPerContext,
    Limit::Weight,
    Limit::FormulaSize,
    Limit::OpenParentheses,
    Limit::NameBytes,
];

/// Whether both reads are of the same belief of the same context.
fn same_read(read: &NamedRead, other: &NamedRead) -> bool
    ensures { IsTrue result ↔ (named_read_of read.now ≡ named_read_of other.now) }
{
    read.context.is(&other.context) && same_formula(&read.belief, &other.belief)
}

/// Whether the number is in the set; it may be of any size.
pub(crate) fn is_input(inputs: Vars, number: usize) -> bool
    ensures { IsTrue result ↔ ((number < 64) × IsTrue (has inputs number)) }
{
    number < Limit::Variables.most() && inputs.has(number as u32)
}

/// Whether the token can have no fault, whatever was seen before. Most tokens of formulas can't.
fn is_quiet(said: &Said) -> bool
    ensures { (w : Watch) (before : List Use) (m : Entry) (a : About)
        → IsEntryAsked w before m a said.now → IsTrue result
        → (f : faults.TextFault) → ¬ Has f before m }
{
    let Uses {
        role,
        begins_item,
        begins_belief,
        ends_read,
    } = said.uses;
    if begins_item || begins_belief || ends_read {
        return false;
    }
    if said.token.len() > Limit::NameBytes.most() {
        return false;
    }
    match role {
        Role::Nothing => true,
        Role::Counted { number } => {
            if number > Limit::FormulaSize.most() {
                return false;
            }
            true
        }
        _ => false,
    }
}

impl Watch {
    /// The lowest fault of the token, if it has one.
    pub(crate) fn fault_of(&self, said: &Said) -> Option<Fault>
        ensures { (before : List Use) (m : Entry) (a : About)
            → IsEntryAsked self.now before m a said.now → IsLowestFault result before m }
    {
        if is_quiet(said) {
            return None;
        }
        if self.names_no_context(said) {
            return Some(Fault::NoContext);
        }
        if self.names_a_twin(said) {
            return Some(Fault::Twin);
        }
        if self.begins_no_atom(said) {
            return Some(Fault::NoAtom);
        }
        for limit in LIMITS {
            if self.exceeds(limit, said) {
                return Some(Fault::Exceeds(limit));
            }
        }
        None
    }

    /// Whether the token exceeds the limit.
    fn exceeds(&self, limit: Limit, said: &Said) -> bool
        ensures { AnswersTest result (ExceedsLimit limit) self.now said.now }
    {
        match limit {
            Limit::Contexts => self.exceeds_contexts(said),
            Limit::Bridges => self.exceeds_bridges(said),
            Limit::RulesPerContext => self.exceeds_rules(said),
            Limit::Variables => self.exceeds_variables(said),
            Limit::InputsPerContext => self.exceeds_inputs(said),
            Limit::AtomsPerContext => self.exceeds_atoms(said),
            Limit::DefaultsPerContext => self.exceeds_defaults(said),
            Limit::ItemsPerContext => self.exceeds_items(said),
            Limit::Weight => self.exceeds_weight(said),
            Limit::FormulaSize => self.exceeds_size(said),
            Limit::OpenParentheses => self.exceeds_open(said),
            Limit::NameBytes => self.exceeds_bytes(said),
        }
    }

    /// Whether the token has to name a context, and no context has this name.
    fn names_no_context(&self, said: &Said) -> bool
        ensures { AnswersTest result (Has faults.NoContext) self.now said.now }
    {
        match said.uses.role {
            Role::NamesTarget | Role::NamesSource => !self.is_context(said.token),
            _ => false,
        }
    }

    /// Whether the token introduces a context or a rule, and an earlier one has this name.
    fn names_a_twin(&self, said: &Said) -> bool
        ensures { AnswersTest result (Has faults.Twin) self.now said.now }
    {
        match said.uses.role {
            Role::NamesContext => self.is_context(said.token),
            Role::NamesBridge => self.bridges.has(said.token),
            _ => false,
        }
    }

    /// Whether the token begins a head into a program, or a belief of a program, and is not an
    /// atom.
    fn begins_no_atom(&self, said: &Said) -> bool
        ensures { AnswersTest result (Has faults.NoAtom) self.now said.now }
    {
        if !said.uses.begins_belief {
            return false;
        }
        if is_name_word(said.token) {
            return false;
        }
        self.is_program(said.subject.context)
    }

    /// The index of the read among the variables, or the number of variables if it is none of them.
    /// For `None`, which is a read with a name that is too long, it is the number of variables too.
    pub(crate) fn variable_number(&self, read: Option<&NamedRead>) -> usize
        ensures some { (r : code_read.NamedRead) → option_copied read.entry ≡ Some r
            → IsNumberOf (map named_read_of self.now.variables.items) (named_read_of r) result }
        ensures none { option_copied read.entry ≡ None → result ≡ length self.now.variables.items }
    {
        let Some(read) = read else {
            return self.variables.len();
        };
        for (number, variable) in self.variables.iter().enumerate() {
            if same_read(read, variable) {
                return number;
            }
        }
        self.variables.len()
    }

    /// Whether the token begins a context, and there are as many as the limit.
    fn exceeds_contexts(&self, said: &Said) -> bool
        ensures { AnswersTest result (ExceedsLimit Limit.Contexts) self.now said.now }
    {
        match said.uses.role {
            Role::BeginsContext => self.contexts_begun == Limit::Contexts.most(),
            _ => false,
        }
    }

    /// Whether the token begins a bridge rule, and there are as many as the limit.
    fn exceeds_bridges(&self, said: &Said) -> bool
        ensures { AnswersTest result (ExceedsLimit Limit.Bridges) self.now said.now }
    {
        match said.uses.role {
            Role::BeginsBridge => self.bridges_begun == Limit::Bridges.most(),
            _ => false,
        }
    }

    /// Whether the token names the target of a rule, and there are as many rules into it as the
    /// limit.
    fn exceeds_rules(&self, said: &Said) -> bool
        ensures { AnswersTest result (ExceedsLimit Limit.RulesPerContext) self.now said.now }
    {
        match said.uses.role {
            Role::NamesTarget => self.rules_into(self.number_of(said.token))
                == Limit::RulesPerContext.most(),
            _ => false,
        }
    }

    /// Whether the token ends a read of a further variable, and there are as many as the limit.
    fn exceeds_variables(&self, said: &Said) -> bool
        ensures { AnswersTest result (ExceedsLimit Limit.Variables) self.now said.now }
    {
        if self.variables.len() < Limit::Variables.most() {
            return false;
        }
        said.uses.ends_read && self.variable_number(said.read) == self.variables.len()
    }

    /// Whether the token ends a read of a further input of the target, and there are as many as the
    /// limit.
    fn exceeds_inputs(&self, said: &Said) -> bool
        ensures { AnswersTest result (ExceedsLimit Limit.InputsPerContext) self.now said.now }
    {
        let Some(target) = self.contexts.get(said.subject.target) else {
            return false;
        };
        if (target.inputs.count() as usize) < Limit::InputsPerContext.most() {
            return false;
        }
        said.uses.ends_read && !is_input(target.inputs, self.variable_number(said.read))
    }

    /// Whether the token is a further atom of the context, and there are as many as the limit.
    fn exceeds_atoms(&self, said: &Said) -> bool
        ensures { AnswersTest result (ExceedsLimit Limit.AtomsPerContext) self.now said.now }
    {
        let Some(context) = self.contexts.get(said.subject.context) else {
            return false;
        };
        if context.atoms.len() < Limit::AtomsPerContext.most() {
            return false;
        }
        match said.uses.role {
            Role::Atom { .. } => !context.atoms.has(said.token),
            _ => false,
        }
    }

    /// Whether the token begins a default of the context, and there are as many as the limit.
    fn exceeds_defaults(&self, said: &Said) -> bool
        ensures { AnswersTest result (ExceedsLimit Limit.DefaultsPerContext) self.now said.now }
    {
        match said.uses.role {
            Role::BeginsDefault => self.defaults_of(said.subject.context)
                == Limit::DefaultsPerContext.most(),
            _ => false,
        }
    }

    /// Whether the token begins an item of the context, and there are as many as the limit.
    fn exceeds_items(&self, said: &Said) -> bool
        ensures { AnswersTest result (ExceedsLimit Limit.ItemsPerContext) self.now said.now }
    {
        said.uses.begins_item
            && self.items_of(said.subject.context) == Limit::ItemsPerContext.most()
    }

    /// Whether the token is a weight above the limit.
    fn exceeds_weight(&self, said: &Said) -> bool
        ensures { AnswersTest result (ExceedsLimit Limit.Weight) self.now said.now }
    {
        match said.uses.role {
            Role::Weighs => weight_of(said.token) as usize > Limit::Weight.most(),
            _ => false,
        }
    }

    /// Whether the token is the first of a formula, or the first name of a program rule, that
    /// exceeds the limit.
    fn exceeds_size(&self, said: &Said) -> bool
        ensures { AnswersTest result (ExceedsLimit Limit.FormulaSize) self.now said.now }
    {
        match said.uses.role {
            Role::Atom { number } => number == Limit::FormulaSize.most() + 1,
            Role::Counted { number } => number == Limit::FormulaSize.most() + 1,
            _ => false,
        }
    }

    /// Whether the token opens a parenthesis, and as many are open as the limit.
    fn exceeds_open(&self, said: &Said) -> bool
        ensures { AnswersTest result (ExceedsLimit Limit.OpenParentheses) self.now said.now }
    {
        match said.uses.role {
            Role::Opens { within } => within == Limit::OpenParentheses.most(),
            _ => false,
        }
    }

    /// Whether the token is a name that is longer than the limit.
    fn exceeds_bytes(&self, said: &Said) -> bool
        ensures { AnswersTest result (ExceedsLimit Limit.NameBytes) self.now said.now }
    {
        said.token.len() > Limit::NameBytes.most() && is_name_word(said.token)
    }
}
