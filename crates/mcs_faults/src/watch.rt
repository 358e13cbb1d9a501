//! The symbol table: what is known of the tokens so far, as far as the faults of the next token
//! depend on it.

ghost use Rattle.std.specs.Prelude.{◌≡◌, ◌↔◌, List, [], count_by, IfOk, IsTrue};
ghost use Rattle.std.specs.List.{AllByRecursion};
ghost use Rattle.std.specs.Option.{option_copied};
ghost use Rattle.mcs_base.specs.Listings.{IsAmong};
ghost use Rattle.mcs_system.specs.Plain.{Name};
ghost use Rattle.mcs_grammar.specs.Entries.{Entry, SaysProgram, Use};
ghost use Rattle.mcs_grammar.specs.Faults.{begins_default_of, begins_item_of, names_target};
ghost use Rattle.mcs_account.specs.Images.{About, IsSpokenOf};
ghost use Rattle.mcs_faults.specs.Watching.{IsNumberOf, IsSaid, IsSubject};
ghost use Rattle.mcs_faults.specs.Watching.{IsFaultVerdict, IsWatch, names_seen};

use crate::fault::Fault;
use crate::names::Names;
use mcs_account::{NamedRead, Place, Uses};
use mcs_base::{Memory, Vars};
use mcs_system::Name;
use std::alloc::Global;

/// What is known of one context.
#[derive(Drop)]
pub(crate) struct ContextSeen {
    pub(crate) name: Name,
    pub(crate) is_program: bool,
    /// How many rules go into it; how many items it has; how many of these are defaults.
    pub(crate) rules: usize,
    pub(crate) items: usize,
    pub(crate) defaults: usize,
    /// Its atoms, each once.
    pub(crate) atoms: Names,
    /// The indices of the variables that rules into it read.
    pub(crate) inputs: Vars,
}

/// The symbol table of a text, after some of its tokens.
#[derive(Drop)]
pub struct Watch {
    /// The contexts, in their order.
    pub(crate) contexts: Vec<ContextSeen>,
    /// The names of the bridge rules, in their order.
    pub(crate) bridges: Names,
    /// The variables: the beliefs that were read, each once.
    pub(crate) variables: Vec<NamedRead>,
    /// How many contexts were begun. The last one may have no name yet.
    pub(crate) contexts_begun: usize,
    /// How many bridge rules were begun. The last one may have no name yet.
    pub(crate) bridges_begun: usize,
}

/// The contexts a token speaks about: the one it is in, or whose belief it is a part of, and,
/// within a read, the target of its rule. A number past the last context means none.
#[derive(Clone, Copy)]
pub struct Subject {
    pub(crate) context: usize,
    pub(crate) target: usize,
}

/// A token: the contexts it speaks about, its uses, its bytes, and the read that ends with it.
#[derive(Clone, Copy)]
pub(crate) struct Said<'a> {
    pub(crate) subject: Subject,
    pub(crate) uses: Uses,
    pub(crate) token: &'a [u8],
    /// `None` if no read ends with the token, or if the read would have a name that is too long.
    pub(crate) read: Option<&'a NamedRead>,
}

impl Subject {
    /// The contexts that the next token at the place speaks about.
    pub fn at(place: &Place) -> Subject
        ensures context { result.context ≡ place.now.context }
        ensures target { result.target ≡ place.now.target }
    {
        Subject {
            context: place.context,
            target: place.target,
        }
    }
}

impl Watch {
    /// The table before the first token.
    pub fn new(alloc: Global) -> Watch
        ensures { IsWatch result [] }
    {
        Watch {
            contexts: Vec::new(alloc),
            bridges: Names::new(alloc),
            variables: Vec::new(alloc),
            contexts_begun: 0,
            bridges_begun: 0,
        }
    }

    /// The lowest fault of the next token. If it has none, the token is recorded. `read` is the
    /// read that ends with the token, if one does and its name is not too long. If memory runs out,
    /// the table can't be used any more: of the token's uses, which are its end of a read, its
    /// beginning of an item and its role, only the first ones may be recorded.
    pub fn note(
        &mut self,
        alloc: Global,
        subject: Subject,
        uses: Uses,
        token: &[u8],
        read: Option<&NamedRead>,
    ) -> Result<Option<Fault>, Memory>
        ensures { (before : List Use) (m : Entry) (a : About) → IsWatch self.old before
            → m.token ≡ token.now → IsSubject self.old a.subject subject
            → IsSaid a m uses (option_copied read.entry)
            → AllByRecursion (IsSpokenOf before) m.uses
            → IfOk result (λ fault. IsFaultVerdict fault before m self.new) }
    {
        let said = Said {
            subject,
            uses,
            token,
            read,
        };
        if let Some(fault) = self.fault_of(&said) {
            return Ok(Some(fault));
        }
        self.record(alloc, &said)?;
        Ok(None)
    }

    /// The number of the context with this name, or the number of contexts so far if there is none.
    pub fn number_of(&self, name: &[u8]) -> usize
        ensures { IsNumberOf (names_seen self.now) name.now result }
    {
        for (number, context) in self.contexts.iter().enumerate() {
            if context.name.bytes() == name {
                return number;
            }
        }
        self.contexts.len()
    }

    /// Whether a context has this name.
    pub(crate) fn is_context(&self, name: &[u8]) -> bool
        ensures { IsTrue result ↔ IsAmong name.now (names_seen self.now) }
    {
        self.number_of(name) < self.contexts.len()
    }

    /// Whether the context with this number is a program.
    pub(crate) fn is_program(&self, number: usize) -> bool
        ensures { (before : List Use) (n : Name) → IsWatch self.now before
            → IsNumberOf (names_seen self.now) n number
            → IsTrue result ↔ IsAmong (SaysProgram n) before }
    {
        match self.contexts.get(number) {
            Some(context) => context.is_program,
            None => false,
        }
    }

    /// How many rules go into the context with this number.
    pub(crate) fn rules_into(&self, number: usize) -> usize
        ensures { (before : List Use) (n : Name) → IsWatch self.now before
            → IsNumberOf (names_seen self.now) n number
            → result ≡ count_by (names_target n) before }
    {
        match self.contexts.get(number) {
            Some(context) => context.rules,
            None => 0,
        }
    }

    /// How many defaults the context with this number has.
    pub(crate) fn defaults_of(&self, number: usize) -> usize
        ensures { (before : List Use) (n : Name) → IsWatch self.now before
            → IsNumberOf (names_seen self.now) n number
            → result ≡ count_by (begins_default_of n) before }
    {
        match self.contexts.get(number) {
            Some(context) => context.defaults,
            None => 0,
        }
    }

    /// How many items the context with this number has.
    pub(crate) fn items_of(&self, number: usize) -> usize
        ensures { (before : List Use) (n : Name) → IsWatch self.now before
            → IsNumberOf (names_seen self.now) n number
            → result ≡ count_by (begins_item_of n) before }
    {
        match self.contexts.get(number) {
            Some(context) => context.items,
            None => 0,
        }
    }
}
