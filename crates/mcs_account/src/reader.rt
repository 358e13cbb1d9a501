//! Reading a text token by token: the grammar's reader, the account, and the place.

ghost use Rattle.std.specs.Prelude.{◌≡◌, ◌≤◌, ◌↔◌, ◌&&◌, not, true, false, IfOk, IsTrue, MatchOption, []};
ghost use Rattle.std.specs.Prelude.{List, Some, None, length, map};
ghost use Rattle.mcs_syntax.specs.Reads.{IsRead};
ghost use Rattle.mcs_syntax.specs.Parts.{rest};
ghost use Rattle.mcs_syntax.specs.Prompt.{are_prompt};
ghost use Rattle.mcs_system.specs.Plain as plain;
ghost use Rattle.mcs_productions.specs.Productions.{grammar};
ghost use Rattle.mcs_productions.specs.declared.class.Class.TheVariants as class;
ghost use Rattle.mcs_system.specs.Limits.{most};
ghost use Rattle.mcs_system.specs.declared.limit.Limit.TheVariants as limits;
ghost use Rattle.mcs_grammar.specs.Entries.{Token};
ghost use Rattle.mcs_account.specs.Account as said;
ghost use Rattle.mcs_account.specs.Account.{bare_context, greatest_number, place_after};
ghost use Rattle.mcs_account.specs.Images.{IsPlace, account_of, context_chosen, names_of};
ghost use Rattle.mcs_account.specs.Images.{target_chosen};
ghost use Rattle.mcs_account.specs.Reading.{Events, class_in, ends_in, heard};
ghost use Rattle.mcs_account.specs.Taken.{IsEnd, IsEndedRead, IsReaderAt, IsRuleReaderAt};
ghost use Rattle.mcs_account.specs.Taken.{IsTokenTaken};
ghost use Rattle.mcs_account.specs.Taken.{NamesAreShort, ended_with, is_long};

use crate::account::Account;
use crate::place::{Place, Uses};
use mcs_base::Memory;
use mcs_productions::{Action, Class, Production, Terminal, productions};
use mcs_syntax::{Event, Reader};
use mcs_system::{Bridge, Context, Formula, Name};
use mcs_tokens::{TokenKind, kind_of};
use std::alloc::Global;
use std::mem;

/// A reader of a text, after some of its tokens.
#[derive(Drop)]
pub struct TextReader {
    pub reader: Reader<'static, Class, Action, Production>,
    /// The events of the last token.
    pub events: Vec<Event<Class, Action>>,
    pub account: Account,
    pub place: Place,
    /// The read that ends with the last token, until the token is passed.
    pub ended: Option<NamedRead>,
}

/// A belief of a context that is given by its name.
#[derive(Drop)]
pub struct NamedRead {
    pub context: Name,
    pub belief: Formula,
}

/// A token that was taken: its class, and what it is there for.
#[derive(Clone, Copy)]
pub struct Taken {
    pub class: Class,
    pub uses: Uses,
}

/// What the events of one token say: its class, and whether a read ends with it.
#[derive(Clone, Copy)]
pub struct Heard {
    pub class: Class,
    pub ends_read: bool,
}

/// Whether the token is a name that is too long.
fn is_long_name(kind: TokenKind) -> bool
    ensures { result ≡ is_long kind }
{
    matches!(kind, TokenKind::LongName)
}

/// Hands the events of the token to the account, but for the end of a read. A name that is too long
/// is not handed to it.
fn hear(
    alloc: Global,
    account: &mut Account,
    events: &[Event<Class, Action>],
    token: &[u8],
    is_long: bool,
) -> Result<Heard, Memory>
    requires names { is_long ≡ false → NamesAreShort events.now token.now }
    ensures class { IfOk result (λ h. h.class ≡ class_in class.IsAtom events.now) }
    ensures ends { IfOk result (λ h. h.ends_read ≡ ends_in events.now) }
    ensures account { IfOk result (λ _. is_long ≡ false
        → account_of account.new ≡ heard (account_of account.old) token.now events.now) }
{
    let mut said = Heard {
        class: Class::IsAtom,
        ends_read: false,
    };
    for event in events {
        match *event {
            Event::Took(class) => {
                said.class = class;
                if !is_long {
                    account.took(alloc, class, token)?;
                }
            }
            Event::Told(Action::EndsRead) => said.ends_read = true,
            Event::Told(action) => account.told(alloc, action)?,
        }
    }
    Ok(said)
}

impl TextReader {
    /// The reader before the first token.
    pub fn new(alloc: Global) -> Result<TextReader, Memory>
        ensures read { IfOk result (λ r. IsReaderAt r [] []) }
        ensures context { IfOk result (λ r. r.place.context ≡ 0) }
        ensures target { IfOk result (λ r. r.place.target ≡ 0) }
    {
        let mut reader = Reader::new(alloc, productions())?;
        let mut events = Vec::new(alloc);
        reader.start(&Production::Text, &mut events)?;
        Ok(TextReader {
            reader,
            events,
            account: Account::new(alloc),
            place: Place::new(),
            ended: None,
        })
    }

    /// The reader of a bridge rule of a system with these contexts, before its first token. The
    /// rule may have marks and a weight.
    pub fn of_rule(alloc: Global, contexts: &[Context]) -> Result<TextReader, Memory>
        ensures read { IfOk result (λ r. IsRuleReaderAt (names_of contexts.now) r [] []) }
        ensures few { IfOk result (λ _. length contexts.now ≤ greatest_number) }
    {
        let reader = TextReader {
            reader: Reader::new(alloc, productions())?,
            events: Vec::new(alloc),
            account: Account::of_contexts(alloc, contexts)?,
            place: Place::new(),
            ended: None,
        };
        reader.next_rule(alloc)
    }

    /// The reader of a further bridge rule, before its first token. All that was read is forgotten
    /// but the names of the contexts.
    pub fn next_rule(self, alloc: Global) -> Result<TextReader, Memory>
        requires prompt { are_prompt grammar self.reader.0 (length self.reader.0) ≡ true }
        ensures { (names : List plain.Name)
            → (account_of self.account).contexts ≡ map bare_context names
            → IfOk result (λ r. IsRuleReaderAt names r [] []) }
    {
        let TextReader {
            reader,
            events,
            account,
            ended,
            ..
        } = self;
        drop(ended);
        let mut reader = reader;
        let mut events = events;
        let mut account = account;
        events.clear();
        account.forget(alloc);
        reader.start(&Production::MarkedBridge, &mut events)?;
        Ok(TextReader {
            reader,
            events,
            account,
            place: Place::new(),
            ended: None,
        })
    }

    /// Takes the next token, and returns what it is there for, or `None` if no text goes on with
    /// it. The token has to be passed before the next one is taken. A name that is too long is
    /// taken too, but the text can't be read on after it. If memory runs out, the reader can't be
    /// used any more.
    pub fn take(&mut self, alloc: Global, token: &[u8]) -> Result<Option<Taken>, Memory>
        ensures { IfOk result (λ taken. IsTokenTaken taken self.old self.new token.now) }
    {
        self.events.clear();
        let kind = kind_of(token);
        if !self
            .reader
            .take(Terminal::of(kind).number(), &mut self.events)?
        {
            return Ok(None);
        }
        let is_long = is_long_name(kind);
        let said = hear(alloc, &mut self.account, &self.events, token, is_long)?;
        self.end_read(alloc, said.ends_read, is_long)?;
        Ok(Some(Taken {
            class: said.class,
            uses: self.place.uses(said.class, said.ends_read),
        }))
    }

    /// Keeps the read that ends, if one does and has no name that is too long.
    fn end_read(&mut self, alloc: Global, ends: bool, is_long: bool) -> Result<(), Memory>
        ensures rest { IfOk result (λ _. self.new
            ≡ record self.old { account = self.new.account; ended = self.new.ended }) }
        ensures read { IfOk result (λ _. IsEnd (ends && not is_long) self.old self.new) }
    {
        let ended = if ends && !is_long {
            self.take_read(alloc)?
        } else {
            None
        };
        drop(mem::replace(&mut self.ended, ended));
        Ok(())
    }

    /// Takes the read of the context that is spoken of, whose belief is whole.
    fn take_read(&mut self, alloc: Global) -> Result<Option<NamedRead>, Memory>
        ensures rest { IfOk result (λ _. self.new
            ≡ record self.old { account = self.new.account }) }
        ensures read { IfOk result (λ read. IsEndedRead read self.old self.new) }
    {
        let Some(context) = self.account.contexts.get(self.place.context) else {
            return Ok(None);
        };
        let context = context.name.copy(alloc)?;
        match self.account.take_belief() {
            Some(belief) => Ok(Some(NamedRead { context, belief })),
            None => {
                drop(context);
                Ok(None)
            }
        }
    }

    /// The read that ends with the token that was taken, if one does and has no name that is too
    /// long.
    pub fn last_read(&self) -> Option<&NamedRead>
        ensures { MatchOption result (self.now.ended ≡ None) (λ r. self.now.ended ≡ Some r.now) }
    {
        self.ended.as_ref()
    }

    /// Goes on after the token that was taken. `number` is that of the context with its name, if it
    /// is the name of one.
    pub fn pass(&mut self, taken: &Taken, number: usize) -> Result<(), Memory>
        ensures reader { IfOk result (λ _. self.new.reader ≡ self.old.reader) }
        ensures account { IfOk result (λ _. account_of self.new.account
            ≡ ended_with self.old.ended (account_of self.old.account)) }
        ensures place { IfOk result (λ _. (p : said.Place) (t : Token) → IsPlace self.old.place p
            → p.opened ≤ most limits.OpenParentheses
            → IsPlace self.new.place (place_after p taken.now.class t)) }
        ensures context { IfOk result (λ _. self.new.place.context
            ≡ context_chosen taken.now.class number self.old.place.context) }
        ensures target { IfOk result (λ _. self.new.place.target
            ≡ target_chosen taken.now.class number self.old.place.target) }
    {
        self.place = self.place.after(taken.class, number);
        match self.ended.take() {
            Some(read) => {
                let NamedRead { context, belief } = read;
                drop(context);
                self.account.add_read(belief)
            }
            None => Ok(()),
        }
    }

    /// Whether the text may end here.
    pub fn can_end(&self) -> bool
        ensures { IsTrue result ↔ ((xs : Events) × IsRead grammar (rest self.now.reader) [] xs) }
    {
        self.reader.can_end()
    }

    /// The contexts and the bridge rules that were read.
    pub fn into_parts(self) -> (Vec<Context>, Vec<Bridge>)
        ensures { result ≡ (self.account.contexts, self.account.bridges) }
    {
        let TextReader {
            reader,
            events,
            account,
            ended,
            ..
        } = self;
        drop((reader, events, ended));
        account.into_parts()
    }
}
