//! Reading: from the bytes of a text to its system.

ghost use Rattle.std.specs.Prelude.{◌≡◌, ◌≤◌, ℕ, List, Some, length, slice_get, OnOk, IfOk, IfErr};
ghost use Rattle.mcs_tokens.specs.Tokens.{AreTokens};
ghost use Rattle.mcs_tokens.specs.declared.scan.Span as declared;
ghost use Rattle.mcs_grammar.specs.Entries.{Token};
ghost use Rattle.mcs_faults.specs.Watching.{names_seen};
ghost use Rattle.mcs_language.specs.Progress.{AreReadUpTo, AreTokensRead, IsNextRead, IsNumberFor, IsToldOf};
ghost use Rattle.mcs_grammar.specs.Texts.{Spells};

use mcs_account::{Taken, TextReader};
use mcs_base::Memory;
use mcs_faults::{Fault, Subject, TextFault, Watch};
use mcs_productions::Class;
use mcs_system::System;
use mcs_tokens::{Span, next_token};
use std::alloc::Global;

/// The state of reading a text: the parser and the symbol table.
#[derive(Drop)]
pub(crate) struct Reading {
    pub(crate) reader: TextReader,
    pub(crate) watch: Watch,
}

/// Goes through the tokens of the text from `start` on, so that those after a fault are known to be
/// tokens too.
fn pass_tokens(bytes: &[u8], start: usize)
    requires { start ≤ length bytes.now }
    ensures { (spans : List declared.Span) × AreTokens bytes.now start spans }
{
    let mut at = start;
    loop {
        let (from, to) = next_token(bytes, at);
        if from == bytes.len() {
            return;
        }
        at = to;
    }
}

impl Reading {
    /// The state before the first token.
    fn new(alloc: Global) -> Result<Reading, Memory>
        ensures { IfOk result (λ r. (ts : List Token) → AreReadUpTo r ts 0) }
    {
        let reader = TextReader::new(alloc)?;
        Ok(Reading {
            reader,
            watch: Watch::new(alloc),
        })
    }

    /// The number of the context with the token as its name, if the token is the name of a context.
    fn number_of(&self, taken: &Taken, token: &[u8]) -> usize
        ensures { IsNumberFor (names_seen self.now.watch) taken.now.class token.now result }
    {
        match taken.class {
            Class::NamesContext | Class::NamesTarget | Class::NamesSource => {
                self.watch.number_of(token)
            }
            _ => 0,
        }
    }

    /// Takes the next token, and returns its fault, if it has one.
    fn take(&mut self, alloc: Global, token: &[u8]) -> Result<Option<Fault>, Memory>
        ensures { (ts : List Token) (k : ℕ) → AreReadUpTo self.old ts k
            → slice_get ts k ≡ Some token.now → IfOk result (λ f. IsNextRead f self.new ts k) }
    {
        let Some(taken) = self.reader.take(alloc, token)? else {
            return Ok(Some(Fault::NoGrammar));
        };
        let subject = Subject::at(&self.reader.place);
        let number = self.number_of(&taken, token);
        if let Some(fault) = self
            .watch
            .note(alloc, subject, taken.uses, token, self.reader.last_read())?
        {
            return Ok(Some(fault));
        }
        self.reader.pass(&taken, number)?;
        Ok(None)
    }

    /// Takes all tokens of the text, one after the other, up to the first one that has a fault.
    fn read(&mut self, alloc: Global, bytes: &[u8]) -> Result<(), TextFault>
        requires begun { (ts : List Token) → AreReadUpTo self.old ts 0 }
        ensures all { OnOk result (AreTokensRead bytes.now self.new) }
        ensures fault { IfErr result (IsToldOf bytes.now) }
    {
        let mut at = 0;
        loop {
            let (from, to) = next_token(bytes, at);
            if from == bytes.len() {
                return Ok(());
            }
            let span = Span { from, to };
            if let Some(fault) = self.take(alloc, span.text(bytes))? {
                pass_tokens(bytes, to);
                return Err(fault.at(from));
            }
            at = to;
        }
    }

    /// The system of the text, whose tokens were all taken, or the fault that the text may not end
    /// here.
    fn system(self, alloc: Global, bytes: &[u8]) -> Result<System, TextFault>
        requires { AreTokensRead bytes.now self }
        ensures system { IfOk result (Spells bytes.now) }
        ensures fault { IfErr result (IsToldOf bytes.now) }
    {
        let Reading { reader, watch } = self;
        drop(watch);
        if !reader.can_end() {
            drop(reader);
            return Err(Fault::NoGrammar.at(bytes.len()));
        }
        let (contexts, bridges) = reader.into_parts();
        let system = System::of_valid(alloc, contexts, bridges)?;
        Ok(system)
    }
}

/// The system that the text spells, or the first fault of the text. This is the fault of the first
/// token that has one. If this token has several, it is the one with the lowest number; for number
/// 5 it is the first limit in the order of `Limit`. The end of the text counts as a token, with the
/// length of the text as its offset. A text spells at most one system.
pub fn read_system(alloc: Global, bytes: &[u8]) -> Result<System, TextFault>
    ensures system { IfOk result (Spells bytes.now) }
    ensures fault { IfErr result (IsToldOf bytes.now) }
{
    let mut reading = Reading::new(alloc)?;
    match reading.read(alloc, bytes) {
        Ok(()) => reading.system(alloc, bytes),
        Err(fault) => {
            drop(reading);
            Err(fault)
        }
    }
}
