//! What was read of a text: its contexts and bridge rules so far, and what is being read.

ghost use Rattle.std.specs.Prelude.{◌≡◌, ◌≤◌, List, length, map, IfOk, IsTrue, MatchOption, [], ◌∷◌, ◌++◌};
ghost use Rattle.mcs_base.specs.Words.{is_name};
ghost use Rattle.mcs_productions.specs.Productions.{wanted};
ghost use Rattle.mcs_productions.specs.declared.class.Class.TheVariants as class;
ghost use Rattle.mcs_productions.specs.declared.production.Action.TheVariants as action;
ghost use Rattle.mcs_productions.specs.declared.terminal.Terminal.TheVariants as terminal;
ghost use Rattle.mcs_system.specs.Plain as plain;
ghost use Rattle.mcs_system.specs.Seen.{context_of, formula_of, rule_of};
ghost use Rattle.mcs_system.specs.Seen as seen;
ghost use Rattle.mcs_account.specs.Account as said;
ghost use Rattle.mcs_account.specs.Account.{IsJoining, account_in, bare_context, greatest_number};
ghost use Rattle.mcs_account.specs.Account.{no_account, no_rule, number_of};
ghost use Rattle.mcs_account.specs.Items.{kind_said};
ghost use Rattle.mcs_account.specs.Account.{told, took, weight_of};
ghost use Rattle.mcs_account.specs.Images.{account_of, names_of, operands_of};

use crate::items::{add_item, empty_kb, joined};
use mcs_base::Memory;
use mcs_productions::{Action, Class};
use mcs_system::{Bridge, Context, Formula, Kb, Name, ProgRule, Read};
use std::alloc::Global;
use std::mem;

/// What was read of a text. The last context and the last bridge rule may still grow.
#[derive(Drop)]
pub struct Account {
    pub contexts: Vec<Context>,
    pub bridges: Vec<Bridge>,
    /// The formulas that are whole, and no part of an item or a rule yet.
    pub operands: Vec<Formula>,
    /// The program rule that is being read.
    pub rule: ProgRule,
    /// Whether the literal or the read that is being read is denied.
    pub denied: bool,
    /// The number of the context of the read.
    pub source: u32,
}

/// A program rule without atoms.
fn empty_rule(alloc: Global) -> ProgRule
    ensures { rule_of result ≡ no_rule }
{
    ProgRule {
        head: Vec::new(alloc),
        pos: Vec::new(alloc),
        neg: Vec::new(alloc),
    }
}

/// The number that the digits spell, or the greatest one that there is if it is greater.
pub fn weight_of(digits: &[u8]) -> u32
    ensures { result ≡ weight_of digits.now }
{
    let mut weight: u32 = 0;
    for digit in digits {
        let value = u32::from(digit.saturating_sub(b'0'));
        weight = weight.saturating_mul(10).saturating_add(value);
    }
    weight
}

/// Appends the name with these bytes.
fn push_name(alloc: Global, names: &mut Vec<Name>, token: &[u8]) -> Result<(), Memory>
    requires { IsTrue (is_name token.now) }
    ensures { IfOk result (λ _. names.new.items ≡ names.old.items ++ token.now ∷ []) }
{
    if let Some(name) = Name::read(alloc, token)? {
        names.push(name)?;
    }
    Ok(())
}

/// A context of which the name alone is known.
fn bare_context(alloc: Global, name: &Name) -> Result<Context, Memory>
    ensures { IfOk result (λ c. context_of c ≡ bare_context name.now) }
{
    Ok(Context {
        name: name.copy(alloc)?,
        kb: Kb::Classical(Vec::new(alloc)),
    })
}

impl Account {
    /// Before the first token.
    pub fn new(alloc: Global) -> Account
        ensures { account_of result ≡ no_account }
    {
        Account {
            contexts: Vec::new(alloc),
            bridges: Vec::new(alloc),
            operands: Vec::new(alloc),
            rule: empty_rule(alloc),
            denied: false,
            source: 0,
        }
    }

    /// Before the first token of a bridge rule of a system with these contexts, of which the names
    /// alone are kept. More contexts than numbers tell apart are refused as want of memory.
    pub fn of_contexts(alloc: Global, contexts: &[Context]) -> Result<Account, Memory>
        ensures account { IfOk result (λ a. account_of a ≡ account_in (names_of contexts.now)) }
        ensures few { IfOk result (λ _. length contexts.now ≤ greatest_number) }
    {
        if contexts.len() > u32::MAX as usize {
            return Err(Memory);
        }
        let mut account = Account::new(alloc);
        for context in contexts {
            account.contexts.push(bare_context(alloc, &context.name)?)?;
        }
        Ok(account)
    }

    /// Forgets all but the contexts.
    pub fn forget(&mut self, alloc: Global)
        ensures { account_of self.new
            ≡ record no_account { contexts = (account_of self.old).contexts } }
    {
        drop(mem::replace(&mut self.bridges, Vec::new(alloc)));
        drop(mem::replace(&mut self.operands, Vec::new(alloc)));
        drop(mem::replace(&mut self.rule, empty_rule(alloc)));
        self.denied = false;
        self.source = 0;
    }

    /// Takes a token that is there for this. A name is at most as long as a name may be. If memory
    /// runs out, the account can't be used any more.
    pub fn took(&mut self, alloc: Global, class: Class, token: &[u8]) -> Result<(), Memory>
        requires named { wanted class ≡ terminal.Name → IsTrue (is_name token.now) }
        ensures { IfOk result (λ _. account_of self.new
            ≡ took (account_of self.old) class token.now) }
    {
        match class {
            Class::NamesContext => self.begin_context(alloc, token),
            Class::EndsItem => self.end_item(alloc),
            Class::IsHeadAtom => push_name(alloc, &mut self.rule.head, token),
            Class::IsBodyAtom => self.add_literal(alloc, token),
            Class::DeniesLiteral | Class::DeniesRead => {
                self.denied = true;
                Ok(())
            }
            Class::NamesBridge => self.begin_bridge(alloc, token),
            Class::Keeps => {
                self.set_keep();
                Ok(())
            }
            Class::Closes => {
                self.set_closed();
                Ok(())
            }
            Class::Weighs | Class::WeighsTwo => {
                self.set_weight(token);
                Ok(())
            }
            Class::NamesTarget => {
                self.set_target(token);
                Ok(())
            }
            Class::NamesSource => {
                self.source = self.number_of(token);
                Ok(())
            }
            Class::EndsBridge => {
                self.end_bridge(alloc);
                Ok(())
            }
            Class::IsTrue => Ok(self.operands.push(Formula::True)?),
            Class::IsFalse => Ok(self.operands.push(Formula::False)?),
            Class::IsAtom => self.push_atom(alloc, token),
            _ => {
                self.say_kind(alloc, class);
                Ok(())
            }
        }
    }

    /// Takes what the grammar says between tokens: a connective gets its operands, or a read is
    /// whole.
    pub fn told(&mut self, alloc: Global, action: Action) -> Result<(), Memory>
        ensures { IfOk result (λ _. account_of self.new ≡ told (account_of self.old) action) }
    {
        match action {
            Action::EndsRead => match self.take_belief() {
                Some(belief) => self.add_read(belief),
                None => Ok(()),
            },
            Action::ToNot => self.negate(alloc),
            joining => self.join(alloc, joining),
        }
    }

    /// The contexts and the bridge rules.
    pub fn into_parts(self) -> (Vec<Context>, Vec<Bridge>)
        ensures { result ≡ (self.contexts, self.bridges) }
    {
        let Account {
            contexts,
            bridges,
            operands,
            rule,
            ..
        } = self;
        drop((operands, rule));
        (contexts, bridges)
    }

    /// The number of the context with this name, or how many there are if none has it.
    fn number_of(&self, name: &[u8]) -> u32
        ensures { result ≡ number_of (map context_of self.now.contexts.items) name.now }
    {
        let mut number: u32 = 0;
        for context in &self.contexts {
            if context.name.bytes() == name {
                return number;
            }
            number = number.saturating_add(1);
        }
        number
    }

    /// Begins a context, which is classical until its kind is said.
    fn begin_context(&mut self, alloc: Global, token: &[u8]) -> Result<(), Memory>
        requires { IsTrue (is_name token.now) }
        ensures { IfOk result (λ _. account_of self.new
            ≡ took (account_of self.old) class.NamesContext token.now) }
    {
        if let Some(name) = Name::read(alloc, token)? {
            self.contexts.push(Context {
                name,
                kb: Kb::Classical(Vec::new(alloc)),
            })?;
        }
        Ok(())
    }

    /// The last context has this knowledge base.
    fn set_kb(&mut self, kb: Kb)
        ensures { account_of self.new
            ≡ record (account_of self.old) {
              contexts = said.in_last
                  (said.with_kb (seen.kb_of kb)) (account_of self.old).contexts;
            } }
    {
        if let Some(context) = self.contexts.last_mut() {
            context.kb = kb;
        }
    }

    /// The last context is of the kind that a token of the class says, if it says one, and has no
    /// items.
    fn say_kind(&mut self, alloc: Global, class: Class)
        ensures { account_of self.new ≡ said.of_kind (kind_said class) (account_of self.old) }
    {
        if let Some(kb) = empty_kb(alloc, class) {
            self.set_kb(kb);
        }
    }

    /// The formulas, or the program rule, are an item of the last context.
    fn end_item(&mut self, alloc: Global) -> Result<(), Memory>
        ensures { IfOk result (λ _. account_of self.new
            ≡ took (account_of self.old) class.EndsItem []) }
    {
        let formulas = mem::replace(&mut self.operands, Vec::new(alloc));
        let rule = mem::replace(&mut self.rule, empty_rule(alloc));
        if let Some(context) = self.contexts.last_mut() {
            add_item(&mut context.kb, formulas, rule)?;
        }
        Ok(())
    }

    /// Adds an atom to the body of the program rule.
    fn add_literal(&mut self, alloc: Global, token: &[u8]) -> Result<(), Memory>
        requires { IsTrue (is_name token.now) }
        ensures { IfOk result (λ _. account_of self.new
            ≡ took (account_of self.old) class.IsBodyAtom token.now) }
    {
        let denied = mem::replace(&mut self.denied, false);
        if denied {
            return push_name(alloc, &mut self.rule.neg, token);
        }
        push_name(alloc, &mut self.rule.pos, token)
    }

    /// Begins a bridge rule, of which only the name is known.
    fn begin_bridge(&mut self, alloc: Global, token: &[u8]) -> Result<(), Memory>
        requires { IsTrue (is_name token.now) }
        ensures { IfOk result (λ _. account_of self.new
            ≡ took (account_of self.old) class.NamesBridge token.now) }
    {
        if let Some(name) = Name::read(alloc, token)? {
            self.bridges.push(Bridge {
                name,
                target: 0,
                head: Formula::True,
                pos: Vec::new(alloc),
                neg: Vec::new(alloc),
                keep: false,
                closed: false,
                weight: 1,
            })?;
        }
        Ok(())
    }

    /// The last bridge rule may not be removed.
    fn set_keep(&mut self)
        ensures { account_of self.new ≡ took (account_of self.old) class.Keeps [] }
    {
        if let Some(bridge) = self.bridges.last_mut() {
            bridge.keep = true;
        }
    }

    /// The last bridge rule may not be forced.
    fn set_closed(&mut self)
        ensures { account_of self.new ≡ took (account_of self.old) class.Closes [] }
    {
        if let Some(bridge) = self.bridges.last_mut() {
            bridge.closed = true;
        }
    }

    /// The last bridge rule has the weight that these digits spell.
    fn set_weight(&mut self, digits: &[u8])
        ensures { account_of self.new ≡ took (account_of self.old) class.Weighs digits.now }
    {
        let weight = weight_of(digits);
        if let Some(bridge) = self.bridges.last_mut() {
            bridge.weight = weight;
        }
    }

    /// The last bridge rule goes into the context with this name.
    fn set_target(&mut self, name: &[u8])
        ensures { account_of self.new ≡ took (account_of self.old) class.NamesTarget name.now }
    {
        let number = self.number_of(name);
        if let Some(bridge) = self.bridges.last_mut() {
            bridge.target = number;
        }
    }

    /// Takes the formula that is whole last: the belief of the read that ends.
    pub fn take_belief(&mut self) -> Option<Formula>
        ensures { MatchOption result (((account_of self.old).operands ≡ [])
            × (account_of self.new ≡ account_of self.old))
            (λ f. account_of self.old ≡ said.pushed (account_of self.new) (formula_of f)) }
    {
        self.operands.pop()
    }

    /// Adds a read of this belief to the last bridge rule.
    pub fn add_read(&mut self, belief: Formula) -> Result<(), Memory>
        ensures { IfOk result (λ _. account_of self.new
            ≡ told (said.pushed (account_of self.old) (formula_of belief)) action.EndsRead) }
    {
        let denied = mem::replace(&mut self.denied, false);
        let read = Read {
            context: self.source,
            belief,
        };
        if let Some(bridge) = self.bridges.last_mut() {
            add_read(bridge, denied, read)?;
        }
        Ok(())
    }

    /// The last formula is the head of the last bridge rule.
    fn end_bridge(&mut self, alloc: Global)
        ensures { account_of self.new ≡ took (account_of self.old) class.EndsBridge [] }
    {
        let mut formulas = mem::replace(&mut self.operands, Vec::new(alloc));
        let Some(head) = formulas.pop() else {
            return;
        };
        if let Some(bridge) = self.bridges.last_mut() {
            bridge.head = head;
        }
    }

    /// The atom is a formula.
    fn push_atom(&mut self, alloc: Global, token: &[u8]) -> Result<(), Memory>
        requires { IsTrue (is_name token.now) }
        ensures { IfOk result (λ _. account_of self.new
            ≡ took (account_of self.old) class.IsAtom token.now) }
    {
        if let Some(name) = Name::read(alloc, token)? {
            self.operands.push(Formula::Atom(name))?;
        }
        Ok(())
    }

    /// The last formula is denied.
    fn negate(&mut self, alloc: Global) -> Result<(), Memory>
        ensures { IfOk result (λ _. account_of self.new ≡ told (account_of self.old) action.ToNot) }
    {
        let Some(formula) = self.operands.pop() else {
            return Ok(());
        };
        let formula = Box::new(alloc, formula)?;
        Ok(self.operands.push(Formula::Not(formula))?)
    }

    /// The last two formulas are joined, if there are two.
    fn join(&mut self, alloc: Global, action: Action) -> Result<(), Memory>
        requires { IsJoining action }
        ensures { IfOk result (λ _. account_of self.new ≡ told (account_of self.old) action) }
    {
        let Some(right) = self.operands.pop() else {
            return Ok(());
        };
        let Some(left) = self.operands.pop() else {
            return Ok(self.operands.push(right)?);
        };
        let formula = joined(alloc, action, left, right)?;
        Ok(self.operands.push(formula)?)
    }
}

/// Adds a read to the bridge rule.
fn add_read(bridge: &mut Bridge, denied: bool, read: Read) -> Result<(), Memory>
    ensures { IfOk result (λ _. seen.bridge_of bridge.new
        ≡ said.with_read denied (seen.read_of read) (seen.bridge_of bridge.old)) }
{
    if denied {
        return Ok(bridge.neg.push(read)?);
    }
    Ok(bridge.pos.push(read)?)
}
