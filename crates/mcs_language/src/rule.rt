//! Reading a bridge rule by itself.

ghost use Rattle.std.specs.Prelude.{◌≡◌, ◌≤◌, List, length, IfOk, IfErr};
ghost use Rattle.mcs_system.specs.Plain as plain;
ghost use Rattle.mcs_system.specs.Seen.{bridge_of};
ghost use Rattle.mcs_grammar.specs.Entries.{Token};
ghost use Rattle.mcs_grammar.specs.Alone.{SpellsBridge};
ghost use Rattle.mcs_account.specs.Images.{names_of};
ghost use Rattle.mcs_account.specs.Taken.{context_names};
ghost use Rattle.mcs_faults.specs.Watching.{IsNumberOf};
ghost use Rattle.mcs_language.specs.Rules.{IsNextOfRule, IsRuleOf, IsRuleRead};
ghost use Rattle.mcs_language.specs.Rules.{IsRuleSaid, IsToldOfRule, IsWholeRead};

use crate::rules::{ReadRule, RuleReader};
use mcs_account::TextReader;
use mcs_base::Memory;
use mcs_faults::{Fault, TextFault, told_fault};
use mcs_system::{Bridge, Context};
use mcs_tokens::{Span, next_token};
use std::alloc::Global;

/// The number of the context with this name, or how many contexts there are if none has it.
fn number_of(reader: &TextReader, name: &[u8]) -> usize
    ensures { IsNumberOf (context_names reader.now.account) name.now result }
{
    for (number, context) in reader.account.contexts.iter().enumerate() {
        if context.name.bytes() == name {
            return number;
        }
    }
    reader.account.contexts.len()
}

/// Takes the next token, and returns its fault, if it has one.
fn take(alloc: Global, reader: &mut TextReader, token: &[u8]) -> Result<Option<Fault>, Memory>
    ensures { (names : List plain.Name) (ts : List Token) → IsRuleRead names reader.old ts
        → IfOk result (λ f. IsNextOfRule f names reader.new ts token.now) }
{
    let number = number_of(reader, token);
    let is_context = number < reader.account.contexts.len();
    let Some(taken) = reader.take(alloc, token)? else {
        return Ok(Some(Fault::NoGrammar));
    };
    if let Some(fault) = told_fault(taken.uses, token, is_context) {
        return Ok(Some(fault));
    }
    reader.pass(&taken, number)?;
    Ok(None)
}

/// The rule of which all tokens were read.
fn finished(reader: TextReader, end: usize) -> ReadRule
    requires { (names : List plain.Name) × ((ts : List Token) × IsWholeRead names reader ts) }
    ensures { (names : List plain.Name) (ts : List Token) → IsWholeRead names reader ts
        → IsRuleSaid names ts end result }
{
    let mut reader = reader;
    match reader.account.bridges.pop() {
        Some(bridge) => ReadRule {
            reader: RuleReader { reader },
            bridge,
            end,
        },
        None => unreachable!(),
    }
}

impl RuleReader {
    /// A reader of the rules of a system with these contexts.
    pub fn new(alloc: Global, contexts: &[Context]) -> Result<RuleReader, Memory>
        ensures { IfOk result (λ r. r ≡ names_of contexts.now) }
    {
        let reader = TextReader::of_rule(alloc, contexts)?;
        Ok(RuleReader { reader })
    }

    /// Reads the rule that begins with the first token at or after `at`, which must not be within a
    /// token or a comment. The rule may have marks and a weight. Of the faults of a text, those are
    /// told that depend on the rule and on the names of the contexts alone: 1 and 2, and of 5 the
    /// limits `weight`, `open_parentheses` and `name_bytes`. It is the fault of the first token that
    /// has one of them.
    pub fn read(self, alloc: Global, bytes: &[u8], at: usize) -> Result<ReadRule, TextFault>
        requires { at ≤ length bytes.now }
        ensures rule { IfOk result (IsRuleOf self bytes.now at) }
        ensures fault { IfErr result (IsToldOfRule self bytes.now at) }
    {
        let RuleReader { reader } = self;
        let mut reader = reader.next_rule(alloc)?;
        let mut at = at;
        loop {
            let (from, to) = next_token(bytes, at);
            if from == bytes.len() {
                drop(reader);
                return Err(Fault::NoGrammar.at(from));
            }
            let span = Span { from, to };
            if let Some(fault) = take(alloc, &mut reader, span.text(bytes))? {
                drop(reader);
                return Err(fault.at(from));
            }
            at = to;
            if reader.can_end() {
                return Ok(finished(reader, to));
            }
        }
    }
}

/// Reads the bridge rule that begins with the first token at or after `at`, which must not be
/// within a token or a comment, and the offset after the rule's last token. The rule is one of a
/// system with these contexts, and may have marks and a weight. Of the faults of a text, those are
/// told that depend on the rule and on the names of the contexts alone: 1 and 2, and of 5 the limits
/// `weight`, `open_parentheses` and `name_bytes`. It is the fault of the first token that has one of
/// them.
pub fn read_bridge(
    alloc: Global,
    bytes: &[u8],
    at: usize,
    contexts: &[Context],
) -> Result<(Bridge, usize), TextFault>
    requires { at ≤ length bytes.now }
    ensures rule { IfOk result (λ r. SpellsBridge (names_of contexts.now) bytes.now at
        (bridge_of r.0) r.1) }
    ensures fault { IfErr result (IsToldOfRule (names_of contexts.now) bytes.now at) }
{
    let rules = RuleReader::new(alloc, contexts)?;
    let ReadRule {
        reader,
        bridge,
        end,
    } = rules.read(alloc, bytes, at)?;
    drop(reader);
    Ok((bridge, end))
}
