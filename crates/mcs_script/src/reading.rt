//! Reading one edit of a script by itself.

ghost use Rattle.std.specs.Prelude.{◌≡◌, ◌≤◌, IfErr, IfOk, IsTrue, codes, length, ℕ};
ghost use Rattle.mcs_base.specs.Words.{is_name};
ghost use Rattle.mcs_faults.specs.declared.fault.TextFault.TheVariants as texts;
ghost use Rattle.mcs_tokens.specs.Tokens.{IsNextToken, IsSpanOf};
ghost use Rattle.mcs_script.specs.Reading.{IsDrop, IsNameFault, IsOtherAt, IsReadOrTold};
ghost use Rattle.mcs_script.specs.Reading.{IsTokenTo};

use crate::edit::Edit;
use mcs_account::is_name_word;
use mcs_faults::{Fault, TextFault};
use mcs_language::{ReadRule, RuleReader};
use mcs_system::{Limit, Name};
use mcs_tokens::{Span, next_token};
use std::alloc::Global;

/// An edit that was read by itself, the offset after its last token, and the reader for the rules
/// of further ones.
#[derive(Drop)]
pub struct ReadEdit {
    pub rules: RuleReader,
    pub edit: Edit,
    pub end: usize,
}

/// The offset after the next token, if this is a period, or else where the next token begins. The
/// end of the text counts as a token.
fn read_period(bytes: &[u8], at: usize) -> Result<usize, usize>
    requires { at ≤ length bytes.now }
    ensures period { IfOk result (IsTokenTo (codes ".") bytes.now at) }
    ensures other { IfErr result (IsOtherAt bytes.now at) }
{
    let (from, to) = next_token(bytes, at);
    if from == bytes.len() {
        return Err(from);
    }
    let span = Span { from, to };
    if span.text(bytes) == b".".as_slice() {
        return Ok(to);
    }
    Err(from)
}

/// What the token has against being a name.
fn name_fault(token: &[u8]) -> Option<Fault>
    ensures { IsNameFault result token.now }
{
    if !is_name_word(token) {
        return Some(Fault::NoGrammar);
    }
    if token.len() > Limit::NameBytes.most() {
        return Some(Fault::Exceeds(Limit::NameBytes));
    }
    None
}

/// Reads on after the word `list`.
fn read_listed(rules: RuleReader, bytes: &[u8], at: usize) -> Result<ReadEdit, TextFault>
    requires { at ≤ length bytes.now }
    ensures { (start : ℕ) → IsTokenTo (codes "list") bytes.now start at
        → IsReadOrTold rules bytes.now start result }
{
    match read_period(bytes, at) {
        Ok(end) => Ok(ReadEdit {
            rules,
            edit: Edit::List,
            end,
        }),
        Err(offset) => {
            drop(rules);
            Err(Fault::NoGrammar.at(offset))
        }
    }
}

/// Reads on after the word `add`.
fn read_added(
    alloc: Global,
    rules: RuleReader,
    bytes: &[u8],
    at: usize,
) -> Result<ReadEdit, TextFault>
    requires { at ≤ length bytes.now }
    ensures { (start : ℕ) → IsTokenTo (codes "add") bytes.now start at
        → IsReadOrTold rules bytes.now start result }
{
    match rules.read(alloc, bytes, at) {
        Ok(read) => {
            let ReadRule {
                reader,
                bridge,
                end,
            } = read;
            Ok(ReadEdit {
                rules: reader,
                edit: Edit::Add(bridge),
                end,
            })
        }
        Err(fault) => Err(fault),
    }
}

/// The edit that drops the rule of this name.
fn dropped(alloc: Global, rules: RuleReader, name: &[u8], end: usize) -> Result<ReadEdit, TextFault>
    requires { IsTrue (is_name name.now) }
    ensures edit { IfOk result (IsDrop rules name.now end) }
    ensures memory { IfErr result (λ e. e ≡ texts.Memory) }
{
    match Name::read(alloc, name) {
        Ok(Some(rule)) => Ok(ReadEdit {
            rules,
            edit: Edit::Drop(rule),
            end,
        }),
        Ok(None) => unreachable!(),
        Err(_) => {
            drop(rules);
            Err(TextFault::Memory)
        }
    }
}

/// Reads on after the word `drop`.
fn read_dropped(
    alloc: Global,
    rules: RuleReader,
    bytes: &[u8],
    at: usize,
) -> Result<ReadEdit, TextFault>
    requires { at ≤ length bytes.now }
    ensures { (start : ℕ) → IsTokenTo (codes "drop") bytes.now start at
        → IsReadOrTold rules bytes.now start result }
{
    let (from, to) = next_token(bytes, at);
    if from == bytes.len() {
        drop(rules);
        return Err(Fault::NoGrammar.at(from));
    }
    let span = Span { from, to };
    let name = span.text(bytes);
    if let Some(fault) = name_fault(name) {
        drop(rules);
        return Err(fault.at(from));
    }
    match read_period(bytes, to) {
        Ok(end) => dropped(alloc, rules, name, end),
        Err(offset) => {
            drop(rules);
            Err(Fault::NoGrammar.at(offset))
        }
    }
}

/// Reads an edit by itself, whose first token is here.
pub(crate) fn read_edit(
    alloc: Global,
    rules: RuleReader,
    bytes: &[u8],
    span: Span,
) -> Result<ReadEdit, TextFault>
    requires { IsSpanOf bytes.now span }
    ensures { (start : ℕ) → IsNextToken bytes.now start span.from span.to
        → IsReadOrTold rules bytes.now start result }
{
    let word = span.text(bytes);
    if word == b"add".as_slice() {
        return read_added(alloc, rules, bytes, span.to);
    }
    if word == b"drop".as_slice() {
        return read_dropped(alloc, rules, bytes, span.to);
    }
    if word == b"list".as_slice() {
        return read_listed(rules, bytes, span.to);
    }
    drop(rules);
    Err(Fault::NoGrammar.at(span.from))
}
