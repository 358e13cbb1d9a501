//! Questions and states, read.

ghost use Rattle.std.specs.Prelude.{◌≡◌, ◌<◌, length, IfOk, IfSome, None};
ghost use Rattle.mcs_system.specs.Seen.{context_of};
ghost use Rattle.mcs_proof_lines.specs.Walks.{line_at};
ghost use Rattle.mcs_proof_reader.specs.Questions.{context_from, rules_of_text, question_of};
ghost use Rattle.mcs_proof_reader.specs.Questions.{next_question, comes_after, state_in_words};
ghost use Rattle.mcs_proof_reader.specs.Questions.{state_after, states_at};
ghost use Rattle.mcs_proof_reader.specs.Readers.{AreTexts};

use crate::texts::Texts;
use mcs_base::{Active, Memory, Vars, state_before};
use mcs_proof_lines::Lines;
use mcs_spelling::{find, read_set, strip};
use mcs_system::System;
use std::alloc::Global;

/// The same numbers as rules.
fn as_rules(numbers: Vars) -> Active
    ensures { result ≡ numbers }
{
    Active::numbered(numbers.number())
}

/// The number of the context with this name.
fn context_of(system: &System, name: &[u8]) -> Option<u32>
    ensures value { result ≡ context_from name.now 0 system.now.contexts }
    ensures there { IfSome result (λ i. i < length system.now.contexts) }
{
    for (index, context) in system.contexts().iter().enumerate() {
        if context.name.bytes() == name {
            return Some(index as u32);
        }
    }
    None
}

/// The question to the context with the rules that the text names, if these are rules into it.
fn question_in(system: &System, texts: &Texts, context: u32, text: &[u8]) -> Option<(u32, Active)>
    requires texts { AreTexts system.now texts.now }
    requires context { context < length system.now.contexts }
    ensures value { result ≡ rules_of_text system.now text.now context }
    ensures there { IfSome result (λ q. q.0 ≡ context) }
{
    let active = as_rules(read_set(&texts.rules, Vars::numbered(u64::MAX), text)?);
    if active.minus(system.rules_of(context)) == Active::empty() {
        Some((context, active))
    } else {
        None
    }
}

/// The question that the line names: a context and rules into it.
#[tactic(auto, unfolding(crate::specs::Questions::question_of))]
fn read_question(system: &System, texts: &Texts, line: &[u8]) -> Option<(u32, Active)>
    requires { AreTexts system.now texts.now }
    ensures value { result ≡ question_of system.now line.now }
    ensures there { IfSome result (λ q. q.0 < length system.now.contexts) }
{
    let rest = strip(line, b"answer ")?;
    let space = find(rest, b' ')?;
    let context = context_of(system, &rest[..space])?;
    question_in(system, texts, context, &rest[space + 1..])
}

/// Whether the question comes after the last one, by context and then by rule set.
fn comes_after(last: Option<(u32, Active)>, question: (u32, Active)) -> bool
    ensures { result ≡ comes_after last question }
{
    match last {
        Some((context, active)) => context < question.0
            || (context == question.0 && active < question.1),
        None => true,
    }
}

/// The question in the next line, if it comes after the last one.
#[tactic(auto, unfolding(crate::specs::Questions::next_question))]
pub(crate) fn next_question(
    system: &System,
    texts: &Texts,
    last: Option<(u32, Active)>,
    lines: &Lines<'_>,
) -> Option<(u32, Active)>
    requires { AreTexts system.now texts.now }
    ensures value { result ≡ line_at (next_question system.now last) lines.now }
    ensures there { IfSome result (λ q. q.0 < length system.now.contexts) }
{
    let question = read_question(system, texts, lines.current()?)?;
    if comes_after(last, question) {
        Some(question)
    } else {
        None
    }
}

/// Whether the state comes after the last one.
fn follows(last: Option<Vars>, state: Vars) -> bool
    ensures { result ≡ state_after last state }
{
    match last {
        Some(before) => state_before(before, state),
        None => true,
    }
}

/// The state in the next line, if it comes after the last one.
#[tactic(auto, unfolding(crate::specs::Questions::state_in_words))]
pub(crate) fn next_state(
    system: &System,
    texts: &Texts,
    allowed: Vars,
    last: Option<Vars>,
    lines: &Lines<'_>,
) -> Option<Vars>
    requires { AreTexts system.now texts.now }
    ensures { result ≡ line_at (state_in_words system.now allowed last) lines.now }
{
    let state = read_set(
        &texts.variables,
        allowed,
        strip(lines.current()?, b"state ")?,
    )?;
    if follows(last, state) {
        Some(state)
    } else {
        None
    }
}

/// Takes states from the next lines, as long as they are in order: sets of allowed variables. The
/// texts are those of the system.
#[tactic(auto, unfolding(crate::specs::Questions::states_at))]
pub fn take_states(
    alloc: Global,
    system: &System,
    texts: &Texts,
    allowed: Vars,
    lines: &mut Lines<'_>,
) -> Result<Vec<Vars>, Memory>
    requires { AreTexts system.now texts.now }
    ensures { IfOk result (λ v. states_at system.now allowed None lines.old
        ≡ (v.items, lines.new)) }
{
    let mut states = Vec::new(alloc);
    let mut last = None;
    while let Some(state) = next_state(system, texts, allowed, last, lines) {
        states.push(state)?;
        last = Some(state);
        lines.advance();
    }
    Ok(states)
}
