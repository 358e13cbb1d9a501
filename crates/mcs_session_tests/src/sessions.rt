//! Edit sessions: which keys are new and which are kept, from listing to listing.

ghost use Rattle.std.specs.Prelude.{◌≡◌, [], IfOk, OnOk, false, length, map, true};
ghost use Rattle.std.specs.Arc.{arc_value};
ghost use Rattle.std.specs.List.{AllByRecursion};
ghost use Rattle.mcs_states.specs.Oracles.{with_journal};
ghost use Rattle.mcs_system.specs.Imports.{rules_into};
ghost use Rattle.mcs_system.specs.Logic.{is_in};
ghost use Rattle.mcs_script.specs.Edits.{rule_names, IsThere};
ghost use Rattle.mcs_script.specs.Seen.{edit_of};
ghost use Rattle.mcs_session_tests.specs.Sessions.{AreOwn};

use mcs_base::{Active, Memory, Text, Vars};
use mcs_language::read_system;
use mcs_script::{Edit, read_script};
use mcs_session::{Answers, Asker, KeptOracle, Session};
use mcs_solver::accepted_parts;
use mcs_states::Oracle;
use mcs_system::{Name, System};
use std::alloc::Global;
use std::sync::Arc;
use std::test::Fail;

/// The system that the scripts edit.
const TWO_CONTEXTS: &str = "context c1 program { a. } context c2 program { :- p. }";

/// Scripts of edits. At each listing each context is asked with each set of the rules into it. For
/// each listing the numbers of new and of kept keys, and at last how many questions were solved.
static COUNTED: [(&str, &str); 4] = [
    (
        "list. add bridge r1: c2:p if c1:a. list. drop r1. list.",
        "2 0, 2 1, 0 2, 4",
    ),
    // The name of a rule is no part of a key.
    (
        "add bridge r: c2:p if c1:a. list. drop r. add bridge s: c2:p if c1:a. list.",
        "3 0, 0 3, 3",
    ),
    // The order of the heads is.
    (
        "add bridge r: c2:p if c1:a. add bridge s: c2:q if c1:a. list.
        drop r. add bridge r: c2:p if c1:a. list.",
        "5 0, 1 4, 6",
    ),
    // Two sets of rules with the same heads have one key.
    (
        "add bridge r: c2:p if c1:a. add bridge s: c2:p if c1:b. list.",
        "4 0, 4",
    ),
];

/// A question that was solved.
#[derive(Drop)]
struct Solved {
    system: Arc<System>,
    context: u32,
    active: Active,
}

/// Solves each question anew, and keeps the questions.
#[derive(Drop)]
struct CountingAsker {
    solved: Vec<Solved>,
}

impl Asker for CountingAsker {
    ghost use Rattle.std.specs.Prelude.{map};
    ghost use Rattle.std.specs.Arc.{arc_value};
    ghost use Rattle.mcs_session.specs.Keys.{key_of};

    ghost journal = { λ a. map (λ q. key_of (arc_value q.system) q.context q.active)
        a.solved.items };

    fn solve(
        &mut self,
        alloc: Global,
        system: &Arc<System>,
        context: u32,
        active: Active,
    ) -> Result<(Vec<Vars>, Vec<Vars>), Memory> {
        let own = system.clone()?;
        let states = accepted_parts(alloc, system, context, active)?;
        let copy = states.clone()?;
        self.solved.push(Solved {
            system: own,
            context,
            active,
        })?;
        Ok((states, copy))
    }
}

/// Askers for so many contexts.
fn askers_for(alloc: Global, contexts: usize) -> Result<Vec<CountingAsker>, Memory>
    ensures many { IfOk result (λ askers. length askers.items ≡ contexts) }
    ensures unasked { IfOk result (λ askers. AllByRecursion (λ a. a.solved.items ≡ [])
        askers.items) }
{
    let mut askers = Vec::new(alloc);
    for _ in 0..contexts {
        askers.push(CountingAsker {
            solved: Vec::new(alloc),
        })?;
    }
    Ok(askers)
}

/// Whether the oracle of a context answers with the set of rules, unless these are not among those
/// into the context.
fn is_answered(
    alloc: Global,
    rules: Active,
    active: Active,
    oracle: &mut KeptOracle<CountingAsker>,
) -> bool
    requires { rules ≡ rules_into oracle.old.system oracle.old.context }
    ensures { with_journal [] oracle.new ≡ with_journal [] oracle.old }
{
    if !active.within(rules) {
        return true;
    }
    oracle.ask(alloc, active).is_ok()
}

/// Asks the oracle of a context with each set of the rules into it, of which there are at most three.
fn ask_each(alloc: Global, rules: Active, oracle: &mut KeptOracle<CountingAsker>) -> bool
    requires { rules ≡ rules_into oracle.old.system oracle.old.context }
    ensures { with_journal [] oracle.new ≡ with_journal [] oracle.old }
{
    let mut are_answered = true;
    for number in 0..8 {
        let active = Active::numbered(number);
        are_answered = is_answered(alloc, rules, active, oracle) && are_answered;
    }
    are_answered
}

/// Asks the oracles of all contexts of the system.
fn ask_all(alloc: Global, system: &System, oracles: &mut [KeptOracle<CountingAsker>]) -> bool
    requires { AreOwn system.now oracles.old }
    ensures { map (with_journal []) oracles.new ≡ map (with_journal []) oracles.old }
{
    let mut are_answered = true;
    for context in 0..system.contexts().len() {
        let rules = system.rules_of(context as u32);
        are_answered = ask_each(alloc, rules, &mut oracles[context]) && are_answered;
    }
    are_answered
}

/// How many questions the askers of the oracles have solved.
fn count_solved(oracles: &[KeptOracle<CountingAsker>]) -> usize {
    let mut count = 0usize;
    for oracle in oracles {
        count = count.saturating_add(oracle.asker().solved.len());
    }
    count
}

/// A listing: what it counts, and how many questions were solved up to its end.
fn list(alloc: Global, session: &mut Session<CountingAsker>) -> Option<(Answers, usize)>
    requires { session.old.lent ≡ false }
    ensures { session.new.lent ≡ false }
{
    let Ok(mut oracles) = session.lend(alloc) else {
        return None;
    };
    let are_answered = ask_all(alloc, session.system(), &mut oracles);
    let solved = count_solved(&oracles);
    let answers = session.give_back(oracles);
    if are_answered {
        Some((answers, solved))
    } else {
        None
    }
}

/// Whether some rule of the system has the name.
fn has_rule(system: &System, name: &Name) -> bool
    ensures { result ≡ is_in name.now (rule_names system.now) }
{
    system.bridges().iter().any(|rule| name.is(&rule.name))
}

/// Whether the rule is there, if the edit drops one.
fn is_there(system: &System, edit: &Edit) -> bool
    ensures { result ≡ true → IsThere system.now (edit_of edit.now) }
{
    match edit {
        Edit::Add(_) | Edit::List => true,
        Edit::Drop(name) => has_rule(system, name),
    }
}

/// What is counted in a session of the system by these edits, as the table has it; nothing where an
/// edit is refused or an oracle does not answer.
fn counts(alloc: Global, system: System, edits: &[Edit]) -> Result<Option<Text>, Memory> {
    let askers = askers_for(alloc, system.contexts().len())?;
    let mut session = Session::new(alloc, system, askers)?;
    let mut text = Text::new(alloc);
    let mut last = 0;
    for edit in edits {
        if let Edit::List = edit {
            let Some((answers, solved)) = list(alloc, &mut session) else {
                return Ok(None);
            };
            push_counts(&mut text, answers)?;
            last = solved;
        } else if !is_there(session.system(), edit) || session.edit(alloc, edit).is_err() {
            return Ok(None);
        }
    }
    text.push_number(last as u64)?;
    Ok(Some(text))
}

/// Appends the numbers of new and kept keys.
fn push_counts(text: &mut Text, answers: Answers) -> Result<(), Memory> {
    text.push_number(answers.new)?;
    text.push(b" ")?;
    text.push_number(answers.kept)?;
    text.push(b", ")
}

/// Whether this is counted.
fn are_counted(alloc: Global, script: &str, wanted: &str) -> Result<bool, Fail> {
    let system = read_system(alloc, TWO_CONTEXTS.as_bytes())?;
    let edits = read_script(alloc, script.as_bytes(), &system)?;
    let told = counts(alloc, system, &edits);
    drop(edits);
    match told {
        Ok(Some(text)) => Ok(text.bytes() == wanted.as_bytes()),
        _ => Ok(false),
    }
}

#[test]
fn keys_are_kept_from_listing_to_listing(rt: HostRuntime) -> Result<(), Fail> {
    let mut are_right = true;
    for (script, wanted) in &COUNTED {
        are_right = are_counted(rt.alloc(), script, wanted)? && are_right;
    }
    assert!(rt; are_right);
    Ok(())
}
