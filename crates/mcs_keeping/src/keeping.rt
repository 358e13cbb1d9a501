//! Answers that are kept with their certificates.

ghost use Rattle.std.specs.Prelude.{◌≡◌, ℕ, Bool, ◌++◌, OnOk, OnErr};
ghost use Rattle.std.specs.BTreeMap.{IsUnchanged};
ghost use Rattle.mcs_system.specs.Plain.{System};
ghost use Rattle.mcs_keeping.specs.Keeping.{AreAnswersKept, HasKept, HasMoved};

use mcs_asking::AnswerCert;
use mcs_base::{Active, Memory, Vars};
use std::alloc::Global;
use std::collections::BTreeMap;

/// An answer to a question, with its certificate.
pub struct Kept {
    pub outputs: Vec<Vars>,
    pub cert: AnswerCert,
}

impl Drop for Kept {
    fn drop(self) {
        let Kept {
            outputs: _,
            cert: _,
        } = self;
    }
}

/// Keeps the answer to the question, if it has a certificate, in place of an earlier one. If memory
/// runs out, what is kept is as before.
pub fn keep_answer(
    alloc: Global,
    kept: &mut BTreeMap<Active, Kept>,
    active: Active,
    outputs: &[Vars],
    cert: Option<AnswerCert>,
) -> Result<(), Memory>
    ensures ok { OnOk result (HasKept active outputs.now cert kept.old kept.new) }
    ensures err { OnErr result (IsUnchanged kept.old kept.new) }
{
    let Some(cert) = cert else {
        return Ok(());
    };
    match outputs.to_vec(alloc) {
        Ok(outputs) => {
            drop(kept.insert(active, Kept { outputs, cert })?);
            Ok(())
        }
        Err(refused) => {
            drop(cert);
            Err(Memory::from(refused))
        }
    }
}

/// Moves the answer to the question, if the others have one, in place of an earlier one. If memory
/// runs out, what is kept is as before.
fn move_answer(
    kept: &mut BTreeMap<Active, Kept>,
    others: &mut BTreeMap<Active, Kept>,
    question: Active,
) -> Result<(), Memory>
    ensures ok { OnOk result (HasMoved question kept.old others.old kept.new others.new) }
    ensures err { OnErr result (IsUnchanged kept.old kept.new) }
{
    let Some(answer) = others.remove(&question) else {
        return Ok(());
    };
    drop(kept.insert(question, answer)?);
    Ok(())
}

/// Appends the questions to the journal, one after the other, and moves the answer to each, if the
/// others have one. If memory runs out, this is done for those before.
pub fn absorb_answers(
    journal: &mut Vec<Active>,
    kept: &mut BTreeMap<Active, Kept>,
    asked: &[Active],
    others: BTreeMap<Active, Kept>,
) -> Result<(), Memory>
    ensures journal { OnOk result (journal.new.items ≡ journal.old.items ++ asked.now) }
    ensures kept { (m : System) (i : ℕ) (keep : Bool)
        → AreAnswersKept m i keep journal.old.items kept.old
        → AreAnswersKept m i keep asked.now others
        → AreAnswersKept m i keep journal.new.items kept.new }
{
    let mut others = others;
    for question in asked {
        journal.reserve(1)?;
        move_answer(kept, &mut others, *question)?;
        journal.push(*question)?;
    }
    Ok(())
}
