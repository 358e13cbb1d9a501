//! Listings of systems that have a rule which is kept or closed: marked copies of unmarked systems.

use crate::evaluators::evaluator_of;
use crate::systems::{SELF_ATTACK, system_of};
use mcs_base::Memory;
use mcs_ports::{IdleGate, MemorySink};
use mcs_system::{Bridge, Context, System};
use mcs_work::{Task, work};
use std::alloc::Global;
use std::sync::Arc;
use std::test::Fail;

/// More questions than any of these systems has.
const ENOUGH: u64 = 100;

/// More bytes than any of these listings has.
const ROOM: usize = 1000;

/// The listing that is asked for.
#[derive(Clone, Copy)]
enum Asked {
    /// The whole one.
    Solve,
    /// Its verdict and its counts.
    Make,
}

/// A system by its text with one rule marked, and what is printed of it.
struct Marked {
    text: &'static str,
    /// The number of the rule, from 0.
    rule: usize,
    keep: bool,
    closed: bool,
    asked: Asked,
    listing: &'static str,
}

/// A context that may not believe what the one rule tells it.
const TOLD: &str =
    "context c1 program { a. }\ncontext c2 program { :- p. }\nbridge r1: c2:p if c1:a.\n";

/// Seven contexts of three kinds, whose minimal diagnoses are sixteen where no rule is marked. Four
/// of them remove the third rule.
const SEVEN: &str =
    "context rec classical { allergic. basic. crowded. diabetic. }\ncontext lab classical { marker. shadow. }\ncontext ont classical { shadow -> pneumonia. pneumonia & marker -> atypical. }\ncontext ward default {\n  full -> ~bed.\n  true : bed / bed.\n  bed & ill : watch / watch.\n}\ncontext advice program {\n  strong | weak :- pneu.\n  :- weak, atyp.\n  :- strong, allergy, not supervised.\n}\ncontext bill classical { strong & basic -> surcharge. }\ncontext pharm program { :- surcharge, not approved. }\nbridge r1: ont:shadow if lab:shadow.\nbridge r2: ont:marker if lab:marker.\nbridge r3: ward:full if rec:crowded.\nbridge r4: ward:ill if ont:pneumonia.\nbridge r5: advice:pneu if ont:pneumonia.\nbridge r6: advice:atyp if ont:atypical.\nbridge r7: advice:allergy if rec:allergic.\nbridge r8: advice:supervised if ward:watch.\nbridge r9: bill:strong if advice:strong.\nbridge r10: bill:basic if rec:basic.\nbridge r11: pharm:surcharge if bill:surcharge.\nbridge r12: pharm:approved if rec:letter.\nbridge r13: bill:stay if ward:bed.\nbridge r14: pharm:weak if advice:weak.\nbridge r15: pharm:insulin if rec:diabetic.\nbridge r16: bill:visit if not ward:bed.\nbridge r17: bill:drug if advice:weak, not advice:strong.\nbridge r18: ward:diabetic if rec:diabetic.\n";

const MARKED: [Marked; 4] = [
    // Only to force the rule repairs.
    Marked {
        text: SELF_ATTACK,
        rule: 0,
        keep: true,
        closed: false,
        asked: Asked::Solve,
        listing: "mcs 1: 1 contexts, 1 rules, 1 variables\ninconsistent\ndiagnosis 1: {+r1} state {c1:a} active {r1}\nexplanation 1: {+r1 by 1}\nend: 0 equilibria, 1 diagnoses, 1 explanations, need 2\n",
    },
    // Only to remove it repairs.
    Marked {
        text: SELF_ATTACK,
        rule: 0,
        keep: false,
        closed: true,
        asked: Asked::Solve,
        listing: "mcs 1: 1 contexts, 1 rules, 1 variables\ninconsistent\ndiagnosis 1: {-r1} state {} active {}\nexplanation 1: {-r1 by 1}\nend: 0 equilibria, 1 diagnoses, 1 explanations, need 2\n",
    },
    // Nothing repairs, and the empty explanation says so.
    Marked {
        text: TOLD,
        rule: 0,
        keep: true,
        closed: true,
        asked: Asked::Solve,
        listing: "mcs 1: 2 contexts, 1 rules, 1 variables\ninconsistent\nexplanation 1: {}\nend: 0 equilibria, 0 diagnoses, 1 explanations, need 2\n",
    },
    Marked {
        text: SEVEN,
        rule: 2,
        keep: true,
        closed: false,
        asked: Asked::Make,
        listing: "inconsistent\nend: 0 equilibria, 12 diagnoses, 2 explanations, need 74\n",
    },
];

/// Copies of the contexts of the system.
fn contexts_of(alloc: Global, system: &System) -> Result<Vec<Context>, Memory> {
    let mut contexts = Vec::new(alloc);
    for context in system.contexts() {
        contexts.push(context.copy(alloc)?)?;
    }
    Ok(contexts)
}

impl Marked {
    /// A copy of the rule of this number, which is marked where the number is that of the marked
    /// one.
    fn copy_of(&self, alloc: Global, number: usize, bridge: &Bridge) -> Result<Bridge, Memory> {
        let mut copy = bridge.copy(alloc)?;
        if number == self.rule {
            copy.keep = self.keep;
            copy.closed = self.closed;
        }
        Ok(copy)
    }

    /// Copies of the rules of the system, one of which is marked.
    fn bridges_of(&self, alloc: Global, system: &System) -> Result<Vec<Bridge>, Memory> {
        let mut bridges = Vec::new(alloc);
        for (number, bridge) in system.bridges().iter().enumerate() {
            bridges.push(self.copy_of(alloc, number, bridge)?)?;
        }
        Ok(bridges)
    }

    /// The system by its text, with the rule marked.
    fn copy_with_mark(&self, alloc: Global, unmarked: &System) -> Result<System, Fail> {
        let contexts = contexts_of(alloc, unmarked)?;
        match self.bridges_of(alloc, unmarked) {
            Ok(bridges) => Ok(System::build(alloc, contexts, bridges)?),
            Err(want) => {
                drop(contexts);
                Err(want.into())
            }
        }
    }

    /// The system.
    fn system(&self, alloc: Global) -> Result<Arc<System>, Fail> {
        let unmarked = system_of(alloc, self.text)?;
        let marked = self.copy_with_mark(alloc, &unmarked);
        drop(unmarked);
        Ok(Arc::new(alloc, marked?)?)
    }
}

/// Whether this is printed of the system.
fn is_printed(
    alloc: Global,
    system: Arc<System>,
    asked: Asked,
    listing: &str,
) -> Result<bool, Memory> {
    let mut sink = MemorySink::new(alloc, Vec::new(alloc), ROOM, ROOM)?;
    let evaluator = evaluator_of(alloc, &system, ENOUGH, &IdleGate)?;
    let (worked, evaluator) = match asked {
        Asked::Solve => work(alloc, evaluator, system, Task::Solve, &mut sink),
        Asked::Make => work(alloc, evaluator, system, Task::Make, &mut sink),
    };
    drop(evaluator);
    Ok(worked == Ok(()) && sink.written() == listing.as_bytes())
}

#[test]
fn marked_systems_are_listed(rt: HostRuntime) -> Result<(), Fail> {
    let mut are_printed = true;
    for marked in &MARKED {
        let system = marked.system(rt.alloc())?;
        are_printed &= is_printed(rt.alloc(), system, marked.asked, marked.listing) == Ok(true);
    }
    assert!(rt; are_printed);
    Ok(())
}
