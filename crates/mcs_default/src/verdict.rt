//! The verdict on a set of defaults.

ghost use Rattle.std.specs.Prelude.{◌≡◌, ◌≤◌, List, length, IfOk, OnOk};
ghost use Rattle.mcs_sets.specs.Sets.{Within};
ghost use Rattle.mcs_system.specs.Plain as plain;
ghost use Rattle.mcs_evidence.specs.Theories.{all_of};
ghost use Rattle.mcs_grounding.specs.Asked.{theory_names, theory_beliefs, theory_defaults};
ghost use Rattle.mcs_grounding.specs.Asked.{AreItemsOf};
ghost use Rattle.mcs_default.specs.Told.{IsToldOfJustsIn, IsToldOrder, IsSetJudged};

use crate::inside::{Inside, tell_inside};
use crate::outside::{Rest, tell_rest};
use mcs_base::{Memory, Vars};
use mcs_grounding::{Grounding, Theory, tell_order};
use mcs_trace::{Cnf, Entail, SetCert};
use std::alloc::Global;

/// What shows that no default of a set fails, and that the set is grounded.
#[derive(Drop)]
struct Parts {
    justs: Vec<Entail>,
    order: Vec<u32>,
    pres: Vec<Entail>,
}

/// A verdict on a set of defaults, and the view of the extension that it generates, if it does.
#[derive(Drop)]
pub(crate) struct Judged {
    pub(crate) verdict: SetCert,
    pub(crate) view: Option<Vars>,
}

/// The verdict on a set of which no default fails and that is grounded, which is shown by these.
fn judge_grounded(
    alloc: Global,
    known: &mut Cnf,
    theory: &Theory<'_>,
    set: Vars,
    parts: Parts,
) -> Result<Judged, Memory>
    requires room { length (theory_names theory.now) ≤ known.old.vars }
    ensures kept { OnOk result (known.new ≡ known.old) }
    ensures judged { IfOk result (λ judged. (items : List plain.Item)
        → AreItemsOf theory.now known.old items
        → IsToldOfJustsIn (theory_names theory.now) items set parts.justs.items
        → IsToldOrder (theory_names theory.now) items set parts.order.items parts.pres.items
        → IsSetJudged (theory_names theory.now) items (theory_beliefs theory.now) set judged) }
{
    match tell_rest(alloc, known, theory, set) {
        Ok(Rest::Applied(number, pre, justs)) => {
            drop(parts);
            let verdict = SetCert::Applied { number, pre, justs };
            Ok(Judged {
                verdict,
                view: None,
            })
        }
        Ok(Rest::Complete(outside, view, outputs)) => {
            let verdict = SetCert::Extension {
                order: parts.order,
                pres: parts.pres,
                justs: parts.justs,
                outside,
                outputs,
            };
            Ok(Judged {
                verdict,
                view: Some(view),
            })
        }
        Err(want) => {
            drop(parts);
            Err(want)
        }
    }
}

/// The verdict on a set of which no default fails, which is shown by these.
fn judge_allowed(
    alloc: Global,
    known: &mut Cnf,
    theory: &Theory<'_>,
    set: Vars,
    justs: Vec<Entail>,
) -> Result<Judged, Memory>
    requires room { length (theory_names theory.now) ≤ known.old.vars }
    requires set { Within set (all_of (theory_defaults theory.now)) }
    ensures kept { OnOk result (known.new ≡ known.old) }
    ensures judged { IfOk result (λ judged. (items : List plain.Item)
        → AreItemsOf theory.now known.old items
        → IsToldOfJustsIn (theory_names theory.now) items set justs.items
        → IsSetJudged (theory_names theory.now) items (theory_beliefs theory.now) set judged) }
{
    match tell_order(alloc, known, theory, set) {
        Ok(Grounding::Stuck(closed, pres)) => {
            drop(justs);
            let verdict = SetCert::Ungrounded { closed, pres };
            Ok(Judged {
                verdict,
                view: None,
            })
        }
        Ok(Grounding::Grounded(order, pres)) => {
            let parts = Parts { justs, order, pres };
            judge_grounded(alloc, known, theory, set, parts)
        }
        Err(want) => {
            drop(justs);
            Err(want)
        }
    }
}

/// The verdict on the set: the first of its defaults that fails; or else those that are not
/// grounded; or else the first default outside that applies; and else it generates an extension.
/// The clauses of the facts are `known`.
pub(crate) fn judge(
    alloc: Global,
    known: &mut Cnf,
    theory: &Theory<'_>,
    set: Vars,
) -> Result<Judged, Memory>
    requires room { length (theory_names theory.now) ≤ known.old.vars }
    requires set { Within set (all_of (theory_defaults theory.now)) }
    ensures kept { OnOk result (known.new ≡ known.old) }
    ensures judged { IfOk result (λ judged. (items : List plain.Item)
        → AreItemsOf theory.now known.old items
        → IsSetJudged (theory_names theory.now) items (theory_beliefs theory.now) set judged) }
{
    match tell_inside(alloc, known, theory, set)? {
        Inside::Fails(absence) => {
            let verdict = SetCert::Fails(absence);
            Ok(Judged {
                verdict,
                view: None,
            })
        }
        Inside::Allowed(justs) => { judge_allowed(alloc, known, theory, set, justs) }
    }
}
