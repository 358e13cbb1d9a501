//! A model of formulas that is kept from one entailment to the next.

ghost use Rattle.std.specs.Prelude.{◌≡◌};
ghost use Rattle.mcs_cnf.specs.Entailments.{entailment_of, model_after};

use mcs_base::Vars;
use mcs_trace::Entail;

/// The model that the entailment has, if it is a `no`; otherwise the one that was known.
pub fn model_shown(model: Option<Vars>, entail: &Entail) -> Option<Vars>
    ensures { result ≡ model_after model (entailment_of entail.now) }
{
    match entail {
        Entail::Yes(_) => model,
        Entail::No(places) => Some(Vars::numbered(*places)),
    }
}
