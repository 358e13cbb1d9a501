//! Laws over the definitions. The functions compute nothing: each contract is a law.

ghost use Rattle.mcs_cnf.specs.Laws.{ClausesAreSets, ClausesMeanTheFormulas};
ghost use Rattle.mcs_cnf.specs.Laws.{EntailmentIsRefutation, EntailmentsAreSound};
ghost use Rattle.mcs_cnf.specs.Laws.{ShownBeliefsFollow, ClassicalCertificatesAreSound};
ghost use Rattle.mcs_cnf.specs.Laws.{FormulasAreOverTheirAtoms, ContextsAreOverTheirAtoms};

/// The literals of a clause are in order, each once.
pub fn clauses_are_sets()
    ensures { ClausesAreSets }
{}

/// An assignment of the atoms satisfies formulas exactly if it extends to one that satisfies their
/// clauses. There is at most one such extension (Tseitin 1968).
pub fn clauses_mean_the_formulas()
    ensures { ClausesMeanTheFormulas }
{}

/// A formula follows exactly if no assignment satisfies the clauses of the formulas with its
/// negation.
pub fn entailment_is_refutation()
    ensures { EntailmentIsRefutation }
{}

/// An accepted entailment is a `yes` exactly if the formula follows.
pub fn entailments_are_sound()
    ensures { EntailmentsAreSound }
{}

/// The beliefs that are shown to follow do so, and no others do. An accepted certificate of a
/// classical context shows the listing of its accepted views, which has exactly one view.
pub fn classical_certificates_are_sound()
    ensures shown { ShownBeliefsFollow }
    ensures listed { ClassicalCertificatesAreSound }
{}

/// A formula is over names exactly if each of its atoms is one of them.
pub fn formulas_are_over_their_atoms()
    ensures { FormulasAreOverTheirAtoms }
{}

/// No two atoms of a context have the same name, and the formulas of the context are over its
/// atoms.
pub fn contexts_are_over_their_atoms()
    ensures { ContextsAreOverTheirAtoms }
{}
