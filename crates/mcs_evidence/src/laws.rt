//! Laws over the definitions. The functions compute nothing: each contract is a law.

ghost use Rattle.mcs_evidence.specs.Laws.{DefaultCertificatesAreSound, ProgramCertificatesAreSound};
ghost use Rattle.mcs_evidence.specs.Laws.{AnswerSetsAreSupported, SupportedModelsAreAnswerSets};
ghost use Rattle.mcs_evidence.specs.Laws.{DefaultTheoriesHaveAListing, ProgramsHaveAListing};
ghost use Rattle.mcs_evidence.specs.Theories.{ExtensionsAreGenerated};

/// An accepted certificate of a default theory shows the listing of the views of its extensions.
pub fn default_certificates_are_sound()
    ensures { DefaultCertificatesAreSound }
{}

/// An accepted certificate of a program shows the listing of the views of its answer sets.
pub fn program_certificates_are_sound()
    ensures { ProgramCertificatesAreSound }
{}

/// The extensions of a default theory are those that certain sets of its defaults generate: the
/// members apply, no other default applies, and the set is grounded (Reiter 1980).
pub fn extensions_are_generated()
    ensures { ExtensionsAreGenerated }
{}

/// Each set of atoms that meets an answer set has external support in it (Lee & Lifschitz 2003). A
/// model is an answer set if each of its atoms has support of its own and positive bodies lead on
/// from it only finitely (Fages 1994).
pub fn answer_sets_are_supported()
    ensures each_set { AnswerSetsAreSupported }
    ensures without_loops { SupportedModelsAreAnswerSets }
{}

/// What a default theory accepts has a listing, and so has what a program accepts.
pub fn kinds_have_listings()
    ensures default_theories { DefaultTheoriesHaveAListing }
    ensures programs { ProgramsHaveAListing }
{}
