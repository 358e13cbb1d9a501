//! Laws over the definitions of multi-context systems. The functions compute nothing: each contract
//! is a law.
#![tactic(auto)]

ghost use Rattle.mcs_laws.specs.Laws.{StatesHaveOneListing, DiagnosesHaveOneListing};
ghost use Rattle.mcs_laws.specs.Laws.{WithoutDiagnosesNothingExplains, ChangedStatesAreChoices};
ghost use Rattle.mcs_laws.specs.Laws.{MinimalDiagnosesAreDifferences, ExplanationsMeetDiagnoses};
ghost use Rattle.mcs_laws.specs.Laws.{MinimalExplanationsAreMinimalTransversals};
ghost use Rattle.mcs_laws.specs.Laws.{EquilibriaAreByParts, ConsequenceIsDecided};
ghost use Rattle.mcs_laws.specs.Laws.{SelfSupportHasTwo, AgainstItselfHasNone, NeedIsOfAllRules};
ghost use Rattle.mcs_laws.specs.Laws.{RowsHaveFewMarks, RowsKeepToSupplies};
ghost use Rattle.mcs_laws.specs.Laws.{QuestionsKeepToSupplies, QuestionsTakeSupplies};
ghost use Rattle.mcs_laws.specs.Laws.{ChoicesAreDiagnoses, ConsistentNeedsNothing};
ghost use Rattle.mcs_laws.specs.Laws.{StatesHaveOneProjection, MinimalDiagnosesAreSmall};
ghost use Rattle.mcs_laws.specs.Laws.{QuestionsGrow, RowsMakeChoices, ChoicesAskQuestions};
ghost use Rattle.mcs_laws.specs.Laws.{ChoicesHaveRows, MarksAreUnited, MarksAreApart};
ghost use Rattle.mcs_laws.specs.Laws.{PartsAreViews, ViewListingsGivePartListings, NegationAllows};
ghost use Rattle.mcs_laws.specs.Laws.{NegationUndoes, ProgramsDoNotSupportThemselves};
ghost use Rattle.mcs_laws.specs.Laws.{HeadsAreFacts, ProgramsBelieveAtoms, DefaultsAreGrounded};
ghost use Rattle.mcs_laws.specs.Laws.{DefaultsMayChoose, ToldFactsBlock, KindsAcceptTheirSort};
ghost use Rattle.mcs_laws.specs.Laws.{DisjunctionChooses, BirdFlies, TablesDecide};
ghost use Rattle.mcs_laws.specs.Laws.{ClassicalContextsAcceptWhatFollows};
ghost use Rattle.mcs_laws.specs.Laws.{ClassicalStatesHaveAListing, ConsistencyIsListed};
ghost use Rattle.mcs_laws.specs.Laws.{KeptIsForced, ClosedIsRemoved, BarredIsUnrepaired};
ghost use Rattle.mcs_laws.specs.Laws.{KeptIsAsked, ClosedIsNotAsked, WeightsAreLimited};
ghost use Rattle.mcs_laws.specs.Laws.{AllMarksAreAllowed, FreeDiagnoses, FreeExplanations};
ghost use Rattle.mcs_laws.specs.Laws.{FreeChoices, FreeQuestions, FreeRows};

/// A property of states, or of pairs, has at most one listing.
pub fn listings_are_unique()
    ensures states { StatesHaveOneListing }
    ensures diagnoses { DiagnosesHaveOneListing }
{}

/// An explanation is a pair that meets each diagnosis. The minimal explanations are the minimal
/// transversals of the minimal diagnoses (Eiter, Fink, Schüller & Weinzierl 2014). If there is no
/// diagnosis, the empty pair is the only minimal explanation.
pub fn explanations_are_transversals()
    ensures all { ExplanationsMeetDiagnoses }
    ensures minimal { MinimalExplanationsAreMinimalTransversals }
    ensures without { WithoutDiagnosesNothingExplains }
{}

/// A projected equilibrium consists of what the contexts accept one by one.
pub fn equilibria_are_by_parts()
    ensures { EquilibriaAreByParts }
{}

/// Whether a formula follows is decided by the assignments of the atoms that occur.
pub fn consequence_is_decided()
    ensures { ConsequenceIsDecided }
{}

/// The truth table over the atoms decides consequence for all assignments.
pub fn tables_decide()
    ensures { TablesDecide }
{}

/// A classical context accepts what follows from its formulas, and nothing else.
pub fn classical_contexts_accept_what_follows()
    ensures { ClassicalContextsAcceptWhatFollows }
{}

/// The projected equilibria of a system of classical contexts have a listing. A listing is empty
/// exactly if there is no equilibrium.
pub fn listings_exist()
    ensures classical { ClassicalStatesHaveAListing }
    ensures consistent { ConsistencyIsListed }
{}

/// A system with a rule that supports itself has two equilibria. One with a rule that defeats
/// itself has none.
pub fn tiny_systems()
    ensures two { SelfSupportHasTwo }
    ensures none { AgainstItselfHasNone }
{}

/// A kept rule is not removed and a closed rule is not forced, in diagnoses, in explanations and in
/// what contexts are asked. A weight is from 1 to 1000000.
pub fn worked_rules()
    ensures kept { KeptIsForced }
    ensures closed { ClosedIsRemoved }
    ensures barred { BarredIsUnrepaired }
    ensures asked { KeptIsAsked }
    ensures not_asked { ClosedIsNotAsked }
    ensures weights { WeightsAreLimited }
{}

/// Needs and levels of tiny systems. Without equilibria the level of all rules counts. Rows have no
/// more marks than their level. Rows and questions keep to what earlier contexts may supply, and
/// questions use what they do supply.
pub fn tiny_levels()
    ensures need { NeedIsOfAllRules }
    ensures few { RowsHaveFewMarks }
    ensures supplies { RowsKeepToSupplies }
    ensures questions { QuestionsKeepToSupplies }
    ensures supplied { QuestionsTakeSupplies }
{}

/// Each choice of what the contexts accept is a diagnosis by its marks. Each state of a changed
/// system makes a choice. A minimal diagnosis is the difference between the rules that apply and
/// the active ones, in each state of its changed system. A consistent system needs no marks.
pub fn diagnoses_are_choices()
    ensures all { ChoicesAreDiagnoses }
    ensures states { ChangedStatesAreChoices }
    ensures minimal { MinimalDiagnosesAreDifferences }
    ensures consistent { ConsistentNeedsNothing }
{}

/// Each belief state has one projection. Worked contexts: a disjunction chooses, and a bird flies.
pub fn small_contexts()
    ensures projection { StatesHaveOneProjection }
    ensures disjunction { DisjunctionChooses }
    ensures bird { BirdFlies }
{}

/// Minimal diagnoses are small, and questions grow with the level. Compatible rows, one of each
/// context, make a choice whose questions the level asks.
pub fn questions_by_level()
    ensures small { MinimalDiagnosesAreSmall }
    ensures grow { QuestionsGrow }
    ensures ask { ChoicesAskQuestions }
    ensures have { ChoicesHaveRows }
    ensures rows { RowsMakeChoices }
{}

/// The marks of a choice are the union of those at the contexts, and no mark is at two contexts.
pub fn marks_are_of_contexts()
    ensures united { MarksAreUnited }
    ensures apart { MarksAreApart }
{}

/// If no rule is kept or closed, each mark of a rule is allowed. Each notion of repairs is then the
/// one of systems in which each rule may be removed and each may be forced.
pub fn unbarred_rules_are_free()
    ensures marks { AllMarksAreAllowed }
    ensures diagnoses { FreeDiagnoses }
    ensures explanations { FreeExplanations }
    ensures choices { FreeChoices }
    ensures questions { FreeQuestions }
    ensures rows { FreeRows }
{}

/// What a context accepts, projected to its variables, is what its knowledge base with the heads
/// accepts, projected to their beliefs. A listing of the latter yields one of the former.
pub fn parts_are_views()
    ensures each { PartsAreViews }
    ensures listings { ViewListingsGivePartListings }
{}

/// Worked programs: negation allows and undoes, nothing supports itself, and added heads are facts.
pub fn worked_programs()
    ensures allows { NegationAllows }
    ensures undoes { NegationUndoes }
    ensures unsupported { ProgramsDoNotSupportThemselves }
    ensures heads { HeadsAreFacts }
{}

/// A finite set of atoms, such as a program accepts, believes exactly the formulas that are atoms
/// of the set.
pub fn programs_believe_atoms()
    ensures { ProgramsBelieveAtoms }
{}

/// Worked default theories: extensions are grounded, contrary defaults choose, and a given fact is
/// believed and blocks a default.
pub fn worked_default_theories()
    ensures grounded { DefaultsAreGrounded }
    ensures choose { DefaultsMayChoose }
    ensures blocked { ToldFactsBlock }
{}

/// Each kind of knowledge base accepts only belief sets of its own sort.
pub fn kinds_accept_their_sort()
    ensures { KindsAcceptTheirSort }
{}
