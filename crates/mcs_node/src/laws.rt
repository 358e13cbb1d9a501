//! Laws of rounds. The functions do nothing: each contract is a law.

ghost use Rattle.mcs_node.specs.Laws.{FirstIsSound, StepsKeepSoundness, RunsAreSound};
ghost use Rattle.mcs_node.specs.Laws.{QuietRoundsAreDone, HaltsHaveASource, DoneRoundsAreQuiet};
ghost use Rattle.mcs_node.specs.Laws.{DoneRoundsAreAlike, TotalsCountQuestions};
ghost use Rattle.mcs_node.specs.Laws.{GreatestTotalIsTheCount, HaltsAreTrue};
ghost use Rattle.mcs_node.specs.Existence.{TotalsExist, TotalsAreOne, StepsHaveTheirOutcome};
ghost use Rattle.mcs_node.specs.Existence.{OutcomesExclude, StepsHaveOneOutcome, EventsHaveSteps};
ghost use Rattle.mcs_node.specs.Existence.{OutcomesHaveSteps, EventsHaveRuns};
ghost use Rattle.mcs_node.specs.Replay.{OutcomesAddUp, OneThingIsTold, EventsHaveReplays};
ghost use Rattle.mcs_node.specs.Replay.{QuietReplaysEnd, ReplaysTellTruth, TurnsAreTold};
ghost use Rattle.mcs_node.specs.Replay.{SkipsAreTold, SpentIsTold, ExampleNeedsOneEach};
ghost use Rattle.mcs_node.specs.Replay.{ExampleIsSpent};
ghost use Rattle.mcs_node.specs.Playing.{NewNodesAreFirst, BeginsAreSteps, BegunIsSkipped};
ghost use Rattle.mcs_node.specs.Playing.{GrantsAreSteps, UngrantedIsSkipped, LettersAreSteps};
ghost use Rattle.mcs_node.specs.Playing.{StrangersAreIgnored, UnsentIsSkipped};
ghost use Rattle.mcs_node.specs.Worked.{TurnsAreTaken, ImpossibleIsSkipped, StopsAreCarried};
ghost use Rattle.mcs_node.specs.Worked.{MemoryMayRunOut, AnswersMayBeMissing, UnsoundIsRefused};
ghost use Rattle.mcs_node.specs.Worked.{ExampleIsOfTwo};

/// The configuration in which no node has begun is sound, and each step makes a sound configuration
/// of a sound one. So is whatever a list of events leaves.
pub fn steps_keep_soundness()
    ensures first { FirstIsSound }
    ensures step { StepsKeepSoundness }
    ensures run { RunsAreSound }
{}

/// Where nothing is left to happen in a sound configuration, every node is done, or one has a halt.
/// Where one has a halt, one has stopped by itself with this halt.
pub fn quiet_rounds_are_done()
    ensures done { QuietRoundsAreDone }
    ensures source { HaltsHaveASource }
{}

/// Where every node has finished the round, the configuration whose letters are those put out, node
/// by node, is sound, and nothing is left to happen in it.
pub fn done_rounds_are_quiet()
    ensures { DoneRoundsAreQuiet }
{}

/// Where every node is done, it does not matter in which order the events came: the nodes have had
/// and put out the same, and the letters are the same. Only the totals that were granted depend on
/// the order, and the greatest of them is the number of questions of the level.
pub fn done_rounds_are_alike()
    ensures alike { DoneRoundsAreAlike }
    ensures greatest { GreatestTotalIsTheCount }
{}

/// Nodes, one for each context, have exactly one total. An event has one outcome: it is skipped
/// where it is not possible, ignored where it delivers a letter that is not taken, and else it
/// takes place. In a sound configuration each event has a step in which no answer is missing and
/// memory does not run out, and so any events have such a run. This is existence: other steps of
/// the same event are not excluded.
pub fn events_have_steps()
    ensures total { TotalsExist }
    ensures one_total { TotalsAreOne }
    ensures outcome { StepsHaveTheirOutcome }
    ensures exclude { OutcomesExclude }
    ensures one_outcome { StepsHaveOneOutcome }
    ensures step { EventsHaveSteps }
    ensures same_outcome { OutcomesHaveSteps }
    ensures run { EventsHaveRuns }
{}

/// A replay of events tells how many letters were put out, how many deliveries were ignored, how
/// many events were skipped, whether every node is done, and the halt of the lowest node that
/// stopped by itself. Each event is skipped, ignored or taken. Any events have a replay, and of
/// what a run has left one thing is told. Where nothing is left to happen, either every node is
/// done or there is a halt, and what it says is true.
pub fn replays_add_up()
    ensures sum { OutcomesAddUp }
    ensures one { OneThingIsTold }
    ensures replay { EventsHaveReplays }
    ensures quiet { QuietReplaysEnd }
    ensures halt { ReplaysTellTruth }
{}

/// Nodes that play a round make a configuration of it. New nodes make the first one. Each call of a
/// node is a step: a begin, a grant of its need on top of what was granted so far, and a letter
/// that it takes. A node that has begun does not begin again, one that does not wait for its grant
/// is granted none, a letter that is not awaited is ignored, and one that was not put out is not
/// delivered.
pub fn calls_are_steps()
    ensures first { NewNodesAreFirst }
    ensures begin { BeginsAreSteps }
    ensures begun { BegunIsSkipped }
    ensures grant { GrantsAreSteps }
    ensures ungranted { UngrantedIsSkipped }
    ensures letter { LettersAreSteps }
    ensures stranger { StrangersAreIgnored }
    ensures unsent { UnsentIsSkipped }
{}

/// The level has at least as many questions as a total says, where no higher level was done before
/// the round, and just so many where every node was granted one. So what a halt says is true: the
/// level has more questions than the budget, or the one that an oracle lacks.
pub fn totals_count_questions()
    ensures count { TotalsCountQuestions }
    ensures halts { HaltsAreTrue }
{}

/// Of two contexts of which the first supplies the second: within the budget the first is done,
/// then its supply comes, and comes in vain a second time, then the second is done. No event that
/// is not possible changes anything. Above the budget the first stops, and its stop takes the halt
/// to the second. Memory may run out when a node begins, and an answer may be missing to any new
/// question.
pub fn two_contexts_take_turns()
    ensures turns { TurnsAreTaken }
    ensures skips { ImpossibleIsSkipped }
    ensures stops { StopsAreCarried }
    ensures memory { MemoryMayRunOut }
    ensures missing { AnswersMayBeMissing }
{}

/// Of two contexts of which the first supplies the second: each configuration that lacks one thing
/// that soundness asks is not sound. A system in which one context reads a fact of the other has
/// such a round, of two questions.
pub fn unsound_is_refused()
    ensures unsound { UnsoundIsRefused }
    ensures example { ExampleIsOfTwo }
{}

/// Of two contexts of which the first supplies the second: what a replay tells where the first is
/// granted its need and its supply comes twice, where the second is granted its need too, and where
/// that is more than the budget. What comes too early is skipped. In the example within a budget of
/// one question, two are drawn.
pub fn two_contexts_are_replayed()
    ensures turns { TurnsAreTold }
    ensures skips { SkipsAreTold }
    ensures spent { SpentIsTold }
    ensures one_each { ExampleNeedsOneEach }
    ensures example { ExampleIsSpent }
{}
