//! Laws of import orders and of the number of questions. The functions compute nothing: each
//! contract is a law.

ghost use Rattle.mcs_import.specs.Laws.{ImportOrderIsOne, ImportOrderExists, QuestionsAreBounded};
ghost use Rattle.mcs_import.specs.Laws.{QuestionCountsGrow, CountsAgree, CountIsOne};
ghost use Rattle.mcs_import.specs.Laws.{JournalsAreCounted, CountsGrow, NeedIsOne};

/// A system has at most one import order.
pub fn import_order_is_one()
    ensures { ImportOrderIsOne }
{}

/// Each system has an import order.
pub fn import_order_exists()
    ensures { ImportOrderExists }
{}

/// A level has at most as many questions as there are sets of rules into a context, summed over all
/// contexts. A higher level has no fewer questions.
pub fn questions_are_bounded()
    ensures bounded { QuestionsAreBounded }
    ensures grow { QuestionCountsGrow }
{}

/// `HasQuestions` agrees with the count; a level has at most one count; a higher level has no
/// smaller count. Journals that have just the questions of a level, each once, have their count. A
/// system has at most one need.
pub fn question_counts_are_one()
    ensures agree { CountsAgree }
    ensures level { CountIsOne }
    ensures journals { JournalsAreCounted }
    ensures grow { CountsGrow }
    ensures need { NeedIsOne }
{}
