//! Laws over the definitions of keys. The functions compute nothing: their contracts are laws.

ghost use Rattle.mcs_session.specs.Laws.{AnswersGiveViews, NoTwoKeysHaveOneText};
ghost use Rattle.mcs_session.specs.Worked.{FirstKeysAreNew, KeysHaveTexts, LaterKeysAreKept};
ghost use Rattle.mcs_session.specs.Laws.{SameKeysHaveSameAnswers, ViewsGiveAnswers};

/// In systems of the same contexts, questions with the same key have the same answers: the same
/// places of the context's variables, whatever the numbers of rules and variables are. So the
/// answer to a question is kept as its views, and read back from these for each question with the
/// key.
pub fn same_keys_have_same_answers()
    ensures same { SameKeysHaveSameAnswers }
    ensures answers { ViewsGiveAnswers }
    ensures views { AnswersGiveViews }
{}

/// No two keys have the same text.
pub fn key_texts_differ()
    ensures { NoTwoKeysHaveOneText }
{}

/// Worked keys of a system before and after a rule is added, which of them are new, and their
/// texts.
pub fn worked_keys()
    ensures first { FirstKeysAreNew }
    ensures later { LaterKeysAreKept }
    ensures texts { KeysHaveTexts }
{}
