//! Finding the answer to a question.

ghost use Rattle.std.specs.Prelude.{◌≤◌, length, MatchOption};
ghost use Rattle.mcs_base.specs.Listings.{IsAmong};
ghost use Rattle.mcs_rows.specs.Finding.{AreAscendingQuestions, QuestionsEndAt, IsAnswerTo};
ghost use Rattle.mcs_rows.specs.Finding.{asked_in};

use crate::answer::Answer;
use mcs_base::Active;

/// How many of the answers are to questions before this one.
fn place_of(answers: &[Answer], question: Active) -> usize
    requires { AreAscendingQuestions answers.now }
    ensures bound { result ≤ length answers.now }
    ensures point { QuestionsEndAt question answers.now result }
{
    answers.partition_point(|answer| answer.active < question)
}

/// The answer to the question, if there is one.
pub(crate) fn answer_to(answers: &[Answer], question: Active) -> Option<&Answer>
    requires { AreAscendingQuestions answers.now }
    ensures { MatchOption result (¬ IsAmong question (asked_in answers.now))
        (λ a. IsAnswerTo answers.now question a.now) }
{
    let place = place_of(answers, question);
    if place >= answers.len() {
        return None;
    }
    let answer = &answers[place];
    if answer.active != question {
        return None;
    }
    Some(answer)
}
