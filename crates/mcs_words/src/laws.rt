//! A law over the definitions.

ghost use Rattle.std.specs.Prelude.{◌≡◌, List};
ghost use Rattle.mcs_words.specs.Commands.{Word, Request, IsJobOf};

/// Words ask for at most one job.
pub fn one_job()
    ensures { (words : List Word) (a b : Request) → IsJobOf words a → IsJobOf words b → a ≡ b }
{}
