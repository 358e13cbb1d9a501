//! The kinds of words before the first `--`.

ghost use Rattle.std.specs.Prelude.{◌≡◌, is_some};
ghost use Rattle.mcs_words.specs.Commands.{begins_with_dash};
ghost use Rattle.mcs_words.specs.Reading.{rest_after, kind, IsKindSeen};

use crate::setting::Setting;

/// The kind of a word that is before the first `--` and is no option's value.
#[derive(Clone, Copy)]
pub(crate) enum Kind {
    /// `--`: each word after it is plain.
    Dashes,
    /// The name of an option, whose value is the next word.
    Name(Setting),
    /// The name of an option, `=`, and its value.
    Joined(Setting),
    /// `--proof`.
    Flag,
    /// A word that does not begin with `-`, or `-` alone.
    Plain,
    /// Any other word, which is a fault.
    Unknown,
}

/// Whether the word begins with `-`.
pub(crate) fn begins_with_dash(word: &str) -> bool
    ensures { result ≡ begins_with_dash word.now }
{
    match word.as_bytes() {
        [] => false,
        [first, ..] => *first == b'-',
    }
}

/// Whether the word begins with `front`.
fn has_front(word: &str, front: &str) -> bool
    ensures { result ≡ is_some (rest_after front.now word.now) }
{
    word.as_bytes().starts_with(front.as_bytes())
}

/// The kind of the word.
#[tactic(auto, unfolding(crate::specs::Reading::kind))]
pub(crate) fn kind_of(word: &str) -> Kind
    ensures { IsKindSeen result (kind word.now) }
{
    if word == "--" {
        Kind::Dashes
    } else if word == "--budget" {
        Kind::Name(Setting::Budget)
    } else if word == "--workers" {
        Kind::Name(Setting::Workers)
    } else if word == "--proof" {
        Kind::Flag
    } else if has_front(word, "--budget=") {
        Kind::Joined(Setting::Budget)
    } else if has_front(word, "--workers=") {
        Kind::Joined(Setting::Workers)
    } else if begins_with_dash(word) && word != "-" {
        Kind::Unknown
    } else {
        Kind::Plain
    }
}
