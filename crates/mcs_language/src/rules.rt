//! Bridge rules that are read by themselves, one after the other.

use mcs_account::TextReader;
use mcs_system::Bridge;
use std::marker::Model;

/// A reader of bridge rules of a system, each by itself. The model is the list of the names of the
/// system's contexts.
#[derive(Drop)]
pub struct RuleReader {
    pub(crate) reader: TextReader,
}

impl Model for RuleReader {
    ghost use Rattle.std.specs.Prelude.{List};
    ghost use Rattle.mcs_system.specs.Plain.{Name};
    ghost use Rattle.mcs_account.specs.Taken.{context_names};
    ghost use Rattle.mcs_language.specs.Ready.{IsReadyFor};

    ghost Value = { List Name };

    ghost view = { λ r. context_names r.reader.account };

    ghost invariant = { λ r. IsReadyFor (context_names r.reader.account) r.reader };
}

/// A bridge rule that was read, the offset after its last token, and the reader for a further one.
#[derive(Drop)]
pub struct ReadRule {
    pub reader: RuleReader,
    pub bridge: Bridge,
    pub end: usize,
}
