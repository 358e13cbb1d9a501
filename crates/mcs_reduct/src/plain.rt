//! Which contexts are plain: classical ones and normal programs.

ghost use Rattle.std.specs.Prelude.{◌≡◌, MatchOption};
ghost use Rattle.mcs_system.specs.Seen.{kb_of, rule_of};
ghost use Rattle.mcs_reduct.specs.Plain.{has_one_head, is_plain, IsPlain, IsLowestNotPlain};

use mcs_system::{Kb, ProgRule, System};

/// Whether the rule has exactly one head name.
fn has_one_head(rule: &ProgRule) -> bool
    ensures { result ≡ has_one_head (rule_of rule.now) }
{
    rule.head.len() == 1
}

/// Whether the knowledge base is classical, or a program each of whose rules has exactly one head
/// name.
fn is_plain(kb: &Kb) -> bool
    ensures { result ≡ is_plain (kb_of kb.now) }
{
    match kb {
        Kb::Classical(_) => true,
        Kb::Program(rules) => rules.iter().all(|rule| has_one_head(rule)),
        _ => false,
    }
}

/// The lowest context of the system that is not plain, or `None` exactly if each is plain. A
/// context is plain if it is classical, or a program each of whose rules has exactly one head name.
pub fn not_plain(system: &System) -> Option<u32>
    ensures { MatchOption result (IsPlain system.now) (IsLowestNotPlain system.now) }
{
    for (number, context) in system.contexts().iter().enumerate() {
        if !is_plain(&context.kb) {
            return Some(number as u32);
        }
    }
    None
}
