//! What a letter says.

ghost use Rattle.std.specs.Prelude.{◌≡◌, IfOk};
ghost use Rattle.mcs_node.specs.Letters.{content_of};

use mcs_base::{Memory, Vars};
use mcs_states::Halt;
use std::sync::Arc;

/// What a letter says: what its sender may supply at the level, each once, in the order of states;
/// or that the sender stopped, and why. The letters of a sender share the list of what it may
/// supply.
#[derive(Drop)]
pub enum Content {
    Supply(Arc<Vec<Vars>>),
    Stop(Halt),
}

impl Content {
    /// The same content, whose list is shared and not copied. Want of memory where the list has too
    /// many owners.
    pub fn copy(&self) -> Result<Content, Memory>
        ensures { IfOk result (λ copy. content_of copy ≡ content_of self.now) }
    {
        match self {
            Content::Supply(states) => Ok(Content::Supply(Arc::try_clone(states)?)),
            Content::Stop(halt) => Ok(Content::Stop(*halt)),
        }
    }
}
