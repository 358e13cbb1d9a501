//! The questions of a session, listing by listing.

ghost use Rattle.std.specs.Prelude.{◌≡◌, OnOk};
ghost use Rattle.std.specs.Arc.{arc_value};
ghost use Rattle.mcs_session.specs.Asked.{keys_in, HasAnswered, IsOpen};

use mcs_base::{Active, Memory};
use mcs_system::System;
use std::alloc::Global;
use std::sync::Arc;

/// The questions to a context of a system whose keys were new when the oracles of the system were
/// lent, each key once.
#[derive(Drop)]
pub(crate) struct Asked {
    pub(crate) system: Arc<System>,
    pub(crate) context: u32,
    pub(crate) questions: Vec<Active>,
}

/// Makes room for the questions of the next listing.
pub(crate) fn open(
    alloc: Global,
    asked: &mut Vec<Asked>,
    system: &Arc<System>,
    context: u32,
) -> Result<(), Memory>
    ensures open { OnOk result (IsOpen (arc_value system.now) context asked.new.items) }
    ensures same { keys_in asked.new.items ≡ keys_in asked.old.items }
{
    let system = system.clone()?;
    asked.push(Asked {
        system,
        context,
        questions: Vec::new(alloc),
    })?;
    Ok(())
}

/// Puts the questions of a listing where room was made for them. No memory is needed.
pub(crate) fn close(asked: &mut Vec<Asked>, questions: Vec<Active>)
    ensures { HasAnswered asked.old.items questions.items asked.new.items }
{
    if questions.is_empty() {
        drop(asked.pop());
        return;
    }
    if let Some(last) = asked.last_mut() {
        last.questions = questions;
    }
}
