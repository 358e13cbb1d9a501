//! Letters. What a letter says is true: that is the invariant of its type, which a proof knows
//! wherever a letter comes from.

ghost use Rattle.std.specs.Prelude.{◌≡◌, IfOk};
ghost use Rattle.std.specs.Arc.{arc_value};
ghost use Rattle.mcs_base.specs.Listings.{IsListing};
ghost use Rattle.mcs_sets.specs.Orders.{StateBefore};
ghost use Rattle.mcs_system.specs.Levels.{MaySupply};
ghost use Rattle.mcs_node.specs.Letters.{IsTrueHalt, IsTrueLetter, content_of};
ghost use Rattle.mcs_node.specs.Letters.ContentData.{Supply, Stop};
ghost use Rattle.mcs_node.specs.Rounds.{Supplies};

use crate::content::Content;
use mcs_base::{Memory, Vars};
use mcs_import::Plan;
use mcs_states::Halt;
use std::marker::Model;
use std::sync::Arc;

/// A letter of a round, from a context to one that it supplies. It is true: a supply is the listing
/// of what the sender may supply at the level; a stop for too many questions names the level, and
/// one for a missing answer a context and a question to it at the level.
#[derive(Drop)]
pub struct Letter {
    plan: Arc<Plan>,
    level: u32,
    from: u32,
    to: u32,
    content: Content,
}

impl Model for Letter {
    ghost use Rattle.std.specs.Arc.{arc_value};
    ghost use Rattle.mcs_node.specs.Letters.{LetterData, IsTrueLetter, coded_letter, content_of};

    ghost Value = { LetterData };

    ghost coded = { coded_letter };

    ghost view = { λ l. record {
      plan = arc_value l.plan;
      level = l.level;
      from = l.from;
      to = l.to;
      content = content_of l.content;
    } };

    ghost invariant = { λ l. IsTrueLetter (record {
      plan = arc_value l.plan;
      level = l.level;
      from = l.from;
      to = l.to;
      content = content_of l.content;
    }) };
}

impl Letter {
    /// A letter by which context `from` of the plan's system tells context `to`, which it supplies,
    /// all that it may supply at the level: each state once, in the order of states. The list may
    /// be shared with other letters.
    pub fn supply(plan: Arc<Plan>, level: u32, from: u32, to: u32, states: Arc<Vec<Vars>>) -> Letter
        requires fits { Supplies (arc_value plan) from to }
        requires listing { IsListing (MaySupply (arc_value plan) level from) StateBefore
            (arc_value states).items }
        ensures { result ≡ record {
          plan = arc_value plan;
          level = level;
          from = from;
          to = to;
          content = Supply (arc_value states).items;
        } }
    {
        Letter {
            plan,
            level,
            from,
            to,
            content: Content::Supply(states),
        }
    }

    /// A letter by which context `from` of the plan's system tells context `to`, which it supplies,
    /// that it stopped in the round of the level. The halt is one that this round may tell: more
    /// questions than the budget at the level, a question of the level that has no answer, or want
    /// of memory.
    pub fn stop(plan: Arc<Plan>, level: u32, from: u32, to: u32, halt: Halt) -> Letter
        requires fits { Supplies (arc_value plan) from to }
        requires halt { IsTrueHalt (arc_value plan) level halt }
        ensures { result ≡ record {
          plan = arc_value plan;
          level = level;
          from = from;
          to = to;
          content = Stop halt;
        } }
    {
        Letter {
            plan,
            level,
            from,
            to,
            content: Content::Stop(halt),
        }
    }

    /// The plan of the letter.
    pub fn plan(&self) -> &Plan
        ensures { result.now ≡ self.now.plan }
    {
        &self.plan
    }

    /// The level of the round that it is of.
    pub fn level(&self) -> u32
        ensures { result ≡ self.now.level }
    {
        self.level
    }

    /// The context that sends it, which supplies the one that it is to.
    pub fn from(&self) -> u32
        ensures from { result ≡ self.now.from }
        ensures fits { Supplies self.now.plan self.now.from self.now.to }
    {
        self.from
    }

    /// The context that it is to.
    pub fn to(&self) -> u32
        ensures { result ≡ self.now.to }
    {
        self.to
    }

    /// What it says, which is true.
    pub fn content(&self) -> &Content
        ensures says { content_of result.now ≡ self.now.content }
        ensures truth { IsTrueLetter self.now }
    {
        &self.content
    }

    /// What it says, which is true, and no more of it.
    pub fn into_content(self) -> Content
        ensures says { content_of result ≡ self.content }
        ensures truth { IsTrueLetter self }
    {
        let Letter { content, .. } = self;
        content
    }

    /// An equal letter, which shares the plan and the list of states with this one. Want of memory
    /// where one of the two has too many owners.
    pub fn copy(&self) -> Result<Letter, Memory>
        ensures { IfOk result (λ copy. copy ≡ self.now) }
    {
        let content = self.content.copy()?;
        Ok(Letter {
            plan: Arc::try_clone(&self.plan)?,
            level: self.level,
            from: self.from,
            to: self.to,
            content,
        })
    }
}
