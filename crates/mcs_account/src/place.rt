//! What a token of a text is there for, by its class and the tokens before it.

ghost use Rattle.std.specs.Prelude.{◌≡◌, ◌+◌, ◌≤◌, ◌↔◌, IsTrue, cond, min, map};
ghost use Rattle.mcs_system.specs.Plain as plain;
ghost use Rattle.mcs_system.specs.Limits.{most};
ghost use Rattle.mcs_system.specs.declared.limit.Limit.TheVariants as limits;
ghost use Rattle.mcs_grammar.specs.Entries.{Token};
ghost use Rattle.mcs_grammar.specs.Written.{IsNameWord};
ghost use Rattle.mcs_productions.specs.Productions.{wanted};
ghost use Rattle.mcs_productions.specs.declared.terminal.Terminal.TheVariants as terminal;
ghost use Rattle.mcs_account.specs.declared.place.Role.TheVariants as roles;
ghost use Rattle.mcs_account.specs.Account as said;
ghost use Rattle.mcs_account.specs.Account.{no_place, own_uses, place_after, uses_with};
ghost use Rattle.mcs_account.specs.Images.{IsNaming, IsPlace, capped, most_number, role_uses};
ghost use Rattle.mcs_account.specs.Images.{about_place, context_chosen, target_chosen, uses_in};

use crate::items::is_counted;
use mcs_base::{is_reserved, is_word};
use mcs_productions::Class;

/// Tokens are numbered up to this number; the first number that exceeds the limit is one less.
const MOST_NUMBER: usize = 514;

/// The role of a token by itself.
#[derive(Clone, Copy)]
pub enum Role {
    /// A sign, or a word that only separates others.
    Nothing,
    /// The word `context`.
    BeginsContext,
    /// The word `bridge`.
    BeginsBridge,
    /// The name of a context, where it is introduced.
    NamesContext,
    /// The name of a bridge rule, where it is introduced.
    NamesBridge,
    /// The number after the word `weight`.
    Weighs,
    /// The word `program`.
    SaysProgram,
    /// The colon after a prerequisite, which makes the item a default.
    BeginsDefault,
    /// The name of the context of a head.
    NamesTarget,
    /// The name of the context of a read.
    NamesSource,
    /// An atom, with its number in its formula or program rule.
    Atom { number: usize },
    /// A token with its number in its formula.
    Counted { number: usize },
    /// An opening parenthesis, with the number of those that are open before it.
    Opens { within: usize },
}

/// The uses of one token.
#[derive(Clone, Copy)]
pub struct Uses {
    pub role: Role,
    /// Whether it is the first token of an item.
    pub begins_item: bool,
    /// Whether it is the first token of a belief or a head.
    pub begins_belief: bool,
    /// Whether it is the last token of a read.
    pub ends_read: bool,
}

/// What the next token begins.
#[derive(Clone, Copy)]
pub enum Beginning {
    Nothing,
    /// An item, unless it is the brace after the last one.
    Item,
    /// A belief or a head.
    Belief,
}

/// Where a text is between two tokens: of which contexts the next token is said, and how much was
/// counted.
#[derive(Clone, Copy)]
pub struct Place {
    /// The number of the context that is spoken of.
    pub context: usize,
    /// The number of the context of the head of the rule.
    pub target: usize,
    /// How many tokens of the formula that are no parentheses, or names of the program rule, there
    /// were, up to 514.
    pub counted: usize,
    /// How many parentheses are open.
    pub opened: usize,
    pub begins: Beginning,
}

/// The number of the token after `before` others.
fn number_after(before: usize) -> usize
    ensures { result ≡ min (before + 1) most_number }
{
    if before >= MOST_NUMBER {
        return MOST_NUMBER;
    }
    before + 1
}

/// How many tokens were counted after one more, which may count.
fn count_if(counts: bool, before: usize) -> usize
    ensures { result ≡ cond counts (min (before + 1) most_number) before }
{
    if counts {
        return number_after(before);
    }
    before
}

/// The role of a token that says nothing by itself, but may have a number.
fn role_if(counts: bool, number: usize) -> Role
    ensures { result ≡ cond counts (roles.Counted number) roles.Nothing }
{
    if counts {
        return Role::Counted { number };
    }
    Role::Nothing
}

/// Whether the token is a word that is not reserved, of any length.
pub fn is_name_word(token: &[u8]) -> bool
    ensures { IsTrue result ↔ IsNameWord token.now }
{
    is_word(token) && !is_reserved(token)
}

impl Place {
    /// Before the first token.
    pub fn new() -> Place
        ensures place { IsPlace result no_place }
        ensures context { result.context ≡ 0 }
        ensures target { result.target ≡ 0 }
    {
        Place {
            context: 0,
            target: 0,
            counted: 0,
            opened: 0,
            begins: Beginning::Nothing,
        }
    }

    /// What a token of the class is there for here. The grammar says whether a read ends with it.
    pub fn uses(&self, class: Class, ends_read: bool) -> Uses
        ensures uses { (p : said.Place) (f : plain.Formula) (t : Token) → IsPlace self.now p
            → map capped (uses_with ends_read p class t f) ≡ uses_in (about_place p f) t result }
        ensures ends { result.ends_read ≡ ends_read }
        ensures names { IsNaming result.role → wanted class ≡ terminal.Name }
    {
        let is_there = !matches!(class, Class::ClosesItems);
        Uses {
            role: self.role(class),
            begins_item: is_there && matches!(self.begins, Beginning::Item),
            begins_belief: is_there && matches!(self.begins, Beginning::Belief),
            ends_read,
        }
    }

    /// The role of a token of the class here.
    fn role(&self, class: Class) -> Role
        ensures uses { (p : said.Place) (f : plain.Formula) (t : Token) → IsPlace self.now p
            → map capped (own_uses p class t) ≡ role_uses (about_place p f) t result }
        ensures names { IsNaming result → wanted class ≡ terminal.Name }
    {
        let number = number_after(self.counted);
        match class {
            Class::BeginsContext => Role::BeginsContext,
            Class::NamesContext => Role::NamesContext,
            Class::SaysProgram => Role::SaysProgram,
            Class::BeginsDefault => Role::BeginsDefault,
            Class::BeginsBridge => Role::BeginsBridge,
            Class::NamesBridge => Role::NamesBridge,
            Class::Weighs | Class::WeighsTwo => Role::Weighs,
            Class::NamesTarget => Role::NamesTarget,
            Class::NamesSource => Role::NamesSource,
            Class::IsHeadAtom | Class::IsBodyAtom | Class::IsAtom => Role::Atom { number },
            Class::OpensParenthesis => Role::Opens {
                within: self.opened,
            },
            _ => role_if(is_counted(class), number),
        }
    }

    /// The place after a token of the class. `number` is that of the context with its name, if it
    /// is the name of one.
    pub fn after(&self, class: Class, number: usize) -> Place
        ensures place { (p : said.Place) (t : Token) → IsPlace self.now p
            → p.opened ≤ most limits.OpenParentheses → IsPlace result (place_after p class t) }
        ensures context { result.context ≡ context_chosen class number self.now.context }
        ensures target { result.target ≡ target_chosen class number self.now.target }
    {
        let next = Place {
            begins: Beginning::Nothing,
            ..*self
        };
        match class {
            Class::NamesContext | Class::NamesTarget => Place {
                context: number,
                target: number,
                ..next
            },
            Class::NamesSource => Place {
                context: number,
                ..next
            },
            Class::OpensItems | Class::EndsItem => Place {
                counted: 0,
                begins: Beginning::Item,
                ..next
            },
            Class::BeginsBelief => Place {
                counted: 0,
                begins: Beginning::Belief,
                ..next
            },
            Class::BeginsDefault | Class::SeparatesJustifications | Class::BeginsConclusion => {
                Place { counted: 0, ..next }
            }
            Class::OpensParenthesis => Place {
                opened: self.opened.saturating_add(1),
                ..next
            },
            Class::ClosesParenthesis => Place {
                opened: self.opened.saturating_sub(1),
                ..next
            },
            Class::IsHeadAtom | Class::IsBodyAtom | Class::IsAtom => Place {
                counted: number_after(self.counted),
                ..next
            },
            _ => Place {
                counted: count_if(is_counted(class), self.counted),
                ..next
            },
        }
    }
}
