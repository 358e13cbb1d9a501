//! What the tokens of a text are there for.

ghost use Rattle.std.specs.Prelude.{◌≡◌};
ghost use Rattle.mcs_productions.specs.Productions.{wanted};

use crate::terminal::Terminal;
use mcs_tokens::{Keyword, Sign};

/// What a token is there for.
#[derive(Clone, Copy, Debug, PartialEq, Eq, Drop)]
pub enum Class {
    /// The word `context`.
    BeginsContext,
    /// The name of a context, where it is introduced.
    NamesContext,
    /// The word `classical`.
    SaysClassical,
    /// The word `default`.
    SaysDefault,
    /// The word `program`.
    SaysProgram,
    /// The brace before the items of a context.
    OpensItems,
    /// The brace after the items of a context.
    ClosesItems,
    /// The period after an item.
    EndsItem,
    /// The colon after a prerequisite, which makes the item a default.
    BeginsDefault,
    /// The comma between justifications.
    SeparatesJustifications,
    /// The slash before a consequent.
    BeginsConclusion,
    /// An atom of the head of a program rule.
    IsHeadAtom,
    /// The bar between atoms of a head.
    SeparatesHeadAtoms,
    /// The sign `:-`.
    BeginsBody,
    /// The comma between literals of a body.
    SeparatesLiterals,
    /// The word `not` before an atom of a body.
    DeniesLiteral,
    /// An atom of the body of a program rule.
    IsBodyAtom,
    /// The word `bridge`.
    BeginsBridge,
    /// The name of a bridge rule, where it is introduced.
    NamesBridge,
    /// The colon after the name of a bridge rule.
    EndsBridgeName,
    /// The name of the context of a head.
    NamesTarget,
    /// The name of the context of a read.
    NamesSource,
    /// The colon between the name of a context and a belief.
    BeginsBelief,
    /// The word `if`.
    BeginsReads,
    /// The comma between reads.
    SeparatesReads,
    /// The word `not` before a read.
    DeniesRead,
    /// The period after a bridge rule.
    EndsBridge,
    /// The sign `~`.
    Negates,
    /// The sign `&`.
    Conjoins,
    /// The sign `|` in a formula.
    Disjoins,
    /// The sign `->`.
    Implies,
    /// The sign `<->`.
    Equates,
    /// An opening parenthesis.
    OpensParenthesis,
    /// A closing parenthesis.
    ClosesParenthesis,
    /// The word `true`.
    IsTrue,
    /// The word `false`.
    IsFalse,
    /// An atom of a formula.
    IsAtom,
    /// The word `version`.
    BeginsVersion,
    /// The number of the version.
    NamesVersion,
    /// The period after the number of the version.
    EndsVersion,
    /// The word `keep`.
    Keeps,
    /// The word `closed`.
    Closes,
    /// The word `weight`.
    BeginsWeight,
    /// The number of a weight, if it is not 2.
    Weighs,
    /// The number of a weight, if it is 2.
    WeighsTwo,
}

impl Class {
    /// What a token has to be that is there for this.
    pub fn wanted(self) -> Terminal
        ensures { result ≡ wanted self }
    {
        match self {
            Class::BeginsContext => Terminal::Keyword(Keyword::Context),
            Class::NamesContext => Terminal::Name,
            Class::SaysClassical => Terminal::Keyword(Keyword::Classical),
            Class::SaysDefault => Terminal::Keyword(Keyword::Default),
            Class::SaysProgram => Terminal::Keyword(Keyword::Program),
            Class::OpensItems => Terminal::Sign(Sign::OpenBrace),
            Class::ClosesItems => Terminal::Sign(Sign::CloseBrace),
            Class::EndsItem => Terminal::Sign(Sign::Period),
            Class::BeginsDefault => Terminal::Sign(Sign::Colon),
            Class::SeparatesJustifications => Terminal::Sign(Sign::Comma),
            Class::BeginsConclusion => Terminal::Sign(Sign::Slash),
            Class::IsHeadAtom => Terminal::Name,
            Class::SeparatesHeadAtoms => Terminal::Sign(Sign::Bar),
            Class::BeginsBody => Terminal::Sign(Sign::If),
            Class::SeparatesLiterals => Terminal::Sign(Sign::Comma),
            Class::DeniesLiteral => Terminal::Keyword(Keyword::Not),
            Class::IsBodyAtom => Terminal::Name,
            Class::BeginsBridge => Terminal::Keyword(Keyword::Bridge),
            Class::NamesBridge => Terminal::Name,
            Class::EndsBridgeName => Terminal::Sign(Sign::Colon),
            Class::NamesTarget => Terminal::Name,
            Class::NamesSource => Terminal::Name,
            Class::BeginsBelief => Terminal::Sign(Sign::Colon),
            Class::BeginsReads => Terminal::Keyword(Keyword::If),
            Class::SeparatesReads => Terminal::Sign(Sign::Comma),
            Class::DeniesRead => Terminal::Keyword(Keyword::Not),
            Class::EndsBridge => Terminal::Sign(Sign::Period),
            Class::Negates => Terminal::Sign(Sign::Tilde),
            Class::Conjoins => Terminal::Sign(Sign::Ampersand),
            Class::Disjoins => Terminal::Sign(Sign::Bar),
            Class::Implies => Terminal::Sign(Sign::Arrow),
            Class::Equates => Terminal::Sign(Sign::DoubleArrow),
            Class::OpensParenthesis => Terminal::Sign(Sign::OpenParenthesis),
            Class::ClosesParenthesis => Terminal::Sign(Sign::CloseParenthesis),
            Class::IsTrue => Terminal::Keyword(Keyword::True),
            Class::IsFalse => Terminal::Keyword(Keyword::False),
            Class::IsAtom => Terminal::Name,
            Class::BeginsVersion => Terminal::Keyword(Keyword::Version),
            Class::NamesVersion => Terminal::Two,
            Class::EndsVersion => Terminal::Sign(Sign::Period),
            Class::Keeps => Terminal::Keyword(Keyword::Keep),
            Class::Closes => Terminal::Keyword(Keyword::Closed),
            Class::BeginsWeight => Terminal::Keyword(Keyword::Weight),
            Class::Weighs => Terminal::Number,
            Class::WeighsTwo => Terminal::Two,
        }
    }
}
