//! The productions of the grammar, and what it says between the tokens of a text.

/// A production of the grammar.
#[derive(Clone, Copy, Debug, PartialEq, Eq, Drop)]
pub enum Production {
    /// `"version" "2" "." { context } { marked bridge } | { context } { bridge }`
    Text,
    /// `"context" name "classical" "{" { formula "." } "}"`, and likewise with `"default"` and
    /// items and with `"program"` and rules
    Context,
    /// `formula [ ":" formula { "," formula } "/" formula ]`
    Item,
    /// `name { "|" name } [ body ] | body`
    ProgramRule,
    /// `":-" [ literal { "," literal } ]`
    Body,
    /// `[ "not" ] name`
    Literal,
    /// `"bridge" name tail`
    Bridge,
    /// `"bridge" name [ "keep" ] [ "closed" ] [ "weight" number ] tail`
    MarkedBridge,
    /// `":" place [ "if" read { "," read } ] "."`
    BridgeTail,
    /// `[ "not" ] place`
    Read,
    /// `":" primary, after the name of the context`
    Place,
    /// `implication [ "<->" formula ]`
    Formula,
    /// `disjunction [ "->" implication ]`
    Implication,
    /// `conjunction { "|" conjunction }`
    Disjunction,
    /// `primary { "&" primary }`
    Conjunction,
    /// `"~" primary | "(" formula ")" | "true" | "false" | name`
    Primary,
}

/// What the grammar says after some tokens: which part of a text is whole.
#[derive(Clone, Copy, Debug, PartialEq, Eq, Drop)]
pub enum Action {
    /// The negation of the last formula is whole.
    ToNot,
    /// The conjunction of the last two formulas is whole.
    ToAnd,
    /// The disjunction of the last two formulas is whole.
    ToOr,
    /// The implication from the last formula but one to the last is whole.
    ToImplies,
    /// The equivalence of the last two formulas is whole.
    ToIff,
    /// A read is whole.
    EndsRead,
}
