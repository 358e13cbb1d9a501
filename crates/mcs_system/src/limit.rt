//! The limits of a system, in one table.

ghost use Rattle.std.specs.Prelude.{◌≡◌, nat_lt};
ghost use Rattle.mcs_system.specs.Limits.{most, name_of_limit};

/// A limit of a system or of a text.
#[derive(Clone, Copy, Debug, PartialEq, Eq)]
pub enum Limit {
    /// Contexts.
    Contexts,
    /// Bridge rules.
    Bridges,
    /// Bridge rules into one context.
    RulesPerContext,
    /// Variables: what bridge rules read, each once.
    Variables,
    /// Variables that bridge rules into one context read.
    InputsPerContext,
    /// Atoms of one context: in its items, in heads of rules into it, in beliefs read from it.
    AtomsPerContext,
    /// Defaults of one context.
    DefaultsPerContext,
    /// Formulas, defaults and program rules of one context.
    ItemsPerContext,
    /// The weight of one bridge rule.
    Weight,
    /// Atoms, constants and connectives of one formula; names of one program rule.
    FormulaSize,
    /// Parentheses that are open at one time in one formula of a text.
    OpenParentheses,
    /// Bytes of one name.
    NameBytes,
}

impl Limit {
    /// The greatest number that is allowed.
    pub fn most(self) -> usize
        ensures { result ≡ most self }
    {
        match self {
            Limit::RulesPerContext => 12,
            Limit::InputsPerContext => 16,
            Limit::DefaultsPerContext => 10,
            Limit::ItemsPerContext => 4096,
            Limit::Weight => 1_000_000,
            Limit::FormulaSize | Limit::OpenParentheses => 512,
            Limit::Contexts
            | Limit::Bridges
            | Limit::Variables
            | Limit::AtomsPerContext
            | Limit::NameBytes => 64,
        }
    }

    /// The name of the limit, as it is printed if a text is refused for it.
    pub fn name(self) -> &'static [u8]
        ensures { result.now ≡ name_of_limit self }
    {
        match self {
            Limit::Contexts => b"contexts",
            Limit::Bridges => b"bridges",
            Limit::RulesPerContext => b"rules_per_context",
            Limit::Variables => b"variables",
            Limit::InputsPerContext => b"inputs_per_context",
            Limit::AtomsPerContext => b"atoms_per_context",
            Limit::DefaultsPerContext => b"defaults_per_context",
            Limit::ItemsPerContext => b"items_per_context",
            Limit::Weight => b"weight",
            Limit::FormulaSize => b"formula_size",
            Limit::OpenParentheses => b"open_parentheses",
            Limit::NameBytes => b"name_bytes",
        }
    }

    /// Whether `count` is more than the limit.
    pub fn is_exceeded_by(self, count: usize) -> bool
        ensures { result ≡ nat_lt (most self) count }
    {
        count > self.most()
    }
}
