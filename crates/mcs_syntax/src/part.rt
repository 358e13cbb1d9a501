//! What a grammar in code is made of.

ghost use Rattle.std.specs.Prelude.{◌≡◌, ◌<◌, ℕ};
ghost use Rattle.mcs_syntax.specs.Grammar.{Grammar, IsReadable};

/// A part of a rule. Numbers are the places of its own parts, which come after it in the list of
/// all parts.
#[derive(Clone, Copy, Debug)]
pub enum Part<C, A, N> {
    /// A token of this class.
    Take(C),
    /// What is said here beside the tokens.
    Say(A),
    /// A text of the rule.
    Rule(N),
    /// The empty text.
    Nothing,
    /// A text of the one, then one of the other.
    Then(usize, usize),
    /// A text of either.
    Or(usize, usize),
    /// A text of it, or the empty one.
    Maybe(usize),
    /// Any number of texts of it.
    Many(usize),
}

/// What was read: a token, by its class, or what the grammar says beside the tokens.
#[derive(Clone, Copy, Debug)]
pub enum Event<C, A> {
    Took(C),
    Told(A),
}

/// The rules of a grammar, by their names. The grammar is one that a reader can read: one token
/// tells what to do, and each rule has a text.
pub trait Rules<C, A>: Sized {
    ghost grammar: { Grammar C A Self };

    /// The place of the rule in the list of parts.
    ghost root: { Self → ℕ };

    /// The place of the rule in the list of parts.
    fn place(&self) -> usize
        ensures { result ≡ root self.now };

    /// The kind of the tokens of this class.
    fn wanted(class: &C) -> u32
        ensures kind { result ≡ grammar.wants class.now }
        ensures small { result < 128 };

    /// How deep rules begin with rules.
    fn depth() -> usize
        ensures { result ≡ grammar.depth };

    ghost readable: { IsReadable grammar };
}
