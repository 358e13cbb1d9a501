//! Laws over the definitions of texts. The function computes nothing: its contract is a law.

ghost use Rattle.mcs_grammar.specs.Texts.{TextsAreUnambiguous};

/// A text spells at most one system.
pub fn texts_are_unambiguous()
    ensures { TextsAreUnambiguous }
{}
