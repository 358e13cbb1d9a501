//! Each name in a system satisfies the definition of a name. `Name::bytes` ensures this for one
//! name; the functions here call it for all names of a value, so that their contracts say it of the
//! whole value. They compute nothing.

ghost use Rattle.std.specs.Prelude.{map};
ghost use Rattle.std.specs.List.{AllByRecursion};
ghost use Rattle.mcs_system.specs.Plain as plain;
ghost use Rattle.mcs_system.specs.Seen.{formula_of, item_of, rule_of, context_of};
ghost use Rattle.mcs_system.specs.Seen.{read_of, bridge_of, system_of};
ghost use Rattle.mcs_system.specs.Naming.{IsName, AreNames, IsNamedFormula, IsNamedItem};
ghost use Rattle.mcs_system.specs.Naming.{IsNamedRule, IsNamedContext, IsNamedBridge};
ghost use Rattle.mcs_system.specs.Naming.{IsSystemNamed};

use crate::bridge::{Bridge, Read};
use crate::formula::Formula;
use crate::knowledge::{Context, ProgRule, TheoryItem};
use crate::name::Name;

/// This name is one.
fn name_is_name(name: &Name)
    ensures { IsName name.now }
{
    let _bytes = name.bytes();
}

/// These names are.
fn names_are_names(names: &[Name])
    ensures { AreNames names.now }
{
    for name in names {
        name_is_name(name);
    }
}

/// A part of a system in which names occur.
pub(crate) trait HasNames {
    ghost Seen: { Type 0 };

    ghost seen: { Self → Self.Seen };

    ghost IsNamed: { Self.Seen → Type 0 };

    /// The names in it are names.
    fn is_named(&self)
        ensures { Self.IsNamed (Self.seen self.now) };
}

/// The names in these parts are names.
pub(crate) fn are_named<T: HasNames>(parts: &[T])
    ensures { AllByRecursion T.IsNamed (map T.seen parts.now) }
{
    for part in parts {
        part.is_named();
    }
}

impl HasNames for Formula {
    ghost Seen = { plain.Formula };

    ghost seen = { formula_of };

    ghost IsNamed = { IsNamedFormula };

    fn is_named(&self) {
        match self {
            Formula::True | Formula::False => {}
            Formula::Atom(name) => name_is_name(name),
            Formula::Not(g) => g.is_named(),
            Formula::And(g, h) | Formula::Or(g, h) | Formula::Implies(g, h) | Formula::Iff(g, h) =>
                {
                    g.is_named();
                    h.is_named();
                }
        }
    }
}

impl HasNames for TheoryItem {
    ghost Seen = { plain.Item };

    ghost seen = { item_of };

    ghost IsNamed = { IsNamedItem };

    fn is_named(&self) {
        match self {
            TheoryItem::Fact(formula) => formula.is_named(),
            TheoryItem::Rule(default) => {
                default.pre.is_named();
                are_named(&default.justs);
                default.conclusion.is_named();
            }
        }
    }
}

impl HasNames for ProgRule {
    ghost Seen = { plain.ProgramRule };

    ghost seen = { rule_of };

    ghost IsNamed = { IsNamedRule };

    fn is_named(&self) {
        names_are_names(&self.head);
        names_are_names(&self.pos);
        names_are_names(&self.neg);
    }
}

impl HasNames for Context {
    ghost Seen = { plain.Context };

    ghost seen = { context_of };

    ghost IsNamed = { IsNamedContext };

    fn is_named(&self) {
        name_is_name(&self.name);
        self.kb.is_named();
    }
}

impl HasNames for Read {
    ghost Seen = { plain.Read };

    ghost seen = { read_of };

    ghost IsNamed = { λ r. IsNamedFormula r.belief };

    fn is_named(&self) {
        self.belief.is_named();
    }
}

impl HasNames for Bridge {
    ghost Seen = { plain.Bridge };

    ghost seen = { bridge_of };

    ghost IsNamed = { IsNamedBridge };

    fn is_named(&self) {
        name_is_name(&self.name);
        self.head.is_named();
        are_named(&self.pos);
        are_named(&self.neg);
    }
}

/// The names in these contexts and bridge rules are names.
pub(crate) fn system_is_named(contexts: &[Context], bridges: &[Bridge])
    ensures { IsSystemNamed (system_of contexts.now bridges.now) }
{
    are_named(contexts);
    are_named(bridges);
}
