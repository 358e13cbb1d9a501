//! The canonical texts of formulas, and of the items of each kind of knowledge base.

ghost use Rattle.std.specs.Prelude.{◌≡◌, ◌++◌, true, not, nat_eq, length, map, codes, OnOk};
ghost use Rattle.std.specs.List.{flat_map};
ghost use Rattle.mcs_system.specs.Seen.{formula_of, default_of, item_of, rule_of, kb_of};
ghost use Rattle.mcs_system.specs.Texts.{primary, operator_sign};
ghost use Rattle.mcs_text.specs.Separated.{separated};
ghost use Rattle.mcs_writer.specs.Canonical.{formula_text, default_text, theory_item_text};
ghost use Rattle.mcs_writer.specs.Canonical.{joined_by, rule_sign, program_rule_text};
ghost use Rattle.mcs_writer.specs.Canonical.{kb_word, item_line, items_text};

use mcs_base::{Memory, Text};
use mcs_system::{Default, Formula, Kb, Name, ProgRule, TheoryItem};
use mcs_text::push_separator;

/// The binary connective of a formula with a space on each side; empty for any other formula.
fn sign(f: &Formula) -> &'static [u8]
    ensures { result.now ≡ operator_sign (formula_of f.now) }
{
    match f {
        Formula::And(_, _) => b" & ",
        Formula::Or(_, _) => b" | ",
        Formula::Implies(_, _) => b" -> ",
        Formula::Iff(_, _) => b" <-> ",
        _ => b"",
    }
}

/// Appends a formula as a primary, as beliefs are printed: in parentheses if its connective is
/// binary.
pub(crate) fn push_primary(text: &mut Text, f: &Formula) -> Result<(), Memory>
    ensures { OnOk result (text.new ≡ text.old ++ primary (formula_of f.now)) }
{
    match f {
        Formula::True => text.push(b"true"),
        Formula::False => text.push(b"false"),
        Formula::Atom(name) => text.push(name.bytes()),
        Formula::Not(g) => {
            text.push(b"~")?;
            push_primary(text, g)
        }
        Formula::And(g, h) | Formula::Or(g, h) | Formula::Implies(g, h) | Formula::Iff(g, h) => {
            text.push(b"(")?;
            push_primary(text, g)?;
            text.push(sign(f))?;
            push_primary(text, h)?;
            text.push(b")")
        }
    }
}

/// Appends a formula without parentheses around the whole.
fn push_formula(text: &mut Text, f: &Formula) -> Result<(), Memory>
    ensures { OnOk result (text.new ≡ text.old ++ formula_text (formula_of f.now)) }
{
    match f {
        Formula::And(g, h) | Formula::Or(g, h) | Formula::Implies(g, h) | Formula::Iff(g, h) => {
            push_primary(text, g)?;
            text.push(sign(f))?;
            push_primary(text, h)
        }
        _ => push_primary(text, f),
    }
}

/// Appends the justifications of a default, separated.
fn push_justifications(text: &mut Text, justs: &[Formula]) -> Result<(), Memory>
    ensures { OnOk result (text.new
        ≡ text.old ++ separated (map formula_text (map formula_of justs.now))) }
{
    let mut is_first = true;
    for just in justs {
        push_separator(text, is_first, b", ")?;
        push_formula(text, just)?;
        is_first = false;
    }
    Ok(())
}

/// Appends a default: its prerequisite, its justifications and its consequent.
fn push_default(text: &mut Text, default: &Default) -> Result<(), Memory>
    ensures { OnOk result (text.new ≡ text.old ++ default_text (default_of default.now)) }
{
    push_formula(text, &default.pre)?;
    text.push(b" : ")?;
    push_justifications(text, &default.justs)?;
    text.push(b" / ")?;
    push_formula(text, &default.conclusion)
}

/// Appends an item of a default theory.
fn push_theory_item(text: &mut Text, item: &TheoryItem) -> Result<(), Memory>
    ensures { OnOk result (text.new ≡ text.old ++ theory_item_text (item_of item.now)) }
{
    match item {
        TheoryItem::Fact(formula) => push_formula(text, formula),
        TheoryItem::Rule(default) => push_default(text, default),
    }
}

/// Appends the names of a head, separated by bars.
fn push_head(text: &mut Text, head: &[Name]) -> Result<(), Memory>
    ensures { OnOk result (text.new ≡ text.old ++ joined_by (codes " | ") true head.now) }
{
    let mut is_first = true;
    for name in head {
        push_separator(text, is_first, b" | ")?;
        text.push(name.bytes())?;
        is_first = false;
    }
    Ok(())
}

/// Appends a literal for each of these atoms, with the word before it. `is_first` says whether they
/// are the first of the body or follow others.
fn push_literals(text: &mut Text, is_first: bool, word: &[u8], atoms: &[Name]) -> Result<(), Memory>
    ensures { OnOk result (text.new
        ≡ text.old ++ joined_by (codes ", ") is_first (map (λ a. word.now ++ a) atoms.now)) }
{
    let mut is_first = is_first;
    for atom in atoms {
        push_separator(text, is_first, b", ")?;
        text.push(word)?;
        text.push(atom.bytes())?;
        is_first = false;
    }
    Ok(())
}

/// Whether the rule has a literal in its body.
fn has_body(rule: &ProgRule) -> bool
    ensures { result ≡ not (nat_eq (length (rule.now.pos.items ++ rule.now.neg.items)) 0) }
{
    !rule.pos.is_empty() || !rule.neg.is_empty()
}

/// The sign `:-` of a rule with its spaces; empty if the rule has a head and no body.
fn rule_sign(rule: &ProgRule) -> &'static [u8]
    ensures { result.now
        ≡ rule_sign rule.now.head.items (rule.now.pos.items ++ rule.now.neg.items) }
{
    match (rule.head.is_empty(), has_body(rule)) {
        (true, true) => b":- ",
        (true, false) => b":-",
        (false, true) => b" :- ",
        (false, false) => b"",
    }
}

/// Appends a rule of a program: its head, then its body with the positive literals first.
fn push_program_rule(text: &mut Text, rule: &ProgRule) -> Result<(), Memory>
    ensures { OnOk result (text.new ≡ text.old ++ program_rule_text (rule_of rule.now)) }
{
    push_head(text, &rule.head)?;
    text.push(rule_sign(rule))?;
    push_literals(text, true, b"", &rule.pos)?;
    push_literals(text, rule.pos.is_empty(), b"not ", &rule.neg)
}

/// The word for the kind of the knowledge base.
pub(crate) fn kind_word(kb: &Kb) -> &'static [u8]
    ensures { result.now ≡ kb_word (kb_of kb.now) }
{
    match kb {
        Kb::Classical(_) => b"classical",
        Kb::DefaultTheory(_) => b"default",
        Kb::Program(_) => b"program",
    }
}

/// Appends formulas, one line for each.
fn push_formulas(text: &mut Text, formulas: &[Formula]) -> Result<(), Memory>
    ensures { OnOk result (text.new
        ≡ text.old ++ flat_map item_line (map formula_text (map formula_of formulas.now))) }
{
    for formula in formulas {
        text.push(b"  ")?;
        push_formula(text, formula)?;
        text.push(b".\n")?;
    }
    Ok(())
}

/// Appends items of a default theory, one line for each.
fn push_theory(text: &mut Text, items: &[TheoryItem]) -> Result<(), Memory>
    ensures { OnOk result (text.new
        ≡ text.old ++ flat_map item_line (map theory_item_text (map item_of items.now))) }
{
    for item in items {
        text.push(b"  ")?;
        push_theory_item(text, item)?;
        text.push(b".\n")?;
    }
    Ok(())
}

/// Appends rules of a program, one line for each.
fn push_program(text: &mut Text, rules: &[ProgRule]) -> Result<(), Memory>
    ensures { OnOk result (text.new
        ≡ text.old ++ flat_map item_line (map program_rule_text (map rule_of rules.now))) }
{
    for rule in rules {
        text.push(b"  ")?;
        push_program_rule(text, rule)?;
        text.push(b".\n")?;
    }
    Ok(())
}

/// Appends a knowledge base, one line for each item.
pub(crate) fn push_items(text: &mut Text, kb: &Kb) -> Result<(), Memory>
    ensures { OnOk result (text.new ≡ text.old ++ items_text (kb_of kb.now)) }
{
    match kb {
        Kb::Classical(formulas) => push_formulas(text, formulas),
        Kb::DefaultTheory(items) => push_theory(text, items),
        Kb::Program(rules) => push_program(text, rules),
    }
}
