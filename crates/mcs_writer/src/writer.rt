//! The canonical text of a system.

ghost use Rattle.std.specs.Prelude.{◌≡◌, ◌<◌, ◌++◌, [], not, nat_eq, cond, length, map, codes};
ghost use Rattle.std.specs.Prelude.{OnOk, OnErr};
ghost use Rattle.std.specs.List.{AllByRecursion, flat_map, list_any};
ghost use Rattle.mcs_system.specs.Faults.{reads_of};
ghost use Rattle.mcs_system.specs.Plain as plain;
ghost use Rattle.mcs_system.specs.Seen.{formula_of, context_of, read_of, bridge_of};
ghost use Rattle.mcs_system.specs.Texts.{belief_text};
ghost use Rattle.mcs_writer.specs.Canonical.{joined_by, context_text, if_word};
ghost use Rattle.mcs_writer.specs.Canonical.{weight_text, marks_text};
ghost use Rattle.mcs_writer.specs.Canonical.{bridge_text, is_marked, version_line, canonical_text};

use crate::item_writer::{kind_word, push_items, push_primary};
use mcs_base::{Memory, Text};
use mcs_system::{Bridge, Context, Formula, Read, System};
use mcs_text::push_separator;

/// Appends a context.
fn push_context(text: &mut Text, context: &Context) -> Result<(), Memory>
    ensures { OnOk result (text.new ≡ text.old ++ context_text (context_of context.now)) }
{
    text.push(b"context ")?;
    text.push(context.name.bytes())?;
    text.push(b" ")?;
    text.push(kind_word(&context.kb))?;
    text.push(b" {\n")?;
    push_items(text, &context.kb)?;
    text.push(b"}\n")
}

/// Appends a belief of the context with this number: the context's name, a colon, the belief.
fn push_belief(
    text: &mut Text,
    system: &System,
    context: u32,
    belief: &Formula,
) -> Result<(), Memory>
    requires { context < length system.now.contexts }
    ensures { OnOk result (text.new ≡ text.old ++ belief_text system.now
        (record { context = context; belief = formula_of belief.now })) }
{
    text.push(system.contexts()[context as usize].name.bytes())?;
    text.push(b":")?;
    push_primary(text, belief)
}

/// Appends a belief that a bridge rule reads: the context's name, a colon, the belief. The context
/// has to be one of the system's. Without memory the text stays as it was.
pub fn push_read(text: &mut Text, system: &System, read: &Read) -> Result<(), Memory>
    requires { read.now.context < length system.now.contexts }
    ensures ok { OnOk result (text.new ≡ text.old ++ belief_text system.now (read_of read.now)) }
    ensures err { OnErr result (text.new ≡ text.old) }
{
    let mut own = text.empty_like();
    push_belief(&mut own, system, read.context, &read.belief)?;
    text.push(own.bytes())
}

/// Appends the reads of a bridge rule, with the word before each. `is_first` says whether they are
/// the first of the rule or follow others.
fn push_reads(
    text: &mut Text,
    system: &System,
    is_first: bool,
    word: &[u8],
    reads: &[Read],
) -> Result<(), Memory>
    requires { AllByRecursion (λ (r : plain.Read). r.context < length system.now.contexts)
        (map read_of reads.now) }
    ensures { OnOk result (text.new ≡ text.old ++ joined_by (codes ", ") is_first
        (map (λ r. word.now ++ belief_text system.now r) (map read_of reads.now))) }
{
    let mut is_first = is_first;
    for read in reads {
        push_separator(text, is_first, b", ")?;
        text.push(word)?;
        push_read(text, system, read)?;
        is_first = false;
    }
    Ok(())
}

/// Whether the rule has any reads.
fn has_reads(bridge: &Bridge) -> bool
    ensures { result ≡ not (nat_eq (length (reads_of (bridge_of bridge.now))) 0) }
{
    !bridge.pos.is_empty() || !bridge.neg.is_empty()
}

/// The word `if` with a space on each side; empty if the rule has no reads.
fn if_word(bridge: &Bridge) -> &'static [u8]
    ensures { result.now ≡ if_word (reads_of (bridge_of bridge.now)) }
{
    if has_reads(bridge) { b" if " } else { b"" }
}

/// The text if the condition holds; otherwise nothing.
fn text_if(holds: bool, text: &'static [u8]) -> &'static [u8]
    ensures { result.now ≡ cond holds text.now [] }
{
    if holds { text } else { b"" }
}

/// Appends the weight of a rule, unless it is 1.
fn push_weight(text: &mut Text, weight: u32) -> Result<(), Memory>
    ensures { OnOk result (text.new ≡ text.old ++ weight_text weight) }
{
    if weight == 1 {
        return Ok(());
    }
    text.push(b" weight ")?;
    text.push_number(u64::from(weight))
}

/// Appends what a bridge rule says of itself, each after a space: that it may not be removed, that
/// it may not be forced, and a weight other than 1.
fn push_marks(text: &mut Text, bridge: &Bridge) -> Result<(), Memory>
    ensures { OnOk result (text.new ≡ text.old ++ marks_text (bridge_of bridge.now)) }
{
    text.push(text_if(bridge.keep, b" keep"))?;
    text.push(text_if(bridge.closed, b" closed"))?;
    push_weight(text, bridge.weight)
}

/// Appends a bridge rule: its marks, its head, then its reads with the positive ones first.
fn push_bridge(text: &mut Text, system: &System, bridge: &Bridge) -> Result<(), Memory>
    requires target { bridge.now.target < length system.now.contexts }
    requires reads { AllByRecursion (λ (r : plain.Read). r.context < length system.now.contexts)
        (reads_of (bridge_of bridge.now)) }
    ensures { OnOk result (text.new ≡ text.old ++ bridge_text system.now (bridge_of bridge.now)) }
{
    text.push(b"bridge ")?;
    text.push(bridge.name.bytes())?;
    push_marks(text, bridge)?;
    text.push(b": ")?;
    push_belief(text, system, bridge.target, &bridge.head)?;
    text.push(if_word(bridge))?;
    push_reads(text, system, true, b"", &bridge.pos)?;
    push_reads(text, system, bridge.pos.is_empty(), b"not ", &bridge.neg)?;
    text.push(b".\n")
}

/// Appends the contexts of a system.
fn push_contexts(text: &mut Text, system: &System) -> Result<(), Memory>
    ensures { OnOk result (text.new ≡ text.old ++ flat_map context_text system.now.contexts) }
{
    for context in system.contexts() {
        push_context(text, context)?;
    }
    Ok(())
}

/// Appends the bridge rules of a system.
fn push_bridges(text: &mut Text, system: &System) -> Result<(), Memory>
    ensures { OnOk result (text.new
        ≡ text.old ++ flat_map (bridge_text system.now) system.now.bridges) }
{
    for bridge in system.bridges() {
        push_bridge(text, system, bridge)?;
    }
    Ok(())
}

/// Whether the rule may not be removed, may not be forced, or has a weight other than 1.
fn is_marked(bridge: &Bridge) -> bool
    ensures { result ≡ is_marked (bridge_of bridge.now) }
{
    bridge.keep || bridge.closed || bridge.weight != 1
}

/// Whether some rule is marked.
fn any_marked(bridges: &[Bridge]) -> bool
    ensures { result ≡ list_any (λ b. is_marked (bridge_of b)) bridges.now }
{
    bridges.iter().any(is_marked)
}

/// The first line of the text, with the version; empty if no rule is marked.
fn version_line(system: &System) -> &'static [u8]
    ensures { result.now ≡ version_line system.now }
{
    text_if(any_marked(system.bridges()), b"version 2.\n")
}

/// Appends the canonical text of a system. It begins with `version 2.` exactly if some rule may not
/// be removed, may not be forced, or has a weight other than 1. If there is no memory for all of
/// it, `out` stays as it was.
pub fn push_system(out: &mut Text, system: &System) -> Result<(), Memory>
    ensures text { OnOk result (out.new ≡ out.old ++ canonical_text system.now) }
    ensures unchanged { OnErr result (out.new ≡ out.old) }
{
    let mut text = out.empty_like();
    text.push(version_line(system))?;
    push_contexts(&mut text, system)?;
    push_bridges(&mut text, system)?;
    out.push(text.bytes())
}
