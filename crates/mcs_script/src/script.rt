//! Reading a script of edits, edit by edit.

ghost use Rattle.std.specs.Prelude.{◌≡◌, ◌↔◌, ◌++◌, ◌∷◌, [], IfErr, IfOk, IsTrue, List, map, ℕ};
ghost use Rattle.mcs_system.specs.Plain as plain;
ghost use Rattle.mcs_tokens.specs.Tokens.{IsNextToken, IsSpanOf};
ghost use Rattle.mcs_script.specs.Edits.{IsThere};
ghost use Rattle.mcs_script.specs.Scripts.{SpellsScript};
ghost use Rattle.mcs_script.specs.Seen.{edit_of};
ghost use Rattle.mcs_script.specs.Told.{IsAllowed, IsEditNext, IsNextUpTo, IsReadUpTo};
ghost use Rattle.mcs_script.specs.Told.{IsRefusedAt, IsToldOfScript};
ghost use Rattle.mcs_faults.specs.declared.fault.TextFault.TheVariants as texts;

use crate::draft::Draft;
use crate::edit::Edit;
use crate::reading::{ReadEdit, read_edit};
use mcs_base::Memory;
use mcs_faults::TextFault;
use mcs_language::RuleReader;
use mcs_system::{BuildFault, System};
use mcs_tokens::{Span, next_token};
use std::alloc::Global;

/// Whether the rule is there, if the edit drops one.
fn is_there(draft: &Draft, edit: &Edit) -> bool
    ensures { IsTrue result ↔ IsThere draft.now (edit_of edit.now) }
{
    match edit {
        Edit::Add(_) | Edit::List => true,
        Edit::Drop(name) => draft.has_rule(name),
    }
}

/// The system after the edit, whose first token begins at the offset.
fn allowed(alloc: Global, draft: Draft, edit: &Edit, from: usize) -> Result<Draft, TextFault>
    ensures system { IfOk result (IsAllowed draft (edit_of edit.now)) }
    ensures fault { IfErr result (IsRefusedAt draft (edit_of edit.now) from) }
{
    if !is_there(&draft, edit) {
        drop(draft);
        return Err(TextFault::Fault {
            number: 6,
            offset: from,
            limit: None,
        });
    }
    match draft.edited(alloc, edit) {
        Ok(next) => Ok(next),
        Err(BuildFault::Memory) => Err(TextFault::Memory),
        Err(BuildFault::Fault { number, limit }) => Err(TextFault::Fault {
            number,
            offset: from,
            limit,
        }),
    }
}

/// The edits and this one.
fn with(edits: Vec<Edit>, edit: Edit) -> Result<Vec<Edit>, Memory>
    ensures { IfOk result (λ more. more.items ≡ edits.items ++ edit ∷ []) }
{
    let mut edits = edits;
    edits.push(edit)?;
    Ok(edits)
}

/// The edits of a script up to an offset, the system after them, and a reader for the rules of
/// further ones.
#[derive(Drop)]
struct Script {
    rules: RuleReader,
    draft: Draft,
    edits: Vec<Edit>,
    end: usize,
}

impl Script {
    /// The empty script.
    fn new(alloc: Global, system: &System) -> Result<Script, TextFault>
        ensures script { IfOk result (λ s. (bytes : List ℕ) → IsReadUpTo system.now bytes s) }
        ensures memory { IfErr result (λ e. e ≡ texts.Memory) }
    {
        let rules = RuleReader::new(alloc, system.contexts())?;
        let draft = Draft::of(alloc, system)?;
        Ok(Script {
            rules,
            draft,
            edits: Vec::new(alloc),
            end: 0,
        })
    }

    /// Reads the next edit, whose first token is here.
    fn next(self, alloc: Global, bytes: &[u8], first: Span) -> Result<Script, TextFault>
        requires { IsSpanOf bytes.now first }
        ensures { (m : plain.System) → IsReadUpTo m bytes.now self
            → IsNextToken bytes.now self.end first.from first.to
            → IsNextUpTo m bytes.now self.end result }
    {
        let Script {
            rules,
            draft,
            edits,
            end: _,
        } = self;
        match read_edit(alloc, rules, bytes, first) {
            Ok(read) => grown(alloc, draft, edits, read, first.from),
            Err(fault) => {
                drop((draft, edits));
                Err(fault)
            }
        }
    }

    /// The edits.
    fn into_edits(self) -> Vec<Edit>
        ensures { result ≡ self.edits }
    {
        let Script {
            rules: _,
            draft: _,
            edits,
            end: _,
        } = self;
        edits
    }
}

/// The script with the edit that was read, if it is allowed. Its first token begins at the offset.
fn grown(
    alloc: Global,
    draft: Draft,
    edits: Vec<Edit>,
    read: ReadEdit,
    from: usize,
) -> Result<Script, TextFault>
    ensures { (m : plain.System) (bytes : List ℕ) (at : ℕ)
        → IsEditNext m bytes at from draft edits.items read → IsNextUpTo m bytes at result }
{
    match allowed(alloc, draft, &read.edit, from) {
        Ok(draft) => {
            let ReadEdit { rules, edit, end } = read;
            match with(edits, edit) {
                Ok(edits) => Ok(Script {
                    rules,
                    draft,
                    edits,
                    end,
                }),
                Err(_) => {
                    drop((rules, draft));
                    Err(TextFault::Memory)
                }
            }
        }
        Err(fault) => {
            drop((read, edits));
            Err(fault)
        }
    }
}

/// The edits that the script spells, or the first fault of the script. It is that of the first edit
/// that has one, as an edit of the system after those before it. Within an edit it is the first of
/// these:
///
/// - 1 and 2, and 5 for the limits `weight`, `open_parentheses` and `name_bytes`, at the first token
///   that has one of them, by the grammar of an edit; the end of the text counts as a token;
/// - 6, at the first token of the edit: no rule has the name that is dropped;
/// - the fault that `System::build` answers for the edited system, at the first token of the edit.
pub fn read_script(alloc: Global, bytes: &[u8], system: &System) -> Result<Vec<Edit>, TextFault>
    ensures script { IfOk result
        (λ edits. SpellsScript system.now bytes.now (map edit_of edits.items)) }
    ensures fault { IfErr result (IsToldOfScript system.now bytes.now) }
{
    let mut script = Script::new(alloc, system)?;
    loop {
        let (from, to) = next_token(bytes, script.end);
        if from == bytes.len() {
            return Ok(script.into_edits());
        }
        script = script.next(alloc, bytes, Span { from, to })?;
    }
}
