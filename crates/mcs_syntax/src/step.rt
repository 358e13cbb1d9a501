//! One token over the stack of what is still to come.

ghost use Rattle.mcs_syntax.specs.Grammar.{Rule, Then, front};
ghost use Rattle.mcs_syntax.specs.Parts.{AreInside, IsGone, IsSettled, IsStack, IsTakenApart};
ghost use Rattle.mcs_syntax.specs.Parts.{IsTop, IsTurned, above, coming};
ghost use Rattle.mcs_syntax.specs.Parts.{left_by, moves, with_next};
ghost use Rattle.mcs_syntax.specs.Reads.{Goes, Leads, starts};
ghost use Rattle.std.specs.Prelude.{◌≡◌, ◌<◌, [], ◌∷◌, IfOk, IfSome, Some, None, length};

use crate::front::Table;
use crate::part::{Event, Part, Rules};
use mcs_base::Memory;

/// Whether what is still to come has a text that begins with a token of the kind, or, where there
/// is no kind, ends here.
pub fn may_go<C: Copy, A: Copy, N: Rules<C, A>>(
    table: &Table<'_, C, A, N>,
    stack: &[usize],
    kind: Option<u32>,
) -> bool
    requires inside { AreInside (length table.now) stack.now }
    requires small { IfSome kind (λ d. d < 128) }
    ensures { result ≡ starts kind (front N.grammar (coming table.now stack.now)) }
{
    let mut count = stack.len();
    while count > 0 {
        count -= 1;
        if table.begins(stack[count], kind) {
            return true;
        }
        if !table.is_null(stack[count]) {
            return false;
        }
    }
    kind.is_none()
}

/// How it goes on after a part that stood next, above the stack.
#[derive(Clone, Copy)]
enum Onward {
    /// Not at all: the part was a token, or stands as it is.
    Stop,
    /// At this place, above the stack.
    To(usize),
    /// At the last place of the stack.
    Down,
}

impl Onward {
    /// Whether it goes on.
    fn moves(self) -> bool
        ensures { result ≡ moves self }
    {
        !matches!(self, Onward::Stop)
    }

    /// The place that stands next, which is above the stack from now on. `None` if nothing is still
    /// to come.
    fn next(self, stack: &mut Vec<usize>) -> Option<usize>
        ensures above { with_next result stack.new.items ≡ left_by self stack.old.items }
        ensures empty { result ≡ None → stack.new.items ≡ [] }
    {
        match self {
            Onward::To(place) => Some(place),
            _ => stack.pop(),
        }
    }
}

/// Tells the action at the place, or takes the sequence there apart. It stops, and nothing has
/// changed, if the part is neither, nor nothing.
fn take_apart<C: Copy, A: Copy, N: Rules<C, A>>(
    table: &Table<'_, C, A, N>,
    place: usize,
    stack: &mut Vec<usize>,
    events: &mut Vec<Event<C, A>>,
) -> Result<Onward, Memory>
    requires top { IsTop N.grammar table.now place stack.old.items }
    ensures { IfOk result (λ onward. IsTakenApart N.grammar table.now place (moves onward)
        stack.old.items (left_by onward stack.new.items) events.old.items events.new.items) }
{
    match table.part(place) {
        Part::Say(action) => {
            events.push(Event::Told(*action))?;
            Ok(Onward::Down)
        }
        Part::Nothing => Ok(Onward::Down),
        Part::Then(a, b) => {
            stack.push(*b)?;
            Ok(Onward::To(*a))
        }
        _ => Ok(Onward::Stop),
    }
}

/// Tells the actions that stand next: no rule, choice or token comes before them.
fn settle<C: Copy, A: Copy, N: Rules<C, A>>(
    table: &Table<'_, C, A, N>,
    stack: &mut Vec<usize>,
    events: &mut Vec<Event<C, A>>,
) -> Result<(), Memory>
    requires ready { IsStack N.grammar table.now stack.old.items }
    ensures { IfOk result (λ _. IsSettled N.grammar table.now stack.old.items stack.new.items
        events.old.items events.new.items) }
{
    let mut next = Onward::Down.next(stack);
    while let Some(place) = next {
        let onward = take_apart::<C, A, N>(table, place, stack, events)?;
        if !onward.moves() {
            stack.push(place)?;
            return Ok(());
        }
        next = onward.next(stack);
    }
    Ok(())
}

/// Takes the token at the place, and stops; or goes on with what is to be read there at a token of
/// the kind, or, where there is no kind, at the end.
fn turn<C: Copy, A: Copy, N: Rules<C, A>>(
    table: &Table<'_, C, A, N>,
    kind: Option<u32>,
    place: usize,
    stack: &mut Vec<usize>,
    events: &mut Vec<Event<C, A>>,
) -> Result<Onward, Memory>
    requires top { IsTop N.grammar table.now place stack.old.items }
    requires small { IfSome kind (λ d. d < 128) }
    requires leads { Leads N.grammar (above table.now place stack.old.items) kind }
    ensures { IfOk result (λ onward. IsTurned N.grammar table.now kind place (moves onward)
        stack.old.items (left_by onward stack.new.items) events.old.items events.new.items) }
{
    match table.part(place) {
        Part::Take(class) => {
            events.push(Event::Took(*class))?;
            Ok(Onward::Stop)
        }
        Part::Rule(rule) => Ok(Onward::To(table.place(rule))),
        Part::Or(a, b) => {
            if table.chooses(*a, *b, kind) {
                return Ok(Onward::To(*a));
            }
            Ok(Onward::To(*b))
        }
        Part::Maybe(a) => {
            if !table.begins(*a, kind) {
                return Ok(Onward::Down);
            }
            Ok(Onward::To(*a))
        }
        Part::Many(a) => {
            if !table.begins(*a, kind) {
                return Ok(Onward::Down);
            }
            stack.push(place)?;
            Ok(Onward::To(*a))
        }
        _ => take_apart::<C, A, N>(table, place, stack, events),
    }
}

/// Takes a token of the kind, which may come here, or ends the text if there is no kind.
pub fn go<C: Copy, A: Copy, N: Rules<C, A>>(
    table: &Table<'_, C, A, N>,
    kind: Option<u32>,
    stack: &mut Vec<usize>,
    events: &mut Vec<Event<C, A>>,
) -> Result<(), Memory>
    requires ready { IsStack N.grammar table.now stack.old.items }
    requires small { IfSome kind (λ d. d < 128) }
    requires leads { Leads N.grammar (coming table.now stack.old.items) kind }
    ensures { IfOk result (λ _. IsGone N.grammar table.now kind stack.old.items stack.new.items
        events.old.items events.new.items) }
{
    let mut next = Onward::Down.next(stack);
    while let Some(place) = next {
        let onward = turn::<C, A, N>(table, kind, place, stack, events)?;
        if !onward.moves() {
            return Ok(());
        }
        next = onward.next(stack);
    }
    Ok(())
}

/// Takes a token of the kind, which may come here, and tells the actions that stand next.
pub fn step<C: Copy, A: Copy, N: Rules<C, A>>(
    table: &Table<'_, C, A, N>,
    kind: u32,
    stack: &mut Vec<usize>,
    events: &mut Vec<Event<C, A>>,
) -> Result<(), Memory>
    requires ready { IsStack N.grammar table.now stack.old.items }
    requires small { kind < 128 }
    requires leads { Leads N.grammar (coming table.now stack.old.items) (Some kind) }
    ensures { IfOk result (λ _. Goes N.grammar (coming table.now stack.old.items) (kind ∷ [])
        (coming table.now stack.new.items) events.old.items events.new.items
        × IsStack N.grammar table.now stack.new.items) }
{
    go::<C, A, N>(table, Some(kind), stack, events)?;
    settle::<C, A, N>(table, stack, events)
}

/// Puts the rule onto the empty stack, and tells the actions that stand next.
pub fn begin<C: Copy, A: Copy, N: Rules<C, A>>(
    table: &Table<'_, C, A, N>,
    rule: &N,
    stack: &mut Vec<usize>,
    events: &mut Vec<Event<C, A>>,
) -> Result<(), Memory>
    requires none { stack.old.items ≡ [] }
    ensures { IfOk result (λ _. Goes N.grammar (Rule rule.now) []
        (coming table.now stack.new.items) events.old.items events.new.items
        × IsStack N.grammar table.now stack.new.items) }
{
    stack.push(table.place(rule))?;
    settle::<C, A, N>(table, stack, events)
}
