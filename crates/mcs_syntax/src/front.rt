//! With which tokens the parts of a grammar begin.

ghost use Rattle.mcs_syntax.specs.Fronts.{AreFronts};
ghost use Rattle.mcs_syntax.specs.Grammar.{either, front, front_at, front_by, or_nothing, silent};
ghost use Rattle.mcs_syntax.specs.Parts.{IsTable, expr_at, is_later, made_of};
ghost use Rattle.mcs_syntax.specs.Reads.{begun, chooses};
ghost use Rattle.std.specs.Prelude.{◌≡◌, ◌<◌, IfOk, IfSome, Some, length, true};

use crate::part::{Part, Rules};
use mcs_base::Memory;
use mcs_sets::SmallSet;
use std::alloc::Global;
use std::marker::Model;

/// What is known of a part: whether a text of it has no token, and the kinds of tokens with which
/// its texts begin.
#[derive(Clone, Copy, Debug)]
pub struct Front {
    pub is_null: bool,
    pub first: SmallSet,
}

impl Front {
    /// Of what has no token.
    fn silent() -> Front
        ensures { result ≡ silent }
    {
        Front {
            is_null: true,
            first: SmallSet::empty(),
        }
    }

    /// Of this or the other.
    fn either(self, other: Front) -> Front
        ensures { result ≡ either self other }
    {
        Front {
            is_null: self.is_null || other.is_null,
            first: self.first.union(other.first),
        }
    }

    /// Of this or nothing.
    fn or_nothing(self) -> Front
        ensures { result ≡ or_nothing self }
    {
        Front {
            is_null: true,
            first: self.first,
        }
    }
}

/// The parts of a grammar, with what is known of each.
#[derive(Drop)]
pub struct Table<'t, C, A, N: Rules<C, A>> {
    parts: &'t [Part<C, A, N>],
    fronts: Vec<Front>,
}

impl<'t, C, A, N: Rules<C, A>> Model for Table<'t, C, A, N> {
    ghost use Rattle.std.specs.Prelude.{List};
    ghost use Rattle.mcs_syntax.specs.declared.part.Part.{Part};
    ghost use Rattle.mcs_syntax.specs.Parts.{IsTable};
    ghost use Rattle.mcs_syntax.specs.Fronts.{AreFronts};

    ghost Value = { List (Part C A N) };

    ghost view = { λ t. t.parts.now };

    ghost invariant = { λ t. IsTable N.grammar N.root t.parts.now
        × AreFronts N.grammar t.parts.now t.fronts.items };
}

/// What is known of the part, where rules are no deeper.
fn front_of<C: Copy, A: Copy, N: Rules<C, A>>(
    parts: &[Part<C, A, N>],
    place: usize,
    depth: usize,
) -> Front
    requires table { IsTable N.grammar N.root parts.now }
    requires inside { place < length parts.now }
    ensures { result ≡ front_by N.grammar (front_at N.grammar depth) (expr_at parts.now place) }
{
    match &parts[place] {
        Part::Take(class) => Front {
            is_null: false,
            first: SmallSet::one(N::wanted(class)),
        },
        Part::Say(_) => Front::silent(),
        Part::Nothing => Front::silent(),
        Part::Rule(rule) => {
            if depth > 0 {
                front_of::<C, A, N>(parts, rule.place(), depth - 1)
            } else {
                Front {
                    is_null: false,
                    first: SmallSet::empty(),
                }
            }
        }
        Part::Then(a, b) => {
            let one = front_of::<C, A, N>(parts, *a, depth);
            if !one.is_null {
                return one;
            }
            let next = front_of::<C, A, N>(parts, *b, depth);
            Front {
                is_null: next.is_null,
                first: one.first.union(next.first),
            }
        }
        Part::Or(a, b) => {
            let left = front_of::<C, A, N>(parts, *a, depth);
            let right = front_of::<C, A, N>(parts, *b, depth);
            left.either(right)
        }
        Part::Maybe(a) => front_of::<C, A, N>(parts, *a, depth).or_nothing(),
        Part::Many(a) => front_of::<C, A, N>(parts, *a, depth).or_nothing(),
    }
}

/// What is known of the part at each place.
fn fronts<C: Copy, A: Copy, N: Rules<C, A>>(
    alloc: Global,
    parts: &[Part<C, A, N>],
) -> Result<Vec<Front>, Memory>
    requires table { IsTable N.grammar N.root parts.now }
    ensures { IfOk result (λ fronts. AreFronts N.grammar parts.now fronts.items) }
{
    let mut fronts = Vec::new(alloc);
    for place in 0..parts.len() {
        fronts.push(front_of::<C, A, N>(parts, place, N::depth()))?;
    }
    Ok(fronts)
}

impl<'t, C: Copy, A: Copy, N: Rules<C, A>> Table<'t, C, A, N> {
    /// The table of these parts.
    pub fn new(alloc: Global, parts: &'t [Part<C, A, N>]) -> Result<Table<'t, C, A, N>, Memory>
        requires table { IsTable N.grammar N.root parts.now }
        ensures { IfOk result (λ table. table ≡ parts.now) }
    {
        let fronts = fronts::<C, A, N>(alloc, parts)?;
        Ok(Table { parts, fronts })
    }

    /// The part at the place.
    pub fn part(&self, place: usize) -> &Part<C, A, N>
        requires inside { place < length self.now }
        ensures is { expr_at self.now place ≡ made_of (expr_at self.now) (Some result.now) }
        ensures later { is_later place (length self.now) result.now ≡ true }
    {
        let parts = self.parts;
        &parts[place]
    }

    /// The place at which the rule begins.
    pub fn place(&self, rule: &N) -> usize
        ensures inside { result < length self.now }
        ensures is { expr_at self.now result ≡ N.grammar.rules rule.now }
    {
        let _parts = self.parts;
        rule.place()
    }

    /// Whether a text of the part at the place has no token.
    pub fn is_null(&self, place: usize) -> bool
        requires inside { place < length self.now }
        ensures { result ≡ (front N.grammar (expr_at self.now place)).is_null }
    {
        self.fronts[place].is_null
    }

    /// Whether a text of the part at the place begins with a token of the kind; `None` is the end
    /// of the text.
    pub fn begins(&self, place: usize, kind: Option<u32>) -> bool
        requires inside { place < length self.now }
        requires small { IfSome kind (λ d. d < 128) }
        ensures { result ≡ begun kind (front N.grammar (expr_at self.now place)) }
    {
        match kind {
            Some(kind) => self.fronts[place].first.has(kind),
            None => false,
        }
    }

    /// Of two parts that are apart, whether the first one is to be read at a token of the kind.
    pub fn chooses(&self, a: usize, b: usize, kind: Option<u32>) -> bool
        requires one { a < length self.now }
        requires other { b < length self.now }
        requires small { IfSome kind (λ d. d < 128) }
        ensures { result ≡ chooses kind (front N.grammar (expr_at self.now a))
            (front N.grammar (expr_at self.now b)) }
    {
        self.begins(a, kind) || (self.is_null(a) && !self.begins(b, kind))
    }
}
