//! The order of decisions: which variable is decided next, and with which value.

ghost use Rattle.std.specs.Prelude.{◌≡◌, ◌<◌, length, IfSome};
ghost use Rattle.mcs_engine.specs.Trails.{IsFree};

use mcs_base::Memory;
use mcs_engine::{Blocks, Entry, Trail};
use std::alloc::Global;

/// If a conflict adds this much activity, all activities are reduced.
const MOST_GAIN: u64 = 1 << 60;

/// The number of conflicts before the first restart.
const FIRST_LIMIT: u64 = 100;

/// The number of conflicts from which on a search is hard: what it learnt long ago is then set
/// aside for a while.
const MANY_CONFLICTS: u64 = 2000;

/// The base of the number of turns of a search without what was learnt long ago.
const FIRST_TURNS: usize = 5_000;

/// By how many bits activities are reduced.
const SHRINK: u32 = 40;

/// Reduces the activities.
fn shrink_all(activities: &mut [u64]) {
    for activity in activities {
        *activity >>= SHRINK;
    }
}

/// The variable, negated if `value` is false, if it is a variable of the trail and has no value
/// there.
fn free_literal(trail: &Trail, variable: usize, value: bool) -> Option<i64>
    ensures { IfSome result (IsFree trail.now.entries.items trail.now.positions.items) }
{
    if variable == 0 || variable >= trail.positions.len() {
        return None;
    }
    let literal = i64::try_from(variable).ok()?;
    if trail.position(literal).is_some() {
        return None;
    }
    Some(if value { literal } else { -literal })
}

/// The variables, those of recent conflicts first. It has a heap of variables; for each variable
/// its place in the heap, if it is there, its activity, and its last value, if it had one; and how
/// much activity a conflict adds. The variables from `seen` on were not looked at yet. A variable
/// may be missing from the heap, or be in it though it has a value: this makes no answer wrong.
/// Variables whose numbers take more than four bytes are missing. The conflicts since the last
/// restart are counted, up to the limit of the next one. Those of the whole search are counted too,
/// with the rounds in which clauses were set aside.
pub struct Order {
    heap: Vec<u32>,
    places: Blocks<Option<u32>>,
    activities: Blocks<u64>,
    values: Blocks<bool>,
    seen: usize,
    gain: u64,
    conflicts: u64,
    limit: u64,
    total: u64,
    rounds: usize,
}

impl Drop for Order {
    fn drop(self) {
        let Order {
            heap: _,
            places: _,
            activities: _,
            values: _,
            seen: _,
            gain: _,
            conflicts: _,
            limit: _,
            total: _,
            rounds: _,
        } = self;
    }
}

impl Order {
    /// No variables.
    pub fn new(alloc: Global) -> Order {
        Order {
            heap: Vec::new(alloc),
            places: Blocks::new(alloc),
            activities: Blocks::new(alloc),
            values: Blocks::new(alloc),
            seen: 0,
            gain: 1,
            conflicts: 0,
            limit: FIRST_LIMIT,
            total: 0,
            rounds: 0,
        }
    }

    /// The place of the variable in the heap, if it is there.
    fn place_of(&self, variable: usize) -> Option<u32> {
        self.places.get(variable)?
    }

    /// The activity of the variable at this place of the heap.
    fn activity_at(&self, place: usize) -> u64 {
        match self.heap.get(place) {
            Some(variable) => self.activities.get(*variable as usize).unwrap_or(0),
            None => 0,
        }
    }

    /// Puts the variable at this place of the heap.
    fn put(&mut self, place: usize, variable: u32)
        ensures { length self.new.heap.items ≡ length self.old.heap.items }
    {
        if let Some(here) = self.heap.get_mut(place) {
            *here = variable;
        }
        self.places
            .replace(variable as usize, u32::try_from(place).ok());
    }

    /// Exchanges the variables at the two places of the heap.
    fn exchange(&mut self, first: usize, second: usize)
        ensures { length self.new.heap.items ≡ length self.old.heap.items }
    {
        if first < self.heap.len() && second < self.heap.len() {
            let one = self.heap[first];
            let other = self.heap[second];
            self.put(first, other);
            self.put(second, one);
        }
    }

    /// Moves the variable at this place up in the heap, as far as its activity takes it.
    fn rise(&mut self, place: usize) {
        let mut at = place;
        while at > 0 {
            let parent = (at - 1) / 2;
            if self.activity_at(at) <= self.activity_at(parent) {
                return;
            }
            self.exchange(at, parent);
            at = parent;
        }
    }

    /// Moves the variable at this place down in the heap, as far as its activity takes it.
    fn sink(&mut self, place: usize)
        ensures { length self.new.heap.items ≡ length self.old.heap.items }
    {
        let mut at = place;
        while at < self.heap.len() / 2 {
            let left = 2 * at + 1;
            let right = left + 1;
            let child = if self.activity_at(right) > self.activity_at(left) {
                right
            } else {
                left
            };
            if self.activity_at(child) <= self.activity_at(at) {
                return;
            }
            self.exchange(at, child);
            at = child;
        }
    }

    /// Removes the first variable of the heap, and returns it with its last value.
    fn pop(&mut self) -> Option<(u32, bool)>
        ensures { IfSome result (λ _. length self.new.heap.items < length self.old.heap.items) }
    {
        let first = *self.heap.first()?;
        let last = self.heap.pop()?;
        if !self.heap.is_empty() {
            self.put(0, last);
            self.sink(0);
        }
        self.places.replace(first as usize, None);
        let value = self.values.get(first as usize).unwrap_or(false);
        Some((first, value))
    }

    /// The literal to decide next: the first variable of the heap that has no value on the trail,
    /// with its last value. It and the variables before it are removed from the heap. `None` if no
    /// variable of the heap is without a value.
    pub fn next(&mut self, trail: &Trail) -> Option<i64>
        ensures { IfSome result (IsFree trail.now.entries.items trail.now.positions.items) }
    {
        while let Some((variable, value)) = self.pop() {
            let literal = free_literal(trail, variable as usize, value);
            if literal.is_some() {
                return literal;
            }
        }
        None
    }

    /// Puts the variable into the heap, if it is not there.
    fn insert(&mut self, variable: usize) -> Result<(), Memory> {
        let place = self.heap.len();
        if let Ok(name) = u32::try_from(variable)
            && self.place_of(variable).is_none()
        {
            self.places.set(variable, None, None)?;
            self.heap.push(name)?;
            self.put(place, name);
            self.rise(place);
        }
        Ok(())
    }

    /// Puts the variables of the entries back into the heap, and keeps their values. If memory runs
    /// out, they are left out.
    pub fn release(&mut self, entries: &[Entry]) {
        for entry in entries {
            let variable = entry.literal.unsigned_abs() as usize;
            let _ = self.values.set(variable, entry.literal > 0, false);
            let _ = self.insert(variable);
        }
    }

    /// Begins another search, at level 0. The counts for restarts are reset. The variables that
    /// were not looked at yet are put into the heap, if they have no value. If memory runs out,
    /// they are left out.
    pub fn begin(&mut self, trail: &Trail) {
        self.conflicts = 0;
        self.limit = FIRST_LIMIT;
        for variable in self.seen..trail.positions.len() {
            if free_literal(trail, variable, true).is_some() {
                let _ = self.insert(variable);
            }
        }
        self.seen = self.seen.max(trail.positions.len());
    }

    /// Reduces all activities.
    fn shrink(&mut self) {
        for block in &mut self.activities.blocks {
            shrink_all(block);
        }
        self.gain = (self.gain >> SHRINK) + 1;
    }

    /// Raises the activity of the variables of the literals.
    pub fn raise(&mut self, literals: &[i64]) {
        for literal in literals {
            let variable = literal.unsigned_abs() as usize;
            let activity = self.activities.get(variable).unwrap_or(0);
            let _ = self
                .activities
                .set(variable, activity.saturating_add(self.gain), 0);
            if let Some(place) = self.place_of(variable) {
                self.rise(place as usize);
            }
        }
    }

    /// Counts a conflict, and raises what a conflict adds, so that earlier ones count for less.
    pub fn decay(&mut self) {
        self.conflicts = self.conflicts.saturating_add(1);
        self.total = self.total.saturating_add(1);
        self.gain = self.gain.saturating_add(self.gain / 16 + 1);
        if self.gain >= MOST_GAIN {
            self.shrink();
        }
    }

    /// Resets the count of the conflicts of a search.
    pub fn count_anew(&mut self) {
        self.total = 0;
        self.rounds = 0;
    }

    /// Whether a search met so many conflicts that what it learnt long ago is to be set aside.
    pub fn is_hard(&self) -> bool {
        self.total >= MANY_CONFLICTS
    }

    /// The number of turns of the next search without what was learnt long ago. It grows each time.
    pub fn next_turns(&mut self) -> usize {
        self.rounds = self.rounds.saturating_add(1);
        FIRST_TURNS.saturating_add(self.rounds.saturating_mul(FIRST_TURNS / 4))
    }

    /// Makes a restart due at once.
    pub fn hurry(&mut self) {
        self.conflicts = self.limit;
    }

    /// Whether a restart is due, by the number of conflicts since the last one. If it is, the next
    /// one takes more conflicts.
    pub fn is_due(&mut self) -> bool {
        let due = self.conflicts >= self.limit;
        if due {
            self.conflicts = 0;
            self.limit = self.limit.saturating_add(self.limit / 8);
        }
        due
    }
}
