//! What the lines of a certificate of a default theory may name.

ghost use Rattle.std.specs.Prelude.{◌≡◌, ◌≤◌, ◌^◌, length, MatchOption, slice_index};
ghost use Rattle.mcs_proof_lines.specs.Verdicts.{terms_of, all_places, just_total};

use mcs_base::{Members, Text, Vars};

/// What the lines may name of a default theory, and the number of beliefs.
#[derive(Drop)]
pub struct Theory<'t> {
    /// The names of the atoms.
    pub atoms: &'t [Text],
    /// The numbers of the defaults, from 1, as texts.
    pub numbers: &'t [Text],
    /// For each default the number of its justifications.
    pub justs: &'t [usize],
    /// The number of beliefs.
    pub beliefs: usize,
}

impl Theory<'_> {
    /// The places of all defaults, as a set.
    pub fn places(&self) -> Vars
        requires { length self.now.justs.now ≤ 10 }
        ensures { result ≡ all_places (terms_of self.now) }
    {
        Vars::numbered((1u64 << self.justs.len()) - 1)
    }

    /// The number of justifications of the default at the place.
    pub fn just_count(&self, place: u32) -> usize
        ensures { result ≡ slice_index self.now.justs.now place }
    {
        match self.justs.get(place as usize) {
            Some(count) => *count,
            None => 0,
        }
    }

    /// The number of justifications of all defaults at the places, or `None` exactly if it does not
    /// fit in 64 bits.
    pub fn count_justs(&self, places: Members) -> Option<usize>
        ensures { MatchOption result (2 ^ 64 ≤ just_total self.now.justs.now places)
            (λ n. n ≡ just_total self.now.justs.now places) }
    {
        let mut count: usize = 0;
        for place in places {
            count = count.checked_add(self.just_count(place))?;
        }
        Some(count)
    }
}
