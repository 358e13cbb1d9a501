//! The latest of some false literals.

ghost use Rattle.std.specs.Prelude.{◌≡◌, [], ◌<◌, ◌+◌, ◌^◌, IfSome, MatchOption};
ghost use Rattle.mcs_engine.specs.Trails.{IsFalse};
ghost use Rattle.mcs_engine.specs.Learning.{IsLatestOf, IsLatest};

use crate::trail::Trail;

/// The place at which the last of some literals became false, and how many places were enough for
/// the others.
#[derive(Clone, Copy)]
pub struct Latest {
    pub place: usize,
    pub others: usize,
}

/// The latest of the places so far and of one more.
fn joined(found: Option<Latest>, place: usize) -> Latest
    requires { IfSome found (λ l. l.place + 1 < 2 ^ 64) }
    ensures { MatchOption found (result ≡ record { place = place; others = 0 })
        (λ l. IsLatestOf l place result) }
{
    match found {
        None => Latest { place, others: 0 },
        Some(latest) => {
            if place > latest.place {
                Latest {
                    place,
                    others: latest.place + 1,
                }
            } else if place == latest.place || place < latest.others {
                latest
            } else {
                Latest {
                    place: latest.place,
                    others: place + 1,
                }
            }
        }
    }
}

/// The latest of the places at which the literals became false, or `None` exactly if there are no
/// literals. All of them have to be false.
pub fn latest_of(trail: &Trail, literals: &[i64]) -> Option<Latest>
    requires { IsFalse trail.now.entries.items literals.now }
    ensures { MatchOption result (literals.now ≡ [])
        (IsLatest trail.now.entries.items literals.now) }
{
    let mut found = None;
    for literal in literals {
        let Some(place) = trail.position(*literal) else {
            unreachable!();
        };
        found = Some(joined(found, place));
    }
    found
}
