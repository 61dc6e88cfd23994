//! `Explanation`, what shows that an access is a race.
ghost use Rattle.std.specs.Prelude.{◌≡◌};
ghost use Rattle.er_model.specs.Explanations.{latest};

use er_event::LockId;
use std::marker::Model;

/// A lock of the joining, and an access that it doesn't cover.
#[derive(Clone, Copy, Debug, PartialEq, Eq, Drop)]
pub struct Uncovered {
    /// The lock.
    pub lock: LockId,
    /// The place of the access in the list of steps, from 0.
    pub at: u64,
}

/// What shows that an access is answered with a race. Each place is one in the list of steps, from 0. Contracts see it as the
/// model's explanation, with a lock and a place for each pair.
#[derive(Drop)]
pub struct Explanation {
    /// The first counted access of the word since it was last reused.
    pub first: u64,
    /// The first such access by another thread, by which it joins.
    pub join: u64,
    /// The first write at the joining or after it.
    pub write: u64,
    /// For each lock that covers the joining the first access after it that the lock doesn't cover.
    pub uncovered: Vec<Uncovered>,
}

impl Model for Explanation {
    ghost use Rattle.std.specs.Prelude.{map};
    ghost use Rattle.er_model.specs.Explanations.{Explanation};

    ghost Value = { Explanation };

    ghost view = { λ e. record { first = e.first; join = e.join; write = e.write; uncovered = map (λ u. (u.lock, u.at)) e.uncovered.items } };
}

impl Explanation {
    /// The last of the places that it names for the write and for the locks. It is that of the race.
    pub fn latest(&self) -> u64
        ensures { result ≡ latest self.now.write self.now.uncovered }
    {
        let mut latest = self.write;
        for pair in &self.uncovered {
            if latest < pair.at {
                latest = pair.at;
            }
        }
        latest
    }
}
