//! `DrawnTickets`, those that a seat drew and has not used.
#![tactic(auto)]

ghost use Rattle.std.specs.Prelude.{◌≡◌, ◌≤◌, ◌<◌, ◌⊎◌, ℕ, max, min};
ghost use Rattle.er_seat.specs.Drawn.{AreAbove, EachDraw, IsDraw, without_first};
ghost use Rattle.er_seat.specs.Seats.{HasReached, IsAfter};

use er_journal::Entry;
use std::ops::Range;

/// The tickets that a seat drew and has not used.
#[derive(Drop)]
pub(crate) struct DrawnTickets {
    /// What is left of the last draw.
    pub(crate) left: Range<u64>,
    /// How many are drawn if these are used up: twice as many as the last time, and one at first.
    pub(crate) ahead: u64,
}

impl DrawnTickets {
    /// A ticket for the shard with this journal: the next one that is left if it is greater than the journal's last, and else the first of those that
    /// `draw` draws now. Then the others of these below 2^64 - 1 are left, and what was left before is thrown away.
    pub(crate) fn next<F: FnOnce(u64) -> u64>(
        &mut self,
        journal: &[Entry],
        most: u64,
        draw: F,
    ) -> u64
        requires some { 1 ≤ most }
        requires callable { F.IsAlwaysCallable draw }
        ensures left { self.old.left.start < self.old.left.end → IsAfter journal.now self.old.left.start → (result ≡ self.old.left.start) × (self.new ≡ without_first self.old) }

        // If none is left, as many are drawn as come next, at most `most`. If the journal has come as far as the next one, one is drawn.
        ensures none_left { self.old.left.end ≤ self.old.left.start → IsDraw (F.post draw) (min (max 1 self.old.ahead) most) result self.new }
        ensures behind { self.old.left.start < self.old.left.end → HasReached journal.now self.old.left.start → IsDraw (F.post draw) 1 result self.new }
        ensures ticket { ((count : ℕ) × ((1 ≤ count) × ((count ≤ most) × F.post draw count result))) ⊎ IsAfter journal.now result }

        // The answer is greater than the journal's last ticket, and than the last that was used, if what is drawn now is.
        ensures after { EachDraw (F.post draw) most (IsAfter journal.now) → IsAfter journal.now result }
        ensures rises { (last : ℕ) → AreAbove self.old last → EachDraw (F.post draw) most (λ first. last < first) → last < result }
        ensures rest { AreAbove self.new result }
    {
        let count = match journal.last() {
            _ if self.left.end <= self.left.start => self.ahead.clamp(1, most),
            Some(last) if self.left.start <= last.ticket() => 1,
            _ => {
                self.left.start += 1;
                return self.left.start - 1;
            }
        };
        let first = draw(count);
        self.left = first.saturating_add(1)..first.saturating_add(count);
        self.ahead = count.saturating_mul(2);
        first
    }
}
