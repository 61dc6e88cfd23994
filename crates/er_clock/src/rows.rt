//! Rows of counts that clocks share.
ghost use Rattle.std.specs.Prelude.{◌≡◌, ◌<◌, ◌≤◌, ◌-◌, ◌+◌, ◌^◌, ◌==◌, ℕ, [], max, cond, length, IsTrue, IfOk};
ghost use Rattle.er_clock.specs.Clock.{count_in_part, count_in_row};

use crate::room::{Mark, Room};
use std::alloc::AllocError;
use std::marker::Model;
use std::rc::Rc;

// Parts, unless memory was refused.
type Parts<P> = Result<Vec<P>, AllocError>;

/// Counts by place, which clocks share. They never change: a change makes new ones.
pub(crate) trait Part: Drop {
    ghost WIDTH: { ℕ };

    ghost counts: { Self → ℕ → ℕ };

    /// How many places a row leaves for each of its parts: 128 for a block, and as many as 32 blocks have for a row of blocks.
    const WIDTH: usize;

    /// All are 0.
    fn empty(room: &Room) -> Result<Self, AllocError>
        ensures { IfOk result (λ part. (place : ℕ) → counts part place ≡ 0) };

    /// The count at the place.
    fn count(&self, place: usize) -> u32
        ensures { result ≡ counts self.now place };

    /// Whether each count is as great as the other's. `false` may be wrong.
    fn covers(&self, other: &Self, room: &Room) -> bool
        ensures { IsTrue result → (place : ℕ) → counts other.now place ≤ counts self.now place };

    /// The same counts for one clock more.
    fn again(&self) -> Result<Self, AllocError>
        ensures { IfOk result (λ part. (place : ℕ) → counts part place ≡ counts self.now place) };

    /// The greater count at each place.
    fn joined(&self, other: &Self, room: &Room) -> Result<Self, AllocError>
        ensures { IfOk result (λ part. (place : ℕ) → counts part place ≡ max (counts self.now place) (counts other.now place)) };

    /// One more at the place.
    fn ticked(&self, place: usize, room: &Room) -> Result<Self, AllocError>
        requires low { place < 2 ^ 32 }
        requires room { counts self.now place < 2 ^ 32 - 1 }
        ensures { IfOk result (λ part. (at : ℕ) → counts part at ≡ counts self.now at + cond (place == at) 1 0) };

    ghost is_wide: { 0 < WIDTH };
}

/// Parts, one behind the other. Clocks share the whole row until one of them changes.
#[derive(Drop)]
pub(crate) struct Row<P: Part> {
    parts: Option<Rc<(Vec<P>, Mark)>>,
}

impl<P: Part> Model for Row<P> {
    ghost use Rattle.std.specs.Prelude.{List, []};
    ghost use Rattle.std.specs.Option.{option_map_or};

    ghost Value = { List P };

    ghost view = { λ r. option_map_or (λ parts. parts.value.0.items) r.parts [] };
}

impl<P: Part> Row<P> {
    /// All are 0. It takes no memory.
    pub(crate) fn new() -> Self
        ensures { result ≡ [] }
    {
        Row { parts: None }
    }

    /// Whether it has no parts.
    pub(crate) fn is_empty(&self) -> bool
        ensures { IsTrue result → self.now ≡ [] }
    {
        self.parts.is_none()
    }

    // The row of these parts.
    fn of(room: &Room, parts: Vec<P>) -> Result<Self, AllocError>
        ensures { IfOk result (λ row. row ≡ parts.items) }
    {
        let parts = Rc::new(room.alloc, (parts, room.row()?))?;
        Ok(Row { parts: Some(parts) })
    }

    // The parts, to look at.
    fn parts(&self) -> &[P]
        ensures { result.now ≡ self.now }
    {
        match &self.parts {
            Some(parts) => parts.as_ref().0.as_slice(),
            None => &[],
        }
    }
}

impl<P: Part> Part for Row<P> {
    ghost use Rattle.std.proofs.Common.{rules};

    ghost WIDTH = { 4096 };

    ghost counts = { count_in_row P.counts P.WIDTH };

    const WIDTH: usize = 4096;

    fn empty(_room: &Room) -> Result<Self, AllocError> {
        Ok(Row::new())
    }

    fn count(&self, place: usize) -> u32 {
        match self.parts().get(place / P::WIDTH) {
            Some(part) => part.count(place % P::WIDTH),
            None => 0,
        }
    }

    fn covers(&self, other: &Self, room: &Room) -> bool {
        room.count_work();
        cover(self.parts(), other.parts(), room)
    }

    fn again(&self) -> Result<Self, AllocError> {
        let parts = match &self.parts {
            Some(parts) => Some(parts.clone()?),
            None => None,
        };
        Ok(Row { parts })
    }

    fn joined(&self, other: &Self, room: &Room) -> Result<Self, AllocError> {
        if other.covers(self, room) {
            return other.again();
        }
        if self.covers(other, room) {
            return self.again();
        }
        let parts = joined_parts(room, self.parts(), other.parts(), 0)?;
        Row::of(room, parts)
    }

    fn ticked(&self, place: usize, room: &Room) -> Result<Self, AllocError> {
        let at = place / P::WIDTH;
        let mut parts = joined_parts(room, self.parts(), &[], at + 1)?;
        let part = parts[at].ticked(place % P::WIDTH, room)?;
        parts[at] = part;
        Row::of(room, parts)
    }

    ghost is_wide = { Prim.search rules };
}

// Whether each of the parts covers the other at its place.
fn cover<P: Part>(parts: &[P], others: &[P], room: &Room) -> bool
    ensures { IsTrue result → (part place : ℕ) → count_in_part P.counts others.now part place ≤ count_in_part P.counts parts.now part place }
{
    if parts.len() < others.len() {
        return false;
    }
    for at in 0..others.len() {
        if !parts[at].covers(&others[at], room) {
            return false;
        }
    }
    true
}

// The greater count at each place of each part, in a list of at least so many parts.
fn joined_parts<P: Part>(room: &Room, parts: &[P], others: &[P], least: usize) -> Parts<P>
    requires { least ≤ 2 ^ 33 }
    ensures all { IfOk result (λ all. (part place : ℕ) → count_in_part P.counts all.items part place ≡ max (count_in_part P.counts parts.now part place) (count_in_part P.counts others.now part place)) }
    ensures least { IfOk result (λ all. least ≤ length all.items) }
{
    let empty = P::empty(room)?;
    let len = least.max(parts.len()).max(others.len());
    let mut all = Vec::with_capacity(room.alloc, len)?;
    for at in 0..len {
        let one = parts.get(at).unwrap_or(&empty);
        let other = others.get(at).unwrap_or(&empty);
        let joined = one.joined(other, room)?;
        all.push(joined)?;
    }
    Ok(all)
}
