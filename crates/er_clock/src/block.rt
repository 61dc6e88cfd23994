//! Blocks of counts.
ghost use Rattle.std.specs.Prelude.{◌≡◌, ◌≤◌, ◌<◌, ◌-◌, ◌^◌, ◌==◌, ℕ, suc, max, [], length, get_or, IsTrue, OnOk, OnErr, IfOk};
ghost use Rattle.er_order.specs.ClockLists.{merged, ticked};
ghost use Rattle.er_clock.specs.Clock.{count_in_block};
ghost use Rattle.er_clock.specs.Inner.Merging.{padded, lengthened, AreWithin};

use crate::room::{Mark, Room};
use crate::rows::Part;
use std::alloc::{AllocError, Global};
use std::marker::Model;
use std::rc::Rc;

/// How many counts of a clock lie in a block.
pub(crate) const BLOCK: usize = 128;

/// Some counts, by place. Those past the end are 0.
#[derive(Drop)]
pub(crate) struct Block {
    counts: Vec<u32>,
}

impl Model for Block {
    ghost use Rattle.std.specs.Prelude.{List, ℕ};

    ghost Value = { List ℕ };

    ghost view = { λ b. b.counts.items };
}

impl Block {
    /// All are 0. It takes no memory.
    pub(crate) fn new(alloc: Global) -> Self
        ensures { result ≡ [] }
    {
        Block {
            counts: Vec::new(alloc),
        }
    }

    /// Whether it holds no counts: then all are 0.
    pub(crate) fn is_empty(&self) -> bool
        ensures { result ≡ (length self.now == 0) }
    {
        self.counts.is_empty()
    }

    /// The count at the place.
    pub(crate) fn count(&self, place: usize) -> u32
        ensures value { result ≡ get_or self.now place 0 }
    {
        match self.counts.get(place) {
            Some(count) => *count,
            None => 0,
        }
    }

    /// Whether each count is as great as the other's. It has no branch in its loop: how the counts compare can't be foretold.
    pub(crate) fn covers(&self, other: &Block) -> bool
        ensures { IsTrue result → (u : ℕ) → get_or other.now u 0 ≤ get_or self.now u 0 }
    {
        if self.counts.len() < other.counts.len() {
            return false;
        }
        let mut covered = true;
        for place in 0..other.counts.len() {
            covered &= other.counts[place] <= self.counts[place];
        }
        covered
    }

    /// Takes the greater count at each place.
    pub(crate) fn join(&mut self, other: &Block) -> Result<(), AllocError>
        ensures ok { OnOk result (self.new ≡ merged self.old other.now) }
        ensures err { OnErr result (self.new ≡ self.old) }
    {
        lengthen(&mut self.counts, &other.counts)?;
        raise(&mut self.counts, &other.counts);
        Ok(())
    }

    /// Adds one to the count at the place.
    pub(crate) fn tick(&mut self, place: usize) -> Result<(), AllocError>
        requires low { place < 2 ^ 32 }
        requires room { get_or self.old place 0 < 2 ^ 32 - 1 }
        ensures ok { OnOk result (self.new ≡ ticked place self.old) }
        ensures err { OnErr result (self.new ≡ self.old) }
    {
        reach(&mut self.counts, place)?;
        self.counts[place] += 1;
        Ok(())
    }

    /// Makes all its counts 0. It keeps its memory.
    pub(crate) fn clear(&mut self)
        ensures { self.new ≡ [] }
    {
        self.counts.clear();
    }

    /// The least and the greatest of its counts.
    fn bounds(&self) -> (u32, u32)
        ensures { AreWithin result.0 result.1 self.now }
    {
        let (mut low, mut high) = (u32::MAX, 0u32);
        for place in 0..self.counts.len() {
            let count = self.counts[place];
            low = low.min(count);
            high = high.max(count);
        }
        (low, high)
    }

    pub(crate) fn copy(&self) -> Result<Block, AllocError>
        ensures { IfOk result (λ copied. copied ≡ self.now) }
    {
        let counts = Vec::from_slice(*self.counts.allocator(), self.counts.as_slice())?;
        Ok(Block { counts })
    }
}

// Makes a place for the count of this number.
fn reach(counts: &mut Vec<u32>, place: usize) -> Result<(), AllocError>
    requires { place < 2 ^ 32 }
    ensures ok { OnOk result (counts.new.items ≡ padded (suc place) counts.old.items) }
    ensures err { OnErr result (counts.new.items ≡ counts.old.items) }
{
    if counts.len() <= place {
        counts.reserve_exact(place + 1 - counts.len())?;
        counts.resize(place + 1, 0)?;
    }
    Ok(())
}

// Makes the counts as many as the others, by the others' own.
fn lengthen(counts: &mut Vec<u32>, others: &Vec<u32>) -> Result<(), AllocError>
    ensures ok { OnOk result (counts.new.items ≡ lengthened counts.old.items others.now.items) }
    ensures err { OnErr result (counts.new.items ≡ counts.old.items) }
{
    let len = counts.len();
    if len < others.len() {
        counts.reserve_exact(others.len() - len)?;
        let (_, rest) = others.as_slice().split_at(len);
        counts.extend_from_slice(rest)?;
    }
    Ok(())
}

// Takes at each place the greater count.
fn raise(counts: &mut Vec<u32>, others: &Vec<u32>)
    requires { length others.now.items ≤ length counts.old.items }
    ensures { counts.new.items ≡ merged counts.old.items others.now.items }
{
    for place in 0..others.len() {
        // No branch: which count is greater can't be foretold.
        counts[place] = counts[place].max(others[place]);
    }
}

/// A block that clocks share, with the least and the greatest of its counts. It never changes.
#[derive(Drop)]
pub(crate) struct Shared {
    block: Rc<(Block, u32, u32, Mark)>,
}

impl Model for Shared {
    ghost use Rattle.std.specs.Prelude.{List, ℕ};
    ghost use Rattle.er_clock.specs.Inner.Merging.{AreWithin};

    ghost Value = { List ℕ };

    ghost view = { λ s. s.block.value.0 };

    ghost invariant = { λ s. AreWithin s.block.value.1 s.block.value.2 s.block.value.0 };
}

impl Shared {
    // The block, to be shared.
    fn new(room: &Room, block: Block) -> Result<Shared, AllocError>
        ensures { IfOk result (λ shared. shared ≡ block) }
    {
        let (low, high) = block.bounds();
        let block = Rc::new(room.alloc, (block, low, high, room.block()?))?;
        Ok(Shared { block })
    }

    // The block, to look at.
    fn block(&self) -> &Block
        ensures { result.now ≡ self.now }
    {
        &self.block.as_ref().0
    }

    // Whether the least count is as great as the other's greatest. So blocks whose counts are all the same are compared at once.
    #[inline(always)]
    fn exceeds(&self, other: &Shared) -> bool
        ensures { IsTrue result → (u : ℕ) → get_or other.now u 0 ≤ get_or self.now u 0 }
    {
        let (block, low, _, _) = self.block.as_ref();
        let (others, _, high, _) = other.block.as_ref();
        high <= low && others.counts.len() <= block.counts.len()
    }
}

impl Part for Shared {
    ghost use Rattle.std.proofs.Common.{rules};

    ghost WIDTH = { 128 };

    ghost counts = { count_in_block };

    const WIDTH: usize = BLOCK;

    fn empty(room: &Room) -> Result<Self, AllocError> {
        Shared::new(room, Block::new(room.alloc))
    }

    fn count(&self, place: usize) -> u32 {
        self.block().count(place)
    }

    fn covers(&self, other: &Self, room: &Room) -> bool {
        if self.exceeds(other) {
            return true;
        }
        // The greatest counts.
        if other.block.as_ref().2 > self.block.as_ref().2 {
            return false;
        }
        room.count_work();
        self.block().covers(other.block())
    }

    fn again(&self) -> Result<Self, AllocError> {
        let block = self.block.clone()?;
        Ok(Shared { block })
    }

    fn joined(&self, other: &Self, room: &Room) -> Result<Self, AllocError> {
        // Of two equal blocks the other one stays, so that threads which learn the same come to share one.
        if other.covers(self, room) {
            return other.again();
        }
        if self.covers(other, room) {
            return self.again();
        }
        let mut block = self.block().copy()?;
        block.join(other.block())?;
        Shared::new(room, block)
    }

    fn ticked(&self, place: usize, room: &Room) -> Result<Self, AllocError> {
        let mut block = self.block().copy()?;
        block.tick(place)?;
        Shared::new(room, block)
    }

    ghost is_wide = { Prim.search rules };
}
