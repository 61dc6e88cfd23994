//! One clock.
ghost use Rattle.std.specs.Prelude.{◌≡◌, ◌↔◌, ◌≤◌, ◌<◌, ◌-◌, ◌^◌, ℕ, Some, IsTrue, OnOk, OnErr, IfSome, IsErrOf};
ghost use Rattle.er_clock.specs.Clock.{count_in, IsZero, Stays, Joins, Ticks};
ghost use Rattle.er_clock.specs.NoTick.{limit_text, text_of};
ghost use Rattle.er_clock.specs.declared.clock.NoTick.TheVariants.{OutOfMemory};

use crate::block::{BLOCK, Block, Shared};
use crate::room::Room;
use crate::rows::{Part, Row};
use er_event::ThreadId;
use std::alloc::{AllocError, Global};
use std::error::Error;
use std::fmt;
use std::marker::Model;

/// A thread and a count of its own: the steps that the thread takes between two ticks of its clock share one.
#[derive(Clone, Copy, Debug, PartialEq, Eq)]
pub struct Epoch {
    /// The thread.
    pub thread: ThreadId,
    /// Its own clock's count of itself.
    pub count: u32,
}

/// Of each thread a count. Contracts see the count of each thread. The first ones lie in the clock; the others lie in blocks, in a row of rows of
/// them. Clocks share a block, and a row, until one of them changes, so a clock takes little memory of its own for what it has in common with others.
#[derive(Drop)]
pub(crate) struct Clock {
    first: Block,
    rest: Row<Row<Shared>>,
}

impl Model for Clock {
    ghost use Rattle.er_clock.specs.Clock.{Counts};

    ghost Value = { Counts };

    ghost view = { λ c. (c.first, c.rest) };
}

/// What a step would take the clocks beyond.
#[derive(Clone, Copy, Debug, PartialEq, Eq)]
pub enum Limit {
    /// A thread's own count would rise, and is the greatest, 2^32 - 1.
    Count,
    /// A thread whose number is 65,536 or more takes part in the order of threads.
    Threads,
    /// The clocks together take more memory, or were more work, than is allowed after so many steps. With at most 128 threads they never do.
    Clocks,
}

impl Limit {
    /// The limit in words.
    pub fn text(self) -> &'static str
        ensures { result.now ≡ limit_text self }
    {
        match self {
            Limit::Count => "count full",
            Limit::Threads => "too many threads",
            Limit::Clocks => "clocks too large",
        }
    }
}

/// Why a step doesn't move its clocks. They are then as they were.
#[derive(Clone, Copy, Debug, PartialEq, Eq)]
pub enum NoTick {
    /// The step is beyond a limit.
    Beyond(Limit),
    /// Memory was refused.
    OutOfMemory,
}

impl fmt::Display for NoTick {
    ghost output = { λ why. Some (text_of why) };

    fn fmt<W: fmt::Write>(&self, f: &mut fmt::Formatter<W>) -> fmt::Result {
        f.write_str(match self {
            NoTick::Beyond(limit) => limit.text(),
            NoTick::OutOfMemory => "out of memory",
        })
    }
}

impl Error for NoTick {}

impl From<AllocError> for NoTick {
    ghost from_gives = { λ _ why. why ≡ OutOfMemory };

    fn from(_refused: AllocError) -> NoTick {
        NoTick::OutOfMemory
    }
}

impl Clock {
    ghost use Rattle.er_clock.specs.declared.clock.Limit.{Limit as Limits};

    /// The clock whose counts are all 0. It takes no memory.
    #[tactic(auto, using(crate::proofs::Parts::counts_nothing))]
    pub(crate) fn new(alloc: Global) -> Self
        ensures { IsZero result }
    {
        Clock {
            first: Block::new(alloc),
            rest: Row::new(),
        }
    }

    /// Whether it holds no counts: then all are 0.
    pub(crate) fn is_empty(&self) -> bool
        ensures { IsTrue result → IsZero self.now }
    {
        self.rest.is_empty() && self.first.is_empty()
    }

    /// The count of the thread.
    #[tactic(auto, unfolding(crate::specs::Clock::count_in))]
    pub(crate) fn count(&self, thread: ThreadId) -> u32
        ensures value { result ≡ count_in self.now thread }
    {
        let number = thread.number() as usize;
        if number < BLOCK {
            return self.first.count(number);
        }
        self.rest.count(number - BLOCK)
    }

    /// Takes of each thread the greater count. `AllocError`: memory was refused, and the clock is as it was.
    pub(crate) fn join(&mut self, other: &Clock, room: &Room) -> Result<(), AllocError>
        ensures ok { OnOk result (Joins self.old other.now self.new) }
        ensures err { OnErr result (Stays self.old self.new) }
    {
        if other.rest.is_empty() {
            return self.first.join(&other.first);
        }
        let rest = self.rest.joined(&other.rest, room)?;
        self.first.join(&other.first)?;
        self.rest = rest;
        Ok(())
    }

    /// The same if the other clock covers this one: then it takes the other's blocks as they are.
    pub(crate) fn catch_up(&mut self, other: &Clock) -> Result<(), AllocError>
        requires { (u : ℕ) → count_in self.old u ≤ count_in other.now u }
        ensures ok { OnOk result (Joins self.old other.now self.new) }
        ensures err { OnErr result (Stays self.old self.new) }
    {
        let rest = other.rest.again()?;
        self.first.join(&other.first)?;
        self.rest = rest;
        Ok(())
    }

    /// Adds one to the thread's count. `Limit::Count`: the count is 2^32 - 1. After an error the clock is as it was.
    pub(crate) fn tick(&mut self, thread: ThreadId, room: &Room) -> Result<(), NoTick>
        ensures ok { OnOk result (Ticks thread self.old self.new) }
        ensures err { OnErr result (Stays self.old self.new) }
        ensures full { IsErrOf result (NoTick.Beyond Limit.Count) ↔ (count_in self.old thread ≡ 2 ^ 32 - 1) }
        ensures others { (limit : Limits) → IsErrOf result (NoTick.Beyond limit) → limit ≡ Limit.Count }
    {
        if self.count(thread) == u32::MAX {
            return Err(NoTick::Beyond(Limit::Count));
        }
        self.raise(thread.number() as usize, room)?;
        Ok(())
    }

    // Adds one to the count of this number.
    #[tactic(auto, unfolding(crate::specs::Clock::count_in))]
    fn raise(&mut self, number: usize, room: &Room) -> Result<(), AllocError>
        requires low { number < 2 ^ 32 }
        requires least { count_in self.old number < 2 ^ 32 - 1 }
        ensures ok { OnOk result (Ticks number self.old self.new) }
        ensures err { OnErr result (Stays self.old self.new) }
    {
        if number < BLOCK {
            return self.first.tick(number);
        }
        let rest = self.rest.ticked(number - BLOCK, room)?;
        self.rest = rest;
        Ok(())
    }

    /// A thread after the first 128 of which this clock counts a step.
    pub(crate) fn later(&self) -> Option<ThreadId>
        ensures { IfSome result (λ u. (128 ≤ u) × (0 < count_in self.now u)) }
    {
        if self.rest.is_empty() {
            return None;
        }
        for number in 128..65_536 {
            let thread = ThreadId::new(number);
            if self.count(thread) > 0 {
                return Some(thread);
            }
        }
        None
    }

    /// Makes all its counts 0. It keeps the memory of the first ones.
    pub(crate) fn clear(&mut self)
        ensures { IsZero self.new }
    {
        self.first.clear();
        self.rest = Row::new();
    }
}
