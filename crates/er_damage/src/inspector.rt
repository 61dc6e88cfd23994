//! `Inspector`, which looks for damage in the steps of a trace.
ghost use Rattle.std.specs.Prelude.{◌≡◌, ◌++◌, ℕ, List, [], length, slice_index, OnOk};
ghost use Rattle.er_damage.specs.Damaged.{IsDamageOf};
ghost use Rattle.er_event.specs.declared.steps.Step.{Step as Steps};
ghost use Rattle.er_text.specs.Ending.{IsEndingOf};
ghost use Rattle.er_text.specs.Trace.{IsTrace};
ghost use Rattle.er_trace.specs.Trace.{Recording};

use crate::Damage;
use crate::counter::{add, count_of, remove};
use er_event::{Event, Mode, Step};
use er_held::ThreadLocks;
use er_text::Ending;
use std::alloc::{AllocError, Global};
use std::marker::Model;

/// Follows the steps of a trace and keeps the lines of the first refused step and of the first step by which two threads hold a lock at
/// once, and not both to read only.
#[derive(Drop)]
pub struct Inspector {
    alloc: Global,
    threads: ThreadLocks,
    // How many threads hold each lock, and how many to write.
    holders: Vec<u32>,
    writers: Vec<u32>,
    refused: Option<u64>,
    held_twice: Option<u64>,
}

impl Model for Inspector {
    ghost use Rattle.er_damage.specs.Standing.{Inspected};

    ghost Value = { Inspected };

    ghost view = { λ i. record { threads = i.threads; holders = i.holders.items; writers = i.writers.items; refused = i.refused; held_twice = i.held_twice } };
}

impl Inspector {
    ghost use Rattle.er_damage.specs.Standing.{StandsFor};
    ghost use Rattle.er_damage.specs.Inner.Steps.{Follows, doubles};
    ghost use Rattle.er_damage.specs.Inner.Steps.{holders_after, writers_after};

    /// It has seen no step.
    pub fn new(alloc: Global) -> Self
        ensures { StandsFor result [] [] }
    {
        Inspector {
            alloc,
            threads: ThreadLocks::new(alloc),
            holders: Vec::new(alloc),
            writers: Vec::new(alloc),
            refused: None,
            held_twice: None,
        }
    }

    /// Goes on by these steps, each with its line. `AllocError`: memory was refused, and nothing is known of what it has now.
    pub fn follow(&mut self, steps: &[Step], lines: &[u64]) -> Result<(), AllocError>
        requires { length lines.now ≡ length steps.now }
        ensures goes_on { (past : List Steps) (numbers : List ℕ) → length numbers ≡ length past → StandsFor self.old past numbers
            → OnOk result (StandsFor self.new (past ++ steps.now) (numbers ++ lines.now)) }
    {
        for (k, step) in steps.iter().enumerate() {
            self.follow_step(step, lines[k])?;
        }
        Ok(())
    }

    /// The damage of a trace whose steps it has followed and whose text ends so.
    pub fn damage(&self, ending: Ending) -> Damage
        ensures told { (text : List ℕ) (limit : ℕ) (recording : Recording) → IsTrace text limit recording → StandsFor self.now recording.steps recording.lines
            → IsEndingOf text ending → IsDamageOf text limit result }
    {
        Damage {
            refused: self.refused,
            held_twice: self.held_twice,
            no_line_feed: ending.is_cut.then_some(ending.lines),
            no_end: ending.is_open.then_some(ending.lines),
            lost: ending.lost,
        }
    }

    // Goes on by one step.
    fn follow_step(&mut self, step: &Step, line: u64) -> Result<(), AllocError>
        ensures { OnOk result (Follows self.old step.now line self.new) }
    {
        if self.threads.follow(self.alloc, step)? {
            self.refused = self.refused.or(Some(line));
            return Ok(());
        }
        if self.held_twice.is_none() && self.doubles(step.event) {
            self.held_twice = Some(line);
        }
        self.count(step.event)
    }

    // Whether somebody holds the lock that the event takes, and not both to read only.
    fn doubles(&self, event: Event) -> bool
        ensures { result ≡ doubles self.now.holders self.now.writers event }
    {
        match event {
            Event::Acquire(lock, mode) => match mode {
                Mode::Read => count_of(&self.writers, lock) > 0,
                Mode::Write => count_of(&self.holders, lock) > 0,
            },
            _ => false,
        }
    }

    // Counts who holds the lock of an accepted event.
    fn count(&mut self, event: Event) -> Result<(), AllocError>
        ensures holders { OnOk result ((l : ℕ) → slice_index self.new.holders l ≡ holders_after event l (slice_index self.old.holders l)) }
        ensures writers { OnOk result ((l : ℕ) → slice_index self.new.writers l ≡ writers_after event l (slice_index self.old.writers l)) }
        ensures threads { self.new.threads ≡ self.old.threads }
        ensures refused { self.new.refused ≡ self.old.refused }
        ensures held_twice { self.new.held_twice ≡ self.old.held_twice }
    {
        match event {
            Event::Acquire(lock, mode) => {
                add(&mut self.holders, lock)?;
                if let Mode::Write = mode {
                    add(&mut self.writers, lock)?;
                }
                Ok(())
            }
            Event::Release(lock, mode) => {
                remove(&mut self.holders, lock);
                if let Mode::Write = mode {
                    remove(&mut self.writers, lock);
                }
                Ok(())
            }
            _ => Ok(()),
        }
    }
}
