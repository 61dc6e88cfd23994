//! `ThreadLocks`, what each thread holds as steps go by. A refused step changes nothing, so what a thread holds follows from its
//! steps alone.
ghost use Rattle.std.specs.Prelude.{◌≡◌, ◌<◌, ℕ, [], length, is_some, OnOk, IfOk};
ghost use Rattle.er_held.specs.ThreadLocks.{held_by, changes_holdings};
ghost use Rattle.er_model.specs.Holdings.{after_step, refused_by};

use crate::Held;
use er_event::{Event, Step, ThreadId};
use std::alloc::{AllocError, Global};
use std::marker::Model;

/// What each thread holds. Contracts see it as a list of holdings by thread number; a thread past its end holds nothing.
/// Threads are numbered by first appearance, so the list has few gaps, and memory goes by the greatest number of a thread that
/// has taken a lock, a bracket or a level.
#[derive(Drop)]
pub struct ThreadLocks {
    by_thread: Vec<Held>,
    nothing: Held,
}

impl Model for ThreadLocks {
    ghost use Rattle.std.specs.Prelude.{◌≡◌, List};
    ghost use Rattle.er_held.specs.Held.{nothing_held};
    ghost use Rattle.er_model.specs.Holdings.{Holdings};

    ghost Value = { List Holdings };

    ghost view = { λ h. h.by_thread.items };

    ghost invariant = { λ h. h.nothing ≡ nothing_held };
}

impl ThreadLocks {
    /// Nobody holds anything.
    pub fn new(alloc: Global) -> Self
        ensures { result ≡ [] }
    {
        ThreadLocks {
            by_thread: Vec::new(alloc),
            nothing: Held::new(alloc),
        }
    }

    /// What the thread holds. One that has taken nothing yet holds nothing.
    pub fn get(&self, thread: ThreadId) -> &Held
        ensures { result.now ≡ held_by self.now thread }
    {
        let held = self.by_thread.get(thread.number() as usize);
        held.unwrap_or(&self.nothing)
    }

    /// Makes the change of one step, unless it is refused, and says whether it is.
    pub fn follow(&mut self, alloc: Global, step: &Step) -> Result<bool, AllocError>
        ensures refused { IfOk result (λ refused. refused ≡ is_some (refused_by (held_by self.old step.now.thread) step.now.event)) }
        ensures threads { OnOk result ((t : ℕ) → held_by self.new t ≡ after_step (held_by self.old t) t step.now) }
    {
        if !changes_holdings(step.event) {
            return Ok(false);
        }
        let place = step.thread.number() as usize;
        reach(alloc, &mut self.by_thread, place)?;
        let refused = self.by_thread[place].follow(step.event)?;
        Ok(refused.is_some())
    }
}

// Makes a place for the thread of this number.
fn reach(alloc: Global, by_thread: &mut Vec<Held>, place: usize) -> Result<(), AllocError>
    ensures place { OnOk result (place < length by_thread.new.items) }
    ensures same { (t : ℕ) → held_by by_thread.new.items t ≡ held_by by_thread.old.items t }
{
    while by_thread.len() <= place {
        by_thread.push(Held::new(alloc))?;
    }
    Ok(())
}

// Whether an event of this sort can change what its thread holds. No other is refused.
fn changes_holdings(event: Event) -> bool
    ensures { result ≡ changes_holdings event }
{
    !matches!(
        event,
        Event::Access(..) | Event::Reuse(_) | Event::Show(_) | Event::Sync(_)
    )
}
