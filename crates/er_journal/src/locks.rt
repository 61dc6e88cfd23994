//! The locks that stamps share, with their thread.
ghost use Rattle.std.specs.Prelude.{◌≡◌, ◌↔◌, IfOk, IsTrue};
ghost use Rattle.std.specs.Arc.{arc_value};

use er_event::{Lockset, ThreadId};
use std::alloc::{AllocError, Global};
use std::marker::Model;
use std::sync::Arc;

/// A thread, and the locks that it holds, in any mode and in write mode. Stamps share them: they are kept once, until the last of
/// their owners is dropped, in whatever thread that is.
#[derive(Drop)]
pub struct HeldLocks {
    shared: Arc<SharedLocks>,
}

#[derive(Drop)]
struct SharedLocks {
    thread: ThreadId,
    held: Lockset,
    write_held: Lockset,
}

impl Model for HeldLocks {
    ghost use Rattle.std.specs.Arc.{arc_value};
    ghost use Rattle.er_journal.specs.Entries.{LocksHeld};

    ghost Value = { LocksHeld };

    ghost view = { λ l. record { thread = (arc_value l.shared).thread; held = (arc_value l.shared).held; write_held = (arc_value l.shared).write_held } };
}

impl HeldLocks {
    /// Copies of a thread's sets. The only error is that there is no memory.
    pub fn new(
        alloc: Global,
        thread: ThreadId,
        held: &Lockset,
        write_held: &Lockset,
    ) -> Result<HeldLocks, AllocError>
        ensures { IfOk result (λ locks. locks ≡ record { thread = thread; held = held.now; write_held = write_held.now }) }
    {
        let locks = SharedLocks {
            thread,
            held: held.copy()?,
            write_held: write_held.copy()?,
        };
        let shared = Arc::new(alloc, locks)?;
        Ok(HeldLocks { shared })
    }

    /// One more owner of them. The only error is that they have 2^63 owners.
    pub fn share(&self) -> Result<HeldLocks, AllocError>
        ensures { IfOk result (λ shared. shared ≡ self.now) }
    {
        let shared = Arc::try_clone(&self.shared)?;
        Ok(HeldLocks { shared })
    }

    /// The thread.
    pub fn thread(&self) -> ThreadId
        ensures { result ≡ self.now.thread }
    {
        self.shared.thread
    }

    /// The locks that are held in any mode.
    pub fn held(&self) -> &Lockset
        ensures { result.now ≡ self.now.held }
    {
        &self.shared.held
    }

    /// The locks that are held in write mode.
    pub fn write_held(&self) -> &Lockset
        ensures { result.now ≡ self.now.write_held }
    {
        &self.shared.write_held
    }

    /// Whether these are the thread and the sets.
    pub fn are(&self, thread: ThreadId, held: &Lockset, write_held: &Lockset) -> bool
        ensures { IsTrue result ↔ ((self.now.thread ≡ thread) × ((self.now.held ≡ held.now) × (self.now.write_held ≡ write_held.now))) }
    {
        let shared = &self.shared;
        shared.thread == thread && shared.held == *held && shared.write_held == *write_held
    }
}
