//! The workloads, by name, and why one has no run.
ghost use Rattle.std.specs.Prelude.{◌≡◌};
ghost use Rattle.er_load.specs.Workloads.{name_of, thread_count};
ghost use Rattle.er_event.specs.declared.refusals.Refusal.TheVariants.{OutOfMemory};
ghost use Rattle.er_load.specs.declared.workloads.LoadFault.TheVariants.{Refused};

use er_detector::Unsettled;
use er_event::{Refusal, ThreadId};
use std::alloc::AllocError;

/// What some threads do at one detector.
#[derive(Clone, Copy, Debug, PartialEq, Eq, Hash)]
pub enum Workload {
    /// Two threads count up 100 times each, under a lock.
    LockedCounter,
    /// Two threads write a word twice each, without a lock.
    RacyCounter,
    /// One thread writes 16 words, and then two others read them.
    InitThenRead,
    /// One thread writes 4 words, and two others read them, 10 times each, under a lock that the readers take in read mode.
    RwTable,
    /// Two threads write 8 words of a page each and put the page to a new use, and then do so with the other's page.
    ReusePool,
    /// Two threads count up a word 10 times each, in an ignore bracket.
    IgnoredStats,
}

/// The threads of a workload are done with the first stage before the second one begins.
#[derive(Clone, Copy, Debug, PartialEq, Eq, Hash)]
pub(crate) enum Stage {
    First,
    Second,
}

/// What one thread does in one stage.
#[derive(Clone, Copy)]
pub(crate) struct Task {
    pub(crate) workload: Workload,
    pub(crate) stage: Stage,
    pub(crate) thread: ThreadId,
}

impl Workload {
    /// All workloads.
    pub const ALL: [Workload; 6] = [
        Workload::LockedCounter,
        Workload::RacyCounter,
        Workload::InitThenRead,
        Workload::RwTable,
        Workload::ReusePool,
        Workload::IgnoredStats,
    ];

    /// The name, as the program takes it.
    pub fn name(self) -> &'static str
        ensures { result.now ≡ name_of self }
    {
        match self {
            Workload::LockedCounter => "locked-counter",
            Workload::RacyCounter => "racy-counter",
            Workload::InitThenRead => "init-then-read",
            Workload::RwTable => "rw-table",
            Workload::ReusePool => "reuse-pool",
            Workload::IgnoredStats => "ignored-stats",
        }
    }

    /// How many threads it has.
    pub fn threads(self) -> u32
        ensures { result ≡ thread_count self }
    {
        match self {
            Workload::InitThenRead | Workload::RwTable => 3,
            _ => 2,
        }
    }
}

/// Why a workload has no run.
#[derive(Clone, Copy, Debug, PartialEq, Eq)]
pub enum LoadFault {
    /// A call was refused, or there was no memory.
    Refused(Refusal),
    /// A thread couldn't be started.
    WorkerNotStarted,
    /// A thread that was started gave nothing back. The joins of today always answer, so nothing comes to this.
    WorkerLost,
    /// The threads' seats don't settle with the detector.
    Unsettled(Unsettled),
}

impl From<Refusal> for LoadFault {
    ghost from_gives = { λ refusal fault. fault ≡ Refused refusal };

    fn from(refusal: Refusal) -> LoadFault {
        LoadFault::Refused(refusal)
    }
}

impl From<AllocError> for LoadFault {
    ghost from_gives = { λ _ fault. fault ≡ Refused OutOfMemory };

    fn from(_error: AllocError) -> LoadFault {
        LoadFault::Refused(Refusal::OutOfMemory)
    }
}
