//! How a replay ends.
ghost use Rattle.std.specs.Prelude.{◌≡◌, Some};
ghost use Rattle.er_run.specs.Faults.{text_of, fault_of, fault_of_room, fault_of_stop};
ghost use Rattle.er_run.specs.declared.fault.RunFault.TheVariants.{Read, Write, Memory};

use er_clock::{Limit, NoTick};
use er_damage::Damage;
use er_event::NoRoom;
use er_parallel::ReplayFault;
use er_print::WriteFault;
use er_text::ReadFault;
use std::alloc::AllocError;
use std::error::Error;
use std::fmt;

/// Why a replay gave no reports, or not all of them.
#[derive(Clone, Copy, Debug, PartialEq, Eq)]
pub enum RunFault {
    /// The trace wasn't read.
    Read(ReadFault),
    /// The reports weren't written.
    Write(WriteFault),
    /// The table of locksets is full, for several workers, for a part or beside a report by happens-before, or a worker couldn't be started.
    Replay(ReplayFault),
    /// By happens-before: a step is beyond a limit of the clocks.
    Beyond(Limit),
    /// Memory was refused between the two.
    Memory,
    /// The trace is damaged, and the replay is strict and of the whole trace.
    Damaged(Damage),
}

impl fmt::Display for RunFault {
    ghost output = { λ fault. Some (text_of fault) };

    fn fmt<W: fmt::Write>(&self, f: &mut fmt::Formatter<W>) -> fmt::Result {
        f.write_str(match self {
            RunFault::Read(_) => "the trace was not read",
            RunFault::Write(_) => "the report was not written",
            RunFault::Replay(_) => "the trace was not replayed",
            RunFault::Beyond(limit) => limit.text(),
            RunFault::Memory => "out of memory",
            RunFault::Damaged(_) => "the trace is damaged",
        })
    }
}

impl Error for RunFault {}

impl From<ReadFault> for RunFault {
    ghost from_gives = { λ cause fault. fault ≡ Read cause };

    fn from(cause: ReadFault) -> RunFault {
        RunFault::Read(cause)
    }
}

impl From<WriteFault> for RunFault {
    ghost from_gives = { λ cause fault. fault ≡ Write cause };

    fn from(cause: WriteFault) -> RunFault {
        RunFault::Write(cause)
    }
}

impl From<ReplayFault> for RunFault {
    ghost from_gives = { λ cause fault. fault ≡ fault_of cause };

    fn from(cause: ReplayFault) -> RunFault {
        match cause {
            ReplayFault::Memory => RunFault::Memory,
            ReplayFault::TableFull => RunFault::Replay(ReplayFault::TableFull),
            ReplayFault::WorkerNotStarted => RunFault::Replay(ReplayFault::WorkerNotStarted),
            ReplayFault::WorkerLost => RunFault::Replay(ReplayFault::WorkerLost),
        }
    }
}

impl From<NoRoom> for RunFault {
    ghost from_gives = { λ cause fault. fault ≡ fault_of_room cause };

    fn from(cause: NoRoom) -> RunFault {
        match cause {
            NoRoom::TableFull => RunFault::Replay(ReplayFault::TableFull),
            NoRoom::JournalFull | NoRoom::OutOfMemory => RunFault::Memory,
        }
    }
}

impl From<NoTick> for RunFault {
    ghost from_gives = { λ cause fault. fault ≡ fault_of_stop cause };

    fn from(cause: NoTick) -> RunFault {
        match cause {
            NoTick::Beyond(limit) => RunFault::Beyond(limit),
            NoTick::OutOfMemory => RunFault::Memory,
        }
    }
}

impl From<AllocError> for RunFault {
    ghost from_gives = { λ _ fault. fault ≡ Memory };

    fn from(_refused: AllocError) -> RunFault {
        RunFault::Memory
    }
}
