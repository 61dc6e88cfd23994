//! How a parallel replay is made, and why it has no answers.
ghost use Rattle.std.specs.Prelude.{◌≡◌, IsSome, IfSome};
ghost use Rattle.er_parallel.specs.Limits.{IsShardCount, IsSetCount};

use er_event::NoRoom;
use er_keys::HashKeys;
use std::alloc::AllocError;

/// How a parallel replay is made. The numbers are in their limits.
#[derive(Clone, Copy, Debug, PartialEq, Eq)]
pub struct ReplayConfig {
    /// In how many shards the words are, 1 to 64.
    pub shards: u32,
    /// How many sets of locks a worker keeps at most, 1 to 1,048,576.
    pub max_sets: u32,
    /// By which keys pages, threads and sets of locks are found. They change no answer.
    pub keys: HashKeys,
    pub ghost shard_count: { IsShardCount shards },
    pub ghost set_count: { IsSetCount max_sets },
}

impl ReplayConfig {
    /// The greatest number of shards.
    pub const MAX_SHARDS: u32 = 64;

    /// The greatest number of sets of locks.
    pub const MAX_SETS: u32 = 1_048_576;

    /// The configuration with these numbers, or none where one is out of its limits. Whoever chooses the steps can make a
    /// replay slow: see [`with_keys`](ReplayConfig::with_keys).
    pub fn new(shards: u32, max_sets: u32) -> Option<ReplayConfig>
        ensures some { IsShardCount shards → IsSetCount max_sets → IsSome result }
        ensures some_only { IsSome result → IsShardCount shards × IsSetCount max_sets }
        ensures value { IfSome result (λ config. (config.shards ≡ shards) × (config.max_sets ≡ max_sets)) }
    {
        if shards < 1 || shards > ReplayConfig::MAX_SHARDS {
            return None;
        }
        if max_sets < 1 || max_sets > ReplayConfig::MAX_SETS {
            return None;
        }
        Some(ReplayConfig {
            shards,
            max_sets,
            keys: HashKeys::KNOWN,
        })
    }

    /// The same configuration, by which pages, threads and sets of locks are found by these keys.
    pub fn with_keys(mut self, keys: HashKeys) -> ReplayConfig
        ensures { (result.shards ≡ self.shards) × (result.max_sets ≡ self.max_sets) }
    {
        self.keys = keys;
        self
    }
}

/// Why a parallel replay has no answers.
#[derive(Clone, Copy, Debug, PartialEq, Eq)]
pub enum ReplayFault {
    /// There was no memory.
    Memory,
    /// A worker needed more sets of locks than it keeps.
    TableFull,
    /// A worker couldn't be started.
    WorkerNotStarted,
    /// A worker that was started gave nothing back. The joins of today always answer, so nothing comes to this.
    WorkerLost,
}

impl From<AllocError> for ReplayFault {
    ghost use Rattle.std.specs.Prelude.{◌≡◌};
    ghost use Rattle.er_parallel.specs.declared.config.ReplayFault.TheVariants.{Memory};

    ghost from_gives = { λ _ fault. fault ≡ Memory };

    fn from(_error: AllocError) -> ReplayFault {
        ReplayFault::Memory
    }
}

impl From<NoRoom> for ReplayFault {
    ghost use Rattle.std.specs.Prelude.{◌≡◌};
    ghost use Rattle.er_parallel.specs.Faults.{fault_of};

    ghost from_gives = { λ cause fault. fault ≡ fault_of cause };

    fn from(cause: NoRoom) -> ReplayFault {
        match cause {
            NoRoom::TableFull => ReplayFault::TableFull,
            NoRoom::JournalFull | NoRoom::OutOfMemory => ReplayFault::Memory,
        }
    }
}
