//! What a shard takes.
use er_event::{Kind, PageRange, ThreadId, Word};

/// One call that a shard took.
#[derive(Clone, Copy)]
pub enum ShardCall {
    /// A counted access, and whether it was answered with a race.
    Access(ThreadId, Kind, Word, bool),
    /// A reuse.
    Reset(PageRange),
}
