//! What a handle leads to.
use crate::threads::Thread;
use er_online::Shard;
use er_seat::Seat;
use er_shard::OwnShard;

/// What a handle leads to.
#[derive(Drop)]
pub enum Kept {
    /// Some of memory's words.
    Shard(Shard),
    /// A thread.
    Thread(Thread),
    /// Some of memory's words, with a journal.
    Journal(OwnShard),
    /// A thread with a list of its calls.
    Seat(Seat),
}
