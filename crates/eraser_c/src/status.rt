//! What C is answered.
ghost use Rattle.std.specs.Prelude.{◌≡◌};
ghost use Rattle.eraser_c.specs.Statuses.{number_of};

use er_event::Refusal;

/// What a call of C is answered.
#[derive(Clone, Copy, Debug, PartialEq, Eq)]
pub enum Status {
    /// It is done, and of an access: it is no race.
    Quiet,
    /// The access is a race.
    Race,
    /// The thread has an ignore bracket open, so the access doesn't count.
    Ignored,
    /// The call was refused.
    Refused(Refusal),
    /// The handle is empty.
    EmptyHandle,
    /// A handle of another sort than the call takes.
    WrongHandle,
    /// No access of the word counts yet.
    Virgin,
    /// One thread alone has accessed the word.
    Exclusive,
    /// Several threads have read the word, and none has written it since the second came.
    Shared,
    /// Several threads have accessed the word, and one has written it since the second came.
    SharedModified,
    /// Two seats of one thread.
    SeatTwice,
    /// A seat that was opened isn't there.
    SeatMissing,
    /// The tickets of a seat or of a shard don't rise, or two entries share one.
    Order,
    /// A call of a seat has no entry in the shard of its words, or an entry has no call.
    Entries,
    /// A call and its entry don't have the same answer and the same locks.
    Answer,
    /// A shard is of another detector.
    ForeignShard,
}

impl Status {
    /// The number that C gets. A refusal's is its own number and two.
    pub fn number(self) -> u32
        ensures { result ≡ number_of self }
    {
        match self {
            Status::Quiet => 0,
            Status::Race => 1,
            Status::Ignored => 2,
            Status::Refused(why) => 2 + why.number(),
            Status::EmptyHandle => 18,
            Status::WrongHandle => 19,
            Status::Virgin => 20,
            Status::Exclusive => 21,
            Status::Shared => 22,
            Status::SharedModified => 23,
            Status::SeatTwice => 24,
            Status::SeatMissing => 25,
            Status::Order => 26,
            Status::Entries => 27,
            Status::Answer => 28,
            Status::ForeignShard => 29,
        }
    }
}
