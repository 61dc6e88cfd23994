//! Why seats and journals don't settle.
ghost use Rattle.std.specs.Prelude.{◌≡◌};
ghost use Rattle.er_settle.specs.Texts.{text_of};
ghost use Rattle.er_settle.specs.declared.unsettled.Unsettled.TheVariants.{Memory};

use std::alloc::AllocError;

/// The first reason why there is no run.
#[derive(Clone, Copy, Debug, PartialEq, Eq, Hash)]
pub enum Unsettled {
    /// A seat isn't the detector's.
    ForeignSeat,
    /// Two seats of one thread are given.
    SeatTwice,
    /// A seat that was opened isn't given.
    SeatMissing,
    /// The tickets of a seat or of a journal don't rise, or two entries share one.
    Order,
    /// A call with a ticket has no entry of its ticket, thread and event in the journal of its words' shard, or an entry has no call.
    Entries,
    /// A call and its entry have different replies, or the entry doesn't have the locks that the seat held.
    Answer,
    /// There was no memory.
    Memory,
}

impl Unsettled {
    /// The fault in words.
    pub fn text(self) -> &'static str
        ensures { result.now ≡ text_of self }
    {
        match self {
            Unsettled::ForeignSeat => "foreign seat",
            Unsettled::SeatTwice => "seat twice",
            Unsettled::SeatMissing => "seat missing",
            Unsettled::Order => "order",
            Unsettled::Entries => "entries",
            Unsettled::Answer => "answer",
            Unsettled::Memory => "memory",
        }
    }
}

impl From<AllocError> for Unsettled {
    ghost from_gives = { λ _ fault. fault ≡ Memory };

    fn from(_refused: AllocError) -> Unsettled {
        Unsettled::Memory
    }
}
