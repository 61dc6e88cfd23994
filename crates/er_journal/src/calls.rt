//! What seats keep of the calls that they take.
ghost use Rattle.std.specs.Prelude.{◌≡◌, ◌+◌, ◌/◌, Some, None};
ghost use Rattle.er_event.specs.Span.{part_of};
ghost use Rattle.er_event.specs.declared.steps.Reply.TheVariants.{Done};

use crate::accesses::BriefAccess;
use crate::tickets::{LateTicket, TicketPlace};
use crate::{BriefReply, Ticket};
use er_event::{Event, Kind, Level, LockId, Mode, PageRange, Site, Sync, Word};
use std::marker::Model;

/// One accepted call of a seat, in 16 bytes. Contracts see what its thread did, what it was answered, and its number if it stands in a journal.
#[derive(Clone, Drop)]
pub struct Call {
    kept: KeptCall,
}

// The small fields lie first, so that each of them takes 16 bytes.
#[derive(Clone, Drop)]
enum KeptCall {
    // What stands in no journal. A reuse has so many words behind its first one.
    Own(BriefReply, OwnEvent),
    OwnAccess(BriefReply, Kind, Site, Word),
    OwnReuse(BriefReply, u16, Word),
    OwnShow(BriefReply, Word),
    // A counted access, and one whose ticket doesn't fit in place.
    Counted(BriefReply, BriefAccess, Site, u32),
    Late(BriefReply, BriefAccess, Box<LateTicket>),
    // A reuse: 1,024 times its first word and how many words it has behind that one, in three parts, and the ticket.
    Reset(u8, u16, u32, u64),
}

// An event that names no word.
#[derive(Clone, Copy, Drop)]
enum OwnEvent {
    Acquire(LockId, Mode),
    Release(LockId, Mode),
    IgnoreOn,
    IgnoreOff,
    Level(Level),
    Sync(Sync),
}

impl Model for Call {
    ghost use Rattle.er_journal.specs.Entries.{Call as CallShown};
    ghost use Rattle.er_journal.specs.Inner.KeptCalls.{call_of, IsKept};

    ghost Value = { CallShown };

    ghost view = { λ c. call_of c.kept };

    ghost invariant = { λ c. IsKept c.kept };
}

impl Call {
    /// A call that stands in no journal.
    pub fn own(event: Event, reply: BriefReply) -> Call
        ensures { result ≡ record { event = event; reply = reply; ticket = None } }
    {
        let kept = match event {
            Event::Acquire(lock, mode) => KeptCall::Own(reply, OwnEvent::Acquire(lock, mode)),
            Event::Release(lock, mode) => KeptCall::Own(reply, OwnEvent::Release(lock, mode)),
            Event::Access(kind, word, site) => KeptCall::OwnAccess(reply, kind, site, word),
            Event::Reuse(range) => {
                let more = range.hi.number() - range.lo.number();
                KeptCall::OwnReuse(reply, more as u16, range.lo)
            }
            Event::IgnoreOn => KeptCall::Own(reply, OwnEvent::IgnoreOn),
            Event::IgnoreOff => KeptCall::Own(reply, OwnEvent::IgnoreOff),
            Event::Show(word) => KeptCall::OwnShow(reply, word),
            Event::Level(level) => KeptCall::Own(reply, OwnEvent::Level(level)),
            Event::Sync(sync) => KeptCall::Own(reply, OwnEvent::Sync(sync)),
        };
        Call { kept }
    }

    /// A counted access.
    #[inline(always)]
    pub fn counted(kind: Kind, word: Word, site: Site, reply: BriefReply, ticket: Ticket) -> Call
        ensures { result ≡ record { event = Event.Access kind word site; reply = reply; ticket = Some ticket } }
    {
        let kept = match ticket.place {
            TicketPlace::Here(number) => {
                KeptCall::Counted(reply, BriefAccess::new(kind, word), site, number)
            }
            TicketPlace::Apart(mut late) => {
                *late = LateTicket { site, ..*late };
                KeptCall::Late(reply, BriefAccess::new(kind, word), late)
            }
        };
        Call { kept }
    }

    /// A reuse of these words.
    pub fn reuse(range: PageRange, ticket: u64) -> Call
        ensures { result ≡ record { event = Event.Reuse range; reply = Done; ticket = Some ticket } }
    {
        let more = range.hi.number() - range.lo.number();
        let packed = range.lo.number() * 1024 + more;
        let high = (packed / 281_474_976_710_656) as u8;
        let middle = (packed / 4_294_967_296 % 65_536) as u16;
        Call {
            kept: KeptCall::Reset(high, middle, (packed % 4_294_967_296) as u32, ticket),
        }
    }

    /// What the seat's thread did.
    #[inline]
    pub fn event(&self) -> Event
        ensures { result ≡ self.now.event }
    {
        match &self.kept {
            KeptCall::Own(_, OwnEvent::Acquire(lock, mode)) => Event::Acquire(*lock, *mode),
            KeptCall::Own(_, OwnEvent::Release(lock, mode)) => Event::Release(*lock, *mode),
            KeptCall::Own(_, OwnEvent::IgnoreOn) => Event::IgnoreOn,
            KeptCall::Own(_, OwnEvent::IgnoreOff) => Event::IgnoreOff,
            KeptCall::Own(_, OwnEvent::Level(level)) => Event::Level(*level),
            KeptCall::Own(_, OwnEvent::Sync(sync)) => Event::Sync(*sync),
            KeptCall::OwnShow(_, word) => Event::Show(*word),
            KeptCall::OwnReuse(_, more, lo) => Event::Reuse(range_of(*lo, u64::from(*more))),
            KeptCall::OwnAccess(_, kind, site, word) => Event::Access(*kind, *word, *site),
            KeptCall::Counted(_, access, site, _) => access.at(*site),
            KeptCall::Late(_, access, late) => access.at(late.site),
            KeptCall::Reset(high, middle, low, _) => {
                let middle = u64::from(*middle) * 4_294_967_296 + u64::from(*low);
                let packed = u64::from(*high) * 281_474_976_710_656 + middle;
                Event::Reuse(range_of(Word::new(packed / 1024), packed % 1024))
            }
        }
    }

    /// What it was answered.
    #[inline]
    pub fn reply(&self) -> BriefReply
        ensures { result ≡ self.now.reply }
    {
        match &self.kept {
            KeptCall::Own(reply, _)
            | KeptCall::OwnAccess(reply, _, _, _)
            | KeptCall::OwnReuse(reply, _, _)
            | KeptCall::OwnShow(reply, _)
            | KeptCall::Counted(reply, _, _, _)
            | KeptCall::Late(reply, _, _) => *reply,
            KeptCall::Reset(_, _, _, _) => BriefReply::done(),
        }
    }

    /// The number that it drew, where it stands in a journal.
    #[inline]
    pub fn ticket(&self) -> Option<u64>
        ensures { result ≡ self.now.ticket }
    {
        match &self.kept {
            KeptCall::Counted(_, _, _, ticket) => Some(u64::from(*ticket)),
            KeptCall::Late(_, _, late) => Some(late.number),
            KeptCall::Reset(_, _, _, ticket) => Some(*ticket),
            _ => None,
        }
    }
}

// The range with so many words behind its first one.
fn range_of(lo: Word, more: u64) -> PageRange
    requires { lo / 1024 ≡ (lo + more) / 1024 }
    ensures { result ≡ part_of (record { first = lo; last = lo + more }) 0 }
{
    PageRange::new(lo, Word::new(lo.number() + more))
}

const _: () = prove!(size_of::<Call>() == 16);
