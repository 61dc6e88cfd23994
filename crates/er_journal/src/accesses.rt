//! Accesses, kept small.
ghost use Rattle.std.specs.Prelude.{◌≡◌};

use er_event::{Event, Kind, Site, Word};
use std::marker::Model;

/// A word and whether an access reads or writes it, in six bytes. Contracts see both.
#[derive(Clone, Drop)]
pub(crate) struct BriefAccess {
    high: u16,
    middle: u16,
    low: u16,
}

impl Model for BriefAccess {
    ghost use Rattle.std.specs.Prelude.{◌<◌, ◌^◌};
    ghost use Rattle.er_journal.specs.Inner.Accesses.{Touch, touch_of, touch_number};

    ghost Value = { Touch };

    ghost view = { λ a. touch_of (touch_number a.high a.middle a.low) };

    ghost invariant = { λ a. a.high < 2 ^ 15 };
}

impl BriefAccess {
    /// An access of this kind to this word.
    #[inline]
    pub(crate) fn new(kind: Kind, word: Word) -> BriefAccess
        ensures { result ≡ record { kind = kind; word = word } }
    {
        let packed = match kind {
            Kind::Read => word.number() * 2,
            Kind::Write => word.number() * 2 + 1,
        };
        BriefAccess {
            high: (packed / 4_294_967_296) as u16,
            middle: (packed / 65_536 % 65_536) as u16,
            low: (packed % 65_536) as u16,
        }
    }

    /// The access, made at this place of the program.
    #[inline]
    pub(crate) fn at(&self, site: Site) -> Event
        ensures { result ≡ Event.Access self.now.kind self.now.word site }
    {
        let kind = if self.low % 2 == 0 {
            Kind::Read
        } else {
            Kind::Write
        };
        let middle = u64::from(self.middle) * 65_536 + u64::from(self.low);
        let number = (u64::from(self.high) * 4_294_967_296 + middle) / 2;
        Event::Access(kind, Word::new(number), site)
    }
}
