//! Tickets, kept small.
ghost use Rattle.std.specs.Prelude.{◌≡◌, ◌<◌, ◌^◌, IfOk, IsOk};

use er_event::Site;
use std::alloc::{AllocError, Global};
use std::marker::Model;

/// A ticket, on its way into an entry or a call. It takes four bytes there, or memory of its own that it brings along. Contracts see the number.
#[derive(Drop)]
pub struct Ticket {
    pub(crate) place: TicketPlace,
}

#[derive(Drop)]
pub(crate) enum TicketPlace {
    Here(u32),
    Apart(Box<LateTicket>),
}

/// A ticket that doesn't fit in place, and the site of its access: the pointer to both stands where these would.
#[derive(Clone, Copy)]
pub(crate) struct LateTicket {
    pub(crate) number: u64,
    pub(crate) site: Site,
}

impl Model for Ticket {
    ghost use Rattle.std.specs.Prelude.{ℕ};
    ghost use Rattle.er_journal.specs.Inner.Tickets.{ticket_of};

    ghost Value = { ℕ };

    ghost view = { λ t. ticket_of t.place };
}

impl Ticket {
    /// A ticket with what keeps it. Only one of 2^32 or more takes memory, and can be refused.
    #[inline]
    pub fn new(alloc: Global, ticket: u64) -> Result<Ticket, AllocError>
        ensures ticket { IfOk result (λ kept. kept ≡ ticket) }
        ensures free { ticket < 2 ^ 32 → IsOk result }
    {
        let place = if ticket < 1 << 32 {
            TicketPlace::Here(ticket as u32)
        } else {
            let (number, site) = (ticket, Site::MISSING);
            TicketPlace::Apart(Box::new(alloc, LateTicket { number, site })?)
        };
        Ok(Ticket { place })
    }
}
