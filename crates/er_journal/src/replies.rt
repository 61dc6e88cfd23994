//! Replies that tell no state, kept small.
ghost use Rattle.std.specs.Prelude.{◌≡◌, cond};

use er_event::Reply;
use std::marker::Model;

/// What a call or an entry is answered, in one byte: a `Reply` takes 72, since a show's state holds its locks in place, and no journal has
/// a show. Contracts see the reply.
#[derive(Clone, Copy, Debug, PartialEq, Eq)]
pub struct BriefReply {
    plain: PlainReply,
}

#[derive(Clone, Copy, Debug, PartialEq, Eq)]
enum PlainReply {
    Done,
    Quiet,
    Race,
    Ignored,
}

impl Model for BriefReply {
    ghost use Rattle.er_event.specs.declared.steps.Reply.{Reply};
    ghost use Rattle.er_journal.specs.Inner.Replies.{reply_of, plain_of};

    ghost Value = { Reply };

    ghost view = { λ r. reply_of r.plain };

    ghost inverse = { λ reply. record { plain = plain_of reply } };
}

impl BriefReply {
    /// A call that no shard sees, or a reuse, took effect.
    pub fn done() -> BriefReply
        ensures { result ≡ Reply.Done }
    {
        BriefReply {
            plain: PlainReply::Done,
        }
    }

    /// An access inside an ignore bracket.
    pub fn ignored() -> BriefReply
        ensures { result ≡ Reply.Ignored }
    {
        BriefReply {
            plain: PlainReply::Ignored,
        }
    }

    /// A counted access, which is reported as a race or reports nothing.
    #[inline]
    pub fn of_access(reported: bool) -> BriefReply
        ensures { result ≡ cond reported Reply.Race Reply.Quiet }
    {
        let plain = if reported {
            PlainReply::Race
        } else {
            PlainReply::Quiet
        };
        BriefReply { plain }
    }

    /// The reply.
    #[inline]
    pub fn reply(self) -> Reply
        ensures { result ≡ self }
    {
        match self.plain {
            PlainReply::Done => Reply::Done,
            PlainReply::Quiet => Reply::Quiet,
            PlainReply::Race => Reply::Race,
            PlainReply::Ignored => Reply::Ignored,
        }
    }
}
