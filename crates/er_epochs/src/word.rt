//! What is stored of one word, in 16 bytes and two tags.
ghost use Rattle.std.specs.Prelude.{◌≡◌, ◌^◌, ◌&&◌, List, [], Some, None, cond, false, nat_lt, not, IsTrue, IfSome, IfOk, OnErr};
ghost use Rattle.std.specs.Option.{option_to_list};
ghost use Rattle.er_model.specs.Words.{is_writing};
ghost use Rattle.er_order.specs.Following.{is_unordered};
ghost use Rattle.er_clock.specs.Counts.{count_by};
ghost use Rattle.er_epochs.specs.declared.reads.Tagged.{Tagged as Access};
ghost use Rattle.er_epochs.specs.Epochs.{access_in, is_raced, reads_beside, readers_in, some_apart, stored_by, tag_found, tag_of_first, tagged, Readers, Told, IsStoredBy};
ghost use Rattle.er_epochs.specs.Known.{known_of};
ghost use Rattle.er_epochs.specs.Words.{said, blank, stored_in, IsButForTags};

use crate::byte_accesses::ByteAccesses;
use crate::reads::{Reads, Tagged, access_by};
use er_clock::{Epoch, ThreadClock};
use er_event::{Kind, ThreadId};
use er_keys::HashKeys;
use std::alloc::{AllocError, Global};

/// In the place of a thread's number, which is less: there is none.
pub(crate) const NONE: u32 = 1 << 30;

/// In the reader's place: a list has the reads.
pub(crate) const SEVERAL: u32 = (1 << 30) + 1;

/// In the writer's place: a race was reported.
const TOLD: u32 = (1 << 30) + 1;

/// Of a word's era, the epochs and tags of the last write and of the one latest read since; or that a list beside the word has several such
/// reads; or that a race was reported. Contracts see it by `stored_in`, with that list.
#[derive(Clone, Copy)]
pub(crate) struct OrderWord<A> {
    writer: u32,
    write_count: u32,
    reader: u32,
    // If a list has the reads, the place where it stood when it was noted: a hint.
    read_count: u32,
    pub(crate) write_tag: A,
    pub(crate) read_tag: A,
}

impl<A: Copy> OrderWord<A> {
    /// A word with no access in its era. Any tag will do.
    #[inline]
    pub(crate) fn new(tag: A) -> Self
        ensures { said result ≡ blank }
    {
        OrderWord {
            writer: NONE,
            write_count: 0,
            reader: NONE,
            read_count: 0,
            write_tag: tag,
            read_tag: tag,
        }
    }

    /// The word once its era has ended.
    #[inline]
    pub(crate) fn emptied(self) -> Self
        ensures { said result ≡ blank }
    {
        OrderWord {
            writer: NONE,
            reader: NONE,
            ..self
        }
    }

    /// Whether it had no access in its era. If the answer is no, that may be so all the same.
    #[inline]
    pub(crate) fn is_blank(self) -> bool
        ensures { IsTrue result → said self ≡ blank }
    {
        self.writer == NONE && self.reader == NONE
    }

    /// Whether a list has its reads. If not, it says the same whatever list is beside it.
    #[inline]
    pub(crate) fn has_list(self) -> bool
        ensures { result ≡ false → (a b : List (Access A)) → stored_in self a ≡ stored_in self b }
    {
        self.reader == SEVERAL
    }

    /// Where its list stands, as a rule. Another word's list may stand there now, so whoever asks must check what it gets.
    #[inline]
    pub(crate) fn hint(self) -> usize {
        self.read_count as usize
    }

    /// The word after a counted access that is no race and changes a tag at most: one was reported, or the word's last access is of this epoch and
    /// this kind. `None` says nothing.
    #[inline]
    pub(crate) fn settled(self, clock: &ThreadClock<'_>, kind: Kind, tag: A) -> Option<Self>
        ensures kept { IfSome result (λ r. (listed : List (Access A)) → stored_in r listed ≡ stored_by (count_by clock.now) (stored_in self listed) (tagged clock.now.0 (count_by clock.now clock.now.0) tag) kind) }
        ensures same { IfSome result (IsButForTags self) }
        ensures quiet { IfSome result (λ r. (listed : List (Access A)) → is_raced (count_by clock.now) (stored_in self listed) kind ≡ false) }
    {
        if self.writer == TOLD {
            return Some(self);
        }
        let epoch = clock.epoch();
        match kind {
            Kind::Read if self.is_read_by(epoch) && self.is_written_before(clock) => {
                Some(OrderWord {
                    read_tag: tag,
                    ..self
                })
            }
            Kind::Write if self.is_written_by(epoch) && self.reader == NONE => {
                Some(OrderWord {
                    write_tag: tag,
                    ..self
                })
            }
            _ => None,
        }
    }

    /// The word after a counted access by the thread whose clock this is, and the tag of the last access that it is a race with, if it is reported as
    /// one: it is the first of its era that some conflicting access doesn't happen before. `None`: that depends on the list of reads, or changes it.
    #[inline]
    #[tactic(auto, using(crate::proofs::FoundLemmas::apart_in))]
    pub(crate) fn access(
        self,
        clock: &ThreadClock<'_>,
        kind: Kind,
        tag: A,
    ) -> Option<(Self, Option<A>)>
        ensures kept { IfSome result (λ r. (listed : List (Access A)) → stored_in r.0 listed ≡ stored_by (count_by clock.now) (stored_in self listed) (tagged clock.now.0 (count_by clock.now clock.now.0) tag) kind) }
        ensures found { IfSome result (λ r. (listed : List (Access A)) → r.1 ≡ tag_found (count_by clock.now) (stored_in self listed) kind) }
    {
        if self.reader == SEVERAL {
            return None;
        }
        if self.writer == TOLD {
            return Some((self, None));
        }
        if !is_ordered(self.writer, self.write_count, clock) {
            return Some((self.told(), self.find(clock, kind, None)));
        }
        let is_alone = is_ordered(self.reader, self.read_count, clock);
        match kind {
            Kind::Read if is_alone => Some((self.read(access_by(clock, tag)), None)),
            Kind::Read => None,
            Kind::Write if is_alone => Some((self.written(access_by(clock, tag)), None)),
            Kind::Write => Some((self.told(), self.find(clock, kind, None))),
        }
    }

    /// The same with the list of reads, which may change and stands at this place. `AllocError`: memory was refused, and with the list the word
    /// says what it said.
    pub(crate) fn access_listed(
        self,
        reads: &mut Reads<A>,
        index: usize,
        alloc: Global,
        keys: HashKeys,
        clock: &ThreadClock<'_>,
        kind: Kind,
        tag: A,
    ) -> Result<(Self, Option<A>), AllocError>
        ensures kept { IfOk result (λ r. IsStoredBy (count_by clock.now) (stored_in self reads.old) (tagged clock.now.0 (count_by clock.now clock.now.0) tag) kind (stored_in r.0 reads.new)) }
        ensures found { IfOk result (λ r. r.1 ≡ tag_found (count_by clock.now) (stored_in self reads.old) kind) }
        ensures err { OnErr result (stored_in self reads.new ≡ stored_in self reads.old) }
    {
        if self.writer == TOLD {
            return Ok((self, None));
        }
        if !is_ordered(self.writer, self.write_count, clock) {
            let rival = self.find(clock, kind, reads.find(clock));
            return Ok((self.told(), rival));
        }
        reads.gather(self.reader, self.read_count, self.read_tag)?;
        match kind {
            Kind::Read => {
                reads.note(alloc, keys, clock, tag)?;
                Ok((self.listed(index), None))
            }
            Kind::Write => match reads.find(clock) {
                Some(rival) => Ok((self.told(), Some(rival))),
                None => Ok((self.written(access_by(clock, tag)), None)),
            },
        }
    }

    /// The tag of the last access that one of this kind conflicts with and that doesn't happen before what the clock's thread does now. If a list
    /// has the reads, the caller says the tag of the last one of it that doesn't.
    pub(crate) fn find(self, clock: &ThreadClock<'_>, kind: Kind, listed: Option<A>) -> Option<A>
        ensures { (reads : List (Access A)) → listed ≡ tag_of_first (count_by clock.now) reads → result ≡ tag_found (count_by clock.now) (stored_in self reads) kind }
    {
        if self.writer == TOLD {
            return None;
        }
        // The reads are later than the write.
        match self.find_read(clock, kind, listed) {
            Some(tag) => Some(tag),
            None => unordered(self.writer, self.write_count, self.write_tag, clock),
        }
    }

    /// Its accesses, with the list of reads, as accesses of the whole word. `AllocError`: memory was refused.
    pub(crate) fn byte_accesses(
        self,
        listed: &Reads<A>,
        alloc: Global,
    ) -> Result<ByteAccesses<A>, AllocError>
        ensures { IfOk result (λ accesses. accesses ≡ known_of (stored_in self listed.now)) }
    {
        if self.writer == TOLD {
            return Ok(ByteAccesses::told(alloc));
        }
        let mut reads = listed.again(alloc)?;
        reads.gather(self.reader, self.read_count, self.read_tag)?;
        reads.byte_accesses(self.last_write(), alloc)
    }

    // The last write.
    fn last_write(self) -> Option<Tagged<A>>
        ensures { result ≡ (said self).write }
    {
        if self.writer >= NONE {
            return None;
        }
        let thread = ThreadId::new(self.writer);
        let count = self.write_count;
        Some(Tagged {
            epoch: Epoch { thread, count },
            tag: self.write_tag,
        })
    }

    // The same of the reads alone, if no race was reported.
    fn find_read(self, clock: &ThreadClock<'_>, kind: Kind, listed: Option<A>) -> Option<A>
        ensures { (reads : List (Access A)) → listed ≡ tag_of_first (count_by clock.now) reads → result ≡ tag_of_first (count_by clock.now) (cond (is_writing kind) (reads_beside (said self).readers reads) []) }
    {
        match kind {
            Kind::Read => None,
            Kind::Write if self.reader == SEVERAL => listed,
            Kind::Write => unordered(self.reader, self.read_count, self.read_tag, clock),
        }
    }

    // The word, with this read alone since its last write.
    #[inline]
    fn read(self, read: Tagged<A>) -> Self
        ensures { said result ≡ (record { told = (said self).told; write = (said self).write; readers = Readers.Alone (Some read) }) }
    {
        let Tagged { epoch, tag } = read;
        OrderWord {
            reader: epoch.thread.number(),
            read_count: epoch.count,
            read_tag: tag,
            ..self
        }
    }

    // The word, with the reads of the list that stands at this place. The place is noted by its lowest bits: it is a hint.
    #[inline]
    fn listed(self, index: usize) -> Self
        ensures { said result ≡ (record { told = (said self).told; write = (said self).write; readers = Readers.Listed }) }
    {
        OrderWord {
            reader: SEVERAL,
            read_count: (index % (1 << 32)) as u32,
            ..self
        }
    }

    // The word, once a race was reported.
    #[inline]
    fn told(self) -> Self
        ensures { (listed : List (Access A)) → stored_in result listed ≡ Told }
    {
        OrderWord {
            writer: TOLD,
            reader: NONE,
            ..self
        }
    }

    // The word, with no access since this write.
    #[inline]
    fn written(self, write: Tagged<A>) -> Self
        ensures { said result ≡ (record { told = false; write = Some write; readers = Readers.Alone None }) }
    {
        let Tagged { epoch, tag } = write;
        OrderWord {
            writer: epoch.thread.number(),
            write_count: epoch.count,
            reader: NONE,
            write_tag: tag,
            ..self
        }
    }

    // Whether the latest read is of this epoch.
    #[inline]
    fn is_read_by(self, epoch: Epoch) -> bool
        ensures { IsTrue result → readers_in self.reader self.read_count self.read_tag ≡ Readers.Alone (Some (record { epoch = epoch; tag = self.read_tag })) }
    {
        let Epoch { thread, count } = epoch;
        self.reader == thread.number() && self.read_count == count
    }

    // Whether no race was reported, and the last write, if there is one, happens before what the clock's thread does now.
    #[inline]
    #[tactic(auto, using(crate::proofs::FoundLemmas::apart_in))]
    fn is_written_before(self, clock: &ThreadClock<'_>) -> bool
        ensures seen { IsTrue result → (said self).told ≡ false }
        ensures ordered { IsTrue result → some_apart (count_by clock.now) (said self).write ≡ false }
    {
        self.writer != TOLD && is_ordered(self.writer, self.write_count, clock)
    }

    // Whether the last write is of this epoch.
    #[inline]
    fn is_written_by(self, epoch: Epoch) -> bool
        ensures seen { IsTrue result → (said self).told ≡ false }
        ensures write { IsTrue result → (said self).write ≡ Some (record { epoch = epoch; tag = self.write_tag }) }
    {
        let Epoch { thread, count } = epoch;
        self.writer == thread.number() && self.write_count == count
    }
}

// Whether what the thread of this number did in the epoch of this count happens before what the clock's thread does now. It is so if there
// is no such thread.
#[inline]
fn is_ordered(number: u32, count: u32, clock: &ThreadClock<'_>) -> bool
    ensures { result ≡ not (nat_lt number (2 ^ 30) && is_unordered (count_by clock.now) (number, count)) }
{
    if number < NONE {
        count <= clock.count(ThreadId::new(number))
    } else {
        true
    }
}

// The tag, if what the thread of this number did in the epoch of this count doesn't happen before what the clock's thread does now.
#[inline]
#[tactic(auto, using(crate::proofs::FoundLemmas::found_in))]
fn unordered<A: Copy>(number: u32, count: u32, tag: A, clock: &ThreadClock<'_>) -> Option<A>
    ensures { result ≡ tag_of_first (count_by clock.now) (option_to_list (access_in number count tag)) }
{
    if is_ordered(number, count, clock) {
        None
    } else {
        Some(tag)
    }
}
