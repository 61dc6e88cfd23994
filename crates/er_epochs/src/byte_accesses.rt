//! The accesses of a word that some access touched in part.
ghost use Rattle.std.specs.Prelude.{◌≡◌, ◌++◌, ◌∷◌, [], filter, map, reverse, Some, OnOk, OnErr, IfOk};
ghost use Rattle.std.specs.Option.{option_map, option_to_list};
ghost use Rattle.er_model.specs.Words.{is_writing};
ghost use Rattle.er_order.specs.Parts.{first_hit, hits, is_inside, is_of_use};
ghost use Rattle.er_order.specs.ByBytes.{meet};
ghost use Rattle.er_clock.specs.Counts.{count_by};
ghost use Rattle.er_epochs.specs.Epochs.{tagged};
ghost use Rattle.er_epochs.specs.Known.{Since, Raced, IsKnownBy, finds, part_of, query_of, accesses_of, whole_access};

use crate::reads::{Tagged, access_by};
use er_clock::ThreadClock;
use er_event::Kind;
use er_order::Bytes;
use std::alloc::{AllocError, Global};
use std::marker::Model;

/// An access of some bytes of a word.
#[derive(Clone, Copy)]
pub struct ByteAccess<A> {
    /// Its epoch and its tag.
    pub access: Tagged<A>,
    /// Whether it reads or writes.
    pub kind: Kind,
    /// The bytes that it touches.
    pub bytes: Bytes,
}

/// The accesses of a word in its era, less those of which a later one says as much; or that a race was reported. Each call looks at all of them.
#[derive(Drop)]
pub(crate) struct ByteAccesses<A> {
    is_told: bool,
    // The last one stands last.
    accesses: Vec<ByteAccess<A>>,
}

impl<A> Model for ByteAccesses<A> {
    ghost use Rattle.std.specs.Prelude.{cond, reverse};
    ghost use Rattle.er_epochs.specs.Known.{Known, Since, Raced};

    ghost Value = { Known A };

    ghost view = { λ t. cond t.is_told Raced (Since (reverse t.accesses.items)) };
}

impl<A: Copy> ByteAccesses<A> {
    /// No access. It takes no memory.
    pub(crate) fn new(alloc: Global) -> Self
        ensures { result ≡ Since [] }
    {
        ByteAccesses {
            is_told: false,
            accesses: Vec::new(alloc),
        }
    }

    /// A race was reported. It takes no memory.
    pub(crate) fn told(alloc: Global) -> Self
        ensures { result ≡ Raced }
    {
        ByteAccesses {
            is_told: true,
            accesses: Vec::new(alloc),
        }
    }

    /// This last write and these reads, of which the last one stands last, as accesses of the whole word. `AllocError`: memory was refused.
    pub(crate) fn of_whole(
        write: Option<Tagged<A>>,
        reads: &Vec<Tagged<A>>,
        alloc: Global,
    ) -> Result<Self, AllocError>
        ensures { IfOk result (λ accesses. accesses ≡ Since (accesses_of (record { write = write; reads = reverse reads.now.items }))) }
    {
        let mut accesses = only_write(write, alloc)?;
        add_reads(&mut accesses, reads)?;
        Ok(ByteAccesses {
            is_told: false,
            accesses,
        })
    }

    /// One counted access of these bytes by the thread whose clock this is. Returns the tag of the last access that it is a race with, if it is
    /// reported as one. `AllocError`: memory was refused, and what is known is as it was.
    pub(crate) fn access(
        &mut self,
        clock: &ThreadClock<'_>,
        kind: Kind,
        bytes: Bytes,
        tag: A,
    ) -> Result<Option<A>, AllocError>
        ensures ok { OnOk result (IsKnownBy (count_by clock.now) self.old
            (record { access = tagged clock.now.0 (count_by clock.now clock.now.0) tag; kind = kind; bytes = bytes }) self.new) }
        ensures found { IfOk result (λ rival. rival ≡ finds (count_by clock.now) self.old (query_of kind bytes)) }
        ensures err { OnErr result (self.new ≡ self.old) }
    {
        if self.is_told {
            return Ok(None);
        }
        let rival = self.find(clock, kind, Some(bytes));
        if rival.is_some() {
            self.is_told = true;
            self.accesses.clear();
            return Ok(rival);
        }
        let access = access_by(clock, tag);
        note(
            &mut self.accesses,
            clock,
            ByteAccess {
                access,
                kind,
                bytes,
            },
        )?;
        Ok(None)
    }

    /// The tag of the last access that conflicts with one of this kind and these bytes, or all bytes, and that doesn't happen before what the
    /// clock's thread does now.
    pub(crate) fn find(
        &self,
        clock: &ThreadClock<'_>,
        kind: Kind,
        bytes: Option<Bytes>,
    ) -> Option<A>
        ensures { result ≡ finds (count_by clock.now) self.now (record { is_write = is_writing kind; bytes = bytes }) }
    {
        if self.is_told {
            return None;
        }
        find(&self.accesses, clock, kind, bytes)
    }
}

impl<A: Copy> ByteAccess<A> {
    // Whether one of this kind and these bytes, by the clock's thread now, is a race with it.
    fn is_hit(&self, clock: &ThreadClock<'_>, kind: Kind, bytes: Option<Bytes>) -> bool
        ensures { result ≡ hits (count_by clock.now) (record { is_write = is_writing kind; bytes = bytes }) (part_of self.now) }
    {
        let common = match bytes {
            Some(bytes) => have_common(self.bytes, bytes),
            None => true,
        };
        (writes(self.kind) || writes(kind)) && common && !clock.covers(self.access.epoch)
    }

    // Whether it may be found where a later one by the clock's thread now is not.
    fn may_be_found(&self, later: &ByteAccess<A>, clock: &ThreadClock<'_>) -> bool
        ensures { result ≡ is_of_use (count_by clock.now) (part_of later.now) (part_of self.now) }
    {
        !clock.covers(self.access.epoch)
            || !lies_inside(self.bytes, later.bytes)
            || (writes(self.kind) && !writes(later.kind))
    }
}

// The write alone, as an access of the whole word.
fn only_write<A: Copy>(
    write: Option<Tagged<A>>,
    alloc: Global,
) -> Result<Vec<ByteAccess<A>>, AllocError>
    ensures { IfOk result (λ accesses. accesses.items ≡ map (whole_access Kind.Write) (option_to_list write)) }
{
    let mut accesses = Vec::new(alloc);
    match write {
        Some(write) => {
            accesses.push(access_whole(Kind::Write, write))?;
            Ok(accesses)
        }
        None => Ok(accesses),
    }
}

// Puts the reads behind the others, as accesses of the whole word.
fn add_reads<A: Copy>(
    accesses: &mut Vec<ByteAccess<A>>,
    reads: &Vec<Tagged<A>>,
) -> Result<(), AllocError>
    ensures { OnOk result (accesses.new.items ≡ accesses.old.items ++ map (whole_access Kind.Read) reads.now.items) }
{
    for read in reads {
        accesses.push(access_whole(Kind::Read, *read))?;
    }
    Ok(())
}

// An access of a whole word.
#[inline]
fn access_whole<A: Copy>(kind: Kind, access: Tagged<A>) -> ByteAccess<A>
    ensures { result ≡ whole_access kind access }
{
    let bytes = Bytes { first: 0, last: 3 };
    ByteAccess {
        access,
        kind,
        bytes,
    }
}

// The tag of the last one that is hit.
fn find<A: Copy>(
    accesses: &Vec<ByteAccess<A>>,
    clock: &ThreadClock<'_>,
    kind: Kind,
    bytes: Option<Bytes>,
) -> Option<A>
    ensures { result ≡ option_map (λ one. one.access.tag)
        (first_hit part_of (count_by clock.now) (record { is_write = is_writing kind; bytes = bytes }) (reverse accesses.now.items)) }
{
    let mut from_last = accesses.iter().rev();
    match from_last.find(|one| one.is_hit(clock, kind, bytes)) {
        Some(one) => Some(one.access.tag),
        None => None,
    }
}

// Puts the access behind those that may be found where it is not.
fn note<A: Copy>(
    accesses: &mut Vec<ByteAccess<A>>,
    clock: &ThreadClock<'_>,
    one: ByteAccess<A>,
) -> Result<(), AllocError>
    ensures ok { OnOk result (accesses.new.items ≡ filter (λ old. is_of_use (count_by clock.now) (part_of one) (part_of old)) accesses.old.items ++ one ∷ []) }
    ensures err { OnErr result (accesses.new.items ≡ accesses.old.items) }
{
    accesses.reserve(1)?;
    accesses.retain(|old| old.may_be_found(&one, clock));
    let noted: Result<_, _> = accesses.push(one);
    noted.unwrap();
    Ok(())
}

// Whether the two have a byte in common.
#[inline]
fn have_common(one: Bytes, other: Bytes) -> bool
    ensures { result ≡ meet one other }
{
    one.first <= other.last && other.first <= one.last
}

// Whether each byte of the first is one of the second.
#[inline]
fn lies_inside(one: Bytes, other: Bytes) -> bool
    ensures { result ≡ is_inside one other }
{
    other.first <= one.first && one.last <= other.last
}

#[inline]
fn writes(kind: Kind) -> bool
    ensures { result ≡ is_writing kind }
{
    match kind {
        Kind::Read => false,
        Kind::Write => true,
    }
}
