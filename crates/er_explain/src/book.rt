//! `Book`, what one pass over a list of steps keeps of a word.
ghost use Rattle.std.specs.Prelude.{◌≡◌, ◌<◌, map, IfOk, OnOk, None, Some, option_copied};
ghost use Rattle.er_explain.specs.Book.{Owned};
ghost use Rattle.er_explain.specs.Books.{begun, gone_on, pair_after, book_accessed};
ghost use Rattle.er_explain.specs.WordBooks.{joining_in};
ghost use Rattle.er_explain.specs.Inner.Packing.{unpacked};

use crate::Made;
use er_event::{Kind, LockId, Lockset, ThreadId};
use std::alloc::Global;
use std::marker::Model;
use std::mem;

/// A counted access, as a book names it.
#[derive(Clone, Copy)]
pub struct Access<A> {
    /// What its caller names it: its place in a list, or its line.
    pub at: A,
    /// The thread.
    pub thread: ThreadId,
    /// Whether it is a read or a write.
    pub kind: Kind,
}

/// A lock of the joining, and the first later access that it doesn't cover, if there is one.
#[derive(Clone, Copy)]
pub struct Pair<A> {
    /// The lock.
    pub lock: LockId,
    /// The access, as it is named.
    pub at: Option<A>,
}

// What is kept of a word that a second thread has joined.
#[derive(Drop)]
struct Parts<A> {
    first: A,
    join: A,
    write: Option<A>,
    pairs: Vec<Pair<A>>,
}

/// A word that a second thread has joined: its first access, the joining, the first write since, and the locks of the joining.
/// It stands apart from its book. So a book of a word that one thread alone has accessed, as most are, is small.
#[derive(Drop)]
pub struct Joint<A> {
    parts: Box<Parts<A>>,
}

impl<A> Model for Joint<A> {
    ghost use Rattle.er_explain.specs.Joined.{Joining};

    ghost Value = { Joining A };

    ghost view = { λ j. record { first = j.parts.value.first; join = j.parts.value.join; write = j.parts.value.write; pairs = j.parts.value.pairs.items } };
}

// What is kept of a word that was accessed since it was last reused. The kind stands before the thread, and both before the name: so they fill the space beside
// the tag.
#[derive(Drop)]
enum Packed<A> {
    // The first access, whose thread alone has accessed the word.
    Alone(Kind, ThreadId, A),
    // A second thread has joined.
    Together(Joint<Access<A>>),
}

/// What is kept of a word that was accessed since it was last reused.
#[derive(Drop)]
pub(crate) struct Book<A> {
    packed: Packed<A>,
}

impl<A> Model for Book<A> {
    ghost use Rattle.er_explain.specs.declared.book.Packed.{Packed};

    ghost Value = { Packed A };

    ghost view = { λ b. b.packed };
}

impl<A: Copy> Joint<A> {
    /// The first access since the word's last reuse.
    pub fn first(&self) -> A
        ensures { result ≡ self.now.first }
    {
        self.parts.first
    }

    /// The access by which a second thread joined.
    pub fn join(&self) -> A
        ensures { result ≡ self.now.join }
    {
        self.parts.join
    }

    /// The first write from the joining on, if there is one.
    pub fn write(&self) -> Option<A>
        ensures { result ≡ self.now.write }
    {
        self.parts.write
    }

    /// The locks of the joining, each with the first access since then that it doesn't cover.
    pub fn pairs(&self) -> &[Pair<A>]
        ensures { result.now ≡ self.now.pairs }
    {
        &self.parts.pairs
    }
}

impl<A: Copy> Joint<Access<A>> {
    // A second thread has joined, under these locks. It takes a spare joining over, if there is one.
    fn begin(
        alloc: Global,
        spare: &mut Vec<Joint<Access<A>>>,
        cover: &Lockset,
        first: Access<A>,
        join: Access<A>,
    ) -> Made<Joint<Access<A>>>
        ensures { IfOk result (λ joint. joint ≡ begun first join join.kind cover.now) }
    {
        let mut joint = match spare.pop() {
            Some(joint) => joint,
            None => {
                let pairs = Vec::new(alloc);
                let parts = Parts {
                    first,
                    join,
                    write: None,
                    pairs,
                };
                Joint {
                    parts: Box::new(alloc, parts)?,
                }
            }
        };
        joint.parts.first = first;
        joint.parts.join = join;
        joint.parts.write = matches!(join.kind, Kind::Write).then_some(join);
        put_locks(&mut joint.parts.pairs, cover.as_slice())?;
        Ok(joint)
    }

    fn go_on(&mut self, cover: &Lockset, access: Access<A>)
        ensures { self.new ≡ gone_on self.old access access.kind cover.now }
    {
        if let (None, Kind::Write) = (self.parts.write, access.kind) {
            self.parts.write = Some(access);
        }
        find_uncovered(&mut self.parts.pairs, cover, access);
    }
}

// Puts a pair for each lock in place of all that are there.
fn put_locks<A: Copy>(pairs: &mut Vec<Pair<A>>, locks: &[LockId]) -> Made<()>
    ensures { OnOk result (pairs.new.items ≡ map (λ l. record { lock = l; at = None }) locks.now) }
{
    pairs.clear();
    for &lock in locks {
        pairs.push(Pair { lock, at: None })?;
    }
    Ok(())
}

fn find_uncovered<A: Copy>(pairs: &mut [Pair<Access<A>>], cover: &Lockset, access: Access<A>)
    ensures { pairs.new ≡ map (pair_after access cover.now) pairs.old }
{
    for i in 0..pairs.len() {
        pairs[i] = pair_after(pairs[i], cover, access);
    }
}

fn pair_after<A: Copy>(pair: Pair<Access<A>>, cover: &Lockset, access: Access<A>) -> Pair<Access<A>>
    ensures { result ≡ pair_after access cover.now pair }
{
    let Pair { lock, at: found } = pair;
    if found.is_some() || cover.contains(lock) {
        return pair;
    }
    let at = Some(access);
    Pair { lock, at }
}

impl<A: Copy> Book<A> {
    /// One access counts.
    pub(crate) fn begin(access: Access<A>) -> Book<A>
        ensures { unpacked result ≡ Owned access.thread access }
    {
        Book {
            packed: Packed::Alone(access.kind, access.thread, access.at),
        }
    }

    /// Goes on by a counted access of the word. A joining may be a spare one.
    #[inline(never)]
    pub(crate) fn access(
        &mut self,
        alloc: Global,
        spare: &mut Vec<Joint<Access<A>>>,
        cover: &Lockset,
        access: Access<A>,
    ) -> Made<()>
        ensures { OnOk result (unpacked self.new ≡ book_accessed (unpacked self.old) access access.thread access.kind cover.now) }
    {
        match &mut self.packed {
            Packed::Alone(kind, owner, at) => {
                if *owner != access.thread {
                    let first = Access {
                        at: *at,
                        thread: *owner,
                        kind: *kind,
                    };
                    let joint = Joint::begin(alloc, spare, cover, first, access)?;
                    drop(mem::replace(&mut self.packed, Packed::Together(joint)));
                }
            }
            Packed::Together(joint) => joint.go_on(cover, access),
        }
        Ok(())
    }

    /// Keeps the joining of a book that nobody needs, if it has one. Without memory for it, it is dropped.
    pub(crate) fn keep_joining(self, spare: &mut Vec<Joint<Access<A>>>) {
        if let Packed::Together(joint) = self.packed {
            let _ = spare.push(joint);
        }
    }
}

impl<A> Book<A> {
    /// The joining, if a second thread has joined.
    pub(crate) fn joining(&self) -> Option<&Joint<Access<A>>>
        ensures { option_copied result ≡ joining_in (unpacked self.now) }
    {
        match &self.packed {
            Packed::Together(joint) => Some(joint),
            Packed::Alone(..) => None,
        }
    }
}

// An access that is named by 8 bytes, as in a report, leaves a book of 16.
const _: () = prove!(size_of::<Book<u64>>() == 16);
