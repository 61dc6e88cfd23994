//! One word's step from state to state, with the sets of locks that it needs.
ghost use Rattle.std.specs.Prelude.{◌≡◌, ◌<◌, ◌^◌, length, IsTrue, IsOk, IfOk, IsErrOf};
ghost use Rattle.er_event.specs.Lockset.{meet};
ghost use Rattle.er_model.specs.Table.{advanced, reports};
ghost use Rattle.er_owner.specs.Advancing.{need_of};
ghost use Rattle.er_owner.specs.Numbering.{state_in, IsNumbered, IsNumberOf, IsNeedIn, IsRefined};
ghost use Rattle.er_table.specs.Sets.{KeepsNumbers, set_at};

use crate::Hints;
use er_event::{Kind, LockId, Lockset, NoRoom, ThreadId, WordState};
use er_owner::{Need, NumberedState, Shadow, advance, need};
use er_table::{Grow, KnownIn, Store};
use std::alloc::{AllocError, Global};

/// The word after an access, and whether the access is reported as a race.
pub(crate) fn step<R, S: Grow<R>>(
    rt: &R,
    known: &mut KnownIn<S>,
    covers: &mut Hints,
    shadow: Shadow,
    thread: ThreadId,
    kind: Kind,
    locks: &Lockset,
) -> Result<(Shadow, bool), NoRoom>
    requires { IsNumbered known.old shadow }
    ensures numbered { IfOk result (λ r. IsNumbered known.new r.0) }
    ensures state { IfOk result (λ r. state_in known.new r.0 ≡ advanced (state_in known.old shadow) thread kind locks.now) }
    ensures race { IfOk result (λ r. r.1 ≡ reports (state_in known.old shadow) (advanced (state_in known.old shadow) thread kind locks.now)) }
    ensures kept { KeepsNumbers known.old known.new }
    ensures refusals { ¬ IsErrOf result NoRoom.JournalFull }
    ensures free { need_of shadow thread ≡ Need.Nothing → IsOk result }
{
    let set = refined(rt, known, covers, need(shadow, thread, kind), locks)?;
    Ok(advance(shadow, thread, kind, set))
}

/// Whether an access leaves the word as it is. Then it is no race that is to be reported.
#[inline(always)]
pub(crate) fn is_settled<S: Store>(
    known: &KnownIn<S>,
    shadow: Shadow,
    thread: ThreadId,
    kind: Kind,
    locks: &Lockset,
) -> bool
    requires { IsNumbered known.now shadow }
    ensures { IsTrue result → advanced (state_in known.now shadow) thread kind locks.now ≡ state_in known.now shadow }
{
    match shadow.state() {
        NumberedState::Virgin => false,
        NumberedState::Exclusive(owner) => owner == thread,
        NumberedState::Shared(set) => kind == Kind::Read && covers_all(known, set, locks),
        NumberedState::SharedModified(set) => covers_all(known, set, locks),
    }
}

// Whether all candidates are among these locks.
#[inline(always)]
fn covers_all<S: Store>(known: &KnownIn<S>, candidates: u32, locks: &Lockset) -> bool
    requires { candidates < length known.now }
    ensures { IsTrue result → meet (set_at known.now candidates) locks.now ≡ set_at known.now candidates }
{
    let set = known.set(candidates);
    candidates == 0 || are_among(set, locks.as_slice())
}

// Whether the locks of one list are in another, if both rise.
#[inline(always)]
fn are_among(some: &[LockId], all: &[LockId]) -> bool
    ensures { IsTrue result → meet some.now all.now ≡ some.now }
{
    let mut found = 0;
    for lock in all {
        if found < some.len() && some[found] == *lock {
            found += 1;
        }
    }
    found == some.len()
}

// The number of the set that is needed. The thread's locks go into the table before what they have in common with the candidates.
fn refined<R, S: Grow<R>>(
    rt: &R,
    known: &mut KnownIn<S>,
    covers: &mut Hints,
    need: Need,
    locks: &Lockset,
) -> Result<u32, NoRoom>
    requires { IsNeedIn known.old need }
    ensures refined { IfOk result (λ set. IsRefined known.new need locks.now set) }
    ensures small { IfOk result (λ set. set < 2 ^ 30) }
    ensures kept { KeepsNumbers known.old known.new }
    ensures refusals { ¬ IsErrOf result NoRoom.JournalFull }
    ensures free { need ≡ Need.Nothing → IsOk result }
{
    let set = match need {
        Need::Nothing => return Ok(0),
        Need::Fresh => number_near(rt, known, covers, locks)?,
        Need::Meet(candidates) => {
            let held = number_near(rt, known, covers, locks)?;
            known.intersect(rt, candidates, held)?
        }
    };
    prove!(set < known.count());
    Ok(set)
}

// The number of a thread's locks. The number that was found last for them, or for others with the same key, is tried first: two short lists
// are compared sooner than one is found by its hash.
fn number_near<R, S: Grow<R>>(
    rt: &R,
    known: &mut KnownIn<S>,
    covers: &mut Hints,
    locks: &Lockset,
) -> Result<u32, NoRoom>
    ensures number { IfOk result (λ n. n < length known.new) }
    ensures names { IfOk result (λ n. set_at known.new n ≡ locks.now) }
    ensures stands { IfOk result (λ n. IsNumberOf known.new n locks.now) }
    ensures kept { KeepsNumbers known.old known.new }
    ensures refusals { ¬ IsErrOf result NoRoom.JournalFull }
{
    let key = key_of(locks.as_slice());
    let hint = covers.hint(key);
    if hint < known.count() as usize && known.set(hint as u32) == locks.as_slice() {
        return Ok(hint as u32);
    }
    let number = known.number_of(rt, locks)?;
    covers.note(key, number as usize);
    Ok(number)
}

// A key of these locks. Few other sets of the same trace have it.
fn key_of(locks: &[LockId]) -> u64 {
    match (locks.first(), locks.last()) {
        (Some(first), Some(last)) => {
            u64::from(first.number()) + 8 * u64::from(last.number()) + 64 * (locks.len() as u64 % 8)
        }
        _ => 0,
    }
}

/// The state, with the set for its number.
pub(crate) fn named<S: Store>(
    alloc: Global,
    known: &KnownIn<S>,
    state: NumberedState,
) -> Result<WordState, AllocError>
    requires { IsNumbered known.now state }
    ensures { IfOk result (λ named. named ≡ state_in known.now state) }
{
    let mut candidates = Lockset::new(alloc);
    match state {
        NumberedState::Virgin => Ok(WordState::Virgin),
        NumberedState::Exclusive(thread) => Ok(WordState::Exclusive(thread)),
        NumberedState::Shared(set) => {
            candidates.extend(known.set(set))?;
            Ok(WordState::Shared(candidates))
        }
        NumberedState::SharedModified(set) => {
            candidates.extend(known.set(set))?;
            Ok(WordState::SharedModified(candidates))
        }
    }
}
