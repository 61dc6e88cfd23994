//! Counts by lock: how many threads hold each lock. A lock past the end of a list has none. Locks are numbered by first appearance, so a list has
//! few gaps.
ghost use Rattle.std.specs.Prelude.{◌≡◌, ◌+◌, ◌-◌, ◌==◌, ℕ, cond, slice_index, OnOk};

use er_event::LockId;
use std::alloc::AllocError;

/// The lock's count.
pub(crate) fn count_of(counts: &[u32], lock: LockId) -> u32
    ensures { result ≡ slice_index counts.now lock }
{
    let count = counts.get(lock.number() as usize);
    count.copied().unwrap_or(0)
}

/// One more. A count that can't be kept is reported as a want of memory.
pub(crate) fn add(counts: &mut Vec<u32>, lock: LockId) -> Result<(), AllocError>
    ensures { OnOk result ((l : ℕ) → slice_index counts.new.items l ≡ cond (lock == l) (slice_index counts.old.items l + 1) (slice_index counts.old.items l)) }
{
    let place = lock.number() as usize;
    if place >= counts.len() {
        counts.resize(place, 0)?;
        counts.push(1)?;
        return Ok(());
    }
    counts[place] = counts[place].checked_add(1).ok_or(AllocError)?;
    Ok(())
}

/// One less, if there is one.
pub(crate) fn remove(counts: &mut [u32], lock: LockId)
    ensures { (l : ℕ) → slice_index counts.new l ≡ cond (lock == l) (slice_index counts.old l - 1) (slice_index counts.old l) }
{
    let place = lock.number() as usize;
    if place < counts.len() {
        counts[place] = counts[place].saturating_sub(1);
    }
}
