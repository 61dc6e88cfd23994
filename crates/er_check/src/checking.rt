//! The check of an explanation.
ghost use Rattle.std.specs.Prelude.{◌≡◌, ◌<◌, ◌≤◌, ◌↔◌, ℕ, suc, All, length, slice_get, Some, IfOk, IsTrue, ◌==◌, ◌&&◌, not};
ghost use Rattle.er_model.specs.Answers.{reading_of};
ghost use Rattle.er_model.specs.Explanations.{Explains, word_in, word_of, times_listed};
ghost use Rattle.er_model.specs.Following.{marked};
ghost use Rattle.er_model.specs.Words.{era, counts, cover_of, thread_of, writes};
ghost use Rattle.er_check.specs.Claims.{Agrees, IsAccess, NamesAccesses, reused_by, FitsPair, IsLeast, ListsOnce};
ghost use Rattle.er_check.specs.Access.{access_mark};
ghost use Rattle.er_event.specs.Lockset.{has};

use er_event::{Event, Kind, LockId, Lockset, Step, ThreadId, Word};
use er_held::{Held, ThreadLocks};
use er_journal::Explanation;
use std::alloc::{AllocError, Global};

type Made<T> = Result<T, AllocError>;

/// Whether the explanation shows why step `k` of the list, counted from 0, is answered with a race. Its pairs may come in
/// any order. The answer is no if step `k` is no access or past the end of the list. The error is refused memory alone.
pub fn check_explanation(
    alloc: Global,
    steps: &[Step],
    k: u64,
    explanation: &Explanation,
) -> Result<bool, AllocError>
    ensures explains { IfOk result (λ yes. IsTrue yes → Explains steps.now explanation.now k) }
    ensures accepts { Explains steps.now explanation.now k → IfOk result IsTrue }
{
    let Some(word) = word_at(steps, k) else {
        return Ok(false);
    };
    if explanation.latest() != k {
        return Ok(false);
    }
    let start = era_of(steps, k, word);
    if !names_accesses(steps, word, start, k, explanation) {
        return Ok(false);
    }
    let claims = Claims {
        explanation,
        start,
        first_thread: steps[explanation.first as usize].thread,
    };
    all_agree(alloc, steps, k, word, &claims)
}

fn word_at(steps: &[Step], at: u64) -> Option<Word>
    ensures { result ≡ word_of (slice_get steps.now at) }
{
    match steps.get(at as usize)?.event {
        Event::Access(_, word, _) => Some(word),
        _ => None,
    }
}

// Where the era of the word begins that holds step k, found by going back.
fn era_of(steps: &[Step], k: u64, word: Word) -> u64
    requires { k < length steps.now }
    ensures { result ≡ era (reading_of steps.now) word (suc k) }
{
    let mut start = k + 1;
    while start > 0 {
        if is_reuse(steps[start as usize - 1].event, word) {
            return start;
        }
        start -= 1;
    }
    start
}

fn is_reuse(event: Event, word: Word) -> bool
    ensures { result ≡ reused_by event word }
{
    match event {
        Event::Reuse(range) => range.contains(word),
        _ => false,
    }
}

// Whether each position that the explanation names is that of an access of the word's era up to k, and each claim's is where
// its search begins or later.
fn names_accesses(steps: &[Step], word: Word, start: u64, k: u64, explanation: &Explanation) -> bool
    requires { k < length steps.now }
    ensures { IsTrue result ↔ NamesAccesses steps.now word start k explanation.now }
{
    if !is_access(steps, word, start, k, explanation.first)
        || !is_access(steps, word, start, k, explanation.join)
        || !is_access(steps, word, explanation.join, k, explanation.write)
    {
        return false;
    }
    for pair in &explanation.uncovered {
        if !is_access(steps, word, explanation.join + 1, k, pair.at) {
            return false;
        }
    }
    true
}

fn is_access(steps: &[Step], word: Word, start: u64, k: u64, at: u64) -> bool
    ensures { IsTrue result ↔ IsAccess steps.now word start k at }
{
    start <= at && at <= k && word_at(steps, at) == Some(word)
}

fn all_agree(alloc: Global, steps: &[Step], k: u64, word: Word, claims: &Claims) -> Made<bool>
    requires last { k < length steps.now }
    requires named { NamesAccesses steps.now word claims.now.start k claims.now.explanation.now }
    ensures { IfOk result (λ yes. IsTrue yes ↔ ((i : ℕ) → i ≤ k
        → Agrees word claims.now.start claims.now.first_thread claims.now.explanation.now i (reading_of steps.now i))) }
{
    let mut locks = ThreadLocks::new(alloc);
    for at in 0..k + 1 {
        let step = &steps[at as usize];
        if !step_agrees(at, step, word, locks.get(step.thread), claims) {
            return Ok(false);
        }
        locks.follow(alloc, step)?;
    }
    Ok(true)
}

// Whether a step by a thread that holds this agrees with each claim, if it is an access of the word's era.
fn step_agrees(at: u64, step: &Step, word: Word, held: &Held, claims: &Claims) -> bool
    ensures { IsTrue result ↔ (claims.now.start ≤ at → word_in step.now.event ≡ Some word
        → Agrees word claims.now.start claims.now.first_thread claims.now.explanation.now at (marked held.now step.now.thread step.now.event)) }
{
    if at < claims.start {
        return true;
    }
    match step.event {
        Event::Access(kind, accessed, _) if accessed == word => claims.agree(&Access {
            at,
            thread: step.thread,
            kind,
            word,
            held,
        }),
        _ => true,
    }
}

/// An explanation, and what its claims rest on: where the word's era begins, and the thread of the first access.
#[derive(Drop)]
pub(crate) struct Claims<'a> {
    pub(crate) explanation: &'a Explanation,
    pub(crate) start: u64,
    pub(crate) first_thread: ThreadId,
}

impl Claims<'_> {
    /// Whether an access of the word's era agrees with each claim.
    pub(crate) fn agree(&self, access: &Access<'_>) -> bool
        requires { self.now.start ≤ access.now.at }
        ensures { IsTrue result
            ↔ Agrees access.now.word self.now.start self.now.first_thread self.now.explanation.now access.now.at (access_mark access.now) }
    {
        let explanation = self.explanation;
        let by_another = access.counts_by_another(self.first_thread);
        let writes = access.counts_as_write();
        if !is_least(self.start, explanation.first, access.at, access.counts())
            || !is_least(self.start, explanation.join, access.at, by_another)
            || !is_least(explanation.join, explanation.write, access.at, writes)
        {
            return false;
        }
        if access.at == explanation.join {
            return list_once(explanation, access.cover());
        }
        pairs_fit(explanation, access)
    }
}

fn pairs_fit(explanation: &Explanation, access: &Access<'_>) -> bool
    ensures { IsTrue result
        ↔ All (FitsPair (access_mark access.now) access.now.word explanation.now.join access.now.at) explanation.now.uncovered }
{
    if access.at <= explanation.join {
        return true;
    }
    for pair in &explanation.uncovered {
        let uncovered = access.counts_without(pair.lock);
        if !is_least(explanation.join + 1, pair.at, access.at, uncovered) {
            return false;
        }
    }
    true
}

// Whether a position agrees with a claim of which is the least from a start on that passes.
fn is_least(start: u64, named: u64, at: u64, passes: bool) -> bool
    ensures { IsTrue result ↔ IsLeast start named at passes }
{
    at < start || named < at || passes == (at == named)
}

fn list_once(explanation: &Explanation, locks: &Lockset) -> bool
    ensures { IsTrue result ↔ ListsOnce explanation.now.uncovered locks.now }
{
    let locks = locks.as_slice();
    if explanation.uncovered.len() != locks.len() {
        return false;
    }
    for lock in locks {
        if times_listed(explanation, *lock) != 1 {
            return false;
        }
    }
    true
}

fn times_listed(explanation: &Explanation, lock: LockId) -> usize
    ensures { result ≡ times_listed explanation.now.uncovered lock }
{
    let pairs = explanation.uncovered.iter();
    pairs.filter(|pair| pair.lock == lock).count()
}

/// An access of a word, with what its thread holds when it is made.
#[derive(Drop)]
pub(crate) struct Access<'a> {
    pub(crate) at: u64,
    pub(crate) thread: ThreadId,
    pub(crate) kind: Kind,
    pub(crate) word: Word,
    pub(crate) held: &'a Held,
}

impl Access<'_> {
    ghost use Rattle.er_check.specs.Access.{access_mark};

    /// Whether it counts: its thread has no bracket open.
    pub(crate) fn counts(&self) -> bool
        ensures { result ≡ counts (access_mark self.now) self.now.word }
    {
        !self.held.ignoring()
    }

    /// Whether it counts and another thread makes it.
    pub(crate) fn counts_by_another(&self, thread: ThreadId) -> bool
        ensures { result ≡ (counts (access_mark self.now) self.now.word && not (thread == thread_of (access_mark self.now))) }
    {
        self.counts() && thread != self.thread
    }

    pub(crate) fn counts_as_write(&self) -> bool
        ensures { result ≡ (counts (access_mark self.now) self.now.word && writes (access_mark self.now)) }
    {
        self.counts() && matches!(self.kind, Kind::Write)
    }

    /// Whether it counts and the lock does not cover it.
    pub(crate) fn counts_without(&self, lock: LockId) -> bool
        ensures { result ≡ (counts (access_mark self.now) self.now.word && not (has (cover_of (access_mark self.now)) lock)) }
    {
        self.counts() && !self.cover().contains(lock)
    }

    /// The locks that cover it, if it counts.
    pub(crate) fn cover(&self) -> &Lockset
        ensures { IsTrue (counts (access_mark self.now) self.now.word) → result.now ≡ cover_of (access_mark self.now) }
    {
        self.held.cover(self.kind)
    }
}
