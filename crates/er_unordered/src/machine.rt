//! The machine: every thread's holdings, the clocks, and what is kept of every word.
ghost use Rattle.std.specs.Prelude.{◌≡◌, ◌<◌, ℕ, nat_eq, List, ◌++◌, ◌∷◌, [], IfOk, IsErrOf, IsOk, IsTrue, Ok, Err, false, None, OnOk, OnErr, Some, cond, is_some, length, true};
ghost use Rattle.std.specs.Option.{option_map};
ghost use Rattle.er_model.specs.Holdings.{refused_by, changed_by, holdings_end};
ghost use Rattle.er_event.specs.declared.steps.Step.{Step as Steps};
ghost use Rattle.er_held.specs.ThreadLocks.{changes_holdings, holding_among};
ghost use Rattle.er_clock.specs.declared.clock.Limit.{Limit as Limits};
ghost use Rattle.er_explain.specs.Racing.{is_race};
ghost use Rattle.er_order.specs.ByBytes.{Touched, answer_by_bytes, unordered_by_bytes};
ghost use Rattle.er_order.specs.Races.{reuse_reply};
ghost use Rattle.er_order.specs.declared.bytes.Bytes.{Bytes as Touching};
ghost use Rattle.er_replay.specs.Wants.{wants_memory};

use er_clock::{Clocks, NoTick};
use er_epochs::OrderWords;
use er_event::{Event, Kind, LockId, Mode, PageRange, Refusal, Reply, Step, ThreadId, Word};
use er_held::Held;
use er_keys::HashKeys;
use er_order::Bytes;
use er_replay::Threads;
use std::alloc::{AllocError, Global};
use std::marker::Model;

/// How many steps are looked at together.
const AHEAD: usize = 16;

/// Each thread's holdings, the clocks of threads, locks and objects, and what happens-before keeps of each word. Each access has a tag, by which a
/// later race names it; whoever wants no names takes `()`, which has no bytes.
#[derive(Drop)]
pub struct OrderMachine<A> {
    holders: Threads,
    clocks: Clocks,
    words: OrderWords<A>,
}

/// What a step is answered.
#[derive(Drop)]
pub struct OrderAnswer<A> {
    /// The reply, or why the step is refused.
    pub reply: Result<Reply, Refusal>,
    /// The tag of the last access that a race is unordered with.
    pub rival: Option<A>,
}

impl<A> Model for OrderMachine<A> {
    ghost use Rattle.er_unordered.specs.Standing.{Ordered};

    ghost Value = { Ordered A };

    ghost view = { λ m. record { holders = m.holders; clocks = m.clocks; words = m.words } };
}

impl<A: Copy> OrderMachine<A> {
    ghost use Rattle.er_unordered.specs.Standing.{Stands, Changes, IsSame, IsBeyondBy, IsBeyondAfter, crowds_after, wants_nothing, holding, answered_by, names_none};

    /// A machine that has taken no step, and finds each word and each thread by these keys. Whoever knows them can make it slow.
    pub fn keyed(alloc: Global, keys: HashKeys) -> Self
        ensures { (tags : ℕ → A) (touched : Touched) → Stands tags touched result [] }
    {
        OrderMachine {
            holders: Threads::new(alloc, keys),
            clocks: Clocks::keyed(alloc, keys),
            words: OrderWords::keyed(alloc, keys),
        }
    }

    /// Takes one step and says what it is answered: a reply, or why it is refused. An access touches these bytes of its word, of which the first
    /// is no greater than the last, and gets the tag.
    ///
    /// # Errors
    /// `Beyond`: the step is beyond a limit of the clocks, as [`Clocks::follow`] says. `OutOfMemory`: memory was refused. The step may be tried
    /// again. A refused step has none of these, nor has an access inside a bracket, a reuse, a show or the end of a bracket.
    pub fn step(&mut self, step: &Step, bytes: Bytes, tag: A) -> Result<OrderAnswer<A>, NoTick>
        ensures answer { (past : List Steps) (tags : ℕ → A) (touched : Touched) → Stands tags touched self.old past → touched (length past) ≡ bytes
            → IfOk result (λ answer. answer.reply ≡ answer_by_bytes touched (past ++ step.now ∷ []) (length past)) }
        ensures goes_on { (past : List Steps) (tags : ℕ → A) (touched : Touched) → Stands tags touched self.old past → tags (length past) ≡ tag → touched (length past) ≡ bytes
            → OnOk result (Stands tags touched self.new (past ++ step.now ∷ [])) }
        ensures err { (past : List Steps) (tags : ℕ → A) (touched : Touched) → Stands tags touched self.old past → OnErr result (Stands tags touched self.new past) }
        ensures limit { (past : List Steps) (tags : ℕ → A) (touched : Touched) → Stands tags touched self.old past
            → (limit : Limits) → IsErrOf result (NoTick.Beyond limit) → IsBeyondAfter past step.now limit }
        ensures room { (past : List Steps) (tags : ℕ → A) (touched : Touched) → Stands tags touched self.old past → IsOk result → crowds_after past step.now ≡ false }

        // A race names the access that it is unordered with, and nothing else names one.
        ensures named { (past : List Steps) (tags : ℕ → A) (touched : Touched) → Stands tags touched self.old past → touched (length past) ≡ bytes
            → IfOk result (λ answer. answer.reply ≡ Ok Reply.Race → answer.rival ≡ option_map tags (unordered_by_bytes touched (past ++ step.now ∷ []) (length past))) }
        ensures names { IfOk result (λ answer. is_some answer.rival ≡ is_race answer.reply) }

        // What the definitions refuse is answered so, whatever room there is.
        ensures refused { (why : Refusal) → refused_by (holding self.old step.now.thread) step.now.event ≡ Some why → result ≡ Ok (record { reply = Err why; rival = None }) }
        ensures free { IsTrue (wants_nothing (holding self.old step.now.thread) step.now.event) → IsOk result }

        // The same by the machine's own holdings, clocks and words.
        ensures answered { IfOk result (λ answer. answer ≡ answered_by self.old step.now bytes) }
        ensures changes { OnOk result (Changes self.old step.now bytes tag self.new) }
        ensures same { OnErr result (IsSame self.old self.new) }
        ensures beyond { (limit : Limits) → IsErrOf result (NoTick.Beyond limit) → IsBeyondBy self.old step.now limit }
    {
        self.take(step.thread, step.event, bytes, tag)
    }

    /// Each few steps reads what is kept of the words that the next few access, so that it comes from memory side by side. `at` is the
    /// place of the step that is answered next. It only saves time, and a caller that leaves it out gets the same answers.
    #[inline(always)]
    pub fn look_ahead(&mut self, steps: &[Step], at: usize)
        ensures { self.new ≡ self.old }
    {
        if at % AHEAD == 0 {
            self.read_ahead(steps, at);
        }
    }

    fn read_ahead(&mut self, steps: &[Step], at: usize)
        ensures { self.new ≡ self.old }
    {
        let end = at.saturating_add(AHEAD).min(steps.len());
        for place in at..end {
            if let Event::Access(_, word, _) = steps[place].event {
                self.words.look_ahead(word);
            }
        }
    }

    /// What a thread holds after the steps so far.
    pub fn held(&self, thread: ThreadId) -> &Held
        ensures { (past : List Steps) (tags : ℕ → A) (touched : Touched) → Stands tags touched self.now past → result.now ≡ holdings_end past thread }
    {
        self.holders.get(thread)
    }

    // An event of this thread. An access and a reuse are never refused.
    fn take(
        &mut self,
        thread: ThreadId,
        event: Event,
        bytes: Bytes,
        tag: A,
    ) -> Result<OrderAnswer<A>, NoTick>
        ensures answered { IfOk result (λ answer. answer ≡ answered_by self.old (record { thread = thread; event = event }) bytes) }
        ensures changes { OnOk result (Changes self.old (record { thread = thread; event = event }) bytes tag self.new) }
        ensures same { OnErr result (IsSame self.old self.new) }
        ensures refused { (why : Refusal) → refused_by (holding self.old thread) event ≡ Some why → result ≡ Ok (record { reply = Err why; rival = None }) }
        ensures free { IsTrue (wants_nothing (holding self.old thread) event) → IsOk result }
        ensures limit { (limit : Limits) → IsErrOf result (NoTick.Beyond limit) → IsBeyondBy self.old (record { thread = thread; event = event }) limit }
    {
        match event {
            Event::Access(kind, word, _) => self.access(thread, kind, word, bytes, tag),
            Event::Reuse(range) => Ok(self.reuse(thread, range)),
            _ => self.take_unless_refused(thread, event),
        }
    }

    // The same, if the event isn't refused.
    fn take_unless_refused(
        &mut self,
        thread: ThreadId,
        event: Event,
    ) -> Result<OrderAnswer<A>, NoTick>
        requires { names_none event ≡ true }
        ensures answered { (bytes : Touching) → IfOk result (λ answer. answer ≡ answered_by self.old (record { thread = thread; event = event }) bytes) }
        ensures changes { (bytes : Touching) (tag : A) → OnOk result (Changes self.old (record { thread = thread; event = event }) bytes tag self.new) }
        ensures same { OnErr result (IsSame self.old self.new) }
        ensures refused { (why : Refusal) → refused_by (holding self.old thread) event ≡ Some why → result ≡ Ok (record { reply = Err why; rival = None }) }
        ensures free { IsTrue (wants_nothing (holding self.old thread) event) → IsOk result }
        ensures limit { (limit : Limits) → IsErrOf result (NoTick.Beyond limit) → IsBeyondBy self.old (record { thread = thread; event = event }) limit }
    {
        if let Some(why) = refusal(&self.holders, thread, &event) {
            return Ok(OrderAnswer {
                reply: Err(why),
                rival: None,
            });
        }
        self.accept(thread, event)?;
        Ok(answer(None, Reply::Done))
    }

    // An accepted event that is neither an access nor a reuse.
    fn accept(&mut self, thread: ThreadId, event: Event) -> Result<(), NoTick>
        requires accepted { refused_by (holding self.old thread) event ≡ None }
        requires names_none { names_none event ≡ true }
        ensures changes { (bytes : Touching) (tag : A) → OnOk result (Changes self.old (record { thread = thread; event = event }) bytes tag self.new) }
        ensures same { OnErr result (IsSame self.old self.new) }
        ensures free { IsTrue (wants_nothing (holding self.old thread) event) → IsOk result }
        ensures limit { (limit : Limits) → IsErrOf result (NoTick.Beyond limit) → IsBeyondBy self.old (record { thread = thread; event = event }) limit }
    {
        match event {
            Event::Acquire(lock, mode) => self.acquire(thread, lock, mode),
            Event::Release(lock, mode) => self.release(thread, lock, mode),
            // A bracket or a level orders nothing.
            Event::IgnoreOn | Event::IgnoreOff | Event::Level(_) => {
                Ok(change(&mut self.holders, thread, event)?)
            }
            // What only orders threads holds nothing.
            Event::Sync(sync) => {
                let event = Event::Sync(sync);
                self.clocks.follow(&Step { thread, event }, true)
            }
            Event::Show(_) => Ok(()),
            Event::Access(..) => Ok(()),
            Event::Reuse(_) => Ok(()),
        }
    }

    // An access, which isn't counted while its thread ignores.
    fn access(
        &mut self,
        thread: ThreadId,
        kind: Kind,
        word: Word,
        bytes: Bytes,
        tag: A,
    ) -> Result<OrderAnswer<A>, NoTick>
        ensures answered { IfOk result (λ answer. answer ≡ answered_by self.old (record { thread = thread; event = Event.Access kind word 0 }) bytes) }
        ensures changes { OnOk result (Changes self.old (record { thread = thread; event = Event.Access kind word 0 }) bytes tag self.new) }
        ensures same { OnErr result (IsSame self.old self.new) }
        ensures free { 0 < (holding self.old thread).depth → IsOk result }
        ensures limit { (limit : Limits) → IsErrOf result (NoTick.Beyond limit) → ⊥ }
    {
        if self.holders.get(thread).ignoring() {
            return Ok(answer(None, Reply::Ignored));
        }
        let clock = self.clocks.clock(thread);
        let found = self.words.access(word, bytes, &clock, kind, tag)?;
        Ok(answer(found, Reply::Quiet))
    }

    // The words of the range begin a new era. Outside a bracket that is a race if one of them is still in use.
    fn reuse(&mut self, thread: ThreadId, range: PageRange) -> OrderAnswer<A>
        ensures answered { (bytes : Touching) → result ≡ answered_by self.old (record { thread = thread; event = Event.Reuse range }) bytes }
        ensures changes { (bytes : Touching) (tag : A) → Changes self.old (record { thread = thread; event = Event.Reuse range }) bytes tag self.new }
    {
        let ignores = self.holders.get(thread).ignoring();
        let clock = self.clocks.clock(thread);
        let found = self.words.reset(range, &clock);
        answer_to_reuse(ignores, found)
    }

    // If the clocks lack room, the lock is given back.
    fn acquire(&mut self, thread: ThreadId, lock: LockId, mode: Mode) -> Result<(), NoTick>
        requires { refused_by (holding self.old thread) (Event.Acquire lock mode) ≡ None }
        ensures changes { (bytes : Touching) (tag : A) → OnOk result (Changes self.old (record { thread = thread; event = Event.Acquire lock mode }) bytes tag self.new) }
        ensures same { OnErr result (IsSame self.old self.new) }
        ensures limit { (limit : Limits) → IsErrOf result (NoTick.Beyond limit) → IsBeyondBy self.old (record { thread = thread; event = Event.Acquire lock mode }) limit }
    {
        // What is held in write mode is held, so what was taken may be given back.
        let _held = self.holders.get(thread);
        change(&mut self.holders, thread, Event::Acquire(lock, mode))?;
        let event = Event::Acquire(lock, mode);
        match self.clocks.follow(&Step { thread, event }, true) {
            Ok(()) => Ok(()),
            Err(why) => {
                let _ = change(&mut self.holders, thread, Event::Release(lock, mode));
                Err(why)
            }
        }
    }

    // The clocks go first, since the lock is given up without memory.
    fn release(&mut self, thread: ThreadId, lock: LockId, mode: Mode) -> Result<(), NoTick>
        requires { refused_by (holding self.old thread) (Event.Release lock mode) ≡ None }
        ensures changes { (bytes : Touching) (tag : A) → OnOk result (Changes self.old (record { thread = thread; event = Event.Release lock mode }) bytes tag self.new) }
        ensures same { OnErr result (IsSame self.old self.new) }
        ensures limit { (limit : Limits) → IsErrOf result (NoTick.Beyond limit) → IsBeyondBy self.old (record { thread = thread; event = Event.Release lock mode }) limit }
    {
        let event = Event::Release(lock, mode);
        self.clocks.follow(&Step { thread, event }, true)?;
        let _ = change(&mut self.holders, thread, Event::Release(lock, mode));
        Ok(())
    }
}

// Why an event of the thread is refused, if it is.
fn refusal(holders: &Threads, thread: ThreadId, event: &Event) -> Option<Refusal>
    ensures { result ≡ refused_by (holding_among holders.now thread) event.now }
{
    holders.get(thread).refusal(*event)
}

// What an accepted event makes of its thread's holdings. After an error nothing has changed.
fn change(holders: &mut Threads, thread: ThreadId, event: Event) -> Result<(), AllocError>
    requires accepted { refused_by (holding_among holders.old thread) event ≡ None }
    requires held { IsTrue (changes_holdings event) }
    ensures ok { OnOk result ((t : ℕ) → holding_among holders.new t ≡ cond (nat_eq thread t) (changed_by (holding_among holders.old thread) event) (holding_among holders.old t)) }
    ensures err { OnErr result ((t : ℕ) → holding_among holders.new t ≡ holding_among holders.old t) }
    ensures free { wants_memory event ≡ false → IsOk result }
{
    holders.change(thread, event).map_err(|_| AllocError)
}

// The answer to a reuse that found the use of a word that this names.
fn answer_to_reuse<A: Copy>(ignores: bool, found: Option<(Word, A)>) -> OrderAnswer<A>
    ensures reply { result.reply ≡ Ok (cond ignores Reply.Done (reuse_reply (option_map (λ (found : ℕ × A). found.0) found))) }
    ensures rival { result.rival ≡ cond ignores None (option_map (λ (found : ℕ × A). found.1) found) }
{
    match found {
        Some((_, rival)) if !ignores => answer(Some(rival), Reply::Done),
        _ => answer(None, Reply::Done),
    }
}

// A race with the access of this tag, or else this reply.
#[inline]
fn answer<A: Copy>(rival: Option<A>, otherwise: Reply) -> OrderAnswer<A>
    ensures { result ≡ record { reply = Ok (cond (is_some rival) Reply.Race otherwise); rival = rival } }
{
    let reply = match rival {
        Some(_) => Reply::Race,
        None => otherwise,
    };
    OrderAnswer {
        reply: Ok(reply),
        rival,
    }
}
