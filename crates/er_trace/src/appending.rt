//! Numbers of one trace's names in another, and its steps with these numbers.
ghost use Rattle.std.specs.Prelude.{◌≡◌, ◌+◌, ◌-◌, ◌<◌, ◌≤◌, ◌^◌, ◌++◌, ℕ, [], ◌∷◌, All, get_or, length, map, IsTrue, OnOk, OnErr};
ghost use Rattle.er_trace.specs.Appended.{AreNumbers, renumbered_order, renumbered_event, renumbered_site, renumbered_step};
ghost use Rattle.er_trace.specs.Inner.Renumbering.{new_site};
ghost use Rattle.er_trace.specs.Names.{NameTable, AreSame, most_names};
ghost use Rattle.er_trace.specs.Trace.{HasOrderNames, HasNames, IsNamed, HasSiteName};

use er_event::{Event, LockId, Site, Step, Sync, ThreadId};
use std::alloc::{AllocError, Global};
use std::marker::Model;

/// The new number of each name of one sort, by its old one.
#[derive(Drop)]
pub struct NewNumbers {
    numbers: Vec<u32>,
    // Whether each number is known to be the old one.
    are_same: bool,
}

impl Model for NewNumbers {
    ghost use Rattle.std.specs.Prelude.{ℕ, ◌<◌, List, All, IsTrue};
    ghost use Rattle.er_trace.specs.Names.{AreSame, most_names};

    ghost Value = { List ℕ };

    ghost view = { λ n. n.numbers.items };

    ghost invariant = { λ n. All (λ number. number < most_names) n.numbers.items × (IsTrue n.are_same → AreSame n.numbers.items) };
}

impl NewNumbers {
    pub(crate) fn new(alloc: Global) -> Self
        ensures { result ≡ [] }
    {
        NewNumbers {
            numbers: Vec::new(alloc),
            are_same: true,
        }
    }

    /// Notes the number of the next name.
    pub(crate) fn push(&mut self, number: usize) -> Result<(), AllocError>
        requires { number < most_names }
        ensures ok { OnOk result (self.new ≡ self.old ++ number ∷ []) }
        ensures err { OnErr result (self.new ≡ self.old) }
    {
        let is_same = number == self.numbers.len();
        self.numbers.push(number as u32)?;
        self.are_same = self.are_same && is_same;
        Ok(())
    }

    /// Whether each new number is known to be the old one.
    fn are_same(&self) -> bool
        ensures { IsTrue result → AreSame self.now }
    {
        self.are_same
    }

    /// The new number of this one.
    #[inline(always)]
    fn get(&self, number: u32) -> u32
        requires { number < length self.now }
        ensures is { result ≡ get_or self.now number 0 }
        ensures small { result < most_names }
    {
        self.numbers[number as usize]
    }
}

/// The numbers that the names of one trace have in another.
#[derive(Drop)]
pub struct NewTable {
    /// Those of threads.
    pub threads: NewNumbers,
    /// Those of locks.
    pub locks: NewNumbers,
    /// Those of sites, counted from 0.
    pub sites: NewNumbers,
}

impl NewTable {
    /// Those of no names.
    pub fn none(alloc: Global) -> NewTable {
        NewTable {
            threads: NewNumbers::new(alloc),
            locks: NewNumbers::new(alloc),
            sites: NewNumbers::new(alloc),
        }
    }

    /// Whether each name is known to have its old number, so that no step has to be numbered.
    pub fn are_same(&self) -> bool
        ensures { IsTrue result → AreSame self.now.threads × AreSame self.now.locks × AreSame self.now.sites }
    {
        self.threads.are_same() && self.locks.are_same() && self.sites.are_same()
    }

    /// Gives each of these steps its new numbers.
    pub(crate) fn number_steps(&self, steps: &mut [Step])
        requires { (old : NameTable) × (new : NameTable) × AreNumbers self.now old new × All (IsNamed old) steps.old }
        ensures { (old new : NameTable) → AreNumbers self.now old new → All (IsNamed old) steps.old → steps.new ≡ map (renumbered_step old new) steps.old }
    {
        if self.are_same() {
            return;
        }
        for at in 0..steps.len() {
            steps[at] = self.step(steps[at]);
        }
    }

    /// Gives each of these sites its new number.
    pub(crate) fn number_sites(&self, sites: &mut [Site])
        requires { (old : NameTable) × (new : NameTable) × AreNumbers self.now old new × All (HasSiteName old) sites.old }
        ensures { (old new : NameTable) → AreNumbers self.now old new → All (HasSiteName old) sites.old → sites.new ≡ map (renumbered_site old.sites new.sites) sites.old }
    {
        if self.are_same() {
            return;
        }
        for at in 0..sites.len() {
            sites[at] = self.site(sites[at]);
        }
    }

    /// The step with the new numbers.
    #[inline(always)]
    pub(crate) fn step(&self, step: Step) -> Step
        requires { (old : NameTable) × (new : NameTable) × AreNumbers self.now old new × IsNamed old step }
        ensures { (old new : NameTable) → AreNumbers self.now old new → IsNamed old step → result ≡ renumbered_step old new step }
    {
        let Step { thread, event } = step;
        Step {
            thread: self.thread(thread),
            event: self.event(event),
        }
    }

    #[inline(always)]
    fn event(&self, event: Event) -> Event
        requires { (old : NameTable) × (new : NameTable) × AreNumbers self.now old new × HasNames old event }
        ensures { (old new : NameTable) → AreNumbers self.now old new → HasNames old event → result ≡ renumbered_event old new event }
    {
        match event {
            Event::Acquire(lock, mode) => Event::Acquire(self.lock(lock), mode),
            Event::Release(lock, mode) => Event::Release(self.lock(lock), mode),
            Event::Access(kind, word, site) => Event::Access(kind, word, self.site(site)),
            Event::Reuse(range) => Event::Reuse(range),
            Event::IgnoreOn => Event::IgnoreOn,
            Event::IgnoreOff => Event::IgnoreOff,
            Event::Show(word) => Event::Show(word),
            Event::Level(level) => Event::Level(level),
            Event::Sync(sync) => Event::Sync(self.order(sync)),
        }
    }

    fn order(&self, sync: Sync) -> Sync
        requires { (old : NameTable) × (new : NameTable) × AreNumbers self.now old new × HasOrderNames old sync }
        ensures { (old new : NameTable) → AreNumbers self.now old new → HasOrderNames old sync → result ≡ renumbered_order old new sync }
    {
        match sync {
            Sync::Start(thread) => Sync::Start(self.thread(thread)),
            Sync::Join(thread) => Sync::Join(self.thread(thread)),
            Sync::Signal(object) => Sync::Signal(self.lock(object)),
            Sync::Await(object) => Sync::Await(self.lock(object)),
        }
    }

    #[inline(always)]
    fn thread(&self, thread: ThreadId) -> ThreadId
        requires { thread < length self.now.threads }
        ensures { result ≡ get_or self.now.threads thread 0 }
    {
        ThreadId::new(self.threads.get(thread.number()))
    }

    #[inline(always)]
    fn lock(&self, lock: LockId) -> LockId
        requires { lock < length self.now.locks }
        ensures { result ≡ get_or self.now.locks lock 0 }
    {
        LockId::new(self.locks.get(lock.number()))
    }

    #[inline(always)]
    fn site(&self, site: Site) -> Site
        requires { site ≤ length self.now.sites }
        ensures { result ≡ new_site self.now.sites site }
    {
        match site.number() {
            0 => site,
            number => Site::new(self.sites.get(number - 1) + 1),
        }
    }
}

/// Counts each of these lines from behind so many lines.
pub(crate) fn count_behind(before: u64, lines: &mut [u64])
    requires { All (λ line. before + line < 2 ^ 64) lines.old }
    ensures { lines.new ≡ map (λ line. before + line) lines.old }
{
    for at in 0..lines.len() {
        lines[at] = before + lines[at];
    }
}
