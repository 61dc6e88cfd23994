//! How far a text has come, and which threads it has named that don't act yet.
ghost use Rattle.std.specs.Prelude.{◌≡◌, ℕ, IsTrue, OnOk, Some, []};
ghost use Rattle.er_text.specs.Inner.Parsing.{event_line};
ghost use Rattle.er_lines.specs.Words.{seen_name};
ghost use Rattle.er_text.specs.Inner.Idle.{is_idle, without_idle, with_idle, last_actor, has_run, order_fault, is_known_name, waits_for};

use crate::Put;
use crate::parsing::{Action, ParsedLine};
use crate::verbs::Version;
use er_event::{Step, ThreadId};
use er_lines::TextKind;
use er_trace::Names;
use std::alloc::Global;
use std::marker::Model;

/// What comes next in a text.
#[derive(Clone, Copy, Debug, PartialEq, Eq)]
pub(crate) enum Stage {
    /// The header.
    Front,
    /// Event lines of this version.
    Events(Version),
    /// Nothing: the line `end` is past.
    Ended,
}

/// Threads, by number, that are named in lines before and don't act there: those that were started or joined.
#[derive(Drop)]
pub(crate) struct IdleThreads {
    flags: Vec<bool>,
}

impl Model for IdleThreads {
    ghost use Rattle.std.specs.Prelude.{Bool, List};

    ghost Value = { List Bool };

    ghost view = { λ t. t.flags.items };
}

/// Whether the thread of this name is known, if there is a name.
pub(crate) fn is_known_thread(names: &Names, name: Option<&str>) -> bool
    ensures { result ≡ is_known_name names.now.threads (seen_name name.entry) }
{
    name.is_none_or(|name| names.known_thread(name).is_some())
}

impl IdleThreads {
    /// No thread.
    pub(crate) fn new(alloc: Global) -> IdleThreads
        ensures { result ≡ [] }
    {
        IdleThreads {
            flags: Vec::new(alloc),
        }
    }

    /// Whether there is none.
    pub(crate) fn is_empty(&self) -> bool
        ensures { IsTrue result → self.now ≡ [] }
    {
        self.flags.is_empty()
    }

    fn contains(&self, thread: ThreadId) -> bool
        ensures { result ≡ is_idle self.now thread }
    {
        let place = thread.number() as usize;
        place < self.flags.len() && self.flags[place]
    }

    /// The thread acts.
    pub(crate) fn remove(&mut self, thread: ThreadId)
        ensures { self.new ≡ without_idle self.old thread }
    {
        let place = thread.number() as usize;
        if place < self.flags.len() {
            self.flags[place] = false;
        }
    }

    /// The thread of the last of these steps acts.
    #[inline(always)]
    pub(crate) fn remove_last(&mut self, steps: &[Step])
        ensures { (thread : ℕ) → last_actor steps.now ≡ Some thread → self.new ≡ without_idle self.old thread }
    {
        if self.flags.is_empty() {
            return;
        }
        if let Some(step) = steps.last() {
            self.remove(step.thread);
        }
    }

    fn add(&mut self, thread: ThreadId) -> Put
        ensures { OnOk result (self.new ≡ with_idle self.old thread) }
    {
        let place = thread.number() as usize;
        if place < self.flags.len() {
            self.flags[place] = true;
            return Ok(());
        }
        self.flags.resize(place, false)?;
        self.flags.push(true)?;
        Ok(())
    }

    /// Adds the thread of this name, which has a number, if it was not named before.
    pub(crate) fn add_new(&mut self, names: &Names, name: Option<&str>, is_known: bool) -> Put
        requires { IsTrue (is_known_name names.now.threads (seen_name name)) }
        ensures { OnOk result (self.new ≡ waits_for is_known names.now.threads (seen_name name.entry) self.old) }
    {
        match name {
            Some(name) if !is_known => match names.known_thread(name) {
                Some(thread) => self.add(thread),
                None => Ok(()),
            },
            _ => Ok(()),
        }
    }

    /// Whether the thread of this name acts in a line before.
    fn has_run(&self, names: &Names, name: &str) -> bool
        ensures { result ≡ has_run names.now.threads self.now name.now }
    {
        names
            .known_thread(name)
            .is_some_and(|thread| !self.contains(thread))
    }

    /// What is wrong with a line, by the lines before it.
    pub(crate) fn fault(&self, names: &Names, parsed: &ParsedLine<'_>) -> Option<TextKind>
        ensures { result ≡ order_fault names.now.threads self.now (event_line parsed.now) }
    {
        match parsed.action {
            Action::Start(other) | Action::Join(other) if other == parsed.thread => {
                Some(TextKind::OwnThread)
            }
            Action::Start(other) if self.has_run(names, other) => Some(TextKind::AlreadyRunning),
            _ => None,
        }
    }
}
