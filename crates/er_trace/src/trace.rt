//! `Trace`, steps with their lines, sites and names.
ghost use Rattle.std.specs.Prelude.{◌≡◌, ◌+◌, ◌^◌, ◌<◌, ◌≤◌, ◌++◌, ◌∷◌, ℕ, List, IfSome, All, length, map, IsTrue, IsOk, IsErr, IfOk, OnOk, OnErr, false};
ghost use Rattle.er_trace.specs.Appended.{AreNumbers, BeginAnew, HasAll, renumbered_site, renumbered_step, with_table};
ghost use Rattle.er_trace.specs.Names.{NameTable, IsPlain, is_known, number_of, most_names};
ghost use Rattle.er_trace.specs.Trace.{IsNamed, HasSiteName, no_steps, with_step, with_steps, without_steps, with_thread_name, with_lock_name, with_site_name};

use crate::appending::{NewTable, count_behind};
use crate::{NameKeys, Names};
use er_event::{LockId, Site, Step, ThreadId};
use std::alloc::{AllocError, Global};
use std::marker::Model;
use std::mem;

/// Steps in order, the line of text that each came from, the site that this line names, and the names that they use.
#[derive(Drop)]
pub struct Trace {
    steps: Vec<Step>,
    lines: Vec<u64>,
    sites: Vec<Site>,
    names: Names,
}

impl Model for Trace {
    ghost use Rattle.std.specs.Prelude.{◌≡◌, All, length};
    ghost use Rattle.er_trace.specs.Trace.{Recording, IsNamed, HasSiteName};

    ghost Value = { Recording };

    ghost view = { λ t. record { steps = t.steps.items; lines = t.lines.items; sites = t.sites.items; names = t.names } };

    ghost invariant = { λ t. (length t.lines.items ≡ length t.steps.items) × (length t.sites.items ≡ length t.steps.items) × All (IsNamed t.names) t.steps.items × All (HasSiteName t.names) t.sites.items };
}

impl Trace {
    /// The trace with no steps. Whoever makes a text with many names can make it slow: see [`keyed`](Trace::keyed).
    pub fn new(alloc: Global) -> Self
        ensures { result ≡ no_steps }
    {
        Trace::keyed(alloc, NameKeys::KNOWN)
    }

    /// The trace with no steps, whose names are hashed by these keys.
    pub fn keyed(alloc: Global, keys: NameKeys) -> Self
        ensures { result ≡ no_steps }
    {
        Trace {
            steps: Vec::new(alloc),
            lines: Vec::new(alloc),
            sites: Vec::new(alloc),
            names: Names::keyed(alloc, keys),
        }
    }

    /// The steps, in order.
    pub fn steps(&self) -> &[Step]
        ensures value { result.now ≡ self.now.steps }
        ensures named { All (IsNamed self.now.names) self.now.steps }
    {
        self.steps.as_slice()
    }

    /// The line of text that each step came from, counted from 1 by whoever pushed it.
    pub fn lines(&self) -> &[u64]
        ensures value { result.now ≡ self.now.lines }
        ensures one_per_step { length self.now.lines ≡ length self.now.steps }
    {
        self.lines.as_slice()
    }

    /// The site that the line of each step names, the missing one if it names none. For an access it is the site of the event.
    pub fn sites(&self) -> &[Site]
        ensures value { result.now ≡ self.now.sites }
        ensures one_per_step { length self.now.sites ≡ length self.now.steps }
        ensures named { All (HasSiteName self.now.names) self.now.sites }
    {
        self.sites.as_slice()
    }

    /// The names of all numbers in the steps.
    pub fn names(&self) -> &Names
        ensures { result.now ≡ self.now.names }
    {
        &self.names
    }

    /// The thread whose name stands in front of a space, and what follows that, if the name is short, recent and plain.
    #[inline(always)]
    pub fn leading_thread<'a>(&mut self, bytes: &'a [u8]) -> Option<(ThreadId, &'a [u8])>
        ensures same { self.new ≡ self.old }
        ensures led { IfSome result (λ led. (name : List ℕ) × IsPlain self.old.names.threads name led.0 × (bytes.now ≡ name ++ 32 ∷ led.1.now)) }
    {
        self.names.leading_thread(bytes)
    }

    /// Adds a step, its line and the site that this line names. All numbers have names already. `AllocError`: memory was refused, and the
    /// trace is as it was.
    #[inline(always)]
    pub fn push(&mut self, step: Step, line: u64, site: Site) -> Result<(), AllocError>
        requires step { IsNamed self.old.names step }
        requires site { HasSiteName self.old.names site }
        ensures ok { OnOk result (self.new ≡ with_step self.old step line site) }
        ensures err { OnErr result (self.new ≡ self.old) }
    {
        let Step { thread, event } = step;
        self.steps.reserve(1)?;
        self.lines.reserve(1)?;
        self.sites.reserve(1)?;
        self.steps.push_reserved(Step { thread, event });
        self.lines.push_reserved(line);
        self.sites.push_reserved(site);
        Ok(())
    }

    /// Adds the names of another trace: those that are new come behind, in their order. Returns the numbers here of all of them.
    ///
    /// `AllocError`: memory was refused, or there are 2^30 names of one sort and a new one. Then only some of the names are there.
    pub fn add_names(&mut self, others: &Names) -> Result<NewTable, AllocError>
        ensures names { OnOk result (self.new ≡ record self.old { names = with_table self.old.names others.now }) }
        ensures numbers { IfOk result (λ numbers. AreNumbers numbers others.now self.new.names) }
    {
        self.names.add(others)
    }

    /// Adds these steps, and the line and the site of each. All numbers have names already. `AllocError`: memory was refused, and the trace
    /// is as it was.
    pub fn add_steps(
        &mut self,
        steps: &[Step],
        lines: &[u64],
        sites: &[Site],
    ) -> Result<(), AllocError>
        requires level { length lines.now ≡ length steps.now }
        requires level_sites { length sites.now ≡ length steps.now }
        requires named { All (IsNamed self.old.names) steps.now }
        requires named_sites { All (HasSiteName self.old.names) sites.now }
        ensures ok { OnOk result (self.new ≡ with_steps self.old steps.now lines.now sites.now) }
        ensures err { OnErr result (self.new ≡ self.old) }
    {
        self.steps.reserve(steps.len())?;
        self.lines.reserve(lines.len())?;
        self.sites.extend_from_slice(sites)?;
        let added: Result<(), AllocError> = self.lines.extend_from_slice(lines);
        added.unwrap();
        let added: Result<(), AllocError> = self.steps.extend_from_slice(steps);
        added.unwrap();
        Ok(())
    }

    /// Takes out the steps with their lines and sites, and puts these three lists in their place. All their numbers have names already.
    pub fn swap_steps(&mut self, steps: &mut Vec<Step>, lines: &mut Vec<u64>, sites: &mut Vec<Site>)
        requires level { length lines.old.items ≡ length steps.old.items }
        requires level_sites { length sites.old.items ≡ length steps.old.items }
        requires named { All (IsNamed self.old.names) steps.old.items }
        requires named_sites { All (HasSiteName self.old.names) sites.old.items }
        ensures trace { self.new ≡ with_steps (without_steps self.old) steps.old.items lines.old.items sites.old.items }
        ensures steps { steps.new.items ≡ self.old.steps }
        ensures lines { lines.new.items ≡ self.old.lines }
        ensures sites { sites.new.items ≡ self.old.sites }
        ensures named { All (IsNamed self.old.names) self.old.steps }
        ensures named_sites { All (HasSiteName self.old.names) self.old.sites }
        ensures level { length self.old.lines ≡ length self.old.steps }
        ensures level_sites { length self.old.sites ≡ length self.old.steps }
    {
        mem::swap(&mut self.steps, steps);
        mem::swap(&mut self.lines, lines);
        mem::swap(&mut self.sites, sites);
    }

    /// Takes out the steps with their lines and sites, and keeps the room of these three lists. The steps and sites get the numbers that their
    /// names have in another trace, and the lines are counted from behind so many lines.
    pub fn take_numbered(
        &mut self,
        numbers: &NewTable,
        before: u64,
        steps: &mut Vec<Step>,
        lines: &mut Vec<u64>,
        sites: &mut Vec<Site>,
    )
        requires numbers { (new : NameTable) × AreNumbers numbers.now self.old.names new }
        requires lines { All (λ line. before + line < 2 ^ 64) self.old.lines }
        ensures trace { self.new ≡ without_steps self.old }
        ensures steps { (new : NameTable) → AreNumbers numbers.now self.old.names new → steps.new.items ≡ map (renumbered_step self.old.names new) self.old.steps }
        ensures lines { lines.new.items ≡ map (λ line. before + line) self.old.lines }
        ensures sites { (new : NameTable) → AreNumbers numbers.now self.old.names new → sites.new.items ≡ map (renumbered_site self.old.names.sites new.sites) self.old.sites }
        ensures named { All (IsNamed self.old.names) self.old.steps }
        ensures named_sites { All (HasSiteName self.old.names) self.old.sites }
        ensures level { length self.old.lines ≡ length self.old.steps }
        ensures level_sites { length self.old.sites ≡ length self.old.steps }
    {
        steps.clear();
        lines.clear();
        sites.clear();
        self.swap_steps(steps, lines, sites);
        numbers.number_steps(steps.as_mut_slice());
        numbers.number_sites(sites.as_mut_slice());
        count_behind(before, lines.as_mut_slice());
    }

    /// Forgets the steps, their lines and sites, and keeps the room for as many steps. If those names are few, its own become a copy of them,
    /// with the same numbers, or of the first of them if memory is refused. Otherwise it keeps its names if they are few and have all appeared in
    /// those, and else forgets them. Where they don't stay, names are hashed by these keys from then on.
    pub fn restart(&mut self, others: &Names, alloc: Global, keys: NameKeys)
        ensures empty { self.new ≡ record no_steps { names = self.new.names } }
        ensures begins { BeginAnew others.now self.old.names self.new.names }
        ensures known { HasAll others.now self.new.names }
    {
        self.clear();
        self.names.follow(others, alloc, keys);
    }

    /// Forgets the steps, their lines and their sites. It keeps the names, and the room for as many steps.
    pub fn clear(&mut self)
        ensures { self.new ≡ without_steps self.old }
    {
        self.steps.clear();
        self.lines.clear();
        self.sites.clear();
    }

    /// The thread of this name, which is a new one if the name is new. `AllocError`: memory was refused, or the name is new and there are
    /// 2^30 others. The trace is then as it was.
    pub fn thread(&mut self, name: &str) -> Result<ThreadId, AllocError>
        ensures number { IfOk result (λ thread. thread ≡ number_of self.old.names.threads name.now) }
        ensures ok { OnOk result (self.new ≡ with_thread_name self.old name.now) }
        ensures err { OnErr result (self.new ≡ self.old) }
        ensures known { IsTrue (is_known self.old.names.threads name.now) → IsOk result }
        ensures full { most_names ≤ length self.old.names.threads → is_known self.old.names.threads name.now ≡ false → IsErr result }
    {
        self.names.thread(name)
    }

    /// The lock of this name, which is a new one if the name is new. `AllocError`: memory was refused, or the name is new and there are
    /// 2^30 others. The trace is then as it was.
    pub fn lock(&mut self, name: &str) -> Result<LockId, AllocError>
        ensures number { IfOk result (λ lock. lock ≡ number_of self.old.names.locks name.now) }
        ensures ok { OnOk result (self.new ≡ with_lock_name self.old name.now) }
        ensures err { OnErr result (self.new ≡ self.old) }
        ensures known { IsTrue (is_known self.old.names.locks name.now) → IsOk result }
        ensures full { most_names ≤ length self.old.names.locks → is_known self.old.names.locks name.now ≡ false → IsErr result }
    {
        self.names.lock(name)
    }

    /// The site of this name, which is a new one if the name is new. `AllocError`: memory was refused, or the name is new and there are
    /// 2^30 others. The trace is then as it was.
    pub fn site(&mut self, name: &str) -> Result<Site, AllocError>
        ensures number { IfOk result (λ site. site ≡ number_of self.old.names.sites name.now + 1) }
        ensures ok { OnOk result (self.new ≡ with_site_name self.old name.now) }
        ensures err { OnErr result (self.new ≡ self.old) }
        ensures known { IsTrue (is_known self.old.names.sites name.now) → IsOk result }
        ensures full { most_names ≤ length self.old.names.sites → is_known self.old.names.sites name.now ≡ false → IsErr result }
    {
        self.names.site(name)
    }
}
