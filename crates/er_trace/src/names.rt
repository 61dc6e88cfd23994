//! Numbers for the names of threads, locks and sites.
ghost use Rattle.std.specs.Prelude.{◌≡◌, ◌+◌, ◌-◌, ◌<◌, ◌≤◌, ◌++◌, ◌∷◌, ℕ, List, [], length, drop, map, Some, slice_get, IsTrue, IsOk, IsErr, IfOk, IfSome, IfNone, OnOk, OnErr, true, false};
ghost use Rattle.er_trace.specs.Appended.{AreFirst, AreFirstOf, AreNumbers, BeginAnew, HasAll, with_names, with_table};
ghost use Rattle.er_trace.specs.Inner.Recent.{Knows, IsLed, bytes_of};
ghost use Rattle.er_trace.specs.Inner.Renumbering.{HasMore};
ghost use Rattle.er_trace.specs.Names.{is_known, number_of, with_name, no_names, most_names, is_allowed_name, IsPlain};

use crate::NameKeys;
use crate::appending::{NewNumbers, NewTable};
use crate::list::NameList;
use crate::recent::{Leading, RecentNames, ShortName, are_plain, ending_of};
use er_event::{LockId, Site, ThreadId};
use er_keys::Hints;
use std::alloc::{AllocError, Global};
use std::marker::Model;
use std::mem;

/// Names of one sort, of which one that appeared lately is found without a hash.
#[derive(Drop)]
struct CachedNames {
    list: NameList,
    recent: RecentNames,
    // The number of a long name, by its last bytes. Whoever asks compares the name that stands there.
    hints: Hints,
    leading: Leading,
}

impl Model for CachedNames {
    ghost use Rattle.std.specs.Prelude.{ℕ, List};
    ghost use Rattle.er_trace.specs.Inner.Recent.{AreDistinct, AreRight, LeadsRight};

    ghost Value = { List (List ℕ) };

    ghost view = { λ n. n.list };

    ghost invariant = { λ n. AreRight n.list n.recent × LeadsRight n.list n.leading × AreDistinct n.list };
}

impl CachedNames {
    /// So many names are soon looked up.
    const FEW: usize = 1024;

    fn new(alloc: Global, keys: NameKeys) -> Self
        ensures { result ≡ [] }
    {
        CachedNames {
            list: NameList::new(alloc, keys),
            recent: RecentNames::new(alloc),
            hints: Hints::new(alloc),
            leading: Leading::none(),
        }
    }

    /// The place of a name, which is a new one if the name is new. From then on it is found without a hash.
    fn number(&mut self, name: &str) -> Result<usize, AllocError>
        ensures number { IfOk result (λ n. n ≡ number_of self.old name.now) }
        ensures ok { OnOk result (self.new ≡ with_name self.old name.now) }
        ensures err { OnErr result (self.new ≡ self.old) }
        ensures known { IsTrue (is_known self.old name.now) → IsOk result }
        ensures within { IfOk result (λ n. n < most_names) }
        ensures full { most_names ≤ length self.old → is_known self.old name.now ≡ false → IsErr result }
    {
        if let Some(short) = ShortName::of(name.as_bytes()) {
            if let Some(number) = self.recent.find(short) {
                return Ok(number as usize);
            }
            if are_plain(name.as_bytes()) {
                let number = self.list.number(name)?;
                self.recent.remember(short, number as u32);
                return Ok(number);
            }
        }
        let ending = ending_of(name.as_bytes());
        let hint = self.hints.hint(ending);
        if self.list.is_at(hint, name.as_bytes()) {
            return Ok(hint);
        }
        let number = self.list.number(name)?;
        self.hints.note(ending, number);
        Ok(number)
    }

    /// The number of a name, if it is among the recent short ones and of plain bytes.
    #[inline(always)]
    fn plain(&self, name: ShortName) -> Option<u32>
        requires { (0 < name.len) × (name.len ≤ 16) }
        ensures plain { IfSome result (λ number. IsPlain self.now (bytes_of name) number) }
        ensures within { IfSome result (λ number. number < most_names) }
    {
        self.recent.find(name)
    }

    /// The number of a name that was found lately by its last bytes, if all names are allowed: see `is_allowed_at`.
    #[inline(always)]
    fn allowed_again(&self, name: &[u8], may_be_other: bool) -> Option<u32>
        ensures { IfSome result (λ number. Knows self.now name.now number × (is_allowed_name may_be_other name.now ≡ true)) }
    {
        let hint = self.hints.hint(ending_of(name));
        if !self.list.is_allowed_at(hint, name, may_be_other) {
            return None;
        }
        Some(hint as u32)
    }

    /// The number of the name in front of a space, and how many bytes it has, if it is short, recent and plain.
    #[inline(always)]
    fn leading(&mut self, bytes: &[u8]) -> Option<(u32, usize)>
        ensures same { self.new ≡ self.old }
        ensures led { IfSome result (λ led. IsLed self.old bytes.now led.0 led.1) }
    {
        if let Some(led) = self.leading.find(bytes) {
            return Some(led);
        }
        let short = ShortName::before_space(bytes)?;
        let number = self.plain(short)?;
        self.leading = Leading::of(bytes, number, short.len);
        Some((number, short.len))
    }

    /// The place of a name that has appeared.
    #[inline(always)]
    fn find(&self, name: &str) -> Option<usize>
        ensures some { IfSome result (λ n. (n ≡ number_of self.now name.now) × (is_known self.now name.now ≡ true)) }
        ensures none { IfNone result (is_known self.now name.now ≡ false) }
        ensures within { IfSome result (λ n. n < most_names) }
    {
        if let Some(short) = ShortName::of(name.as_bytes())
            && let Some(number) = self.plain(short)
        {
            return Some(number as usize);
        }
        let hint = self.hints.hint(ending_of(name.as_bytes()));
        if self.list.is_at(hint, name.as_bytes()) {
            return Some(hint);
        }
        self.list.find(name)
    }

    /// Whether they are few.
    fn are_few(&self) -> bool {
        self.list.len() <= CachedNames::FEW
    }

    /// Whether those names begin with these, in the same order.
    fn are_first_of(&self, others: &CachedNames) -> bool
        ensures { IsTrue result → AreFirst others.now self.now }
    {
        for at in 0..self.list.len() {
            if !others.list.is_at(at, self.list.name(at).as_bytes()) {
                return false;
            }
        }
        true
    }

    /// Adds those names that stand behind as many as these, until memory is refused.
    fn add_rest(&mut self, others: &CachedNames)
        ensures { AreFirst others.now self.old → AreFirst others.now self.new }
    {
        for at in self.list.len()..others.list.len() {
            let Ok(_number) = self.number(others.list.name(at)) else {
                return;
            };
        }
    }

    /// Whether those names are few and have all appeared here.
    fn has_few(&self, others: &CachedNames) -> bool
        ensures { IsTrue result → with_names self.now others.now ≡ self.now }
    {
        if !others.are_few() {
            return false;
        }
        for at in 0..others.list.len() {
            let Some(_known) = self.find(others.list.name(at)) else {
                return false;
            };
        }
        true
    }

    /// The same as `number`, and at once if the name stands at this place.
    fn number_near(&mut self, at: usize, name: &str) -> Result<usize, AllocError>
        ensures number { IfOk result (λ n. n ≡ number_of self.old name.now) }
        ensures ok { OnOk result (self.new ≡ with_name self.old name.now) }
        ensures err { OnErr result (self.new ≡ self.old) }
        ensures within { IfOk result (λ n. n < most_names) }
    {
        if self.list.is_at(at, name.as_bytes()) {
            return Ok(at);
        }
        self.number(name)
    }

    /// The numbers here of all those names, by their numbers there. Those of them that are new come behind, in their order.
    fn add(&mut self, others: &CachedNames) -> Result<NewNumbers, AllocError>
        ensures names { OnOk result (self.new ≡ with_names self.old others.now) }
        ensures numbers { IfOk result (λ numbers. numbers ≡ map (number_of self.new) others.now) }
        ensures more { length self.old ≤ length self.new }
    {
        let mut numbers = NewNumbers::new(*self.list.allocator());
        for at in 0..others.list.len() {
            let number = self.number_near(at, others.list.name(at))?;
            numbers.push(number)?;
        }
        Ok(numbers)
    }
}

/// The names of threads, locks and sites, each sort numbered by first appearance. Threads and locks count from 0, sites from 1.
#[derive(Drop)]
pub struct Names {
    threads: CachedNames,
    locks: CachedNames,
    sites: CachedNames,
}

impl Model for Names {
    ghost use Rattle.er_trace.specs.Names.{NameTable};

    ghost Value = { NameTable };

    ghost view = { λ n. record { threads = n.threads; locks = n.locks; sites = n.sites } };
}

impl Names {
    /// No names, of which each will be hashed by these keys.
    pub fn keyed(alloc: Global, keys: NameKeys) -> Self
        ensures { result ≡ no_names }
    {
        Names {
            threads: CachedNames::new(alloc, keys),
            locks: CachedNames::new(alloc, keys),
            sites: CachedNames::new(alloc, keys),
        }
    }

    /// The thread of this name, which is a new one if the name is new. `AllocError`: memory was refused, or the name is new and there are
    /// 2^30 others. The names are then as they were.
    pub fn thread(&mut self, name: &str) -> Result<ThreadId, AllocError>
        ensures number { IfOk result (λ thread. thread ≡ number_of self.old.threads name.now) }
        ensures ok { OnOk result (self.new ≡ record self.old { threads = with_name self.old.threads name.now }) }
        ensures err { OnErr result (self.new ≡ self.old) }
        ensures known { IsTrue (is_known self.old.threads name.now) → IsOk result }
        ensures full { most_names ≤ length self.old.threads → is_known self.old.threads name.now ≡ false → IsErr result }
    {
        let number = self.threads.number(name)?;
        Ok(ThreadId::new(number as u32))
    }

    /// The lock of this name, which is a new one if the name is new. `AllocError`: memory was refused, or the name is new and there are
    /// 2^30 others. The names are then as they were.
    pub fn lock(&mut self, name: &str) -> Result<LockId, AllocError>
        ensures number { IfOk result (λ lock. lock ≡ number_of self.old.locks name.now) }
        ensures ok { OnOk result (self.new ≡ record self.old { locks = with_name self.old.locks name.now }) }
        ensures err { OnErr result (self.new ≡ self.old) }
        ensures known { IsTrue (is_known self.old.locks name.now) → IsOk result }
        ensures full { most_names ≤ length self.old.locks → is_known self.old.locks name.now ≡ false → IsErr result }
    {
        let number = self.locks.number(name)?;
        Ok(LockId::new(number as u32))
    }

    /// The site of this name, which is a new one if the name is new. `AllocError`: memory was refused, or the name is new and there are
    /// 2^30 others. The names are then as they were.
    pub fn site(&mut self, name: &str) -> Result<Site, AllocError>
        ensures number { IfOk result (λ site. site ≡ number_of self.old.sites name.now + 1) }
        ensures ok { OnOk result (self.new ≡ record self.old { sites = with_name self.old.sites name.now }) }
        ensures err { OnErr result (self.new ≡ self.old) }
        ensures known { IsTrue (is_known self.old.sites name.now) → IsOk result }
        ensures full { most_names ≤ length self.old.sites → is_known self.old.sites name.now ≡ false → IsErr result }
    {
        let number = self.sites.number(name)?;
        Ok(Site::new(number as u32 + 1))
    }

    /// The thread of this name, if the name has appeared.
    pub fn known_thread(&self, name: &str) -> Option<ThreadId>
        ensures some { IfSome result (λ thread. (thread ≡ number_of self.now.threads name.now) × (is_known self.now.threads name.now ≡ true)) }
        ensures none { IfNone result (is_known self.now.threads name.now ≡ false) }
    {
        let number = self.threads.find(name)?;
        Some(ThreadId::new(number as u32))
    }

    /// The thread whose name stands in front of a space, and what follows that, if the name is short, recent and plain.
    #[inline(always)]
    pub(crate) fn leading_thread<'a>(&mut self, bytes: &'a [u8]) -> Option<(ThreadId, &'a [u8])>
        ensures same { self.new ≡ self.old }
        ensures led { IfSome result (λ led. (name : List ℕ) × IsPlain self.old.threads name led.0 × (bytes.now ≡ name ++ 32 ∷ led.1.now)) }
    {
        let (number, len) = self.threads.leading(bytes)?;
        Some((ThreadId::new(number), &bytes[len + 1..]))
    }

    /// The lock whose name the last bytes are, if it is short, recent and plain.
    #[inline(always)]
    pub fn last_lock(&self, bytes: &[u8], len: usize) -> Option<LockId>
        ensures { IfSome result (λ lock. IsPlain self.now.locks (drop (length bytes.now - len) bytes.now) lock) }
    {
        let number = self.locks.plain(ShortName::at_end(bytes, len)?)?;
        Some(LockId::new(number))
    }

    /// The site whose name the last bytes are, if it is short, recent and plain.
    #[inline(always)]
    pub fn last_site(&self, bytes: &[u8], len: usize) -> Option<Site>
        ensures some { IfSome result (λ site. 0 < site) }
        ensures plain { IfSome result (λ site. IsPlain self.now.sites (drop (length bytes.now - len) bytes.now) (site - 1)) }
    {
        let number = self.sites.plain(ShortName::at_end(bytes, len)?)?;
        Some(Site::new(number + 1))
    }

    /// The site of this name, if it was found lately and all names of sites are plain, or if they may be others, of bytes from `!` to `~`.
    #[inline(always)]
    pub fn allowed_site(&self, name: &[u8], may_be_other: bool) -> Option<Site>
        ensures number { IfSome result (λ site. site ≡ number_of self.now.sites name.now + 1) }
        ensures known { IfSome result (λ site. is_known self.now.sites name.now ≡ true) }
        ensures allowed { IfSome result (λ site. is_allowed_name may_be_other name.now ≡ true) }
    {
        let number = self.sites.allowed_again(name, may_be_other)?;
        Some(Site::new(number + 1))
    }

    /// If those names are few, these become a copy of them, or of the first of them if memory is refused. Otherwise these stay if they are few
    /// and have all appeared in those, and else they are forgotten. Where they don't stay, names are hashed by these keys from then on.
    pub(crate) fn follow(&mut self, others: &Names, alloc: Global, keys: NameKeys)
        ensures { BeginAnew others.now self.old self.new }
    {
        if others.are_few() {
            if !self.are_first_of(others) {
                drop(mem::replace(self, Names::keyed(alloc, keys)));
            }
            self.add_rest(others);
        } else if !self.are_few_of(others) {
            drop(mem::replace(self, Names::keyed(alloc, keys)));
        }
    }

    /// Whether they are few of each sort.
    fn are_few(&self) -> bool {
        self.threads.are_few() && self.locks.are_few() && self.sites.are_few()
    }

    /// Whether those names of each sort begin with these, in the same order.
    fn are_first_of(&self, others: &Names) -> bool
        ensures { IsTrue result → AreFirstOf others.now self.now }
    {
        self.threads.are_first_of(&others.threads)
            && self.locks.are_first_of(&others.locks)
            && self.sites.are_first_of(&others.sites)
    }

    /// Adds those names of each sort that stand behind as many as these, until memory is refused.
    fn add_rest(&mut self, others: &Names)
        ensures { AreFirstOf others.now self.old → AreFirstOf others.now self.new }
    {
        self.threads.add_rest(&others.threads);
        self.locks.add_rest(&others.locks);
        self.sites.add_rest(&others.sites);
    }

    /// Whether these names are few and have all appeared in those.
    fn are_few_of(&self, others: &Names) -> bool
        ensures { IsTrue result → HasAll others.now self.now }
    {
        others.threads.has_few(&self.threads)
            && others.locks.has_few(&self.locks)
            && others.sites.has_few(&self.sites)
    }

    /// The numbers here of all those names, by their numbers there. Those of them that are new come behind, in their order.
    pub(crate) fn add(&mut self, others: &Names) -> Result<NewTable, AllocError>
        ensures names { OnOk result (self.new ≡ with_table self.old others.now) }
        ensures numbers { IfOk result (λ numbers. AreNumbers numbers others.now self.new) }
        ensures more { HasMore self.old self.new }
    {
        Ok(NewTable {
            threads: self.threads.add(&others.threads)?,
            locks: self.locks.add(&others.locks)?,
            sites: self.sites.add(&others.sites)?,
        })
    }

    /// The name of a thread that was numbered here.
    pub fn thread_name(&self, thread: ThreadId) -> &str
        requires { thread < length self.now.threads }
        ensures { slice_get self.now.threads thread ≡ Some result.now }
    {
        self.threads.list.name(thread.number() as usize)
    }

    /// The name of a lock that was numbered here.
    pub fn lock_name(&self, lock: LockId) -> &str
        requires { lock < length self.now.locks }
        ensures { slice_get self.now.locks lock ≡ Some result.now }
    {
        self.locks.list.name(lock.number() as usize)
    }

    /// The name of a site that was numbered here. The missing site has none.
    pub fn site_name(&self, site: Site) -> &str
        requires some { 0 < site }
        requires known { site ≤ length self.now.sites }
        ensures { slice_get self.now.sites (site - 1) ≡ Some result.now }
    {
        self.sites.list.name(site.number() as usize - 1)
    }
}

/// A name that was given a number is known from then on and keeps its number, whatever names come later, and no other name has it:
/// equal names alone have equal numbers.
pub fn equal_names_alone_share_a_number()
    ensures given { (names : List (List ℕ)) (name : List ℕ) → IsTrue (is_known (with_name names name) name) }
    ensures again { (names : List (List ℕ)) (name : List ℕ) → number_of (with_name names name) name ≡ number_of names name }
    ensures kept { (names : List (List ℕ)) (name later : List ℕ) → IsTrue (is_known names name) → number_of (with_name names later) name ≡ number_of names name }
    ensures still_known { (names : List (List ℕ)) (name later : List ℕ) → IsTrue (is_known names name) → IsTrue (is_known (with_name names later) name) }
    ensures alone { (names : List (List ℕ)) (name other : List ℕ) → IsTrue (is_known names name) → number_of names other ≡ number_of names name → other ≡ name }
{}
