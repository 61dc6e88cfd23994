//! `Held`, what one thread holds.
ghost use Rattle.std.specs.Prelude.{◌≡◌, ◌+◌, ◌-◌, ◌<◌, ◌≤◌, ◌↔◌, ℕ, false, is_ok, IsTrue, IsFalse, IsOk, IfOk, IfErr, IsOkUnless, OnOk, OnErr, insert, length, slice_index, None, Some};
ghost use Rattle.er_event.specs.Lockset.{has, level_locks, is_level_lock, with_lock};
ghost use Rattle.er_model.specs.Following.{locks_for};
ghost use Rattle.er_model.specs.Holdings.{acquired_among, refused_by, changed_by, changed_unless};
ghost use Rattle.er_held.specs.Held.{nothing_held, takes_memory};

use er_event::{Event, Kind, Level, LockId, Lockset, Mode, Refusal};
use std::alloc::{AllocError, Global};
use std::marker::Model;

/// The locks that one thread holds, each in a mode, its interrupt level, and how many ignore brackets it has open, which may nest.
#[derive(Drop)]
pub struct Held {
    any_mode: Lockset,
    // The locks that are held in write mode, if these are kept apart. Otherwise all are held in write mode, as in most programs.
    write_mode: Lockset,
    is_apart: bool,
    level: Level,
    depth: u8,
}

impl Model for Held {
    ghost use Rattle.std.specs.Prelude.{cond};
    ghost use Rattle.er_model.specs.Holdings.{Holdings};
    ghost use Rattle.er_held.specs.Inner.Holding.{IsHolding};

    ghost Value = { Holdings };

    ghost view = { λ h. record { held = h.any_mode; write_held = cond h.is_apart h.write_mode h.any_mode; level = h.level; depth = h.depth } };

    ghost invariant = { λ h. IsHolding h.any_mode (cond h.is_apart h.write_mode h.any_mode) h.level };
}

impl Held {
    /// How many locks a thread may have acquired at once. The locks of its level come on top.
    pub const MOST_LOCKS: usize = 64;

    /// How many ignore brackets a thread may have open.
    pub const MOST_BRACKETS: u8 = 255;

    /// No lock, level 0 and no bracket.
    pub fn new(alloc: Global) -> Self
        ensures { result ≡ nothing_held }
    {
        Held {
            any_mode: Lockset::new(alloc),
            write_mode: Lockset::new(alloc),
            is_apart: false,
            level: Level::default(),
            depth: 0,
        }
    }

    /// The locks that are held in any mode, which protect a read.
    pub fn held(&self) -> &Lockset
        ensures locks { result.now ≡ self.now.held }
        ensures limit { length self.now.held ≤ 95 }
        ensures write { (l : ℕ) → IsTrue (has self.now.write_held l) → IsTrue (has self.now.held l) }
    {
        &self.any_mode
    }

    /// The locks that are held in write mode, which protect a write.
    pub fn write_held(&self) -> &Lockset
        ensures { result.now ≡ self.now.write_held }
    {
        self.cover(Kind::Write)
    }

    /// The locks that cover an access of this kind: those that are held in any mode for a read, and those in write mode for a write.
    // Mostly both are the same list, and then nothing asks for the kind, which is hard to foretell.
    #[inline(always)]
    pub fn cover(&self, kind: Kind) -> &Lockset
        ensures { result.now ≡ locks_for self.now kind }
    {
        if self.is_apart && kind == Kind::Write {
            &self.write_mode
        } else {
            &self.any_mode
        }
    }

    /// The interrupt level.
    pub fn level(&self) -> Level
        ensures { result ≡ self.now.level }
    {
        self.level
    }

    /// How many ignore brackets are open.
    pub fn depth(&self) -> u8
        ensures value { result ≡ self.now.depth }
        ensures limit { self.now.depth ≤ 255 }
    {
        self.depth
    }

    /// Whether an ignore bracket is open.
    pub fn ignoring(&self) -> bool
        ensures { IsTrue result ↔ (0 < self.now.depth) }
    {
        self.depth > 0
    }

    /// Takes a lock that is held in neither mode.
    pub fn acquire(&mut self, lock: LockId, mode: Mode) -> Result<(), Refusal>
        ensures refused { (why : Refusal) → refused_by self.old (Event.Acquire lock mode) ≡ Some why → result ≡ Err why }
        ensures accepted { OnOk result (refused_by self.old (Event.Acquire lock mode) ≡ None) }
        ensures ok { OnOk result (self.new ≡ changed_by self.old (Event.Acquire lock mode)) }
        ensures err { OnErr result (self.new ≡ self.old) }

        // An accepted acquire can only want memory, and that past seven locks.
        ensures memory { refused_by self.old (Event.Acquire lock mode) ≡ None → IsOkUnless result Refusal.OutOfMemory }
        ensures inline { refused_by self.old (Event.Acquire lock mode) ≡ None → length self.old.held < 8 → IsOk result }
    {
        let place = self.place_to_acquire(lock, mode)?;
        Ok(match mode {
            Mode::Read => self.add_read(place, lock)?,
            Mode::Write => self.add_write(place, lock)?,
        })
    }

    // Where a lock goes that is acquired, or why that is refused: in either mode the same.
    #[inline(always)]
    fn place_to_acquire(&self, lock: LockId, _mode: Mode) -> Result<usize, Refusal>
        ensures refused { IfErr result (λ why. refused_by self.now (Event.Acquire lock _mode) ≡ Some why) }
        ensures accepted { OnOk result (refused_by self.now (Event.Acquire lock _mode) ≡ None) }
        ensures plain { OnOk result (IsFalse (is_level_lock lock)) }
        ensures free { OnOk result (IsFalse (has self.now.held lock)) }
        ensures room { OnOk result (length (acquired_among self.now.held) < 64) }
        ensures place { IfOk result (λ place. (place ≤ length self.now.held) × (insert self.now.held place lock ≡ with_lock lock self.now.held)) }
    {
        if lock.is_level_lock() {
            return Err(Refusal::LevelLock);
        }
        match place_of(&self.any_mode, lock) {
            Ok(_) => Err(Refusal::AlreadyHeld),
            Err(_) if self.acquired() >= Held::MOST_LOCKS => Err(Refusal::HeldFull),
            Err(place) => Ok(place),
        }
    }

    /// How many locks were acquired and are held: the locks of the level don't count.
    pub fn acquired(&self) -> usize
        ensures count { result ≡ length (acquired_among self.now.held) }
        ensures limit { result ≤ 64 }
    {
        self.any_mode.len() - usize::from(self.level.number())
    }

    fn add_read(&mut self, place: usize, lock: LockId) -> Result<(), AllocError>
        requires place { (place ≤ length self.old.held) × (insert self.old.held place lock ≡ with_lock lock self.old.held) }
        requires plain { IsFalse (is_level_lock lock) }
        requires room { length (acquired_among self.old.held) < 64 }
        ensures ok { OnOk result (self.new ≡ changed_by self.old (Event.Acquire lock Mode.Read)) }
        ensures err { OnErr result (self.new ≡ self.old) }
        ensures inline { length self.old.held < 8 → IsOk result }
    {
        if !self.is_apart {
            self.write_mode = self.any_mode.copy()?;
            self.is_apart = true;
        }
        self.any_mode.insert_at(place, lock)?;
        Ok(())
    }

    fn add_write(&mut self, place: usize, lock: LockId) -> Result<(), AllocError>
        requires place { (place ≤ length self.old.held) × (insert self.old.held place lock ≡ with_lock lock self.old.held) }
        requires plain { IsFalse (is_level_lock lock) }
        requires free { IsFalse (has self.old.held lock) }
        requires room { length (acquired_among self.old.held) < 64 }
        ensures ok { OnOk result (self.new ≡ changed_by self.old (Event.Acquire lock Mode.Write)) }
        ensures err { OnErr result (self.new ≡ self.old) }
        ensures inline { length self.old.held < 8 → IsOk result }
    {
        self.any_mode.insert_at(place, lock)?;
        if !self.is_apart {
            return Ok(());
        }
        match self.write_mode.insert(lock) {
            Ok(()) => Ok(()),
            Err(refused) => {
                self.any_mode.remove(lock);
                Err(refused)
            }
        }
    }

    /// Gives up a lock that is held in this mode. It takes no memory.
    pub fn release(&mut self, lock: LockId, mode: Mode) -> Result<(), Refusal>
        ensures refused { (why : Refusal) → refused_by self.old (Event.Release lock mode) ≡ Some why → result ≡ Err why }
        ensures accepted { OnOk result (refused_by self.old (Event.Release lock mode) ≡ None) }
        ensures free { refused_by self.old (Event.Release lock mode) ≡ None → IsOk result }
        ensures ok { OnOk result (self.new ≡ changed_by self.old (Event.Release lock mode)) }
        ensures err { OnErr result (self.new ≡ self.old) }
    {
        let place = self.place_to_release(lock, mode)?;
        self.remove(place, lock);
        Ok(())
    }

    // Where a lock stands that is released in this mode, or why that is refused.
    #[inline(always)]
    fn place_to_release(&self, lock: LockId, mode: Mode) -> Result<usize, Refusal>
        ensures refused { IfErr result (λ why. refused_by self.now (Event.Release lock mode) ≡ Some why) }
        ensures accepted { OnOk result (refused_by self.now (Event.Release lock mode) ≡ None) }
        ensures plain { OnOk result (IsFalse (is_level_lock lock)) }
        ensures place { IfOk result (λ place. (place < length self.now.held) × (slice_index self.now.held place ≡ lock)) }
    {
        if lock.is_level_lock() {
            return Err(Refusal::LevelLock);
        }
        let Ok(place) = place_of(&self.any_mode, lock) else {
            return Err(Refusal::NotHeld);
        };
        let is_written = !self.is_apart || place_of(&self.write_mode, lock).is_ok();
        match (is_written, mode) {
            (true, Mode::Write) | (false, Mode::Read) => Ok(place),
            (true, Mode::Read) | (false, Mode::Write) => Err(Refusal::WrongMode),
        }
    }

    fn remove(&mut self, place: usize, lock: LockId)
        requires plain { IsFalse (is_level_lock lock) }
        requires place { (place < length self.old.held) × (slice_index self.old.held place ≡ lock) }
        ensures { self.new ≡ changed_by self.old (Event.Release lock Mode.Read) }
    {
        self.any_mode.remove_at(place);
        if self.is_apart {
            self.write_mode.remove(lock);
            self.is_apart = self.write_mode.len() < self.any_mode.len();
        }
    }

    /// Opens an ignore bracket. It takes no memory.
    pub fn ignore_on(&mut self) -> Result<(), Refusal>
        ensures refused { (why : Refusal) → refused_by self.old Event.IgnoreOn ≡ Some why → result ≡ Err why }
        ensures accepted { OnOk result (refused_by self.old Event.IgnoreOn ≡ None) }
        ensures free { refused_by self.old Event.IgnoreOn ≡ None → IsOk result }
        ensures ok { OnOk result (self.new ≡ changed_by self.old Event.IgnoreOn) }
        ensures err { OnErr result (self.new ≡ self.old) }
    {
        if self.depth == Held::MOST_BRACKETS {
            return Err(Refusal::IgnoreTooDeep);
        }
        self.depth += 1;
        Ok(())
    }

    /// Closes the innermost ignore bracket. It takes no memory.
    pub fn ignore_off(&mut self) -> Result<(), Refusal>
        ensures refused { (why : Refusal) → refused_by self.old Event.IgnoreOff ≡ Some why → result ≡ Err why }
        ensures accepted { OnOk result (refused_by self.old Event.IgnoreOff ≡ None) }
        ensures free { refused_by self.old Event.IgnoreOff ≡ None → IsOk result }
        ensures ok { OnOk result (self.new ≡ changed_by self.old Event.IgnoreOff) }
        ensures err { OnErr result (self.new ≡ self.old) }
    {
        if self.depth == 0 {
            return Err(Refusal::IgnoreNotOn);
        }
        self.depth -= 1;
        Ok(())
    }

    /// Goes to an interrupt level, whose locks and those of the levels below it are then held in write mode. A level that is no
    /// higher takes no memory.
    pub fn set_level(&mut self, level: Level) -> Result<(), Refusal>
        ensures ok { OnOk result (self.new ≡ changed_by self.old (Event.Level level)) }
        ensures err { OnErr result (self.new ≡ self.old) }
        ensures memory { IsOkUnless result Refusal.OutOfMemory }
        ensures free { level ≤ self.old.level → IsOk result }
    {
        if level.number() <= self.level.number() {
            self.lower_level(level);
        } else {
            self.raise_level(level)?;
        }
        Ok(())
    }

    /// Why an event is refused to a thread that holds this, if it is.
    pub fn refusal(&self, event: Event) -> Option<Refusal>
        ensures { result ≡ refused_by self.now event }
    {
        match event {
            Event::Acquire(lock, mode) => self.place_to_acquire(lock, mode).err(),
            Event::Release(lock, mode) => self.place_to_release(lock, mode).err(),
            Event::IgnoreOn if self.depth == Held::MOST_BRACKETS => Some(Refusal::IgnoreTooDeep),
            Event::IgnoreOff if self.depth == 0 => Some(Refusal::IgnoreNotOn),
            _ => None,
        }
    }

    /// Makes the change of one event, or refuses it. An access, a reuse, a show and an order event change nothing and are never refused.
    #[inline(always)]
    pub fn change(&mut self, event: Event) -> Result<(), Refusal>
        ensures refused { (why : Refusal) → refused_by self.old event ≡ Some why → result ≡ Err why }
        ensures accepted { OnOk result (refused_by self.old event ≡ None) }
        ensures ok { OnOk result (self.new ≡ changed_by self.old event) }
        ensures err { OnErr result (self.new ≡ self.old) }

        // Only a new lock or a higher level may want memory.
        ensures memory { refused_by self.old event ≡ None → IsOkUnless result Refusal.OutOfMemory }
        ensures free { refused_by self.old event ≡ None → takes_memory event ≡ false → IsOk result }
    {
        match event {
            Event::Acquire(lock, mode) => self.acquire(lock, mode),
            Event::Release(lock, mode) => self.release(lock, mode),
            Event::IgnoreOn => self.ignore_on(),
            Event::IgnoreOff => self.ignore_off(),
            Event::Level(level) => self.set_level(level),
            Event::Access(..) | Event::Reuse(_) | Event::Show(_) | Event::Sync(_) => Ok(()),
        }
    }

    /// Makes the change of one event, unless the definitions refuse it, and says why they do.
    pub fn follow(&mut self, event: Event) -> Result<Option<Refusal>, AllocError>
        ensures refused { IfOk result (λ refused. refused ≡ refused_by self.old event) }
        ensures ok { OnOk result (self.new ≡ changed_unless (refused_by self.old event) self.old event) }
        ensures err { OnErr result (self.new ≡ self.old) }
    {
        match self.change(event) {
            Ok(()) => Ok(None),
            Err(Refusal::OutOfMemory) => Err(AllocError),
            Err(why) => Ok(Some(why)),
        }
    }

    fn lower_level(&mut self, level: Level)
        requires { level ≤ self.old.level }
        ensures { self.new ≡ changed_by self.old (Event.Level level) }
    {
        let fewer = usize::from(self.level.number() - level.number());
        self.any_mode.truncate(self.any_mode.len() - fewer);
        if self.is_apart {
            self.write_mode.truncate(self.write_mode.len() - fewer);
        }
        self.level = level;
    }

    fn raise_level(&mut self, level: Level) -> Result<(), AllocError>
        requires { self.old.level ≤ level }
        ensures ok { OnOk result (self.new ≡ changed_by self.old (Event.Level level)) }
        ensures err { OnErr result (self.new ≡ self.old) }
    {
        let locks = level_locks();
        let locks = &locks[..];
        let more = &locks[usize::from(self.level.number())..usize::from(level.number())];
        let before = self.any_mode.len();
        self.any_mode.extend(more)?;
        if self.is_apart {
            if let Err(refused) = self.write_mode.extend(more) {
                self.any_mode.truncate(before);
                return Err(refused);
            }
        }
        self.level = level;
        Ok(())
    }
}

// Where the set has the lock, or else, as an error, where it belongs. Among many no jump depends on the locks, which nobody could foretell.
#[inline(always)]
fn place_of(set: &Lockset, lock: LockId) -> Result<usize, usize>
    ensures found { is_ok result ≡ has set.now lock }
    ensures here { IfOk result (λ place. (place < length set.now) × (slice_index set.now place ≡ lock)) }
    ensures belongs { IfErr result (λ place. (place ≤ length set.now) × (insert set.now place lock ≡ with_lock lock set.now)) }
{
    let locks = set.as_slice();
    let (mut base, mut size) = (0, locks.len());
    if size < 16 || size > 128 {
        return set.find(lock);
    }
    for _ in 0..7usize {
        let half = size / 2;
        let middle = base + half;
        base = if locks[middle] <= lock { middle } else { base };
        size -= half;
    }
    if locks[base] == lock {
        return Ok(base);
    }
    Err(base + usize::from(locks[base] < lock))
}

// The locks of all levels, in order.
fn level_locks() -> [LockId; 31]
    ensures { result ≡ level_locks 31 }
{
    let mut locks = [LockId::default(); 31];
    for i in 0..31u32 {
        locks[i as usize] = LockId::new(LockId::BELOW_LEVELS + 1 + i);
    }
    locks
}
