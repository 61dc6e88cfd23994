//! Where accesses stood: `Place`, and `Places` by line.
ghost use Rattle.std.specs.Prelude.{◌≡◌, ℕ, None, Some, true, option_copied, IfOk, IfSome};
ghost use Rattle.er_places.specs.Inner.Following.{AreNamed};
ghost use Rattle.er_places.specs.Facts.{table_of, way_on};
ghost use Rattle.er_places.specs.Names.{birth_of, block_of, call_function, function_of, has_word, start_of, variable_of, way_of};
ghost use Rattle.er_places.specs.Places.{HasPlaceNames, call_name, calls_of, no_names, place_at, stood_at};
ghost use Rattle.er_report.specs.Names.{HasLockName};
ghost use Rattle.er_places.specs.Reasons.{access_place, race_place, reason_place};

use crate::facts::{Birth, Block, Facts, Start, Variable};
use crate::follower::PlaceMap;
use er_event::{Kind, LockId, Lockset, Site, ThreadId, Word};
use er_held::Held;
use er_keys::{HashKeys, NumberHasher};
use er_report::{Because, Deed, Race};
use er_trace::{Names, Trace};
use std::alloc::{AllocError, Global};
use std::collections::HashMap;
use std::marker::Model;

/// Where an access of a trace stood, and what its thread held.
#[derive(Debug, PartialEq, Eq, Drop)]
pub struct Place {
    /// The line of the text, from 1.
    pub line: u64,
    /// Who made the access.
    pub thread: ThreadId,
    /// Whether it read or wrote.
    pub kind: Kind,
    /// Where in the program it stands.
    pub site: Site,
    /// The locks that the thread held then, in any mode.
    pub held: Lockset,
    /// Those of them that it held to write.
    pub write_held: Lockset,
}

impl Place {
    /// Where an access on a line of the text stood, by a thread that holds this.
    pub fn of(
        alloc: Global,
        held: &Held,
        line: u64,
        thread: ThreadId,
        kind: Kind,
        site: Site,
    ) -> Result<Place, AllocError>
        ensures { IfOk result (λ place. place ≡ stood_at held.now line thread kind site) }
    {
        Ok(Place {
            line,
            thread,
            kind,
            site,
            held: held.held().copy()?,
            write_held: held.write_held().copy()?,
        })
    }
}

/// The places of some accesses, by the line of each, and the names of their numbers. Of a binary trace also what it says of the program.
#[derive(Drop)]
pub struct Places {
    by_line: PlaceMap,
    trace: Trace,
    facts: Facts,
}

impl Model for Places {
    ghost use Rattle.er_places.specs.Facts.{table_of};
    ghost use Rattle.er_places.specs.Places.{PlaceTable};
    ghost use Rattle.er_places.specs.Inner.Following.{AreNamed};

    ghost Value = { PlaceTable };

    ghost view = { λ p. record { places = p.by_line.entries; names = p.trace.names; facts = table_of p.facts } };

    ghost invariant = { λ p. AreNamed p.trace.names p.by_line.entries };
}

impl Places {
    /// No place is known.
    pub fn new(alloc: Global) -> Self
        ensures none { (line : ℕ) → place_at result line ≡ None }
        ensures names { result.names ≡ no_names }
    {
        Places {
            by_line: HashMap::with_hasher(alloc, NumberHasher::new(HashKeys::KNOWN)),
            trace: Trace::new(alloc),
            facts: Facts::none(alloc),
        }
    }

    /// These places, under the names of a trace.
    pub(crate) fn of(alloc: Global, by_line: PlaceMap, trace: Trace) -> Self
        requires { AreNamed trace.names by_line.entries }
        ensures places { result.places ≡ by_line.entries }
        ensures names { result.names ≡ trace.names }
    {
        Places {
            by_line,
            trace,
            facts: Facts::none(alloc),
        }
    }

    /// The same places, with these facts in place of those that were known.
    pub fn with_facts(mut self, facts: Facts) -> Self
        ensures { result ≡ record self { facts = table_of facts } }
    {
        self.facts = facts;
        self
    }

    /// The calls that led to the access at a place, innermost first: a number for each. There is none if they or the place aren't known.
    pub fn calls_of(&self, place: Option<&Place>) -> &[u32]
        ensures { result.now ≡ calls_of self.now (option_copied place.entry) }
    {
        match self.way_of(place) {
            [_, calls @ ..] => calls,
            [] => &[],
        }
    }

    /// The name of the function that a place is in, and no bytes if it isn't known.
    #[tactic(auto, unfolding(crate::specs::Names::function_of))]
    pub fn function_of(&self, place: Option<&Place>) -> &[u8]
        ensures { result.now ≡ function_of self.now (option_copied place.entry) }
    {
        match self.way_of(place) {
            [own, ..] => self.call_function(*own),
            [] => &[],
        }
    }

    // The place of the access that stood at a place, and those of the calls that led there.
    fn way_of(&self, place: Option<&Place>) -> &[u32]
        ensures { result.now ≡ way_of self.now (option_copied place.entry) }
    {
        match place {
            Some(place) => self.way_on(place.line),
            None => &[],
        }
    }

    /// The place of the event on a line and those of the calls that led there, innermost first, as numbers. There is none if they aren't known.
    pub fn way_on(&self, line: u64) -> &[u32]
        ensures { result.now ≡ way_on self.now.facts line }
    {
        match self.facts.ways.get(&line) {
            Some(way) => way.as_slice(),
            None => &[],
        }
    }

    /// Where in the program the call of a number stands.
    pub fn call_name(&self, call: u32) -> &[u8]
        ensures { result.now ≡ call_name self.now call }
    {
        self.facts.places.get(u64::from(call))
    }

    /// The name of the function that the call of a number is in, and no bytes if it isn't known.
    #[tactic(auto, unfolding(crate::specs::Names::call_function))]
    pub fn call_function(&self, call: u32) -> &[u8]
        ensures { result.now ≡ call_function self.now call }
    {
        match self.facts.functions.get(&u64::from(call)) {
            Some(name) => name.as_slice(),
            None => &[],
        }
    }

    /// The variable that has a word, if that is known.
    #[tactic(auto, unfolding(crate::specs::Names::variable_of))]
    pub fn variable_of(&self, word: Word) -> Option<&Variable>
        ensures value { option_copied result ≡ variable_of self.now word }
        ensures has { IfSome (option_copied result) (λ variable. has_word variable.extent word ≡ true) }
    {
        match self.facts.variables.get(&word.number()) {
            Some(variable) if variable.extent.has_word(word.number()) => Some(variable),
            _ => None,
        }
    }

    /// The block of memory that the access on a line touched in a word, if that is known.
    #[tactic(auto, unfolding(crate::specs::Names::block_of))]
    pub fn block_of(&self, line: u64, word: Word) -> Option<&Block>
        ensures value { option_copied result ≡ block_of self.now line word }
        ensures has { IfSome (option_copied result) (λ block. has_word block.extent word ≡ true) }
    {
        match self.facts.blocks.get(&line) {
            Some(block) if block.extent.has_word(word.number()) => Some(block),
            _ => None,
        }
    }

    /// How the thread of a name began, if that is known.
    #[tactic(auto, unfolding(crate::specs::Names::start_of))]
    pub fn start_of(&self, thread: &[u8]) -> Option<&Start>
        ensures { option_copied result ≡ start_of self.now thread.now }
    {
        self.facts.threads.get(thread)
    }

    /// Where the life of a lock of these names began, if that is known: of several records the last one's. Of the lock of a level it isn't.
    #[tactic(auto, unfolding(crate::specs::Names::birth_of))]
    pub fn birth_of(&self, lock: LockId) -> Option<&Birth>
        requires { HasLockName self.now.names lock }
        ensures { option_copied result ≡ birth_of self.now lock }
    {
        let (locks, names) = (&self.facts.locks, self.trace.names());
        match lock.is_level_lock() {
            true => None,
            false => locks.get(names.lock_name(lock).as_bytes()),
        }
    }

    /// Does nothing. It is a law for the proofs of callers: the numbers of each place have names.
    pub fn are_named(&self)
        ensures { (line : ℕ) → IfSome (place_at self.now line) (HasPlaceNames self.now.names) }
    {
        let _places = &self.by_line;
    }

    /// The names of the numbers in the places.
    pub fn names(&self) -> &Names
        ensures { result.now ≡ self.now.names }
    {
        self.trace.names()
    }

    /// The place of the access that a reason names, if it is known.
    pub fn of_reason(&self, because: &Because) -> Option<&Place>
        ensures place { option_copied result ≡ reason_place self.now because.now }
        ensures named { IfSome (option_copied result) (HasPlaceNames self.now.names) }
    {
        self.of_access(because.line, because.thread, because.kind)
    }

    /// The place of a race's access, if it is known. A reuse has none.
    pub fn of_race(&self, race: &Race<'_>) -> Option<&Place>
        ensures place { option_copied result ≡ race_place self.now race.now }
        ensures named { IfSome (option_copied result) (HasPlaceNames self.now.names) }
    {
        match race.deed {
            Deed::Access(kind, _) => self.of_access(race.line, race.thread, kind),
            Deed::Reuse(_) => None,
        }
    }

    // The place of the access on this line, by this thread and of this kind, if it is known.
    fn of_access(&self, line: u64, thread: ThreadId, kind: Kind) -> Option<&Place>
        ensures place { option_copied result ≡ access_place self.now line thread kind }
        ensures named { IfSome (option_copied result) (HasPlaceNames self.now.names) }
    {
        match self.by_line.get(&line) {
            Some(place) if place.thread == thread && place.kind == kind => Some(place),
            _ => None,
        }
    }
}

/// What the numbers of a report are called, and where the accesses of its reasons stood.
#[derive(Clone, Copy)]
pub struct Legend<'a> {
    /// The names of the report's numbers.
    pub names: &'a Names,
    /// The places of accesses, as far as they are known. They have names of their own.
    pub places: &'a Places,
}
