//! `Follower`, which notes places as steps go by.
ghost use Rattle.std.specs.Prelude.{◌≡◌, ◌++◌, ◌==◌, ◌&&◌, ℕ, List, All, [], true, length, is_some, OnOk};
ghost use Rattle.std.specs.List.{list_all};
ghost use Rattle.er_event.specs.declared.steps.Step.{Step as Steps};
ghost use Rattle.er_places.specs.Inner.Following.{Follows, HasAll, IsNamed, HasFollowed, is_wanted, place_in};

use crate::Place;
use crate::wanted::{Numbers, Put};
use er_event::{Event, Step};
use er_held::ThreadLocks;
use er_keys::{HashKeys, NumberHasher};
use er_trace::Trace;
use std::alloc::Global;
use std::collections::HashMap;
use std::marker::Model;

/// Places by their lines.
pub(crate) type PlaceMap = HashMap<u64, Place, NumberHasher>;

/// What each thread holds, and the places of the accesses so far that are on wanted lines.
#[derive(Drop)]
pub(crate) struct Follower {
    alloc: Global,
    threads: ThreadLocks,
    places: PlaceMap,
}

impl Model for Follower {
    ghost use Rattle.er_places.specs.Inner.Following.{Followed};

    ghost Value = { Followed };

    ghost view = { λ f. record { threads = f.threads; places = f.places.entries } };
}

impl Follower {
    /// It has seen no step. Lines are hashed by these keys.
    pub(crate) fn new(alloc: Global, keys: HashKeys) -> Self
        ensures { (wanted : List ℕ) → HasFollowed (is_wanted wanted) result [] [] }
    {
        Follower {
            alloc,
            threads: ThreadLocks::new(alloc),
            places: HashMap::with_hasher(alloc, NumberHasher::new(keys)),
        }
    }

    /// Goes on by the steps of a trace. `AllocError`: memory was refused, and nothing is known of what it has now.
    pub(crate) fn follow(&mut self, wanted: &Numbers, trace: &Trace) -> Put
        ensures level { length trace.now.lines ≡ length trace.now.steps }
        ensures named { All (IsNamed trace.now.names) trace.now.steps }
        ensures stands { (past : List Steps) (numbers : List ℕ) → length numbers ≡ length past → HasFollowed (is_wanted wanted.now.keys) self.old past numbers
            → OnOk result (HasFollowed (is_wanted wanted.now.keys) self.new (past ++ trace.now.steps) (numbers ++ trace.now.lines)) }
    {
        let steps = trace.steps();
        let lines = trace.lines();
        for (k, step) in steps.iter().enumerate() {
            self.follow_step(wanted, step, lines[k])?;
        }
        Ok(())
    }

    /// The places.
    pub(crate) fn into_places(self) -> PlaceMap
        ensures { result.entries ≡ self.places }
    {
        let Follower { places, .. } = self;
        places
    }

    /// Whether each wanted line has its place.
    pub(crate) fn has_all(&self, wanted: &Numbers) -> bool
        ensures { result ≡ true → HasAll (is_wanted wanted.now.keys) self.now.places }
    {
        self.places.len() == wanted.len() && are_in(wanted, &self.places)
    }

    fn follow_step(&mut self, wanted: &Numbers, step: &Step, line: u64) -> Put
        ensures { OnOk result (Follows (is_wanted wanted.now.keys) self.old step.now line self.new) }
    {
        if let Event::Access(kind, _, site) = step.event {
            if wanted.contains(&line) && !self.places.contains_key(&line) {
                let held = self.threads.get(step.thread);
                let place = Place::of(self.alloc, held, line, step.thread, kind, site)?;
                drop(self.places.insert(line, place)?);
            }
            return Ok(());
        }
        self.threads.follow(self.alloc, step)?;
        Ok(())
    }
}

// Whether each of these lines has a place.
fn are_in(lines: &Numbers, places: &PlaceMap) -> bool
    ensures { result ≡ list_all (λ line. is_some (place_in places.now.entries line)) lines.now.keys }
{
    lines.iter().all(|line| places.contains_key(line))
}
