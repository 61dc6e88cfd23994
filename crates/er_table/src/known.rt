//! One owner's numbers, with what it remembers of the sets that meet.
//!
//! `intersect` gives what numbering the common locks of the two sets gives (`ok`, `names`). That two equal numbers and number 0 need
//! no search, and that a pair is looked up before its locks are compared, saves the comparison and the search for the set:
//! a remembered pair takes about 12 ns.
ghost use Rattle.std.specs.Prelude.{◌≡◌, ◌≢◌, ◌+◌, ◌<◌, ◌≤◌, [], ◌∷◌, length, IsOk, IfOk, IfSome, OnOk, OnErr, IsErrOf, Contains, Some};
ghost use Rattle.std.specs.List.Sorted.{IsStrictlyIncreasing};
ghost use Rattle.er_event.specs.Lockset.{meet};
ghost use Rattle.std.specs.HashMap.{get, hash_map_len};
ghost use Rattle.er_table.specs.Known.{IsMeet, RemembersMeets, same_pair, meet_of};
ghost use Rattle.er_table.specs.declared.known.TheConstants.{MOST_REMEMBERED};
ghost use Rattle.er_table.specs.Numbers.{IsNumbered};
ghost use Rattle.er_table.specs.Sets.{with_set, set_at, AreDistinct, most_sets, KeepsNumbers};

use crate::numbers::Numbers;
use crate::{Grow, LocksetTable, Owned, Shared, Store};
use er_event::{LockId, Lockset, NoRoom};
use er_keys::{HashKeys, NumberHasher};
use std::alloc::{AllocError, Global};
use std::collections::HashMap;
use std::marker::Model;

/// How many intersections are remembered. Beyond that they are found anew each time.
const MOST_REMEMBERED: usize = 65536;

// Two numbers, in order.
#[derive(Clone, Copy, PartialEq, Eq, Hash)]
struct Pair {
    first: u32,
    second: u32,
}

/// One owner's numbers for the sets that it met. Contracts see the sets, by number: number 0 is the empty set.
#[derive(Drop)]
pub struct KnownIn<S: Store> {
    numbers: Numbers<S>,
    meets: HashMap<Pair, u32, NumberHasher>,
    // What two sets had in common, in memory that is used again.
    both: Lockset,
}

/// The numbers of an owner that shares its sets by a table.
pub type Known<'t> = KnownIn<Shared<'t>>;

/// The numbers of an owner that has its sets for itself.
pub type OwnKnown = KnownIn<Owned>;

impl<S: Store> Model for KnownIn<S> {
    ghost use Rattle.std.specs.Prelude.{◌≤◌, List, ℕ};
    ghost use Rattle.std.specs.HashMap.{get, hash_map_len};
    ghost use Rattle.er_table.specs.Known.{RemembersMeets, same_pair};
    ghost use Rattle.er_table.specs.declared.known.TheConstants.{MOST_REMEMBERED};

    ghost Value = { List (List ℕ) };

    ghost view = { λ k. k.numbers };

    ghost invariant = { λ k. RemembersMeets k.numbers (get same_pair k.meets) × (hash_map_len k.meets ≤ MOST_REMEMBERED) };
}

impl<'t> KnownIn<Shared<'t>> {
    /// The empty set alone has a number yet. The others go into the table.
    pub fn new(alloc: Global, table: &'t LocksetTable) -> Result<Known<'t>, AllocError>
        ensures { IfOk result (λ known. known ≡ [] ∷ []) }
    {
        Ok(KnownIn {
            numbers: Numbers::new(Shared::new(alloc, table)?),
            meets: HashMap::with_hasher(alloc, NumberHasher::new(table.keys())),
            both: Lockset::new(alloc),
        })
    }
}

impl KnownIn<Owned> {
    /// The empty set alone has a number yet, and `max_sets` others may get one. The sets are hashed by these keys.
    pub fn keyed(alloc: Global, max_sets: u32, keys: HashKeys) -> OwnKnown
        requires few { max_sets ≤ most_sets }
        ensures { result ≡ [] ∷ [] }
    {
        KnownIn {
            numbers: Numbers::new(Owned::keyed(alloc, max_sets, keys)),
            meets: HashMap::with_hasher(alloc, NumberHasher::new(keys)),
            both: Lockset::new(alloc),
        }
    }
}

impl<S: Store> KnownIn<S> {
    /// How many sets have a number: the numbers are those below.
    pub fn count(&self) -> u32
        ensures count { result ≡ length self.now }
        ensures some { 0 < result }
        ensures small { result ≤ most_sets + 1 }
        ensures distinct { AreDistinct self.now }
        ensures empty { set_at self.now 0 ≡ [] }
    {
        self.numbers.count()
    }

    /// The set of a number.
    pub fn set(&self, number: u32) -> &[LockId]
        requires { number < length self.now }
        ensures set { result.now ≡ set_at self.now number }
        ensures empty { set_at self.now 0 ≡ [] }
        ensures only_empty { set_at self.now number ≡ [] → number ≡ 0 }
        ensures rising { IsStrictlyIncreasing result.now }
    {
        self.numbers.set(number)
    }

    /// The number of a set, which is the next one if it had none. Refused (`TableFull`) if it had none, and either this owner
    /// has numbered all the sets that it may or the table is full of others.
    pub fn number_of<R>(&mut self, rt: &R, set: &Lockset) -> Result<u32, NoRoom>
    where
        S: Grow<R>,
        ensures ok { OnOk result (self.new ≡ with_set self.old set.now) }
        ensures number { IfOk result (λ n. n < length self.new) }
        ensures names { IfOk result (λ n. set_at self.new n ≡ set.now) }
        ensures empty { IfOk result (λ n. set.now ≡ [] → n ≡ 0) }
        ensures only_empty { IfOk result (λ n. n ≡ 0 → set.now ≡ []) }
        ensures next { IfOk result (λ n. ¬ Contains self.old set.now → n ≡ length self.old) }
        ensures kept { KeepsNumbers self.old self.new }
        ensures found { Contains self.old set.now → IsOk result }
        ensures err { OnErr result (self.new ≡ self.old) }
        ensures full_only_if_new { IsErrOf result NoRoom.TableFull → ¬ Contains self.old set.now }
        ensures full_only_if_some { IsErrOf result NoRoom.TableFull → set.now ≢ [] }
        ensures refusals { ¬ IsErrOf result NoRoom.JournalFull }
    {
        self.numbers.number_of(rt, set)
    }

    /// The number of the locks that two sets have in common, which is the next one if they had none. Refused as `number_of` is.
    pub fn intersect<R>(&mut self, rt: &R, first: u32, second: u32) -> Result<u32, NoRoom>
    where
        S: Grow<R>,
        requires first { first < length self.old }
        requires second { second < length self.old }
        ensures ok { OnOk result (self.new ≡ with_set self.old (meet (set_at self.old first) (set_at self.old second))) }
        ensures number { IfOk result (λ n. n < length self.new) }
        ensures names { IfOk result (λ n. set_at self.new n ≡ meet (set_at self.old first) (set_at self.old second)) }
        ensures empty { IfOk result (λ n. meet (set_at self.old first) (set_at self.old second) ≡ [] → n ≡ 0) }
        ensures only_empty { IfOk result (λ n. n ≡ 0 → meet (set_at self.old first) (set_at self.old second) ≡ []) }
        ensures next { IfOk result (λ n. ¬ Contains self.old (meet (set_at self.old first) (set_at self.old second)) → n ≡ length self.old) }
        ensures kept { KeepsNumbers self.old self.new }
        ensures err { OnErr result (self.new ≡ self.old) }
        ensures full_only_if_new { IsErrOf result NoRoom.TableFull → ¬ Contains self.old (meet (set_at self.old first) (set_at self.old second)) }
        ensures full_only_if_some { IsErrOf result NoRoom.TableFull → meet (set_at self.old first) (set_at self.old second) ≢ [] }
        ensures refusals { ¬ IsErrOf result NoRoom.JournalFull }
    {
        let pair = Pair { first, second };
        if let Some(number) = self.remembered(pair) {
            return Ok(number);
        }
        number_anew(&mut self.numbers, &mut self.meets, &mut self.both, rt, pair)
    }

    // The number that `intersect` gives, if it is plain or was found before.
    fn remembered(&self, pair: Pair) -> Option<u32>
        requires first { pair.first < length self.now }
        requires second { pair.second < length self.now }
        ensures { IfSome result (λ n. IsMeet self.now pair n) }
    {
        match self.numbers.plain_meet(pair.first, pair.second) {
            Some(number) => Some(number),
            None => self.meets.get(&pair).copied(),
        }
    }
}

// The number of what the sets of a pair have in common, found anew. It is remembered unless as many as may be are.
fn number_anew<R, S: Grow<R>>(
    numbers: &mut Numbers<S>,
    meets: &mut HashMap<Pair, u32, NumberHasher>,
    both: &mut Lockset,
    rt: &R,
    pair: Pair,
) -> Result<u32, NoRoom>
    requires first { pair.first < length numbers.old }
    requires second { pair.second < length numbers.old }
    requires right { RemembersMeets numbers.old (get same_pair meets.old) }
    requires few { hash_map_len meets.old ≤ MOST_REMEMBERED }
    ensures numbered { IsNumbered numbers.old (meet_of numbers.old pair) result numbers.new }
    ensures kept { KeepsNumbers numbers.old numbers.new }
    ensures right { RemembersMeets numbers.new (get same_pair meets.new) }
    ensures few { hash_map_len meets.new ≤ MOST_REMEMBERED }
    ensures remembered { hash_map_len meets.old < MOST_REMEMBERED → IfOk result (λ n. get same_pair meets.new pair ≡ Some n) }
{
    if meets.len() >= MOST_REMEMBERED {
        return numbers.number_of_meet(rt, pair.first, pair.second, both);
    }
    meets.reserve(1)?;
    let number = numbers.number_of_meet(rt, pair.first, pair.second, both)?;
    let inserted: Result<_, _> = meets.insert(pair, number);
    inserted.unwrap();
    Ok(number)
}
