//! Sets of locks that are stored once: by two threads at once, which wait for each other first, and in a book that is asked with the vector of
//! its sets and with another. Sets that an owner has for itself, and words over them. And reports of more steps than 32 bits number: a text of so many
//! would be too long for a test.
use crate::Host;
use crate::together::meeting_gate;
use boxcar::Vec;
use er_batch::answer_batch;
use er_device::Device;
use er_event::{Kind, LockId, Lockset, ThreadId, Word};
use er_gate::{Gate, PairGate};
use er_replay::OwnMachine;
use er_report::ReportBuilder;
use er_rules::Suppressions;
use er_shadow::OwnWords;
use er_table::{Book, LocksetTable, OwnKnown, Sets};
use er_text::read_trace;
use er_trace::{NameKeys, Trace};
use std::test::*;
use std::thread;

/// A table that takes a hundred sets.
pub(crate) fn table_of_hundred<R: Host>(rt: &R) -> LocksetTable {
    LocksetTable::new(rt.alloc(), 100).expect(rt, "memory")
}

// The set of this lock alone.
fn set_of<R: Host>(rt: &R, lock: u32) -> Lockset {
    let mut set = Lockset::new(rt.alloc());
    set.insert(LockId::new(lock)).expect(rt, "memory");
    set
}

// How many sets both store: {0}, {1} and so on, as many as the table takes.
const SETS: u32 = 100;

// Whether the table gives the set of this lock alone back, stored or found.
fn is_given_back<R: Host>(rt: &R, table: &LocksetTable, lock: u32) -> bool {
    let set = set_of(rt, lock);
    match table.intern(rt, &set) {
        Ok(set_ref) => table.get(&set_ref) == &set,
        Err(_) => false,
    }
}

fn store_all<R: Host>(rt: &R, table: &LocksetTable, gate: &PairGate, piece: u32) -> bool {
    gate.enter(piece);
    (0..SETS).all(|lock| is_given_back(rt, table, lock))
}

fn store_together<R: Host>(rt: &R, table: &LocksetTable) -> bool {
    let gate = meeting_gate();
    let (one, two) = thread::join(
        rt,
        || store_all(rt, table, &gate, 0),
        || store_all(rt, table, &gate, 1),
    );
    one && two
}

// If a set was stored twice, another finds no place.
#[test]
fn two_threads_store_each_set_once(rt: HostRuntime) {
    let table = table_of_hundred(&rt);
    assert!(rt; store_together(&rt, &table));
    assert_eq!(rt; table.sets(&rt), SETS as usize);
    assert!(rt; !is_given_back(&rt, &table, SETS));
}

// How many sets two vectors have after a book was asked for these sets of one lock, each with the first vector or the second.
fn stored<R: Host>(rt: &R, questions: &[(bool, u32)]) -> (usize, usize) {
    let first: Sets = Vec::new(rt.alloc()).expect(rt, "memory");
    let second: Sets = Vec::new(rt.alloc()).expect(rt, "memory");
    let mut book = Book::new(rt.alloc(), 2);
    for &(is_first, lock) in questions {
        let sets = if is_first { &first } else { &second };
        book.intern(rt, sets, &set_of(rt, lock)).expect(rt, "room");
    }
    (first.count(), second.count())
}

// The book notes where a set then stands.
#[test]
fn each_vector_is_pushed_to_once(rt: HostRuntime) {
    let one = [(true, 7), (true, 7), (true, 8), (true, 7)];
    assert_eq!(rt; stored(&rt, &one), (2, 0));
    let other = [(true, 7), (false, 8), (false, 7), (false, 7)];
    assert_eq!(rt; stored(&rt, &other), (1, 2));
}

// The number that an owner with room for two sets of its own gives the set of each of these locks alone, and 0 where it gives none.
fn own_numbers<R: Host>(rt: &R, locks: &[u32]) -> std::vec::Vec<u32> {
    let mut known = OwnKnown::keyed(rt.alloc(), 2, NameKeys::KNOWN);
    let mut numbers = std::vec::Vec::new(rt.alloc());
    for lock in locks {
        let number = known.number_of(&(), &set_of(rt, *lock)).unwrap_or(0);
        numbers.push(number).expect(rt, "memory");
    }
    numbers
}

#[test]
fn own_sets_are_full_at_their_own_limit(rt: HostRuntime) {
    assert_eq!(rt;
        own_numbers(&rt, &[7, 8, 7, 9, 8]).as_slice(),
        [1, 2, 1, 0, 2].as_slice()
    );
}

// Which of the writes of one word are races, each by this thread and under this lock alone, where the sets of the word's owner are its own.
fn own_races<R: Host>(rt: &R, writes: &[(ThreadId, u32)]) -> std::vec::Vec<bool> {
    let mut words = OwnWords::new(rt.alloc(), 10).expect(rt, "memory");
    let mut races = std::vec::Vec::new(rt.alloc());
    for &(thread, lock) in writes {
        let noted = words.access_noting(&(), thread, Word::new(4), Kind::Write, &set_of(rt, lock));
        races
            .push(noted.expect(rt, "room").is_race)
            .expect(rt, "memory");
    }
    races
}

#[test]
fn words_over_own_sets_find_a_race(rt: HostRuntime) {
    let (first, second) = (ThreadId::new(1), ThreadId::new(2));
    let writes = [
        (first, 7),
        (second, 8),
        (second, 8),
        (first, 7),
        (second, 8),
    ];
    assert_eq!(rt;
        own_races(&rt, &writes).as_slice(),
        [false, false, false, true, false].as_slice()
    );
}

// Whether there is room for the steps of a trace in a report that has so many before them, and how many steps and races it then has.
fn counted<R: Host>(rt: &R, trace: &Trace, before: u64) -> (bool, u64, u64) {
    let rules = Suppressions::new(rt.alloc());
    let mut machine = OwnMachine::keyed(rt.alloc(), 1, NameKeys::KNOWN).expect(rt, "memory");
    let mut builder = ReportBuilder::new(rt.alloc(), &rules).expect(rt, "memory");
    let mut has_room = before <= u64::MAX - builder.steps();
    if has_room {
        builder.add_plain(before);
        has_room = answer_batch(&mut machine, trace, &mut builder, None).is_ok();
    }
    (has_room, builder.steps(), builder.races())
}

#[test]
fn more_steps_than_32_bits_number(rt: HostRuntime) {
    let mut text = Device::new(b"eraser trace 1\nt1 write 0x1000\nt2 write 0x1000\n".as_slice());
    let trace = read_trace(rt.alloc(), &mut text, 100).expect(&rt, "a trace");
    for before in [0, (1 << 32) - 3, (1 << 32) - 2, 1 << 33, u64::MAX - 2] {
        let found = counted(&rt, &trace, before);
        assert_eq!(rt; found, (true, before + 2, 1), "behind {before}");
    }
    for before in [u64::MAX - 1, u64::MAX] {
        let (has_room, steps, _) = counted(&rt, &trace, before);
        assert_eq!(rt; (has_room, steps), (false, before), "behind {before}");
    }
}
