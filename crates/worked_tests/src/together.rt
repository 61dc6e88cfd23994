//! Two threads at once: at a gate, at one detector, as workers of a workload and of a parallel replay; and a call beside a shard whose lock is held.
//! Threads wait for each other first, so that mostly neither is done before the other begins; the answers are the same in whatever order they come.
use crate::Host;
use crate::sets::table_of_hundred;
use er_detector::{Config, Detector, settle};
use er_event::{Event, Kind, LockId, Mode, Refusal, Site, Step, ThreadId, Word, WordRange};
use er_gate::{Gate, OpenGate, PairGate};
use er_journal::Answer;
use er_load::{Workload, run_workload};
use er_parallel::{ReplayConfig, replay_parallel};
use er_seat::Seat;
use er_table::LocksetTable;
use std::sync::atomic::{AtomicU32, Ordering};
use std::test::*;
use std::thread;

/// A gate at which pieces 0 and 1 wait for each other, however long one of them has to wait for a processor. If they never are at work at once, the
/// test has no end, and fails by its limit of time.
pub(crate) fn meeting_gate() -> PairGate {
    PairGate::with_looks(0, 1, u64::MAX)
}

// A busy machine may run one thread behind the other, so a gate at which they didn't meet says nothing, and another is tried.
fn meet<R: Host>(rt: &R) -> bool {
    for _ in 0..u32::MAX {
        let gate = PairGate::new(0, 1);
        thread::join(rt, || gate.enter(0), || gate.enter(1));
        if gate.met() {
            return true;
        }
    }
    false
}

#[test]
fn a_pair_meets(rt: HostRuntime) {
    assert!(rt; meet(&rt));
}

// A piece that leaves before the other comes didn't see it.
#[test]
fn one_after_the_other_is_no_meeting(rt: HostRuntime) {
    let gate = PairGate::with_looks(0, 1, 3);
    OpenGate.enter(0);
    for piece in [2, 0, 1] {
        gate.enter(piece);
        assert!(rt; !gate.met());
    }
}

fn detector<'t, R: Host>(rt: &R, table: &'t LocksetTable, shards: u32, seats: u32) -> Detector<'t> {
    let config = Config::new(7, shards, 100_000, seats).expect(rt, "a configuration");
    Detector::new(rt.alloc(), table, config).expect(rt, "memory")
}

// How many seats each of two threads opens: as long as it takes for both to be at work at once, also on a busy machine.
const SEATS: u32 = 50_000;

// The threads of seats that are opened one after the other, behind the gate.
fn open_all<R: Host>(rt: &R, detector: &Detector, gate: &PairGate, piece: u32) -> Vec<u32> {
    let mut threads = Vec::new(rt.alloc());
    gate.enter(piece);
    for _ in 0..SEATS {
        let seat = detector.open_seat().expect(rt, "a seat");
        threads.push(seat.thread().number()).expect(rt, "memory");
    }
    threads
}

// Whether two threads at once get each seat once, in order, and then no one gets one more.
fn opens_each_seat_once<R: Host>(rt: &R, detector: &Detector) -> bool {
    let gate = meeting_gate();
    let (first, second) = thread::join(
        rt,
        || open_all(rt, detector, &gate, 0),
        || open_all(rt, detector, &gate, 1),
    );
    let in_order = first.is_sorted() && second.is_sorted();
    let mut all = first;
    all.extend_from_slice(&second).expect(rt, "memory");
    all.sort_unstable();
    let each_once = all.iter().copied().eq(0..100_000);
    in_order && each_once && matches!(detector.open_seat(), Err(Refusal::TooManyThreads))
}

#[test]
fn each_seat_has_a_thread_of_its_own(rt: HostRuntime) {
    let table = table_of_hundred(&rt);
    let detector = detector(&rt, &table, 1, 2 * SEATS);
    assert!(rt; opens_each_seat_once(&rt, &detector));
}

// Whether a seat takes a lock and writes in the second shard, while the lock of the first shard is held.
fn goes_on_beside_a_guard<R: Host>(rt: &R, detector: &Detector) -> bool {
    if detector.config().shards == 0 {
        return false;
    }
    let mut seat = detector.open_seat().expect(rt, "a seat");
    let _kept = detector.shard(rt, 0);
    let word = Word::new(0x400);
    let takes = seat.acquire(LockId::new(5), Mode::Write).is_ok();
    let written = detector.access(rt, &mut seat, word, Kind::Write, Site::MISSING);
    takes && written.is_ok()
}

// A shard that stopped another would stop this test for good.
#[test]
fn one_shard_does_not_stop_another(rt: HostRuntime) {
    let table = table_of_hundred(&rt);
    let detector = detector(&rt, &table, 2, 1);
    assert!(rt; goes_on_beside_a_guard(&rt, &detector));
}

// How often each of two threads reuses one page.
const REUSES: u32 = 10_000;

fn reuse_all<R: Host>(rt: &R, detector: &Detector, gate: &PairGate, mut seat: Seat) -> Seat {
    let words = WordRange::of_bytes(0x1000, 4096).expect(rt, "a page");
    let range = words.expect(rt, "its words");
    gate.enter(seat.thread().number());
    for _ in 0..REUSES {
        detector.reuse(rt, &mut seat, &range).expect(rt, "room");
    }
    seat
}

// The seats of two threads that reused the page at once.
fn reuse_together<R: Host>(rt: &R, detector: &Detector) -> Vec<Seat> {
    let gate = meeting_gate();
    let mut seats = Vec::new(rt.alloc());
    for _ in 0..2u32 {
        let seat = detector.open_seat().expect(rt, "a seat");
        seats.push(seat).expect(rt, "memory");
    }
    thread::map_vec(rt, seats, &|seat| reuse_all(rt, detector, &gate, seat)).expect(rt, "memory")
}

// A reuse draws its ticket under the lock of its shard, so that its journal is in the order of tickets.
#[test]
fn reuses_of_one_page_settle(rt: HostRuntime) {
    let table = table_of_hundred(&rt);
    let detector = detector(&rt, &table, 1, 2);
    let seats = reuse_together(&rt, &detector);
    let settled = settle(rt.alloc(), detector, seats);
    assert_eq!(rt; settled.map_or(0, |run| run.steps.len()), 20_000);
}

// Both threads are at work at once, and there is one race all the same.
#[test]
fn workers_run_side_by_side(rt: HostRuntime) {
    let gate = meeting_gate();
    let run = run_workload(&rt, rt.alloc(), Workload::RacyCounter, &gate).expect(&rt, "a run");
    assert_eq!(rt; (run.steps.len(), run.races()), (4, 1));
    assert!(rt; gate.met());
}

// Steps of two threads that write to eight pages in turn: the first thread's writes are the first eight.
fn steps_of<R: Host>(rt: &R, count: u32) -> Vec<Step> {
    let mut steps = Vec::new(rt.alloc());
    for place in 0..count {
        let word = Word::new(Word::PER_PAGE * u64::from(place % 8));
        let thread = ThreadId::new(if place < 8 { 1 } else { 2 });
        let event = Event::Access(Kind::Write, word, Site::MISSING);
        steps.push(Step { thread, event }).expect(rt, "memory");
    }
    steps
}

// How many races and how many answers: of some workers to the steps, in so many shards.
type Counts = (usize, usize);

fn replayed<G: Gate, R: Host>(
    rt: &R,
    shards: u32,
    workers: u32,
    steps: &[Step],
    gate: &G,
) -> Counts {
    let config = ReplayConfig::new(shards, 16).expect(rt, "a configuration");
    let outcome = replay_parallel(rt, rt.alloc(), config, steps, workers.clamp(1, 16), gate);
    let answers = outcome.expect(rt, "an outcome").answers;
    let is_race = |place: &usize| matches!(answers.get(*place), Some(Answer::Race));
    ((0..answers.len()).filter(is_race).count(), answers.len())
}

// Two workers pass the gates of their first shards at once.
#[test]
fn replays_run_side_by_side(rt: HostRuntime) {
    let gate = meeting_gate();
    let steps = steps_of(&rt, 16);
    assert_eq!(rt; replayed(&rt, 8, 2, &steps, &gate), (8, 16));
    assert!(rt; gate.met());
}

// Counts the pieces, and adds up their numbers.
#[derive(Drop)]
struct CountingGate {
    pieces: AtomicU32,
    sum: AtomicU32,
}

impl Gate for CountingGate {
    fn enter(&self, piece: u32) {
        self.pieces.fetch_add(1, Ordering::SeqCst);
        self.sum.fetch_add(piece, Ordering::SeqCst);
    }
}

// Each shard has its gate, also where it has no step.
#[test]
fn each_shard_passes_the_gate_once(rt: HostRuntime) {
    let (pieces, sum) = (AtomicU32::new(0), AtomicU32::new(0));
    let gate = CountingGate { pieces, sum };
    assert_eq!(rt; replayed(&rt, 64, 3, &[], &gate), (0, 0));
    assert_eq!(rt; gate.pieces.load(Ordering::SeqCst), 64);
    assert_eq!(rt; gate.sum.load(Ordering::SeqCst), 2016);
}
