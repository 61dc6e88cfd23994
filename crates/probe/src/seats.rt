//! Calls at detectors: of seats, at their shards, and of a detector and seats that are settled.
use crate::Host;
use crate::work::{Detectors, Fault, Found, Made, Work, World, count_of, made};
use crate::writing::{put_reply, put_run, put_seat};
use er_detector::{Config, Detector, settle};
use er_event::{Event, Kind, LockId, Lockset, Mode, NoRoom, Refusal, Reply, Site, ThreadId, Word};
use er_journal::{HeldLocks, Stamp, Ticket};
use er_seat::Seat;
use er_shard::Shard;
use std::alloc::Global;
use std::fmt::Write;
use std::mem::swap;
use std::sync::Wait;
use std::thread;
use std::time::Instant;

/// `detector NUMBER SHARDS JOURNAL SEATS`, with `drawing MOST` or not: one more detector, of which the first is `a` and the second `b`.
pub(crate) fn detector(alloc: Global, world: &mut World, work: &mut Work) -> Made {
    let name = work.number()?;
    let mut config = Config::new(name, work.count()?, work.count()?, work.count()?);
    if work.take("drawing").is_ok() {
        config = config.ok_or(Fault::BadRow)?.drawing(work.count()?);
    }
    world.detectors.list.reserve(1)?;
    let detector = Detector::new(alloc, world.table, config.ok_or(Fault::BadRow)?)?;
    world.detectors.list.push_reserved(Some(detector));
    work.say("done")
}

/// `open SIDE`: one more seat, which stands behind the others.
pub(crate) fn open(world: &mut World, work: &mut Work) -> Made {
    world.seats.reserve(1)?;
    let seat = world.detectors.at(work.side()?)?.open_seat()?;
    world.seats.push_reserved(Some(seat));
    work.say("done")
}

/// `seat K CALL`, or `seat K`, which asks what it holds.
pub(crate) fn call<R: Wait>(rt: &R, world: &mut World, work: &mut Work) -> Made {
    match world.seats.get_mut(work.count()? as usize) {
        Some(Some(seat)) => call_by(rt, &world.detectors, seat, work),
        _ => Err(Fault::BadRow),
    }
}

fn call_by<R: Wait>(rt: &R, detectors: &Detectors, seat: &mut Seat, work: &mut Work) -> Made {
    if work.end().is_ok() {
        return made(put_seat(&mut work.answer, seat));
    }
    if work.take("reuse").is_ok() {
        return reuse(rt, detectors, seat, work);
    }
    let called = match work.event()? {
        Event::Acquire(lock, mode) => seat.acquire(lock, mode),
        Event::Release(lock, mode) => seat.release(lock, mode),
        Event::IgnoreOn => seat.ignore_on(),
        Event::IgnoreOff => seat.ignore_off(),
        Event::Level(level) => seat.set_level(level),
        Event::Access(kind, word, site) => {
            let reply = access(rt, detectors, seat, work, word, kind, site)?;
            return Ok(put_reply(&mut work.answer, reply)?);
        }
        _ => return Err(Fault::BadRow),
    };
    called?;
    work.say("done")
}

fn reuse<R: Wait>(rt: &R, detectors: &Detectors, seat: &mut Seat, work: &mut Work) -> Made {
    let range = work.range()?;
    let detector = detectors.at(side_of(work)?)?;
    match detector.reuse(rt, seat, &range) {
        Ok(()) => work.say("done"),
        Err(stopped) => Err(Fault::Stopped(stopped.first_word_not_done.address(), stopped.cause)),
    }
}

// An access at a detector, or `in SIDE N` in a shard whose lock is taken here.
fn access<R: Wait>(
    rt: &R,
    detectors: &Detectors,
    seat: &mut Seat,
    work: &mut Work,
    word: Word,
    kind: Kind,
    site: Site,
) -> Found<Reply> {
    if work.take("in").is_err() {
        let detector = detectors.at(side_of(work)?)?;
        return Ok(detector.access(rt, seat, word, kind, site)?);
    }
    let place = work.shard()?;
    let detector = detectors.at(place.0)?;
    let mut shard = detectors.shard(rt, place)?;
    let reply = detector.access_in(rt, &mut shard, seat, word, kind, site);
    reply.map_err(Fault::Refused)
}

// The place of the detector that a seat calls: `at SIDE`, or the first.
fn side_of(work: &mut Work) -> Found<usize> {
    match work.take("at") {
        Ok(()) => work.side(),
        Err(_) => Ok(0),
    }
}

/// `enter SIDE N ticket T thread M ..`: an entry that no seat called for, an access or a reset.
pub(crate) fn enter<R: Host>(rt: &R, detectors: &Detectors, work: &mut Work) -> Made {
    let place = work.shard()?;
    work.take("ticket")?;
    let ticket = work.ticket()?;
    work.take("thread")?;
    let thread = work.thread()?;
    let reply = if work.take("reset").is_ok() {
        let range = work.part()?;
        let none = Lockset::new(rt.alloc());
        let locks = HeldLocks::new(rt.alloc(), thread, &none, &none)?;
        let mut shard = detectors.shard(rt, place)?;
        shard.reset(ticket, locks, range).map(|_| Reply::Done)
    } else {
        let stamp = stamp_of(rt.alloc(), thread, work)?;
        let ticket = Ticket::new(rt.alloc(), ticket)?;
        let mut shard = detectors.shard(rt, place)?;
        shard.apply(rt, ticket, stamp).map(|reply| reply.reply())
    };
    Ok(put_reply(&mut work.answer, reply.map_err(NoRoom::refusal)?)?)
}

// `KIND ADDRESS holding LOCK ..`.
fn stamp_of(alloc: Global, thread: ThreadId, work: &mut Work) -> Found<Stamp> {
    Ok(Stamp {
        kind: work.kind()?,
        word: work.word()?,
        site: Site::MISSING,
        locks: held_of(alloc, thread, work)?,
    })
}

// `holding LOCK ..`: the locks that a thread holds, in which `LOCKr` is held in read mode alone.
fn held_of(alloc: Global, thread: ThreadId, work: &mut Work) -> Found<HeldLocks> {
    work.take("holding")?;
    let (mut held, mut write_held) = (Lockset::new(alloc), Lockset::new(alloc));
    let locks = read_held(alloc, thread, work, &mut held, &mut write_held);
    drop(held);
    drop(write_held);
    locks
}

fn read_held(
    alloc: Global,
    thread: ThreadId,
    work: &mut Work,
    held: &mut Lockset,
    write_held: &mut Lockset,
) -> Found<HeldLocks> {
    for _ in work.left.split_whitespace() {
        let word = work.next()?;
        let lock = LockId::new(count_of(word.strip_suffix("r").unwrap_or(word))?);
        held.insert(lock)?;
        if !word.ends_with("r") {
            write_held.insert(lock)?;
        }
    }
    Ok(HeldLocks::new(alloc, thread, held, write_held)?)
}

/// `swap SIDE N SIDE M`: two shards change places, each under its lock.
pub(crate) fn swap_shards<R: Wait>(rt: &R, detectors: &Detectors, work: &mut Work) -> Made {
    let (here, there) = (work.shard()?, work.shard()?);
    if here == there {
        return Err(Fault::BadRow);
    }
    let mut mine = detectors.shard(rt, here)?;
    let mut other = detectors.shard(rt, there)?;
    swap::<Shard>(&mut *mine, &mut *other);
    work.say("done")
}

/// `settle SIDE K ..`: a detector and these seats, which are then no longer there. All are there if there is no memory for the seats.
pub(crate) fn settled(alloc: Global, world: &mut World, work: &mut Work) -> Made {
    let side = work.side()?;
    let mut seats = Vec::with_capacity(alloc, work.left.split_whitespace().count())?;
    for _ in work.left.split_whitespace() {
        let seat = world.seats.get_mut(work.count()? as usize);
        seats.push(seat.and_then(Option::take).ok_or(Fault::BadRow)?)?;
    }
    let detector = world.detectors.list.get_mut(side);
    let detector = detector.and_then(Option::take).ok_or(Fault::BadRow)?;
    match settle(alloc, detector, seats) {
        Ok(run) => made(put_run(&mut work.answer, &run)),
        Err(fault) => work.say(fault.text()),
    }
}

// How calls go over pages: how many pages further the next thread begins, and how many pages further a thread goes on after sixteen calls.
type Shape = (u64, u64);

// The word of a thread's call. There are 64 pages, and after as many calls as a page has words its words come again.
fn word_of((by_thread, by_call): Shape, thread: u64, call: u64) -> Word {
    let page = (thread % 4)
        .wrapping_mul(by_thread)
        .wrapping_add((call / 16).wrapping_mul(by_call))
        % 64;
    Word::new(page * Word::PER_PAGE + call % Word::PER_PAGE)
}

/// `rate SHAPE THREADS CALLS`: makes all calls on their threads, and writes how many they are and how many races they report. Each thread holds
/// one lock, under which all words were written before. The microseconds are those from before the first thread to after the last.
pub(crate) fn rate<R: Host>(rt: &R, detector: &Detector, work: &mut Work) -> Made {
    let shape = match work.next()? {
        "own" => (1, 0),
        "spread" => (16, 1),
        "one" => (0, 0),
        _ => return Err(Fault::BadRow),
    };
    let (threads, calls) = (work.count()?, work.count()?);
    if threads < 1 || threads > 16 || calls > 100_000_000 {
        return Err(Fault::BadRow);
    }
    write_all(rt, detector, shape)?;
    let seats = (0..threads)
        .map(|_| open_with_lock(detector))
        .try_collect(rt.alloc())?;
    let start = Instant::now(rt)?;
    let make = |seat| { make_all(rt, detector, shape, calls, seat) };
    let counts = thread::map_vec(rt, seats, &make)?;
    let micros = start.elapsed(rt)?.as_micros();
    eprintln!(rt; "{micros} microseconds")?;
    let mut races: u64 = 0;
    for count in counts.as_slice() {
        races = races.saturating_add(u64::from((*count)?));
    }
    let calls = u64::from(threads).saturating_mul(u64::from(calls));
    Ok(write!(work.answer, "calls {calls}, races {races}")?)
}

fn open_with_lock(detector: &Detector) -> Result<Seat, Refusal> {
    let mut seat = detector.open_seat()?;
    seat.acquire(LockId::new(1), Mode::Write)?;
    Ok(seat)
}

// Writes each word that a thread will call.
fn write_all<R: Wait>(rt: &R, detector: &Detector, shape: Shape) -> Result<(), Refusal> {
    let mut seat = open_with_lock(detector)?;
    for thread in 0..4 {
        for call in 0..Word::PER_PAGE {
            let word = word_of(shape, thread, call);
            detector.access(rt, &mut seat, word, Kind::Write, Site::MISSING)?;
        }
    }
    Ok(())
}

// All calls of one thread, and how many races they reported.
fn make_all<R: Wait>(
    rt: &R,
    detector: &Detector,
    shape: Shape,
    calls: u32,
    mut seat: Seat,
) -> Result<u32, Refusal> {
    let thread = u64::from(seat.thread().number());
    let mut races: u32 = 0;
    for call in 0..u64::from(calls) {
        let kind = [Kind::Read, Kind::Write][(call % 2) as usize];
        let word = word_of(shape, thread, call);
        let reply = detector.access(rt, &mut seat, word, kind, Site::MISSING)?;
        races = races.saturating_add(u32::from(matches!(reply, Reply::Race)));
    }
    Ok(races)
}
