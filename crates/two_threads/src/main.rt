//! Two threads write to one counter without a lock, and the detector that they call finds the race. An example of the library.
#![tactic(auto)]

ghost use Rattle.std.specs.Prelude.{◌≡◌, ℕ, slice_get, Some, Ok, IfSome};
ghost use Rattle.er_event.specs.declared.steps.Step.{Step};
ghost use Rattle.er_model.specs.Answers.{answer};
ghost use Rattle.er_journal.specs.Merges.{reply_at};

use er_detector::{Config, Detector, Run, settle};
use er_event::{Kind, Refusal, Site, Word};
use er_seat::Seat;
use er_table::LocksetTable;
use std::alloc::Global;
use std::process::ExitCode;
use std::sync::Wait;
use std::thread::{Threads, join};

// What each thread does: a real program adds to its counter here, and reports it to the detector.
fn add<R: Wait>(rt: &R, detector: &Detector, mut seat: Seat) -> Result<Seat, Refusal> {
    detector.access(rt, &mut seat, Word::new(0x400), Kind::Write, Site::MISSING)?;
    Ok(seat)
}

// Both threads at once, and then their seats.
fn both<R: Threads + Wait + Sync>(rt: &R, alloc: Global, detector: &Detector) -> Option<Vec<Seat>> {
    let first = detector.open_seat().ok()?;
    let second = detector.open_seat().ok()?;
    let (first, second) = join(
        rt,
        move || add(rt, detector, first),
        move || add(rt, detector, second),
    );
    let mut seats = Vec::with_capacity(alloc, 2).ok()?;
    for seat in [first, second] {
        seats.push(seat.ok()?).ok()?;
    }
    Some(seats)
}

// What both made of it, unless memory or a thread is refused. Each reply of the run is the one that the whole run gives.
fn watch<R: Threads + Wait + Sync>(rt: &R, alloc: Global) -> Option<Run>
    ensures { IfSome result (λ run. (k : ℕ) (step : Step) → slice_get run.steps.items k ≡ Some step → answer run.steps.items k ≡ Ok (reply_at run.replies.items k)) }
{
    let table = LocksetTable::new(alloc, 16).ok()?;
    let config = Config::new(1, 8, 1024, 2)?;
    let detector = Detector::new(alloc, &table, config).ok()?;
    let seats = both(rt, alloc, &detector)?;
    match settle(alloc, detector, seats) {
        Ok(run) => Some(run),
        Err(_) => None,
    }
}

fn main(rt: HostRuntime) -> ExitCode {
    let Some(run) = watch(&rt, rt.alloc()) else {
        let _ = rt.eprintln("no run");
        return ExitCode::from(3);
    };
    let _ = println!(rt; "steps {}, races {}", run.steps.len(), run.races());
    ExitCode::from(0)
}
