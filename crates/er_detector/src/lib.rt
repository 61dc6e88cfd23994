//! A detector that many threads call at once.
//!
//! Begin with [`Detector`], which a [`Config`] makes: its words stand in shards, each under a lock of its own, and each thread opens a seat with
//! `open_seat`. `access` and `reuse` make a seat's calls under the lock of the shard that they touch, `races` lists the races so far. Once the
//! threads are done, [`settle`] takes the detector and all its seats, and returns the one [`Run`] that they make, or an [`Unsettled`] that says what
//! doesn't fit. [`settle_parts`] does so with shards that `into_parts` took out of their locks. A [`Gate`] lets tests see that two workers are at
//! work at once.
//!
//! What it promises, by the names of clauses: a counted access stands in the seat's list and in the shard's journal, under one ticket and with what
//! the seat's thread holds (`counted`); where the seat ignores, the access is listed alone (`ignored`, `listed`, `unchanged`); what isn't this
//! detector's is refused (`foreign`), and a refused access changes nothing (`err`, `err_shard`). A reuse adds a call for each page that is done
//! (`done`, `stopped`). What a shard and a seat keep whatever threads call is the promise of their types.
//!
//! `settle_parts` promises what `settle_lists` of `er_settle` does. `settle` says of a fault only what the seats show (`first`, `settled`); each
//! reply of its run is the one that the whole run gives (`replies`), in the stated order (`order`).
//!
//! ```text
//! let table = LocksetTable::new(alloc, 1_048_576)?;
//! let config = Config::new(name, 8, 1_000_000, 64).ok_or("out of the limits")?;
//! let detector = Detector::new(alloc, &table, config)?;
//! let mut seat = detector.open_seat()?;
//! seat.acquire(lock, Mode::Write)?;
//! detector.access(rt, &mut seat, word, Kind::Write, site)?;
//! seat.release(lock, Mode::Write)?;
//! match settle(alloc, detector, vec![in alloc; seat]?) {
//!     Ok(run) => println!(rt; "{} steps, {} races", run.steps.len(), run.races())?,
//!     Err(fault) => println!(rt; "unsettled: {}", fault.text())?,
//! }
//! ```
#![tactic(auto)]

pub use config::Config;
pub use detector::{Detector, Parts, ReuseStopped};
pub use er_gate::{Gate, OpenGate, PairGate};
pub use er_settle::{Run, Unsettled};
pub use settlement::{settle, settle_parts};

mod config;
mod detector;
mod settlement;
