//! A whole replay: from the bytes of a trace to its reports, or to the bytes of one.
//!
//! Begin with [`replay_reports`]. It reads a trace text to its end, replays it by the lockset rule, by happens-before or by both, and returns
//! the reports, without the races that the rules of `er_rules` take. [`replay_text`] writes the report of the lockset rule too.
//!
//! What they promise, by the names of clauses, if the reader and the writer tell their bytes, as a slice and a `Vec` do: the reports are
//! those that the text, the rules and the analysis define (`reports`), what was written is exactly the report of the lockset rule (`report`),
//! a fault of the text is the text's first fault (`fault`), the replay knows how the text ended (`ending`), and nothing was written after any
//! fault but a failed write, which leaves a beginning of the report (`nothing`, `fault`). Several workers give what one worker gives,
//! without a stop (`whole`). They report a full table only if some step asks for a set of locks (`fault`). A replay of a part
//! (`Options::with_part`) gives what the part gives of the reports of its steps (`reports`), without a stop (`unstopped`).
//!
//! ```text
//! let text: &[u8] = b"eraser trace 1\nt1 write 0x1000\nt2 write 0x1000\n";
//! let mut source = Device::new(text);
//! let rules = Suppressions::new(rt.alloc());
//! let options = Options::usual();
//! let found = replay_reports(&rt, rt.alloc(), &mut source, &ByText, &rules, &options, Analysis::Both, &mut Unwatched)?;
//! let verdict = verdict_of(&found.reports);   // Verdict::Races
//! ```
//!
//! Whatever they tell of their bytes: the reader and the writer failed exactly if the fault says so (`failed`), and at most the
//! limit and 1,025 bytes were taken from the reader (`taken`).
#![tactic(auto)]

pub use er_batch::{Options, Progress, Unwatched, Verdict, Watch};
pub use er_report::{Analysis, Reports};
pub use fault::RunFault;
pub use outcome::ReplayedTrace;
pub use replay::{replay_reports, replay_text, verdict_of};

mod fault;
mod inspecting;
mod outcome;
mod passes;
mod replay;
