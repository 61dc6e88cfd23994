//! The detector for programs in C and in every language that calls C: shards of memory and threads, and for audits shards with journals and threads with
//! seats, each behind a handle that the caller owns.
//!
//! A handle is 16 bytes: a number, which is 0 if it is empty, and a pointer. A zeroed handle is empty. `exports` has what C calls. Each call
//! returns the number of a [`Status`]. An address, a size and a level are asked first, then the thread's handle, then the shard's, and only then
//! whether the thread ignores its accesses. None asks anything of its caller but what the types say:
//!
//! - a handle is zeroed, or a call of this library wrote it, and a copy of it isn't used after it;
//! - a handle is given to one call at a time, and the handles and places of one call are different ones;
//! - no pointer is null. Where `locks`, `shards` and `seats` point to there are as many numbers or handles as the call is told, and elsewhere there is room
//!   for what the call writes. A bool is 0 or 1;
//! - no call is made in a signal handler that interrupted another call or `malloc`, nor in the child of a `fork` if another thread was inside a call.
#![tactic(auto)]

pub use handle::Handle;
pub use journals::Use;
pub use kept::Kept;
pub use kept_box::KeptBox;
pub use status::Status;
pub use threads::Thread;

mod audit;
mod exports;
mod handle;
mod journals;
mod kept;
mod kept_box;
mod raw;
mod settlement;
mod shards;
mod status;
mod threads;
