//! Readers and writers that remember whether one of their calls failed, and a reader that keeps what it gave.
//!
//! Begin with [`Device`]: it wraps a reader or a writer of std. A caller that gets an error back asks [`Device::failed`] whether
//! the device was at fault, or want of memory, or the text. What can be read only once is read through [`Keeping`], and then from what that kept.
//!
//! What it promises, by the names of clauses: a call that fails marks the device for good, and nothing else does (`failed`); a
//! read hands on the bytes of what is wrapped (`bytes`) and counts them (`taken`); what was written is all of the bytes, or after
//! a fault exactly a prefix of them (`bytes`). A `Keeping` gives all that its reader gives (`bytes`), and keeps all of it or nothing (`kept`).
//!
//! ```
//! let mut device = Device::new(b"eraser trace 1\n".as_slice());
//! let mut buffer = [0; 6];
//! let count = device.read(&mut buffer)?;
//! // Here `count` is 6, `device.taken()` is 6, and `device.failed()` is false.
//! ```
#![tactic(auto)]

pub use device::{Device, Failed};
pub use keeping::Keeping;

mod device;
mod keeping;
