//! What happens-before keeps of each word: the last write and the latest reads since, each by its epoch and a tag; and of a word that some access
//! touched in part its accesses, each with its bytes.
//!
//! Begin with [`OrderWords`]. `OrderWord` is one of them, in 16 bytes and two tags. Who wants no tags takes `()`, which has no bytes.
//!
//! What it promises, by the names of clauses: an access finds the tag of the last access that it is a race with, exactly if it is reported as one by
//! what is known and by its thread's clock (`found`), what is then known is what the definitions make of it or serves as well (`ok`), and an error
//! changes nothing (`err`). A call on one word leaves the others (`others`). A reset says which word of its range was still in use (`in_use`), and
//! names the last access of that word that the clock doesn't cover (`named`). That what is known is enough for this are laws of the definitions
//! (`an_era_is_searched_from_its_end` and `what_is_of_no_use_may_go` of `er_order`).
#![tactic(auto)]

pub use byte_accesses::ByteAccess;
pub use reads::Tagged;
pub use words::OrderWords;

mod block;
mod byte_accesses;
mod reads;
mod word;
mod words;
