//! How a replay is run.
ghost use Rattle.std.specs.Prelude.{◌≡◌, ◌≤◌, ◌<◌, None, false, IsSome, IsNone, IfSome};
ghost use Rattle.er_batch.specs.Limits.{AreInLimits, most_bytes, most_sets, most_shards, most_workers, usual_bytes, usual_shards};

use er_parts::Part;
use er_trace::NameKeys;

/// How a replay is run. Each number is in its limits.
#[derive(Clone, Copy, Debug, PartialEq, Eq)]
pub struct Options {
    /// How many different sets of locks may be kept, from 1 to 1,048,576.
    pub max_sets: u32,
    /// How many bytes a text may have, at most 2^62.
    pub byte_limit: u64,
    /// Whether each race that is printed is explained.
    pub explain: bool,
    /// In how many shards the words are if there are several workers, from 1 to 64.
    pub shards: u32,
    /// How many workers there are, from 1 to 16. By the lockset rule a quarter of them, but at least one, answer the steps of a batch while the
    /// others read the next one, and by another analysis all of them read. One worker alone has all words in one shard.
    pub workers: u32,
    /// Whether a damaged trace is a fault. A replay of a part looks for no damage.
    pub strict: bool,
    /// By which keys the names and the pages of the trace are hashed. They change no report.
    pub keys: NameKeys,
    /// Which part of the trace is replayed, or None if all of it is.
    pub part: Option<Part>,
    pub ghost some_sets: { 1 ≤ max_sets },
    pub ghost few_sets: { max_sets ≤ most_sets },
    pub ghost few_bytes: { byte_limit ≤ most_bytes },
    pub ghost some_shards: { 1 ≤ shards },
    pub ghost few_shards: { shards ≤ most_shards },
    pub ghost some_workers: { 1 ≤ workers },
    pub ghost few_workers: { workers ≤ most_workers },
}

impl Options {
    /// The most sets of locks that a table or a machine keeps.
    pub const MOST_SETS: u32 = 1_048_576;

    /// The most bytes that a text may have, 2^62.
    pub const MOST_BYTES: u64 = 4_611_686_018_427_387_904;

    /// How many bytes a text may have unless something else is asked for, 256 MiB.
    pub const USUAL_BYTES: u64 = 268_435_456;

    /// The most shards.
    pub const MOST_SHARDS: u32 = 64;

    /// The most workers.
    pub const MOST_WORKERS: u32 = 16;

    /// In how many shards the words are unless something else is asked for.
    pub const USUAL_SHARDS: u32 = 8;

    /// The most sets of locks, texts of 256 MiB, no explanations and one worker: what the program uses unless something else is asked for.
    pub fn usual() -> Options
        ensures sets { result.max_sets ≡ most_sets }
        ensures bytes { result.byte_limit ≡ usual_bytes }
        ensures plain { result.explain ≡ false }
        ensures alone { (result.shards ≡ usual_shards) × (result.workers ≡ 1) }
        ensures lenient { result.strict ≡ false }
        ensures whole { result.part ≡ None }
    {
        Options {
            max_sets: Options::MOST_SETS,
            byte_limit: Options::USUAL_BYTES,
            explain: false,
            shards: Options::USUAL_SHARDS,
            workers: 1,
            strict: false,
            keys: NameKeys::KNOWN,
            part: None,
        }
    }

    /// The same options, by which each race that is printed is explained, or none is.
    pub fn with_explain(mut self, explain: bool) -> Options
        ensures explain { result.explain ≡ explain }
        ensures others { (result.max_sets ≡ self.max_sets) × (result.byte_limit ≡ self.byte_limit) × (result.shards ≡ self.shards) × (result.workers ≡ self.workers) × (result.strict ≡ self.strict) × (result.part ≡ self.part) }
    {
        self.explain = explain;
        self
    }

    /// The same options, by which a damaged trace is a fault, or isn't.
    pub fn with_strict(mut self, strict: bool) -> Options
        ensures strict { result.strict ≡ strict }
        ensures others { (result.max_sets ≡ self.max_sets) × (result.byte_limit ≡ self.byte_limit) × (result.explain ≡ self.explain) × (result.shards ≡ self.shards) × (result.workers ≡ self.workers) × (result.part ≡ self.part) }
    {
        self.strict = strict;
        self
    }

    /// The same options, by which this part of the trace is replayed, or all of it without a part.
    pub fn with_part(mut self, part: Option<Part>) -> Options
        ensures part { result.part ≡ part }
        ensures others { (result.max_sets ≡ self.max_sets) × (result.byte_limit ≡ self.byte_limit) × (result.explain ≡ self.explain) × (result.shards ≡ self.shards) × (result.workers ≡ self.workers) × (result.strict ≡ self.strict) }
    {
        self.part = part;
        self
    }

    /// The same options, by which the names and the pages of the trace are hashed by these keys.
    pub fn with_keys(mut self, keys: NameKeys) -> Options
        ensures others { (result.max_sets ≡ self.max_sets) × (result.byte_limit ≡ self.byte_limit) × (result.explain ≡ self.explain) × (result.shards ≡ self.shards) × (result.workers ≡ self.workers) × (result.strict ≡ self.strict) × (result.part ≡ self.part) }
    {
        self.keys = keys;
        self
    }

    /// The same options, with texts of at most this many bytes; None if it is out of its limits.
    pub fn with_byte_limit(mut self, byte_limit: u64) -> Option<Options>
        ensures limit { IfSome result (λ options. options.byte_limit ≡ byte_limit) }
        ensures others { IfSome result (λ options. (options.max_sets ≡ self.max_sets) × (options.explain ≡ self.explain) × (options.shards ≡ self.shards) × (options.workers ≡ self.workers) × (options.strict ≡ self.strict) × (options.part ≡ self.part)) }
        ensures some { byte_limit ≤ most_bytes → IsSome result }
        ensures none { most_bytes < byte_limit → IsNone result }
    {
        if byte_limit > Options::MOST_BYTES {
            return None;
        }
        self.byte_limit = byte_limit;
        Some(self)
    }

    /// The same options, with this many shards and workers; None if one of them is out of its limits.
    pub fn with_workers(mut self, shards: u32, workers: u32) -> Option<Options>
        ensures crew { IfSome result (λ options. (options.shards ≡ shards) × (options.workers ≡ workers)) }
        ensures others { IfSome result (λ options. (options.max_sets ≡ self.max_sets) × (options.byte_limit ≡ self.byte_limit) × (options.explain ≡ self.explain) × (options.strict ≡ self.strict) × (options.part ≡ self.part)) }
        ensures some { AreInLimits shards workers → IsSome result }
        ensures some_only { IsSome result → AreInLimits shards workers }
    {
        if shards < 1 || shards > Options::MOST_SHARDS {
            return None;
        }
        if workers < 1 || workers > Options::MOST_WORKERS {
            return None;
        }
        self.shards = shards;
        self.workers = workers;
        Some(self)
    }
}
