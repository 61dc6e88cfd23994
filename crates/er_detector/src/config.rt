//! How a detector is made.
ghost use Rattle.std.specs.Prelude.{◌≡◌, ◌↔◌, IsSome, IfSome};
ghost use Rattle.er_detector.specs.Limits.{IsShardCount, IsLimit};

/// How a detector is made. The numbers are in their limits.
#[derive(Clone, Copy, Debug, PartialEq, Eq)]
pub struct Config {
    /// The name that its seats and shards carry. Give each detector a name of its own.
    pub name: u64,
    /// How many shards it has, 1 to 64.
    pub shards: u32,
    /// How many entries each shard's journal takes, 1 to 1,073,741,824.
    pub journal_limit: u32,
    /// How many seats it opens, 1 to 1,073,741,824.
    pub max_threads: u32,
    /// How many tickets a seat draws at once at most, 1 to 1,073,741,824.
    pub most_drawn: u32,
    pub ghost shard_count: { IsShardCount shards },
    pub ghost entries: { IsLimit journal_limit },
    pub ghost seats: { IsLimit max_threads },
    pub ghost drawn: { IsLimit most_drawn },
}

impl Config {
    /// The greatest number of shards.
    pub const MAX_SHARDS: u32 = 64;

    /// The greatest limit of a journal, and the greatest number of seats and of tickets that one draws at once.
    pub const MAX_LIMIT: u32 = 1_073_741_824;

    /// The configuration with these numbers, or none where one is out of its limits. Its seats draw one ticket at a time.
    pub fn new(name: u64, shards: u32, journal_limit: u32, max_threads: u32) -> Option<Config>
        ensures some { IsShardCount shards → IsLimit journal_limit → IsLimit max_threads → IsSome result }
        ensures some_only { IsSome result → IsShardCount shards × (IsLimit journal_limit × IsLimit max_threads) }
        ensures value { IfSome result (λ config. (config.name ≡ name) × ((config.shards ≡ shards) × ((config.journal_limit ≡ journal_limit) × (config.max_threads ≡ max_threads)))) }
        ensures one { IfSome result (λ config. config.most_drawn ≡ 1) }
    {
        match (shards, journal_limit, max_threads) {
            (1..=Config::MAX_SHARDS, 1..=Config::MAX_LIMIT, 1..=Config::MAX_LIMIT) => {
                Some(Config {
                    name,
                    shards,
                    journal_limit,
                    max_threads,
                    most_drawn: 1,
                })
            }
            _ => None,
        }
    }

    /// The same with seats that draw up to so many tickets at once, or none if that is out of its limits. A seat draws 1, 2, 4 .. and then so many,
    /// each time that it has used up what it drew, and 1 again if it had to throw some away (`Seat::next_ticket`). Threads at shards of their own then
    /// seldom wait for the counter.
    pub fn drawing(mut self, most: u32) -> Option<Config>
        ensures some { IsSome result ↔ IsLimit most }
        ensures value { IfSome result (λ config. (config.name ≡ self.name) × ((config.shards ≡ self.shards) × ((config.journal_limit ≡ self.journal_limit) × ((config.max_threads ≡ self.max_threads) × (config.most_drawn ≡ most))))) }
    {
        if most < 1 || most > Config::MAX_LIMIT {
            return None;
        }
        self.most_drawn = most;
        Some(self)
    }
}
