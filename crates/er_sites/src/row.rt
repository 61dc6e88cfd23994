//! A row of the table of sites.
ghost use Rattle.std.specs.Prelude.{◌≡◌, ◌+◌, ◌^◌, ◌<◌};

use er_event::Site;

/// What the races at one site come to.
#[derive(Clone, Copy, Debug, PartialEq, Eq, Drop)]
pub struct SiteRow {
    /// Where in the program the races stand.
    pub site: Site,
    /// Whether that is a header of the system.
    pub is_system: bool,
    /// How many words a read there made racy. A word that has another race after a reuse counts again.
    pub reads: u64,
    /// How many words a write there made racy.
    pub writes: u64,
    /// How many reuses of memory race there.
    pub reuses: u64,
    /// How many threads made them.
    pub threads: u64,
    /// How many locks were held at one of them or more.
    pub locks: u64,
    /// The place of the first of these races among the lines of the report.
    pub example: usize,
    pub ghost few: { reads + writes + reuses < 2 ^ 64 },
}

impl SiteRow {
    /// How many races there are.
    pub fn races(&self) -> u64
        ensures { result ≡ self.now.reads + self.now.writes + self.now.reuses }
    {
        self.reads + self.writes + self.reuses
    }
}
