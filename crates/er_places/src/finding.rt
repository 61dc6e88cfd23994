//! A second look at a trace text, batch by batch.
ghost use Rattle.std.specs.Prelude.{IsSorted, ◌≡◌, ◌<◌, ◌≤◌, ◌+◌, ◌^◌, ◌||◌, ℕ, List, Option, false, true, None, IfSome, IfOk, IfErr, OnOk};
ghost use Rattle.std.specs.Ordering.{nat_cmp};
ghost use Rattle.er_places.specs.Facts.{IsFresh, lines_asked, words_asked};
ghost use Rattle.er_device.specs.Device.{inner_of, has_failed, taken_of};
ghost use Rattle.er_places.specs.Inner.Following.{HasCome, HasEnded, are_asked, is_wanted};
ghost use Rattle.er_places.specs.Places.{ArePlaces, IsFaultOf, place_at};
ghost use Rattle.er_places.specs.Races.{accesses, has_race, have_race, is_on};
ghost use Rattle.er_lines.specs.Lines.{bytes_past_limit};
ghost use Rattle.er_lines.specs.Faults.{HasFailedBy};
ghost use Rattle.er_lines.specs.Lending.{taken_by};

use crate::follower::Follower;
use crate::wanted::{Numbers, Put, Wanted, to_rising};
use crate::{Facts, Noting, Places};
use er_binary::Decoded;
use er_device::Device;
use er_lines::ByText;
use er_report::{Deed, Race, Report, Reports};
use er_text::{Batch, ReadFault, TraceReader};
use er_trace::{NameKeys, Trace};
use std::alloc::{AllocError, Global};
use std::io::Read;

const BATCH_LINES: u32 = 1024;

/// What reads the lines, the trace that each batch fills, and what is kept of the steps so far.
#[derive(Drop)]
struct Finder {
    lines: TraceReader,
    trace: Trace,
    follower: Follower,
}

impl Finder {
    fn new(alloc: Global, byte_limit: u64, keys: NameKeys) -> Result<Finder, AllocError>
        requires { byte_limit ≤ 2 ^ 62 }
        ensures come { IfOk result (λ finder. (wanted : List ℕ) (told : Option (List ℕ)) → HasCome (is_wanted wanted) told told finder.lines finder.trace finder.follower) }
        ensures limit { IfOk result (λ finder. finder.lines.place.limit ≡ byte_limit) }
        ensures taken { IfOk result (λ finder. taken_by finder.lines.place ≡ 0) }
    {
        let lines = TraceReader::with_window(alloc, byte_limit, 65_536)?;
        Ok(Finder {
            lines,
            trace: Trace::keyed(alloc, keys),
            follower: Follower::new(alloc, keys),
        })
    }

    /// Reads a batch, follows its steps and forgets them. Returns whether more can be found: not once each wanted line has its place.
    fn turn<D: Read>(&mut self, reader: &mut Device<D>, wanted: &Numbers) -> Result<bool, ReadFault>
        requires open { has_failed reader.old ≡ false }
        ensures come { (told : Option (List ℕ)) → HasCome (is_wanted wanted.now.keys) told (D.remaining (inner_of reader.old)) self.old.lines self.old.trace self.old.follower
            → IfOk result (λ more. more ≡ true → HasCome (is_wanted wanted.now.keys) told (D.remaining (inner_of reader.new)) self.new.lines self.new.trace self.new.follower) }
        ensures ended { (told : Option (List ℕ)) → HasCome (is_wanted wanted.now.keys) told (D.remaining (inner_of reader.old)) self.old.lines self.old.trace self.old.follower
            → IfOk result (λ more. more ≡ false → HasEnded (is_wanted wanted.now.keys) told self.old.lines.place.limit self.new.trace self.new.follower) }
        ensures fault { (told : Option (List ℕ)) → HasCome (is_wanted wanted.now.keys) told (D.remaining (inner_of reader.old)) self.old.lines self.old.trace self.old.follower
            → IfErr result (λ why. IsFaultOf told self.old.lines.place.limit why) }
        ensures limit { self.new.lines.place.limit ≡ self.old.lines.place.limit }
        ensures more { IfOk result (λ more. more ≡ true → self.old.lines.place.start < self.new.lines.place.start) }
        ensures within { self.new.lines.place.start ≤ self.new.lines.place.limit }
        ensures failed { HasFailedBy (has_failed reader.new) result }
        ensures taken { taken_of reader.new + taken_by self.old.lines.place ≤ taken_of reader.old + taken_by self.new.lines.place }
        ensures most { taken_by self.new.lines.place ≤ self.new.lines.place.limit + bytes_past_limit }
    {
        let batch = self
            .lines
            .next_batch(reader, &ByText, &mut self.trace, BATCH_LINES)?;
        self.follower.follow(wanted, &self.trace)?;
        match batch {
            Batch::End => Ok(false),
            Batch::More => {
                if self.follower.has_all(wanted) {
                    return Ok(false);
                }
                self.trace.clear();
                Ok(true)
            }
        }
    }

    fn run<D: Read>(&mut self, reader: &mut Device<D>, wanted: &Numbers) -> Result<(), ReadFault>
        requires open { has_failed reader.old ≡ false }
        ensures ended { (told : Option (List ℕ)) → HasCome (is_wanted wanted.now.keys) told (D.remaining (inner_of reader.old)) self.old.lines self.old.trace self.old.follower
            → OnOk result (HasEnded (is_wanted wanted.now.keys) told self.old.lines.place.limit self.new.trace self.new.follower) }
        ensures fault { (told : Option (List ℕ)) → HasCome (is_wanted wanted.now.keys) told (D.remaining (inner_of reader.old)) self.old.lines self.old.trace self.old.follower
            → IfErr result (λ why. IsFaultOf told self.old.lines.place.limit why) }
        ensures failed { HasFailedBy (has_failed reader.new) result }
        ensures taken { taken_of reader.new + taken_by self.old.lines.place ≤ taken_of reader.old + self.old.lines.place.limit + bytes_past_limit }
    {
        while self.turn(reader, wanted)? {}
        Ok(())
    }
}

/// What is asked of a trace for these reports: of the lines whose accesses [`places_of_reports`] looks for, and of the words of the races on them. It
/// hashes numbers by these keys.
pub fn facts_of_reports(
    alloc: Global,
    keys: NameKeys,
    reports: &Reports,
) -> Result<Facts, AllocError>
    ensures asked { IfOk result (λ facts. (line : ℕ) → is_wanted (lines_asked facts) line ≡ are_asked reports.now line) }
    ensures rising { IfOk result (λ facts. IsSorted nat_cmp (lines_asked facts)) }
    ensures words { IfOk result (λ facts. IsSorted nat_cmp (words_asked facts)) }
    ensures fresh { IfOk result IsFresh }
{
    let wanted = Wanted::of_reports(alloc, keys, reports)?;
    let lines = to_rising(alloc, &wanted.lines)?;
    let words = to_rising(alloc, &wanted.words)?;
    Ok(Facts::asked(alloc, lines, words))
}

/// Reads a trace text of at most `byte_limit` bytes once more, and returns the places of the accesses that the reasons of each report's first races
/// name. It hashes names by these keys. It reads nothing behind the batch with the last wanted line, and nothing at all if no line is wanted.
pub fn places_of_reports<D: Read>(
    alloc: Global,
    reader: &mut Device<D>,
    byte_limit: u64,
    keys: NameKeys,
    reports: &Reports,
) -> Result<Places, ReadFault>
    requires open { has_failed reader.old ≡ false }
    requires limit { byte_limit ≤ 2 ^ 62 }
    ensures found { IfOk result (λ places. IfSome (D.remaining (inner_of reader.old)) (λ text. ArePlaces (are_asked reports.now) text byte_limit places)) }
    ensures fault { IfErr result (λ why. IsFaultOf (D.remaining (inner_of reader.old)) byte_limit why) }
    ensures failed { HasFailedBy (has_failed reader.new) result }
    ensures taken { taken_of reader.new ≤ taken_of reader.old + byte_limit + bytes_past_limit }
{
    let wanted = Wanted::of_reports(alloc, keys, reports)?;
    if wanted.is_empty() {
        return Ok(Places::new(alloc));
    }
    let mut finder = Finder::new(alloc, byte_limit, keys)?;
    match finder.run(reader, &wanted.lines) {
        Ok(()) => Ok(Places::of(alloc, finder.follower.into_places(), finder.trace)),
        Err(why) => Err(why),
    }
}

/// What is asked of a trace for the races of these reports: of their lines, and of the words that they access.
pub fn asked_of_races(alloc: Global, reports: &Reports) -> Result<Facts, AllocError>
    ensures asked { IfOk result (λ facts. (line : ℕ) → is_wanted (lines_asked facts) line ≡ have_race (is_on line) reports.now) }
    ensures accessed { IfOk result (λ facts. (word : ℕ) → is_wanted (words_asked facts) word ≡ have_race (accesses word) reports.now) }
    ensures rising { IfOk result (λ facts. IsSorted nat_cmp (lines_asked facts)) }
    ensures words { IfOk result (λ facts. IsSorted nat_cmp (words_asked facts)) }
    ensures fresh { IfOk result IsFresh }
{
    let (mut lines, mut words) = (Vec::new(alloc), Vec::new(alloc));
    add_races(&mut lines, &mut words, &reports.lockset)?;
    add_races(&mut lines, &mut words, &reports.unordered)?;
    lines.sort_unstable();
    words.sort_unstable();
    Ok(Facts::asked(alloc, lines, words))
}

/// What a binary trace says of each race of these reports ([`asked_of_races`]): the places and functions that led to it, and the variable that it touched.
/// A text says nothing. No place of an access is known. A trace that can't be read to its end has said what it said before.
pub fn facts_of_races<D: Read + Drop>(
    alloc: Global,
    decoded: Decoded<D>,
    reports: &Reports,
) -> Result<Places, AllocError>
    ensures { IfOk result (λ places. (line : ℕ) → place_at places line ≡ None) }
{
    let facts = asked_of_races(alloc, reports)?;
    let mut noting = Noting { decoded, facts };
    noting.read_on();
    if noting.facts.failed {
        return Err(AllocError);
    }
    Ok(Places::new(alloc).with_facts(noting.into_facts()))
}

// Adds the lines of a report's races, and the numbers of the words that they access.
fn add_races(lines: &mut Vec<u64>, words: &mut Vec<u64>, report: &Option<Report>) -> Put
    ensures lines { OnOk result ((line : ℕ) → is_wanted lines.new.items line ≡ (is_wanted lines.old.items line || has_race (is_on line) report.now)) }
    ensures words { OnOk result ((word : ℕ) → is_wanted words.new.items word ≡ (is_wanted words.old.items word || has_race (accesses word) report.now)) }
{
    let Some(report) = report else {
        return Ok(());
    };
    for line in &report.lines {
        if let Some(race) = line.race() {
            add_race(lines, words, &race)?;
        }
    }
    Ok(())
}

fn add_race(lines: &mut Vec<u64>, words: &mut Vec<u64>, race: &Race<'_>) -> Put
    ensures lines { OnOk result ((line : ℕ) → is_wanted lines.new.items line ≡ (is_wanted lines.old.items line || is_on line race.now)) }
    ensures words { OnOk result ((word : ℕ) → is_wanted words.new.items word ≡ (is_wanted words.old.items word || accesses word race.now)) }
{
    if let Deed::Access(_, word) = race.deed {
        words.push(word.number())?;
    }
    Ok(lines.push(race.line)?)
}
