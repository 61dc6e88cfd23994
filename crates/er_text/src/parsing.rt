//! What the words of a line say.
ghost use Rattle.std.specs.Prelude.{◌≡◌, ℕ, List};
ghost use Rattle.er_lines.specs.Lines.{words};
ghost use Rattle.er_text.specs.Verbs.{verb_of, version_of};
ghost use Rattle.er_text.specs.Trace.{is_end};
ghost use Rattle.er_text.specs.Inner.Idle.{other_thread};
ghost use Rattle.er_lines.specs.Words.{AreWords, GivesSite, seen_name};
ghost use Rattle.er_text.specs.Inner.Parsing.{GivesName, GivesOperation, GivesEventLine, event_line, count_of, name_in, lock_in, site_in, word_in, level_in, run_in, access_in, reuse_in, operands_in, operation_in, parsed_by};

use crate::naming::is_site_word;
use crate::verbs::{Verb, Version, verb_of};
use er_event::{Kind, Level, Mode, Refusal, Word, WordRange};
use er_lines::{TextKind, Words, lock_name_of, name_of, number, site_text};

/// What a thread does, by names.
#[derive(Clone, Copy)]
pub(crate) enum Action<'a> {
    Acquire(&'a str, Mode),
    Release(&'a str, Mode),
    Access(Kind, Word, Option<&'a str>),
    Reuse(Option<WordRange>, Option<&'a str>),
    IgnoreOn,
    IgnoreOff,
    Show(Word),
    Level(Level),
    Start(&'a str),
    Join(&'a str),
    Signal(&'a str),
    Await(&'a str),
}

/// What the words of an action say, or the first fault among them.
type Said<'a> = Result<Action<'a>, TextKind>;

/// What a line says.
#[derive(Clone, Copy)]
pub(crate) struct ParsedLine<'a> {
    pub(crate) thread: &'a str,
    pub(crate) action: Action<'a>,
}

impl<'a> ParsedLine<'a> {
    /// The thread that a start or a join names.
    pub(crate) fn other_thread(&self) -> Option<&'a str>
        ensures { seen_name result ≡ other_thread (event_line self.now).operation }
    {
        match self.action {
            Action::Start(other) | Action::Join(other) => Some(other),
            _ => None,
        }
    }
}

/// The version, where these are the words of a header.
pub(crate) fn version_of(words: &Words<'_>) -> Option<Version>
    ensures { result ≡ version_of words.now.first.now words.now.second.now words.now.third.now words.now.fourth.now }
{
    let begins = words.first == b"eraser".as_slice() && words.second == b"trace".as_slice();
    if !begins || !words.fourth.is_empty() {
        return None;
    }
    match words.third {
        b"1" => Some(Version::One),
        b"2" => Some(Version::Two),
        b"3" => Some(Version::Three),
        _ => None,
    }
}

/// Whether these are the words of the line `end`.
pub(crate) fn is_end(version: Version, words: &Words<'_>) -> bool
    ensures { (ws : List (List ℕ)) → AreWords ws words.now → result ≡ is_end version ws }
{
    version.is_third() && words.first == b"end".as_slice() && words.second.is_empty()
}

/// What the words of an event line say, or the first fault among them.
pub(crate) fn parse<'a>(version: Version, words: &Words<'a>) -> Result<ParsedLine<'a>, TextKind>
    ensures { GivesEventLine result (parsed_by version words.now) }
{
    let thread = thread(words.first)?;
    if words.second.is_empty() {
        return Err(TextKind::MissingOperand);
    }
    match parse_action(version, words) {
        Ok(action) => Ok(ParsedLine { thread, action }),
        Err(kind) => Err(kind),
    }
}

/// How many operands there are, up to 4.
fn operand_count(words: &Words<'_>) -> u32
    ensures { result ≡ count_of words.now.third.now words.now.fourth.now words.now.fifth.now words.now.sixth.now }
{
    if words.third.is_empty() {
        0
    } else if words.fourth.is_empty() {
        1
    } else if words.fifth.is_empty() {
        2
    } else if words.sixth.is_empty() {
        3
    } else {
        4
    }
}

fn parse_action<'a>(version: Version, words: &Words<'a>) -> Said<'a>
    ensures { GivesOperation result (operation_in version (verb_of version words.now.second.now) words.now.third.now words.now.fourth.now words.now.fifth.now words.now.sixth.now) }
{
    let verb = verb_of(version, words.second).ok_or(TextKind::BadVerb)?;
    let count = operand_count(words);
    let (least, most) = verb.operands(version);
    if count < least {
        return Err(TextKind::MissingOperand);
    }
    if count > most {
        return Err(TextKind::ExtraOperand);
    }
    operands(version, verb, words.third, words.fourth, words.fifth)
}

fn operands<'a>(
    version: Version,
    verb: Verb,
    first: &'a [u8],
    second: &'a [u8],
    third: &'a [u8],
) -> Said<'a>
    ensures { GivesOperation result (operands_in version verb first.now second.now third.now) }
{
    match verb {
        Verb::Lock => Ok(Action::Acquire(lock(first)?, Mode::Write)),
        Verb::Unlock => Ok(Action::Release(lock(first)?, Mode::Write)),
        Verb::ReadLock => Ok(Action::Acquire(lock(first)?, Mode::Read)),
        Verb::ReadUnlock => Ok(Action::Release(lock(first)?, Mode::Read)),
        Verb::Read => access(version, Kind::Read, first, second),
        Verb::Write => access(version, Kind::Write, first, second),
        Verb::Reuse => reuse(version, first, second, third),
        Verb::IgnoreOn => Ok(Action::IgnoreOn),
        Verb::IgnoreOff => Ok(Action::IgnoreOff),
        Verb::Show => Ok(Action::Show(word_at(number(first)?)?)),
        Verb::Level => Ok(Action::Level(level_of(number(first)?)?)),
        Verb::Start => Ok(Action::Start(thread(first)?)),
        Verb::Join => Ok(Action::Join(thread(first)?)),
        Verb::Signal => Ok(Action::Signal(lock(first)?)),
        Verb::Await => Ok(Action::Await(lock(first)?)),
    }
}

fn access<'a>(version: Version, kind: Kind, address: &'a [u8], site: &'a [u8]) -> Said<'a>
    ensures { GivesOperation result (access_in version kind address.now site.now) }
{
    let address = number(address)?;
    let site = site_of(version, site)?;
    Ok(Action::Access(kind, word_at(address)?, site))
}

fn reuse<'a>(version: Version, address: &'a [u8], size: &'a [u8], site: &'a [u8]) -> Said<'a>
    ensures { GivesOperation result (reuse_in version address.now size.now site.now) }
{
    let address = number(address)?;
    let size = number(size)?;
    let site = site_of(version, site)?;
    Ok(Action::Reuse(range_of(address, size)?, site))
}

fn thread(word: &[u8]) -> Result<&str, TextKind>
    ensures { GivesName result (name_in word.now) }
{
    name_of(word).ok_or(TextKind::BadName)
}

fn lock(word: &[u8]) -> Result<&str, TextKind>
    ensures { GivesName result (lock_in word.now) }
{
    lock_name_of(word).ok_or(TextKind::BadName)
}

/// The site that a word names in a text of this version. A missing word and `-` name none.
fn site_of(version: Version, word: &[u8]) -> Result<Option<&str>, TextKind>
    ensures { GivesSite result (site_in version word.now) }
{
    if word.is_empty() || word == b"-".as_slice() {
        return Ok(None);
    }
    if !is_site_word(version, word) {
        return Err(TextKind::BadName);
    }
    Ok(Some(site_text(word)))
}

fn word_at(address: u64) -> Result<Word, TextKind>
    ensures { result ≡ word_in address }
{
    Word::of_address(address).or(Err(TextKind::AddressOutOfRange))
}

pub(crate) fn level_of(number: u64) -> Result<Level, TextKind>
    ensures { result ≡ level_in number }
{
    Level::of_number(number).or(Err(TextKind::LevelTooHigh))
}

pub(crate) fn range_of(address: u64, size: u64) -> Result<Option<WordRange>, TextKind>
    ensures { result ≡ run_in address size }
{
    match WordRange::of_bytes(address, size) {
        Ok(range) => Ok(range),
        Err(Refusal::SizeTooLarge) => Err(TextKind::SizeTooLarge),
        Err(_) => Err(TextKind::AddressOutOfRange),
    }
}
