//! The texts of rules, line by line.
ghost use Rattle.std.specs.Prelude.{◌≡◌, ◌+◌, ◌^◌, ◌<◌, ◌≤◌, IfOk, IfSome, IsErrOf, true, false, not, ◌&&◌};
ghost use Rattle.er_device.specs.Device.{inner_of, has_failed, taken_of};
ghost use Rattle.er_lines.specs.Faults.{HasFailedBy};
ghost use Rattle.er_lines.specs.Lending.{taken_by, lines_left};
ghost use Rattle.er_lines.specs.Lines.{bytes_past_limit};
ghost use Rattle.er_lines.specs.Reading.{Reads, Turns};
ghost use Rattle.er_rules.specs.Inner.RuleLines.{GivesName, GivesRun, GivesRule, fact_rule_in, has_begun, header_in, name_in, site_rule_in, long_run_in, run_rule_in, rule_in, add_line, plain_rule_at, rule_view};
ghost use Rattle.er_rules.specs.Rules.{target_of, targets_of};
ghost use Rattle.er_rules.specs.Texts.{kind_in, TellsRules};

use crate::Done;
use crate::patterns::STAR;
use crate::rules::{FactKind, Rule, Suppressions, WordSpan};
use er_device::Device;
use er_event::Word;
use er_lines::{
    ByText, LineReader, ReadFault, TextKind, Words, fault_at, is_ascii, is_site_name, number,
    says_something, site_text, split_words,
};
use std::alloc::{AllocError, Global};
use std::io::Read;

/// How many bytes are read ahead.
const WINDOW_BYTES: usize = 65_536;

/// Reads a suppression text to its end, or to its first faulty line, in whatever pieces it comes.
///
/// Each line that isn't blank or a comment is a rule: `site NAME`, of which `-` is the missing site, or `words ADDRESS SIZE`, the
/// size in bytes. A line of a race in the report names its site and its address as they are written here. The first of these lines may be
/// `eraser suppressions 2`. Then a site with a star is a pattern of names, and `frame PATTERN`, `function PATTERN` and `variable PATTERN` are rules too.
///
/// The text has at most `byte_limit` bytes, and the limit is at most 2^62. What follows a faulty line may or may not have been taken
/// from the reader. No memory is kept but that of the rules and a window of 65,536 bytes.
pub fn read_suppressions<R: Read>(
    alloc: Global,
    reader: &mut Device<R>,
    byte_limit: u64,
) -> Result<Suppressions, ReadFault>
    requires open { has_failed reader.old ≡ false }
    requires limit { byte_limit ≤ 2 ^ 62 }

    // If the reader's bytes are known, the answer is their rules, or their fault.
    ensures told { IfSome (R.remaining (inner_of reader.old)) (λ text. TellsRules text byte_limit result) }

    ensures failed { HasFailedBy (has_failed reader.new) result }
    ensures taken { taken_of reader.new ≤ taken_of reader.old + byte_limit + bytes_past_limit }
{
    let mut lines = LineReader::new(alloc, byte_limit, WINDOW_BYTES)?;
    let mut is_second = false;
    let mut rules = Suppressions::new(alloc);
    while next_rule(alloc, &mut lines, reader, &mut is_second, &mut rules)? {}
    Ok(rules)
}

/// A rule whose name is still a part of its line.
#[derive(Clone, Copy)]
enum LineRule<'a> {
    Site(Option<&'a str>),
    Sites(&'a str),
    Words(Option<WordSpan>),
    Fact(FactKind, &'a str),
}

/// The only operand of a rule, if it is one and could be a site.
fn name_of<'a>(first: &'a [u8], second: &[u8]) -> Result<&'a str, TextKind>
    ensures { GivesName result (name_in first.now second.now) }
{
    if first.is_empty() {
        return Err(TextKind::MissingOperand);
    }
    if !second.is_empty() {
        return Err(TextKind::ExtraOperand);
    }
    if !is_site_name(first) {
        return Err(TextKind::BadName);
    }
    Ok(site_text(first))
}

/// The rule of a site, which may be one of any trace, or of a pattern in a text of the second edition. `-` names no site.
fn site_rule<'a>(is_second: bool, first: &'a [u8], second: &[u8]) -> Result<LineRule<'a>, TextKind>
    ensures { GivesRule result (site_rule_in is_second first.now second.now) }
{
    let name = name_of(first, second)?;
    if name == "-" {
        return Ok(LineRule::Site(None));
    }
    if is_second && name.as_bytes().contains(&STAR) {
        return Ok(LineRule::Sites(name));
    }
    Ok(LineRule::Site(Some(name)))
}

/// The words that some bytes of memory touch, of which there may be none.
fn run_of(address: u64, size: u64) -> Result<Option<WordSpan>, TextKind>
    ensures { GivesRun result (long_run_in address size) }
{
    if address >= Word::ADDRESSES || size > Word::ADDRESSES - address {
        return Err(TextKind::AddressOutOfRange);
    }
    if size == 0 {
        return Ok(None);
    }
    Ok(Some(WordSpan {
        first: Word::new(address / Word::BYTES),
        last: Word::new((address + size - 1) / Word::BYTES),
    }))
}

fn run_rule<'a>(first: &[u8], second: &[u8], third: &[u8]) -> Result<LineRule<'a>, TextKind>
    ensures { GivesRule result (run_rule_in first.now second.now third.now) }
{
    if second.is_empty() {
        return Err(TextKind::MissingOperand);
    }
    if !third.is_empty() {
        return Err(TextKind::ExtraOperand);
    }
    let address = number(first)?;
    let size = number(second)?;
    Ok(LineRule::Words(run_of(address, size)?))
}

/// The rule that these words write, or the first fault among them.
fn rule_of<'a>(is_second: bool, words: &Words<'a>) -> Result<LineRule<'a>, TextKind>
    ensures { GivesRule result (rule_in is_second words.now.first.now words.now.second.now words.now.third.now words.now.fourth.now) }
{
    if words.first == b"site".as_slice() {
        site_rule(is_second, words.second, words.third)
    } else if words.first == b"words".as_slice() {
        run_rule(words.second, words.third, words.fourth)
    } else {
        fact_rule(kind_in(is_second, words.first), words.second, words.third)
    }
}

/// What this word asks of a trace, in a text of the second edition.
fn kind_in(is_second: bool, word: &[u8]) -> Option<FactKind>
    ensures { result ≡ kind_in is_second word.now }
{
    if !is_second {
        None
    } else if word == b"frame".as_slice() {
        Some(FactKind::Frame)
    } else if word == b"function".as_slice() {
        Some(FactKind::Function)
    } else if word == b"variable".as_slice() {
        Some(FactKind::Variable)
    } else {
        None
    }
}

fn fact_rule<'a>(
    kind: Option<FactKind>,
    first: &'a [u8],
    second: &[u8],
) -> Result<LineRule<'a>, TextKind>
    ensures { GivesRule result (fact_rule_in kind first.now second.now) }
{
    match kind {
        Some(kind) => Ok(LineRule::Fact(kind, name_of(first, second)?)),
        None => Err(TextKind::BadVerb),
    }
}

/// The rule, with a name of its own.
fn owned(alloc: Global, rule: &LineRule<'_>) -> Result<Rule, AllocError>
    ensures { IfOk result (λ owned. target_of owned ≡ rule_view rule.now) }
{
    match *rule {
        LineRule::Site(Some(name)) => Ok(Rule::Site(Some(String::from_str(alloc, name)?))),
        LineRule::Site(None) => Ok(Rule::Site(None)),
        LineRule::Sites(pattern) => Ok(Rule::Sites(String::from_str(alloc, pattern)?)),
        LineRule::Words(words) => Ok(Rule::Words(words)),
        LineRule::Fact(kind, pattern) => Ok(Rule::Fact(kind, String::from_str(alloc, pattern)?)),
    }
}

/// Whether these words are the header of the second edition.
fn is_header(words: &Words<'_>) -> bool
    ensures { result ≡ header_in words.now.first.now words.now.second.now words.now.third.now words.now.fourth.now }
{
    words.first == b"eraser".as_slice()
        && words.second == b"suppressions".as_slice()
        && words.third == b"2".as_slice()
        && words.fourth.is_empty()
}

/// Whether they are, and nothing was read before them.
fn is_first_header(is_second: bool, rules: &Suppressions, words: &Words<'_>) -> bool
    ensures { result ≡ (not (has_begun (is_second, targets_of rules.now)) && header_in words.now.first.now words.now.second.now words.now.third.now words.now.fourth.now) }
{
    !is_second && rules.is_empty() && is_header(words)
}

/// Adds the rule of a line in the limits, if it has one.
fn add_line(
    alloc: Global,
    is_second: &mut bool,
    rules: &mut Suppressions,
    line: u64,
    bytes: &[u8],
) -> Done
    ensures added { Reads line (is_second.new, targets_of rules.new) result (plain_rule_at (is_second.old, targets_of rules.old) bytes.now) }
    ensures failed { IsErrOf result ReadFault.Read → ⊥ }
{
    if !is_ascii(bytes) {
        return Err(fault_at(line, TextKind::NotAscii));
    }
    let words = split_words(bytes);
    if !says_something(words.first, bytes) {
        return Ok(());
    }
    if is_first_header(*is_second, rules, &words) {
        *is_second = true;
        return Ok(());
    }
    match rule_of(*is_second, &words) {
        Err(kind) => Err(fault_at(line, kind)),
        Ok(rule) => {
            rules.push(owned(alloc, &rule)?)?;
            Ok(())
        }
    }
}

/// Reads the next line, and says whether there was one.
fn next_rule<R: Read>(
    alloc: Global,
    lines: &mut LineReader,
    reader: &mut Device<R>,
    is_second: &mut bool,
    rules: &mut Suppressions,
) -> Result<bool, ReadFault>
    requires open { has_failed reader.old ≡ false }
    ensures turn { Turns lines.old.limit add_line (lines_left lines.old (R.remaining (inner_of reader.old)))
        (lines_left lines.new (R.remaining (inner_of reader.new))) (is_second.old, targets_of rules.old) (is_second.new, targets_of rules.new) result }
    ensures limit { lines.new.limit ≡ lines.old.limit }
    ensures more { IfOk result (λ more. more ≡ true → lines.old.start < lines.new.start) }
    ensures within { lines.new.start ≤ lines.new.limit }
    ensures failed { HasFailedBy (has_failed reader.new) result }
    ensures taken { taken_of reader.new + taken_by lines.old ≤ taken_of reader.old + taken_by lines.new }
    ensures most { taken_by lines.new ≤ lines.new.limit + bytes_past_limit }
{
    let Some(front) = lines.find(reader, &ByText)? else {
        return Ok(false);
    };
    let line = lines.number();
    let bytes = lines.bytes(front);
    add_line(alloc, is_second, rules, line, bytes)?;
    lines.pass(front);
    Ok(true)
}
