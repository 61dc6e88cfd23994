//! Where to look in a faulty line, and what to do about the fault.
ghost use Rattle.std.specs.Prelude.{◌≤◌, length, IfSome};

use er_text::TextKind;

// How a file begins that is no text, and what helps.
#[rattlefmt::skip]
const FILES: [(&[u8], &str); 7] = [
    (&[31, 139], "the file is compressed by gzip; try: gzip -dc FILE | eraser replay -"),
    (&[40, 181, 47, 253], "the file is compressed by zstd; try: zstd -dc FILE | eraser replay -"),
    (&[253, 55, 122, 88, 90, 0], "the file is compressed by xz; try: xz -dc FILE | eraser replay -"),
    (&[80, 75, 3, 4], "the file is a zip archive; unpack it first"),
    (&[239, 187, 191], "the file begins with a byte-order mark; take its first three bytes away"),
    (&[255, 254], WIDE_TEXT),
    (&[254, 255], WIDE_TEXT),
];

const WIDE_TEXT: &str = "the file is in UTF-16; convert it: iconv -f UTF-16 -t ASCII FILE";

/// What helps with a file that begins so, if that is no text.
pub(crate) fn file_hint(head: &[u8]) -> Option<&'static str> {
    let (_, hint) = FILES.iter().find(|row| head.starts_with(row.0))?;
    Some(*hint)
}

/// The byte of the line at which a person should look, and a hint, which may be empty. The byte is the first one if no place is known.
#[rattlefmt::skip]
pub(crate) fn row_of(kind: TextKind, of_rules: bool, line: &[u8]) -> (usize, &'static str)
    ensures { result.0 ≤ length line.now }
{
    if let [before @ .., b'\r'] = line {
        return (before.len(), "the line ends with CR LF; take the CRs away: tr -d '\\r' < FILE");
    }
    // Rules have no thread and no verb in front of their operands, as steps have.
    let front = if of_rules { 0 } else { 1 };
    let (verb, operand, size) = (word_start(line, front), word_start(line, front + 1), word_start(line, front + 2));
    let step = &line[verb..];
    match kind {
        TextKind::LineTooLong => (0, "a line has at most 1024 bytes; is this a text?"),
        TextKind::TextTooLong => (0, "the option --byte-limit BYTES takes a longer text"),
        TextKind::NotAscii => (find(line, |byte| byte >= 128).unwrap_or(0), "a text has bytes of ASCII alone"),
        TextKind::NoHeader if line.starts_with(b"eraser trace ") => (0, "the header has a version that this program does not know"),
        TextKind::NoHeader => (0, "the first line of a trace is its header, eraser trace 1"),
        TextKind::BadName if of_rules => (name_at(line), "a site has 1 to 128 printable bytes"),
        TextKind::BadName if begins(step, &[b"read", b"write", b"reuse"]) =>
            (name_at(line), "a name has 1 to 128 letters, digits and _ . : / - and a site of a trace 3 has any printable bytes"),
        TextKind::BadName => (name_at(line), "a name has 1 to 128 letters, digits and _ . : / - and no lock is named none"),
        TextKind::MissingOperand => (line.len(), "the line ends early; was the file cut off?"),
        TextKind::BadVerb if of_rules && begins(step, &[b"frame ", b"function ", b"variable "]) =>
            (verb, "the rules frame, function and variable need the header eraser suppressions 2"),
        TextKind::BadVerb if of_rules && begins(step, &[b"eraser suppressions "]) =>
            (verb, "the one header of rules is eraser suppressions 2, in front of all of them"),
        TextKind::BadVerb if of_rules => (verb, "a rule is: site SITE, or: words ADDRESS BYTES"),
        TextKind::BadVerb if begins(line, &[b"damaged at byte ", b"cut off at byte "]) =>
            (0, "the option --until-fault reports what the binary trace has before this byte"),
        TextKind::BadVerb if begins(step, &[b"level"]) => (verb, "the verb level needs the header eraser trace 2"),
        TextKind::BadVerb if begins(step, &[b"start", b"join", b"signal", b"await"]) =>
            (verb, "the verbs start, join, signal and await need the header eraser trace 3"),
        TextKind::BadVerb => (verb, "verbs are lock, unlock, rlock, runlock, read, write, reuse, ignore-on, ignore-off, show"),
        TextKind::ExtraOperand if line.contains(&b'#') => (extra_at(line), "a comment needs a line of its own"),
        TextKind::ExtraOperand if begins(step, &[b"reuse"]) =>
            (extra_at(line), "a reuse has one site at most, and needs the header eraser trace 3 for that"),
        TextKind::ExtraOperand => (extra_at(line), ""),
        TextKind::BadNumber => (0, "a number has decimal digits, or 0x and hexadecimal digits, and is below 2^64"),
        TextKind::SizeTooLarge => (size, "a reuse has at most 4194304 bytes; write several"),
        TextKind::AddressOutOfRange => (operand, "addresses are below 2^48"),
        TextKind::LevelTooHigh => (operand, "levels are 0 to 31"),
        TextKind::OwnThread => (operand, "a thread neither starts nor joins itself"),
        TextKind::AlreadyRunning => (operand, "a thread is started before its first line; was its name used before?"),
        TextKind::AfterEnd => (0, "nothing but comments follows the line end; are these two traces?"),
    }
}

fn begins(bytes: &[u8], fronts: &[&[u8]]) -> bool {
    fronts.iter().any(|front| bytes.starts_with(front))
}

/// Where a word is too long, or else has a byte that stands in no site, or else one that stands in no name, or 0.
pub(crate) fn name_at(line: &[u8]) -> usize
    ensures { result ≤ length line.now }
{
    let place = long_word(line)
        .or(find(line, is_hidden))
        .or(find(line, is_foreign));
    place.unwrap_or(0)
}

// Where the first word of more than 128 bytes begins.
fn long_word(line: &[u8]) -> Option<usize>
    ensures { IfSome result (λ start. start ≤ length line.now) }
{
    let mut start = 0;
    for at in 0..line.len() {
        if is_gap(line[at]) {
            start = at + 1;
        } else if at - start >= 128 {
            return Some(start);
        }
    }
    None
}

// Whether the byte isn't printable, and parts no words.
fn is_hidden(byte: u8) -> bool {
    byte != b'\t' && (byte < b' ' || byte > b'~')
}

// Whether the byte stands in no name, and parts no words.
fn is_foreign(byte: u8) -> bool {
    !(byte.is_ascii_alphanumeric() || b"_.:/- \t".contains(&byte))
}

fn is_gap(byte: u8) -> bool {
    byte == b' ' || byte == b'\t'
}

/// Where the first byte stands that passes the test.
pub(crate) fn find<F: Fn(u8) -> bool>(line: &[u8], test: F) -> Option<usize>
    requires { F.IsAlwaysCallable test }
    ensures { IfSome result (λ place. place ≤ length line.now) }
{
    line.iter().position(|byte| test(*byte))
}

/// Where a comment begins behind a step, or else the last word.
pub(crate) fn extra_at(line: &[u8]) -> usize
    ensures { result ≤ length line.now }
{
    if let Some(place) = find(line, |byte| byte == b'#') {
        return place;
    }
    match line.iter().rposition(|byte| is_gap(*byte)) {
        Some(gap) => gap + 1,
        None => 0,
    }
}

/// Where the word with so many words before it begins, or the line's end if there are fewer.
pub(crate) fn word_start(line: &[u8], words: usize) -> usize
    ensures { result ≤ length line.now }
{
    let start = find(line, |byte| !is_gap(byte)).unwrap_or(line.len());
    if words == 0 {
        return start;
    }
    let rest = &line[start..];
    let end = start + find(rest, is_gap).unwrap_or(rest.len());
    end + word_start(&line[end..], words - 1)
}
