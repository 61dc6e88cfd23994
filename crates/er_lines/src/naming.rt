//! Words that are names of threads and locks, or of sites.
ghost use Rattle.std.specs.Prelude.{◌≡◌, IsTrue};
ghost use Rattle.std.specs.List.{list_all};
ghost use Rattle.er_lines.specs.Naming.{is_name, is_lock_name, is_name_byte, is_site_byte, is_site_name, name_of, lock_name_of};
ghost use Rattle.er_lines.specs.Words.{seen_name};

use crate::classes::{are_name_blocks, is_name_byte, is_site_byte};

fn has_name_bytes(word: &[u8]) -> bool
    ensures { result ≡ list_all is_name_byte word.now }
{
    if word.len() >= 16 && are_name_blocks(word) {
        return true;
    }
    word.iter().all(|byte| is_name_byte(*byte))
}

/// Whether a word is a name.
pub fn is_name(word: &[u8]) -> bool
    ensures { result ≡ is_name word.now }
{
    !word.is_empty() && word.len() <= 128 && has_name_bytes(word)
}

/// Whether a word is the name of a lock.
pub fn is_lock_name(word: &[u8]) -> bool
    ensures { result ≡ is_lock_name word.now }
{
    word != b"none".as_slice() && is_name(word)
}

/// Whether a word names a site in a text of the last version, or is `-`.
pub fn is_site_name(word: &[u8]) -> bool
    ensures { result ≡ is_site_name word.now }
{
    !word.is_empty() && word.len() <= 128 && word.iter().all(|byte| is_site_byte(*byte))
}

/// A word of a site's bytes, which are ASCII, as text.
pub fn site_text(word: &[u8]) -> &str
    requires { IsTrue (list_all is_site_byte word.now) }
    ensures { result.now ≡ word.now }
{
    // The proof of the call's condition is in proofs/naming/site_text.
    unsafe { str::from_utf8_unchecked(word) }
}

/// A word of name bytes as text.
pub fn name_text(word: &[u8]) -> &str
    requires { IsTrue (list_all is_name_byte word.now) }
    ensures { result.now ≡ word.now }
{
    site_text(word)
}

/// The name that a word is.
pub fn name_of(word: &[u8]) -> Option<&str>
    ensures { seen_name result ≡ name_of word.now }
{
    if !is_name(word) {
        return None;
    }
    Some(name_text(word))
}

/// The name of a lock that a word is.
pub fn lock_name_of(word: &[u8]) -> Option<&str>
    ensures { seen_name result ≡ lock_name_of word.now }
{
    if word == b"none".as_slice() {
        return None;
    }
    name_of(word)
}
