//! Patterns of names: a star stands for any run of bytes, and every other byte for itself.
//!
//! A pattern is taken apart at its stars. The first piece begins the name, the last one ends it, and each piece between stands at the first place
//! behind the one before. So a match takes no memory, and time in proportion to the product of both lengths at most.
ghost use Rattle.std.specs.Prelude.{◌≡◌, ◌==◌, ◌∷◌, ◌++◌, List, ℕ, false, position};
ghost use Rattle.er_rules.specs.Inner.Pieces.{IsSplit, takes_behind};
ghost use Rattle.er_rules.specs.Patterns.{has_star, pattern_takes, star, takes_end};

/// The byte that stands for any run of bytes.
pub(crate) const STAR: u8 = b'*';

/// Whether the pattern takes the name.
pub fn pattern_takes(pattern: &[u8], name: &[u8]) -> bool
    ensures { result ≡ pattern_takes pattern.now name.now }
{
    let (piece, more) = split_star(pattern);
    match (more, name.strip_prefix(piece)) {
        (None, _) => name == piece,
        (Some(more), Some(behind)) => takes_end(more, behind),
        (Some(_), None) => false,
    }
}

// Whether the pattern takes some end of the name.
fn takes_end(pattern: &[u8], name: &[u8]) -> bool
    ensures { result ≡ takes_end (pattern_takes pattern.now) name.now }
{
    let (mut rest, mut left) = (pattern, name);
    loop {
        let (piece, more) = split_star(rest);
        let Some(more) = more else {
            return left.ends_with(piece);
        };
        let Some(behind) = behind_first(piece, left) else {
            return false;
        };
        rest = more;
        left = behind;
    }
}

// What stands behind the first place of a piece in the name, if there is one.
fn behind_first<'a>(piece: &[u8], name: &'a [u8]) -> Option<&'a [u8]>
    requires { has_star piece.now ≡ false }
    ensures { (more : List ℕ) → takes_end (pattern_takes (piece.now ++ star ∷ more)) name.now ≡ takes_behind more result }
{
    let mut left = name;
    loop {
        match (left.strip_prefix(piece), left.split_first()) {
            (Some(behind), _) => return Some(behind),
            (None, Some((_, rest))) => left = rest,
            (None, None) => return None,
        }
    }
}

// What stands in front of the first star of a pattern, and behind it if there is one.
fn split_star(pattern: &[u8]) -> (&[u8], Option<&[u8]>)
    ensures { IsSplit pattern.now result }
{
    match star_in(pattern) {
        Some(place) => (&pattern[..place], Some(&pattern[place + 1..])),
        None => (pattern, None),
    }
}

fn star_in(pattern: &[u8]) -> Option<usize>
    ensures { result ≡ position (λ byte. byte == star) pattern.now }
{
    pattern.iter().position(|byte| *byte == STAR)
}
