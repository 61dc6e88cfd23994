//! Words that name sites in a text of some version.
ghost use Rattle.std.specs.Prelude.{◌≡◌};
ghost use Rattle.er_text.specs.Naming.{is_site_word};

use crate::verbs::Version;
use er_lines::{is_name, is_site_name};

/// Whether a word names a site in a text of this version, or is `-`. Most sites are names, which every version allows.
pub(crate) fn is_site_word(version: Version, word: &[u8]) -> bool
    ensures { result ≡ is_site_word version word.now }
{
    is_name(word) || version.is_third() && is_site_name(word)
}
