//! Words that may be a base or a destination, and the paths under a base.

ghost use Rattle.std.specs.Prelude.{◌≡◌, ◌≤◌, length, IsTrue};
ghost use Rattle.dw_base.specs.Paths.{is_prefix, lies_under, without_end_slashes};

/// The longest base or destination, in bytes, without the slashes at its end.
const PREFIX_LIMIT: usize = 4096;

/// Whether a word may be a base or a destination: it begins with a slash, it has no NUL, and without
/// the slashes at its end it isn't empty and has at most 4,096 bytes.
#[tactic(auto, unfolding(dw_base::specs::Paths::is_prefix))]
pub fn is_prefix(word: &[u8]) -> bool
    ensures value { result ≡ is_prefix word.now }
{
    let len = without_slashes(word).len();
    word.starts_with(b"/") && !word.contains(&0) && len > 0 && len <= PREFIX_LIMIT
}

/// A word without the slashes at its end.
#[tactic(auto, using(crate::proofs::Rules::slash_rules))]
pub fn without_slashes(word: &[u8]) -> &[u8]
    ensures value { result.now ≡ without_end_slashes word.now }
{
    let mut len = word.len();
    'slashes: while len > 0 {
        if word[len - 1] != b'/' {
            return &word[..len];
        }
        len -= 1;
    }
    &word[..0]
}

/// Whether a path lies under the base: it is the base, or the base and a slash begin it.
#[tactic(auto, unfolding(dw_base::specs::Paths::lies_under))]
pub fn lies_under(base: &[u8], text: &[u8]) -> bool
    ensures value { result ≡ lies_under base.now text.now }
    ensures bound { IsTrue result → length base.now ≤ length text.now }
{
    text.starts_with(base) && (text.len() == base.len() || text[base.len()] == b'/')
}
