//! Dashes that stand where a command line has none: a word with one dash in front, and a dash alone as
//! the value of an option in a word of its own.
ghost use Rattle.std.specs.Prelude.{◌≡◌, false, option_map};
ghost use Rattle.dw_base.specs.Texts.{is_in};
ghost use Rattle.dbg_words.specs.CommandLines.{look_of, valued_options};
ghost use Rattle.dbg_words.specs.Dashes.{awaits, behind_dash, ends_options, is_lone, is_short, has_stray_dash};
ghost use Rattle.dbg_words.specs.Words.{texts};

/// Whether the option of the name takes a value.
fn is_valued(name: &[u8]) -> bool
    ensures value { result ≡ is_in valued_options name.now }
{
    b"base-dir".as_slice() == name
        || b"dest-dir".as_slice() == name
        || b"seed".as_slice() == name
        || b"list-file".as_slice() == name
        || b"max-file".as_slice() == name
        || b"jobs".as_slice() == name
        || b"more-maps".as_slice() == name
}

/// What stands behind a dash in front.
fn behind_dash(word: &[u8]) -> Option<&[u8]>
    ensures value { option_map (λ rest. rest.now) result ≡ behind_dash word.now }
{
    match word {
        [b'-', rest @ ..] => Some(rest),
        _ => None,
    }
}

/// Whether the word names an option whose value is the next word.
#[tactic(auto, using(crate::proofs::DashLaws::dash_laws))]
fn awaits_value(word: &[u8]) -> bool
    ensures value { result ≡ awaits (look_of word.now) }
{
    let Some(rest) = behind_dash(word) else {
        return false;
    };
    match behind_dash(rest) {
        None => false,
        Some(name) => is_valued(name),
    }
}

/// Whether the word has one dash in front of something.
#[tactic(auto, using(crate::proofs::DashLaws::dash_laws))]
fn is_short(word: &[u8]) -> bool
    ensures value { result ≡ is_short (look_of word.now) }
{
    let Some(rest) = behind_dash(word) else {
        return false;
    };
    if rest.is_empty() {
        return false;
    }
    behind_dash(rest).is_none()
}

/// Whether the word is two dashes alone.
fn ends_options(word: &[u8]) -> bool
    ensures value { result ≡ ends_options word.now }
{
    word == b"--".as_slice()
}

/// Whether the word is a dash alone, where a value is due.
fn is_lone(waits: bool, word: &[u8]) -> bool
    ensures value { result ≡ is_lone waits word.now }
{
    waits && word == b"-".as_slice()
}

/// Whether a dash stands where a command line has none.
pub fn has_stray_dash(words: &[String]) -> bool
    ensures value { result ≡ has_stray_dash false (texts words.now) }
{
    let mut waits = false;
    for word in words {
        let word = word.as_bytes();
        if ends_options(word) {
            return false;
        }
        if is_short(word) {
            return true;
        }
        if is_lone(waits, word) {
            return true;
        }
        waits = awaits_value(word);
    }
    false
}
