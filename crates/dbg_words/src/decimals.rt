//! Numbers in words: decimal digits without a leading zero.
ghost use Rattle.std.specs.Prelude.{◌≡◌, ◌≤◌, IfSome};
ghost use Rattle.std.specs.Char.{is_ascii_digit};
ghost use Rattle.std.specs.List.{list_all};
ghost use Rattle.dbg_words.specs.Decimals.{is_decimal, number_within};

/// Whether each of the bytes is a decimal digit.
fn are_digits(word: &[u8]) -> bool
    ensures value { result ≡ list_all is_ascii_digit word.now }
{
    word.iter().all(|b| b.is_ascii_digit())
}

/// Whether the word is a number: one digit or more, and no zero with something behind it.
fn is_decimal(word: &[u8]) -> bool
    ensures value { result ≡ is_decimal word.now }
{
    !word.is_empty() && are_digits(word) && !(word.len() > 1 && word[0] == b'0')
}

/// The number that a word writes, where it writes one from `least` to `most`.
#[tactic(auto, unfolding(crate::specs::Decimals::number_within))]
pub fn number_within(least: u64, most: u64, word: &str) -> Option<u64>
    ensures value { result ≡ number_within least most word.now }
    ensures within { IfSome result (λ n. (least ≤ n) × (n ≤ most)) }
{
    if !is_decimal(word.as_bytes()) {
        return None;
    }
    let Ok(number) = word.parse::<u64>() else {
        return None;
    };
    if number < least || number > most {
        return None;
    }
    Some(number)
}
