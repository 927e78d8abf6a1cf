//! One word, two words and three words.
ghost use Rattle.std.specs.Prelude.{◌≡◌, option_map, map};
ghost use Rattle.dbg_words.specs.Words.{one_of, two_of, three_of};

/// The word, where there is one.

pub fn one_of<'a>(words: &[&'a str]) -> Option<&'a str>
    ensures value { option_map (λ w. w.now) result ≡ one_of (map (λ w. w.now) words.now) }
{
    match words {
        [first] => Some(*first),
        _ => None,
    }
}

/// The two words, where there are two.

pub fn two_of<'a>(words: &[&'a str]) -> Option<(&'a str, &'a str)>
    ensures value { option_map (λ w. (w.0.now, w.1.now)) result ≡ two_of (map (λ w. w.now) words.now) }
{
    match words {
        [first, second] => Some((*first, *second)),
        _ => None,
    }
}

/// The three words, where there are three.

pub fn three_of<'a>(words: &[&'a str]) -> Option<(&'a str, &'a str, &'a str)>
    ensures value { option_map (λ w. (w.0.now, w.1.now, w.2.now)) result ≡ three_of (map (λ w. w.now) words.now) }
{
    match words {
        [first, second, third] => Some((*first, *second, *third)),
        _ => None,
    }
}
