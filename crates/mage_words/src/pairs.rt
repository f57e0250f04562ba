// The form of pairs of words.
ghost use Rattle.std.specs.Prelude.{◌≡◌, ◌==◌, ◌<◌, length, is_some, IfSome, IfNone};
ghost use Rattle.std.specs.List.{list_any};
ghost use Rattle.mage_words.specs.Words.{is_option_word, is_value_word, pairs_of, bytes_of_words};

fn has_equals_sign(word: &[u8]) -> bool
    ensures { result ≡ list_any (λ byte. byte == 61) word.now }
{
    word.iter().any(|byte| *byte == b'=')
}

// Whether the word is two dashes, at least one byte more, and no `=`.
fn is_option_word(word: &[u8]) -> bool
    ensures { result ≡ is_option_word word.now }
{
    word.starts_with(b"--") && word.len() > 2 && !has_equals_sign(word)
}

// Whether the word isn't empty, and doesn't begin with a dash.
fn is_value_word(word: &[u8]) -> bool
    ensures { result ≡ is_value_word word.now }
{
    match word.split_first() {
        Some((first, _)) => *first != b'-',
        None => false,
    }
}

// The words behind the first two, where these are a pair.
fn behind_pair(words: &[String]) -> Option<&[String]>
    ensures pairs { IfSome result (λ rest. is_some (pairs_of (bytes_of_words rest.now))
        ≡ is_some (pairs_of (bytes_of_words words.now))) }
    ensures fewer { IfSome result (λ rest. length rest.now < length words.now) }
    ensures none { IfNone result
        ((length words.now == 0) ≡ is_some (pairs_of (bytes_of_words words.now))) }
{
    let [option, value, rest @ ..] = words else {
        return None;
    };
    if is_option_word(option.as_str().as_bytes()) && is_value_word(value.as_str().as_bytes()) {
        Some(rest)
    } else {
        None
    }
}

/// Whether the words are pairs of an option's word and a value.
pub fn are_pairs(words: &[String]) -> bool
    ensures { result ≡ is_some (pairs_of (bytes_of_words words.now)) }
{
    let mut rest = words;
    while let Some(others) = behind_pair(rest) {
        rest = others;
    }
    rest.is_empty()
}
