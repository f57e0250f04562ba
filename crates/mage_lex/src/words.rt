// The words of the language.
ghost use Rattle.std.specs.Prelude.{◌≡◌};
ghost use Rattle.std.specs.List.{list_any, list_all};
ghost use Rattle.std.specs.Str.{bytes_eq};
ghost use Rattle.std.specs.Char.{is_ascii_digit};
ghost use Rattle.mage_lex.specs.Words.{is_keyword, is_type_word, is_name};

const KEYWORDS: [&str; 17] = [
    "workers",
    "const",
    "input",
    "garbler",
    "evaluator",
    "let",
    "array",
    "move",
    "on",
    "for",
    "in",
    "if",
    "else",
    "output",
    "lit",
    "resize",
    "mux",
];

fn is_among(words: &[&str], word: &[u8]) -> bool
    ensures { result ≡ list_any (λ known. bytes_eq word.now known.now) words.now }
{
    words.iter().any(|known| word == known.as_bytes())
}

fn are_digits(bytes: &[u8]) -> bool
    ensures { result ≡ list_all is_ascii_digit bytes.now }
{
    bytes.iter().all(|byte| byte.is_ascii_digit())
}

/// Whether the word is one of the language's own.
#[tactic(auto, unfolding(crate::specs::Words::is_keyword))]
pub fn is_keyword(word: &[u8]) -> bool
    ensures { result ≡ is_keyword word.now }
{
    is_among(&KEYWORDS, word)
}

/// Whether the word names a type: a `u`, then one digit or more and nothing else.
pub fn is_type_word(word: &[u8]) -> bool
    ensures { result ≡ is_type_word word.now }
{
    match word.split_first() {
        Some((first, digits)) => *first == b'u' && !digits.is_empty() && are_digits(digits),
        None => false,
    }
}

/// Whether the word is a name: any word but a keyword or a type word.
pub fn is_name(word: &[u8]) -> bool
    ensures { result ≡ is_name word.now }
{
    !is_keyword(word) && !is_type_word(word)
}
