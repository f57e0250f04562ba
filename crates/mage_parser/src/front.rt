// The first token.
ghost use Rattle.std.specs.Prelude.{◌≡◌, List, Result};
ghost use Rattle.mage_parser.specs.Reads.{Gives, begins, calls, one, after_one};

use crate::stop::Stop;
use mage_lex::{Token, symbols};
use mage_tree::{Class, fits};

// Whether the first token is of the class.
#[tactic(auto, unfolding(crate::specs::Reads::begins))]
pub fn begins(tokens: &[Token], class: Class) -> bool
    ensures { result ≡ begins class tokens.now }
{
    match tokens.split_first() {
        Some((token, _)) => fits(token, class),
        None => false,
    }
}

// Whether the first token is a word of the class and `(` is the next.
#[tactic(auto, unfolding(crate::specs::Reads::calls))]
pub fn calls(tokens: &[Token], class: Class) -> bool
    ensures { result ≡ calls class tokens.now }
{
    match tokens.split_first() {
        Some((word, rest)) => fits(word, class) && begins(rest, Class::Symbol(symbols::OPEN_PAREN)),
        None => false,
    }
}

// The first token, which has to be of the class, and the tokens after it.
#[tactic(auto, unfolding(crate::specs::Reads::one))]
pub fn one(tokens: &[Token], class: Class) -> Result<(Token, &[Token]), Stop>
    ensures { Gives (λ x. (x.0, x.1.now)) result (one class tokens.now) }
{
    match tokens.split_first() {
        Some((token, rest)) => {
            if fits(token, class) {
                Ok((token.try_clone()?, rest))
            } else {
                Err(Stop::Syntax(tokens.len()))
            }
        }
        None => Err(Stop::Syntax(0)),
    }
}

// The tokens after the first, which has to be of the class.
#[tactic(auto, unfolding(crate::specs::Reads::after_one))]
pub fn after_one(tokens: &[Token], class: Class) -> Result<&[Token], Stop>
    ensures { Gives (λ x. x.now) result (after_one class tokens.now) }
{
    match tokens.split_first() {
        Some((token, rest)) => {
            if fits(token, class) {
                Ok(rest)
            } else {
                Err(Stop::Syntax(tokens.len()))
            }
        }
        None => Err(Stop::Syntax(0)),
    }
}
