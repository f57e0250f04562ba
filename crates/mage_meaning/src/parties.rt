// The party that an input comes from.
ghost use Rattle.std.specs.Prelude.{◌≡◌};
ghost use Rattle.mage_meaning.specs.Value.{is_evaluator};

use mage_lex::Token;
use mage_tree::bytes_of;

/// Whether the party is the evaluator.
pub fn is_evaluator(party: &Token) -> bool
    ensures { result ≡ is_evaluator party.now }
{
    bytes_of(party) == b"evaluator".as_slice()
}
