// What holds of the grammar, and of where reading stops.
ghost use Rattle.std.specs.Prelude.{List};
ghost use Rattle.mage_lex.specs.declared.token.Token.{Token as TokenValue};
ghost use Rattle.mage_tree.specs.Laws.{HasOneTree};
ghost use Rattle.mage_tree.specs.FirstFault.{HasDepthOfRoom, HasOneAnswer};
ghost use Rattle.mage_parser.specs.Laws.{StopsAtFirstWrong, ReadingIsTheGrammar};

/// At most one tree belongs to a list of tokens.
pub fn one_tree()
    ensures { (tokens : List TokenValue) → HasOneTree tokens }
{}

/// Where `parse` answers `Syntax`, what stands before is the front of a source, and no source goes
/// on with the token there, or ends there where no token is left.
pub fn stops_at_first_wrong()
    ensures { (tokens : List TokenValue) → StopsAtFirstWrong tokens }
{}

/// A source within some depth, by the grammar, is a source none of whose tokens is deeper: the
/// grammar counts as open what the depths of the tokens count.
pub fn depth_of_room()
    ensures { (tokens : List TokenValue) → HasDepthOfRoom tokens }
{}

/// Tokens have a source within the depth or a first fault, never both, and one fault at most.
pub fn one_answer()
    ensures { (tokens : List TokenValue) → HasOneAnswer tokens }
{}

/// Reading is the grammar: of any tokens of any text it gives a source exactly where the grammar
/// has that source within the depth, and a fault exactly where it is the first fault of the tokens,
/// `TooDeep` included.
#[tactic(auto, using(crate::proofs::ReadingLaw::reading_is_the_grammar))]
pub fn reading_is_the_grammar()
    ensures { ReadingIsTheGrammar }
{}
