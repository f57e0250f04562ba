// A fault at a token.
ghost use Rattle.std.specs.Prelude.{◌≡◌};
ghost use Rattle.mage_constants.specs.Answer.{fault_at};

use mage_lex::{LangFault, LangKind, Token};

/// A fault of this kind at a token.
pub fn fault_at(kind: LangKind, token: &Token) -> LangFault
    ensures { result ≡ fault_at kind token.now }
{
    LangFault::At {
        kind,
        line: token.line,
        column: token.column,
    }
}
