//! The symbols of the language, each by its row.
ghost use Rattle.std.specs.Prelude.{◌≡◌};
ghost use Rattle.mage_lex.specs.Symbols.{symbol_bytes};
ghost use Rattle.mage_lex.specs.Names.{AreNamed};

// The symbols by row: those of two bytes stand before those of one, so the first that fits is the
// longest.
pub(crate) const SYMBOLS: [&str; 24] = [
    "..", "==", "<<", ">>", ";", ":", ",", "(", ")", "[", "]", "{", "}", "=", "<", "+", "-", "*",
    "/", "%", "&", "^", "|", "!",
];

/// How the symbol of this row is spelled. A row that no symbol has, 24 or more, has the empty text.
#[tactic(auto, using(crate::proofs::SymbolLemmas::no_symbol), unfolding(crate::specs::Symbols::symbol_bytes))]
pub fn symbol_text(row: u8) -> &'static str
    ensures { result.now ≡ symbol_bytes row }
{
    if row < 24 {
        SYMBOLS[usize::from(row)]
    } else {
        ""
    }
}

/// Each constant of this module is the row that the definitions call so, and its symbol is spelled
/// as it says.
#[tactic(auto, using(crate::proofs::SymbolLemmas::are_named))]
pub fn symbols_are_named()
    ensures { AreNamed }
{}

/// `..`
pub const DOTS: u8 = 0;
/// `==`
pub const EQUALS: u8 = 1;
/// `<<`
pub const SHIFT_LEFT: u8 = 2;
/// `>>`
pub const SHIFT_RIGHT: u8 = 3;
/// `;`
pub const SEMICOLON: u8 = 4;
/// `:`
pub const COLON: u8 = 5;
/// `,`
pub const COMMA: u8 = 6;
/// `(`
pub const OPEN_PAREN: u8 = 7;
/// `)`
pub const CLOSE_PAREN: u8 = 8;
/// `[`
pub const OPEN_BRACKET: u8 = 9;
/// `]`
pub const CLOSE_BRACKET: u8 = 10;
/// `{`
pub const OPEN_BRACE: u8 = 11;
/// `}`
pub const CLOSE_BRACE: u8 = 12;
/// `=`
pub const ASSIGN: u8 = 13;
/// `<`
pub const LESS: u8 = 14;
/// `+`
pub const PLUS: u8 = 15;
/// `-`
pub const MINUS: u8 = 16;
/// `*`
pub const TIMES: u8 = 17;
/// `/`
pub const DIVIDE: u8 = 18;
/// `%`
pub const REMAINDER: u8 = 19;
/// `&`
pub const AND: u8 = 20;
/// `^`
pub const XOR: u8 = 21;
/// `|`
pub const OR: u8 = 22;
/// `!`
pub const NOT: u8 = 23;
