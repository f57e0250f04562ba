// The tree of a source. It keeps every token that the grammar doesn't fix and every token at which
// a fault can stand: `word` is the first token of a statement or the keyword of an expression, `ty`
// a type word, `eq` the `=`, and the token beside an index or a length is its `[`.
use mage_lex::Token;
use sqlite_items::{Boxed, Items};

/// A place: a name, or an item of an array.
#[derive(Debug, Drop)]
pub struct Item {
    pub name: Token,
    pub index: Option<(Token, ConstExpr)>,
}

/// A statement.
#[derive(Debug, Drop)]
pub enum Stmt {
    Constant {
        word: Token,
        name: Token,
        value: ConstExpr,
    },
    Input {
        word: Token,
        party: Token,
        name: Token,
        ty: Token,
        length: Option<(Token, ConstExpr)>,
    },
    Let {
        word: Token,
        name: Token,
        value: Boxed<Expr>,
    },
    Array {
        word: Token,
        name: Token,
        ty: Token,
        length: (Token, ConstExpr),
        eq: Token,
        value: Boxed<Expr>,
    },
    Assign {
        place: Item,
        eq: Token,
        value: Boxed<Expr>,
    },
    Move {
        word: Token,
        name: Token,
        place: Item,
    },
    On {
        word: Token,
        worker: ConstExpr,
        body: Items<Stmt>,
    },
    For {
        word: Token,
        name: Token,
        from: ConstExpr,
        to: ConstExpr,
        body: Items<Stmt>,
    },
    If {
        word: Token,
        left: ConstExpr,
        op: Token,
        right: ConstExpr,
        yes: Items<Stmt>,
        no: Option<Items<Stmt>>,
    },
    Output {
        word: Token,
        value: Boxed<Expr>,
    },
}

/// An expression over secret values. A chain is one level of binary operators other than shifts; a
/// level without an operator makes no node.
#[derive(Debug, Drop)]
pub enum Expr {
    Chain {
        first: Boxed<Expr>,
        rest: Items<(Token, Expr)>,
    },
    Shift {
        first: Boxed<Expr>,
        rest: Items<(Token, ConstExpr)>,
    },
    Not {
        op: Token,
        of: Boxed<Expr>,
    },
    Item(Item),
    Paren {
        bracket: Token,
        inner: Boxed<Expr>,
    },
    Lit {
        word: Token,
        ty: Token,
        value: ConstExpr,
    },
    Resize {
        word: Token,
        ty: Token,
        of: Boxed<Expr>,
    },
    Mux {
        word: Token,
        args: Items<Expr>,
    },
    /// `min` or `max` of two operands, or `count` of one.
    Call {
        word: Token,
        args: Items<Expr>,
    },
}

/// An expression over public whole numbers.
#[derive(Debug, Drop)]
pub enum ConstExpr {
    Chain {
        first: Boxed<ConstExpr>,
        rest: Items<(Token, ConstExpr)>,
    },
    Minus {
        op: Token,
        of: Boxed<ConstExpr>,
    },
    Number(Token),
    Name(Token),
    Paren {
        bracket: Token,
        inner: Boxed<ConstExpr>,
    },
}
