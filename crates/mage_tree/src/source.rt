// A source.
ghost use Rattle.std.specs.Prelude.{◌≡◌, List, Option};
ghost use Rattle.std.specs.Option.{option_copied};
ghost use Rattle.mage_tree.specs.Sources.{HasTokens};

use crate::Stmt;
use mage_lex::Token;
use sqlite_items::Items;
use std::marker::Model;

/// A source: the number of workers where it is given, and the statements. It is the tree of its
/// tokens by the grammar, with at most 100 brackets and signs open at once.
#[derive(Debug, Drop)]
pub struct Source {
    workers: Option<Token>,
    body: Items<Stmt>,
}

impl Model for Source {
    ghost use Rattle.mage_tree.specs.Sources.{Tree, HasTokens};
    ghost use Rattle.mage_tree.specs.contracts.tree.Stmt as row;
    ghost use Rattle.std.specs.Coded.{codes};

    ghost Value = { Tree };

    ghost coded = { Prim.hlevel (codes, row.the_row.coded) };

    ghost view = { λ s. record { workers = s.workers; body = s.body } };

    ghost invariant = { λ s. HasTokens s.workers s.body };
}

impl Source {
    /// The source of these parts, which are the tree of some tokens.
    pub fn from_parts(workers: Option<Token>, body: Items<Stmt>) -> Source
        requires { HasTokens workers body }
        ensures { result ≡ record { workers = workers; body = body } }
    {
        Source { workers, body }
    }

    /// The number of workers, where it is given.
    pub fn workers(&self) -> Option<&Token>
        ensures value { option_copied result ≡ self.now.workers }
        ensures tokens { HasTokens self.now.workers self.now.body }
    {
        self.workers.as_ref()
    }

    /// The statements.
    pub fn body(&self) -> &[Stmt]
        ensures value { result.now ≡ self.now.body }
        ensures tokens { HasTokens self.now.workers self.now.body }
    {
        self.body.as_slice()
    }
}
