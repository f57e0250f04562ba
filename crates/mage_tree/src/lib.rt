//! The tree of a source, and the grammar that says which tokens it is the tree of.
#![tactic(auto)]

mod class;
mod membership;
mod source;
mod tree;
mod words;

pub use class::{Callable, Class, Keyword};
pub use membership::fits;
pub use source::Source;
pub use tree::{ConstExpr, Expr, Item, Stmt};
pub use words::{bytes_of, callable_of, width_of_type};
