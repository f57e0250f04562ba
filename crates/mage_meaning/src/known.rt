// What names stand for while a source is evaluated.
use crate::width::Width;
use sqlite_items::Items;

/// A number of a width.
#[derive(Clone, Copy, Debug)]
pub struct Wide {
    pub width: Width,
    pub value: u128,
}

/// Numbers of one width.
#[derive(Debug, Drop)]
pub struct Row {
    /// The width of each item.
    pub width: Width,
    pub values: Items<u128>,
}

/// What a name stands for.
#[derive(Debug, Drop)]
pub enum Known {
    Constant(i128),
    Number(Wide),
    Array(Row),
}
