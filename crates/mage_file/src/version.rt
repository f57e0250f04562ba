/// What a file is written in. The first version doesn't spell how many pages the store of a worker has.
#[derive(Clone, Copy, Debug, PartialEq, Eq)]
pub enum Version {
    First,
    Second,
}
