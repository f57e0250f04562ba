// What a port answers when it is asked whether a transfer is done.
use mage_base::Damage;

/// The transfer that was asked for is done: a page was read, or written.
#[derive(Clone, Copy, Debug, PartialEq, Eq)]
pub enum Ready {
    Read,
    Wrote,
}

/// Why a transfer isn't done.
#[derive(Clone, Copy, Debug, PartialEq, Eq)]
pub enum PortWait {
    /// It is under way.
    Pending,
    /// A store failed. The slot answers this from now on.
    Failed,
    /// The page came back other than it was written. The slot answers this from now on.
    Damaged(Damage),
}
