// What a sealed port knows of one of its slots.
use mage_base::Damage;

/// The page that the slot was asked to read last, and the damage that was found.
#[derive(Clone, Copy, Debug, PartialEq, Eq)]
pub(crate) struct Watch {
    pub(crate) page: u32,
    pub(crate) damage: Option<Damage>,
}
