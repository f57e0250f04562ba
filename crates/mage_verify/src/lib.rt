//! Whether a memory program can go wrong: what is verified never names a frame, a slot or a store page that isn't there,
//! never finds a slot in another state than it asks for, and has no worker that waits for another for ever.
#![tactic(auto)]

mod fault;
mod joint;
mod leaving;
mod part;
mod range;
mod slot;
mod swapping;
mod swaps;
mod turn;
mod verified;
mod verifying;

pub use fault::VerifyFault;
pub use part::Part;
pub use slot::Slot;
pub use turn::{Place, Stand, Turn};
pub use verified::Verified;
pub use verifying::verify;
