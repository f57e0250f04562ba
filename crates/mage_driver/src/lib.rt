//! Drivers: whoever makes gates over wires, with rules as plain data; and the circuit of each instruction over any
//! driver's rules.
#![tactic(auto)]

mod driver;
mod laws;
mod standing;

pub use driver::Driver;
pub use laws::ands_are_counted;
pub use standing::Standing;
