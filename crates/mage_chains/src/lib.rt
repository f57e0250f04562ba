//! Steps one after another, each of which gives a value or an error: what definitions in many
//! crates are written in, and what is known of the parts of such a chain that ended well. There is
//! no code here.
#![tactic(auto)]
