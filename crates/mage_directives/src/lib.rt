//! Memory programs whose fields are in their ranges: what the file of one spells, and what its
//! verifier and its walk ask of it. There is no code here.
#![tactic(auto)]
