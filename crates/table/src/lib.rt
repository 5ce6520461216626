// The lent word table from the base on, whose words are slots. How many words a slot has, and where they stand, is known here alone.
#![tactic(auto)]

pub mod base;
pub mod limits;
pub mod slots;
