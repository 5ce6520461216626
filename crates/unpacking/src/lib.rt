// What is written of an accepted bundle: its records in their slots, and the slots of its exports.
#![tactic(auto)]

pub mod exports;
pub mod records;
